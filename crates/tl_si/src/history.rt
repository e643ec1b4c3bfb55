//! The check of a history.

ghost use Rattle.std.specs.List.{list_any};
ghost use Rattle.std.specs.Prelude.{IsTrue, ◌==◌, ◌≡◌, ◌<◌, ◌^◌, IfErr, IfOk, OnOk, length};
ghost use Rattle.tl_isolation.specs.History as history;
ghost use Rattle.tl_isolation.specs.Tables.{table_of};
ghost use Rattle.tl_si.specs.Faults.{IsFault};
ghost use Rattle.tl_si.specs.Shown.{shown};
ghost use Rattle.tl_si.specs.Sound.{IsSound, change_keeps, keep_keys, keeps_key, statement_keeps};
ghost use Rattle.tl_si.specs.Stops.{Stepped};
ghost use Rattle.tl_si.specs.declared.history.CheckFault.TheVariants as fault;

use crate::answer::answer;
use crate::begin::{ask, begin};
use crate::commit::{clash, commit, try_commit};
use crate::held::Held;
use crate::said::say;
use crate::state::{State, opening_state};
use crate::stop::Stop;
use crate::undo::undo;
use crate::vanish::vanish;
use std::alloc::Global;
use thiserror::Error;
use tl_algebra::{Edit, SetColumn};
use tl_base::{Items, NoMemory};
use tl_isolation::{Bound, Entry, SiState, Transaction};
use tl_schema::{Catalog, Setup};

/// Why there is no state after the entries.
#[derive(Clone, Copy, Debug, PartialEq, Eq, Error)]
pub enum CheckFault {
    /// The entry at this place, from 0, isn't allowed after those before it, which are a history.
    #[error("entry {at} breaks snapshot isolation")]
    FirstFault { at: u32 },
    #[error("out of memory")]
    NoMemory,
}

impl From<NoMemory> for CheckFault {
    ghost from_gives = { λ _ e. e ≡ fault.NoMemory };

    fn from(_error: NoMemory) -> CheckFault {
        CheckFault::NoMemory
    }
}

/// The state after the entries, where they are a history of what began with the setup; else the first entry that
/// breaks it. The entries are fewer than 2^32, and a SET in them leaves the columns of the primary key.
pub fn check(alloc: Global, setup: &Setup, entries: &[Entry]) -> Result<SiState, CheckFault>
    requires few { length entries.now < 2 ^ 32 }
    requires keys { IsTrue (keep_keys setup.now.catalog entries.now) }
    ensures history { OnOk result (history.IsHistory setup.now entries.now) }
    ensures state { IfOk result (λ state. state ≡ history.state_after setup.now entries.now) }
    ensures fault { IfErr result (IsFault setup.now entries.now) }
{
    let mut state = opening_state(alloc, setup)?;
    for (at, entry) in entries.iter().enumerate() {
        match step(alloc, &setup.catalog, &mut state, entry) {
            Ok(()) => {}
            Err(Stop::Breaks) => return Err(CheckFault::FirstFault { at: at as u32 }),
            Err(Stop::NoMemory) => return Err(CheckFault::NoMemory),
        }
    }
    Ok(into_si(alloc, state)?)
}

/// Whether each SET in the entries leaves the columns of its table's primary key, as in all statements that are bound.
pub fn keep_keys(catalog: &Catalog, entries: &[Entry]) -> bool
    ensures { result ≡ keep_keys catalog.now entries.now }
{
    entries.iter().all(|entry| keeps_key(catalog, entry))
}

fn keeps_key(catalog: &Catalog, entry: &Entry) -> bool
    ensures { result ≡ keeps_key catalog.now entry.now }
{
    match entry {
        Entry::Said { bound, .. } => statement_keeps(catalog, bound),
        _ => true,
    }
}

fn statement_keeps(catalog: &Catalog, bound: &Bound) -> bool
    ensures { result ≡ statement_keeps catalog.now bound.now }
{
    match bound {
        Bound::Change { edit } => change_keeps(catalog, edit),
        _ => true,
    }
}

fn change_keeps(catalog: &Catalog, edit: &Edit) -> bool
    ensures { result ≡ change_keeps catalog.now edit.now }
{
    match edit {
        Edit::Update { table, sets, .. } => !set_any(key_of(catalog, *table), sets.as_slice()),
        Edit::Insert { .. } | Edit::Delete { .. } => true,
    }
}

/// The columns of the primary key of the table of this number, and none where there is no such table.
fn key_of(catalog: &Catalog, number: u8) -> &[u8]
    ensures { result.now ≡ (table_of catalog.now number).key }
{
    match catalog.tables.get(usize::from(number)) {
        Some(table) => table.key.as_slice(),
        None => &[],
    }
}

/// Whether one of the columns is set.
fn set_any(columns: &[u8], sets: &[SetColumn]) -> bool
    ensures { result ≡ list_any (λ set. list_any (λ place. place == set.column) columns.now) sets.now }
{
    sets.iter().any(|set| is_among(set, columns))
}

fn is_among(set: &SetColumn, columns: &[u8]) -> bool
    ensures { result ≡ list_any (λ place. place == set.now.column) columns.now }
{
    columns.iter().any(|place| *place == set.column)
}

/// One entry more.
fn step(alloc: Global, catalog: &Catalog, state: &mut State, entry: &Entry) -> Result<(), Stop>
    requires few { length state.old.commits < 2 ^ 32 }
    requires sound { IsSound catalog.now (shown state.old) }
    ensures { Stepped catalog.now state.old entry.now result state.new }
{
    match entry {
        Entry::Asked { node } => ask(state, *node),
        Entry::Began { node, tid, first } => begin(alloc, state, *node, *tid, *first),
        Entry::Said { node, bound, said } => say(alloc, catalog, state, *node, bound, said),
        Entry::Tried { tid } => try_commit(state, *tid),
        Entry::Clash { tid, rival, at } => clash(state, *tid, *rival, *at),
        Entry::Committed { tid } => commit(alloc, state, *tid),
        Entry::Undone { tid } => undo(state, *tid),
        Entry::Answered {
            node,
            answer: told,
            ..
        } => answer(state, *node, told),
        Entry::Vanished { node, .. } => vanish(alloc, state, *node),
    }
}

fn into_si(alloc: Global, state: State) -> Result<SiState, NoMemory>
    ensures { IfOk result (λ si. si ≡ shown state) }
{
    let State {
        commits,
        begun,
        vanished,
        held,
        nodes,
    } = state;
    Ok(SiState {
        commits: commits.into_commits(),
        begun: begun.into_tids(),
        vanished,
        held: transactions(alloc, held)?,
        nodes: Items::from_vec(nodes),
    })
}

fn transactions(alloc: Global, held: Vec<Held>) -> Result<Items<Transaction>, NoMemory>
    ensures { IfOk result (λ ts. ts ≡ held.items) }
{
    let mut transactions = Items::new(alloc);
    for t in held {
        transactions.push(t.into_transaction())?;
    }
    Ok(transactions)
}
