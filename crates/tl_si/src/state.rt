//! The state of snapshot isolation, and what is read off it.

ghost use Rattle.std.specs.Option.{option_copied};
ghost use Rattle.std.specs.Prelude.{is_none, ◌≡◌, ◌≤◌, insert, ◌==◌, position, length, IfOk, OnOk, Some};
ghost use Rattle.tl_isolation.specs.State as si;
ghost use Rattle.tl_isolation.specs.Tables as tables;
ghost use Rattle.tl_schema.specs.Record as record_of;
ghost use Rattle.tl_si.specs.Shown.{shown, TakesOut};

use crate::begun::Begun;
use crate::held::Held;
use crate::past::Past;
use std::alloc::Global;
use tl_base::{Duplicate, Items, NoMemory, NodeId, NodeSet, Text, Tid};
use tl_isolation::{Commit, NodeState};
use tl_schema::{Catalog, OpeningRow, Setup, Table, record_key};
use tl_write::{Buffer, Write};

/// The state of snapshot isolation, with the past so kept that no statement goes through all commits.
#[derive(Drop)]
pub struct State {
    pub commits: Past,
    pub begun: Begun,
    pub vanished: NodeSet,
    /// At most one of each node.
    pub held: Vec<Held>,
    /// The nodes that have anything in hand.
    pub nodes: Vec<NodeState>,
}

impl State {
    /// The transaction that the node holds.
    pub fn held_by(&self, node: NodeId) -> Option<&Held>
        ensures { option_copied result ≡ si.held_by node self.now.held.items }
    {
        self.held.iter().find(|t| t.node == node)
    }

    /// Whether the node holds no transaction.
    pub fn holds_none(&self, node: NodeId) -> bool
        ensures { result ≡ is_none (si.held_by node self.now.held.items) }
    {
        self.held_by(node).is_none()
    }

    /// The held transaction of this number.
    pub fn held_as(&self, tid: Tid) -> Option<&Held>
        ensures { option_copied result ≡ si.held_as tid self.now.held.items }
    {
        self.held.iter().find(|t| t.tid == tid)
    }

    /// The transaction that a node holds, taken out of the list, with its place there.
    pub fn take_by(&mut self, node: NodeId) -> Option<(usize, Held)>
        ensures { TakesOut (λ t. t.node == node) self.old result self.new }
    {
        match place_by(self.held.as_slice(), node) {
            Some(at) => Some((at, self.held.remove(at))),
            None => None,
        }
    }

    /// The held transaction of this number, taken out of the list, with its place there.
    pub fn take_as(&mut self, tid: Tid) -> Option<(usize, Held)>
        ensures { TakesOut (λ t. t.tid == tid) self.old result self.new }
    {
        match place_as(self.held.as_slice(), tid) {
            Some(at) => Some((at, self.held.remove(at))),
            None => None,
        }
    }

    /// Puts a transaction where one was taken out.
    pub fn put_back(&mut self, at: usize, t: Held) -> Result<(), NoMemory>
        requires { at ≤ length self.old.held.items }
        ensures { OnOk result (shown self.new ≡ record (shown self.old) { held = insert self.old.held.items at t }) }
    {
        self.held.insert(at, t)?;
        Ok(())
    }
}

/// The place of the transaction that a node holds.
fn place_by(held: &[Held], node: NodeId) -> Option<usize>
    ensures { result ≡ position (λ t. t.node == node) held.now }
{
    held.iter().position(|t| t.node == node)
}

/// The place of the held transaction of this number.
fn place_as(held: &[Held], tid: Tid) -> Option<usize>
    ensures { result ≡ position (λ t. t.tid == tid) held.now }
{
    held.iter().position(|t| t.tid == tid)
}

/// The state before the first entry.
pub fn opening_state(alloc: Global, setup: &Setup) -> Result<State, NoMemory>
    ensures { IfOk result (λ state. shown state ≡ si.opening_state setup.now) }
{
    let writes = opening_writes(alloc, &setup.catalog, setup.rows.as_slice())?;
    let commit = Commit {
        tid: 0,
        writes: Items::from_vec(writes.into_vec()),
    };
    Ok(State {
        commits: Past::new(alloc).with(commit)?,
        begun: Begun::new(alloc),
        vanished: NodeSet::new(),
        held: Vec::new(alloc),
        nodes: Vec::new(alloc),
    })
}

/// The opening rows, in rising order of record keys. Of two with one key the first one stays.
fn opening_writes(alloc: Global, catalog: &Catalog, rows: &[OpeningRow]) -> Result<Buffer, NoMemory>
    ensures { IfOk result (λ writes. writes ≡ tables.opening_writes catalog.now rows.now) }
{
    let none = no_table(alloc)?;
    let mut writes = Buffer::new(alloc);
    let mut at = rows.len();
    while at > 0 {
        at -= 1;
        writes.put(opening_write(alloc, table_of(catalog, rows[at].table, &none), &rows[at])?)?;
    }
    Ok(writes)
}

fn opening_write(alloc: Global, table: &Table, opening: &OpeningRow) -> Result<Write, NoMemory>
    ensures { let o = opening.now in IfOk result (λ write. write ≡ record { key = record_of.record_key o.table table.now o.row; row = Some o.row }) }
{
    let key = record_key(alloc, opening.table, table, &opening.row)?;
    let row = Some(opening.row.copy()?);
    Ok(Write { key, row })
}

/// The table of this number, or `none`, which has no columns.
pub fn table_of<'a>(catalog: &'a Catalog, number: u8, none: &'a Table) -> &'a Table
    requires { none.now ≡ tables.no_table }
    ensures { result.now ≡ tables.table_of catalog.now number }
{
    catalog
        .tables
        .as_slice()
        .get(usize::from(number))
        .unwrap_or(none)
}

/// The table that stands for a number without one: it has no columns.
pub fn no_table(alloc: Global) -> Result<Table, NoMemory>
    ensures { IfOk result (λ table. table ≡ tables.no_table) }
{
    Ok(Table {
        name: Text::from_str(alloc, "")?,
        columns: Items::new(alloc),
        key: Items::new(alloc),
        indexes: Items::new(alloc),
    })
}
