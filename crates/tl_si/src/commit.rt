//! `Tried`, `Clash` and `Committed`.

ghost use Rattle.std.specs.Prelude.{◌↔◌, IsTrue, ◌≡◌, ◌==◌, ◌&&◌};
ghost use Rattle.std.specs.List.{list_any};
ghost use Rattle.tl_schema.specs.declared.catalog.Catalog.{Catalog};
ghost use Rattle.tl_write.specs.Own.{is_written};
ghost use Rattle.tl_isolation.specs.declared.state.SiState.{SiState};
ghost use Rattle.tl_isolation.specs.Step as step;
ghost use Rattle.tl_isolation.specs.Step.{Allowed};
ghost use Rattle.tl_si.specs.Shown.{shown};
ghost use Rattle.tl_si.specs.Stops.{Stepped};
ghost use Rattle.tl_si.specs.Sound.{AreAlone};

use crate::held::Held;
use crate::past::Past;
use crate::state::State;
use crate::stop::Stop;
use crate::undo::end_with;
use std::alloc::Global;
use std::mem;
use tl_base::{Bytes, Items, Tid};
use tl_isolation::{Answer, Commit, Entry, TxnPhase};
use tl_write::Write;

/// The transaction is about to commit.
pub fn try_commit(state: &mut State, tid: Tid) -> Result<(), Stop>
    requires { AreAlone state.old.held.items }
    ensures { (catalog : Catalog) → Stepped catalog state.old (Entry.Tried tid) result state.new }
{
    let Some((at, t)) = state.take_as(tid) else {
        return Err(Stop::Breaks);
    };
    if !t.may_try() {
        return Err(Stop::Breaks);
    }
    state.put_back(at, trying(t))?;
    Ok(())
}

fn trying(t: Held) -> Held
    ensures { result ≡ step.try_commit t }
{
    Held {
        phase: TxnPhase::Trying,
        tried: true,
        ..t
    }
}

/// The transaction meets a rival in the own record at this place.
pub fn clash(state: &mut State, tid: Tid, rival: Tid, at: u32) -> Result<(), Stop>
    requires { AreAlone state.old.held.items }
    ensures { (catalog : Catalog) → Stepped catalog state.old (Entry.Clash tid rival at) result state.new }
{
    if !may_clash(state, tid, rival, at) {
        return Err(Stop::Breaks);
    }
    let Some((place, t)) = state.take_as(tid) else {
        return Err(Stop::Breaks);
    };
    state.put_back(place, meet_rival(rival, t))?;
    Ok(())
}

fn meet_rival(rival: Tid, t: Held) -> Held
    ensures { result ≡ step.meet_rival rival t }
{
    Held {
        phase: TxnPhase::Undoing,
        rival: Some(rival),
        ..t
    }
}

fn may_clash(state: &State, tid: Tid, rival: Tid, at: u32) -> bool
    ensures { (catalog : Catalog) → IsTrue result ↔ Allowed catalog (shown state.now) (Entry.Clash tid rival at) }
{
    match state.held_as(tid) {
        Some(t) => meets_rival(state, t, rival, at),
        None => false,
    }
}

fn meets_rival(state: &State, t: &Held, rival: Tid, at: u32) -> bool
    ensures { IsTrue result ↔ step.MayClash (shown state.now) rival at t.now }
{
    match t.own.writes().get(at as usize) {
        Some(write) => {
            t.phase == TxnPhase::Trying && rival != t.tid && is_rival(state, t, rival, &write.key)
        }
        None => false,
    }
}

/// Whether a commit after the snapshot or a transaction that tried, of this number, writes the key.
fn is_rival(state: &State, t: &Held, rival: Tid, key: &Bytes) -> bool
    ensures { result ≡ step.is_rival (shown state.now) t.now rival key.now }
{
    committed_as(rival, key, state.commits.later(t.first))
        || tried_as(rival, key, state.held.as_slice())
}

fn committed_as(rival: Tid, key: &Bytes, commits: &[Commit]) -> bool
    ensures { result ≡ list_any (λ c. (c.tid == rival) && is_written key.now c.writes) commits.now }
{
    commits.iter().any(|commit| commit.tid == rival && is_written(key, commit.writes.as_slice()))
}

fn tried_as(rival: Tid, key: &Bytes, held: &[Held]) -> bool
    ensures { result ≡ list_any (λ h. (h.tid == rival) && h.tried && is_written key.now h.own) held.now }
{
    held.iter().any(|t| has_tried_as(t, rival, key))
}

fn has_tried_as(t: &Held, rival: Tid, key: &Bytes) -> bool
    ensures { result ≡ ((t.now.tid == rival) && t.now.tried && is_written key.now t.now.own) }
{
    t.tid == rival && t.tried && t.own.contains(key)
}

/// Whether a write of the key is among the writes.
fn is_written(key: &Bytes, writes: &[Write]) -> bool
    ensures { result ≡ is_written key.now writes.now }
{
    writes.iter().any(|write| write.key.cmp(key).is_eq())
}

/// What the transaction wrote is a commit, and its node has the waiting answer to give, or `committed`.
pub fn commit(alloc: Global, state: &mut State, tid: Tid) -> Result<(), Stop>
    ensures { (catalog : Catalog) → Stepped catalog state.old (Entry.Committed tid) result state.new }
{
    let Some((_, t)) = state.take_as(tid) else {
        return Err(Stop::Breaks);
    };
    if !may_commit(&state.commits, &t) {
        return Err(Stop::Breaks);
    }
    let Held {
        node,
        own,
        phase,
        unanswered,
        ..
    } = t;
    let past = mem::replace(&mut state.commits, Past::new(alloc));
    let writes = Items::from_vec(own.into_vec());
    state.commits = past.with(Commit { tid, writes })?;
    end_with(state, tid, node, phase, commit_answer(unanswered))?;
    Ok(())
}

fn may_commit(past: &Past, t: &Held) -> bool
    ensures { (state : SiState) → state.commits ≡ past.now → result ≡ (step.is_ready t.now && step.is_alone state t.now) }
{
    t.is_ready() && !any_overlaps(t.own.writes(), past.later(t.first))
}

fn any_overlaps(own: &[Write], commits: &[Commit]) -> bool
    ensures { result ≡ list_any (λ c. list_any (λ w. is_written w.key c.writes) own.now) commits.now }
{
    commits
        .iter()
        .any(|commit| overlaps(own, commit.writes.as_slice()))
}

fn overlaps(own: &[Write], writes: &[Write]) -> bool
    ensures { result ≡ list_any (λ w. is_written w.key writes.now) own.now }
{
    own.iter().any(|write| is_written(&write.key, writes))
}

fn commit_answer(unanswered: Option<Answer>) -> Answer
    ensures { result ≡ step.commit_answer unanswered }
{
    unanswered.unwrap_or(Answer::Committed)
}
