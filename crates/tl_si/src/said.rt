//! `Said`.

ghost use Rattle.std.specs.Prelude.{◌≡◌, ◌==◌, ◌&&◌};
ghost use Rattle.std.specs.List.{list_any};
ghost use Rattle.tl_schema.specs.declared.catalog.Catalog.{Catalog};
ghost use Rattle.tl_isolation.specs.declared.entry.Said.{Said};
ghost use Rattle.tl_isolation.specs.State as si;
ghost use Rattle.tl_isolation.specs.Step as step;
ghost use Rattle.tl_si.specs.Shown.{shown};
ghost use Rattle.tl_si.specs.Sound.{AreAlone, IsSound};
ghost use Rattle.tl_si.specs.Statements as statements;
ghost use Rattle.tl_si.specs.Statements.{Taken};
ghost use Rattle.tl_si.specs.Stops.{Stepped};

use crate::answer::{tells_recovered, tells_there};
use crate::held::Held;
use crate::nodes;
use crate::state::State;
use crate::statement::{select, take_change};
use crate::stop::Stop;
use std::alloc::Global;
use tl_base::NodeId;
use tl_isolation::{Answer, Bound, Entry, Said, TxnPhase};
use tl_schema::Catalog;

/// The node says this of the statement, where its meaning and the transaction's state let it; an answered statement
/// removes the note.
pub fn say(
    alloc: Global,
    catalog: &Catalog,
    state: &mut State,
    node: NodeId,
    bound: &Bound,
    said: &Said,
) -> Result<(), Stop>
    requires { IsSound catalog.now (shown state.old) }
    ensures { Stepped catalog.now state.old (Entry.Said node bound.now said.now) result state.new }
{
    if state.vanished.contains(node) {
        return Err(Stop::Breaks);
    }
    take_statement(alloc, catalog, state, node, bound, said)?;
    if said.answered {
        nodes::note(&mut state.nodes, node, None)?;
    }
    Ok(())
}

fn take_statement(
    alloc: Global,
    catalog: &Catalog,
    state: &mut State,
    node: NodeId,
    bound: &Bound,
    said: &Said,
) -> Result<(), Stop>
    requires { IsSound catalog.now (shown state.old) }
    ensures { Taken catalog.now state.old node bound.now said.now result state.new }
{
    match bound {
        Bound::Begin => open(state, node, said),
        Bound::Commit | Bound::Rollback => refuse_outside(state, node, said),
        Bound::Recover { node: gone } => recover(state, node, *gone, said),
        Bound::Select { query } => select(alloc, state, node, query, said),
        Bound::Change { edit } => take_change(alloc, catalog, state, node, edit, said),
    }
}

/// BEGIN opens a fresh transaction, and is refused inside one.
fn open(state: &mut State, node: NodeId, said: &Said) -> Result<(), Stop>
    requires { AreAlone state.old.held.items }
    ensures { (catalog : Catalog) → Taken catalog state.old node Bound.Begin said.now result state.new }
{
    let Some((at, t)) = state.take_by(node) else {
        return Err(Stop::Breaks);
    };
    if !said.answered || !may_answer_begin(&t, &said.answer) {
        return Err(Stop::Breaks);
    }
    state.put_back(at, open_by_begin(t))?;
    Ok(())
}

fn may_answer_begin(t: &Held, told: &Answer) -> bool
    ensures { result ≡ statements.may_answer_begin t.now told.now }
{
    match told {
        Answer::Begun => t.is_fresh(),
        Answer::Nested => t.is_open(),
        _ => false,
    }
}

fn open_by_begin(t: Held) -> Held
    ensures { result ≡ step.open_by_begin t }
{
    if t.is_fresh() {
        Held { opened: true, ..t }
    } else {
        t
    }
}

/// COMMIT and ROLLBACK are refused outside a transaction.
fn refuse_outside(state: &mut State, node: NodeId, said: &Said) -> Result<(), Stop>
    ensures commit { (catalog : Catalog) → Taken catalog state.old node Bound.Commit said.now result state.new }
    ensures rollback { (catalog : Catalog) → Taken catalog state.old node Bound.Rollback said.now result state.new }
{
    if said.answered
        && matches!(said.answer, Answer::Outside)
        && state.holds_none(node)
        && nodes::outcome_of(state.nodes.as_slice(), node).is_none()
    {
        Ok(())
    } else {
        Err(Stop::Breaks)
    }
}

/// RECOVER is refused inside a transaction; where none of the node's transactions is lost it is recovered.
fn recover(state: &mut State, node: NodeId, gone: NodeId, said: &Said) -> Result<(), Stop>
    requires { AreAlone state.old.held.items }
    ensures { (catalog : Catalog) → Taken catalog state.old node (Bound.Recover gone) said.now result state.new }
{
    if said.answered && may_answer_recover(state, node, gone, &said.answer) {
        Ok(())
    } else {
        Err(Stop::Breaks)
    }
}

fn may_answer_recover(state: &State, node: NodeId, gone: NodeId, told: &Answer) -> bool
    ensures { result ≡ statements.may_answer_recover (si.held_by node state.now.held.items) (list_any (λ t. (t.node == gone) && si.is_lost t.phase) state.now.held.items) gone told.now }
{
    match state.held_by(node) {
        Some(t) => matches!(told, Answer::Nested) && t.is_open(),
        None => {
            tells_there(told, gone)
                || (tells_recovered(told, gone) && !has_lost(gone, state.held.as_slice()))
        }
    }
}

fn has_lost(node: NodeId, held: &[Held]) -> bool
    ensures { result ≡ list_any (λ t. (t.node == node) && si.is_lost t.phase) held.now }
{
    held.iter().any(|t| is_lost_of(t, node))
}

fn is_lost_of(t: &Held, node: NodeId) -> bool
    ensures { result ≡ ((t.now.node == node) && si.is_lost t.now.phase) }
{
    t.node == node && t.phase == TxnPhase::Lost
}
