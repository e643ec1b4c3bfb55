//! `Asked` and `Began`.

ghost use Rattle.std.specs.Prelude.{◌<◌, ◌^◌, ◌↔◌, IsTrue, length};
ghost use Rattle.tl_schema.specs.declared.catalog.Catalog.{Catalog};
ghost use Rattle.tl_isolation.specs.Step.{Allowed};
ghost use Rattle.tl_si.specs.Shown.{shown};
ghost use Rattle.tl_si.specs.Stops.{Stepped};

use crate::begun::Begun;
use crate::held::Held;
use crate::nodes;
use crate::state::State;
use crate::stop::Stop;
use std::alloc::Global;
use std::mem;
use tl_base::{NodeId, Tid};
use tl_isolation::Entry;

/// The node notes how many commits there are.
pub fn ask(state: &mut State, node: NodeId) -> Result<(), Stop>
    requires { length state.old.commits < 2 ^ 32 }
    ensures { (catalog : Catalog) → Stepped catalog state.old (Entry.Asked node) result state.new }
{
    if !may_ask(state, node) {
        return Err(Stop::Breaks);
    }
    let commits = state.commits.len() as u32;
    nodes::note(&mut state.nodes, node, Some(commits))?;
    Ok(())
}

fn may_ask(state: &State, node: NodeId) -> bool
    ensures { (catalog : Catalog) → IsTrue result ↔ Allowed catalog (shown state.now) (Entry.Asked node) }
{
    !state.vanished.contains(node)
        && state.holds_none(node)
        && nodes::outcome_of(state.nodes.as_slice(), node).is_none()
}

/// A live transaction without writes begins.
pub fn begin(
    alloc: Global,
    state: &mut State,
    node: NodeId,
    tid: Tid,
    first: u32,
) -> Result<(), Stop>
    ensures { (catalog : Catalog) → Stepped catalog state.old (Entry.Began node tid first) result state.new }
{
    if !may_begin(state, node, tid, first) {
        return Err(Stop::Breaks);
    }
    let begun = mem::replace(&mut state.begun, Begun::new(alloc));
    state.begun = begun.with(tid)?;
    state.held.push(Held::new(alloc, node, tid, first))?;
    nodes::note(&mut state.nodes, node, None)?;
    Ok(())
}

fn may_begin(state: &State, node: NodeId, tid: Tid, first: u32) -> bool
    ensures { (catalog : Catalog) → IsTrue result ↔ Allowed catalog (shown state.now) (Entry.Began node tid first) }
{
    match nodes::noted_of(state.nodes.as_slice(), node) {
        Some(noted) => {
            noted <= first
                && first as usize <= state.commits.len()
                && tid != 0
                && !state.begun.contains(tid)
        }
        None => false,
    }
}
