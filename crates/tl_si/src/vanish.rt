//! `Vanished`.

ghost use Rattle.std.specs.Prelude.{◌≡◌, IfOk, map};
ghost use Rattle.tl_schema.specs.declared.catalog.Catalog.{Catalog};
ghost use Rattle.tl_isolation.specs.declared.entry.Ending.{Ending};
ghost use Rattle.tl_isolation.specs.Step as step;
ghost use Rattle.tl_si.specs.Stops.{Stepped};

use crate::held::Held;
use crate::nodes;
use crate::state::State;
use crate::stop::Stop;
use std::alloc::Global;
use std::mem;
use tl_base::{NoMemory, NodeId};
use tl_isolation::{Entry, TxnPhase};

/// The node's transactions are lost, and it has nothing in hand.
pub fn vanish(alloc: Global, state: &mut State, node: NodeId) -> Result<(), Stop>
    ensures { (catalog : Catalog) (ending : Ending) → Stepped catalog state.old (Entry.Vanished node ending) result state.new }
{
    if state.vanished.contains(node) {
        return Err(Stop::Breaks);
    }
    let held = mem::replace(&mut state.held, Vec::new(alloc));
    state.held = lose(alloc, node, held)?;
    state.vanished.insert(node);
    nodes::clear(&mut state.nodes, node);
    Ok(())
}

fn lose(alloc: Global, node: NodeId, held: Vec<Held>) -> Result<Vec<Held>, NoMemory>
    ensures { IfOk result (λ lost. lost.items ≡ map (step.lose node) held.items) }
{
    let mut lost = Vec::new(alloc);
    for t in held {
        lost.push(lose_one(node, t))?;
    }
    Ok(lost)
}

fn lose_one(node: NodeId, t: Held) -> Held
    ensures { result ≡ step.lose node t }
{
    if t.node == node {
        Held {
            phase: TxnPhase::Lost,
            ..t
        }
    } else {
        t
    }
}
