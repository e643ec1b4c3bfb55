//! `Undone`, and what the end of a transaction leaves.

ghost use Rattle.std.specs.Prelude.{◌≡◌, OnOk};
ghost use Rattle.tl_schema.specs.declared.catalog.Catalog.{Catalog};
ghost use Rattle.tl_isolation.specs.Step as step;
ghost use Rattle.tl_isolation.specs.State.{without_held};
ghost use Rattle.tl_si.specs.Ends.{ended};
ghost use Rattle.tl_si.specs.Shown.{shown};
ghost use Rattle.tl_si.specs.Stops.{Stepped};

use crate::held::Held;
use crate::nodes;
use crate::state::State;
use crate::stop::Stop;
use tl_base::{NoMemory, NodeId, Tid};
use tl_isolation::{Answer, Entry, TxnPhase};

/// The transaction is undone, and its node has the conflict, the refusal or `rolled back` to give.
pub fn undo(state: &mut State, tid: Tid) -> Result<(), Stop>
    ensures { (catalog : Catalog) → Stepped catalog state.old (Entry.Undone tid) result state.new }
{
    let Some((_, t)) = state.take_as(tid) else {
        return Err(Stop::Breaks);
    };
    if !t.may_undo() {
        return Err(Stop::Breaks);
    }
    let Held {
        node,
        phase,
        rival,
        unanswered,
        ..
    } = t;
    end_with(state, tid, node, phase, undo_answer(rival, unanswered))?;
    Ok(())
}

fn undo_answer(rival: Option<Tid>, unanswered: Option<Answer>) -> Answer
    ensures { result ≡ step.undo_answer rival unanswered }
{
    match rival {
        Some(rival) => Answer::Conflict(rival),
        None => unanswered.unwrap_or(Answer::RolledBack),
    }
}

/// No transaction of this number is held, and its node has this answer to give unless it has vanished.
pub fn end_with(
    state: &mut State,
    tid: Tid,
    node: NodeId,
    phase: TxnPhase,
    told: Answer,
) -> Result<(), NoMemory>
    ensures { OnOk result (shown state.new ≡ ended tid node phase told (shown state.old)) }
{
    drop_held(&mut state.held, tid);
    if phase == TxnPhase::Lost {
        return Ok(());
    }
    nodes::give(&mut state.nodes, node, told)
}

fn drop_held(held: &mut Vec<Held>, tid: Tid)
    ensures { held.new.items ≡ without_held tid held.old.items }
{
    held.retain(|t| t.tid != tid);
}
