//! The end of a transaction.

ghost use Rattle.std.specs.Prelude.{◌≡◌, ◌<◌, IfOk, None, OnErr, OnOk};
ghost use Rattle.std.specs.Prelude.{vec_capacity, vec_len};
ghost use Rattle.tl_manager.specs.declared.mark.Mark.TheVariants as marks;
ghost use Rattle.tl_protocol.specs.Next.{end_answer};
ghost use Rattle.tl_protocol.specs.World.{Commit, Undo};
ghost use Rattle.tl_txn.specs.Calls.{IsReady, conflict_in};
ghost use Rattle.tl_node.specs.After.{IsAfter, Stays};
ghost use Rattle.tl_node.specs.Ends.{CommitsWith, EndsWith, Readies, ReadiesAnswer, Reserves, committing, learns_other};
ghost use Rattle.tl_node.specs.Fits.{FitsLast, IsFit};
ghost use Rattle.tl_node.specs.Leaves.{IsUnanswered};
ghost use Rattle.tl_node.specs.View.{node_at, stage_of};
ghost use Rattle.tl_node.specs.declared.work.Course.TheVariants as way;
ghost use Rattle.tl_node.specs.declared.work.Next.TheVariants as next;
ghost use Rattle.tl_node.specs.declared.work.Work.TheVariants as work;

use crate::hears::{hear_floor, is_ended};
use crate::kept::Core;
use crate::outside::outside_at;
use crate::running::running;
use crate::work::{Course, Last, Next, Stage, Work};
use tl_answer::copy_answer;
use tl_ask::Asked;
use tl_base::{Boxed, NoMemory, Tid};
use tl_descriptor::Descriptor;
use tl_isolation::Answer;
use tl_manager::{Mark, Reply, TxnStep};
use tl_txn::{Txn, transactions_follow_the_node};

/// Another manager told its low-water mark: the transaction is to commit.
pub fn take_other(
    core: &mut Core,
    txn: Txn,
    stage: Stage,
    manager: u8,
    asked: Asked,
    reply: &Reply,
) -> Result<Next, NoMemory>
    requires { IsFit core.old (work.Runs (record { txn = txn; stage = stage; course = way.AsksOther manager asked })) }
    ensures after { IsAfter core.old.layout core.old.catalog (node_at core.old (work.Runs (record { txn = txn; stage = stage; course = way.AsksOther manager asked }))) reply.now core.new marks.Quiet result }
    ensures stays { Stays core.old core.new }
{
    transactions_follow_the_node();
    let _ = asked;
    match hear_floor(reply) {
        Some(floor) => commit_with(core, txn, stage, manager, floor),
        None => Ok(Next::Strange),
    }
}

/// With this low-water mark of that manager.
fn commit_with(
    core: &mut Core,
    txn: Txn,
    stage: Stage,
    manager: u8,
    floor: &Descriptor,
) -> Result<Next, NoMemory>
    requires { IsReady txn.phase }
    ensures { CommitsWith core.old txn stage manager floor.now core.new result }
{
    match learn_other(core, manager, floor) {
        Ok(()) => commit_now(core, txn, stage),
        Err(NoMemory) => Err(NoMemory),
    }
}

fn learn_other(core: &mut Core, manager: u8, floor: &Descriptor) -> Result<(), NoMemory>
    ensures ok { OnOk result (core.new ≡ learns_other core.old manager floor.now) }
    ensures err { OnErr result (IsUnanswered core.old core.new) }
{
    let asked_others = core.asked_others.checked_add(1).ok_or(NoMemory)?;
    core.learn(manager, floor)?;
    core.asked_others = asked_others;
    Ok(())
}

fn commit_now(core: &Core, mut txn: Txn, stage: Stage) -> Result<Next, NoMemory>
    requires { IsReady txn.phase }
    ensures { IfOk result (λ n. n ≡ next.Goes (work.Runs (record { txn = committing core.now txn; stage = stage; course = way.Ends None }))) }
{
    txn.commit(core.floors.least())?;
    Ok(Next::Goes(running(txn, stage, Course::Ends(None))))
}

pub fn take_end(
    core: &mut Core,
    txn: Txn,
    stage: Stage,
    last: Option<Boxed<Last>>,
    reply: &Reply,
) -> (Mark, Result<Next, NoMemory>)
    requires { IsFit core.old (work.Runs (record { txn = txn; stage = stage; course = way.Ends last })) }
    ensures after { IsAfter core.old.layout core.old.catalog (node_at core.old (work.Runs (record { txn = txn; stage = stage; course = way.Ends last }))) reply.now core.new result.0 result.1 }
    ensures stays { Stays core.old core.new }
{
    match last {
        Some(last) => take_last(core, txn, stage, last, reply),
        None => end_on(core, txn, stage, reply),
    }
}

/// The transaction is finished: once its manager has heard so, its answer stands.
fn take_last(
    core: &mut Core,
    txn: Txn,
    stage: Stage,
    last: Boxed<Last>,
    reply: &Reply,
) -> (Mark, Result<Next, NoMemory>)
    requires { IsFit core.old (work.Runs (record { txn = txn; stage = stage; course = way.Ends (Some last) })) }
    ensures after { IsAfter core.old.layout core.old.catalog (node_at core.old (work.Runs (record { txn = txn; stage = stage; course = way.Ends (Some last) }))) reply.now core.new result.0 result.1 }
    ensures stays { Stays core.old core.new }
{
    let _ = txn;
    let _ = stage;
    if is_ended(reply) {
        (Mark::Answered, Ok(end(core, last)))
    } else {
        (Mark::Quiet, Ok(Next::Strange))
    }
}

/// The answer stands.
fn end(core: &mut Core, last: Boxed<Last>) -> Next
    requires { vec_len core.old.answers < vec_capacity core.old.answers }
    ensures { EndsWith core.old last core.new result }
{
    let Last {
        kept,
        said,
        following,
    } = last.into_inner();
    core.answers.push_reserved(kept);
    Next::Says(Work::Outside(following), said)
}

/// The transaction is on its way to its end.
fn end_on(
    core: &mut Core,
    mut txn: Txn,
    stage: Stage,
    reply: &Reply,
) -> (Mark, Result<Next, NoMemory>)
    requires { IsFit core.old (work.Runs (record { txn = txn; stage = stage; course = way.Ends None })) }
    ensures after { IsAfter core.old.layout core.old.catalog (node_at core.old (work.Runs (record { txn = txn; stage = stage; course = way.Ends None }))) reply.now core.new result.0 result.1 }
    ensures stays { Stays core.old core.new }
{
    transactions_follow_the_node();
    match txn.heed(&core.catalog, reply) {
        Some(TxnStep::Going(mark)) => (mark, go_to_end(core, txn, stage, mark)),
        Some(TxnStep::NoMemory(mark)) => (mark, Err(NoMemory)),
        Some(TxnStep::Ready(_)) => (Mark::Quiet, Ok(Next::Strange)),
        Some(TxnStep::Leaf(_)) => (Mark::Quiet, Ok(Next::Strange)),
        Some(TxnStep::Ended(_)) => (Mark::Quiet, Ok(Next::Strange)),
        None => (Mark::Quiet, Ok(Next::Strange)),
    }
}

/// Once the transaction is finished, all that its answer needs is made ready.
fn go_to_end(core: &mut Core, txn: Txn, stage: Stage, mark: Mark) -> Result<Next, NoMemory>
    ensures { Readies core.old txn stage mark core.new result }
{
    match mark {
        Mark::Committed { tid: _ } => ready_commit(core, txn, stage),
        Mark::Undone { tid: _ } => ready_undo(core, txn, stage),
        Mark::Quiet
        | Mark::Asked
        | Mark::Began { tid: _ }
        | Mark::Tried { tid: _ }
        | Mark::Clashed { .. }
        | Mark::Answered => Ok(Next::Goes(running(txn, stage, Course::Ends(None)))),
    }
}

fn ready_commit(core: &mut Core, txn: Txn, stage: Stage) -> Result<Next, NoMemory>
    ensures { ReadiesAnswer core.old txn stage (end_answer (stage_of stage) Commit) core.new result }
{
    match commit_answer(&stage) {
        Ok(answer) => ready_answer(core, txn, stage, answer),
        Err(NoMemory) => Err(NoMemory),
    }
}

fn ready_undo(core: &mut Core, txn: Txn, stage: Stage) -> Result<Next, NoMemory>
    ensures { ReadiesAnswer core.old txn stage (end_answer (stage_of stage) (Undo (conflict_in txn.phase))) core.new result }
{
    match undo_answer(&stage, txn.conflict()) {
        Ok(answer) => ready_answer(core, txn, stage, answer),
        Err(NoMemory) => Err(NoMemory),
    }
}

fn ready_answer(core: &mut Core, txn: Txn, stage: Stage, answer: Answer) -> Result<Next, NoMemory>
    ensures { ReadiesAnswer core.old txn stage answer core.new result }
{
    match last(core, answer) {
        Ok(last) => Ok(Next::Goes(running(txn, stage, Course::Ends(Some(last))))),
        Err(NoMemory) => Err(NoMemory),
    }
}

fn commit_answer(stage: &Stage) -> Result<Answer, NoMemory>
    ensures { IfOk result (λ answer. answer ≡ end_answer (stage_of stage.now) Commit) }
{
    match stage {
        Stage::Answering(answer) => copy_answer(answer),
        Stage::Fresh | Stage::Opened => Ok(Answer::Committed),
    }
}

fn undo_answer(stage: &Stage, rival: Option<Tid>) -> Result<Answer, NoMemory>
    ensures { IfOk result (λ answer. answer ≡ end_answer (stage_of stage.now) (Undo rival)) }
{
    match rival {
        Some(rival) => Ok(Answer::Conflict(rival)),
        None => give_up_answer(stage),
    }
}

fn give_up_answer(stage: &Stage) -> Result<Answer, NoMemory>
    ensures { IfOk result (λ answer. answer ≡ end_answer (stage_of stage.now) (Undo None)) }
{
    match stage {
        Stage::Answering(answer) => copy_answer(answer),
        Stage::Fresh | Stage::Opened => Ok(Answer::RolledBack),
    }
}

/// Room for the answer, and the first request of the statement after it.
fn last(core: &mut Core, answer: Answer) -> Result<Boxed<Last>, NoMemory>
    ensures { Reserves core.old answer core.new result }
{
    match core.answers.reserve(1) {
        Ok(()) => last_with_room(core, answer),
        Err(_) => Err(NoMemory),
    }
}

fn last_with_room(core: &Core, answer: Answer) -> Result<Boxed<Last>, NoMemory>
    requires { vec_len core.now.answers < vec_capacity core.now.answers }
    ensures { IfOk result (λ last. FitsLast core.now answer last) }
{
    let following = outside_at(core, core.answers.len() + 1)?;
    let copy = copy_answer(&answer)?;
    let said = core.said(copy, true)?;
    let last = Last {
        kept: answer,
        said,
        following,
    };
    let boxed = Boxed::new(core.alloc, last)?;
    Ok(boxed)
}
