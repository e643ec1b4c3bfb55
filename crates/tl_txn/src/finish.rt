//! A transaction is put among the finished ones, and ends.

ghost use Rattle.std.specs.Prelude.{◌≡◌, IfOk, true, false};
ghost use Rattle.std.specs.Option.{option_copied};
ghost use Rattle.tl_ask.specs.Asked.{asked};
ghost use Rattle.tl_ask.specs.Hears.{commits_or_strange, hears_commits, hears_manager, store_or_strange, told_or_strange};
ghost use Rattle.tl_descriptor.specs.Tids.{has, inserted};
ghost use Rattle.tl_journal.specs.Ask.{LoadCommits, StoreCommits};
ghost use Rattle.tl_txn.specs.After.{IsTaken};
ghost use Rattle.tl_txn.specs.Hears.{hears_closing};
ghost use Rattle.tl_txn.specs.Taken.{closing, finished_as, finishes, going, takes_closing, takes_ending, takes_giving_up, takes_trying_nothing};

use crate::after::After;
use crate::phase::{Decision, Open, Phase};
use std::alloc::Global;
use tl_ask::{
    Asked, CommitsCell, Layout, StoreOutcome, TxnId, ask_manager, hear_commits, hear_manager,
    hear_store, load_commits, store_commits,
};
use tl_base::{NoMemory, NodeId};
use tl_descriptor::InsertFault;
use tl_manager::{ManagerReply, ManagerRequest, Mark, Reply, TxnStep};

pub fn hear_trying_nothing(alloc: Global, layout: Layout, live: Open, reply: &Reply) -> After
    ensures { IsTaken layout (takes_trying_nothing live (hears_commits reply.now)) result }
{
    let mark = Mark::Tried {
        tid: live.tid.get(),
    };
    match hear_commits(alloc, reply) {
        Ok(cell) => take_trying_nothing(alloc, layout, live, cell),
        Err(NoMemory) => After::out(mark),
    }
}

fn take_trying_nothing(
    alloc: Global,
    layout: Layout,
    live: Open,
    cell: Option<CommitsCell>,
) -> After
    ensures { IsTaken layout (takes_trying_nothing live (commits_or_strange cell)) result }
{
    let Some(cell) = cell else {
        return After::strange();
    };
    let mark = Mark::Tried {
        tid: live.tid.get(),
    };
    finish(alloc, layout, live.tid, Decision::Commit, cell, mark)
}

pub fn hear_giving_up(alloc: Global, layout: Layout, live: Open, reply: &Reply) -> After
    ensures { IsTaken layout (takes_giving_up live (hears_commits reply.now)) result }
{
    match hear_commits(alloc, reply) {
        Ok(cell) => take_giving_up(alloc, layout, live, cell),
        Err(NoMemory) => After::out(Mark::Quiet),
    }
}

fn take_giving_up(alloc: Global, layout: Layout, live: Open, cell: Option<CommitsCell>) -> After
    ensures { IsTaken layout (takes_giving_up live (commits_or_strange cell)) result }
{
    let Some(cell) = cell else {
        return After::strange();
    };
    finish(
        alloc,
        layout,
        live.tid,
        Decision::Undo(None),
        cell,
        Mark::Quiet,
    )
}

/// The finished transactions are loaded, and it is to be put among them.
fn finish(
    alloc: Global,
    layout: Layout,
    tid: TxnId,
    decision: Decision,
    cell: CommitsCell,
    mark: Mark,
) -> After
    ensures { IsTaken layout (finishes tid decision cell mark) result }
{
    if cell.finished.has(tid.get()) {
        return After::strange();
    }
    let ask = ask_finish(alloc, layout, tid, cell);
    let phase = Phase::Closing {
        tid,
        decision,
        loaded: true,
    };
    After::going(mark, phase, ask)
}

fn ask_finish(
    alloc: Global,
    layout: Layout,
    tid: TxnId,
    cell: CommitsCell,
) -> Result<Asked, NoMemory>
    requires { has cell.finished tid ≡ false }
    ensures { IfOk result (λ ask. ask ≡ asked layout (StoreCommits cell.stamp (inserted cell.finished tid))) }
{
    let CommitsCell {
        stamp,
        mut finished,
    } = cell;
    match finished.insert(tid.get()) {
        Ok(()) => store_commits(alloc, layout, stamp, &finished),
        Err(InsertFault::Present) => unreachable!(),
        Err(InsertFault::NoMemory) => Err(NoMemory),
    }
}

pub fn hear_closing(
    alloc: Global,
    layout: Layout,
    node: NodeId,
    tid: TxnId,
    decision: Decision,
    loaded: bool,
    reply: &Reply,
) -> After
    ensures { IsTaken layout (takes_closing layout node tid decision loaded (hears_closing loaded reply.now)) result }
{
    if loaded {
        return take_stored(alloc, layout, node, tid, decision, hear_store(reply));
    }
    match hear_commits(alloc, reply) {
        Ok(cell) => take_loaded(alloc, layout, node, tid, decision, cell),
        Err(NoMemory) => After::out(Mark::Quiet),
    }
}

fn take_loaded(
    alloc: Global,
    layout: Layout,
    node: NodeId,
    tid: TxnId,
    decision: Decision,
    cell: Option<CommitsCell>,
) -> After
    ensures { IsTaken layout (takes_closing layout node tid decision false (commits_or_strange cell)) result }
{
    let _ = node;
    let Some(cell) = cell else {
        return After::strange();
    };
    finish(alloc, layout, tid, decision, cell, Mark::Quiet)
}

fn take_stored(
    alloc: Global,
    layout: Layout,
    node: NodeId,
    tid: TxnId,
    decision: Decision,
    outcome: Option<StoreOutcome>,
) -> After
    ensures { IsTaken layout (takes_closing layout node tid decision true (store_or_strange outcome)) result }
{
    match outcome {
        Some(StoreOutcome::Stored(_)) => {
            let end = ManagerRequest::End { tid: tid.get() };
            let ask = ask_manager(layout, layout.home_of(node), end);
            After::going(
                finished_as(decision, tid),
                Phase::Ending { tid, decision },
                Ok(ask),
            )
        }
        Some(StoreOutcome::Moved) => load_again(alloc, layout, tid, decision, Mark::Quiet),
        None => After::strange(),
    }
}

/// The finished transactions are to be loaded.
pub fn load_again(
    alloc: Global,
    layout: Layout,
    tid: TxnId,
    decision: Decision,
    mark: Mark,
) -> After
    ensures { IsTaken layout (going (closing tid decision false) LoadCommits mark) result }
{
    let phase = Phase::Closing {
        tid,
        decision,
        loaded: false,
    };
    After::going(mark, phase, load_commits(alloc, layout))
}

fn finished_as(decision: Decision, tid: TxnId) -> Mark
    ensures { result ≡ finished_as decision tid }
{
    let tid = tid.get();
    match decision {
        Decision::Commit => Mark::Committed { tid },
        Decision::Undo(_) => Mark::Undone { tid },
    }
}

pub fn hear_ending(layout: Layout, reply: &Reply) -> After
    ensures { IsTaken layout (takes_ending (hears_manager reply.now)) result }
{
    take_ending(layout, hear_manager(reply))
}

fn take_ending(layout: Layout, told: Option<&ManagerReply>) -> After
    ensures { IsTaken layout (takes_ending (told_or_strange (option_copied told.entry))) result }
{
    let _ = layout;
    match told {
        Some(ManagerReply::Ended) => After {
            phase: Phase::Over,
            next: None,
            step: Some(TxnStep::Ended(Mark::Answered)),
        },
        Some(
            ManagerReply::Began { .. }
            | ManagerReply::NeedRange
            | ManagerReply::Ranged
            | ManagerReply::NotActive
            | ManagerReply::Orphaned { .. }
            | ManagerReply::FloorIs { .. }
            | ManagerReply::Posted
            | ManagerReply::Given { .. }
            | ManagerReply::There,
        )
        | None => After::strange(),
    }
}
