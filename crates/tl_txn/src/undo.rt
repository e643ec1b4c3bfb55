//! A transaction that met a version outside its snapshot removes its own versions.

ghost use Rattle.std.specs.Prelude.{◌≡◌, ◌<◌, IfOk, IsSome, None, Some, false, length, slice_get, true};
ghost use Rattle.std.specs.Option.{option_copied};
ghost use Rattle.tl_ask.specs.Asked.{asked};
ghost use Rattle.tl_ask.specs.Hears.{record_or_strange, store_or_strange};
ghost use Rattle.tl_manager.specs.declared.mark.Mark.TheVariants as mark;
ghost use Rattle.tl_journal.specs.Ask.{StoreRecord};
ghost use Rattle.tl_versions.specs.Versions.{strip};
ghost use Rattle.tl_write.specs.declared.write.Write.{Write as TheWrite};
ghost use Rattle.tl_txn.specs.After.{IsTaken};
ghost use Rattle.tl_txn.specs.Course as course;
ghost use Rattle.tl_txn.specs.declared.phase.Phase.TheVariants as phase;
ghost use Rattle.tl_txn.specs.Hears.{hears_own};
ghost use Rattle.tl_txn.specs.Taken as taken;
ghost use Rattle.tl_txn.specs.Taken.{removal_at, takes_removing};

use crate::after::After;
use crate::attempt::load_own;
use crate::finish::load_again;
use crate::phase::{Decision, Phase, Removes, RemovesAt, Removing, Storing, Undoing};
use std::alloc::Global;
use tl_ask::{
    Asked, Layout, RecordCell, StoreOutcome, hear_record, hear_store, store_log, store_record,
};
use tl_base::{Duplicate, NoMemory, Tid};
use tl_manager::{Mark, Reply};
use tl_schema::Catalog;
use tl_write::Write;

/// It met the version of this rival in the own record in hand.
pub fn undo(alloc: Global, layout: Layout, storing: Storing, rival: Tid) -> After
    requires { storing.stored < length storing.attempt.own }
    ensures { IsTaken layout (taken.removing (record { attempt = storing.attempt; log = storing.log; rival = rival; stored = storing.stored; removed = 0; loaded = false }) (mark.Clashed storing.attempt.tid rival storing.stored)) result }
{
    let _few = storing.attempt.len();
    let mark = Mark::Clashed {
        tid: storing.attempt.tid().get(),
        rival,
        at: storing.stored as u32,
    };
    let removing = Removing {
        attempt: storing.attempt,
        log: storing.log,
        rival,
        stored: storing.stored,
        removed: 0,
        loaded: false,
    };
    remove_next(alloc, layout, removing, mark)
}

/// The next own record is to be loaded that has a version of it, or the log cell stored where there is none.
fn remove_next(alloc: Global, layout: Layout, removing: Removing, mark: Mark) -> After
    requires { removing.loaded ≡ false }
    ensures { IsTaken layout (taken.removing removing mark) result }
{
    if let Some(write) = write_in_hand(&removing) {
        let ask = load_own(layout, write);
        return After::going(mark, record_in_hand(removing), ask);
    }
    store_undone(alloc, layout, removing, mark)
}

/// It awaits what comes of the own record in hand.
fn record_in_hand(removing: Removing) -> Phase
    requires { IsSome (removal_at removing) }
    ensures { result ≡ phase.Removing removing }
{
    Phase::Removing(Removes {
        at: RemovesAt::Record(removing),
    })
}

/// No own record bears its version: its log cell is to say so.
fn store_undone(alloc: Global, layout: Layout, removing: Removing, mark: Mark) -> After
    requires waits { removing.loaded ≡ false }
    requires none { removal_at removing ≡ None }
    ensures { IsTaken layout (taken.removing removing mark) result }
{
    let Removing {
        attempt,
        log,
        rival,
        stored,
        removed,
        loaded: _,
    } = removing;
    let tid = attempt.tid().get();
    let (attempt, value) = attempt.undo();
    let ask = store_log(alloc, layout, log, tid, value);
    let phase = Phase::Removing(Removes {
        at: RemovesAt::Undone(Undoing {
            attempt,
            log,
            rival,
            stored,
            removed,
        }),
    });
    After::going(mark, phase, ask)
}

/// The own record from which its version is to be removed next.
fn write_in_hand(removing: &Removing) -> Option<&Write>
    ensures { option_copied result ≡ removal_at removing.now }
{
    if removing.stored <= removing.removed {
        return None;
    }
    removing.attempt.own_at(removing.removed)
}

pub fn hear_removing(
    alloc: Global,
    catalog: &Catalog,
    layout: Layout,
    removes: Removes,
    reply: &Reply,
) -> After
    ensures { IsTaken layout (takes_removing removes removes.loaded (removal_at removes) (hears_own catalog.now removes.loaded (removal_at removes) reply.now)) result }
{
    match removes.at {
        RemovesAt::Record(removing) => hear_record_removed(alloc, catalog, layout, removing, reply),
        RemovesAt::Undone(undoing) => take_undone(alloc, layout, undoing, hear_store(reply)),
    }
}

/// The own record in hand is loaded, or stored.
fn hear_record_removed(
    alloc: Global,
    catalog: &Catalog,
    layout: Layout,
    removing: Removing,
    reply: &Reply,
) -> After
    requires { IsSome (removal_at removing) }
    ensures { IsTaken layout (takes_removing removing removing.loaded (removal_at removing) (hears_own catalog.now removing.loaded (removal_at removing) reply.now)) result }
{
    if removing.loaded {
        return take_removed(alloc, layout, removing, hear_store(reply));
    }
    let Some(own) = write_in_hand(&removing) else {
        unreachable!()
    };
    match hear_record(alloc, catalog, &own.key, reply) {
        Ok(cell) => take_loaded(layout, removing, cell),
        Err(NoMemory) => After::out(Mark::Quiet),
    }
}

/// The log cell says that none of its versions stands.
fn take_undone(
    alloc: Global,
    layout: Layout,
    undoing: Undoing,
    outcome: Option<StoreOutcome>,
) -> After
    ensures { IsTaken layout (takes_removing (course.undoing undoing) false None (store_or_strange outcome)) result }
{
    match outcome {
        Some(StoreOutcome::Stored(_)) => {
            let decision = Decision::Undo(Some(undoing.rival));
            load_again(alloc, layout, undoing.attempt.tid(), decision, Mark::Quiet)
        }
        Some(StoreOutcome::Moved) | None => After::strange(),
    }
}

/// The own record in hand no longer has its version, or has another stamp than it had.
fn take_removed(
    alloc: Global,
    layout: Layout,
    removing: Removing,
    outcome: Option<StoreOutcome>,
) -> After
    requires { IsSome (removal_at removing) }
    ensures { IsTaken layout (takes_removing removing true (removal_at removing) (store_or_strange outcome)) result }
{
    let mut removing = removing;
    removing.loaded = false;
    match outcome {
        Some(StoreOutcome::Stored(_)) => {
            removing.removed += 1;
            remove_next(alloc, layout, removing, Mark::Quiet)
        }
        Some(StoreOutcome::Moved) => remove_next(alloc, layout, removing, Mark::Quiet),
        None => After::strange(),
    }
}

/// Its version is to be removed from the own record in hand.
fn take_loaded(layout: Layout, removing: Removing, cell: Option<RecordCell>) -> After
    requires { IsSome (removal_at removing) }
    ensures { (own : TheWrite) → removal_at removing ≡ Some own → IsTaken layout (takes_removing removing false (removal_at removing) (record_or_strange cell)) result }
{
    let Some(cell) = cell else {
        return After::strange();
    };
    let ask = ask_strip(layout, &removing, cell);
    let mut removing = removing;
    removing.loaded = true;
    After::going(Mark::Quiet, record_in_hand(removing), ask)
}

fn ask_strip(layout: Layout, removing: &Removing, cell: RecordCell) -> Result<Asked, NoMemory>
    requires { IsSome (removal_at removing.now) }
    ensures { (own : TheWrite) → removal_at removing.now ≡ Some own → IfOk result (λ ask. ask ≡ asked layout (StoreRecord own.key cell.stamp (strip removing.now.attempt.tid cell.versions))) }
{
    let Some(own) = write_in_hand(removing) else {
        unreachable!()
    };
    let RecordCell { stamp, versions } = cell;
    let mut versions = versions;
    versions.strip(removing.attempt.tid().get());
    let key = own.key.copy()?;
    store_record(layout, key, stamp, &versions)
}
