//! The transaction is put among the finished ones, and ended at its manager.

ghost use Rattle.std.specs.Prelude.{◌≡◌, true, false};
ghost use Rattle.tl_journal.specs.Ask.{Commits, LoadCommits, StoreCommits};
ghost use Rattle.tl_ask.specs.Hears.{hears_commits, hears_store};
ghost use Rattle.tl_recover.specs.declared.phase.Phase.TheVariants as phase;
ghost use Rattle.tl_recover.specs.Heeds.{Gives, hears_finish, written};
ghost use Rattle.tl_recover.specs.Taken.{ending, finished_so, finishing, going, takes_finishing};

use crate::after::{After, going, strange};
use crate::phase::{Lost, Phase};
use std::alloc::Global;
use tl_ask::{
    CommitsCell, Layout, StoreOutcome, ask_manager, hear_commits, hear_store, load_commits,
    store_commits,
};
use tl_base::{NoMemory, Stamp, Tid};
use tl_descriptor::{Descriptor, InsertFault};
use tl_manager::{ManagerRequest, Mark, Reply};

pub fn finishing(
    alloc: Global,
    layout: Layout,
    lost: Lost,
    committed: bool,
) -> Result<After, NoMemory>
    ensures { Gives layout (finishing lost committed Mark.Quiet) result }
{
    let next = load_commits(alloc, layout)?;
    let phase = Phase::Finishing {
        lost,
        committed,
        loaded: false,
    };
    Ok(going(phase, next, Mark::Quiet))
}

/// The transaction is finished; its end is asked for.
fn ending(layout: Layout, lost: Lost, mark: Mark) -> After
    ensures { result ≡ written layout (ending layout lost mark) }
{
    let end = ManagerRequest::End {
        tid: lost.tid.get(),
    };
    let next = ask_manager(layout, layout.home_of(lost.node), end);
    going(Phase::EndingLost(lost), next, mark)
}

fn finished_so(committed: bool, tid: Tid) -> Mark
    ensures { result ≡ finished_so committed tid }
{
    if committed {
        Mark::Committed { tid }
    } else {
        Mark::Undone { tid }
    }
}

/// The finished transactions are stored, with this one.
fn ask_finished(
    alloc: Global,
    layout: Layout,
    lost: Lost,
    committed: bool,
    stamp: Stamp,
    finished: &Descriptor,
) -> Result<After, NoMemory>
    ensures { Gives layout (going (phase.Finishing lost committed true) (StoreCommits stamp finished.now) Mark.Quiet) result }
{
    let next = store_commits(alloc, layout, stamp, finished)?;
    let phase = Phase::Finishing {
        lost,
        committed,
        loaded: true,
    };
    Ok(going(phase, next, Mark::Quiet))
}

fn takes_commits(
    alloc: Global,
    layout: Layout,
    lost: Lost,
    committed: bool,
    cell: CommitsCell,
) -> Result<After, NoMemory>
    ensures { Gives layout (takes_finishing layout lost committed false (Commits cell)) result }
{
    let CommitsCell {
        stamp,
        mut finished,
    } = cell;
    match finished.insert(lost.tid.get()) {
        Ok(()) => ask_finished(alloc, layout, lost, committed, stamp, &finished),
        Err(InsertFault::Present) => Ok(ending(layout, lost, Mark::Quiet)),
        Err(InsertFault::NoMemory) => Err(NoMemory),
    }
}

fn takes_loaded(
    alloc: Global,
    layout: Layout,
    lost: Lost,
    committed: bool,
    reply: &Reply,
) -> Result<After, NoMemory>
    ensures { Gives layout (takes_finishing layout lost committed false (hears_commits reply.now)) result }
{
    match hear_commits(alloc, reply)? {
        Some(cell) => takes_commits(alloc, layout, lost, committed, cell),
        None => Ok(strange()),
    }
}

fn takes_finished(
    alloc: Global,
    layout: Layout,
    lost: Lost,
    committed: bool,
    reply: &Reply,
) -> Result<After, NoMemory>
    ensures { Gives layout (takes_finishing layout lost committed true (hears_store reply.now)) result }
{
    match hear_store(reply) {
        Some(StoreOutcome::Stored(_)) => {
            let mark = finished_so(committed, lost.tid.get());
            Ok(ending(layout, lost, mark))
        }
        Some(StoreOutcome::Moved) => finishing(alloc, layout, lost, committed),
        None => Ok(strange()),
    }
}

pub fn takes_finishing(
    alloc: Global,
    layout: Layout,
    lost: Lost,
    committed: bool,
    loaded: bool,
    reply: &Reply,
) -> Result<After, NoMemory>
    ensures { Gives layout (takes_finishing layout lost committed loaded (hears_finish loaded reply.now)) result }
{
    if loaded {
        takes_finished(alloc, layout, lost, committed, reply)
    } else {
        takes_loaded(alloc, layout, lost, committed, reply)
    }
}
