//! A transaction stores its log cell, then its versions, and then its log cell again.

ghost use Rattle.std.specs.Prelude.{◌≡◌, ◌<◌, ◌≤◌, ◌∷◌, IfOk, None, Some, false, length, slice_get, true};
ghost use Rattle.std.specs.Option.{option_copied};
ghost use Rattle.std.specs.List.{list_any};
ghost use Rattle.tl_ask.specs.Asked.{asked};
ghost use Rattle.tl_ask.specs.Hears.{hears_store, record_or_strange, store_or_strange};
ghost use Rattle.tl_journal.specs.Ask.{StoreRecord};
ghost use Rattle.tl_versions.specs.Versions.{is_written, prune};
ghost use Rattle.tl_write.specs.declared.write.Write.{Write as TheWrite};
ghost use Rattle.tl_txn.specs.After.{IsTaken};
ghost use Rattle.tl_txn.specs.Course as course;
ghost use Rattle.tl_txn.specs.declared.phase.Phase.TheVariants as phase;
ghost use Rattle.tl_txn.specs.Hears.{hears_own};
ghost use Rattle.tl_txn.specs.Taken as taken;
ghost use Rattle.tl_txn.specs.Taken.{finds, next_versions, takes_storing, takes_trying};

use crate::after::After;
use crate::attempt::{Attempt, load_own};
use crate::finish::load_again;
use crate::phase::{Deciding, Decision, Phase, Stores, StoresAt, Storing};
use crate::reading::copy_shown;
use crate::short::check_short;
use crate::undo::undo;
use std::alloc::Global;
use tl_ask::{
    Asked, Layout, RecordCell, StoreOutcome, hear_record, hear_store, store_log, store_record,
};
use tl_base::{Duplicate, NoMemory, Tid};
use tl_manager::{Mark, Reply};
use tl_schema::Catalog;
use tl_versions::{Version, Versions};
use tl_write::Write;

pub fn hear_trying(alloc: Global, layout: Layout, attempt: Attempt, reply: &Reply) -> After
    ensures { IsTaken layout (takes_trying attempt (hears_store reply.now)) result }
{
    take_trying(alloc, layout, attempt, hear_store(reply))
}

fn take_trying(
    alloc: Global,
    layout: Layout,
    attempt: Attempt,
    outcome: Option<StoreOutcome>,
) -> After
    ensures { IsTaken layout (takes_trying attempt (store_or_strange outcome)) result }
{
    match outcome {
        Some(StoreOutcome::Stored(stamp)) => {
            let mark = Mark::Tried {
                tid: attempt.tid().get(),
            };
            let storing = Storing {
                attempt,
                log: stamp,
                stored: 0,
                loaded: false,
            };
            store_next(alloc, layout, storing, mark)
        }
        Some(StoreOutcome::Moved) | None => After::strange(),
    }
}

/// The next own record is to be loaded, or the decision stored where there is none.
fn store_next(alloc: Global, layout: Layout, storing: Storing, mark: Mark) -> After
    requires { storing.loaded ≡ false }
    ensures { IsTaken layout (taken.storing storing mark) result }
{
    if let Some(write) = storing.attempt.own_at(storing.stored) {
        let ask = load_own(layout, write);
        return After::going(mark, record_in_hand(storing), ask);
    }
    store_decision(alloc, layout, storing, mark)
}

/// It awaits what comes of the own record in hand.
fn record_in_hand(storing: Storing) -> Phase
    requires { storing.stored < length storing.attempt.own }
    ensures { result ≡ phase.Storing storing }
{
    Phase::Storing(Stores {
        at: StoresAt::Record(storing),
    })
}

/// All own records bear its version: its log cell is to say that it is committed.
fn store_decision(alloc: Global, layout: Layout, storing: Storing, mark: Mark) -> After
    requires waits { storing.loaded ≡ false }
    requires none { slice_get storing.attempt.own storing.stored ≡ None }
    ensures { IsTaken layout (taken.storing storing mark) result }
{
    let Storing {
        attempt,
        log,
        stored,
        loaded: _,
    } = storing;
    let tid = attempt.tid().get();
    let (attempt, value) = attempt.decide();
    let ask = store_log(alloc, layout, log, tid, value);
    let phase = Phase::Storing(Stores {
        at: StoresAt::Decision(Deciding {
            attempt,
            log,
            stored,
        }),
    });
    After::going(mark, phase, ask)
}

pub fn hear_storing(
    alloc: Global,
    catalog: &Catalog,
    layout: Layout,
    stores: Stores,
    reply: &Reply,
) -> After
    ensures { IsTaken layout (takes_storing stores stores.loaded (slice_get stores.attempt.own stores.stored) (hears_own catalog.now stores.loaded (slice_get stores.attempt.own stores.stored) reply.now)) result }
{
    match stores.at {
        StoresAt::Record(storing) => hear_record_stored(alloc, catalog, layout, storing, reply),
        StoresAt::Decision(deciding) => take_decided(alloc, layout, deciding, hear_store(reply)),
    }
}

/// The own record in hand is loaded, or stored.
fn hear_record_stored(
    alloc: Global,
    catalog: &Catalog,
    layout: Layout,
    storing: Storing,
    reply: &Reply,
) -> After
    requires { storing.stored < length storing.attempt.own }
    ensures { IsTaken layout (takes_storing storing storing.loaded (slice_get storing.attempt.own storing.stored) (hears_own catalog.now storing.loaded (slice_get storing.attempt.own storing.stored) reply.now)) result }
{
    if storing.loaded {
        return take_stored(alloc, layout, storing, hear_store(reply));
    }
    let own = storing.attempt.own_within(storing.stored);
    match hear_record(alloc, catalog, &own.key, reply) {
        Ok(cell) => take_loaded(alloc, layout, storing, cell),
        Err(NoMemory) => After::out(Mark::Quiet),
    }
}

/// The log cell says that it is committed.
fn take_decided(
    alloc: Global,
    layout: Layout,
    deciding: Deciding,
    outcome: Option<StoreOutcome>,
) -> After
    ensures { IsTaken layout (takes_storing (course.decision deciding) false None (store_or_strange outcome)) result }
{
    match outcome {
        Some(StoreOutcome::Stored(_)) => {
            load_again(
                alloc,
                layout,
                deciding.attempt.tid(),
                Decision::Commit,
                Mark::Quiet,
            )
        }
        Some(StoreOutcome::Moved) | None => After::strange(),
    }
}

/// The own record in hand has its version, or has another stamp than it had.
fn take_stored(
    alloc: Global,
    layout: Layout,
    storing: Storing,
    outcome: Option<StoreOutcome>,
) -> After
    requires { storing.stored < length storing.attempt.own }
    ensures { IsTaken layout (takes_storing storing true (slice_get storing.attempt.own storing.stored) (store_or_strange outcome)) result }
{
    let _few = storing.attempt.len();
    let _own = storing.attempt.own_within(storing.stored);
    let mut storing = storing;
    storing.loaded = false;
    match outcome {
        Some(StoreOutcome::Stored(_)) => {
            storing.stored += 1;
            store_next(alloc, layout, storing, Mark::Quiet)
        }
        Some(StoreOutcome::Moved) => store_next(alloc, layout, storing, Mark::Quiet),
        None => After::strange(),
    }
}

fn take_loaded(alloc: Global, layout: Layout, storing: Storing, cell: Option<RecordCell>) -> After
    requires { storing.stored < length storing.attempt.own }
    ensures { IsTaken layout (takes_storing storing false (slice_get storing.attempt.own storing.stored) (record_or_strange cell)) result }
{
    let Some(cell) = cell else {
        return After::strange();
    };
    if is_written(storing.attempt.tid().get(), &cell.versions) {
        return After::strange();
    }
    match cell.versions.stranger(storing.attempt.snapshot()) {
        Some(rival) => undo(alloc, layout, storing, rival),
        None => store_own(layout, storing, cell),
    }
}

/// Whether some version has the tid.
fn is_written(tid: Tid, versions: &Versions) -> bool
    ensures { result ≡ is_written tid versions.now }
{
    versions.list().iter().any(|version| version.tid == tid)
}

/// Its version is to be put in front of those of the own record in hand.
fn store_own(layout: Layout, storing: Storing, cell: RecordCell) -> After
    requires place { storing.stored < length storing.attempt.own }
    requires new { is_written storing.attempt.tid cell.versions ≡ false }
    ensures { (own : TheWrite) → slice_get storing.attempt.own storing.stored ≡ Some own → IsTaken layout (finds storing own.key cell None) result }
{
    let ask = ask_own(layout, &storing.attempt, storing.stored, cell);
    let mut storing = storing;
    storing.loaded = true;
    After::going(Mark::Quiet, record_in_hand(storing), ask)
}

fn ask_own(
    layout: Layout,
    attempt: &Attempt,
    at: usize,
    cell: RecordCell,
) -> Result<Asked, NoMemory>
    requires place { at < length attempt.now.own }
    requires new { is_written attempt.now.tid cell.versions ≡ false }
    ensures { (own : TheWrite) → slice_get attempt.now.own at ≡ Some own → IfOk result (λ ask. ask ≡ asked layout (StoreRecord own.key cell.stamp (next_versions attempt.now own.key cell.versions))) }
{
    ask_write(layout, attempt, attempt.own_within(at), cell)
}

fn ask_write(
    layout: Layout,
    attempt: &Attempt,
    own: &Write,
    cell: RecordCell,
) -> Result<Asked, NoMemory>
    requires { is_written attempt.now.tid cell.versions ≡ false }
    ensures { IfOk result (λ ask. ask ≡ asked layout (StoreRecord own.now.key cell.stamp (prune attempt.now.floor (record { tid = attempt.now.tid; row = own.now.row } ∷ cell.versions)))) }
{
    let RecordCell { stamp, versions } = cell;
    let mut versions = versions;
    let row = copy_shown(&own.row)?;
    check_short(&row)?;
    versions.push(Version {
        tid: attempt.tid().get(),
        row,
    })?;
    versions.prune(attempt.floor());
    let key = own.key.copy()?;
    store_record(layout, key, stamp, &versions)
}
