//! The versions of an attempt are removed, and then its log cell is marked.

ghost use Rattle.std.specs.Prelude.{◌≡◌, ℕ, ◌+◌, ◌<◌, IfOk, length, slice_get, true, false, Some, None, if◌then◌else◌};
ghost use Rattle.tl_versions.specs.Versions.{is_written, strip};
ghost use Rattle.tl_protocol.specs.Store.{LogCell as TheCell};
ghost use Rattle.tl_journal.specs.Ask.{Record, StoreRecord};
ghost use Rattle.tl_ask.specs.Asked.{asked};
ghost use Rattle.tl_ask.specs.Hears.{hears_record, hears_store};
ghost use Rattle.tl_recover.specs.Heeds.{Gives, hears_strip};
ghost use Rattle.tl_recover.specs.Taken.{ask_strip, stripping, takes_stripping};

use crate::after::{After, going, strange};
use crate::finishing::finishing;
use crate::phase::{Lost, Phase};
use std::alloc::Global;
use tl_ask::{
    Asked, Layout, LogCell, RecordCell, StoreOutcome, hear_record, hear_store, load_record,
    store_log, store_record,
};
use tl_base::{Bytes, Duplicate, NoMemory, Tid};
use tl_manager::{Mark, Reply};
use tl_schema::Catalog;
use tl_versions::Versions;

/// The next record that the log cell names is loaded, or the cell is marked where there is none.
fn ask_strip(alloc: Global, layout: Layout, log: &mut LogCell, at: usize) -> Result<Asked, NoMemory>
    ensures next { IfOk result (λ next. next ≡ asked layout (ask_strip log.old (slice_get log.old.entry.writes at))) }
    ensures kept { log.new ≡ log.old }
{
    match log.entry.writes.get(at) {
        Some(key) => Ok(load_record(layout, key.copy()?)),
        None => {
            let value = log.undone()?;
            store_log(alloc, layout, log.stamp, log.entry.tid, value)
        }
    }
}

/// The records from this place on are seen to.
pub fn stripping(
    alloc: Global,
    layout: Layout,
    lost: Lost,
    log: LogCell,
    at: usize,
) -> Result<After, NoMemory>
    ensures { Gives layout (stripping lost log at) result }
{
    let mut log = log;
    let next = ask_strip(alloc, layout, &mut log, at)?;
    let phase = Phase::Stripping {
        lost,
        log,
        at,
        loaded: false,
    };
    Ok(going(phase, next, Mark::Quiet))
}

fn is_written(tid: Tid, versions: &Versions) -> bool
    ensures { result ≡ is_written tid versions.now }
{
    versions.list().iter().any(|version| version.tid == tid)
}

/// The record without the transaction's version, if it has one.
fn ask_without(
    layout: Layout,
    tid: Tid,
    key: &Bytes,
    cell: RecordCell,
) -> Result<Option<Asked>, NoMemory>
    ensures { IfOk result (λ next. next ≡ (if is_written tid cell.versions then Some (asked layout (StoreRecord key.now cell.stamp (strip tid cell.versions))) else None)) }
{
    if !is_written(tid, &cell.versions) {
        return Ok(None);
    }
    let mut versions = cell.versions;
    versions.strip(tid);
    let next = store_record(layout, key.copy()?, cell.stamp, &versions)?;
    Ok(Some(next))
}

/// The place after one where a record is named.
fn next_place(log: &LogCell, at: usize) -> usize
    requires { at < length log.now.entry.writes }
    ensures { result ≡ at + 1 }
{
    let _count = log.entry.writes.len();
    at + 1
}

/// The log cell was marked.
fn takes_marked(alloc: Global, layout: Layout, lost: Lost, reply: &Reply) -> Result<After, NoMemory>
    ensures { (log : TheCell) (at : ℕ) → Gives layout (takes_stripping lost log at false None (hears_store reply.now)) result }
{
    match hear_store(reply) {
        Some(StoreOutcome::Stored(_)) => finishing(alloc, layout, lost, false),
        Some(StoreOutcome::Moved) | None => Ok(strange()),
    }
}

/// The record at this place was loaded, or the log cell was marked where there is none.
fn takes_loaded(
    alloc: Global,
    catalog: &Catalog,
    layout: Layout,
    lost: Lost,
    log: LogCell,
    at: usize,
    reply: &Reply,
) -> Result<After, NoMemory>
    ensures { Gives layout (takes_stripping lost log at false (slice_get log.entry.writes at) (hears_strip catalog.now false (slice_get log.entry.writes at) reply.now)) result }
{
    let key = match log.entry.writes.get(at) {
        Some(key) => key,
        None => return takes_marked(alloc, layout, lost, reply),
    };
    let Some(cell) = hear_record(alloc, catalog, key, reply)? else {
        return Ok(strange());
    };
    match ask_without(layout, lost.tid.get(), key, cell)? {
        Some(next) => {
            let phase = Phase::Stripping {
                lost,
                log,
                at,
                loaded: true,
            };
            Ok(going(phase, next, Mark::Quiet))
        }
        None => {
            let next = next_place(&log, at);
            stripping(alloc, layout, lost, log, next)
        }
    }
}

/// The record at this place was stored without the version, or has moved.
fn takes_stripped(
    alloc: Global,
    layout: Layout,
    lost: Lost,
    log: LogCell,
    at: usize,
    reply: &Reply,
) -> Result<After, NoMemory>
    ensures { Gives layout (takes_stripping lost log at true (slice_get log.entry.writes at) (hears_store reply.now)) result }
{
    if log.entry.writes.get(at).is_none() {
        return Ok(strange());
    }
    match hear_store(reply) {
        Some(StoreOutcome::Stored(_)) => {
            let next = next_place(&log, at);
            stripping(alloc, layout, lost, log, next)
        }
        Some(StoreOutcome::Moved) => stripping(alloc, layout, lost, log, at),
        None => Ok(strange()),
    }
}

pub fn takes_stripping(
    alloc: Global,
    catalog: &Catalog,
    layout: Layout,
    lost: Lost,
    log: LogCell,
    at: usize,
    loaded: bool,
    reply: &Reply,
) -> Result<After, NoMemory>
    ensures { Gives layout (takes_stripping lost log at loaded (slice_get log.entry.writes at) (hears_strip catalog.now loaded (slice_get log.entry.writes at) reply.now)) result }
{
    if loaded {
        takes_stripped(alloc, layout, lost, log, at, reply)
    } else {
        takes_loaded(alloc, catalog, layout, lost, log, at, reply)
    }
}
