//! What a reply says to one who asked.

ghost use Rattle.std.specs.Prelude.{◌≡◌, false, IfOk, Some, if◌then◌else◌};
ghost use Rattle.std.specs.List.{list_all};
ghost use Rattle.std.specs.Option.{option_copied};
ghost use Rattle.tl_descriptor.specs.Reading as sets;
ghost use Rattle.tl_logrec.specs.Entry.{FitsEntry};
ghost use Rattle.tl_manager.specs.declared.request.ManagerRequest.TheVariants as asked_of;
ghost use Rattle.tl_journal.specs.Ask.{Log, Strange};
ghost use Rattle.tl_journal.specs.Bytes.{commits_in, found_in};
ghost use Rattle.tl_journal.specs.ForKey.{is_key_of};
ghost use Rattle.tl_journal.specs.Strange.{has_great, is_cell, may_answer};
ghost use Rattle.tl_ask.specs.Hears.{commits_or_strange, hears_begin, hears_commits, hears_log, hears_manager, hears_numbers, hears_page, hears_record, hears_store, log_or_strange, numbers_or_strange, page_or_strange, record_or_strange, store_or_strange, told_or_strange};
ghost use Rattle.tl_ask.specs.Shown.{log_shown, page_shown, record_shown};

use crate::for_key::{are_keys_of, are_records, is_record_for};
use crate::given::{is_cell, is_log_cell, is_page};
use crate::heard::{CommitsCell, Found, LogCell, Page, RecordCell, StoreOutcome};
use crate::reading::{cell_read, entry_read, set_read};
use std::alloc::Global;
use tl_base::{Bytes, Duplicate, Item, Items, NoMemory, Stamp, StoreReply};
use tl_descriptor::Descriptor;
use tl_logrec::LogEntry;
use tl_manager::{ManagerReply, Reply};
use tl_schema::Catalog;

/// To one who asked for the commits cell; `None` where no place of a run replies so.
pub fn hear_commits(alloc: Global, reply: &Reply) -> Result<Option<CommitsCell>, NoMemory>
    ensures { IfOk result (λ cell. hears_commits reply.now ≡ commits_or_strange cell) }
{
    match reply {
        Reply::Store(StoreReply::Cell { stamp, value }) => {
            commits_of(alloc, *stamp, value.as_slice())
        }
        Reply::Store(_) | Reply::Manager(_) => Ok(None),
    }
}

fn commits_of(alloc: Global, stamp: Stamp, value: &[u8]) -> Result<Option<CommitsCell>, NoMemory>
    ensures { IfOk result (λ cell. (if is_cell stamp value.now then commits_in stamp (sets.read_set value.now) else Strange) ≡ commits_or_strange cell) }
{
    if !is_cell(stamp, value) {
        return Ok(None);
    }
    match set_read(alloc, value)? {
        Some(finished) => Ok(Some(CommitsCell { stamp, finished })),
        None => Ok(None),
    }
}

/// To one who asked for a log cell; `None` where no place of a run replies so. An absent cell has no bytes.
pub fn hear_log(
    alloc: Global,
    catalog: &Catalog,
    reply: &Reply,
) -> Result<Option<Option<LogCell>>, NoMemory>
    ensures { IfOk result (λ cell. hears_log catalog.now reply.now ≡ log_or_strange cell) }
{
    match reply {
        Reply::Store(StoreReply::Cell { stamp, value }) => {
            log_of(alloc, catalog, *stamp, value.as_slice())
        }
        Reply::Store(_) | Reply::Manager(_) => Ok(None),
    }
}

fn log_of(
    alloc: Global,
    catalog: &Catalog,
    stamp: Stamp,
    value: &[u8],
) -> Result<Option<Option<LogCell>>, NoMemory>
    ensures { IfOk result (λ cell. log_shown catalog.now stamp value.now ≡ log_or_strange cell) }
{
    if !is_log_cell(stamp, value) {
        return Ok(None);
    }
    if value.is_empty() {
        return Ok(Some(None));
    }
    match entry_read(alloc, value)? {
        Some(entry) => log_named(alloc, catalog, stamp, entry),
        None => Ok(None),
    }
}

/// The cell, where its entry names records alone.
fn log_named(
    alloc: Global,
    catalog: &Catalog,
    stamp: Stamp,
    entry: LogEntry,
) -> Result<Option<Option<LogCell>>, NoMemory>
    requires { FitsEntry entry }
    ensures { IfOk result (λ cell. (if list_all (is_key_of catalog.now) entry.writes then Log (Some (record { stamp = stamp; entry = entry })) else Strange) ≡ log_or_strange cell) }
{
    if are_keys_of(alloc, catalog, entry.writes.as_slice())? {
        Ok(Some(Some(LogCell { stamp, entry })))
    } else {
        Ok(None)
    }
}

/// To one who asked for the cell of the record under this key; `None` where no place of a run replies so.
pub fn hear_record(
    alloc: Global,
    catalog: &Catalog,
    key: &Bytes,
    reply: &Reply,
) -> Result<Option<RecordCell>, NoMemory>
    ensures { IfOk result (λ cell. hears_record catalog.now key.now reply.now ≡ record_or_strange cell) }
{
    match reply {
        Reply::Store(StoreReply::Cell { stamp, value }) => {
            record_of(alloc, catalog, key, *stamp, value.as_slice())
        }
        Reply::Store(_) | Reply::Manager(_) => Ok(None),
    }
}

fn record_of(
    alloc: Global,
    catalog: &Catalog,
    key: &Bytes,
    stamp: Stamp,
    value: &[u8],
) -> Result<Option<RecordCell>, NoMemory>
    ensures { IfOk result (λ cell. record_shown catalog.now key.now stamp value.now ≡ record_or_strange cell) }
{
    if !is_cell(stamp, value) {
        return Ok(None);
    }
    let Some(versions) = cell_read(alloc, value)? else {
        return Ok(None);
    };
    if is_record_for(alloc, catalog, key, &versions)? {
        Ok(Some(RecordCell { stamp, versions }))
    } else {
        Ok(None)
    }
}

/// To one who asked for a page of this range; `None` where no place of a run replies so.
pub fn hear_page(
    alloc: Global,
    catalog: &Catalog,
    from: &Bytes,
    before: &Bytes,
    reply: &Reply,
) -> Result<Option<Page>, NoMemory>
    ensures { IfOk result (λ page. hears_page catalog.now from.now before.now reply.now ≡ page_or_strange page) }
{
    match reply {
        Reply::Store(StoreReply::Items { list, more }) => {
            if is_page(from, before, list.as_slice(), *more) {
                page_of(alloc, catalog, list, *more)
            } else {
                Ok(None)
            }
        }
        Reply::Store(_) | Reply::Manager(_) => Ok(None),
    }
}

fn page_of(
    alloc: Global,
    catalog: &Catalog,
    list: &Items<Item>,
    more: bool,
) -> Result<Option<Page>, NoMemory>
    ensures { IfOk result (λ page. page_shown catalog.now (found_in list.now) more ≡ page_or_strange page) }
{
    let Some(found) = found_of(alloc, list.as_slice())? else {
        return Ok(None);
    };
    if are_records(alloc, catalog, found.as_slice())? {
        Ok(Some(Page { found, more }))
    } else {
        Ok(None)
    }
}

/// The cells of a page, where each has the bytes of one.
fn found_of(alloc: Global, list: &[Item]) -> Result<Option<Items<Found>>, NoMemory>
    ensures { IfOk result (λ found. found ≡ found_in list.now) }
{
    let mut found = Items::new(alloc);
    for item in list {
        let Some(versions) = cell_read(alloc, item.value.as_slice())? else {
            return Ok(None);
        };
        let key = item.key.copy()?;
        found.push(Found { key, versions })?;
    }
    Ok(Some(found))
}

/// To one who stored the commits cell, a log cell or a record's cell; `None` where no place of a run replies so.
pub fn hear_store(reply: &Reply) -> Option<StoreOutcome>
    ensures { hears_store reply.now ≡ store_or_strange result }
{
    match reply {
        Reply::Store(StoreReply::Stored { stamp }) => Some(StoreOutcome::Stored(*stamp)),
        Reply::Store(StoreReply::Moved { stamp: _ }) => Some(StoreOutcome::Moved),
        Reply::Store(_) | Reply::Manager(_) => None,
    }
}

/// To one who draws transaction numbers, the counter as it was; `None` where no place of a run replies so.
pub fn hear_numbers(reply: &Reply) -> Option<u64>
    ensures { hears_numbers reply.now ≡ numbers_or_strange result }
{
    match reply {
        Reply::Store(StoreReply::Count { old }) => Some(*old),
        Reply::Store(_) | Reply::Manager(_) => None,
    }
}

/// To one who asked a manager, but for a number; `None` where no place of a run replies so.
#[tactic(auto, using(crate::proofs::Shown::manager_as_said))]
pub fn hear_manager(reply: &Reply) -> Option<&ManagerReply>
    ensures { hears_manager reply.now ≡ told_or_strange (option_copied result) }
{
    match reply {
        Reply::Manager(told) => {
            prove_small(told);
            Some(told)
        }
        Reply::Store(_) => None,
    }
}

/// To one who asked a manager for a number, and showed it this set; `None` where no place of a run replies so.
#[tactic(auto, using(crate::proofs::Shown::begin_as_said, crate::proofs::Shown::begin_strange))]
pub fn hear_begin<'a>(seen: &Descriptor, reply: &'a Reply) -> Option<&'a ManagerReply>
    ensures { hears_begin seen.now reply.now ≡ told_or_strange (option_copied result) }
{
    match reply {
        Reply::Manager(told) => {
            prove_small(told);
            if may_begin(seen, told) {
                Some(told)
            } else {
                None
            }
        }
        Reply::Store(_) => None,
    }
}

/// Whether a manager that was shown this set may begin a transaction so.
fn may_begin(seen: &Descriptor, told: &ManagerReply) -> bool
    ensures { result ≡ may_answer (asked_of.Begin 1 seen.now) told.now }
{
    match told {
        ManagerReply::Began {
            tid: _,
            snapshot,
            floor,
        } => (seen.begins(snapshot) || !snapshot.begins(seen)) && floor.begins(snapshot),
        ManagerReply::NeedRange
        | ManagerReply::Ranged
        | ManagerReply::Ended
        | ManagerReply::NotActive
        | ManagerReply::Orphaned { .. }
        | ManagerReply::FloorIs { .. }
        | ManagerReply::Posted
        | ManagerReply::Given { .. }
        | ManagerReply::There => true,
    }
}

/// That no set of the reply has too great a number. It does nothing.
#[tactic(auto, using(tl_journal::proofs::StrangeSound::canonical_low))]
fn prove_small(told: &ManagerReply)
    ensures { has_great told.now ≡ false }
{
    match told {
        ManagerReply::Began {
            tid: _,
            snapshot,
            floor,
        } => {
            snapshot.prove_canonical();
            floor.prove_canonical();
        }
        ManagerReply::FloorIs { floor } => floor.prove_canonical(),
        ManagerReply::NeedRange
        | ManagerReply::Ranged
        | ManagerReply::Ended
        | ManagerReply::NotActive
        | ManagerReply::Orphaned { .. }
        | ManagerReply::Posted
        | ManagerReply::Given { .. }
        | ManagerReply::There => {}
    }
}
