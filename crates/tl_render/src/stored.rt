//! The tables after all commits, read off what the store holds, so that no statement is run again.

ghost use Rattle.std.specs.Prelude.{◌≡◌, List, ℕ, Some, map, IfOk, IsSome, OnOk};
ghost use Rattle.std.specs.Option.{option_copied, option_map};
ghost use Rattle.std.specs.FinMap as finmap;
ghost use Rattle.std.specs.List.{AllByRecursion};
ghost use Rattle.tl_base.specs.declared.place.Settings.{Settings};
ghost use Rattle.tl_descriptor.specs.Reading.{read_set};
ghost use Rattle.tl_versions.specs.Reading.{read_cell};
ghost use Rattle.tl_isolation.specs.History.{state_after};
ghost use Rattle.tl_isolation.specs.Script.{setup_of};
ghost use Rattle.tl_isolation.specs.State.{tables_after};
ghost use Rattle.tl_isolation.specs.Tables.{HasTable};
ghost use Rattle.tl_protocol.specs.Store.{last_of, row_shown};
ghost use Rattle.tl_journal.specs.Bytes.{commits_key};
ghost use Rattle.tl_journal.specs.Journal.{entries_told};
ghost use Rattle.tl_journal.specs.Law.{IsRun};
ghost use Rattle.tl_journal.specs.Served.{is_record_key};
ghost use Rattle.tl_render.specs.Stored.{AreRead, IsOfRun, finished_in, last_stored, put_row, row_in, stored_at, stored_by, with_cells};

use std::alloc::Global;
use tl_base::{Bytes, Duplicate, NoMemory, StoreReply, StoreRequest};
use tl_descriptor::{Descriptor, DescriptorFault};
use tl_isolation::Script;
use tl_journal::Event;
use tl_manager::{Reply, Request};
use tl_map::SortedMap;
use tl_places::opening_rows;
use tl_schema::RECORD;
use tl_values::{Row, copy_row};
use tl_versions::{CellFault, Versions};

/// The rows of all tables after all commits, under their record keys. These are the events of a run of the script.
pub fn final_rows(
    alloc: Global,
    script: &Script,
    events: &[Event],
) -> Result<SortedMap<Row>, NoMemory>
    requires tables { AllByRecursion (λ o. HasTable script.now.catalog o.table) script.now.rows }
    requires run { IsOfRun script.now events.now }
    ensures { IfOk result (λ rows. (settings : Settings) → IsRun script.now settings events.now
        → rows ≡ tables_after (state_after (setup_of script.now settings) (entries_told events.now)).commits) }
{
    let stores = last_stores(alloc, events)?;
    let finished = last_finished(alloc, &stores)?;
    let mut rows = opening_rows(alloc, script)?;
    show_rows(alloc, &mut rows, &stores, &finished)?;
    Ok(rows)
}

// The bytes that were stored last under each key.
fn last_stores<'a>(alloc: Global, events: &'a [Event]) -> Result<SortedMap<&'a Bytes>, NoMemory>
    ensures { IfOk result (λ stores. (key : List ℕ) → option_copied (finmap.get stores key) ≡ last_stored events.now key) }
{
    let mut stores = SortedMap::new(alloc);
    for event in events {
        take_store(&mut stores, event)?;
    }
    Ok(stores)
}

// Takes what the event stored, if it stored anything.
fn take_store<'a>(stores: &mut SortedMap<&'a Bytes>, event: &'a Event) -> Result<(), NoMemory>
    ensures { OnOk result ((key : List ℕ) → option_copied (finmap.get stores.new key)
        ≡ last_of (option_copied (finmap.get stores.old key)) (stored_at key (stored_by event.now.request event.now.reply))) }
{
    match stored_by(event) {
        Some((key, value)) => stores.put(key, value),
        None => Ok(()),
    }
}

// The key and the bytes that an event stored.
fn stored_by(event: &Event) -> Option<(&Bytes, &Bytes)>
    ensures { option_map (λ p. (p.0.now, p.1.now)) result ≡ stored_by event.now.request event.now.reply }
{
    match (&event.request, &event.reply) {
        (
            Request::Store(StoreRequest::StoreIf { key, value, .. }),
            Reply::Store(StoreReply::Stored { .. }),
        ) => Some((key, value)),
        _ => None,
    }
}

// The transactions that are finished: those of the commits cell, or tid 0 alone where it was never stored.
fn last_finished(alloc: Global, stores: &SortedMap<&Bytes>) -> Result<Descriptor, NoMemory>
    requires { IsSome (finished_in (option_copied (finmap.get stores.now commits_key))) }
    ensures { IfOk result (λ set. finished_in (option_copied (finmap.get stores.now commits_key)) ≡ Some set) }
{
    let key = Bytes::from_slice(alloc, &[1])?;
    match stores.get(&key) {
        Some(value) => read_finished(alloc, value.as_slice()),
        None => Ok(Descriptor::new(alloc, 0)),
    }
}

// The set that the bytes spell.
fn read_finished(alloc: Global, cell: &[u8]) -> Result<Descriptor, NoMemory>
    requires { IsSome (read_set cell.now) }
    ensures { IfOk result (λ set. read_set cell.now ≡ Some set) }
{
    match Descriptor::decode(alloc, cell) {
        Ok(set) => Ok(set),
        Err(DescriptorFault::NoMemory) => Err(NoMemory),
        Err(DescriptorFault::BadDescriptor) => unreachable!(),
    }
}

// Each record that was stored shows its row in the place of the one that was there.
fn show_rows(
    alloc: Global,
    rows: &mut SortedMap<Row>,
    stores: &SortedMap<&Bytes>,
    finished: &Descriptor,
) -> Result<(), NoMemory>
    requires { AreRead (map (λ e. (e.0, e.1.now)) (finmap.entries stores.now)) }
    ensures { OnOk result (rows.new ≡ with_cells finished.now (map (λ e. (e.0, e.1.now)) (finmap.entries stores.now)) rows.old) }
{
    for (key, cell) in stores {
        if is_record(key) {
            show_row(alloc, rows, key, cell, finished)?;
        }
    }
    Ok(())
}

fn is_record(key: &Bytes) -> bool
    ensures { result ≡ is_record_key key.now }
{
    match key.as_slice() {
        [first, ..] => *first == RECORD,
        [] => false,
    }
}

// Puts the row that the cell shows in the place of the one that was there.
fn show_row(
    alloc: Global,
    rows: &mut SortedMap<Row>,
    key: &Bytes,
    cell: &Bytes,
    finished: &Descriptor,
) -> Result<(), NoMemory>
    requires { IsSome (read_cell cell.now) }
    ensures { OnOk result (rows.new ≡ put_row key.now (row_in finished.now (read_cell cell.now)) rows.old) }
{
    let versions = read_versions(alloc, cell.as_slice())?;
    let row = row_shown(&versions, finished);
    put_row(rows, key, row)?;
    Ok(())
}

// Puts the row under the key, or takes out what stands there.
fn put_row(rows: &mut SortedMap<Row>, key: &Bytes, row: Option<&Row>) -> Result<(), NoMemory>
    ensures { OnOk result (rows.new ≡ put_row key.now (option_copied row.entry) rows.old) }
{
    match row {
        Some(row) => {
            let row = copy_row(row)?;
            rows.put(key, row)?;
        }
        None => {
            rows.remove(key);
        }
    }
    Ok(())
}

// The versions that the bytes spell.
fn read_versions(alloc: Global, cell: &[u8]) -> Result<Versions, NoMemory>
    requires { IsSome (read_cell cell.now) }
    ensures { IfOk result (λ versions. read_cell cell.now ≡ Some versions) }
{
    match Versions::decode(alloc, cell) {
        Ok(versions) => Ok(versions),
        Err(CellFault::NoMemory) => Err(NoMemory),
        Err(CellFault::BadCell) => unreachable!(),
    }
}

// The row that these transactions left.
fn row_shown<'a>(versions: &'a Versions, finished: &Descriptor) -> Option<&'a Row>
    ensures { option_copied result ≡ row_shown finished.now versions.now }
{
    match versions.visible(finished) {
        Some(version) => version.row.as_ref(),
        None => None,
    }
}
