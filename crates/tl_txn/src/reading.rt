//! A transaction reads: the rows that its snapshot shows.

ghost use Rattle.std.specs.Prelude.{◌≡◌, ◌+◌, ◌<◌, ◌++◌, ◌∷◌, [], IfOk, OnOk};
ghost use Rattle.std.specs.Option.{option_to_list};
ghost use Rattle.tl_ask.specs.Asked.{asked};
ghost use Rattle.tl_ask.specs.Hears.{page_or_strange, record_or_strange};
ghost use Rattle.tl_protocol.specs.Store.{row_shown};
ghost use Rattle.tl_journal.specs.Ask.{ReadPage};
ghost use Rattle.tl_journal.specs.Reads as law;
ghost use Rattle.tl_journal.specs.Reads.{key_behind, range_left, rows_found};
ghost use Rattle.tl_txn.specs.After.{IsTaken};
ghost use Rattle.tl_txn.specs.Hears.{hears_reading};
ghost use Rattle.tl_txn.specs.Taken.{next_page, takes_reading};
ghost use Rattle.tl_txn.specs.declared.phase.Read.TheVariants as read_as;

use crate::after::After;
use crate::phase::{Open, PageRead, Phase, Read};
use std::alloc::Global;
use tl_ask::{Asked, Found, Layout, Page, RecordCell, hear_page, hear_record, read_page};
use tl_base::{Bytes, Duplicate, Items, NoMemory};
use tl_descriptor::Descriptor;
use tl_manager::{Mark, Reply};
use tl_schema::Catalog;
use tl_values::{Row, Rows, copy_row};
use tl_versions::Versions;

pub fn hear_reading(
    alloc: Global,
    catalog: &Catalog,
    layout: Layout,
    live: Open,
    read: Read,
    reply: &Reply,
) -> After
    ensures { IsTaken layout (takes_reading layout live read (hears_reading catalog.now read reply.now)) result }
{
    match read {
        Read::Point(key) => match hear_record(alloc, catalog, &key, reply) {
            Ok(cell) => take_point(layout, live, key, cell),
            Err(NoMemory) => After::out(Mark::Quiet),
        },
        Read::Range(read) => match hear_page(alloc, catalog, &read.from, &read.before, reply) {
            Ok(page) => take_page(layout, live, read, page),
            Err(NoMemory) => After::out(Mark::Quiet),
        },
    }
}

fn take_point(layout: Layout, live: Open, key: Bytes, cell: Option<RecordCell>) -> After
    ensures { IsTaken layout (takes_reading layout live (read_as.Point key) (record_or_strange cell)) result }
{
    let _ = (layout, key);
    let Some(cell) = cell else {
        return After::strange();
    };
    let mut live = live;
    match push_shown(&mut live.rows, &live.snapshot, &cell.versions) {
        Ok(()) => After::ready(live, Mark::Quiet),
        Err(NoMemory) => After::out(Mark::Quiet),
    }
}

/// Puts the row that the snapshot shows to the others, if it shows one.
fn push_shown(rows: &mut Rows, snapshot: &Descriptor, versions: &Versions) -> Result<(), NoMemory>
    ensures { OnOk result (rows.new ≡ rows.old ++ option_to_list (row_shown snapshot.now versions.now)) }
{
    if let Some(row) = row_shown(snapshot, versions)? {
        rows.push(row)?;
    }
    Ok(())
}

fn row_shown(snapshot: &Descriptor, versions: &Versions) -> Result<Option<Row>, NoMemory>
    ensures { IfOk result (λ row. row ≡ row_shown snapshot.now versions.now) }
{
    match versions.visible(snapshot) {
        Some(version) => copy_shown(&version.row),
        None => Ok(None),
    }
}

/// A copy of a row, where there is one.
pub fn copy_shown(row: &Option<Row>) -> Result<Option<Row>, NoMemory>
    ensures { IfOk result (λ copy. copy ≡ row.now) }
{
    match row {
        Some(row) => Ok(Some(copy_row(row)?)),
        None => Ok(None),
    }
}

fn take_page(layout: Layout, live: Open, read: PageRead, page: Option<Page>) -> After
    ensures { IsTaken layout (takes_reading layout live (read_as.Range read) (page_or_strange page)) result }
{
    let Some(page) = page else {
        return After::strange();
    };
    let Page { found, more } = page;
    let mut live = live;
    match push_found(&mut live.rows, &live.snapshot, found.as_slice()) {
        Ok(()) => read_on(layout, live, read, found, more),
        Err(NoMemory) => After::out(Mark::Quiet),
    }
}

/// Puts the rows that the snapshot shows of these cells to the others.
fn push_found(rows: &mut Rows, snapshot: &Descriptor, found: &[Found]) -> Result<(), NoMemory>
    ensures { OnOk result (rows.new ≡ rows.old ++ rows_found snapshot.now found.now) }
{
    for cell in found {
        push_shown(rows, snapshot, &cell.versions)?;
    }
    Ok(())
}

/// The range goes on behind these cells, or at the next shard, or is read.
fn read_on(layout: Layout, live: Open, read: PageRead, found: Items<Found>, more: bool) -> After
    ensures { IsTaken layout (next_page live (range_left layout.shards read.shard read.from read.first read.before more found)) result }
{
    if more {
        return read_behind(layout, live, read, found);
    }
    if read.shard < layout.shards() - 1 {
        return read_next_shard(layout, live, read);
    }
    After::ready(live, Mark::Quiet)
}

fn read_behind(layout: Layout, live: Open, read: PageRead, found: Items<Found>) -> After
    ensures { IsTaken layout (next_page live (law.Range read.shard (key_behind read.from found) read.first read.before ∷ [])) result }
{
    let PageRead {
        shard,
        from,
        first,
        before,
    } = read;
    match key_behind(from, found) {
        Ok(from) => {
            let read = PageRead {
                shard,
                from,
                first,
                before,
            };
            read_further(layout, live, read)
        }
        Err(NoMemory) => After::out(Mark::Quiet),
    }
}

fn read_next_shard(layout: Layout, live: Open, read: PageRead) -> After
    requires { read.shard + 1 < layout.shards }
    ensures { IsTaken layout (next_page live (law.Range (read.shard + 1) read.first read.first read.before ∷ [])) result }
{
    match read.first.copy() {
        Ok(from) => {
            let read = PageRead {
                shard: read.shard + 1,
                from,
                first: read.first,
                before: read.before,
            };
            read_further(layout, live, read)
        }
        Err(NoMemory) => After::out(Mark::Quiet),
    }
}

fn read_further(layout: Layout, live: Open, read: PageRead) -> After
    ensures { IsTaken layout (next_page live (law.Range read.shard read.from read.first read.before ∷ [])) result }
{
    let ask = ask_page(layout, &read);
    After::going(Mark::Quiet, Phase::Reading(live, Read::Range(read)), ask)
}

pub fn ask_page(layout: Layout, read: &PageRead) -> Result<Asked, NoMemory>
    ensures { IfOk result (λ ask. ask ≡ asked layout (ReadPage read.now.shard read.now.from read.now.before)) }
{
    let from = read.from.copy()?;
    let before = read.before.copy()?;
    Ok(read_page(layout, read.shard, from, before))
}

/// The key behind the last of these cells, in byte order.
fn key_behind(from: Bytes, found: Items<Found>) -> Result<Bytes, NoMemory>
    ensures { IfOk result (λ key. key ≡ key_behind from found) }
{
    let mut found = found;
    match found.pop() {
        Some(last) => {
            let Found { key, versions: _ } = last;
            let mut key = key;
            key.push(0)?;
            Ok(key)
        }
        None => Ok(from),
    }
}
