//! One row of a change, judged by those before it.

ghost use Rattle.std.specs.Prelude.{◌≡◌, ℕ, ◌+◌, ◌-◌, ◌^◌, ◌||◌, not, min, nat_le, Bool, IsTrue, IfOk, List, Ok, Some, None};
ghost use Rattle.std.specs.FinMap as finmap;
ghost use Rattle.tl_schema.specs.Record.{record_key};
ghost use Rattle.tl_write.specs.declared.write.Write.{Write};
ghost use Rattle.tl_schema.specs.declared.catalog.Table.{Table};
ghost use Rattle.tl_write.specs.Change.{Add, Remove, judge, most_records, nothing, replaced, set_columns, too_many, unless, with_write};
ghost use Rattle.tl_write.specs.Own.{is_rising, is_written, put_write, record_count};
ghost use Rattle.tl_write.specs.Progress.{IsCounted, Meets, done};

use crate::buffer::Buffer;
use crate::fault::ChangeFault;
use crate::row::{check_row, set_columns};
use crate::write::{Effect, Write};
use std::alloc::Global;
use tl_algebra::SetColumn;
use tl_base::{Bytes, Duplicate, Items, NoMemory};
use tl_map::SortedMap;
use tl_schema::{Table, record_key};
use tl_values::Row;

/// How many records a transaction may write.
const MOST_RECORDS: usize = 4096;

/// What a statement has done so far.
#[derive(Drop)]
pub struct Progress {
    /// How many rows, as far as the type goes.
    count: u32,
    writes: Buffer,
    /// How many of its records weren't written before the statement.
    fresh: usize,
}

impl Progress {
    pub fn new(alloc: Global) -> Progress
        ensures { (own : List Write) → Meets own (Ok result) (Ok nothing) }
    {
        Progress {
            count: 0,
            writes: Buffer::new(alloc),
            fresh: 0,
        }
    }

    pub fn into_effect(self) -> Effect
        ensures effect { result ≡ done self }
        ensures rising { IsTrue (is_rising result.writes) }
    {
        let Progress {
            count,
            writes,
            fresh: _,
        } = self;
        Effect {
            count,
            writes: Items::from_vec(writes.into_vec()),
        }
    }
}

/// INSERT of one row into the table of this number. The places are those of the view's records.
pub fn add(
    alloc: Global,
    number: u8,
    table: &Table,
    row: &Row,
    places: &SortedMap<usize>,
    own: &Buffer,
    progress: Progress,
) -> Result<Progress, ChangeFault>
    requires { IsCounted own.now progress }
    ensures { Meets own.now result (judge table.now (finmap.contains_key places.now) own.now (Add (record_key number table.now row.now) row.now) (done progress)) }
{
    check_row(alloc, table, row)?;
    let key = record_key(alloc, number, table, row)?;
    if places.contains_key(&key) || progress.writes.contains(&key) {
        return Err(ChangeFault::Duplicate);
    }
    let row = Some(row.copy()?);
    put(own, progress, Write { key, row })
}

/// UPDATE of the record of this key.
pub fn replace(
    alloc: Global,
    key: Bytes,
    table: &Table,
    sets: &[SetColumn],
    old: &Row,
    own: &Buffer,
    progress: Progress,
) -> Result<Progress, ChangeFault>
    requires { IsCounted own.now progress }
    ensures { (is_there : List ℕ → Bool) → Meets own.now result (judge table.now is_there own.now (replaced key (set_columns sets.now old.now old.now)) (done progress)) }
{
    let row = set_columns(sets, old)?;
    check_row(alloc, table, &row)?;
    put(
        own,
        progress,
        Write {
            key,
            row: Some(row),
        },
    )
}

/// DELETE of the record of this key, whatever its table.
pub fn remove(key: Bytes, own: &Buffer, progress: Progress) -> Result<Progress, ChangeFault>
    requires { IsCounted own.now progress }
    ensures { (table : Table) (is_there : List ℕ → Bool) → Meets own.now result (judge table is_there own.now (Remove key) (done progress)) }
{
    put(own, progress, Write { key, row: None })
}

/// Puts a write beside those of the statement, unless its record is one too many.
fn put(own: &Buffer, progress: Progress, write: Write) -> Result<Progress, ChangeFault>
    requires { IsCounted own.now progress }
    ensures { Meets own.now result (unless (too_many own.now progress.writes write.key) (with_write write (done progress))) }
{
    let fresh = progress.fresh;
    if !is_fresh(own, &progress.writes, &write.key) {
        return Ok(with_write(progress, write, fresh)?);
    }
    if is_full(own, &progress) {
        return Err(ChangeFault::Many);
    }
    Ok(with_write(progress, write, fresh + 1)?)
}

/// Whether the record is written neither before the statement nor by it.
fn is_fresh(own: &Buffer, writes: &Buffer, key: &Bytes) -> bool
    ensures fresh { result ≡ not (is_written key.now own.now || is_written key.now writes.now) }
    ensures rising { IsTrue (is_rising writes.now) }
{
    !writes.contains(key) && !own.contains(key)
}

/// Whether as many records are written as a transaction may write.
fn is_full(own: &Buffer, progress: &Progress) -> bool
    requires { IsCounted own.now progress.now }
    ensures { result ≡ nat_le most_records (record_count own.now progress.now.writes) }
{
    progress.fresh >= MOST_RECORDS.saturating_sub(own.len())
}

/// One row and one write more, with this count of fresh records.
fn with_write(progress: Progress, write: Write, fresh: usize) -> Result<Progress, NoMemory>
    ensures { IfOk result (λ more. more ≡ record { count = min (progress.count + 1) (2 ^ 32 - 1); writes = put_write write progress.writes; fresh = fresh }) }
{
    let Progress {
        count,
        mut writes,
        fresh: _,
    } = progress;
    writes.put(write)?;
    Ok(Progress {
        count: count.saturating_add(1),
        writes,
        fresh,
    })
}
