//! The rows that a transaction sees.

ghost use Rattle.std.specs.Prelude.{◌≡◌, IfOk, OnOk, map, take};
ghost use Rattle.std.specs.FinMap as finmap;
ghost use Rattle.tl_algebra.specs.declared.query.Join.{Join};
ghost use Rattle.tl_write.specs.Tables as tables;
ghost use Rattle.tl_isolation.specs.State.{tables_after};
ghost use Rattle.tl_isolation.specs.Tables.{rows_in};

use crate::past::{Past, is_in};
use std::alloc::Global;
use tl_algebra::Query;
use tl_base::{Duplicate, Items, NoMemory};
use tl_map::SortedMap;
use tl_values::{Row, Rows};
use tl_write::{Buffer, Write};

/// The rows of the table of this number after the first commits and the own writes, in the order of their keys.
pub fn rows_seen(
    alloc: Global,
    number: u8,
    past: &Past,
    first: u32,
    own: &Buffer,
) -> Result<Rows, NoMemory>
    ensures { IfOk result (λ rows. rows ≡ rows_in number (tables.laid_over (tables_after (take first past.now)) own.now)) }
{
    let records = past.records(alloc, number, first)?;
    let laid = laid_over(number, own.writes(), records)?;
    rows_of(alloc, laid)
}

/// The rows of each table that the query reads.
pub fn tables_seen(
    alloc: Global,
    query: &Query,
    past: &Past,
    first: u32,
    own: &Buffer,
) -> Result<Items<Rows>, NoMemory>
    ensures { let view = tables.laid_over (tables_after (take first past.now)) own.now in IfOk result (λ seen. seen ≡ map (λ (join : Join). rows_in join.table view) query.now.from) }
{
    let mut seen = Items::new(alloc);
    for join in query.from.as_slice() {
        seen.push(rows_seen(alloc, join.table, past, first, own)?)?;
    }
    Ok(seen)
}

/// The table with those of the writes that are of its records.
fn laid_over(
    number: u8,
    writes: &[Write],
    mut records: SortedMap<Row>,
) -> Result<SortedMap<Row>, NoMemory>
    ensures { IfOk result (λ laid. laid ≡ tables.laid_over records (tables.writes_in number writes.now)) }
{
    for write in writes {
        if is_in(number, &write.key) {
            lay_write(&mut records, write)?;
        }
    }
    Ok(records)
}

fn lay_write(records: &mut SortedMap<Row>, write: &Write) -> Result<(), NoMemory>
    ensures { OnOk result (records.new ≡ tables.laid_write records.old write.now) }
{
    match &write.row {
        Some(row) => records.put(&write.key, row.copy()?),
        None => {
            records.remove(&write.key);
            Ok(())
        }
    }
}

/// The rows, in the order of their keys.
fn rows_of(alloc: Global, records: SortedMap<Row>) -> Result<Rows, NoMemory>
    ensures { IfOk result (λ rows. rows ≡ finmap.values records) }
{
    let mut rows = Rows::new(alloc);
    for (_, row) in records {
        rows.push(row)?;
    }
    Ok(rows)
}
