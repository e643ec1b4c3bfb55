//! Rows of a table with the own writes of a transaction laid over them.

ghost use Rattle.std.specs.Prelude.{◌≡◌, IfOk, OnOk, nat_eq};
ghost use Rattle.std.specs.FinMap as finmap;
ghost use Rattle.tl_write.specs.Tables as tables;

use crate::write::Write;
use std::alloc::Global;
use tl_base::{Bytes, Duplicate, NoMemory};
use tl_map::SortedMap;
use tl_schema::{RECORD, Table, record_key};
use tl_values::{Row, Rows};

/// The rows of the table of this number after its writes, in rising order of record keys.
pub fn laid_rows(
    alloc: Global,
    number: u8,
    table: &Table,
    writes: &[Write],
    rows: Rows,
) -> Result<Rows, NoMemory>
    ensures { IfOk result (λ laid. laid ≡ tables.laid_rows number table.now writes.now rows) }
{
    let under = keyed(alloc, number, table, rows)?;
    rows_of(alloc, laid_over(number, writes, under)?)
}

/// The rows, each under its record key.
fn keyed(alloc: Global, number: u8, table: &Table, rows: Rows) -> Result<SortedMap<Row>, NoMemory>
    ensures { IfOk result (λ keyed. keyed ≡ tables.tables_of number table.now rows) }
{
    let mut keyed = SortedMap::new(alloc);
    for row in rows.into_vec() {
        keyed.insert(record_key(alloc, number, table, &row)?, row)?;
    }
    Ok(keyed)
}

/// The table with those of the writes that are of its records.
fn laid_over(
    number: u8,
    writes: &[Write],
    mut under: SortedMap<Row>,
) -> Result<SortedMap<Row>, NoMemory>
    ensures { IfOk result (λ laid. laid ≡ tables.laid_over under (tables.writes_in number writes.now)) }
{
    for write in writes {
        if is_in(number, &write.key) {
            lay_write(&mut under, write)?;
        }
    }
    Ok(under)
}

/// Whether this is the key of a record in the table of this number.
fn is_in(number: u8, key: &Bytes) -> bool
    ensures { result ≡ tables.is_in number key.now }
{
    key.as_slice().starts_with(&[RECORD, number])
}

fn lay_write(rows: &mut SortedMap<Row>, write: &Write) -> Result<(), NoMemory>
    ensures { OnOk result (rows.new ≡ tables.laid_write rows.old write.now) }
{
    match &write.row {
        Some(row) => rows.put(&write.key, row.copy()?),
        None => {
            rows.remove(&write.key);
            Ok(())
        }
    }
}

/// The rows, in the order of their keys.
fn rows_of(alloc: Global, keyed: SortedMap<Row>) -> Result<Rows, NoMemory>
    ensures { IfOk result (λ rows. rows ≡ finmap.values keyed) }
{
    let mut rows = Rows::new(alloc);
    for (_, row) in keyed {
        rows.push(row)?;
    }
    Ok(rows)
}
