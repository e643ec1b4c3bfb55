//! The keys of records in the store, and of their entries in the indexes.

ghost use Rattle.std.specs.Prelude.{◌≡◌, IfOk, OnOk};
ghost use Rattle.tl_values.specs.Key.{AreValues};
ghost use Rattle.tl_schema.specs.Record.{entries_of, entry_key, entry_values, key_values, record_key, store_key};

use crate::catalog::{Index, Table};
use std::alloc::Global;
use tl_base::{Bytes, Keys, NoMemory};
use tl_values::{Row, Value, encode_key, values_at};

/// The first byte of the key of a record.
pub const RECORD: u8 = 4;

/// The key of the record in the table of this number whose primary key has these values.
pub fn store_key(alloc: Global, number: u8, values: &[Value]) -> Result<Bytes, NoMemory>
    ensures key { IfOk result (λ key. key ≡ store_key number values.now) }
    ensures values { OnOk result (AreValues values.now) }
{
    let mut key = Bytes::new(alloc);
    key.push(RECORD)?;
    key.push(number)?;
    key.extend_from_slice(encode_key(alloc, values)?.as_slice())?;
    Ok(key)
}

/// The key of a row of the table, which has this number.
pub fn record_key(alloc: Global, number: u8, table: &Table, row: &Row) -> Result<Bytes, NoMemory>
    ensures key { IfOk result (λ key. key ≡ record_key number table.now row.now) }
    ensures values { OnOk result (AreValues (key_values table.now row.now)) }
{
    let values = key_values(alloc, table, row)?;
    store_key(alloc, number, values.as_slice())
}

/// The values of the primary key columns, in the order of the key.
pub fn key_values(alloc: Global, table: &Table, row: &Row) -> Result<Row, NoMemory>
    ensures { IfOk result (λ values. values ≡ key_values table.now row.now) }
{
    values_at(alloc, row, table.key.as_slice())
}

/// The keys of the row's entries in the indexes of its table, in the order of the indexes.
pub fn entries_of(alloc: Global, table: &Table, row: &Row) -> Result<Keys, NoMemory>
    ensures { IfOk result (λ keys. keys ≡ entries_of table.now row.now) }
{
    let mut keys = Keys::new(alloc);
    for index in table.indexes.as_slice() {
        keys.push(entry_key(alloc, table, index, row)?)?;
    }
    Ok(keys)
}

/// The key of the row's entry in this index of its table: the values of the index columns, and behind them those of
/// the primary key.
pub fn entry_key(alloc: Global, table: &Table, index: &Index, row: &Row) -> Result<Bytes, NoMemory>
    ensures key { IfOk result (λ key. key ≡ entry_key table.now index.now row.now) }
    ensures values { OnOk result (AreValues (entry_values table.now index.now row.now)) }
{
    let mut values = values_at(alloc, row, index.columns.as_slice())?;
    values.append(key_values(alloc, table, row)?)?;
    encode_key(alloc, values.as_slice())
}
