//! What a row of a table may be.

ghost use Rattle.std.specs.Prelude.{◌≡◌, ◌<◌, ◌^◌, ◌+◌, IfOk, length, nat_lt};
ghost use Rattle.std.specs.List.{list_any};
ghost use Rattle.tl_values.specs.Value as value;
ghost use Rattle.tl_schema.specs.Limits as limits;
ghost use Rattle.tl_schema.specs.Row.{row_spelling, value_spelling};

use crate::catalog::{Column, Index, Table};
use std::alloc::Global;
use tl_base::NoMemory;
use tl_values::{Row, Value, encode_key, values_at};

/// How many bytes the spelling of a row may have.
pub const LONGEST_ROW: usize = 1024;

/// How many bytes the key of a record or of an index may have.
pub const LONGEST_KEY: usize = 255;

/// Whether a column that refuses NULL has one.
pub fn breaks_not_null(columns: &[Column], row: &Row) -> bool
    ensures { result ≡ limits.breaks_not_null columns.now row.now }
{
    let mut left = row.as_slice();
    for column in columns {
        match left.split_first() {
            Some((value, more)) => {
                if column.not_null && is_null(value) {
                    return true;
                }
                left = more;
            }
            None => {
                if column.not_null {
                    return true;
                }
            }
        }
    }
    false
}

fn is_null(of: &Value) -> bool
    ensures { result ≡ value.is_null of.now }
{
    matches!(of, Value::Null)
}

/// Whether the row, its key or an index key is above its limit.
pub fn is_long(alloc: Global, table: &Table, row: &Row) -> Result<bool, NoMemory>
    ensures { IfOk result (λ long. long ≡ limits.is_long table.now row.now) }
{
    if is_row_long(row) || is_key_long(alloc, row, table.key.as_slice())? {
        return Ok(true);
    }
    has_long_index_key(alloc, row, table.indexes.as_slice())
}

fn has_long_index_key(alloc: Global, row: &Row, indexes: &[Index]) -> Result<bool, NoMemory>
    ensures { IfOk result (λ long. long ≡ list_any (λ index. nat_lt 255 (limits.index_key_length row.now index.columns)) indexes.now) }
{
    for index in indexes {
        if is_key_long(alloc, row, index.columns.as_slice())? {
            return Ok(true);
        }
    }
    Ok(false)
}

/// Whether the key of these columns is above its limit.
fn is_key_long(alloc: Global, row: &Row, columns: &[u8]) -> Result<bool, NoMemory>
    ensures { IfOk result (λ long. long ≡ nat_lt 255 (limits.index_key_length row.now columns.now)) }
{
    let key = values_at(alloc, row, columns)?;
    let bytes = encode_key(alloc, key.as_slice())?;
    Ok(bytes.len() > LONGEST_KEY)
}

/// Whether the spelling of the row is above its limit.
fn is_row_long(row: &Row) -> bool
    ensures { result ≡ nat_lt 1024 (length (row_spelling row.now)) }
{
    let mut length = 1;
    for value in row.as_slice() {
        length += spelling_length(value);
        if length > LONGEST_ROW {
            return true;
        }
    }
    false
}

/// How many bytes the spelling of a value has.
fn spelling_length(value: &Value) -> usize
    ensures exact { result ≡ length (value_spelling value.now) }
    ensures bound { result < 2 ^ 63 + 10 }
{
    match value {
        Value::Null => 1,
        Value::Bool(_) => 2,
        Value::Int(_) => 9,
        Value::Text(text) => 3 + text.as_bytes().len(),
    }
}
