//! The rows that a version has room for.

ghost use Rattle.std.specs.Prelude.{◌≡◌, ◌<◌, ◌+◌, ◌^◌, OnOk, length, nat_lt};
ghost use Rattle.tl_schema.specs.Row.{row_spelling, value_spelling};
ghost use Rattle.tl_versions.specs.Cell.{IsShortChange, IsShortRow};

use tl_base::NoMemory;
use tl_values::{Row, Value};

/// How many values a row may have.
const MOST_VALUES: usize = 255;

/// How many bytes the spelling of a row may have.
const MOST_BYTES: usize = 65_535;

/// A row that a version has no room for is want of memory.
pub fn check_short(row: &Option<Row>) -> Result<(), NoMemory>
    ensures { OnOk result (IsShortChange row.now) }
{
    match row {
        Some(row) => check_short_row(row),
        None => Ok(()),
    }
}

fn check_short_row(row: &Row) -> Result<(), NoMemory>
    ensures { OnOk result (IsShortRow row.now) }
{
    if row.len() > MOST_VALUES || is_long(row) {
        return Err(NoMemory);
    }
    Ok(())
}

/// Whether the spelling of the row has more bytes than a version has room for.
fn is_long(row: &Row) -> bool
    ensures { result ≡ nat_lt 65535 (length (row_spelling row.now)) }
{
    let mut length = 1;
    for value in row.as_slice() {
        length += spelling_length(value);
        if length > MOST_BYTES {
            return true;
        }
    }
    false
}

/// How many bytes the spelling of a value has.
fn spelling_length(value: &Value) -> usize
    ensures exact { result ≡ length (value_spelling value.now) }
    ensures bound { result < 2 ^ 63 + 10 }
{
    match value {
        Value::Null => 1,
        Value::Bool(_) => 2,
        Value::Int(_) => 9,
        Value::Text(text) => 3 + text.as_bytes().len(),
    }
}
