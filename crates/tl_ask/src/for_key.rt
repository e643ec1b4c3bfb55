//! Whether a cell is one for its key: a record cell's rows are at home there, and a log cell names records.

ghost use Rattle.std.specs.Prelude.{◌≡◌, ◌^◌, IfOk, ◌&&◌, ◌==◌, length, nat_le, nat_lt};
ghost use Rattle.std.specs.List.{list_all};
ghost use Rattle.std.specs.Option.{option_copied};
ghost use Rattle.tl_isolation.specs.Kinds.{are_of_kinds, is_of_kind};
ghost use Rattle.tl_isolation.specs.Tables.{table_of};
ghost use Rattle.tl_journal.specs.Ask.{Found as TheFound};
ghost use Rattle.tl_journal.specs.ForKey.{are_values_of, is_change_for, is_home, is_home_in, is_key_in, is_key_of, is_of_column, is_record_for, is_row_of};
ghost use Rattle.tl_values.specs.Value as value;
ghost use Rattle.tl_ask.specs.Columns.{are_of_columns, fits_at};

use crate::heard::Found;
use std::alloc::Global;
use tl_base::{Bytes, NoMemory, Tid};
use tl_schema::{
    Catalog, Column, LONGEST_KEY, RECORD, Table, breaks_not_null, is_long, record_key,
};
use tl_values::{KeyFault, Kind, Row, Value, decode_key};
use tl_versions::{Version, Versions};

/// The end of transaction numbers.
const GREATEST: Tid = 1 << 62;

/// Whether each of these cells is one for its key.
pub fn are_records(alloc: Global, catalog: &Catalog, found: &[Found]) -> Result<bool, NoMemory>
    ensures { IfOk result (λ fit. fit ≡ list_all (λ (f : TheFound). is_record_for catalog.now f.key f.versions) found.now) }
{
    for cell in found {
        if !is_record_for(alloc, catalog, &cell.key, &cell.versions)? {
            return Ok(false);
        }
    }
    Ok(true)
}

/// Whether each row is at home under the key, and no number of a transaction is too great.
pub fn is_record_for(
    alloc: Global,
    catalog: &Catalog,
    key: &Bytes,
    versions: &Versions,
) -> Result<bool, NoMemory>
    ensures { IfOk result (λ fits. fits ≡ is_record_for catalog.now key.now versions.now) }
{
    for version in versions.list() {
        if !is_version_for(alloc, catalog, key, version)? {
            return Ok(false);
        }
    }
    Ok(true)
}

fn is_version_for(
    alloc: Global,
    catalog: &Catalog,
    key: &Bytes,
    version: &Version,
) -> Result<bool, NoMemory>
    ensures { IfOk result (λ fits. fits ≡ (nat_le version.now.tid (2 ^ 62) && is_change_for catalog.now key.now version.now.row)) }
{
    if version.tid > GREATEST {
        return Ok(false);
    }
    match &version.row {
        Some(row) => is_home(alloc, catalog, key, row),
        None => Ok(true),
    }
}

/// Whether the row is one of the table that the key names, and has this record key.
fn is_home(alloc: Global, catalog: &Catalog, key: &Bytes, row: &Row) -> Result<bool, NoMemory>
    ensures { IfOk result (λ home. home ≡ is_home catalog.now key.now row.now) }
{
    match key.as_slice() {
        [_, number, ..] => is_home_in(alloc, catalog, *number, key, row),
        [] | [_] => Ok(false),
    }
}

fn is_home_in(
    alloc: Global,
    catalog: &Catalog,
    number: u8,
    key: &Bytes,
    row: &Row,
) -> Result<bool, NoMemory>
    ensures { IfOk result (λ home. home ≡ is_home_in catalog.now number key.now row.now) }
{
    let Some(table) = catalog.tables.get(usize::from(number)) else {
        return Ok(false);
    };
    if !is_row_of(alloc, table, row)? {
        return Ok(false);
    }
    let own = record_key(alloc, number, table, row)?;
    Ok(key.cmp(&own).is_eq())
}

/// Whether the table may have the row.
fn is_row_of(alloc: Global, table: &Table, row: &Row) -> Result<bool, NoMemory>
    ensures { IfOk result (λ fits. fits ≡ is_row_of table.now row.now) }
{
    let columns = table.columns.as_slice();
    if !are_of_kinds(columns, row) || breaks_not_null(columns, row) {
        return Ok(false);
    }
    let long = is_long(alloc, table, row)?;
    Ok(!long)
}

/// Whether there is one value for each column, NULL or of its kind.
fn are_of_kinds(columns: &[Column], row: &Row) -> bool
    ensures { result ≡ are_of_kinds columns.now row.now }
{
    let mut left = row.as_slice();
    for column in columns {
        let Some((value, more)) = left.split_first() else {
            return false;
        };
        if !is_of_kind(column.kind, value) {
            return false;
        }
        left = more;
    }
    left.is_empty()
}

fn is_of_kind(kind: Kind, value: &Value) -> bool
    ensures { result ≡ is_of_kind kind value.now }
{
    match (kind, value) {
        (_, Value::Null) => true,
        (Kind::Int, Value::Int(_)) => true,
        (Kind::Text, Value::Text(_)) => true,
        (Kind::Bool, Value::Bool(_)) => true,
        (Kind::Int, Value::Text(_) | Value::Bool(_)) => false,
        (Kind::Text, Value::Int(_) | Value::Bool(_)) => false,
        (Kind::Bool, Value::Int(_) | Value::Text(_)) => false,
    }
}

/// Whether each key is that of a record of one of the tables.
pub fn are_keys_of(alloc: Global, catalog: &Catalog, keys: &[Bytes]) -> Result<bool, NoMemory>
    ensures { IfOk result (λ are. are ≡ list_all (is_key_of catalog.now) keys.now) }
{
    for key in keys {
        if !is_key_of(alloc, catalog, key)? {
            return Ok(false);
        }
    }
    Ok(true)
}

fn is_key_of(alloc: Global, catalog: &Catalog, key: &Bytes) -> Result<bool, NoMemory>
    ensures { IfOk result (λ is. is ≡ is_key_of catalog.now key.now) }
{
    match key.as_slice() {
        [byte, number, values @ ..] => {
            if *byte != RECORD {
                return Ok(false);
            }
            names_record(alloc, catalog, *number, values)
        }
        [] | [_] => Ok(false),
    }
}

/// Whether there is a table of this number, and these are the bytes of a primary key of it.
fn names_record(
    alloc: Global,
    catalog: &Catalog,
    number: u8,
    values: &[u8],
) -> Result<bool, NoMemory>
    ensures { IfOk result (λ named. named ≡ (nat_lt number (length catalog.now.tables) && is_key_in (table_of catalog.now number) values.now)) }
{
    let Some(table) = catalog.tables.get(usize::from(number)) else {
        return Ok(false);
    };
    if values.len() > LONGEST_KEY {
        return Ok(false);
    }
    are_values_of(
        alloc,
        table.columns.as_slice(),
        table.key.as_slice(),
        values,
    )
}

/// Whether these are the bytes of one value for each of the columns at these places.
fn are_values_of(
    alloc: Global,
    columns: &[Column],
    places: &[u8],
    bytes: &[u8],
) -> Result<bool, NoMemory>
    ensures { IfOk result (λ are. are ≡ are_values_of columns.now places.now bytes.now) }
{
    match decode_key(alloc, bytes) {
        Ok(values) => Ok(are_of_columns(columns, places, &values)),
        Err(KeyFault::BadKey) => Ok(false),
        Err(KeyFault::NoMemory) => Err(NoMemory),
    }
}

fn are_of_columns(columns: &[Column], places: &[u8], values: &Row) -> bool
    ensures { result ≡ are_of_columns columns.now places.now values.now }
{
    let mut left = values.as_slice();
    for place in places {
        match left.split_first() {
            Some((value, more)) => {
                if !fits_at(columns, *place, value) {
                    return false;
                }
                left = more;
            }
            None => return false,
        }
    }
    left.is_empty()
}

#[tactic(auto, unfolding(crate::specs::Columns::fits_at))]
fn fits_at(columns: &[Column], place: u8, value: &Value) -> bool
    ensures { result ≡ fits_at columns.now place value.now }
{
    is_of_column(columns.get(usize::from(place)), value)
}

/// Whether the value is of the column's kind, and no NULL that it refuses.
fn is_of_column(column: Option<&Column>, value: &Value) -> bool
    ensures { result ≡ is_of_column (option_copied column.entry) value.now }
{
    match column {
        Some(column) => { is_of_kind(column.kind, value) && !(column.not_null && is_null(value)) }
        None => true,
    }
}

fn is_null(of: &Value) -> bool
    ensures { result ≡ value.is_null of.now }
{
    matches!(of, Value::Null)
}
