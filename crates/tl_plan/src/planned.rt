//! Which records a SELECT or a change reads.

ghost use Rattle.std.specs.Prelude.{◌≡◌, ◌+◌, ◌∷◌, [], length, IfOk, Some, None, if◌then◌else◌};
ghost use Rattle.std.specs.List.{list_any};
ghost use Rattle.tl_values.specs.Key.{key_bytes};
ghost use Rattle.tl_values.specs.Value.{is_null};
ghost use Rattle.tl_schema.specs.Record.{key_values};
ghost use Rattle.tl_write.specs.Change.{number_of};
ghost use Rattle.tl_isolation.specs.Tables.{HasTable, table_of};
ghost use Rattle.tl_plan.specs.Access.{access_of};
ghost use Rattle.tl_plan.specs.Plan.{NamesFrom, edit_accesses, is_looked_up, points_of, query_accesses};

use crate::access::access_of;
use crate::plan::Accesses;
use std::alloc::Global;
use tl_algebra::{Condition, Edit, Query};
use tl_base::{Bytes, NoMemory};
use tl_schema::{Access, Catalog, LONGEST_KEY, Table, key_values};
use tl_values::{Row, Value, encode_key};

/// The accesses of the tables of FROM, one behind the other.
pub fn query_accesses(alloc: Global, query: &Query, catalog: &Catalog) -> Result<Accesses, NoMemory>
    requires { NamesFrom catalog.now query.now }
    ensures { IfOk result (λ accesses. accesses ≡ query_accesses catalog.now query.now) }
{
    let mut accesses = Accesses::new(alloc);
    let mut offset: usize = 0;
    for join in query.from.as_slice() {
        let table = table_in(catalog, join.table);
        accesses.push(access_of(alloc, table, offset, &query.filter)?)?;
        offset += table.columns.len();
    }
    Ok(accesses)
}

/// The access of a change's table, or those of the rows to insert.
pub fn edit_accesses(alloc: Global, edit: &Edit, catalog: &Catalog) -> Result<Accesses, NoMemory>
    requires { HasTable catalog.now (number_of edit.now) }
    ensures { IfOk result (λ accesses. accesses ≡ edit_accesses catalog.now edit.now) }
{
    match edit {
        Edit::Insert { table, rows } => {
            points_of(alloc, table_in(catalog, *table), rows.as_slice())
        }
        Edit::Update { table, filter, .. } | Edit::Delete { table, filter } => {
            single_access(alloc, table_in(catalog, *table), filter)
        }
    }
}

// The table of this number.
fn table_in(catalog: &Catalog, number: u8) -> &Table
    requires { HasTable catalog.now number }
    ensures { result.now ≡ table_of catalog.now number }
{
    &catalog.tables.as_slice()[usize::from(number)]
}

// The one access of a change that has a WHERE.
fn single_access(
    alloc: Global,
    table: &Table,
    filter: &Option<Condition>,
) -> Result<Accesses, NoMemory>
    ensures { IfOk result (λ accesses. accesses ≡ access_of table.now 0 filter.now ∷ []) }
{
    let mut accesses = Accesses::new(alloc);
    accesses.push(access_of(alloc, table, 0, filter)?)?;
    Ok(accesses)
}

// One record for each row to insert that is looked up.
fn points_of(alloc: Global, table: &Table, rows: &[Row]) -> Result<Accesses, NoMemory>
    ensures { IfOk result (λ points. points ≡ points_of table.now rows.now) }
{
    let mut points = Accesses::new(alloc);
    for row in rows {
        if let Some(key) = key_looked_up(alloc, table, row)? {
            points.push(Access::Point { key })?;
        }
    }
    Ok(points)
}

// The key bytes of a row to insert, where it is looked up.
fn key_looked_up(alloc: Global, table: &Table, row: &Row) -> Result<Option<Bytes>, NoMemory>
    ensures { IfOk result (λ key. key ≡ (if is_looked_up table.now row.now then Some (key_bytes (key_values table.now row.now)) else None)) }
{
    let values = key_values(alloc, table, row)?;
    let key = encode_key(alloc, values.as_slice())?;
    if has_null(values.as_slice()) || key.len() > LONGEST_KEY {
        return Ok(None);
    }
    Ok(Some(key))
}

fn has_null(values: &[Value]) -> bool
    ensures { result ≡ list_any is_null values.now }
{
    values.iter().any(is_null)
}

fn is_null(value: &Value) -> bool
    ensures { result ≡ is_null value.now }
{
    matches!(value, Value::Null)
}
