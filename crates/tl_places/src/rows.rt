//! The rows that a script opens with, by their record keys.

ghost use Rattle.std.specs.Prelude.{◌≡◌, ◌<◌, ◌^◌, IfOk, OnOk, ◌∷◌, [], Some};
ghost use Rattle.std.specs.FinMap as finmap;
ghost use Rattle.std.specs.List.{AllByRecursion};
ghost use Rattle.tl_versions.specs.Cell as cells;
ghost use Rattle.tl_versions.specs.Cell.{IsShortRow};
ghost use Rattle.tl_isolation.specs.Tables.{HasTable, opening_writes};
ghost use Rattle.tl_places.specs.Opening.{row_writes, with_row};

use std::alloc::Global;
use tl_base::{Bytes, Duplicate, NoMemory};
use tl_isolation::Script;
use tl_map::SortedMap;
use tl_schema::{Catalog, OpeningRow, record_key};
use tl_values::{Row, copy_row};
use tl_versions::{Version, Versions};

/// The rows by their record keys, each in a table of the catalog. Of two with one key the first stands.
pub fn opening_rows(alloc: Global, script: &Script) -> Result<SortedMap<Row>, NoMemory>
    requires tables { AllByRecursion (λ o. HasTable script.now.catalog o.table) script.now.rows }
    ensures writes { IfOk result (λ rows. row_writes rows ≡ opening_writes script.now.catalog script.now.rows) }
    ensures fits { IfOk result (λ rows. finmap.len rows < 2 ^ 61) }
{
    let mut rows = SortedMap::new(alloc);
    let mut left = script.rows.as_slice();
    while let Some((opening, before)) = left.split_last() {
        put_row(alloc, &script.catalog, opening, &mut rows)?;
        left = before;
    }
    Ok(rows)
}

fn put_row(
    alloc: Global,
    catalog: &Catalog,
    opening: &OpeningRow,
    rows: &mut SortedMap<Row>,
) -> Result<(), NoMemory>
    requires { HasTable catalog.now opening.now.table }
    ensures { OnOk result (rows.new ≡ with_row catalog.now opening.now rows.old) }
{
    let table = &catalog.tables.as_slice()[usize::from(opening.table)];
    let key = record_key(alloc, opening.table, table, &opening.row)?;
    let row = copy_row(&opening.row)?;
    rows.insert(key, row)?;
    Ok(())
}

/// The bytes of a cell that has the row alone.
pub fn opening_cell(alloc: Global, row: &Row) -> Result<Bytes, NoMemory>
    requires { IsShortRow row.now }
    ensures { IfOk result (λ bytes. bytes ≡ cells.spelling (record { tid = 0; row = Some row.now } ∷ [])) }
{
    let row = copy_row(row)?;
    let mut versions = Versions::new(alloc);
    versions.push(Version {
        tid: 0,
        row: Some(row),
    })?;
    versions.encode()
}
