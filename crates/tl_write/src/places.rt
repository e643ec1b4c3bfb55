//! Where the record of each key stands in a list of rows.

ghost use Rattle.std.specs.Prelude.{◌≡◌, IfOk};
ghost use Rattle.std.specs.FinMap as finmap;
ghost use Rattle.tl_write.specs.Places.{AreWithin, tables_at};
ghost use Rattle.tl_write.specs.Tables.{tables_of};

use std::alloc::Global;
use tl_base::NoMemory;
use tl_map::SortedMap;
use tl_schema::{Table, record_key};
use tl_values::Row;

/// The place of each record among the rows, which are of the table of this number. Of two with one key the later counts.
pub fn places(
    alloc: Global,
    number: u8,
    table: &Table,
    rows: &[Row],
) -> Result<SortedMap<usize>, NoMemory>
    ensures found { IfOk result (λ places. tables_at rows.now places ≡ tables_of number table.now rows.now) }
    ensures within { IfOk result (λ places. AreWithin rows.now (finmap.entries places)) }
{
    let mut places = SortedMap::new(alloc);
    for (at, row) in rows.iter().enumerate() {
        places.insert(record_key(alloc, number, table, row)?, at)?;
    }
    Ok(places)
}
