//! The opening rows of a script.

ghost use Rattle.std.specs.Prelude.{◌≡◌, IfOk};
ghost use Rattle.tl_opening.specs.Rows.{number_in, opening_rows};

use std::alloc::Global;
use tl_base::{Bytes, Items, NoMemory};
use tl_map::SortedMap;
use tl_schema::OpeningRow;
use tl_values::Row;

/// The rows, each with the number of its table, in rising order of record keys.
pub fn opening_rows(alloc: Global, opening: SortedMap<Row>) -> Result<Items<OpeningRow>, NoMemory>
    ensures { IfOk result (λ rows. rows ≡ opening_rows opening) }
{
    let mut rows = Items::new(alloc);
    for (key, row) in opening {
        let table = number_in(&key);
        rows.push(OpeningRow { table, row })?;
    }
    Ok(rows)
}

/// The number of the table in a record key.
fn number_in(key: &Bytes) -> u8
    ensures { result ≡ number_in key.now }
{
    *key.as_slice().get(1).unwrap_or(&0)
}
