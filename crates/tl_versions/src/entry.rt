//! The entries of a record's versions in the indexes of its table.

ghost use Rattle.std.specs.Prelude.{◌≡◌, IfOk};
ghost use Rattle.std.specs.List.{list_any};
ghost use Rattle.tl_versions.specs.Bears.{has_entry};

use crate::version::Version;
use tl_base::NoMemory;
use tl_schema::{Index, Table, entry_key};
use tl_values::Row;

/// Whether some version's row has an entry of this key in the index.
pub fn some_has_entry(
    versions: &[Version],
    table: &Table,
    index: &Index,
    key: &[u8],
) -> Result<bool, NoMemory>
    ensures { IfOk result (λ answer. answer ≡ list_any (λ version. has_entry table.now index.now key.now version.row) versions.now) }
{
    for version in versions {
        if has_entry(&version.row, table, index, key)? {
            return Ok(true);
        }
    }
    Ok(false)
}

fn has_entry(row: &Option<Row>, table: &Table, index: &Index, key: &[u8]) -> Result<bool, NoMemory>
    ensures { IfOk result (λ answer. answer ≡ has_entry table.now index.now key.now row.now) }
{
    match row {
        Some(row) => {
            let entry = entry_key(row.allocator(), table, index, row)?;
            Ok(entry.as_slice() == key)
        }
        None => Ok(false),
    }
}
