ghost use Rattle.std.specs.Prelude.{◌≡◌};
ghost use Rattle.tl_isolation.specs.Tables.{HasTable, table_of};

use tl_schema::{Catalog, Table};

/// The table of this number.
pub fn table_of(catalog: &Catalog, number: u8) -> &Table
    requires { HasTable catalog.now number }
    ensures { result.now ≡ table_of catalog.now number }
{
    &catalog.tables.as_slice()[usize::from(number)]
}
