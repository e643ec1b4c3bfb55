use std::alloc::Global;
use std::test::Fail;
use tl_base::{Items, Text};
use tl_schema::{Catalog, Column, Table};
use tl_values::Kind;

/// One table of columns of these kinds, whose key is the first of them.
pub fn catalog_of(alloc: Global, kinds: &[Kind]) -> Result<Catalog, Fail> {
    let mut columns = Items::new(alloc);
    for kind in kinds {
        columns.push(Column {
            name: Text::from_str(alloc, "c")?,
            kind: *kind,
            not_null: true,
        })?;
    }
    let mut tables = Items::new(alloc);
    tables.push(Table {
        name: Text::from_str(alloc, "t")?,
        columns,
        key: Items::from_slice(alloc, &[0])?,
        indexes: Items::new(alloc),
    })?;
    Ok(Catalog { tables })
}
