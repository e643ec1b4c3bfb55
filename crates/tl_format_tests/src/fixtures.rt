//! What several tests take: a set of transaction numbers, a table, a row.
ghost use Rattle.std.specs.Prelude.{IfOk};
ghost use Rattle.tl_versions.specs.Cell.{IsShortRow};

use std::alloc::Global;
use std::test::Fail;
use tl_base::{Items, Text, Tid};
use tl_descriptor::Descriptor;
use tl_schema::{Column, Index, Table};
use tl_values::{Kind, Row, Value};

/// Tid 0 and these.
pub fn set_of(alloc: Global, tids: &[Tid]) -> Result<Descriptor, Fail> {
    let mut set = Descriptor::new(alloc, 0);
    for tid in tids {
        if *tid < 1 << 62 {
            set.insert(*tid)?;
        }
    }
    Ok(set)
}

/// A row of two numbers.
pub fn point(alloc: Global, x: i64, y: i64) -> Result<Row, Fail>
    ensures { IfOk result (λ row. IsShortRow row) }
{
    let mut row = Row::new(alloc);
    row.push(Value::Int(x))?;
    row.push(Value::Int(y))?;
    Ok(row)
}

/// The table with the columns x and y, the key x and an index on y.
pub fn point_table(alloc: Global) -> Result<Table, Fail> {
    let mut columns = Items::new(alloc);
    columns.push(column(alloc, "x")?)?;
    columns.push(column(alloc, "y")?)?;
    let mut indexes = Items::new(alloc);
    indexes.push(Index {
        name: Text::from_str(alloc, "by_y")?,
        columns: Items::from_slice(alloc, &[1])?,
    })?;
    Ok(Table {
        name: Text::from_str(alloc, "point")?,
        columns,
        key: Items::from_slice(alloc, &[0])?,
        indexes,
    })
}

fn column(alloc: Global, name: &str) -> Result<Column, Fail> {
    Ok(Column {
        name: Text::from_str(alloc, name)?,
        kind: Kind::Int,
        not_null: true,
    })
}
