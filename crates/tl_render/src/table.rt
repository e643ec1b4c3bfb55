//! The text of tables.

ghost use Rattle.std.specs.Prelude.{◌≡◌, ◌++◌, [], OnOk, nat_eq};
ghost use Rattle.std.specs.List.{starts_with};
ghost use Rattle.tl_schema.specs.Record.{store_key};
ghost use Rattle.tl_isolation.specs.Tables.{rows_in};
ghost use Rattle.tl_render.specs.Printed.{rows_text, table_text, tables_text};

use crate::value::push_row;
use tl_base::{Bytes, NoMemory};
use tl_map::SortedMap;
use tl_schema::{RECORD, Table};
use tl_values::Row;

/// Writes each table of a catalog with its rows, which stand under their record keys.
pub fn push_tables(
    out: &mut Bytes,
    catalog: &[Table],
    rows: &SortedMap<Row>,
) -> Result<(), NoMemory>
    ensures { OnOk result (out.new ≡ out.old ++ tables_text catalog.now rows.now) }
{
    for (number, table) in catalog.iter().enumerate() {
        push_table(out, number, table, rows)?;
    }
    Ok(())
}

fn push_table(
    out: &mut Bytes,
    number: usize,
    table: &Table,
    rows: &SortedMap<Row>,
) -> Result<(), NoMemory>
    ensures { OnOk result (out.new ≡ out.old ++ table_text rows.now (number, table.now)) }
{
    out.extend_from_slice(b"@table ")?;
    out.extend_from_slice(table.name.as_bytes())?;
    out.push(b'\n')?;
    push_rows_in(out, number, rows)
}

fn push_rows_in(out: &mut Bytes, number: usize, rows: &SortedMap<Row>) -> Result<(), NoMemory>
    ensures { OnOk result (out.new ≡ out.old ++ rows_text (rows_in number rows.now)) }
{
    for (key, row) in rows {
        if is_in(key.as_slice(), number) {
            push_row(out, row)?;
        }
    }
    Ok(())
}

// Whether this is the key of a record of the table of this number.
fn is_in(key: &[u8], number: usize) -> bool
    ensures { result ≡ starts_with nat_eq key.now (store_key number []) }
{
    match key {
        [RECORD, table, ..] => usize::from(*table) == number,
        [] | [_, ..] => false,
    }
}
