//! The row that an UPDATE makes of an old one, and whether its table takes a row.

ghost use Rattle.std.specs.Prelude.{◌≡◌, slice_set};
ghost use Rattle.tl_algebra.specs.Value.{Gives};
ghost use Rattle.tl_write.specs.Change.{row_offence, set_columns};
ghost use Rattle.tl_write.specs.Fault.{Finds};

use crate::fault::ChangeFault;
use std::alloc::Global;
use tl_algebra::{SetColumn, ValueFault, value_of};
use tl_base::Duplicate;
use tl_schema::{Table, breaks_not_null, is_long};
use tl_values::{Row, Value};

/// The row after the SETs, each of which reads the old row. `Overflow` comes exactly where one overflows.
pub fn set_columns(sets: &[SetColumn], old: &Row) -> Result<Row, ValueFault>
    ensures { Gives result (set_columns sets.now old.now old.now) }
{
    let mut row = old.copy()?;
    for set in sets {
        let value = value_of(&set.value, old)?;
        put_value(&mut row, set.column, value);
    }
    Ok(row)
}

/// A value outside the row is dropped.
fn put_value(row: &mut Row, column: u8, value: Value)
    ensures { row.new ≡ slice_set row.old column value }
{
    let at = usize::from(column);
    if at < row.len() {
        row.set(at, value);
    }
}

/// `Null` and `Long` come exactly where the table refuses the row for them.
pub fn check_row(alloc: Global, table: &Table, row: &Row) -> Result<(), ChangeFault>
    ensures { Finds result (row_offence table.now row.now) }
{
    if breaks_not_null(table.columns.as_slice(), row) {
        return Err(ChangeFault::Null);
    }
    if is_long(alloc, table, row)? {
        return Err(ChangeFault::Long);
    }
    Ok(())
}
