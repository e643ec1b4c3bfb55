ghost use Rattle.tl_algebra.specs.Select.{Tells};

use crate::fault::ValueFault;
use crate::line::lines_of;
use crate::product::selected;
use crate::query::Query;
use crate::rank::print_lines;
use std::alloc::Global;
use tl_values::Rows;

/// The rows that the query prints, where `tables` has one list of rows for each FROM item, in the order of the items.
/// `Overflow` comes exactly where a step of arithmetic or a sum of some line lies outside 64 bits, whatever LIMIT says.
pub fn rows_of(alloc: Global, query: &Query, tables: &[Rows]) -> Result<Rows, ValueFault>
    ensures { Tells query.now tables.now result }
{
    let rows = selected(alloc, query, tables)?;
    let lines = lines_of(alloc, query, rows)?;
    let printed = print_lines(alloc, query, lines)?;
    Ok(printed)
}
