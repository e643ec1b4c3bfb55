ghost use Rattle.std.specs.Prelude.{◌≡◌, ℕ, Bool, IsTrue, IfOk, List, map};
ghost use Rattle.std.specs.FinMap as finmap;
ghost use Rattle.tl_write.specs.Change.{change_of, deeds, judged, nothing, number_of};
ghost use Rattle.tl_write.specs.Fault.{Tells};
ghost use Rattle.tl_write.specs.Own.{is_rising};
ghost use Rattle.tl_write.specs.Progress.{Meets};
ghost use Rattle.tl_write.specs.Tables.{tables_of};

use crate::buffer::Buffer;
use crate::fault::ChangeFault;
use crate::judge::{Progress, add, remove, replace};
use crate::places::places;
use crate::write::Effect;
use std::alloc::Global;
use tl_algebra::{Condition, Edit, SetColumn, lets_through};
use tl_schema::Table;
use tl_values::{Row, Rows};

/// What the edit of this table does to the rows of the view, which are as many of its rows as the statement looks at,
/// where the buffer has the own writes of before. Nothing is kept. The first offending row decides:
///
/// - `Overflow`: a SET of it lies outside 64 bits.
/// - `Null`: it has a NULL in a column that refuses it.
/// - `Long`: it, its key or an index key is above its limit.
/// - `Duplicate`: INSERT alone: the view has its key, or an earlier row of the statement.
/// - `Many`: its record would be one more than a transaction may write.
pub fn change(
    alloc: Global,
    edit: &Edit,
    table: &Table,
    view: &Rows,
    buffer: &Buffer,
) -> Result<Effect, ChangeFault>
    ensures told { Tells result (change_of edit.now table.now (tables_of (number_of edit.now) table.now view.now) buffer.now) }
    ensures rising { IfOk result (λ effect. IsTrue (is_rising effect.writes)) }
{
    let view = view.as_slice();
    let progress = match edit {
        Edit::Insert {
            table: number,
            rows,
        } => insert(alloc, *number, table, rows.as_slice(), view, buffer)?,
        Edit::Update {
            table: number,
            sets,
            filter,
        } => update(alloc, *number, table, sets.as_slice(), filter, view, buffer)?,
        Edit::Delete {
            table: number,
            filter,
        } => delete(alloc, *number, table, filter, view, buffer)?,
    };
    Ok(progress.into_effect())
}

fn insert(
    alloc: Global,
    number: u8,
    table: &Table,
    rows: &[Row],
    view: &[Row],
    own: &Buffer,
) -> Result<Progress, ChangeFault>
    ensures { Meets own.now result (change_of (Edit.Insert number rows.now) table.now (tables_of number table.now view.now) own.now) }
{
    let places = places(alloc, number, table, view)?;
    let mut progress = Progress::new(alloc);
    for row in rows {
        progress = add(alloc, number, table, row, &places, own, progress)?;
    }
    Ok(progress)
}

fn update(
    alloc: Global,
    number: u8,
    table: &Table,
    sets: &[SetColumn],
    filter: &Option<Condition>,
    view: &[Row],
    own: &Buffer,
) -> Result<Progress, ChangeFault>
    ensures { Meets own.now result (change_of (Edit.Update number sets.now filter.now) table.now (tables_of number table.now view.now) own.now) }
{
    let mut progress = Progress::new(alloc);
    for (key, at) in places(alloc, number, table, view)? {
        let old = &view[at];
        if lets_through(filter, old) {
            progress = replace(alloc, key, table, sets, old, own, progress)?;
        }
    }
    Ok(progress)
}

fn delete(
    alloc: Global,
    number: u8,
    table: &Table,
    filter: &Option<Condition>,
    view: &[Row],
    own: &Buffer,
) -> Result<Progress, ChangeFault>
    ensures { Meets own.now result (change_of (Edit.Delete number filter.now) table.now (tables_of number table.now view.now) own.now) }
{
    let mut progress = Progress::new(alloc);
    for (key, at) in places(alloc, number, table, view)? {
        if lets_through(filter, &view[at]) {
            progress = remove(key, own, progress)?;
        }
    }
    Ok(progress)
}
