//! INSERT into the rows that a database opens with.

ghost use Rattle.std.specs.Prelude.{◌≡◌, [], IfOk, OnOk};
ghost use Rattle.tl_algebra.specs.declared.edit.Edit.TheVariants.{Insert};
ghost use Rattle.tl_write.specs.Change.{change_of};
ghost use Rattle.tl_write.specs.Fault.{Tells};
ghost use Rattle.tl_write.specs.Tables.{laid_over, laid_write, tables_of};
ghost use Rattle.tl_opening.specs.Insert.{Inserts, StandUnderKeys, found_under};

use std::alloc::Global;
use tl_algebra::Edit;
use tl_base::{Duplicate, NoMemory};
use tl_map::SortedMap;
use tl_schema::{Table, record_key};
use tl_values::{Row, Rows};
use tl_write::{Buffer, ChangeFault, Effect, Write, Writes, change};

/// INSERT of these rows into the table of this number. Only the rows under their own record keys are looked at. A refused
/// INSERT leaves the opening rows as they were; without memory some of the new rows may stand among them.
pub fn insert(
    alloc: Global,
    number: u8,
    table: &Table,
    rows: Rows,
    opening: &mut SortedMap<Row>,
) -> Result<(), ChangeFault>
    requires { StandUnderKeys number table.now opening.old }
    ensures { Inserts result (change_of (Insert number rows) table.now opening.old []) opening.old opening.new }
{
    let view = found_under(alloc, number, table, rows.as_slice(), opening)?;
    let effect = effect_on(alloc, number, table, rows, &view)?;
    lay_over(opening, effect.writes)?;
    Ok(())
}

/// What INSERT of these rows does to the rows of the view.
fn effect_on(
    alloc: Global,
    number: u8,
    table: &Table,
    rows: Rows,
    view: &Rows,
) -> Result<Effect, ChangeFault>
    ensures { Tells result (change_of (Insert number rows) table.now (tables_of number table.now view.now) []) }
{
    let edit = Edit::Insert {
        table: number,
        rows,
    };
    change(alloc, &edit, table, view, &Buffer::new(alloc))
}

/// The opening rows that stand under the record keys of these rows.
fn found_under(
    alloc: Global,
    number: u8,
    table: &Table,
    rows: &[Row],
    opening: &SortedMap<Row>,
) -> Result<Rows, NoMemory>
    ensures { IfOk result (λ found. found ≡ found_under number table.now opening.now rows.now) }
{
    let mut found = Rows::new(alloc);
    for row in rows {
        if let Some(standing) = opening.get(&record_key(alloc, number, table, row)?) {
            found.push(standing.copy()?)?;
        }
    }
    Ok(found)
}

/// Lays the writes over the opening rows, the first one first.
fn lay_over(opening: &mut SortedMap<Row>, writes: Writes) -> Result<(), NoMemory>
    ensures { OnOk result (opening.new ≡ laid_over opening.old writes) }
{
    for write in writes.into_vec() {
        lay_write(opening, write)?;
    }
    Ok(())
}

fn lay_write(opening: &mut SortedMap<Row>, write: Write) -> Result<(), NoMemory>
    ensures { OnOk result (opening.new ≡ laid_write opening.old write) }
{
    let Write { key, row } = write;
    match row {
        Some(row) => {
            opening.insert(key, row)?;
        }
        None => {
            opening.remove(&key);
        }
    }
    Ok(())
}
