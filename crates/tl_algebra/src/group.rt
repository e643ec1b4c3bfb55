//! GROUP BY.

ghost use Rattle.std.specs.Prelude.{◌≡◌, [], ◌∷◌, map, position, IfOk, OnOk};
ghost use Rattle.std.specs.Option.{option_copied};
ghost use Rattle.std.specs.Ordering.{is_eq};
ghost use Rattle.tl_values.specs.Value.{value_cmp, values_at};
ghost use Rattle.tl_algebra.specs.Group.{grouped, same_row};
ghost use Rattle.tl_algebra.specs.Row.{or_null};
ghost use Rattle.tl_algebra.specs.Steps.{added};

use crate::row::value_at;
use std::alloc::Global;
use tl_base::{Items, NoMemory};
use tl_values::{Row, Rows, Value, order, values_at};

/// The rows that have these values in the GROUP BY columns.
#[derive(Drop)]
pub struct Group {
    pub values: Row,
    pub rows: Rows,
}

/// The groups of the rows, in order of first appearance. NULL is one group.
pub fn grouped(alloc: Global, places: &Items<u8>, rows: Rows) -> Result<Vec<Group>, NoMemory>
    ensures { IfOk result (λ groups. map (λ group. group.rows) groups.items ≡ grouped places.now rows) }
{
    let mut groups = Vec::new(alloc);
    for row in rows.into_vec() {
        add(alloc, &mut groups, places, row)?;
    }
    Ok(groups)
}

// Adds the row to the group of its values, or a group of its own.
fn add(alloc: Global, groups: &mut Vec<Group>, places: &Items<u8>, row: Row) -> Result<(), NoMemory>
    ensures { OnOk result (groups.new.items ≡ added places.now row groups.old.items) }
{
    match group_of(groups.as_slice(), places, &row) {
        Some(at) => groups[at].rows.push(row)?,
        None => groups.push(new_group(alloc, places, row)?)?,
    }
    Ok(())
}

fn group_of(groups: &[Group], places: &Items<u8>, row: &Row) -> Option<usize>
    ensures { result ≡ position (λ group. same_row group.values (values_at places.now row.now)) groups.now }
{
    groups
        .iter()
        .position(|group| has_values(row, places, &group.values))
}

fn new_group(alloc: Global, places: &Items<u8>, row: Row) -> Result<Group, NoMemory>
    ensures { IfOk result (λ group. group ≡ record { values = values_at places.now row; rows = row ∷ [] }) }
{
    let values = values_at(alloc, &row, places.as_slice())?;
    let mut rows = Rows::new(alloc);
    rows.push(row)?;
    Ok(Group { values, rows })
}

// Whether these are the values of the row at the places.
fn has_values(row: &Row, places: &Items<u8>, values: &Row) -> bool
    ensures { result ≡ same_row values.now (values_at places.now row.now) }
{
    let mut rest = values.as_slice();
    for place in places.as_slice() {
        let Some((value, after)) = rest.split_first() else {
            return false;
        };
        if !is_same(value, value_at(row, *place)) {
            return false;
        }
        rest = after;
    }
    rest.is_empty()
}

fn is_same(a: &Value, b: Option<&Value>) -> bool
    ensures { result ≡ is_eq (value_cmp a.now (or_null (option_copied b.entry))) }
{
    match b {
        Some(b) => order(a, b).is_eq(),
        None => order(a, &Value::Null).is_eq(),
    }
}
