//! What is printed of a group of rows.

ghost use Rattle.std.specs.Prelude.{◌≡◌, ◌<◌, ◌^◌, [], ◌∷◌, map, pos, IfOk};
ghost use Rattle.std.specs.List.{list_any};
ghost use Rattle.tl_algebra.specs.declared.query.Sort.{Sort};
ghost use Rattle.tl_algebra.specs.Group.{grouped, is_aggregate};
ghost use Rattle.tl_algebra.specs.Select.{GivesAll, each, first_of, item, line_of, lines_of};
ghost use Rattle.tl_algebra.specs.Sorting.{key_of};
ghost use Rattle.tl_algebra.specs.Value.{Gives};

use crate::aggregate;
use crate::fault::ValueFault;
use crate::group::grouped;
use crate::query::{Output, Query, Sort, SortBy};
use crate::value::value_of;
use std::alloc::Global;
use std::slice;
use tl_base::{Duplicate, Items, NoMemory};
use tl_values::{Row, Rows, Value, copy_at};

/// A printed row, and the values of the ORDER BY items.
#[derive(Drop)]
pub struct Line {
    pub keys: Row,
    pub printed: Row,
}

/// The line of each group of the rows.
#[tactic(auto, using(crate::proofs::Groups::by_places), unfolding(crate::specs::Select::lines_of))]
pub fn lines_of(alloc: Global, query: &Query, rows: Rows) -> Result<Vec<Line>, ValueFault>
    ensures { GivesAll result (lines_of query.now rows) }
{
    if !query.group.is_empty() {
        return lines_of_groups(alloc, query, rows);
    }
    if has_aggregate(&query.outputs) {
        return line_of_all(alloc, query, &rows);
    }
    lines_of_rows(alloc, query, &rows)
}

fn has_aggregate(outputs: &Items<Output>) -> bool
    ensures { result ≡ list_any is_aggregate outputs.now }
{
    outputs.as_slice().iter().any(is_aggregate)
}

fn is_aggregate(output: &Output) -> bool
    ensures { result ≡ is_aggregate output.now }
{
    !matches!(output, Output::Expression(_))
}

#[tactic(auto, using(crate::proofs::Each::following_one, crate::proofs::Each::following_none, crate::proofs::Each::following_fault))]
fn lines_of_groups(alloc: Global, query: &Query, rows: Rows) -> Result<Vec<Line>, ValueFault>
    ensures { GivesAll result (each (line_of query.now) (grouped query.now.group rows)) }
{
    let groups = grouped(alloc, &query.group, rows)?;
    let mut lines = Vec::new(alloc);
    for group in groups.as_slice() {
        lines.push(line_of(alloc, query, group.rows.as_slice())?)?;
    }
    Ok(lines)
}

fn line_of_all(alloc: Global, query: &Query, rows: &Rows) -> Result<Vec<Line>, ValueFault>
    ensures { GivesAll result (each (line_of query.now) (rows.now ∷ [])) }
{
    let mut lines = Vec::new(alloc);
    lines.push(line_of(alloc, query, rows.as_slice())?)?;
    Ok(lines)
}

#[tactic(auto, using(crate::proofs::Each::following_one, crate::proofs::Each::following_none, crate::proofs::Each::following_fault))]
fn lines_of_rows(alloc: Global, query: &Query, rows: &Rows) -> Result<Vec<Line>, ValueFault>
    ensures { GivesAll result (each (line_of query.now) (map (λ row. row ∷ []) rows.now)) }
{
    let mut lines = Vec::new(alloc);
    for row in rows.as_slice() {
        lines.push(line_of(alloc, query, slice::from_ref(row))?)?;
    }
    Ok(lines)
}

/// The line of a group of rows.
pub fn line_of(alloc: Global, query: &Query, rows: &[Row]) -> Result<Line, ValueFault>
    ensures { Gives result (line_of query.now rows.now) }
{
    let none = Row::new(alloc);
    let first = first_of(rows, &none);
    let printed = printed(alloc, &query.outputs, rows, first)?;
    let keys = keys_of(alloc, &query.sort, first, &printed)?;
    Ok(Line { keys, printed })
}

// The group's first row, and an empty one where it has no rows.
fn first_of<'a>(rows: &'a [Row], none: &'a Row) -> &'a Row
    requires { none.now ≡ [] }
    ensures { result.now ≡ first_of rows.now }
{
    match rows.first() {
        Some(first) => first,
        None => none,
    }
}

#[tactic(auto, using(crate::proofs::Each::following_one, crate::proofs::Each::following_none, crate::proofs::Each::following_fault))]
fn printed(
    alloc: Global,
    outputs: &Items<Output>,
    rows: &[Row],
    first: &Row,
) -> Result<Row, ValueFault>
    requires { first.now ≡ first_of rows.now }
    ensures { Gives result (each (item rows.now) outputs.now) }
{
    let mut printed = Row::new(alloc);
    for output in outputs.as_slice() {
        printed.push(item(output, rows, first)?)?;
    }
    Ok(printed)
}

fn item(output: &Output, rows: &[Row], first: &Row) -> Result<Value, ValueFault>
    requires { first.now ≡ first_of rows.now }
    ensures { Gives result (item rows.now output.now) }
{
    match output {
        Output::Expression(expression) => value_of(expression, first),
        Output::CountRows => Ok(number(rows.len())),
        Output::Count(place) => Ok(number(aggregate::count(rows, *place))),
        Output::Sum(place) => aggregate::sum(rows, *place),
        Output::Least(place) => Ok(aggregate::least(rows, *place)?),
        Output::Greatest(place) => Ok(aggregate::greatest(rows, *place)?),
    }
}

fn number(count: usize) -> Value
    requires { count < 2 ^ 63 }
    ensures { result ≡ Value.Int (pos count) }
{
    Value::Int(count as i64)
}

// The values of the ORDER BY items.
fn keys_of(alloc: Global, sorts: &Items<Sort>, first: &Row, printed: &Row) -> Result<Row, NoMemory>
    ensures { IfOk result (λ keys. keys ≡ map (λ (sort : Sort). key_of first.now printed.now sort.by) sorts.now) }
{
    let mut keys = Row::new(alloc);
    for sort in sorts.as_slice() {
        keys.push(key_of(sort.by, first, printed)?)?;
    }
    Ok(keys)
}

fn key_of(by: SortBy, first: &Row, printed: &Row) -> Result<Value, NoMemory>
    ensures { IfOk result (λ key. key ≡ key_of first.now printed.now by) }
{
    match by {
        SortBy::Place(place) => copy_at(first, place),
        SortBy::Printed(column) => printed
            .as_slice()
            .get(column as usize)
            .unwrap_or(&Value::Null)
            .copy(),
    }
}
