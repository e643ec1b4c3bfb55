//! ORDER BY and LIMIT.

ghost use Rattle.std.specs.Prelude.{◌≡◌, map, IfOk};
ghost use Rattle.std.specs.List.Sorted.{IsPermutation, IsSorted};
ghost use Rattle.tl_values.specs.Value.{row_cmp, value_at, value_cmp};
ghost use Rattle.tl_algebra.specs.Select.{Prints};
ghost use Rattle.tl_algebra.specs.Sorting.{limited, line_cmp, turned};

use crate::line::Line;
use crate::query::{Query, Sort};
use std::alloc::Global;
use std::cmp::Ordering;
use tl_base::{Items, NoMemory};
use tl_values::{Row, Rows, Value, order};

/// The rows that are printed of these lines: sorted, and then the first of them.
pub fn print_lines(alloc: Global, query: &Query, lines: Vec<Line>) -> Result<Rows, NoMemory>
    ensures { IfOk result (λ rows. Prints query.now lines.items rows) }
{
    let ranked = ranked(&query.sort, lines)?;
    let rows = shown(alloc, query.limit, ranked)?;
    Ok(rows)
}

// The lines in the order of the ORDER BY items, and then of their printed columns from the left.
fn ranked(sorts: &Items<Sort>, lines: Vec<Line>) -> Result<Vec<Line>, NoMemory>
    ensures permutation { IfOk result (λ ranked. IsPermutation lines.items ranked.items) }
    ensures sorted { IfOk result (λ ranked. IsSorted (line_cmp sorts.now) ranked.items) }
{
    let mut lines = lines;
    lines.sort_by(|a, b| line_order(sorts, a, b))?;
    Ok(lines)
}

fn line_order(sorts: &Items<Sort>, a: &Line, b: &Line) -> Ordering
    ensures { result ≡ line_cmp sorts.now a.now b.now }
{
    for (at, sort) in sorts.as_slice().iter().enumerate() {
        let by = turned(sort.descending, order_at(at, &a.keys, &b.keys));
        if by.is_ne() {
            return by;
        }
    }
    row_order(&a.printed, &b.printed)
}

fn order_at(at: usize, a: &Row, b: &Row) -> Ordering
    ensures { result ≡ value_cmp (value_at a.now at) (value_at b.now at) }
{
    let null = Value::Null;
    order(
        a.as_slice().get(at).unwrap_or(&null),
        b.as_slice().get(at).unwrap_or(&null),
    )
}

// DESC turns an order round.
fn turned(descending: bool, order: Ordering) -> Ordering
    ensures { result ≡ turned descending order }
{
    if descending { order.reverse() } else { order }
}

fn row_order(a: &Row, b: &Row) -> Ordering
    ensures { result ≡ row_cmp a.now b.now }
{
    let mut rest = b.as_slice();
    for x in a.as_slice() {
        let Some((y, after)) = rest.split_first() else {
            return Ordering::Greater;
        };
        let by = order(x, y);
        if by.is_ne() {
            return by;
        }
        rest = after;
    }
    if rest.is_empty() {
        Ordering::Equal
    } else {
        Ordering::Less
    }
}

// The first printed rows, as many as LIMIT says.
fn shown(alloc: Global, limit: Option<u64>, lines: Vec<Line>) -> Result<Rows, NoMemory>
    ensures { IfOk result (λ rows. rows ≡ limited limit (map (λ line. line.printed) lines.items)) }
{
    let mut rows = Rows::new(alloc);
    for line in lines {
        let Line { keys: _, printed } = line;
        rows.push(printed)?;
    }
    if let Some(limit) = limit {
        rows.truncate(limit as usize);
    }
    Ok(rows)
}
