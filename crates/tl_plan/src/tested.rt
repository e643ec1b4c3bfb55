//! The tests of a column in the outermost AND of WHERE.

ghost use Rattle.std.specs.Prelude.{◌≡◌, ◌+◌, ◌==◌};
ghost use Rattle.std.specs.Option.{option_copied, option_map};
ghost use Rattle.tl_values.specs.Value.{is_null};
ghost use Rattle.tl_plan.specs.Access.{bounds, is_equality, parts_of, test_of, test_where, turned_round};
ghost use Rattle.tl_plan.specs.Steps.{equality, seen};

use std::slice;
use tl_algebra::{Condition, Side};
use tl_values::{Comparison, Value};

/// A test of a column against a literal that isn't NULL, with the column on the left.
#[derive(Clone, Copy)]
pub struct Tested<'a> {
    pub by: Comparison,
    pub value: &'a Value,
}

/// The parts of the outermost AND.
pub fn parts_of(filter: &Option<Condition>) -> &[Condition]
    ensures { result.now ≡ parts_of filter.now }
{
    match filter {
        None => &[],
        Some(Condition::And(parts)) => parts.as_slice(),
        Some(whole) => slice::from_ref(whole),
    }
}

/// The part's test of this column of the table whose columns stand from the offset on, where it is one.
pub fn test_of(part: &Condition, offset: usize, column: u8) -> Option<Tested<'_>>
    ensures { option_map seen result ≡ test_of (offset + column) part.now }
{
    match part {
        Condition::Test {
            left: Side::Place(at),
            by,
            right: Side::Literal(value),
        } => test_where(is_at(*at, offset, column), *by, value),
        Condition::Test {
            left: Side::Literal(value),
            by,
            right: Side::Place(at),
        } => test_where(is_at(*at, offset, column), turned_round(*by), value),
        _ => None,
    }
}

/// The value that the part tests this column to equal.
pub fn equality_of(part: &Condition, offset: usize, column: u8) -> Option<&Value>
    ensures { option_copied result ≡ equality (test_of (offset + column) part.now) }
{
    match test_of(part, offset, column) {
        Some(test) if is_equality(test.by) => Some(test.value),
        _ => None,
    }
}

fn test_where(here: bool, by: Comparison, value: &Value) -> Option<Tested<'_>>
    ensures { option_map seen result ≡ test_where here by value.now }
{
    if here && bounds(by) && !is_null(value) {
        Some(Tested { by, value })
    } else {
        None
    }
}

// Whether a place of the row is that of the column.
fn is_at(at: u8, offset: usize, column: u8) -> bool
    ensures { result ≡ (at == offset + column) }
{
    match usize::from(at).checked_sub(offset) {
        Some(place) => place == usize::from(column),
        None => false,
    }
}

fn is_null(value: &Value) -> bool
    ensures { result ≡ is_null value.now }
{
    matches!(value, Value::Null)
}

// The comparison with its sides changed.
fn turned_round(by: Comparison) -> Comparison
    ensures { result ≡ turned_round by }
{
    match by {
        Comparison::Equal => Comparison::Equal,
        Comparison::NotEqual => Comparison::NotEqual,
        Comparison::Less => Comparison::Greater,
        Comparison::LessEqual => Comparison::GreaterEqual,
        Comparison::Greater => Comparison::Less,
        Comparison::GreaterEqual => Comparison::LessEqual,
    }
}

// All comparisons but <> bound a column.
fn bounds(by: Comparison) -> bool
    ensures { result ≡ bounds by }
{
    !matches!(by, Comparison::NotEqual)
}

fn is_equality(by: Comparison) -> bool
    ensures { result ≡ is_equality by }
{
    matches!(by, Comparison::Equal)
}
