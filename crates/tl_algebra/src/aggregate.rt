//! COUNT, SUM, MIN and MAX. All of them skip NULL.

ghost use Rattle.std.specs.Prelude.{◌≡◌, ◌≢◌, ◌≤◌, ◌↔◌, [], length, not, IsTrue, IfOk};
ghost use Rattle.std.specs.Option.{option_copied};
ghost use Rattle.tl_values.specs.Value.{is_null, value_at};
ghost use Rattle.tl_algebra.specs.Aggregate.{greater_value, greatest_of, known_at, least_of, lesser_value, number_of, numbers, sum_of, total};
ghost use Rattle.tl_algebra.specs.Row.{or_null};
ghost use Rattle.tl_algebra.specs.Steps.{known_by, number_or_zero, one_by};
ghost use Rattle.tl_algebra.specs.Value.{Gives, checked};

use crate::fault::ValueFault;
use crate::row::value_at;
use tl_base::{Duplicate, NoMemory};
use tl_values::{Row, Value, order};

/// How many rows have a value that isn't NULL at the place.
#[tactic(auto, using(crate::proofs::Aggregates::counted))]
pub fn count(rows: &[Row], place: u8) -> usize
    ensures count { result ≡ length (known_at place rows.now) }
    ensures within { result ≤ length rows.now }
{
    rows.iter().filter(|row| is_known(row, place)).count()
}

// Whether there is a value that isn't NULL at the place.
fn is_known(row: &Row, place: u8) -> bool
    ensures { result ≡ not (is_null (value_at row.now place)) }
{
    match value_at(row, place) {
        Some(value) => !matches!(value, Value::Null),
        None => false,
    }
}

/// The sum of the numbers at the place, and NULL where there are none. `Overflow` comes exactly where the whole sum
/// lies outside 64 bits.
pub fn sum(rows: &[Row], place: u8) -> Result<Value, ValueFault>
    ensures { Gives result (sum_of (numbers (known_at place rows.now))) }
{
    if has_number(rows, place) {
        number(total(rows, place))
    } else {
        Ok(Value::Null)
    }
}

fn number(sum: i128) -> Result<Value, ValueFault>
    ensures { Gives result (checked sum) }
{
    match i64::try_from(sum) {
        Ok(number) => Ok(Value::Int(number)),
        Err(_) => Err(ValueFault::Overflow),
    }
}

fn has_number(rows: &[Row], place: u8) -> bool
    ensures { IsTrue result ↔ (numbers (known_at place rows.now) ≢ []) }
{
    for row in rows {
        if number_at(row, place).is_some() {
            return true;
        }
    }
    false
}

// The sum of the numbers at the place. Each is below 2^63, and so are their count and that of the rows.
fn total(rows: &[Row], place: u8) -> i128
    ensures { result ≡ total (numbers (known_at place rows.now)) }
{
    let mut sum = 0;
    for row in rows {
        sum += i128::from(number_or_zero(row, place));
    }
    sum
}

fn number_or_zero(row: &Row, place: u8) -> i64
    ensures { result ≡ number_or_zero (value_at row.now place) }
{
    number_at(row, place).unwrap_or(0)
}

fn number_at(row: &Row, place: u8) -> Option<i64>
    ensures { result ≡ number_of (value_at row.now place) }
{
    match value_at(row, place) {
        Some(Value::Int(number)) => Some(*number),
        _ => None,
    }
}

/// The least value at the place that isn't NULL, and NULL where there is none.
pub fn least(rows: &[Row], place: u8) -> Result<Value, NoMemory>
    ensures { IfOk result (λ value. value ≡ least_of (known_at place rows.now)) }
{
    let mut least = None;
    for row in rows {
        least = lesser(least, value_at(row, place));
    }
    copy_or_null(least)
}

/// The greatest value at the place, and NULL where there is none but NULL.
pub fn greatest(rows: &[Row], place: u8) -> Result<Value, NoMemory>
    ensures { IfOk result (λ value. value ≡ greatest_of (known_at place rows.now)) }
{
    let mut greatest = None;
    for row in rows {
        greatest = greater(greatest, value_at(row, place));
    }
    copy_or_null(greatest)
}

fn copy_or_null(value: Option<&Value>) -> Result<Value, NoMemory>
    ensures { IfOk result (λ copy. copy ≡ or_null (option_copied value.entry)) }
{
    match value {
        Some(value) => value.copy(),
        None => Ok(Value::Null),
    }
}

// The lesser of two values, where NULL counts as none.
fn lesser<'a>(a: Option<&'a Value>, b: Option<&'a Value>) -> Option<&'a Value>
    ensures { option_copied result ≡ known_by lesser_value (option_copied a.entry) (or_null (option_copied b.entry)) }
{
    match b {
        None | Some(Value::Null) => a,
        Some(y) => Some(lesser_of(a, y)),
    }
}

fn lesser_of<'a>(a: Option<&'a Value>, b: &'a Value) -> &'a Value
    ensures { result.now ≡ one_by lesser_value (option_copied a.entry) b.now }
{
    match a {
        Some(a) if order(a, b).is_le() => a,
        _ => b,
    }
}

// The greater of two values, where NULL counts as none.
fn greater<'a>(a: Option<&'a Value>, b: Option<&'a Value>) -> Option<&'a Value>
    ensures { option_copied result ≡ known_by greater_value (option_copied a.entry) (or_null (option_copied b.entry)) }
{
    match b {
        None | Some(Value::Null) => a,
        Some(y) => Some(greater_of(a, y)),
    }
}

fn greater_of<'a>(a: Option<&'a Value>, b: &'a Value) -> &'a Value
    ensures { result.now ≡ one_by greater_value (option_copied a.entry) b.now }
{
    match a {
        Some(a) if order(a, b).is_ge() => a,
        _ => b,
    }
}
