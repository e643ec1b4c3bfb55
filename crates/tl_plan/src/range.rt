//! The keys that the tests of a column leave.

ghost use Rattle.std.specs.Prelude.{◌≡◌, ◌+◌, ◌++◌, [], ◌∷◌, IfOk, filter_map};
ghost use Rattle.std.specs.Option.{option_copied};
ghost use Rattle.tl_values.specs.Key.{value_key};
ghost use Rattle.tl_plan.specs.Access.{equal_to, greater_of, high_bound, high_of, is_below, lesser_of, low_bound, low_of, test_of};
ghost use Rattle.tl_plan.specs.Steps.{are_some, lowered, raised, seen};

use crate::tested::{Tested, equality_of, test_of};
use std::alloc::Global;
use std::slice;
use tl_algebra::Condition;
use tl_base::{Bytes, NoMemory};
use tl_values::{Comparison, Value, encode_key};

/// Below the key bytes of every value but NULL.
const LEAST: u8 = 1;

/// Above the key bytes of every value.
const GREATEST: u8 = 4;

/// Behind the key bytes of a value: above all that begin with them, and below those of greater values.
const BEHIND: u8 = 255;

/// The value of the first part that tests the column for equality.
pub fn equal_to(parts: &[Condition], offset: usize, column: u8) -> Option<&Value>
    ensures { option_copied result ≡ equal_to (filter_map (test_of (offset + column)) parts.now) }
{
    for part in parts {
        if let Some(value) = equality_of(part, offset, column) {
            return Some(value);
        }
    }
    None
}

/// Whether a part tests the column.
pub fn is_tested(parts: &[Condition], offset: usize, column: u8) -> bool
    ensures { result ≡ are_some (filter_map (test_of (offset + column)) parts.now) }
{
    for part in parts {
        if test_of(part, offset, column).is_some() {
            return true;
        }
    }
    false
}

/// The greatest low of the column's tests: its value's key bytes are at least these.
pub fn low_bound(
    alloc: Global,
    parts: &[Condition],
    offset: usize,
    column: u8,
) -> Result<Bytes, NoMemory>
    ensures { IfOk result (λ low. low ≡ low_bound (filter_map (test_of (offset + column)) parts.now)) }
{
    let mut low = Bytes::from_slice(alloc, &[LEAST])?;
    for part in parts {
        low = raised(alloc, low, part, offset, column)?;
    }
    Ok(low)
}

/// The least high of the column's tests: its value's key bytes are below these.
pub fn high_bound(
    alloc: Global,
    parts: &[Condition],
    offset: usize,
    column: u8,
) -> Result<Bytes, NoMemory>
    ensures { IfOk result (λ high. high ≡ high_bound (filter_map (test_of (offset + column)) parts.now)) }
{
    let mut high = Bytes::from_slice(alloc, &[GREATEST])?;
    for part in parts {
        high = lowered(alloc, high, part, offset, column)?;
    }
    Ok(high)
}

// The low bound with one part more.
fn raised(
    alloc: Global,
    low: Bytes,
    part: &Condition,
    offset: usize,
    column: u8,
) -> Result<Bytes, NoMemory>
    ensures { IfOk result (λ more. more ≡ raised low (test_of (offset + column) part.now)) }
{
    match test_of(part, offset, column) {
        Some(test) => Ok(greater_of(low, low_of(alloc, test)?)),
        None => Ok(low),
    }
}

// The high bound with one part more.
fn lowered(
    alloc: Global,
    high: Bytes,
    part: &Condition,
    offset: usize,
    column: u8,
) -> Result<Bytes, NoMemory>
    ensures { IfOk result (λ more. more ≡ lowered high (test_of (offset + column) part.now)) }
{
    match test_of(part, offset, column) {
        Some(test) => Ok(lesser_of(high, high_of(alloc, test)?)),
        None => Ok(high),
    }
}

// The key bytes from which on the column's value may stand by this test.
fn low_of(alloc: Global, test: Tested<'_>) -> Result<Bytes, NoMemory>
    ensures { IfOk result (λ low. low ≡ low_of (seen test.entry)) }
{
    match test.by {
        Comparison::Equal | Comparison::GreaterEqual => value_key(alloc, test.value),
        Comparison::Greater => behind(alloc, test.value),
        Comparison::NotEqual | Comparison::Less | Comparison::LessEqual => {
            Bytes::from_slice(alloc, &[LEAST])
        }
    }
}

// The key bytes below which the column's value may stand by this test.
fn high_of(alloc: Global, test: Tested<'_>) -> Result<Bytes, NoMemory>
    ensures { IfOk result (λ high. high ≡ high_of (seen test.entry)) }
{
    match test.by {
        Comparison::Equal | Comparison::LessEqual => behind(alloc, test.value),
        Comparison::Less => value_key(alloc, test.value),
        Comparison::NotEqual | Comparison::Greater | Comparison::GreaterEqual => {
            Bytes::from_slice(alloc, &[GREATEST])
        }
    }
}

fn value_key(alloc: Global, value: &Value) -> Result<Bytes, NoMemory>
    ensures { IfOk result (λ key. key ≡ value_key value.now) }
{
    encode_key(alloc, slice::from_ref(value))
}

fn behind(alloc: Global, value: &Value) -> Result<Bytes, NoMemory>
    ensures { IfOk result (λ key. key ≡ value_key value.now ++ 255 ∷ []) }
{
    let mut key = value_key(alloc, value)?;
    key.push(BEHIND)?;
    Ok(key)
}

fn greater_of(a: Bytes, b: Bytes) -> Bytes
    ensures { result ≡ greater_of a b }
{
    if is_below(&a, &b) { b } else { a }
}

fn lesser_of(a: Bytes, b: Bytes) -> Bytes
    ensures { result ≡ lesser_of a b }
{
    if is_below(&b, &a) { b } else { a }
}

fn is_below(a: &Bytes, b: &Bytes) -> bool
    ensures { result ≡ is_below a.now b.now }
{
    a.cmp(b).is_lt()
}
