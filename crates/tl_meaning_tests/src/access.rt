ghost use Rattle.std.specs.Prelude.{◌≡◌, IfOk, length};

use crate::fixtures::{column, test};
use std::alloc::Global;
use std::test::Fail;
use tl_algebra::{Condition, Side};
use tl_base::{Items, NoMemory, Text};
use tl_plan::{access_of, accesses_of, accesses_suffice};
use tl_schema::{Access, Table};
use tl_values::{Comparison, Value};

// The key bytes of 1, of 2 and of both.
pub static ONE: [u8; 9] = [2, 0x80, 0, 0, 0, 0, 0, 0, 1];

static TWO: [u8; 9] = [2, 0x80, 0, 0, 0, 0, 0, 0, 2];

pub static ONE_TWO: [u8; 18] = [2, 0x80, 0, 0, 0, 0, 0, 0, 1, 2, 0x80, 0, 0, 0, 0, 0, 0, 2];

static BEHIND_ONE: [u8; 10] = [2, 0x80, 0, 0, 0, 0, 0, 0, 1, 0xff];

static BEHIND_TWO: [u8; 10] = [2, 0x80, 0, 0, 0, 0, 0, 0, 2, 0xff];

// A table of two numbers, with these columns as its primary key.
pub fn pair(alloc: Global, key: &[u8]) -> Result<Table, NoMemory>
    ensures { IfOk result (λ table. length table.columns ≡ 2) }
{
    let mut columns = Items::new(alloc);
    columns.push(column(alloc, "a")?)?;
    columns.push(column(alloc, "b")?)?;
    Ok(Table {
        name: Text::from_str(alloc, "pair")?,
        columns,
        key: Items::from_slice(alloc, key)?,
        indexes: Items::new(alloc),
    })
}

// All of these tests.
pub fn all(alloc: Global, tests: &[(u8, Comparison, i64)]) -> Result<Option<Condition>, NoMemory> {
    let mut parts = Items::new(alloc);
    for (place, by, number) in tests {
        parts.push(test(*place, *by, *number))?;
    }
    Ok(Some(Condition::And(parts)))
}

fn is_point(access: &Access, bytes: &[u8]) -> bool {
    match access {
        Access::Point { key } => key.as_slice() == bytes,
        _ => false,
    }
}

fn is_range(access: &Access, least: &[u8], end: &[u8]) -> bool {
    match access {
        Access::KeyRange { low, high } => low.as_slice() == least && high.as_slice() == end,
        _ => false,
    }
}

// What is read of a pair with this key under these tests.
fn access(alloc: Global, key: &[u8], tests: &[(u8, Comparison, i64)]) -> Result<Access, NoMemory> {
    access_of(alloc, &pair(alloc, key)?, 0, &all(alloc, tests)?)
}

#[test]
fn a_key_that_is_told_is_a_point(rt: HostRuntime) -> Result<(), Fail> {
    let alloc = rt.alloc();
    let first = (0, Comparison::Equal, 1);
    let second = (1, Comparison::Equal, 2);
    assert!(rt; is_point(&access(alloc, &[0, 1], &[second, first])?, &ONE_TWO));
    assert!(rt; is_range(&access(alloc, &[0, 1], &[first])?, &ONE, &BEHIND_ONE));
    assert!(rt; matches!(access(alloc, &[0, 1], &[second])?, Access::Whole));
    Ok(())
}

static BOUNDS: [(u8, Comparison, i64); 4] = [
    (0, Comparison::GreaterEqual, 1),
    (0, Comparison::LessEqual, 2),
    (0, Comparison::Greater, 1),
    (0, Comparison::Less, 3),
];

#[test]
fn the_narrowest_bounds_count(rt: HostRuntime) -> Result<(), Fail> {
    let bounds = access(rt.alloc(), &[0], &BOUNDS)?;
    assert!(rt; is_range(&bounds, &BEHIND_ONE, &BEHIND_TWO));
    let other = access(rt.alloc(), &[0], &[(0, Comparison::NotEqual, 1)])?;
    assert!(rt; matches!(other, Access::Whole));
    Ok(())
}

// A literal on the left, compared with the key.
fn turned(alloc: Global, by: Comparison, literal: Value) -> Result<Access, NoMemory> {
    let test = Condition::Test {
        left: Side::Literal(literal),
        by,
        right: Side::Place(0),
    };
    access_of(alloc, &pair(alloc, &[0])?, 0, &Some(test))
}

#[test]
fn a_literal_may_stand_on_the_left(rt: HostRuntime) -> Result<(), Fail> {
    let below = turned(rt.alloc(), Comparison::Greater, Value::Int(2))?;
    assert!(rt; is_range(&below, &[1], &TWO));
    let unknown = turned(rt.alloc(), Comparison::Equal, Value::Null)?;
    assert!(rt; matches!(unknown, Access::Whole));
    Ok(())
}

#[test]
fn each_table_has_its_columns(rt: HostRuntime) -> Result<(), Fail> {
    accesses_suffice();
    let table = pair(rt.alloc(), &[0])?;
    let filter = Some(test(2, Comparison::Equal, 1));
    let accesses = accesses_of(rt.alloc(), &[&table, &table], &filter)?;
    assert!(rt; matches!(accesses.as_slice(), [Access::Whole, Access::Point { .. }]));
    Ok(())
}
