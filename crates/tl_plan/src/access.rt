//! Which records of its tables a statement reads.

ghost use Rattle.std.specs.Prelude.{◌≡◌, ◌+◌, ◌^◌, ◌<◌, IfOk, filter_map};
ghost use Rattle.tl_plan.specs.Access.{access_of, accesses_of, range_by, test_of};
ghost use Rattle.tl_plan.specs.Steps.{access_on, point_of, range_on, these, width};

use crate::range::{equal_to, high_bound, is_tested, low_bound};
use crate::tested::parts_of;
use std::alloc::Global;
use tl_algebra::Condition;
use tl_base::{Bytes, Duplicate, Items, NoMemory};
use tl_schema::{Access, Table};
use tl_values::{Row, encode_key};

/// The access of a table whose columns stand from this place of the joined row on: one record where the outermost AND
/// of WHERE tests each column of the primary key for equality, else a range of keys where it tests the first of them,
/// and else all. `NoMemory` comes where the bytes of a bound find no room, and for no other reason.
#[tactic(auto, using(crate::proofs::Accesses::access_is))]
pub fn access_of(
    alloc: Global,
    table: &Table,
    offset: usize,
    filter: &Option<Condition>,
) -> Result<Access, NoMemory>
    ensures exact { IfOk result (λ access. access ≡ access_of table.now offset filter.now) }
{
    access_on(alloc, table.key.as_slice(), offset, parts_of(filter))
}

/// The accesses of the tables of a FROM, one behind the other. Their columns together are as many as a place can count.
pub fn accesses_of(
    alloc: Global,
    tables: &[&Table],
    filter: &Option<Condition>,
) -> Result<Items<Access>, NoMemory>
    requires short { width (these tables.now) < 2 ^ 64 }
    ensures exact { IfOk result (λ accesses. accesses ≡ accesses_of (these tables.now) 0 filter.now) }
{
    let mut accesses = Items::new(alloc);
    let mut offset = 0;
    for table in tables {
        accesses.push(access_of(alloc, table, offset, filter)?)?;
        offset += table.columns.len();
    }
    Ok(accesses)
}

// The access of a table, of the parts of WHERE and the columns of the primary key.
fn access_on(
    alloc: Global,
    columns: &[u8],
    offset: usize,
    parts: &[Condition],
) -> Result<Access, NoMemory>
    ensures { IfOk result (λ access. access ≡ access_on (point_of offset parts.now columns.now) (range_on offset parts.now columns.now)) }
{
    match point_of(alloc, columns, offset, parts)? {
        Some(key) => Ok(Access::Point { key }),
        None => range_on(alloc, columns, offset, parts),
    }
}

// The key bytes of the record, where each column of the primary key is tested for equality.
fn point_of(
    alloc: Global,
    columns: &[u8],
    offset: usize,
    parts: &[Condition],
) -> Result<Option<Bytes>, NoMemory>
    ensures { IfOk result (λ key. key ≡ point_of offset parts.now columns.now) }
{
    let mut values = Row::new(alloc);
    for column in columns {
        let Some(value) = equal_to(parts, offset, *column) else {
            return Ok(None);
        };
        values.push(value.copy()?)?;
    }
    Ok(Some(encode_key(alloc, values.as_slice())?))
}

// The range of the primary key's first column.
fn range_on(
    alloc: Global,
    columns: &[u8],
    offset: usize,
    parts: &[Condition],
) -> Result<Access, NoMemory>
    ensures { IfOk result (λ access. access ≡ range_on offset parts.now columns.now) }
{
    match columns.first() {
        Some(column) => range_by(alloc, *column, offset, parts),
        None => Ok(Access::Whole),
    }
}

#[tactic(auto, using(crate::proofs::Parts::range_by_is))]
fn range_by(
    alloc: Global,
    column: u8,
    offset: usize,
    parts: &[Condition],
) -> Result<Access, NoMemory>
    ensures { IfOk result (λ access. access ≡ range_by (filter_map (test_of (offset + column)) parts.now)) }
{
    if !is_tested(parts, offset, column) {
        return Ok(Access::Whole);
    }
    let low = low_bound(alloc, parts, offset, column)?;
    let high = high_bound(alloc, parts, offset, column)?;
    Ok(Access::KeyRange { low, high })
}
