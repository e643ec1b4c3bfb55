//! The values of a row, by their places.

ghost use Rattle.std.specs.Prelude.{◌≡◌, IfOk};
ghost use Rattle.tl_values.specs.Value.{value_at, values_at};

use crate::value::{Row, Value};
use std::alloc::Global;
use tl_base::{Duplicate, NoMemory};

/// A copy of the value at this place of the row, counted from 0; NULL at a place outside it.
pub fn copy_at(row: &Row, place: u8) -> Result<Value, NoMemory>
    ensures { IfOk result (λ value. value ≡ value_at row.now place) }
{
    match row.as_slice().get(usize::from(place)) {
        Some(value) => value.copy(),
        None => Ok(Value::Null),
    }
}

/// Copies of the values at these places of the row, counted from 0; NULL at a place outside it.
pub fn values_at(alloc: Global, row: &Row, places: &[u8]) -> Result<Row, NoMemory>
    ensures { IfOk result (λ values. values ≡ values_at places.now row.now) }
{
    let mut values = Row::new(alloc);
    for place in places {
        values.push(copy_at(row, *place)?)?;
    }
    Ok(values)
}
