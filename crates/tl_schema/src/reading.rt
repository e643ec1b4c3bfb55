//! The bytes of a row in a record cell, read.

ghost use Rattle.std.specs.Prelude.{◌≡◌, List, IfOk};
ghost use Rattle.std.specs.Result.{IsErrOf};
ghost use Rattle.tl_codec.specs.Reading.{Gives, read_many};
ghost use Rattle.tl_values.specs.declared.value.Value.{Value};
ghost use Rattle.tl_values.specs.Reading.{read_bool};
ghost use Rattle.tl_schema.specs.Reading.{read_int, read_row, read_text, read_value};
ghost use Rattle.tl_schema.specs.Row.{FitsRow, row_spelling};

use crate::fault::RowFault;
use crate::spelling::{BOOL, INT, NULL, TEXT};
use std::alloc::Global;
use std::str;
use tl_base::{Items, Text};
use tl_codec::{ReadFault, all_read, read_byte, read_flag, read_span, read_u16, read_u64};
use tl_values::{Row, Value};

#[tactic(auto, unfolding(tl_values::specs::Reading::read_bool))]
fn bool_of(bytes: &[u8]) -> Result<(Value, &[u8]), ReadFault>
    ensures { Gives (λ x. (x.0, x.1.now)) result (read_bool bytes.now) }
{
    let (flag, rest) = read_flag(bytes)?;
    Ok((Value::Bool(flag), rest))
}

#[tactic(auto, unfolding(crate::specs::Reading::read_int))]
fn int_of(bytes: &[u8]) -> Result<(Value, &[u8]), ReadFault>
    ensures { Gives (λ x. (x.0, x.1.now)) result (read_int bytes.now) }
{
    let (number, rest) = read_u64(bytes)?;
    Ok((Value::Int(number.cast_signed()), rest))
}

#[tactic(auto, using(tl_values::proofs::Utf8::utf8_tests), unfolding(crate::specs::Reading::read_text))]
fn text_of(alloc: Global, bytes: &[u8]) -> Result<(Value, &[u8]), ReadFault>
    ensures { Gives (λ x. (x.0, x.1.now)) result (read_text bytes.now) }
{
    let (size, rest) = read_u16(bytes)?;
    let (text, rest) = read_span(rest, usize::from(size))?;
    match str::from_utf8(text) {
        Ok(text) => Ok((Value::Text(Text::from_str(alloc, text)?), rest)),
        Err(_) => Err(ReadFault::Bad),
    }
}

#[tactic(auto, unfolding(crate::specs::Reading::read_value))]
fn value_of(alloc: Global, bytes: &[u8]) -> Result<(Value, &[u8]), ReadFault>
    ensures { Gives (λ x. (x.0, x.1.now)) result (read_value bytes.now) }
{
    match bytes {
        [NULL, rest @ ..] => Ok((Value::Null, rest)),
        [BOOL, rest @ ..] => bool_of(rest),
        [INT, rest @ ..] => int_of(rest),
        [TEXT, rest @ ..] => text_of(alloc, rest),
        [] | [_, ..] => Err(ReadFault::Bad),
    }
}

fn values_of(alloc: Global, count: u8, bytes: &[u8]) -> Result<(Row, &[u8]), ReadFault>
    ensures { Gives (λ x. (x.0, x.1.now)) result (read_many read_value count bytes.now) }
{
    let mut values = Items::new(alloc);
    let mut rest = bytes;
    for _ in 0..count {
        let (value, after) = value_of(alloc, rest)?;
        values.push(value)?;
        rest = after;
    }
    Ok((values, rest))
}

#[tactic(auto, unfolding(crate::specs::Reading::read_row))]
fn whole_row(alloc: Global, bytes: &[u8]) -> Result<Row, ReadFault>
    ensures { Gives (λ row. row) result (read_row bytes.now) }
{
    let (count, rest) = read_byte(bytes)?;
    let (row, rest) = values_of(alloc, count, rest)?;
    all_read(row, rest)
}

/// The row whose spelling the bytes are, all of them.
pub fn row_of(alloc: Global, bytes: &[u8]) -> Result<Row, RowFault>
    ensures spelled { IfOk result (λ row. bytes.now ≡ row_spelling row) }
    ensures fits { IfOk result (λ row. FitsRow row) }
    ensures bad { IsErrOf result RowFault.BadRow → (row : List Value) → FitsRow row → bytes.now ≡ row_spelling row → ⊥ }
{
    let row = whole_row(alloc, bytes)?;
    Ok(row)
}
