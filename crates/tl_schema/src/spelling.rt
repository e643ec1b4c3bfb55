//! The bytes of a row in a record cell, written.

ghost use Rattle.std.specs.Prelude.{◌≡◌, ◌++◌, ◌<◌, ◌^◌, IfOk, OnOk, length};
ghost use Rattle.std.specs.List.{AllByRecursion};
ghost use Rattle.tl_values.specs.Key.{IsValue};
ghost use Rattle.tl_schema.specs.Row.{FitsRow, IsShort, row_spelling, value_spelling};

use std::alloc::Global;
use tl_base::{Bytes, NoMemory};
use tl_codec::{write_u16, write_u64};
use tl_values::{Row, Value, prove_value};

pub const NULL: u8 = 0;

pub const BOOL: u8 = 1;

pub const INT: u8 = 2;

pub const TEXT: u8 = 3;

/// The one spelling of the row, of at most 255 values with texts below 65,536 bytes.
pub fn row_bytes(alloc: Global, row: &Row) -> Result<Bytes, NoMemory>
    requires count { length row.now < 256 }
    requires short { AllByRecursion IsShort row.now }
    ensures bytes { IfOk result (λ bytes. bytes ≡ row_spelling row.now) }
    ensures fits { OnOk result (FitsRow row.now) }
{
    let mut bytes = Bytes::new(alloc);
    bytes.push(row.len() as u8)?;
    for value in row.as_slice() {
        push_value(&mut bytes, value)?;
    }
    Ok(bytes)
}

fn push_value(bytes: &mut Bytes, value: &Value) -> Result<(), NoMemory>
    requires { IsShort value.now }
    ensures bytes { OnOk result (bytes.new ≡ bytes.old ++ value_spelling value.now) }
    ensures value { OnOk result (IsValue value.now) }
{
    prove_value(value);
    match value {
        Value::Null => bytes.push(NULL)?,
        Value::Bool(flag) => bytes.extend_from_slice(&[BOOL, u8::from(*flag)])?,
        Value::Int(number) => push_number(bytes, *number)?,
        Value::Text(text) => push_text(bytes, text.as_bytes())?,
    }
    Ok(())
}

fn push_number(bytes: &mut Bytes, number: i64) -> Result<(), NoMemory>
    ensures { OnOk result (bytes.new ≡ bytes.old ++ value_spelling (Value.Int number)) }
{
    bytes.push(INT)?;
    write_u64(bytes, number.cast_unsigned())
}

fn push_text(bytes: &mut Bytes, text: &[u8]) -> Result<(), NoMemory>
    requires { length text.now < 2 ^ 16 }
    ensures { OnOk result (bytes.new ≡ bytes.old ++ value_spelling (Value.Text text.now)) }
{
    bytes.push(TEXT)?;
    write_u16(bytes, text.len() as u16)?;
    bytes.extend_from_slice(text)
}
