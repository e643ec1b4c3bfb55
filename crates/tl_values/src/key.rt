//! The bytes under which a list of values is a key.

ghost use Rattle.std.specs.Prelude.{◌≡◌, ◌++◌, IfOk, OnOk};
ghost use Rattle.tl_values.specs.Key.{AreValues, IsValue, from_least, key_bytes, text_key, value_key};

use crate::value::Value;
use std::alloc::Global;
use tl_base::{Bytes, NoMemory};
use tl_codec::write_u64;

pub const NULL: u8 = 0;

pub const BOOL: u8 = 1;

pub const INT: u8 = 2;

pub const TEXT: u8 = 3;

/// The key bytes of the values, whose order is the order of the lists of values.
pub fn encode_key(alloc: Global, values: &[Value]) -> Result<Bytes, NoMemory>
    ensures bytes { IfOk result (λ key. key ≡ key_bytes values.now) }
    ensures values { OnOk result (AreValues values.now) }
{
    let mut key = Bytes::new(alloc);
    for value in values {
        push_value(&mut key, value)?;
    }
    Ok(key)
}

fn push_value(key: &mut Bytes, value: &Value) -> Result<(), NoMemory>
    ensures bytes { OnOk result (key.new ≡ key.old ++ value_key value.now) }
    ensures value { OnOk result (IsValue value.now) }
{
    match value {
        Value::Null => key.push(NULL)?,
        Value::Bool(flag) => key.extend_from_slice(&[BOOL, u8::from(*flag)])?,
        Value::Int(number) => push_number(key, *number)?,
        Value::Text(text) => push_text(key, text.as_str())?,
    }
    Ok(())
}

fn push_number(key: &mut Bytes, number: i64) -> Result<(), NoMemory>
    ensures { OnOk result (key.new ≡ key.old ++ value_key (Value.Int number)) }
{
    key.push(INT)?;
    write_u64(key, number.abs_diff(i64::MIN))
}

fn push_text(key: &mut Bytes, text: &str) -> Result<(), NoMemory>
    ensures { OnOk result (key.new ≡ key.old ++ value_key (Value.Text text.now)) }
{
    key.push(TEXT)?;
    push_escaped(key, text.as_bytes())
}

fn push_escaped(key: &mut Bytes, text: &[u8]) -> Result<(), NoMemory>
    ensures { OnOk result (key.new ≡ key.old ++ text_key text.now) }
{
    for byte in text {
        key.push(*byte)?;
        if *byte == 0 {
            key.push(0xff)?;
        }
    }
    key.extend_from_slice(&[0, 0])
}
