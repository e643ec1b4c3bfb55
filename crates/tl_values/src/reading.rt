//! Key bytes, read.

ghost use Rattle.std.specs.Prelude.{◌≡◌, List, IfOk, pos, ◌-ℤ◌, ◌^◌};
ghost use Rattle.std.specs.Result.{IsErrOf};
ghost use Rattle.tl_codec.specs.Reading.{Gives};
ghost use Rattle.tl_values.specs.declared.value.Value.{Value};
ghost use Rattle.tl_values.specs.Key.{AreValues, key_bytes};
ghost use Rattle.tl_values.specs.Reading.{number_at, read_bool, read_byte, read_escaped, read_int, read_key_value, read_text};

use crate::fault::KeyFault;
use crate::key::{BOOL, INT, NULL, TEXT};
use crate::value::{Row, Value};
use std::alloc::Global;
use tl_base::Text;
use tl_codec::{ReadFault, read_flag, read_u64};

/// The values whose key bytes these are, all of them.
pub fn decode_key(alloc: Global, bytes: &[u8]) -> Result<Row, KeyFault>
    ensures key { IfOk result (λ row. bytes.now ≡ key_bytes row) }
    ensures values { IfOk result (λ row. AreValues row) }
    ensures bad { IsErrOf result KeyFault.BadKey → (row : List Value) → AreValues row → bytes.now ≡ key_bytes row → ⊥ }
{
    let row = values_of(alloc, bytes)?;
    Ok(row)
}

fn values_of(alloc: Global, bytes: &[u8]) -> Result<Row, ReadFault>
    ensures key { IfOk result (λ row. bytes.now ≡ key_bytes row) }
    ensures values { IfOk result (λ row. AreValues row) }
    ensures bad { IsErrOf result ReadFault.Bad → (row : List Value) → AreValues row → bytes.now ≡ key_bytes row → ⊥ }
{
    let mut row = Row::new(alloc);
    let mut rest = bytes;
    while !rest.is_empty() {
        let (value, after) = value_of(alloc, rest)?;
        row.push(value)?;
        rest = after;
    }
    Ok(row)
}

#[tactic(auto, unfolding(crate::specs::Reading::read_key_value))]
fn value_of(alloc: Global, bytes: &[u8]) -> Result<(Value, &[u8]), ReadFault>
    ensures { Gives (λ x. (x.0, x.1.now)) result (read_key_value bytes.now) }
{
    match bytes {
        [NULL, rest @ ..] => Ok((Value::Null, rest)),
        [BOOL, rest @ ..] => bool_of(rest),
        [INT, rest @ ..] => int_of(rest),
        [TEXT, rest @ ..] => text_of(alloc, rest),
        [] | [_, ..] => Err(ReadFault::Bad),
    }
}

#[tactic(auto, unfolding(crate::specs::Reading::read_bool))]
fn bool_of(bytes: &[u8]) -> Result<(Value, &[u8]), ReadFault>
    ensures { Gives (λ x. (x.0, x.1.now)) result (read_bool bytes.now) }
{
    let (flag, rest) = read_flag(bytes)?;
    Ok((Value::Bool(flag), rest))
}

#[tactic(auto, unfolding(crate::specs::Reading::read_int))]
fn int_of(bytes: &[u8]) -> Result<(Value, &[u8]), ReadFault>
    ensures { Gives (λ x. (x.0, x.1.now)) result (read_int bytes.now) }
{
    let (place, rest) = read_u64(bytes)?;
    Ok((Value::Int(number_at(place)), rest))
}

// The number of this place, counted from the least.
fn number_at(place: u64) -> i64
    ensures { result ≡ number_at place }
{
    i64::MIN.wrapping_add_unsigned(place)
}

#[tactic(auto, using(crate::proofs::Utf8::utf8_tests), unfolding(crate::specs::Reading::read_text))]
fn text_of(alloc: Global, bytes: &[u8]) -> Result<(Value, &[u8]), ReadFault>
    ensures { Gives (λ x. (x.0, x.1.now)) result (read_text bytes.now) }
{
    let (text, rest) = escaped_of(alloc, bytes)?;
    match String::from_utf8(text) {
        Ok(text) => Ok((Value::Text(Text::from_string(text)), rest)),
        Err(_) => Err(ReadFault::Bad),
    }
}

fn escaped_of(alloc: Global, bytes: &[u8]) -> Result<(Vec<u8>, &[u8]), ReadFault>
    ensures { Gives (λ x. (x.0.items, x.1.now)) result (read_escaped bytes.now) }
{
    let mut text = Vec::new(alloc);
    let mut rest = bytes;
    loop {
        let (byte, after) = byte_of(rest)?;
        let Some(byte) = byte else {
            return Ok((text, after));
        };
        text.push(byte)?;
        rest = after;
    }
}

// The next byte of a text, and none at its end.
#[tactic(auto, unfolding(crate::specs::Reading::read_byte))]
fn byte_of(bytes: &[u8]) -> Result<(Option<u8>, &[u8]), ReadFault>
    ensures { Gives (λ x. (x.0, x.1.now)) result (read_byte bytes.now) }
{
    match bytes {
        [0, 0, rest @ ..] => Ok((None, rest)),
        [0, 0xff, rest @ ..] => Ok((Some(0), rest)),
        [] | [0] | [0, _, ..] => Err(ReadFault::Bad),
        [byte, rest @ ..] => Ok((Some(*byte), rest)),
    }
}
