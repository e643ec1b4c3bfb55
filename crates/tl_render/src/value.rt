//! The text of values and rows.

ghost use Rattle.std.specs.Prelude.{◌≡◌, ◌++◌, OnOk, codes, decimal};
ghost use Rattle.std.specs.Fmt.{signed_decimal};
ghost use Rattle.std.specs.List.{flat_map};
ghost use Rattle.tl_values.specs.declared.value.Value.TheVariants as Value;
ghost use Rattle.tl_render.specs.Printed.{in_quotes, row_text, rows_text, value_text};

use itoa::Buffer;
use tl_base::{Bytes, NoMemory};
use tl_values::{Row, Rows, Value};

/// Writes a number in decimal.
pub fn push_number(out: &mut Bytes, number: u64) -> Result<(), NoMemory>
    ensures { OnOk result (out.new ≡ out.old ++ decimal number) }
{
    let mut buffer = Buffer::new();
    out.extend_from_slice(buffer.format(number).as_bytes())
}

fn push_signed(out: &mut Bytes, number: i64) -> Result<(), NoMemory>
    ensures { OnOk result (out.new ≡ out.old ++ signed_decimal number) }
{
    let mut buffer = Buffer::new();
    out.extend_from_slice(buffer.format(number).as_bytes())
}

// The bytes of a text, where each quote stands twice.
fn push_doubled(out: &mut Bytes, text: &[u8]) -> Result<(), NoMemory>
    ensures { OnOk result (out.new ≡ out.old ++ flat_map in_quotes text.now) }
{
    for byte in text {
        if *byte == b'\'' {
            out.extend_from_slice(b"''")?;
        } else {
            out.push(*byte)?;
        }
    }
    Ok(())
}

fn push_text(out: &mut Bytes, text: &[u8]) -> Result<(), NoMemory>
    ensures { OnOk result (out.new ≡ out.old ++ value_text (Value.Text text.now)) }
{
    out.push(b'\'')?;
    push_doubled(out, text)?;
    out.push(b'\'')
}

fn push_value(out: &mut Bytes, value: &Value) -> Result<(), NoMemory>
    ensures { OnOk result (out.new ≡ out.old ++ value_text value.now) }
{
    match value {
        Value::Null => out.extend_from_slice(b"NULL"),
        Value::Bool(true) => out.extend_from_slice(b"TRUE"),
        Value::Bool(false) => out.extend_from_slice(b"FALSE"),
        Value::Int(number) => push_signed(out, *number),
        Value::Text(text) => push_text(out, text.as_bytes()),
    }
}

/// Writes a row as a line.
pub fn push_row(out: &mut Bytes, row: &Row) -> Result<(), NoMemory>
    ensures { OnOk result (out.new ≡ out.old ++ row_text row.now) }
{
    if let Some((first, others)) = row.as_slice().split_first() {
        push_value(out, first)?;
        push_others(out, others)?;
    }
    out.push(b'\n')
}

// The values behind the first one of a row.
fn push_others(out: &mut Bytes, values: &[Value]) -> Result<(), NoMemory>
    ensures { OnOk result (out.new ≡ out.old ++ flat_map (λ v. codes "|" ++ value_text v) values.now) }
{
    for value in values {
        out.push(b'|')?;
        push_value(out, value)?;
    }
    Ok(())
}

/// Writes each row as a line.
pub fn push_rows(out: &mut Bytes, rows: &Rows) -> Result<(), NoMemory>
    ensures { OnOk result (out.new ≡ out.old ++ rows_text rows.now) }
{
    for row in rows.as_slice() {
        push_row(out, row)?;
    }
    Ok(())
}
