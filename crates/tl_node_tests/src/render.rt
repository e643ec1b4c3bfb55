//! Forms of the printed text that no scenario comes to.

use std::alloc::Global;
use std::test::Fail;
use tl_base::{Bytes, NoMemory, Text};
use tl_isolation::{Answer, Ending};
use tl_render::{push_answer, push_ending, push_row};
use tl_values::{Row, Value};

fn row_of_each_value(alloc: Global) -> Result<Row, NoMemory> {
    let mut row = Row::new(alloc);
    row.push(Value::Null)?;
    row.push(Value::Bool(true))?;
    row.push(Value::Bool(false))?;
    row.push(Value::Int(-5))?;
    row.push(Value::Text(Text::from_str(alloc, "it's")?))?;
    Ok(row)
}

#[test]
fn each_value_is_printed(rt: HostRuntime) -> Result<(), Fail> {
    let row = row_of_each_value(rt.alloc())?;
    let mut text = Bytes::new(rt.alloc());
    push_row(&mut text, &row)?;
    let expected = "NULL|TRUE|FALSE|-5|'it''s'\n";
    assert_eq!(rt; text.as_slice(), expected.as_bytes());
    Ok(())
}

fn push_refusals(text: &mut Bytes) -> Result<(), NoMemory> {
    push_answer(text, &Answer::Null)?;
    push_answer(text, &Answer::Overflow)?;
    push_answer(text, &Answer::Long)?;
    push_answer(text, &Answer::Many)?;
    push_ending(text, Ending::OutOfMemory)
}

#[test]
fn refusals_and_want_of_memory_are_printed(rt: HostRuntime) -> Result<(), Fail> {
    let mut text = Bytes::new(rt.alloc());
    push_refusals(&mut text)?;
    let expected = "refused null\nrefused overflow\nrefused long\nrefused many\nout of memory\n";
    assert_eq!(rt; text.as_slice(), expected.as_bytes());
    Ok(())
}
