//! What several tests take: rows from words, columns, and the comparison of rows.
use std::alloc::Global;
use std::process::Abort;
use std::test::Fail;
use tl_algebra::{Condition, Side};
use tl_base::{NoMemory, Text};
use tl_schema::Column;
use tl_values::{Comparison, Kind, Row, Rows, Value, encode_key};

/// NULL, a number, or else a text.
pub fn value(alloc: Global, word: &str) -> Result<Value, NoMemory> {
    if word == "NULL" {
        return Ok(Value::Null);
    }
    match word.parse::<i64>() {
        Ok(number) => Ok(Value::Int(number)),
        Err(_) => Ok(Value::Text(Text::from_str(alloc, word)?)),
    }
}

/// The values of the words, which stand between blanks.
pub fn row(alloc: Global, words: &str) -> Result<Row, NoMemory> {
    let mut row = Row::new(alloc);
    for word in words.split(' ') {
        row.push(value(alloc, word)?)?;
    }
    Ok(row)
}

pub fn rows(alloc: Global, texts: &[&str]) -> Result<Rows, NoMemory> {
    let mut rows = Rows::new(alloc);
    for text in texts {
        rows.push(row(alloc, text)?)?;
    }
    Ok(rows)
}

/// The rows are those of the texts.
pub fn expect_rows(
    rt: &impl Abort,
    alloc: Global,
    found: &[Row],
    texts: &[&str],
) -> Result<(), NoMemory> {
    assert_eq!(rt; found.len(), texts.len());
    for (found, text) in found.iter().zip(texts) {
        let found = encode_key(alloc, found.as_slice())?;
        let expected = encode_key(alloc, row(alloc, text)?.as_slice())?;
        assert_eq!(rt; found.as_slice(), expected.as_slice());
    }
    Ok(())
}

/// An INT column that is NOT NULL.
pub fn column(alloc: Global, name: &str) -> Result<Column, NoMemory> {
    Ok(Column {
        name: Text::from_str(alloc, name)?,
        kind: Kind::Int,
        not_null: true,
    })
}

/// The value at a place compared with a number.
pub fn test(place: u8, by: Comparison, number: i64) -> Condition {
    Condition::Test {
        left: Side::Place(place),
        by,
        right: Side::Literal(Value::Int(number)),
    }
}
