use crate::fixtures::{point, point_table};
use std::alloc::Global;
use std::process::Abort;
use std::test::Fail;
use tl_base::{Bytes, NoMemory, Text};
use tl_schema::{
    RowFault, Table, breaks_not_null, entries_of, is_long, key_values, record_key, row_bytes,
    row_of, store_key,
};
use tl_values::{Row, Value};

fn mixed(alloc: Global) -> Result<Row, NoMemory> {
    let mut mixed = Row::new(alloc);
    mixed.push(Value::Null)?;
    mixed.push(Value::Bool(true))?;
    mixed.push(Value::Int(-1))?;
    mixed.push(Value::Text(Text::from_str(alloc, "a\0")?))?;
    Ok(mixed)
}

// These are the bytes of the row.
fn expect_spelling(rt: &impl Abort, alloc: Global, values: Row, bytes: &[u8]) -> Result<(), Fail> {
    let row = row_of(alloc, bytes)?;
    assert!(rt; row == values);
    assert_eq!(rt; row_bytes(alloc, &row)?.as_slice(), bytes);
    Ok(())
}

static POINT: [u8; 19] = [2, 2, 0, 0, 0, 0, 0, 0, 0, 1, 2, 0, 0, 0, 0, 0, 0, 0, 10];

static MIXED: [u8; 18] = [
    4, 0, 1, 1, 2, 0xff, 0xff, 0xff, 0xff, 0xff, 0xff, 0xff, 0xff, 3, 0, 2, 0x61, 0,
];

#[test]
fn rows_have_these_spellings(rt: HostRuntime) -> Result<(), Fail> {
    let alloc = rt.alloc();
    expect_spelling(&rt, alloc, point(alloc, 1, 10)?, &POINT)?;
    expect_spelling(&rt, alloc, Row::new(alloc), &[0])?;
    expect_spelling(&rt, alloc, mixed(alloc)?, &MIXED)
}

#[test]
fn other_bytes_are_no_rows(rt: HostRuntime) {
    let bad: [&[u8]; 4] = [&[], &[0, 0], &[1, 1, 2], &[1, 3, 0, 1, 0xff]];
    for bytes in bad {
        assert!(rt; matches!(row_of(rt.alloc(), bytes), Err(RowFault::BadRow)));
    }
}

static KEY: [u8; 11] = [4, 0, 2, 0x80, 0, 0, 0, 0, 0, 0, 1];

static ENTRY: [u8; 18] = [2, 0x80, 0, 0, 0, 0, 0, 0, 10, 2, 0x80, 0, 0, 0, 0, 0, 0, 1];

fn key_of_values(alloc: Global, table: &Table, row: &Row) -> Result<Bytes, NoMemory> {
    let values = key_values(alloc, table, row)?;
    store_key(alloc, 0, values.as_slice())
}

#[test]
fn records_have_these_keys(rt: HostRuntime) -> Result<(), Fail> {
    let alloc = rt.alloc();
    let table = point_table(alloc)?;
    let row = point(alloc, 1, 10)?;
    assert_eq!(rt;
        record_key(alloc, 0, &table, &row)?.as_slice(),
        KEY.as_slice()
    );
    assert_eq!(rt;
        key_of_values(alloc, &table, &row)?.as_slice(),
        KEY.as_slice()
    );
    for entry in &entries_of(alloc, &table, &row)? {
        assert_eq!(rt; entry.as_slice(), ENTRY.as_slice());
    }
    Ok(())
}

// A row of one text of so many letters, which is its key, is above a limit.
fn is_long_text(alloc: Global, letters: usize) -> Result<bool, Fail> {
    let text = String::from_utf8(vec![in alloc; b'a'; letters]?)?;
    let mut row = Row::new(alloc);
    row.push(Value::Text(Text::from_string(text)))?;
    row.push(Value::Null)?;
    Ok(is_long(alloc, &point_table(alloc)?, &row)?)
}

fn lacks(alloc: Global, row: &Row) -> Result<bool, Fail> {
    let table = point_table(alloc)?;
    Ok(breaks_not_null(table.columns.as_slice(), row))
}

#[test]
fn rows_have_limits(rt: HostRuntime) -> Result<(), Fail> {
    let alloc = rt.alloc();
    assert!(rt; !is_long_text(alloc, 252)?);
    assert!(rt; is_long_text(alloc, 253)?);
    assert!(rt; !lacks(alloc, &point(alloc, 1, 10)?)?);
    assert!(rt; lacks(alloc, &mixed(alloc)?)?);
    Ok(())
}
