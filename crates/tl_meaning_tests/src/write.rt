use crate::fixtures::{column, expect_rows, rows, test};
use std::alloc::Global;
use std::process::Abort;
use std::test::Fail;
use tl_algebra::{Edit, Expression, Operator, SetColumn, Step};
use tl_base::{Boxed, Bytes, Items, NoMemory, Text};
use tl_schema::{Table, store_key};
use tl_values::{Comparison, Rows, Value, copy_row};
use tl_write::{Buffer, ChangeFault, Effect, Write, Writes, change};

// CREATE TABLE account (id INT PRIMARY KEY, balance INT NOT NULL), which has number 0.
fn account(alloc: Global) -> Result<Table, NoMemory> {
    let mut columns = Items::new(alloc);
    columns.push(column(alloc, "id")?)?;
    columns.push(column(alloc, "balance")?)?;
    let mut key = Items::new(alloc);
    key.push(0)?;
    Ok(Table {
        name: Text::from_str(alloc, "account")?,
        columns,
        key,
        indexes: Items::new(alloc),
    })
}

/// A change of the account table.
#[derive(Clone, Copy)]
enum Case {
    /// INSERT of these rows.
    Insert(&'static [&'static str]),
    /// SET column = place + number in all rows.
    Update(&'static [(u8, u8, i64)]),
    /// DELETE WHERE id = number.
    Delete(i64),
}

fn edit(alloc: Global, case: Case) -> Result<Edit, NoMemory> {
    match case {
        Case::Insert(texts) => Ok(Edit::Insert {
            table: 0,
            rows: rows(alloc, texts)?,
        }),
        Case::Update(sets) => Ok(Edit::Update {
            table: 0,
            sets: columns(alloc, sets)?,
            filter: None,
        }),
        Case::Delete(number) => Ok(Edit::Delete {
            table: 0,
            filter: Some(test(0, Comparison::Equal, number)),
        }),
    }
}

fn columns(alloc: Global, sets: &[(u8, u8, i64)]) -> Result<Items<SetColumn>, NoMemory> {
    let mut columns = Items::new(alloc);
    for (column, at, number) in sets {
        columns.push(SetColumn {
            column: *column,
            value: sum(alloc, *at, *number)?,
        })?;
    }
    Ok(columns)
}

// A place, and a number added to it.
fn sum(alloc: Global, at: u8, number: i64) -> Result<Expression, NoMemory> {
    let mut rest = Items::new(alloc);
    rest.push(Step {
        by: Operator::Add,
        of: Expression::Literal(Value::Int(number)),
    })?;
    let first = Boxed::new(alloc, Expression::Place(at))?;
    Ok(Expression::Chain { first, rest })
}

// A buffer of this many deletions in another table.
fn deletions(alloc: Global, count: u16) -> Result<Buffer, NoMemory> {
    let mut writes = Writes::new(alloc);
    for number in 0..count {
        let [high, low] = number.to_be_bytes();
        let key = Bytes::from_slice(alloc, &[4, 1, high, low])?;
        writes.push(Write { key, row: None })?;
    }
    let mut buffer = Buffer::new(alloc);
    buffer.keep(Effect { count: 0, writes })?;
    Ok(buffer)
}

fn outcome(
    alloc: Global,
    case: Case,
    view: &[&str],
    buffer: &Buffer,
) -> Result<Effect, ChangeFault> {
    let edit = edit(alloc, case)?;
    let table = account(alloc)?;
    let view = rows(alloc, view)?;
    change(alloc, &edit, &table, &view, buffer)
}

// The rows that the writes leave.
fn rows_left(alloc: Global, writes: &[Write]) -> Result<Rows, NoMemory> {
    let mut left = Rows::new(alloc);
    for write in writes {
        if let Some(row) = &write.row {
            left.push(copy_row(row)?)?;
        }
    }
    Ok(left)
}

fn expect_effect(
    rt: &impl Abort,
    case: Case,
    view: &[&str],
    count: u32,
    texts: &[&str],
    alloc: Global,
) -> Result<(), ChangeFault> {
    let effect = outcome(alloc, case, view, &Buffer::new(alloc))?;
    assert_eq!(rt; effect.count, count);
    let left = rows_left(alloc, effect.writes.as_slice())?;
    expect_rows(rt, alloc, left.as_slice(), texts)?;
    Ok(())
}

fn expect_fault(
    rt: &impl Abort,
    case: Case,
    buffered: u16,
    fault: ChangeFault,
    alloc: Global,
) -> Result<(), NoMemory> {
    let buffer = deletions(alloc, buffered)?;
    assert_eq!(rt; outcome(alloc, case, &A, &buffer).err(), Some(fault));
    Ok(())
}

fn keep(alloc: Global, buffer: &mut Buffer, case: Case, view: &[&str]) -> Result<(), ChangeFault> {
    let effect = outcome(alloc, case, view, buffer)?;
    buffer.keep(effect)?;
    Ok(())
}

fn expect_laid(
    rt: &impl Abort,
    alloc: Global,
    buffer: &Buffer,
    view: &[&str],
    texts: &[&str],
) -> Result<(), NoMemory> {
    let table = account(alloc)?;
    let laid = buffer.lay(0, &table, rows(alloc, view)?)?;
    expect_rows(rt, alloc, laid.as_slice(), texts)
}

fn expect_first_key(
    rt: &impl Abort,
    alloc: Global,
    buffer: &Buffer,
    id: i64,
) -> Result<(), NoMemory> {
    let keys = buffer.keys()?;
    let first = store_key(alloc, 0, &[Value::Int(id)])?;
    assert!(rt; keys.get(0).is_some_and(|key| *key == first));
    Ok(())
}

const A: [&str; 2] = ["1 100", "2 100"];

#[test]
fn changes_do_what_they_say(rt: HostRuntime) -> Result<(), Fail> {
    let alloc = rt.alloc();
    let inserted = Case::Insert(&["4 1", "3 1"]);
    expect_effect(&rt, inserted, &A, 2, &["3 1", "4 1"], alloc)?;
    // Each SET reads the old row.
    let updated = Case::Update(&[(1, 0, 0), (0, 1, 5)]);
    expect_effect(&rt, updated, &["2 70", "1 60"], 2, &["65 1", "75 2"], alloc)?;
    expect_effect(&rt, Case::Delete(2), &A, 1, &[], alloc)?;
    expect_effect(&rt, Case::Delete(3), &A, 0, &[], alloc)?;
    Ok(())
}

#[test]
fn the_first_offending_row_decides(rt: HostRuntime) -> Result<(), Fail> {
    let alloc = rt.alloc();
    let cases = [
        (Case::Insert(&["3 1", "1 1"]), 0, ChangeFault::Duplicate),
        (
            Case::Insert(&["3 1", "3 2", "4 NULL"]),
            0,
            ChangeFault::Duplicate,
        ),
        (Case::Insert(&["3 NULL"]), 0, ChangeFault::Null),
        (Case::Update(&[(1, 1, i64::MAX)]), 0, ChangeFault::Overflow),
        (Case::Insert(&["3 1"]), 4096, ChangeFault::Many),
        (Case::Delete(1), 4096, ChangeFault::Many),
    ];
    for (case, buffered, fault) in cases {
        expect_fault(&rt, case, buffered, fault, alloc)?;
    }
    Ok(())
}

#[test]
fn own_writes_are_laid_over_rows(rt: HostRuntime) -> Result<(), Fail> {
    let alloc = rt.alloc();
    let mut buffer = deletions(alloc, 1)?;
    keep(alloc, &mut buffer, Case::Delete(2), &A)?;
    expect_laid(&rt, alloc, &buffer, &["2 100", "1 100"], &["1 100"])?;
    keep(alloc, &mut buffer, Case::Update(&[(1, 1, 7)]), &["1 100"])?;
    keep(alloc, &mut buffer, Case::Insert(&["3 5"]), &["1 107"])?;
    expect_laid(
        &rt,
        alloc,
        &buffer,
        &["4 0", "2 100", "1 100"],
        &["1 107", "3 5", "4 0"],
    )?;
    assert_eq!(rt; buffer.writes().len(), 4);
    expect_first_key(&rt, alloc, &buffer, 1)?;
    Ok(())
}
