ghost use Rattle.std.specs.Prelude.{◌≡◌, IfOk, length};
ghost use Rattle.std.specs.List.{AllByRecursion};
ghost use Rattle.tl_schema.specs.declared.catalog.Catalog.{Catalog};
ghost use Rattle.tl_write.specs.Change.{number_of};
ghost use Rattle.tl_isolation.specs.Tables.{HasTable};

use std::alloc::Global;
use std::test::Fail;
use tl_algebra::{
    Condition, Edit, Expression, Join, Operator, Output, Query, SetColumn, Side, Step,
};
use tl_answer::{answer_change, answer_query, copy_answer, is_refusal};
use tl_base::{Boxed, Bytes, Items, NoMemory, Text};
use tl_isolation::Answer;
use tl_schema::{Catalog, Column, Table};
use tl_values::{Comparison, Kind, Row, Rows, Value};
use tl_write::{Buffer, Write};

// A text that no row has room for.
fn long_text(alloc: Global) -> Result<Text, NoMemory> {
    let mut text = String::new(alloc);
    for _ in 0..1100 {
        text.push('x')?;
    }
    Ok(Text::from_string(text))
}

// NULL, a long text, or else a number.
fn value(alloc: Global, word: &str) -> Result<Value, NoMemory> {
    if word == "LONG" {
        return Ok(Value::Text(long_text(alloc)?));
    }
    match word.parse::<i64>() {
        Ok(number) => Ok(Value::Int(number)),
        Err(_) => Ok(Value::Null),
    }
}

// The values of the words, which stand between blanks.
fn row(alloc: Global, words: &str) -> Result<Row, NoMemory> {
    let mut row = Row::new(alloc);
    for word in words.split(' ') {
        row.push(value(alloc, word)?)?;
    }
    Ok(row)
}

fn rows(alloc: Global, texts: &[&str]) -> Result<Rows, NoMemory> {
    let mut rows = Rows::new(alloc);
    for text in texts {
        rows.push(row(alloc, text)?)?;
    }
    Ok(rows)
}

fn column(alloc: Global, name: &str, kind: Kind, not_null: bool) -> Result<Column, NoMemory> {
    Ok(Column {
        name: Text::from_str(alloc, name)?,
        kind,
        not_null,
    })
}

// CREATE TABLE account (id INT PRIMARY KEY, balance INT NOT NULL, note TEXT), which has number 0.
fn catalog(alloc: Global) -> Result<Catalog, NoMemory>
    ensures { IfOk result (λ catalog. length catalog.tables ≡ 1) }
{
    let mut columns = Items::new(alloc);
    columns.push(column(alloc, "id", Kind::Int, true)?)?;
    columns.push(column(alloc, "balance", Kind::Int, true)?)?;
    columns.push(column(alloc, "note", Kind::Text, false)?)?;
    let mut key = Items::new(alloc);
    key.push(0)?;
    let mut tables = Items::new(alloc);
    tables.push(Table {
        name: Text::from_str(alloc, "account")?,
        columns,
        key,
        indexes: Items::new(alloc),
    })?;
    Ok(Catalog { tables })
}

// The balance, and a number added to it.
fn sum(alloc: Global, number: i64) -> Result<Expression, NoMemory> {
    let mut rest = Items::new(alloc);
    rest.push(Step {
        by: Operator::Add,
        of: Expression::Literal(Value::Int(number)),
    })?;
    let first = Boxed::new(alloc, Expression::Place(1))?;
    Ok(Expression::Chain { first, rest })
}

fn is_id(number: i64) -> Condition {
    Condition::Test {
        left: Side::Place(0),
        by: Comparison::Equal,
        right: Side::Literal(Value::Int(number)),
    }
}

/// A statement over the account table.
#[derive(Clone, Copy)]
enum Case {
    /// SELECT id, balance + number.
    Select(i64),
    /// INSERT of these rows.
    Insert(&'static [&'static str]),
    /// UPDATE SET balance = balance + number, WHERE id is this one.
    Update(i64, Option<i64>),
    /// DELETE WHERE id = number.
    Delete(i64),
}

fn query(alloc: Global, number: i64) -> Result<Query, NoMemory>
    ensures { IfOk result (λ query. (catalog : Catalog) → length catalog.tables ≡ 1 → AllByRecursion (λ join. HasTable catalog join.table) query.from) }
{
    let mut from = Items::new(alloc);
    from.push(Join { table: 0, on: None })?;
    let mut outputs = Items::new(alloc);
    outputs.push(Output::Expression(Expression::Place(0)))?;
    outputs.push(Output::Expression(sum(alloc, number)?))?;
    Ok(Query {
        from,
        filter: None,
        group: Items::new(alloc),
        outputs,
        sort: Items::new(alloc),
        limit: None,
    })
}

fn update(alloc: Global, number: i64, id: Option<i64>) -> Result<Edit, NoMemory>
    ensures { IfOk result (λ edit. number_of edit ≡ 0) }
{
    let mut sets = Items::new(alloc);
    sets.push(SetColumn {
        column: 1,
        value: sum(alloc, number)?,
    })?;
    Ok(Edit::Update {
        table: 0,
        sets,
        filter: id.map(|id| is_id(id)),
    })
}

// The answer of the case where these rows were read.
fn answer(alloc: Global, case: Case, texts: &[&str], own: &mut Buffer) -> Result<Answer, NoMemory> {
    let catalog = catalog(alloc)?;
    let read = rows(alloc, texts)?;
    match case {
        Case::Select(number) => {
            let query = query(alloc, number)?;
            let mut tables = Items::new(alloc);
            tables.push(read)?;
            answer_query(alloc, &catalog, &query, tables, own)
        }
        Case::Insert(texts) => {
            let rows = rows(alloc, texts)?;
            let edit = Edit::Insert { table: 0, rows };
            answer_change(alloc, &catalog, &edit, read, own)
        }
        Case::Update(number, id) => {
            let edit = update(alloc, number, id)?;
            answer_change(alloc, &catalog, &edit, read, own)
        }
        Case::Delete(number) => {
            let filter = Some(is_id(number));
            let edit = Edit::Delete { table: 0, filter };
            answer_change(alloc, &catalog, &edit, read, own)
        }
    }
}

// A buffer of this many deletions in another table.
fn deletions(alloc: Global, count: u16) -> Result<Buffer, NoMemory> {
    let mut buffer = Buffer::new(alloc);
    for number in 0..count {
        let [high, low] = number.to_be_bytes();
        let key = Bytes::from_slice(alloc, &[4, 1, high, low])?;
        buffer.put(Write { key, row: None })?;
    }
    Ok(buffer)
}

static ALL: [&str; 3] = ["4 40 NULL", "1 100 NULL", "2 200 NULL"];

#[test]
fn own_writes_are_laid_over_what_was_read(rt: HostRuntime) -> Result<(), Fail> {
    let alloc = rt.alloc();
    let mut own = deletions(alloc, 1)?;
    let cases: [(Case, &'static [&'static str], &'static str); 13] = [
        (Case::Update(7, Some(1)), &["1 100 NULL"], "Changed(1)"),
        (Case::Delete(2), &["2 200 NULL"], "Changed(1)"),
        (Case::Insert(&["3 5 NULL"]), &[], "Changed(1)"),
        (
            Case::Select(0),
            &ALL,
            "Rows(Items { items: [Items { items: [Int(1), Int(107)] }, Items { items: [Int(3), Int(5)] }, Items { items: [Int(4), Int(40)] }] })",
        ),
        (Case::Update(1, None), &ALL, "Changed(3)"),
        (Case::Update(1, Some(1)), &["1 100 NULL"], "Changed(1)"),
        (
            Case::Select(0),
            &["1 100 NULL"],
            "Rows(Items { items: [Items { items: [Int(1), Int(109)] }, Items { items: [Int(3), Int(6)] }, Items { items: [Int(4), Int(41)] }] })",
        ),
        (Case::Insert(&["2 1 NULL", "3 1 NULL"]), &[], "Duplicate"),
        (Case::Insert(&["5 NULL NULL"]), &[], "Null"),
        (Case::Insert(&["5 1 LONG"]), &[], "Long"),
        (Case::Update(i64::MAX, None), &ALL, "Overflow"),
        (Case::Select(i64::MAX), &ALL, "Overflow"),
        (Case::Delete(2), &["2 200 NULL"], "Changed(0)"),
    ];
    for (case, texts, wanted) in &cases {
        let told = answer(alloc, *case, texts, &mut own)?;
        let text = format!(in alloc; "{told:?}")?;
        assert_eq!(rt; text.as_str(), *wanted);
    }
    assert_eq!(rt; own.len(), 5);
    Ok(())
}

#[test]
fn a_full_transaction_writes_no_more(rt: HostRuntime) -> Result<(), Fail> {
    let alloc = rt.alloc();
    let mut own = deletions(alloc, 4096)?;
    let told = answer(alloc, Case::Insert(&["1 1 NULL"]), &[], &mut own)?;
    let text = format!(in alloc; "{told:?}")?;
    assert_eq!(rt; text.as_str(), "Many");
    assert_eq!(rt; own.len(), 4096);
    Ok(())
}

#[test]
fn answers_are_copied(rt: HostRuntime) -> Result<(), Fail> {
    let copy = copy_answer(&Answer::Rows(rows(rt.alloc(), &["1 2", "NULL 3"])?))?;
    assert!(rt; matches!(&copy, Answer::Rows(rows) if rows.len() == 2));
    assert!(rt; !is_refusal(&copy));
    assert!(rt; is_refusal(&Answer::Many));
    Ok(())
}
