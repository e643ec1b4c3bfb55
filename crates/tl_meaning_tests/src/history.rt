use crate::fixtures::{column, row, rows, test};
use std::alloc::Global;
use std::test::Fail;
use tl_algebra::{Edit, Expression, Join, Output, Query, SetColumn};
use tl_base::{Items, NoMemory, NodeId, Settings, Text, Tid};
use tl_isolation::{Answer, Bound, Ending, Entry, Said};
use tl_schema::{Catalog, OpeningRow, Setup, Table};
use tl_si::{CheckFault, check, keep_keys};
use tl_values::{Comparison, Value};

/// What is told of a statement.
#[derive(Clone, Copy)]
enum Told {
    Begun,
    Changed(u32),
    /// One row, with one value.
    Value(&'static str),
    Duplicate,
    Conflict(Tid),
    Committed,
    Recovered(u8),
}

/// A statement on the accounts.
#[derive(Clone, Copy)]
enum Statement {
    Begin,
    Recover(u8),
    /// `SELECT balance FROM account WHERE id = ..`
    Read(i64),
    /// `UPDATE account SET balance = .. WHERE id = ..`
    Update(i64, i64),
    /// `INSERT INTO account VALUES ..`
    Insert(&'static str),
}

/// An entry. A statement is answered at once, or when its transaction is committed.
#[derive(Clone, Copy)]
enum Line {
    Asked(u8),
    /// The node, the transaction, and how many commits it sees.
    Began(u8, Tid, u32),
    Now(u8, Statement, Told),
    Later(u8, Statement, Told),
    Tried(Tid),
    Clash(Tid, Tid),
    Committed(Tid),
    Undone(Tid),
    Answered(u8, Told),
    Vanished(u8),
}

/// The node of this number, and the first where there is none.
fn node(number: u8) -> NodeId {
    match NodeId::new(u64::from(number)) {
        Some(node) => node,
        None => NodeId::new(1).unwrap(),
    }
}

fn account(alloc: Global) -> Result<Table, NoMemory> {
    let mut columns = Items::new(alloc);
    columns.push(column(alloc, "id")?)?;
    columns.push(column(alloc, "balance")?)?;
    Ok(Table {
        name: Text::from_str(alloc, "account")?,
        columns,
        key: Items::from_slice(alloc, &[0])?,
        indexes: Items::new(alloc),
    })
}

fn opening_row(alloc: Global, text: &str) -> Result<OpeningRow, NoMemory> {
    Ok(OpeningRow {
        table: 0,
        row: row(alloc, text)?,
    })
}

/// `CREATE TABLE account (id INT PRIMARY KEY, balance INT NOT NULL)`, with the rows (1, 100) and (2, 100).
fn setup(alloc: Global) -> Result<Setup, NoMemory> {
    let mut tables = Items::new(alloc);
    tables.push(account(alloc)?)?;
    let mut rows = Items::new(alloc);
    rows.push(opening_row(alloc, "1 100")?)?;
    rows.push(opening_row(alloc, "2 100")?)?;
    Ok(Setup {
        catalog: Catalog { tables },
        rows,
        settings: Settings {
            shards: 1,
            managers: 1,
            fan: 4,
            budget: 1000,
            threads: false,
        },
    })
}

fn read(alloc: Global, id: i64) -> Result<Query, NoMemory> {
    let mut from = Items::new(alloc);
    from.push(Join { table: 0, on: None })?;
    let mut outputs = Items::new(alloc);
    outputs.push(Output::Expression(Expression::Place(1)))?;
    Ok(Query {
        from,
        filter: Some(test(0, Comparison::Equal, id)),
        group: Items::new(alloc),
        outputs,
        sort: Items::new(alloc),
        limit: None,
    })
}

fn update(alloc: Global, id: i64, balance: i64) -> Result<Edit, NoMemory> {
    let mut sets = Items::new(alloc);
    sets.push(SetColumn {
        column: 1,
        value: Expression::Literal(Value::Int(balance)),
    })?;
    Ok(Edit::Update {
        table: 0,
        sets,
        filter: Some(test(0, Comparison::Equal, id)),
    })
}

fn insert(alloc: Global, text: &str) -> Result<Edit, NoMemory> {
    Ok(Edit::Insert {
        table: 0,
        rows: rows(alloc, &[text])?,
    })
}

fn bound(alloc: Global, statement: Statement) -> Result<Bound, NoMemory> {
    Ok(match statement {
        Statement::Begin => Bound::Begin,
        Statement::Recover(gone) => Bound::Recover { node: node(gone) },
        Statement::Read(id) => Bound::Select {
            query: read(alloc, id)?,
        },
        Statement::Update(id, balance) => Bound::Change {
            edit: update(alloc, id, balance)?,
        },
        Statement::Insert(text) => Bound::Change {
            edit: insert(alloc, text)?,
        },
    })
}

fn answer(alloc: Global, told: Told) -> Result<Answer, NoMemory> {
    Ok(match told {
        Told::Begun => Answer::Begun,
        Told::Changed(count) => Answer::Changed(count),
        Told::Value(text) => Answer::Rows(rows(alloc, &[text])?),
        Told::Duplicate => Answer::Duplicate,
        Told::Conflict(rival) => Answer::Conflict(rival),
        Told::Committed => Answer::Committed,
        Told::Recovered(gone) => Answer::Recovered(node(gone)),
    })
}

fn said(
    alloc: Global,
    at: u8,
    statement: Statement,
    told: Told,
    answered: bool,
) -> Result<Entry, NoMemory> {
    Ok(Entry::Said {
        node: node(at),
        bound: bound(alloc, statement)?,
        said: Said {
            statement: 1,
            answer: answer(alloc, told)?,
            answered,
        },
    })
}

fn entry(alloc: Global, line: Line) -> Result<Entry, NoMemory> {
    Ok(match line {
        Line::Asked(at) => Entry::Asked { node: node(at) },
        Line::Began(at, tid, first) => Entry::Began {
            node: node(at),
            tid,
            first,
        },
        Line::Now(at, statement, told) => said(alloc, at, statement, told, true)?,
        Line::Later(at, statement, told) => said(alloc, at, statement, told, false)?,
        Line::Tried(tid) => Entry::Tried { tid },
        Line::Clash(tid, rival) => Entry::Clash { tid, rival, at: 0 },
        Line::Committed(tid) => Entry::Committed { tid },
        Line::Undone(tid) => Entry::Undone { tid },
        Line::Answered(at, told) => Entry::Answered {
            node: node(at),
            statement: 1,
            answer: answer(alloc, told)?,
        },
        Line::Vanished(at) => Entry::Vanished {
            node: node(at),
            ending: Ending::Vanished,
        },
    })
}

/// Where the entries break the machine, if they do. There are less than a thousand.
fn fault_of(alloc: Global, first: &[Line], rest: &[Line]) -> Result<Option<u32>, NoMemory> {
    let setup = setup(alloc)?;
    let mut entries = Items::new(alloc);
    for line in first.iter().chain(rest) {
        entries.push(entry(alloc, *line)?)?;
    }
    if entries.len() > 1000 || !keep_keys(&setup.catalog, entries.as_slice()) {
        return Ok(Some(1000));
    }
    match check(alloc, &setup, entries.as_slice()) {
        Ok(_) => Ok(None),
        Err(CheckFault::FirstFault { at }) => Ok(Some(at)),
        Err(CheckFault::NoMemory) => Err(NoMemory),
    }
}

/// The first of these lists that, behind the first lines, breaks elsewhere than is said.
fn first_wrong(
    alloc: Global,
    first: &[Line],
    cases: &[(&[Line], Option<u32>)],
) -> Result<Option<usize>, NoMemory> {
    for (at, (rest, fault)) in cases.iter().enumerate() {
        if fault_of(alloc, first, rest)? != *fault {
            return Ok(Some(at));
        }
    }
    Ok(None)
}

const ONE_UPDATE: Line = Line::Later(1, Statement::Update(1, 90), Told::Changed(1));

#[test]
fn an_update_is_committed_once_it_was_tried(rt: HostRuntime) -> Result<(), Fail> {
    let wrong = first_wrong(
        rt.alloc(),
        &[Line::Asked(1)],
        &[
            (
                &[
                    Line::Began(1, 1, 1),
                    ONE_UPDATE,
                    Line::Tried(1),
                    Line::Committed(1),
                ],
                None,
            ),
            (
                &[Line::Began(1, 1, 1), ONE_UPDATE, Line::Committed(1)],
                Some(3),
            ),
            (
                &[
                    Line::Began(1, 1, 2),
                    ONE_UPDATE,
                    Line::Tried(1),
                    Line::Committed(1),
                ],
                Some(1),
            ),
        ],
    )?;
    assert_eq!(rt; wrong, None);
    Ok(())
}

#[test]
fn of_two_writers_of_a_record_one_commits(rt: HostRuntime) -> Result<(), Fail> {
    let wrong = first_wrong(
        rt.alloc(),
        &[
            Line::Asked(1),
            Line::Began(1, 1, 1),
            Line::Now(1, Statement::Begin, Told::Begun),
            Line::Now(1, Statement::Update(1, 90), Told::Changed(1)),
            Line::Asked(2),
            Line::Began(2, 2, 1),
            Line::Now(2, Statement::Begin, Told::Begun),
            Line::Now(2, Statement::Update(1, 105), Told::Changed(1)),
            Line::Tried(1),
            Line::Committed(1),
            Line::Answered(1, Told::Committed),
            Line::Tried(2),
        ],
        &[
            (
                &[
                    Line::Clash(2, 1),
                    Line::Undone(2),
                    Line::Answered(2, Told::Conflict(1)),
                ],
                None,
            ),
            (&[Line::Committed(2)], Some(12)),
            (&[Line::Undone(2)], Some(12)),
            (&[Line::Clash(2, 2)], Some(12)),
        ],
    )?;
    assert_eq!(rt; wrong, None);
    Ok(())
}

#[test]
fn a_transaction_sees_its_snapshot_and_its_own_writes(rt: HostRuntime) -> Result<(), Fail> {
    let wrong = first_wrong(
        rt.alloc(),
        &[
            Line::Asked(1),
            Line::Began(1, 1, 1),
            Line::Now(1, Statement::Begin, Told::Begun),
            Line::Asked(2),
            Line::Began(2, 2, 1),
            Line::Later(2, Statement::Update(1, 7), Told::Changed(1)),
            Line::Tried(2),
            Line::Committed(2),
            Line::Answered(2, Told::Changed(1)),
        ],
        &[
            (
                &[Line::Now(1, Statement::Read(1), Told::Value("100"))],
                None,
            ),
            (
                &[Line::Now(1, Statement::Read(1), Told::Value("7"))],
                Some(9),
            ),
            (
                &[Line::Now(1, Statement::Insert("1 1"), Told::Duplicate)],
                None,
            ),
            (
                &[Line::Now(1, Statement::Insert("1 1"), Told::Changed(1))],
                Some(9),
            ),
            (
                &[
                    Line::Now(1, Statement::Update(2, 0), Told::Changed(1)),
                    Line::Now(1, Statement::Read(2), Told::Value("0")),
                    Line::Tried(1),
                    Line::Committed(1),
                    Line::Answered(1, Told::Committed),
                    Line::Asked(1),
                    Line::Began(1, 3, 3),
                    Line::Later(1, Statement::Read(1), Told::Value("7")),
                ],
                None,
            ),
        ],
    )?;
    assert_eq!(rt; wrong, None);
    Ok(())
}

#[test]
fn a_lost_transaction_is_ended_before_its_node_is_recovered(rt: HostRuntime) -> Result<(), Fail> {
    let wrong = first_wrong(
        rt.alloc(),
        &[
            Line::Asked(1),
            Line::Began(1, 1, 1),
            Line::Later(1, Statement::Update(1, 7), Told::Changed(1)),
            Line::Tried(1),
            Line::Vanished(1),
        ],
        &[
            (
                &[
                    Line::Committed(1),
                    Line::Now(2, Statement::Recover(1), Told::Recovered(1)),
                    Line::Asked(2),
                    Line::Began(2, 2, 2),
                    Line::Later(2, Statement::Read(1), Told::Value("7")),
                ],
                None,
            ),
            (
                &[
                    Line::Undone(1),
                    Line::Now(2, Statement::Recover(1), Told::Recovered(1)),
                    Line::Asked(2),
                    Line::Began(2, 2, 1),
                    Line::Later(2, Statement::Read(1), Told::Value("100")),
                ],
                None,
            ),
            (
                &[Line::Now(2, Statement::Recover(1), Told::Recovered(1))],
                Some(5),
            ),
            (&[Line::Asked(1)], Some(5)),
        ],
    )?;
    assert_eq!(rt; wrong, None);
    Ok(())
}
