use crate::fixtures::{expect_rows, row, rows, value};
use std::alloc::Global;
use std::process::Abort;
use std::test::Fail;
use tl_algebra::{
    Condition, Edit, Expression, Join, Operator, Output, Query, SetColumn, Side, Sort, SortBy,
    Step, ValueFault, lets_through, rows_of, select_has_one_answer, truth_of, value_of,
};
use tl_base::{Boxed, Items, NoMemory};
use tl_values::{Comparison, Rows, Truth, Value};

fn table(alloc: Global, texts: &[&str]) -> Result<Items<Rows>, NoMemory> {
    let mut tables = Items::new(alloc);
    tables.push(rows(alloc, texts)?)?;
    Ok(tables)
}

// a (id, g), b (id, a_id, n) and c (id, b_id).
fn three_tables(alloc: Global) -> Result<Items<Rows>, NoMemory> {
    let mut tables = table(alloc, &["1 x", "2 NULL", "3 NULL"])?;
    tables.push(rows(alloc, &SECOND)?)?;
    tables.push(rows(alloc, &["1 1", "2 2", "3 3", "4 4", "5 5"])?)?;
    Ok(tables)
}

static SECOND: [&str; 5] = [
    "1 1 9223372036854775807",
    "2 1 1",
    "3 2 NULL",
    "4 NULL 5",
    "5 3 4",
];

fn side_test(left: Side, by: Comparison, right: Side) -> Condition {
    Condition::Test { left, by, right }
}

// A test of the first place.
fn first(alloc: Global, by: Comparison, word: &str) -> Result<Condition, NoMemory> {
    let literal = Side::Literal(value(alloc, word)?);
    Ok(side_test(Side::Place(0), by, literal))
}

fn output(kind: &str, place: u8) -> Output {
    match kind {
        "rows" => Output::CountRows,
        "count" => Output::Count(place),
        "sum" => Output::Sum(place),
        "least" => Output::Least(place),
        "greatest" => Output::Greatest(place),
        _ => Output::Expression(Expression::Place(place)),
    }
}

// A SELECT of these outputs from one table.
fn query(alloc: Global, kinds: &[(&str, u8)]) -> Result<Query, NoMemory> {
    let mut outputs = Items::new(alloc);
    for (kind, place) in kinds {
        outputs.push(output(kind, *place))?;
    }
    let mut from = Items::new(alloc);
    from.push(Join { table: 0, on: None })?;
    Ok(Query {
        from,
        filter: None,
        group: Items::new(alloc),
        outputs,
        sort: Items::new(alloc),
        limit: None,
    })
}

fn join(table: u8, left: u8, right: u8) -> Join {
    let on = side_test(Side::Place(left), Comparison::Equal, Side::Place(right));
    Join {
        table,
        on: Some(on),
    }
}

// FROM a JOIN b ON b.a_id = a.id JOIN c ON c.b_id = b.id GROUP BY a.g.
fn joined(alloc: Global, kinds: &[(&str, u8)]) -> Result<Query, NoMemory> {
    let mut query = query(alloc, kinds)?;
    query.from.push(join(1, 3, 0))?;
    query.from.push(join(2, 6, 2))?;
    query.group.push(1)?;
    Ok(query)
}

// The query prints these rows.
fn expect_printed(
    rt: &impl Abort,
    alloc: Global,
    query: &Query,
    tables: &Items<Rows>,
    texts: &[&str],
) -> Result<(), Fail> {
    let found = rows_of(alloc, query, tables.as_slice())?;
    Ok(expect_rows(rt, alloc, found.as_slice(), texts)?)
}

fn expect_overflow(rt: &impl Abort, alloc: Global, query: &Query, tables: &Items<Rows>) {
    let found = rows_of(alloc, query, tables.as_slice());
    assert!(rt; matches!(found, Err(ValueFault::Overflow)));
}

#[test]
fn groups_of_three_joined_tables(rt: HostRuntime) -> Result<(), Fail> {
    let alloc = rt.alloc();
    let tables = three_tables(alloc)?;
    let sums = joined(alloc, &[("value", 1), ("sum", 4)])?;
    expect_overflow(&rt, alloc, &sums, &tables);
    let kinds = [("value", 1), ("rows", 0), ("count", 4), ("least", 4)];
    let counts = joined(alloc, &kinds)?.copy(alloc)?;
    expect_printed(&rt, alloc, &counts, &tables, &["NULL 2 1 4", "x 2 2 1"])
}

#[test]
fn aggregates_over_none(rt: HostRuntime) -> Result<(), Fail> {
    let alloc = rt.alloc();
    let tables = table(alloc, &SECOND)?;
    let kinds = [
        ("sum", 2),
        ("count", 2),
        ("rows", 0),
        ("greatest", 2),
        ("value", 0),
    ];
    let mut none = query(alloc, &kinds)?;
    none.filter = Some(first(alloc, Comparison::Greater, "9")?);
    expect_printed(&rt, alloc, &none, &tables, &["NULL 0 0 NULL NULL"])?;
    none.group.push(0)?;
    expect_printed(&rt, alloc, &none, &tables, &[])
}

#[test]
fn rows_are_sorted_and_then_limited(rt: HostRuntime) -> Result<(), Fail> {
    let alloc = rt.alloc();
    let tables = table(alloc, &["2 1 a", "1 1 b", "NULL 2 c", "3 NULL d"])?;
    let mut sorted = query(alloc, &[("value", 0), ("value", 2)])?;
    let mut sort = Sort {
        by: SortBy::Place(1),
        descending: true,
    };
    sorted.sort.push(sort)?;
    let all = ["NULL c", "1 b", "2 a", "3 d"];
    expect_printed(&rt, alloc, &sorted, &tables, &all)?;
    sorted.limit = Some(2);
    expect_printed(&rt, alloc, &sorted, &tables, &all[..2])?;
    sort.by = SortBy::Printed(1);
    sorted.sort.set(0, sort);
    expect_printed(&rt, alloc, &sorted, &tables, &["3 d", "NULL c"])
}

// A chain of so many steps of one kind from the first place on.
fn chain(alloc: Global, steps: u32, by: Operator, number: i64) -> Result<Expression, NoMemory> {
    let mut rest = Items::new(alloc);
    for _ in 0..steps {
        let of = Expression::Literal(Value::Int(number));
        rest.push(Step { by, of })?;
    }
    let first = Boxed::new(alloc, Expression::Place(0))?;
    Ok(Expression::Chain { first, rest })
}

#[test]
fn overflow_comes_before_limit(rt: HostRuntime) -> Result<(), Fail> {
    let alloc = rt.alloc();
    let tables = table(alloc, &["1", "2", "NULL"])?;
    let mut over = query(alloc, &[])?;
    let sum = chain(alloc, 1, Operator::Add, i64::MAX - 1)?;
    over.outputs.push(Output::Expression(sum))?;
    over.limit = Some(0);
    expect_overflow(&rt, alloc, &over, &tables);
    over.filter = Some(first(alloc, Comparison::Less, "2")?);
    expect_printed(&rt, alloc, &over, &tables, &[])?;
    over.limit = None;
    expect_printed(&rt, alloc, &over, &tables, &["9223372036854775807"])
}

#[test]
fn long_chains_are_computed_and_copied(rt: HostRuntime) -> Result<(), Fail> {
    let alloc = rt.alloc();
    let row = row(alloc, "2")?;
    let long = chain(alloc, 100_000, Operator::Subtract, -3)?.copy(alloc)?;
    assert!(rt; matches!(value_of(&long, &row)?, Value::Int(300_002)));
    Ok(())
}

fn not(alloc: Global, word: &str) -> Result<Condition, NoMemory> {
    let equal = first(alloc, Comparison::Equal, word)?;
    Ok(Condition::Not(Boxed::new(alloc, equal)?))
}

// With a false one before it.
fn or(alloc: Global, word: &str) -> Result<Condition, NoMemory> {
    let mut parts = Items::new(alloc);
    let of = Side::Place(1);
    parts.push(Condition::IsNull { of, negated: true })?;
    parts.push(first(alloc, Comparison::Equal, word)?)?;
    Ok(Condition::Or(parts))
}

// With an unknown one behind it.
fn and(alloc: Global, word: &str) -> Result<Condition, NoMemory> {
    let mut parts = Items::new(alloc);
    parts.push(first(alloc, Comparison::Equal, word)?)?;
    parts.push(side_test(Side::Place(1), Comparison::Equal, Side::Place(9)))?;
    Ok(Condition::And(parts))
}

#[test]
fn conditions_have_three_truths(rt: HostRuntime) -> Result<(), Fail> {
    let alloc = rt.alloc();
    let row = row(alloc, "1 NULL")?;
    let cases = [
        ("1", Truth::False, Truth::True, Truth::Unknown),
        ("2", Truth::True, Truth::False, Truth::False),
        ("NULL", Truth::Unknown, Truth::Unknown, Truth::Unknown),
    ];
    for (word, negated, either, both) in cases {
        assert_eq!(rt; truth_of(&not(alloc, word)?, &row), negated);
        assert_eq!(rt; truth_of(&or(alloc, word)?, &row), either);
        assert_eq!(rt; truth_of(&and(alloc, word)?, &row), both);
    }
    Ok(())
}

#[test]
fn what_is_not_written_lets_all_through(rt: HostRuntime) -> Result<(), Fail> {
    let alloc = rt.alloc();
    let row = row(alloc, "1 NULL")?;
    assert!(rt; lets_through(&None, &row));
    let unknown = Some(first(alloc, Comparison::Less, "NULL")?.copy(alloc)?);
    assert!(rt; !lets_through(&unknown, &row));
    Ok(())
}

fn update(alloc: Global) -> Result<Edit, NoMemory> {
    let mut sets = Items::new(alloc);
    let value = chain(alloc, 1, Operator::Multiply, 3)?;
    sets.push(SetColumn { column: 1, value })?;
    Ok(Edit::Update {
        table: 0,
        sets,
        filter: Some(first(alloc, Comparison::NotEqual, "1")?),
    })
}

#[test]
fn changes_are_copied(rt: HostRuntime) -> Result<(), Fail> {
    select_has_one_answer();
    assert!(rt;
        matches!(
            update(rt.alloc())?.copy(rt.alloc())?,
            Edit::Update { table: 0, .. }
        )
    );
    Ok(())
}
