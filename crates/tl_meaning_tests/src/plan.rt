ghost use Rattle.std.specs.Prelude.{IfOk};
ghost use Rattle.tl_schema.specs.declared.catalog.Catalog.{Catalog as TheCatalog};
ghost use Rattle.tl_plan.specs.Plan.{NamesTables};
ghost use Rattle.tl_meaning_tests.specs.Pairs.{ArePairs};

use crate::access::{ONE, ONE_TWO, all, pair};
use crate::fixtures::{rows, test};
use std::alloc::Global;
use std::test::Fail;
use tl_algebra::{Condition, Edit, Expression, Join, Output, Query};
use tl_base::{Bytes, Duplicate, Items, NoMemory, Text};
use tl_isolation::Bound;
use tl_plan::{Plan, copy_bound, finish, make_plan};
use tl_schema::{Access, Catalog};
use tl_values::{Comparison, Row, Rows, Value};

// Tables whose key is both columns, and the first one.
fn catalog(alloc: Global) -> Result<Catalog, NoMemory>
    ensures { IfOk result ArePairs }
{
    let mut tables = Items::new(alloc);
    let first = pair(alloc, &[0, 1])?;
    let second = pair(alloc, &[0])?;
    tables.push(first)?;
    tables.push(second)?;
    Ok(Catalog { tables })
}

// The second column of both tables.
fn select(alloc: Global, filter: Option<Condition>) -> Result<Bound, NoMemory>
    ensures { IfOk result (λ bound. (catalog : TheCatalog) → ArePairs catalog → NamesTables catalog bound) }
{
    let mut from = Items::new(alloc);
    from.push(Join { table: 0, on: None })?;
    from.push(Join { table: 1, on: None })?;
    let mut outputs = Items::new(alloc);
    outputs.push(Output::Expression(Expression::Place(3)))?;
    Ok(Bound::Select {
        query: Query {
            from,
            filter,
            group: Items::new(alloc),
            outputs,
            sort: Items::new(alloc),
            limit: None,
        },
    })
}

// By the key.
fn update(alloc: Global) -> Result<Bound, NoMemory>
    ensures { IfOk result (λ bound. (catalog : TheCatalog) → ArePairs catalog → NamesTables catalog bound) }
{
    let both = [(0, Comparison::Equal, 1), (1, Comparison::Equal, 2)];
    Ok(Bound::Change {
        edit: Edit::Update {
            table: 0,
            sets: Items::new(alloc),
            filter: all(alloc, &both)?,
        },
    })
}

// Three rows: one has a NULL in its key, and the key bytes of another are 256.
fn insert(alloc: Global) -> Result<Bound, Fail>
    ensures { IfOk result (λ bound. (catalog : TheCatalog) → ArePairs catalog → NamesTables catalog bound) }
{
    let mut rows = rows(alloc, &["NULL 1", "1 NULL"])?;
    let mut long = Row::new(alloc);
    let letters = String::from_utf8(vec![in alloc; b'x'; 253]?)?;
    long.push(Value::Text(Text::from_string(letters)))?;
    rows.push(long)?;
    Ok(Bound::Change {
        edit: Edit::Insert { table: 1, rows },
    })
}

fn push_key(keys: &mut Bytes, access: &Access) -> Result<(), NoMemory> {
    match access {
        Access::Point { key } => keys.extend_from_slice(key.as_slice()),
        _ => Ok(()),
    }
}

fn plan_of(alloc: Global, bound: &Bound) -> Result<Plan, NoMemory>
    requires { (catalog : TheCatalog) → ArePairs catalog → NamesTables catalog bound.now }
{
    let catalog = catalog(alloc)?;
    make_plan(alloc, bound, &catalog)
}

// Whether the statement reads so many records and ranges, the records of these keys, one behind the other, among them.
fn reads(alloc: Global, bound: &Bound, count: usize, keys: &[u8]) -> Result<bool, NoMemory>
    requires { (catalog : TheCatalog) → ArePairs catalog → NamesTables catalog bound.now }
{
    let plan = plan_of(alloc, bound)?;
    let mut found = Bytes::new(alloc);
    for access in &plan.accesses {
        push_key(&mut found, access)?;
    }
    Ok(plan.accesses.len() == count && found.as_slice() == keys)
}

// A copy of the update.
fn copied(alloc: Global) -> Result<Bound, NoMemory>
    ensures { IfOk result (λ bound. (catalog : TheCatalog) → ArePairs catalog → NamesTables catalog bound) }
{
    let bound = update(alloc)?;
    copy_bound(alloc, &bound)
}

#[test]
fn a_statement_reads_what_it_names(rt: HostRuntime) -> Result<(), Fail> {
    let alloc = rt.alloc();
    let second = select(alloc, Some(test(2, Comparison::Equal, 1)))?;
    assert!(rt; reads(alloc, &Bound::Begin, 0, &[])?);
    assert!(rt; reads(alloc, &second, 2, &ONE)?);
    assert!(rt; reads(alloc, &insert(alloc)?, 1, &ONE)?);
    assert!(rt; reads(alloc, &copied(alloc)?, 1, &ONE_TWO)?);
    Ok(())
}

fn one_row_each(alloc: Global) -> Result<[Rows; 2], NoMemory> {
    let first = rows(alloc, &["1 2"])?;
    let second = first.copy()?;
    Ok([first, second])
}

// How many rows the statement has over tables of one row.
fn printed(alloc: Global, bound: &Bound) -> Result<usize, Fail>
    requires { (catalog : TheCatalog) → ArePairs catalog → NamesTables catalog bound.now }
{
    let plan = plan_of(alloc, bound)?;
    let tables = one_row_each(alloc)?;
    Ok(finish(alloc, &plan, &tables)?.len())
}

#[test]
fn only_a_select_has_rows(rt: HostRuntime) -> Result<(), Fail> {
    let alloc = rt.alloc();
    assert_eq!(rt; printed(alloc, &select(alloc, None)?)?, 1);
    assert_eq!(rt; printed(alloc, &Bound::Begin)?, 0);
    Ok(())
}
