//! What the lines stand for.

ghost use Rattle.std.specs.Prelude.{◌≡◌, [], ◌∷◌, IfOk, Some, None};
ghost use Rattle.tl_values.specs.declared.value.Value.TheVariants as value;
ghost use Rattle.tl_values.specs.declared.value.Kind.TheVariants as kind;
ghost use Rattle.tl_algebra.specs.declared.condition.Condition.TheVariants as condition;
ghost use Rattle.tl_algebra.specs.declared.edit.Edit.TheVariants as edit;
ghost use Rattle.tl_isolation.specs.declared.bound.Bound.TheVariants as bound;
ghost use Rattle.tl_script.specs.Build.{bound_of, key_is, query_of, row_of, set_other, table_of};
ghost use Rattle.tl_script.specs.Statement.{names_seen};

use crate::statement::{Statement, TableNames};
use std::alloc::Global;
use tl_algebra::{Condition, Edit, Expression, Join, Output, Query, SetColumn, Side};
use tl_base::{Items, NoMemory, NodeId, Text};
use tl_isolation::Bound;
use tl_schema::{Catalog, Column, Table};
use tl_values::{Comparison, Kind, Row, Value};

fn one<T: Drop>(alloc: Global, item: T) -> Result<Items<T>, NoMemory>
    ensures { IfOk result (λ list. list ≡ item ∷ []) }
{
    let mut list = Items::new(alloc);
    list.push(item)?;
    Ok(list)
}

fn two<T: Drop>(alloc: Global, first: T, second: T) -> Result<Items<T>, NoMemory>
    ensures { IfOk result (λ list. list ≡ first ∷ second ∷ []) }
{
    let mut list = Items::new(alloc);
    list.push(first)?;
    list.push(second)?;
    Ok(list)
}

fn int_column(alloc: Global, name: &str, not_null: bool) -> Result<Column, NoMemory>
    ensures { IfOk result (λ column. column ≡ record { name = name.now; kind = kind.Int; not_null = not_null }) }
{
    let name = Text::from_str(alloc, name)?;
    Ok(Column {
        name,
        kind: Kind::Int,
        not_null,
    })
}

/// The catalog of the one table with these names.
pub fn catalog_of(alloc: Global, names: &TableNames<'_>) -> Result<Catalog, NoMemory>
    ensures { IfOk result (λ catalog. catalog ≡ record { tables = table_of (names_seen names.now) ∷ [] }) }
{
    let key = int_column(alloc, names.key, true)?;
    let other = int_column(alloc, names.other, false)?;
    let columns = two(alloc, key, other)?;
    let name = Text::from_str(alloc, names.table)?;
    let key = one(alloc, 0)?;
    let table = Table {
        name,
        columns,
        key,
        indexes: Items::new(alloc),
    };
    let tables = one(alloc, table)?;
    Ok(Catalog { tables })
}

/// A row of two numbers.
pub fn row_of(alloc: Global, key: i64, other: i64) -> Result<Row, NoMemory>
    ensures { IfOk result (λ row. row ≡ row_of key other) }
{
    two(alloc, Value::Int(key), Value::Int(other))
}

/// The statement, bound to the table.
pub fn bound_of(alloc: Global, statement: Statement) -> Result<Bound, NoMemory>
    ensures { IfOk result (λ bound. bound ≡ bound_of statement) }
{
    match statement {
        Statement::Begin => Ok(Bound::Begin),
        Statement::Commit => Ok(Bound::Commit),
        Statement::Rollback => Ok(Bound::Rollback),
        Statement::Recover { node } => Ok(Bound::Recover { node }),
        Statement::SelectAll => select_of(alloc, None),
        Statement::Select { key } => select_of(alloc, Some(key_is(key))),
        Statement::Insert { key, other } => insert_of(alloc, key, other),
        Statement::Update { other, key } => update_of(alloc, other, key),
        Statement::Delete { key } => Ok(Bound::Change {
            edit: Edit::Delete {
                table: 0,
                filter: Some(key_is(key)),
            },
        }),
    }
}

/// The key column has this number.
fn key_is(key: i64) -> Condition
    ensures { result ≡ key_is key }
{
    Condition::Test {
        left: Side::Place(0),
        by: Comparison::Equal,
        right: Side::Literal(Value::Int(key)),
    }
}

fn select_of(alloc: Global, filter: Option<Condition>) -> Result<Bound, NoMemory>
    ensures { IfOk result (λ statement. statement ≡ bound.Select (query_of filter)) }
{
    let join = Join { table: 0, on: None };
    let from = one(alloc, join)?;
    let key = Output::Expression(Expression::Place(0));
    let other = Output::Expression(Expression::Place(1));
    let outputs = two(alloc, key, other)?;
    Ok(Bound::Select {
        query: Query {
            from,
            filter,
            group: Items::new(alloc),
            outputs,
            sort: Items::new(alloc),
            limit: None,
        },
    })
}

fn insert_of(alloc: Global, key: i64, other: i64) -> Result<Bound, NoMemory>
    ensures { IfOk result (λ statement. statement ≡ bound.Change (edit.Insert 0 (row_of key other ∷ []))) }
{
    let row = row_of(alloc, key, other)?;
    let rows = one(alloc, row)?;
    Ok(Bound::Change {
        edit: Edit::Insert { table: 0, rows },
    })
}

fn update_of(alloc: Global, other: i64, key: i64) -> Result<Bound, NoMemory>
    ensures { IfOk result (λ statement. statement ≡ bound.Change (edit.Update 0 (set_other other ∷ []) (Some (key_is key)))) }
{
    let set = SetColumn {
        column: 1,
        value: Expression::Literal(Value::Int(other)),
    };
    let sets = one(alloc, set)?;
    Ok(Bound::Change {
        edit: Edit::Update {
            table: 0,
            sets,
            filter: Some(key_is(key)),
        },
    })
}
