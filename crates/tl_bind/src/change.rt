//! INSERT, UPDATE and DELETE by places.

ghost use Rattle.std.specs.Prelude.{◌≡◌, ◌≤◌, length, map, position, IfOk, OnOk};
ghost use Rattle.std.specs.List.{AllByRecursion};
ghost use Rattle.tl_values.specs.Key.{AreValues};
ghost use Rattle.tl_scope.specs.Scope.{column_place, scope_in};
ghost use Rattle.tl_bind.specs.Change.{delete_of, insert_of, is_place, row_of, set_of, source, update_of, value_from};
ghost use Rattle.tl_bind.specs.Condition.{filter_values};
ghost use Rattle.tl_bind.specs.Place.{columns_in};
ghost use Rattle.tl_bind.specs.Select.{number_or_zero};
ghost use Rattle.tl_bind.specs.Values.{LiteralHasValue, SetHasValues, TupleHasValues};

use crate::condition::bound_filter;
use crate::expression::bound_expression;
use std::alloc::Global;
use tl_algebra::{Edit, SetColumn};
use tl_base::{Duplicate, Items, NoMemory};
use tl_grammar::{Cond, Literal, Name, SetItem, Tuple};
use tl_schema::{Column, Table};
use tl_scope::{Scope, column_place, scope_in};
use tl_values::{Row, Rows, Value, prove_value};

/// An INSERT without faults into the table of this number, by places.
pub fn insert_of(
    alloc: Global,
    number: u8,
    table: &Table,
    named: &Option<Items<Name>>,
    tuples: &Items<Tuple>,
) -> Result<Edit, NoMemory>
    ensures same { IfOk result (λ edit. edit ≡ insert_of number table.now named.now tuples.now) }
    ensures values { OnOk result (AllByRecursion TupleHasValues tuples.now) }
{
    let rows = rows_of(alloc, table.columns.as_slice(), named, tuples)?;
    Ok(Edit::Insert {
        table: number,
        rows,
    })
}

fn rows_of(
    alloc: Global,
    columns: &[Column],
    named: &Option<Items<Name>>,
    tuples: &Items<Tuple>,
) -> Result<Rows, NoMemory>
    ensures same { IfOk result (λ rows. rows ≡ map (row_of columns.now named.now) tuples.now) }
    ensures values { OnOk result (AllByRecursion TupleHasValues tuples.now) }
{
    let mut rows = Rows::new(alloc);
    for tuple in tuples.as_slice() {
        rows.push(row_of(alloc, columns, named, tuple)?)?;
    }
    Ok(rows)
}

fn row_of(
    alloc: Global,
    columns: &[Column],
    named: &Option<Items<Name>>,
    tuple: &Tuple,
) -> Result<Row, NoMemory>
    ensures same { IfOk result (λ row. row ≡ row_of columns.now named.now tuple.now) }
    ensures values { OnOk result (TupleHasValues tuple.now) }
{
    prove_literals(tuple.values.as_slice());
    let mut row = Row::new(alloc);
    for (at, _column) in columns.iter().enumerate() {
        row.push(value_from(tuple.values.as_slice(), source(columns, named, at))?)?;
    }
    Ok(row)
}

// That the literals are values, which a proof knows only of what the code reads. It does nothing else.
fn prove_literals(literals: &[Literal])
    ensures { AllByRecursion LiteralHasValue literals.now }
{
    for literal in literals {
        prove_value(&literal.value);
    }
}

// The place in the tuples of the literals for this column.
fn source(columns: &[Column], named: &Option<Items<Name>>, at: usize) -> Option<usize>
    ensures { result ≡ source columns.now named.now at }
{
    match named {
        Some(names) => source_of(columns, names.as_slice(), at),
        None => Some(at),
    }
}

fn source_of(columns: &[Column], names: &[Name], at: usize) -> Option<usize>
    ensures { result ≡ position (λ name. is_place at (column_place name.text columns.now)) names.now }
{
    names.iter().position(|name| is_source(columns, at, name))
}

// Whether the name is that of the column at this place.
fn is_source(columns: &[Column], at: usize, name: &Name) -> bool
    ensures { result ≡ is_place at (column_place name.now.text columns.now) }
{
    is_place(at, column_place(columns, &name.text))
}

fn is_place(at: usize, place: Option<usize>) -> bool
    ensures { result ≡ is_place at place }
{
    match place {
        Some(place) => place == at,
        None => false,
    }
}

fn value_from(values: &[Literal], at: Option<usize>) -> Result<Value, NoMemory>
    ensures { IfOk result (λ value. value ≡ value_from values.now at) }
{
    match at {
        Some(at) => match values.get(at) {
            Some(literal) => literal.value.copy(),
            None => Ok(Value::Null),
        },
        None => Ok(Value::Null),
    }
}

/// An UPDATE without faults of the table of this number, by places.
pub fn update_of(
    alloc: Global,
    number: u8,
    table: &Table,
    sets: &[SetItem],
    filter: &Option<Cond>,
) -> Result<Edit, NoMemory>
    requires { length table.now.columns ≤ 256 }
    ensures same { IfOk result (λ edit. edit ≡ update_of number table.now sets.now filter.now) }
    ensures values { OnOk result (AllByRecursion SetHasValues sets.now) }
    ensures filter_values { OnOk result (AreValues (filter_values filter.now)) }
{
    let scope = scope_in(alloc, table)?;
    let sets = sets_of(alloc, &scope, table, sets)?;
    let filter = bound_filter(alloc, &scope, filter)?;
    Ok(Edit::Update {
        table: number,
        sets,
        filter,
    })
}

fn sets_of(
    alloc: Global,
    scope: &Scope<'_>,
    table: &Table,
    sets: &[SetItem],
) -> Result<Items<SetColumn>, NoMemory>
    requires scope { scope.now ≡ scope_in table.now }
    requires columns { length table.now.columns ≤ 256 }
    ensures same { IfOk result (λ bound. bound ≡ map (set_of table.now) sets.now) }
    ensures values { OnOk result (AllByRecursion SetHasValues sets.now) }
{
    let mut bound = Items::new(alloc);
    for set in sets {
        bound.push(set_of(alloc, scope, table, set)?)?;
    }
    Ok(bound)
}

fn set_of(
    alloc: Global,
    scope: &Scope<'_>,
    table: &Table,
    set: &SetItem,
) -> Result<SetColumn, NoMemory>
    requires scope { scope.now ≡ scope_in table.now }
    requires columns { length table.now.columns ≤ 256 }
    ensures same { IfOk result (λ bound. bound ≡ set_of table.now set.now) }
    ensures values { OnOk result (SetHasValues set.now) }
{
    let value = bound_expression(alloc, scope, &set.value)?;
    Ok(SetColumn {
        column: column_or_zero(table.columns.as_slice(), set),
        value,
    })
}

fn column_or_zero(columns: &[Column], set: &SetItem) -> u8
    requires { length columns.now ≤ 256 }
    ensures { result ≡ number_or_zero (column_place set.now.column.text columns.now) }
{
    match column_place(columns, &set.column.text) {
        Some(place) => place as u8,
        None => 0,
    }
}

/// A DELETE without faults from the table of this number, by places.
pub fn delete_of(
    alloc: Global,
    number: u8,
    table: &Table,
    filter: &Option<Cond>,
) -> Result<Edit, NoMemory>
    requires { length table.now.columns ≤ 256 }
    ensures same { IfOk result (λ edit. edit ≡ delete_of number table.now filter.now) }
    ensures values { OnOk result (AreValues (filter_values filter.now)) }
{
    let scope = scope_in(alloc, table)?;
    let filter = bound_filter(alloc, &scope, filter)?;
    Ok(Edit::Delete {
        table: number,
        filter,
    })
}
