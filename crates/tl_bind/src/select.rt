//! A SELECT by places.

ghost use Rattle.std.specs.Prelude.{◌≡◌, ◌≤◌, ◌<◌, ◌+◌, [], ◌∷◌, ◌++◌, length, map, take, position, IfOk, OnOk};
ghost use Rattle.std.specs.List.{AllByRecursion};
ghost use Rattle.tl_values.specs.Key.{AreValues};
ghost use Rattle.tl_scope.specs.Scope.{same, scope_of};
ghost use Rattle.tl_bind.specs.Condition.{bound_filter, filter_values};
ghost use Rattle.tl_bind.specs.Place.{columns_in, place_of};
ghost use Rattle.tl_bind.specs.Select.{by_of, columns_from, item_output, joins_from, number_or_zero, output_of, outputs_of, printed_place, query_of, sort_of, table_number};
ghost use Rattle.tl_bind.specs.Values.{FormHasValues, ItemHasValues, ItemsHaveValues, JoinHasValues};

use crate::condition::bound_filter;
use crate::expression::bound_expression;
use crate::place::{place_of, width};
use std::alloc::Global;
use tl_algebra::{Expression, Join, Output, Query, Sort, SortBy};
use tl_base::{Items, NoMemory, Text};
use tl_grammar::{ColumnName, Cond, FromItem, OrderBy, OrderItem, SelectForm, SelectItem};
use tl_schema::Catalog;
use tl_scope::{Scope, push_item, scope_of};

/// A SELECT without faults, by places.
pub fn query_of(
    alloc: Global,
    catalog: &Catalog,
    items: &Option<Items<SelectItem>>,
    from: &[FromItem],
    filter: &Option<Cond>,
    group: &[ColumnName],
    order: &[OrderItem],
    limit: Option<u64>,
) -> Result<Query, NoMemory>
    requires tables { length catalog.now.tables ≤ 256 }
    requires columns { length (columns_in (scope_of catalog.now from.now)) ≤ 256 }
    ensures same { IfOk result (λ query. query ≡ query_of catalog.now items.now from.now filter.now group.now order.now limit) }
    ensures items { OnOk result (ItemsHaveValues items.now) }
    ensures joins { OnOk result (AllByRecursion JoinHasValues from.now) }
    ensures filter { OnOk result (AreValues (filter_values filter.now)) }
{
    let joins = joins_of(alloc, catalog, from)?;
    let scope = scope_of(alloc, catalog, from)?;
    let filter = bound_filter(alloc, &scope, filter)?;
    let group = group_of(alloc, &scope, group)?;
    let outputs = outputs_of(alloc, &scope, items)?;
    let sort = sorts_of(alloc, &scope, order)?;
    Ok(Query {
        from: joins,
        filter,
        group,
        outputs,
        sort,
        limit,
    })
}

fn joins_of(alloc: Global, catalog: &Catalog, from: &[FromItem]) -> Result<Items<Join>, NoMemory>
    requires tables { length catalog.now.tables ≤ 256 }
    requires columns { length (columns_in (scope_of catalog.now from.now)) ≤ 256 }
    ensures same { IfOk result (λ joins. joins ≡ joins_from catalog.now (scope_of catalog.now from.now) 0 from.now) }
    ensures values { OnOk result (AllByRecursion JoinHasValues from.now) }
{
    let mut scope = Scope::new(alloc);
    let mut joins = Items::new(alloc);
    for item in from {
        push_item(&mut scope, catalog, item)?;
        joins.push(join_of(alloc, catalog, &scope, item)?)?;
    }
    Ok(joins)
}

fn join_of(
    alloc: Global,
    catalog: &Catalog,
    scope: &Scope<'_>,
    item: &FromItem,
) -> Result<Join, NoMemory>
    requires tables { length catalog.now.tables ≤ 256 }
    requires columns { length (columns_in scope.now) ≤ 256 }
    ensures same { IfOk result (λ join. join ≡ record { table = table_number catalog.now item.now.table.text; on = bound_filter scope.now item.now.on }) }
    ensures values { OnOk result (JoinHasValues item.now) }
{
    let on = bound_filter(alloc, scope, &item.on)?;
    Ok(Join {
        table: table_number(catalog, &item.table.text),
        on,
    })
}

/// The number of the table of this name. One that isn't there is a fault.
pub fn table_number(catalog: &Catalog, name: &Text) -> u8
    requires { length catalog.now.tables ≤ 256 }
    ensures { result ≡ table_number catalog.now name.now }
{
    match table_place(catalog, name) {
        Some(number) => number as u8,
        None => 0,
    }
}

fn table_place(catalog: &Catalog, name: &Text) -> Option<usize>
    ensures { result ≡ position (λ t. same t.name name.now) catalog.now.tables }
{
    catalog
        .tables
        .as_slice()
        .iter()
        .position(|table| table.name == *name)
}

fn group_of(alloc: Global, scope: &Scope<'_>, group: &[ColumnName]) -> Result<Items<u8>, NoMemory>
    requires { length (columns_in scope.now) ≤ 256 }
    ensures { IfOk result (λ places. places ≡ map (place_of scope.now) group.now) }
{
    let mut places = Items::new(alloc);
    for name in group {
        places.push(place_of(scope, name))?;
    }
    Ok(places)
}

fn outputs_of(
    alloc: Global,
    scope: &Scope<'_>,
    items: &Option<Items<SelectItem>>,
) -> Result<Items<Output>, NoMemory>
    requires { length (columns_in scope.now) ≤ 256 }
    ensures same { IfOk result (λ outputs. outputs ≡ outputs_of scope.now items.now) }
    ensures values { OnOk result (ItemsHaveValues items.now) }
{
    match items {
        Some(items) => item_outputs(alloc, scope, items),
        None => all_columns(alloc, width(scope)),
    }
}

fn item_outputs(
    alloc: Global,
    scope: &Scope<'_>,
    items: &Items<SelectItem>,
) -> Result<Items<Output>, NoMemory>
    requires { length (columns_in scope.now) ≤ 256 }
    ensures same { IfOk result (λ outputs. outputs ≡ map (item_output scope.now) items.now) }
    ensures values { OnOk result (AllByRecursion ItemHasValues items.now) }
{
    let mut outputs = Items::new(alloc);
    for item in items.as_slice() {
        outputs.push(output_of(alloc, scope, &item.form)?)?;
    }
    Ok(outputs)
}

fn output_of(alloc: Global, scope: &Scope<'_>, form: &SelectForm) -> Result<Output, NoMemory>
    requires { length (columns_in scope.now) ≤ 256 }
    ensures same { IfOk result (λ output. output ≡ output_of scope.now form.now) }
    ensures values { OnOk result (FormHasValues form.now) }
{
    match form {
        SelectForm::Expr(expression) => Ok(Output::Expression(bound_expression(
            alloc, scope, expression,
        )?)),
        SelectForm::CountRows => Ok(Output::CountRows),
        SelectForm::Count(name) => Ok(Output::Count(place_of(scope, name))),
        SelectForm::Sum(name) => Ok(Output::Sum(place_of(scope, name))),
        SelectForm::Min(name) => Ok(Output::Least(place_of(scope, name))),
        SelectForm::Max(name) => Ok(Output::Greatest(place_of(scope, name))),
    }
}

fn all_columns(alloc: Global, count: usize) -> Result<Items<Output>, NoMemory>
    requires { count ≤ 256 }
    ensures { IfOk result (λ outputs. outputs ≡ columns_from 0 count) }
{
    let mut outputs = Items::new(alloc);
    for place in 0..count {
        outputs.push(Output::Expression(Expression::Place(place as u8)))?;
    }
    Ok(outputs)
}

fn sorts_of(alloc: Global, scope: &Scope<'_>, order: &[OrderItem]) -> Result<Items<Sort>, NoMemory>
    requires { length (columns_in scope.now) ≤ 256 }
    ensures { IfOk result (λ sorts. sorts ≡ map (sort_of scope.now) order.now) }
{
    let mut sorts = Items::new(alloc);
    for item in order {
        sorts.push(Sort {
            by: by_of(scope, &item.by),
            descending: item.descending,
        })?;
    }
    Ok(sorts)
}

fn by_of(scope: &Scope<'_>, by: &OrderBy) -> SortBy
    requires { length (columns_in scope.now) ≤ 256 }
    ensures { result ≡ by_of scope.now by.now }
{
    match by {
        OrderBy::Column(name) => SortBy::Place(place_of(scope, name)),
        OrderBy::Number { number, .. } => SortBy::Printed(printed_place(*number)),
    }
}

fn printed_place(number: u64) -> u32
    ensures { result ≡ printed_place number }
{
    let place = number.saturating_sub(1);
    if place > 4_294_967_295 {
        return 4_294_967_295;
    }
    place as u32
}
