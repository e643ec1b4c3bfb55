//! SELECT.

ghost use Rattle.std.specs.Prelude.{◌≡◌, ◌<◌, ◌≤◌, ◌+◌, ◌==◌, ◌||◌, take, flat_map, length, map, nat_lt, IfOk, ℕ};
ghost use Rattle.std.specs.List.{list_all, list_any};
ghost use Rattle.tl_scope.specs.declared.fault.BindKind.TheVariants as kind;
ghost use Rattle.tl_scope.specs.Fault.{each_from, fault_if, least};
ghost use Rattle.tl_scope.specs.Named.{is_none, repeated_faults};
ghost use Rattle.tl_scope.specs.Scope.{called, column_faults, column_found, scope_of, table_named};
ghost use Rattle.tl_scope.specs.Select.{all_are_grouped, by_faults, columns_are_grouped, from_faults, grouping, has_aggregate, is_aggregate, is_grouped, is_grouped_by, is_over, is_same, item_faults, items_faults, operand_is_over, order_faults, printed, select_faults, shown_faults, star_faults, step_over, sum_column_faults, width};

use crate::condition::{differ, filter_fault};
use crate::expression::expression_fault;
use crate::fault::{BindFault, BindKind, earliest, fault_if};
use crate::found::{Found, Spot};
use crate::names::Repeats;
use crate::scope::{
    Scope, called, column_at, column_fault, kind_of, push_item, scope_of, table_named,
};
use std::alloc::Global;
use tl_base::{Items, NoMemory, Text};
use tl_grammar::{
    ColumnName, Cond, Expr, FromItem, Operand, OrderBy, OrderItem, SelectForm, SelectItem, Step,
};
use tl_schema::{Catalog, Column};
use tl_values::Kind;

/// The first fault of a SELECT.
#[tactic(auto, using(crate::proofs::Faults::least_append))]
pub fn select_fault(
    alloc: Global,
    catalog: &Catalog,
    items: &Option<Items<SelectItem>>,
    from: &[FromItem],
    filter: &Option<Cond>,
    group: &[ColumnName],
    order: &[OrderItem],
) -> Result<Option<BindFault>, NoMemory>
    ensures { IfOk result (λ fault. fault ≡ least (select_faults catalog.now items.now from.now filter.now group.now order.now)) }
{
    let fault = earliest(
        from_fault(alloc, catalog, from)?,
        repeated_fault(alloc, from)?,
    );
    let scope = scope_of(alloc, catalog, from)?;
    let shown = shown_fault(alloc, &scope, items, filter, group, order)?;
    Ok(earliest(fault, shown))
}

// The first fault of what stands before and behind the FROM items.
fn shown_fault(
    alloc: Global,
    scope: &Scope<'_>,
    items: &Option<Items<SelectItem>>,
    filter: &Option<Cond>,
    group: &[ColumnName],
    order: &[OrderItem],
) -> Result<Option<BindFault>, NoMemory>
    ensures { IfOk result (λ fault. fault ≡ least (shown_faults scope.now items.now filter.now group.now order.now)) }
{
    let columns = grouping(alloc, scope, group)?;
    Ok(fault_beside(scope, columns.as_slice(), items, filter, group, order))
}

#[tactic(auto, using(crate::proofs::Faults::least_append))]
fn fault_beside(
    scope: &Scope<'_>,
    columns: &[Found],
    items: &Option<Items<SelectItem>>,
    filter: &Option<Cond>,
    group: &[ColumnName],
    order: &[OrderItem],
) -> Option<BindFault>
    requires { columns.now ≡ grouping scope.now group.now }
    ensures { result ≡ least (shown_faults scope.now items.now filter.now group.now order.now) }
{
    let grouped = is_grouped(items, group);
    let printed = printed(scope, items);
    let fault = earliest(
        items_fault(scope, columns, group, grouped, items),
        filter_fault(scope, filter),
    );
    let fault = earliest(fault, columns_fault(scope, group));
    earliest(fault, orders_fault(scope, columns, grouped, printed, order))
}

// What GROUP BY names.
fn grouping(
    alloc: Global,
    scope: &Scope<'_>,
    group: &[ColumnName],
) -> Result<Items<Found>, NoMemory>
    ensures { IfOk result (λ columns. columns ≡ grouping scope.now group.now) }
{
    let mut columns = Items::new(alloc);
    for name in group {
        columns.push(scope.find(name))?;
    }
    Ok(columns)
}

fn items_fault(
    scope: &Scope<'_>,
    columns: &[Found],
    group: &[ColumnName],
    grouped: bool,
    items: &Option<Items<SelectItem>>,
) -> Option<BindFault>
    requires { columns.now ≡ grouping scope.now group.now }
    ensures { result ≡ least (items_faults scope.now group.now grouped items.now) }
{
    match items {
        Some(items) => each_item_fault(scope, columns, grouped, items),
        None => star_fault(scope, columns, group),
    }
}

#[tactic(auto, using(crate::proofs::Faults::earliest_none, crate::proofs::Faults::loop_each))]
fn each_item_fault(
    scope: &Scope<'_>,
    columns: &[Found],
    grouped: bool,
    items: &Items<SelectItem>,
) -> Option<BindFault>
    ensures { result ≡ least (flat_map (item_faults scope.now columns.now grouped) items.now) }
{
    let mut fault = None;
    for item in items.as_slice() {
        fault = earliest(fault, item_fault(scope, columns, grouped, item));
    }
    fault
}

#[tactic(auto, using(crate::proofs::Faults::least_append))]
fn item_fault(
    scope: &Scope<'_>,
    columns: &[Found],
    grouped: bool,
    item: &SelectItem,
) -> Option<BindFault>
    ensures { result ≡ least (item_faults scope.now columns.now grouped item.now) }
{
    match &item.form {
        SelectForm::Expr(expression) => {
            let single = grouped && !is_over(scope, columns, expression);
            earliest(
                fault_if(single, item.at, BindKind::Grouping),
                expression_fault(scope, expression),
            )
        }
        SelectForm::CountRows => None,
        SelectForm::Sum(name) => sum_fault(scope, name),
        SelectForm::Count(name) | SelectForm::Min(name) | SelectForm::Max(name) => {
            column_fault(scope, name)
        }
    }
}

#[tactic(auto, using(crate::proofs::Faults::least_append))]
fn sum_fault(scope: &Scope<'_>, name: &ColumnName) -> Option<BindFault>
    ensures { result ≡ least (sum_column_faults scope.now name.now) }
{
    let differ = differ(kind_of(scope.find(name)), Some(Kind::Int));
    let wrong = fault_if(differ, column_at(name), BindKind::WrongType);
    earliest(column_fault(scope, name), wrong)
}

fn star_fault(scope: &Scope<'_>, columns: &[Found], group: &[ColumnName]) -> Option<BindFault>
    ensures { result ≡ least (star_faults scope.now columns.now group.now) }
{
    match group {
        [] => None,
        [first, ..] => fault_if(
            !all_are_grouped(scope, columns),
            column_at(first),
            BindKind::Grouping,
        ),
    }
}

// Whether each column of all items is one of GROUP BY.
fn all_are_grouped(scope: &Scope<'_>, columns: &[Found]) -> bool
    ensures { result ≡ all_are_grouped columns.now 0 scope.now }
{
    for (i, source) in scope.sources().iter().enumerate() {
        if !columns_are_grouped(columns, i, source.columns()) {
            return false;
        }
    }
    true
}

fn columns_are_grouped(columns: &[Found], item: usize, shown: &[Column]) -> bool
    ensures { result ≡ columns_are_grouped columns.now item 0 shown.now }
{
    for (column, shown) in shown.iter().enumerate() {
        let spot = Spot {
            item,
            column,
            kind: shown.kind,
        };
        if !is_grouped_by(columns, Found::One(spot)) {
            return false;
        }
    }
    true
}

#[tactic(auto, using(crate::proofs::Faults::earliest_none, crate::proofs::Faults::loop_indexed))]
fn from_fault(
    alloc: Global,
    catalog: &Catalog,
    from: &[FromItem],
) -> Result<Option<BindFault>, NoMemory>
    ensures { IfOk result (λ fault. fault ≡ least (each_from (from_faults catalog.now (scope_of catalog.now from.now)) 0 from.now)) }
{
    let mut scope = Scope::new(alloc);
    let mut fault = None;
    for (i, item) in from.iter().enumerate() {
        push_item(&mut scope, catalog, item)?;
        fault = earliest(fault, from_item_fault(catalog, &scope, i, item));
    }
    Ok(fault)
}

#[tactic(auto, using(crate::proofs::Faults::least_append))]
fn from_item_fault(
    catalog: &Catalog,
    scope: &Scope<'_>,
    i: usize,
    item: &FromItem,
) -> Option<BindFault>
    ensures { (whole : _) → take (i + 1) whole ≡ scope.now → result ≡ least (from_faults catalog.now whole i item.now) }
{
    let unknown = table_named(catalog, &item.table.text).is_none();
    let fault = fault_if(unknown, item.table.at, BindKind::UnknownTable);
    let fault = earliest(fault, fault_if(i > 3, item.table.at, BindKind::TooMany));
    earliest(fault, filter_fault(scope, &item.on))
}

#[tactic(auto, using(crate::proofs::Faults::earliest_none))]
fn repeated_fault(alloc: Global, from: &[FromItem]) -> Result<Option<BindFault>, NoMemory>
    ensures { IfOk result (λ fault. fault ≡ least (repeated_faults (map called from.now))) }
{
    let mut repeats = Repeats::new(alloc);
    for item in from {
        repeats.take(called(item))?;
    }
    Ok(repeats.fault())
}

#[tactic(auto, using(crate::proofs::Faults::earliest_none, crate::proofs::Faults::loop_each))]
fn columns_fault(scope: &Scope<'_>, group: &[ColumnName]) -> Option<BindFault>
    ensures { result ≡ least (flat_map (column_faults scope.now) group.now) }
{
    let mut fault = None;
    for name in group {
        fault = earliest(fault, column_fault(scope, name));
    }
    fault
}

#[tactic(auto, using(crate::proofs::Faults::earliest_none, crate::proofs::Faults::loop_each))]
fn orders_fault(
    scope: &Scope<'_>,
    columns: &[Found],
    grouped: bool,
    printed: u128,
    order: &[OrderItem],
) -> Option<BindFault>
    ensures { result ≡ least (flat_map (order_faults scope.now columns.now grouped printed) order.now) }
{
    let mut fault = None;
    for item in order {
        fault = earliest(
            fault,
            order_fault(scope, columns, grouped, printed, &item.by),
        );
    }
    fault
}

#[tactic(auto, using(crate::proofs::Faults::least_append))]
fn order_fault(
    scope: &Scope<'_>,
    columns: &[Found],
    grouped: bool,
    printed: u128,
    by: &OrderBy,
) -> Option<BindFault>
    ensures { result ≡ least (by_faults scope.now columns.now grouped printed by.now) }
{
    match by {
        OrderBy::Column(name) => {
            let single = grouped && !is_grouped_by(columns, scope.find(name));
            earliest(
                column_fault(scope, name),
                fault_if(single, column_at(name), BindKind::Grouping),
            )
        }
        OrderBy::Number { at, number } => fault_if(
            is_no_column(*number, printed),
            *at,
            BindKind::UnknownColumn,
        ),
    }
}

fn is_no_column(number: u64, printed: u128) -> bool
    ensures { result ≡ (number == 0 || nat_lt printed number) }
{
    number == 0 || u128::from(number) > printed
}

// How many columns are printed.
fn printed(scope: &Scope<'_>, items: &Option<Items<SelectItem>>) -> u128
    ensures { result ≡ printed scope.now items.now }
{
    match items {
        Some(items) => items.len() as u128,
        None => width(scope),
    }
}

fn width(scope: &Scope<'_>) -> u128
    ensures { result ≡ width scope.now }
{
    let mut width = 0;
    for source in scope.sources() {
        width += source.columns().len() as u128;
    }
    width
}

// Whether there are groups: by GROUP BY, or by an aggregate.
fn is_grouped(items: &Option<Items<SelectItem>>, group: &[ColumnName]) -> bool
    ensures { result ≡ is_grouped items.now group.now }
{
    match group {
        [] => has_aggregate(items),
        [_, ..] => true,
    }
}

fn has_aggregate(items: &Option<Items<SelectItem>>) -> bool
    ensures { result ≡ has_aggregate items.now }
{
    match items {
        Some(items) => is_any_aggregate(items.as_slice()),
        None => false,
    }
}

fn is_any_aggregate(items: &[SelectItem]) -> bool
    ensures { result ≡ list_any (λ item. is_aggregate item.form) items.now }
{
    items.iter().any(is_aggregate)
}

fn is_aggregate(item: &SelectItem) -> bool
    ensures { result ≡ is_aggregate item.now.form }
{
    !matches!(item.form, SelectForm::Expr(_))
}

// Whether it is one of the columns of GROUP BY.
fn is_grouped_by(columns: &[Found], found: Found) -> bool
    ensures { result ≡ is_grouped_by columns.now found }
{
    columns.iter().any(|column| is_same(*column, found))
}

fn is_same(a: Found, b: Found) -> bool
    ensures { result ≡ is_same a b }
{
    match (a, b) {
        (Found::One(a), Found::One(b)) => a.item == b.item && a.column == b.column,
        (_, _) => false,
    }
}

// Whether the expression is over columns of GROUP BY alone.
#[cycle(over)]
#[tactic(auto, unfolding(crate::specs::Select::is_over))]
fn is_over(scope: &Scope<'_>, columns: &[Found], expression: &Expr) -> bool
    ensures { result ≡ is_over scope.now columns.now expression.now }
{
    match expression {
        Expr::Operand(operand) => operand_is_over(scope, columns, operand),
        Expr::Chain { first, rest } => {
            let over = is_over(scope, columns, first.get());
            over && steps_are_over(scope, columns, rest)
        }
    }
}

#[cycle(over)]
fn steps_are_over(scope: &Scope<'_>, columns: &[Found], steps: &Items<Step<Expr>>) -> bool
    ensures { result ≡ list_all (λ step. step.of) (map (step_over scope.now columns.now) steps.now) }
{
    for step in steps.as_slice() {
        if !is_over(scope, columns, &step.of) {
            return false;
        }
    }
    true
}

fn operand_is_over(scope: &Scope<'_>, columns: &[Found], operand: &Operand) -> bool
    ensures { result ≡ operand_is_over scope.now columns.now operand.now }
{
    match operand {
        Operand::Column(name) => is_grouped_by(columns, scope.find(name)),
        Operand::Literal(_) => true,
    }
}
