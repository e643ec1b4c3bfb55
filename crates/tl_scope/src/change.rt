//! INSERT, UPDATE and DELETE.

ghost use Rattle.std.specs.Prelude.{◌≡◌, flat_map, map, IfOk};
ghost use Rattle.tl_scope.specs.Change.{delete_faults, insert_faults, is_in_key, kind_at, literal_faults, named_faults, set_faults, set_name, set_place_faults, target, tuple_faults, update_faults, width_of};
ghost use Rattle.tl_scope.specs.Fault.{each_from, least};
ghost use Rattle.tl_scope.specs.Named.{repeated_faults};
ghost use Rattle.tl_scope.specs.Scope.{scope_in};

use crate::condition::{differ, filter_fault, value_kind};
use crate::expression::{expression_fault, expression_kind};
use crate::fault::{BindFault, BindKind, earliest, fault_if};
use crate::names::{Repeats, columns_fault};
use crate::scope::{Scope, column_place, scope_in};
use std::alloc::Global;
use tl_base::{Items, NoMemory};
use tl_grammar::{Cond, Literal, Name, SetItem, Tuple};
use tl_schema::{Column, Table};
use tl_values::Kind;

/// The first fault of an INSERT into a table of these columns.
#[tactic(auto, using(crate::proofs::Faults::least_append))]
pub fn insert_fault(
    alloc: Global,
    columns: &[Column],
    named: &Option<Items<Name>>,
    tuples: &Items<Tuple>,
) -> Result<Option<BindFault>, NoMemory>
    ensures { IfOk result (λ fault. fault ≡ least (insert_faults columns.now named.now tuples.now)) }
{
    let fault = named_fault(alloc, columns, named)?;
    Ok(earliest(fault, tuples_fault(columns, named, tuples)))
}

fn named_fault(
    alloc: Global,
    columns: &[Column],
    named: &Option<Items<Name>>,
) -> Result<Option<BindFault>, NoMemory>
    ensures { IfOk result (λ fault. fault ≡ least (named_faults columns.now named.now)) }
{
    match named {
        Some(names) => columns_fault(alloc, columns, names.as_slice()),
        None => Ok(None),
    }
}

#[tactic(auto, using(crate::proofs::Faults::earliest_none, crate::proofs::Faults::loop_each))]
fn tuples_fault(
    columns: &[Column],
    named: &Option<Items<Name>>,
    tuples: &Items<Tuple>,
) -> Option<BindFault>
    ensures { result ≡ least (flat_map (tuple_faults columns.now named.now) tuples.now) }
{
    let mut fault = None;
    for tuple in tuples.as_slice() {
        fault = earliest(fault, tuple_fault(columns, named, tuple));
    }
    fault
}

#[tactic(auto, using(crate::proofs::Faults::least_append))]
fn tuple_fault(columns: &[Column], named: &Option<Items<Name>>, tuple: &Tuple) -> Option<BindFault>
    ensures { result ≡ least (tuple_faults columns.now named.now tuple.now) }
{
    let wrong = tuple.values.len() != width_of(columns, named);
    let length = fault_if(wrong, tuple.at, BindKind::WrongType);
    earliest(
        length,
        literals_fault(columns, named, tuple.values.as_slice()),
    )
}

#[tactic(auto, using(crate::proofs::Faults::earliest_none, crate::proofs::Faults::loop_indexed))]
fn literals_fault(
    columns: &[Column],
    named: &Option<Items<Name>>,
    values: &[Literal],
) -> Option<BindFault>
    ensures { result ≡ least (each_from (literal_faults columns.now named.now) 0 values.now) }
{
    let mut fault = None;
    for (at, literal) in values.iter().enumerate() {
        fault = earliest(fault, literal_fault(columns, named, at, literal));
    }
    fault
}

fn literal_fault(
    columns: &[Column],
    named: &Option<Items<Name>>,
    at: usize,
    literal: &Literal,
) -> Option<BindFault>
    ensures { result ≡ least (literal_faults columns.now named.now at literal.now) }
{
    let wanted = kind_at(columns, target(columns, named, at));
    let differ = differ(value_kind(&literal.value), wanted);
    fault_if(differ, literal.at, BindKind::WrongType)
}

fn width_of(columns: &[Column], named: &Option<Items<Name>>) -> usize
    ensures { result ≡ width_of columns.now named.now }
{
    match named {
        Some(names) => names.len(),
        None => columns.len(),
    }
}

// The place of the column for which the literals at this place of a tuple are.
fn target(columns: &[Column], named: &Option<Items<Name>>, at: usize) -> Option<usize>
    ensures { result ≡ target columns.now named.now at }
{
    match named {
        Some(names) => match names.get(at) {
            Some(name) => column_place(columns, &name.text),
            None => None,
        },
        None => Some(at),
    }
}

fn kind_at(columns: &[Column], at: Option<usize>) -> Option<Kind>
    ensures { result ≡ kind_at columns.now at }
{
    match at {
        Some(at) => match columns.get(at) {
            Some(column) => Some(column.kind),
            None => None,
        },
        None => None,
    }
}

/// The first fault of an UPDATE of the table.
#[tactic(auto, using(crate::proofs::Faults::least_append))]
pub fn update_fault(
    alloc: Global,
    table: &Table,
    sets: &[SetItem],
    filter: &Option<Cond>,
) -> Result<Option<BindFault>, NoMemory>
    ensures { IfOk result (λ fault. fault ≡ least (update_faults table.now sets.now filter.now)) }
{
    let repeated = repeated_fault(alloc, sets)?;
    let scope = scope_in(alloc, table)?;
    let fault = earliest(sets_fault(table, &scope, sets), repeated);
    Ok(earliest(fault, filter_fault(&scope, filter)))
}

#[tactic(auto, using(crate::proofs::Faults::earliest_none, crate::proofs::Repeated::loop_named))]
fn repeated_fault(alloc: Global, sets: &[SetItem]) -> Result<Option<BindFault>, NoMemory>
    ensures { IfOk result (λ fault. fault ≡ least (repeated_faults (map set_name sets.now))) }
{
    let mut repeats = Repeats::new(alloc);
    for set in sets {
        repeats.take(&set.column)?;
    }
    Ok(repeats.fault())
}

#[tactic(auto, using(crate::proofs::Faults::earliest_none, crate::proofs::Faults::loop_each))]
fn sets_fault(table: &Table, scope: &Scope<'_>, sets: &[SetItem]) -> Option<BindFault>
    requires { scope.now ≡ scope_in table.now }
    ensures { result ≡ least (flat_map (set_faults table.now) sets.now) }
{
    let mut fault = None;
    for set in sets {
        fault = earliest(fault, set_fault(table, scope, set));
    }
    fault
}

#[tactic(auto, using(crate::proofs::Faults::least_append))]
fn set_fault(table: &Table, scope: &Scope<'_>, set: &SetItem) -> Option<BindFault>
    requires { scope.now ≡ scope_in table.now }
    ensures { result ≡ least (set_faults table.now set.now) }
{
    let columns = table.columns.as_slice();
    let place = column_place(columns, &set.column.text);
    let wrong = differ(expression_kind(scope, &set.value), kind_at(columns, place));
    let fault = earliest(
        set_place_fault(table, set.column.at, place),
        fault_if(wrong, set.column.at, BindKind::WrongType),
    );
    earliest(fault, expression_fault(scope, &set.value))
}

// Of a column that is set.
fn set_place_fault(table: &Table, at: u32, place: Option<usize>) -> Option<BindFault>
    ensures { result ≡ least (set_place_faults table.now at place) }
{
    match place {
        Some(place) => fault_if(
            is_in_key(table.key.as_slice(), place),
            at,
            BindKind::KeyChange,
        ),
        None => Some(BindFault {
            at,
            kind: BindKind::UnknownColumn,
        }),
    }
}

fn is_in_key(key: &[u8], place: usize) -> bool
    ensures { result ≡ is_in_key key.now place }
{
    key.iter().any(|k| usize::from(*k) == place)
}

/// The first fault of a DELETE from the table.
pub fn delete_fault(
    alloc: Global,
    table: &Table,
    filter: &Option<Cond>,
) -> Result<Option<BindFault>, NoMemory>
    ensures { IfOk result (λ fault. fault ≡ least (delete_faults table.now filter.now)) }
{
    let scope = scope_in(alloc, table)?;
    Ok(filter_fault(&scope, filter))
}
