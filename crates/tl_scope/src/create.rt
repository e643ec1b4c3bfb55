//! CREATE TABLE and CREATE INDEX.

ghost use Rattle.std.specs.Prelude.{◌≡◌, ◌≤◌, length, filter, flat_map, map, IfOk};
ghost use Rattle.std.specs.List.{list_any};
ghost use Rattle.tl_scope.specs.Create.{column_form_faults, create_index_faults, create_table_faults, form_name, form_text, has_index, has_one_key, is_index, is_primary, key_faults, key_name_faults, keys_behind, new_index_faults, table_name_faults};
ghost use Rattle.tl_scope.specs.Fault.{each_from, least};
ghost use Rattle.tl_scope.specs.Named.{is_among, repeated_faults};

use crate::fault::{BindFault, BindKind, earliest, fault_if};
use crate::names::{Names, Repeats, columns_fault, repeated_fault};
use crate::scope::{table_named, unknown_table};
use std::alloc::Global;
use tl_base::{Items, NoMemory, Text};
use tl_grammar::{ColumnForm, Name};
use tl_schema::{Catalog, Table};

/// The first fault of a CREATE TABLE.
#[tactic(auto, using(crate::proofs::Faults::least_append))]
pub fn create_table_fault(
    alloc: Global,
    catalog: &Catalog,
    name: &Name,
    columns: &[ColumnForm],
    key: &Option<Items<Name>>,
) -> Result<Option<BindFault>, NoMemory>
    ensures { IfOk result (λ fault. fault ≡ least (create_table_faults catalog.now name.now columns.now key.now)) }
{
    let repeated = repeated_column_fault(alloc, columns)?;
    let key_fault = key_fault(alloc, columns, key)?;
    let no_key = fault_if(!has_one_key(columns, key), name.at, BindKind::NoKey);
    let fault = earliest(table_name_fault(catalog, name), no_key);
    let fault = earliest(fault, repeated);
    let fault = earliest(fault, column_forms_fault(columns));
    Ok(earliest(fault, key_fault))
}

#[tactic(auto, using(crate::proofs::Faults::least_append))]
fn table_name_fault(catalog: &Catalog, name: &Name) -> Option<BindFault>
    ensures { result ≡ least (table_name_faults catalog.now name.now) }
{
    let taken = table_named(catalog, &name.text).is_some();
    earliest(
        fault_if(taken, name.at, BindKind::Twice),
        fault_if(catalog.tables.len() > 63, name.at, BindKind::TooMany),
    )
}

fn has_one_key(columns: &[ColumnForm], key: &Option<Items<Name>>) -> bool
    ensures { result ≡ has_one_key columns.now key.now }
{
    match key {
        Some(_) => primary_columns(columns) == 0,
        None => primary_columns(columns) == 1,
    }
}

fn primary_columns(columns: &[ColumnForm]) -> usize
    ensures { result ≡ length (filter is_primary columns.now) }
{
    columns.iter().filter(|column| column.primary).count()
}

#[tactic(auto, using(crate::proofs::Faults::earliest_none, crate::proofs::Repeated::loop_named))]
fn repeated_column_fault(
    alloc: Global,
    columns: &[ColumnForm],
) -> Result<Option<BindFault>, NoMemory>
    ensures { IfOk result (λ fault. fault ≡ least (repeated_faults (map form_name columns.now))) }
{
    let mut repeats = Repeats::new(alloc);
    for column in columns {
        repeats.take(&column.name)?;
    }
    Ok(repeats.fault())
}

#[tactic(auto, using(crate::proofs::Faults::earliest_none, crate::proofs::Faults::loop_indexed))]
fn column_forms_fault(columns: &[ColumnForm]) -> Option<BindFault>
    ensures { result ≡ least (each_from column_form_faults 0 columns.now) }
{
    let mut fault = None;
    for (i, column) in columns.iter().enumerate() {
        fault = earliest(fault, column_form_fault(i, column));
    }
    fault
}

fn column_form_fault(i: usize, column: &ColumnForm) -> Option<BindFault>
    ensures { result ≡ least (column_form_faults i column.now) }
{
    fault_if(i > 31, column.name.at, BindKind::TooMany)
}

// Of the key behind the columns.
#[tactic(auto, using(crate::proofs::Faults::least_append))]
fn key_fault(
    alloc: Global,
    columns: &[ColumnForm],
    key: &Option<Items<Name>>,
) -> Result<Option<BindFault>, NoMemory>
    ensures { IfOk result (λ fault. fault ≡ least (key_faults columns.now key.now)) }
{
    match key {
        Some(names) => {
            let unknown = unknown_key_fault(alloc, columns, names.as_slice())?;
            let repeated = repeated_fault(alloc, names.as_slice())?;
            Ok(earliest(unknown, repeated))
        }
        None => Ok(None),
    }
}

#[tactic(auto, using(crate::proofs::Faults::earliest_none, crate::proofs::Faults::loop_each))]
fn unknown_key_fault(
    alloc: Global,
    columns: &[ColumnForm],
    names: &[Name],
) -> Result<Option<BindFault>, NoMemory>
    ensures { IfOk result (λ fault. fault ≡ least (flat_map (key_name_faults columns.now) names.now)) }
{
    let known = names_of(alloc, columns)?;
    let mut fault = None;
    for name in names {
        fault = earliest(fault, key_name_fault(&known, columns, name));
    }
    Ok(fault)
}

fn key_name_fault(known: &Names, columns: &[ColumnForm], name: &Name) -> Option<BindFault>
    requires { (text : _) → is_among known.now text ≡ is_among (map form_text columns.now) text }
    ensures { result ≡ least (key_name_faults columns.now name.now) }
{
    fault_if(
        !known.contains(&name.text),
        name.at,
        BindKind::UnknownColumn,
    )
}

// The names of the columns.
fn names_of(alloc: Global, columns: &[ColumnForm]) -> Result<Names, NoMemory>
    ensures { IfOk result (λ names. (text : _) → is_among names text ≡ is_among (map form_text columns.now) text) }
{
    let mut names = Names::new(alloc);
    for column in columns {
        names.insert(&column.name.text)?;
    }
    Ok(names)
}

/// The first fault of a CREATE INDEX.
#[tactic(auto, using(crate::proofs::Faults::least_append))]
pub fn create_index_fault(
    alloc: Global,
    catalog: &Catalog,
    name: &Name,
    table: &Name,
    columns: &[Name],
) -> Result<Option<BindFault>, NoMemory>
    ensures { IfOk result (λ fault. fault ≡ least (create_index_faults catalog.now name.now table.now columns.now)) }
{
    let twice = fault_if(is_index(catalog, &name.text), name.at, BindKind::Twice);
    let fault = match table_named(catalog, &table.text) {
        Some(table) => index_fault(alloc, table, name, columns)?,
        None => Some(unknown_table(table)),
    };
    Ok(earliest(twice, fault))
}

#[tactic(auto, using(crate::proofs::Faults::least_append))]
fn index_fault(
    alloc: Global,
    table: &Table,
    name: &Name,
    columns: &[Name],
) -> Result<Option<BindFault>, NoMemory>
    ensures { IfOk result (λ fault. fault ≡ least (new_index_faults table.now name.now columns.now)) }
{
    let fault = columns_fault(alloc, table.columns.as_slice(), columns)?;
    let many = fault_if(table.indexes.len() > 7, name.at, BindKind::TooMany);
    Ok(earliest(many, fault))
}

fn is_index(catalog: &Catalog, name: &Text) -> bool
    ensures { result ≡ is_index catalog.now name.now }
{
    catalog
        .tables
        .as_slice()
        .iter()
        .any(|table| has_index(table, name))
}

fn has_index(table: &Table, name: &Text) -> bool
    ensures { result ≡ has_index name.now table.now }
{
    table
        .indexes
        .as_slice()
        .iter()
        .any(|index| index.name == *name)
}
