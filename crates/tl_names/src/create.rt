//! Tables and indexes that are defined.

ghost use Rattle.std.specs.Prelude.{◌≡◌, ◌≤◌, ◌<◌, ◌++◌, ◌∷◌, [], true, false, length, map, position, slice_get, slice_set, IfOk, OnOk, OnErr, MatchOption};
ghost use Rattle.tl_scope.specs.Change.{is_in_key};
ghost use Rattle.tl_scope.specs.Scope.{same};
ghost use Rattle.tl_scope.specs.Statement.{statement_faults};
ghost use Rattle.tl_names.specs.Bind.{IsWithin, is_create};
ghost use Rattle.tl_names.specs.Define.{Defines, at_table, column_made, columns_made, defined, form_place, index_defined, index_made, key_places, place_in, primary_from, table_made, with_index};

use crate::error::{BindError, refusal};
use std::alloc::Global;
use tl_base::{Duplicate, Items, NoMemory, Text};
use tl_grammar::{ColumnForm, Name, Statement};
use tl_schema::{Catalog, Column, Index, Table};
use tl_scope::{column_place, statement_fault};

/// Adds the table or index of a CREATE, or changes nothing where it has a fault.
pub fn define(alloc: Global, catalog: &mut Catalog, statement: &Statement) -> Result<(), BindError>
    requires within { IsWithin catalog.old }
    requires statement { is_create statement.now ≡ true }
    ensures { Defines result (statement_faults catalog.old statement.now) catalog.old catalog.new (defined catalog.old statement.now) }
{
    match statement_fault(alloc, catalog, statement)? {
        Some(fault) => Err(refusal(fault)),
        None => Ok(add(alloc, catalog, statement)?),
    }
}

fn add(alloc: Global, catalog: &mut Catalog, statement: &Statement) -> Result<(), NoMemory>
    requires within { IsWithin catalog.old }
    requires faults { statement_faults catalog.old statement.now ≡ [] }
    ensures ok { OnOk result (catalog.new ≡ defined catalog.old statement.now) }
    ensures err { OnErr result (catalog.new ≡ catalog.old) }
{
    match statement {
        Statement::CreateTable { name, columns, key } => {
            let table = table_made(alloc, name, columns.as_slice(), key)?;
            catalog.tables.push(table)
        }
        Statement::CreateIndex {
            name,
            table,
            columns,
        } => match table_place(catalog, &table.text) {
            Some(number) => add_index(alloc, catalog, number, name, columns.as_slice()),
            None => Ok(()),
        },
        Statement::Insert { .. }
        | Statement::Update { .. }
        | Statement::Delete { .. }
        | Statement::Select { .. }
        | Statement::Begin
        | Statement::Commit
        | Statement::Rollback
        | Statement::Recover { .. } => Ok(()),
    }
}

fn table_place(catalog: &Catalog, name: &Text) -> Option<usize>
    ensures value { result ≡ position (λ t. same t.name name.now) catalog.now.tables }
    ensures within { MatchOption result (Unit {0}) (λ n. n < length catalog.now.tables) }
{
    catalog
        .tables
        .as_slice()
        .iter()
        .position(|table| table.name == *name)
}

fn table_made(
    alloc: Global,
    name: &Name,
    columns: &[ColumnForm],
    key: &Option<Items<Name>>,
) -> Result<Table, NoMemory>
    requires { length columns.now ≤ 256 }
    ensures { IfOk result (λ table. table ≡ table_made name.now columns.now key.now) }
{
    let key = key_places(alloc, columns, key)?;
    let columns = columns_made(alloc, key.as_slice(), columns)?;
    Ok(Table {
        name: name.text.copy()?,
        columns,
        key,
        indexes: Items::new(alloc),
    })
}

fn key_places(
    alloc: Global,
    columns: &[ColumnForm],
    key: &Option<Items<Name>>,
) -> Result<Items<u8>, NoMemory>
    requires { length columns.now ≤ 256 }
    ensures { IfOk result (λ places. places ≡ key_places columns.now key.now) }
{
    match key {
        Some(names) => form_places(alloc, columns, names),
        None => primary_places(alloc, columns),
    }
}

fn primary_places(alloc: Global, columns: &[ColumnForm]) -> Result<Items<u8>, NoMemory>
    requires { length columns.now ≤ 256 }
    ensures { IfOk result (λ places. places ≡ primary_from 0 columns.now) }
{
    let mut places = Items::new(alloc);
    for (at, column) in columns.iter().enumerate() {
        if column.primary {
            places.push(at as u8)?;
        }
    }
    Ok(places)
}

fn form_places(
    alloc: Global,
    columns: &[ColumnForm],
    names: &Items<Name>,
) -> Result<Items<u8>, NoMemory>
    requires { length columns.now ≤ 256 }
    ensures { IfOk result (λ places. places ≡ map (form_place columns.now) names.now) }
{
    let mut places = Items::new(alloc);
    for name in names.as_slice() {
        places.push(form_place(columns, name))?;
    }
    Ok(places)
}

fn form_place(columns: &[ColumnForm], name: &Name) -> u8
    requires { length columns.now ≤ 256 }
    ensures { result ≡ form_place columns.now name.now }
{
    match place_of_form(columns, name) {
        Some(place) => place as u8,
        None => 0,
    }
}

fn place_of_form(columns: &[ColumnForm], name: &Name) -> Option<usize>
    ensures { result ≡ position (λ c. same c.name.text name.now.text) columns.now }
{
    columns
        .iter()
        .position(|column| column.name.text == name.text)
}

fn columns_made(
    alloc: Global,
    key: &[u8],
    columns: &[ColumnForm],
) -> Result<Items<Column>, NoMemory>
    ensures { IfOk result (λ made. made ≡ columns_made key.now 0 columns.now) }
{
    let mut made = Items::new(alloc);
    for (at, column) in columns.iter().enumerate() {
        made.push(column_made(key, at, column)?)?;
    }
    Ok(made)
}

fn column_made(key: &[u8], at: usize, column: &ColumnForm) -> Result<Column, NoMemory>
    ensures { IfOk result (λ made. made ≡ column_made key.now at column.now) }
{
    let name = column.name.text.copy()?;
    let in_key = is_in_key(key, at);
    Ok(Column {
        name,
        kind: column.kind,
        not_null: column.not_null || in_key,
    })
}

fn is_in_key(key: &[u8], place: usize) -> bool
    ensures { result ≡ is_in_key key.now place }
{
    key.iter().any(|k| usize::from(*k) == place)
}

fn add_index(
    alloc: Global,
    catalog: &mut Catalog,
    number: usize,
    name: &Name,
    columns: &[Name],
) -> Result<(), NoMemory>
    requires within { IsWithin catalog.old }
    requires number { number < length catalog.old.tables }
    ensures ok { OnOk result (catalog.new ≡ at_table catalog.old name.now columns.now number (slice_get catalog.old.tables number)) }
    ensures err { OnErr result (catalog.new ≡ catalog.old) }
{
    let made = match catalog.tables.get(number) {
        Some(table) => with_index(alloc, table, name, columns)?,
        None => return Ok(()),
    };
    catalog.tables.set(number, made);
    Ok(())
}

fn with_index(
    alloc: Global,
    table: &Table,
    name: &Name,
    columns: &[Name],
) -> Result<Table, NoMemory>
    requires { length table.now.columns ≤ 256 }
    ensures { IfOk result (λ made. made ≡ with_index table.now (index_made table.now.columns name.now columns.now)) }
{
    let index = index_made(alloc, table.columns.as_slice(), name, columns)?;
    let mut made = table.copy()?;
    made.indexes.push(index)?;
    Ok(made)
}

fn index_made(
    alloc: Global,
    columns: &[Column],
    name: &Name,
    names: &[Name],
) -> Result<Index, NoMemory>
    requires { length columns.now ≤ 256 }
    ensures { IfOk result (λ index. index ≡ index_made columns.now name.now names.now) }
{
    let mut places = Items::new(alloc);
    for name in names {
        places.push(place_in(columns, name))?;
    }
    Ok(Index {
        name: name.text.copy()?,
        columns: places,
    })
}

fn place_in(columns: &[Column], name: &Name) -> u8
    requires { length columns.now ≤ 256 }
    ensures { result ≡ place_in columns.now name.now }
{
    match column_place(columns, &name.text) {
        Some(place) => place as u8,
        None => 0,
    }
}
