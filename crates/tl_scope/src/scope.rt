//! The FROM items of a statement as names see them.

ghost use Rattle.std.specs.Prelude.{◌≡◌, [], ◌∷◌, ◌++◌, Option, Some, None, position, slice_get, find, length, map, IfOk, OnOk};
ghost use Rattle.std.specs.Option.{option_copied};
ghost use Rattle.tl_scope.specs.Fault.{least};
ghost use Rattle.tl_scope.specs.Scope.{also, called, column_at, column_faults, column_found, column_place, columns_named, in_source, in_source_called, in_sources, kind_of, same, scope_in, scope_of, source_of, table_named, unknown_table};

use crate::fault::{BindFault, BindKind};
use crate::found::{Found, Spot};
use std::alloc::Global;
use std::marker::Model;
use tl_base::{Items, NoMemory, Text};
use tl_grammar::{ColumnName, FromItem, Name};
use tl_schema::{Catalog, Column, Table};
use tl_values::Kind;

/// A FROM item: what it is called, and the columns of its table.
#[derive(Drop)]
pub struct Source<'a> {
    name: &'a Text,
    columns: &'a [Column],
}

impl<'a> Model for Source<'a> {
    ghost use Rattle.tl_scope.specs.Scope as scope;

    ghost Value = { scope.Source };

    ghost view = { λ s. record { name = s.name.now; columns = s.columns.now } };
}

impl<'a> Source<'a> {
    fn is_called(&self, name: &Text) -> bool
        ensures { result ≡ same self.now.name name.now }
    {
        *self.name == *name
    }

    // The column of this name; the item has this place among all.
    fn find(&self, name: &Text, item: usize) -> Found
        ensures { result ≡ in_source name.now item self.now }
    {
        match column_place(self.columns, name) {
            Some(column) => Found::One(Spot {
                item,
                column,
                kind: self.columns[column].kind,
            }),
            None => Found::NoColumn,
        }
    }

    pub fn columns(&self) -> &'a [Column]
        ensures { result.now ≡ self.now.columns }
    {
        self.columns
    }
}

/// The FROM items that names may stand for.
#[derive(Drop)]
pub struct Scope<'a> {
    sources: Items<Source<'a>>,
}

impl<'a> Model for Scope<'a> {
    ghost use Rattle.std.specs.Prelude.{List};
    ghost use Rattle.tl_scope.specs.Scope as scope;

    ghost Value = { List scope.Source };

    ghost view = { λ s. s.sources };
}

impl<'a> Scope<'a> {
    pub fn new(alloc: Global) -> Scope<'a>
        ensures { result ≡ [] }
    {
        Scope {
            sources: Items::new(alloc),
        }
    }

    pub fn push(&mut self, name: &'a Text, columns: &'a [Column]) -> Result<(), NoMemory>
        ensures { OnOk result (self.new ≡ self.old ++ record { name = name.now; columns = columns.now } ∷ []) }
    {
        self.sources.push(Source { name, columns })
    }

    pub fn sources(&self) -> &[Source<'a>]
        ensures { result.now ≡ self.now }
    {
        self.sources.as_slice()
    }

    /// What the name of a column stands for.
    pub fn find(&self, name: &ColumnName) -> Found
        ensures { result ≡ column_found self.now name.now }
    {
        match &name.table {
            Some(table) => self.in_source_called(&table.text, &name.column.text),
            None => self.in_sources(&name.column.text),
        }
    }

    fn in_source_called(&self, table: &Text, name: &Text) -> Found
        ensures { result ≡ in_source_called table.now name.now 0 self.now }
    {
        for (i, source) in self.sources.as_slice().iter().enumerate() {
            if source.is_called(table) {
                return source.find(name, i);
            }
        }
        Found::NoTable
    }

    #[tactic(auto, using(crate::proofs::Founds::also_assoc, crate::proofs::Founds::also_none))]
    fn in_sources(&self, name: &Text) -> Found
        ensures { result ≡ in_sources name.now 0 self.now }
    {
        let mut found = Found::NoColumn;
        for (i, source) in self.sources.as_slice().iter().enumerate() {
            found = also(found, source.find(name, i));
        }
        found
    }
}

fn also(a: Found, b: Found) -> Found
    ensures { result ≡ also a b }
{
    match (a, b) {
        (Found::NoTable, _) | (_, Found::NoTable) => Found::NoTable,
        (Found::NoColumn, found) | (found, Found::NoColumn) => found,
        (Found::One(_) | Found::Several, Found::One(_) | Found::Several) => Found::Several,
    }
}

/// The place of the column of this name.
pub fn column_place(columns: &[Column], name: &Text) -> Option<usize>
    ensures { result ≡ column_place name.now columns.now }
{
    columns.iter().position(|column| column.name == *name)
}

/// The table of this name.
pub fn table_named<'a>(catalog: &'a Catalog, name: &Text) -> Option<&'a Table>
    ensures { option_copied result ≡ table_named catalog.now name.now }
{
    catalog
        .tables
        .as_slice()
        .iter()
        .find(|table| table.name == *name)
}

/// The name under which the statement knows the item.
pub fn called(item: &FromItem) -> &Name
    ensures { result.now ≡ called item.now }
{
    match &item.called {
        Some(name) => name,
        None => &item.table,
    }
}

/// The columns of the table of this name; none, where there is no such table.
pub fn columns_named<'a>(catalog: &'a Catalog, name: &Text) -> &'a [Column]
    ensures { result.now ≡ columns_named catalog.now name.now }
{
    match table_named(catalog, name) {
        Some(table) => table.columns.as_slice(),
        None => &[],
    }
}

/// The FROM items as names see them.
pub fn scope_of<'a>(
    alloc: Global,
    catalog: &'a Catalog,
    from: &'a [FromItem],
) -> Result<Scope<'a>, NoMemory>
    ensures { IfOk result (λ scope. scope ≡ scope_of catalog.now from.now) }
{
    let mut scope = Scope::new(alloc);
    for item in from {
        push_item(&mut scope, catalog, item)?;
    }
    Ok(scope)
}

pub fn push_item<'a>(
    scope: &mut Scope<'a>,
    catalog: &'a Catalog,
    item: &'a FromItem,
) -> Result<(), NoMemory>
    ensures { OnOk result (scope.new ≡ scope.old ++ source_of catalog.now item.now ∷ []) }
{
    scope.push(&called(item).text, columns_named(catalog, &item.table.text))
}

/// The scope of UPDATE and DELETE: their table, under its own name.
pub fn scope_in(alloc: Global, table: &Table) -> Result<Scope<'_>, NoMemory>
    ensures { IfOk result (λ scope. scope ≡ scope_in table.now) }
{
    let mut scope = Scope::new(alloc);
    scope.push(&table.name, table.columns.as_slice())?;
    Ok(scope)
}

/// The fault of a column's name: it stands for no column, or for several.
pub fn column_fault(scope: &Scope<'_>, name: &ColumnName) -> Option<BindFault>
    ensures { result ≡ least (column_faults scope.now name.now) }
{
    let kind = match scope.find(name) {
        Found::NoTable => return Some(BindFault {
            at: column_at(name),
            kind: BindKind::UnknownTable,
        }),
        Found::NoColumn => BindKind::UnknownColumn,
        Found::Several => BindKind::Ambiguous,
        Found::One(_) => return None,
    };
    Some(BindFault {
        at: name.column.at,
        kind,
    })
}

/// The place of the first byte.
pub fn column_at(name: &ColumnName) -> u32
    ensures { result ≡ column_at name.now }
{
    match &name.table {
        Some(table) => table.at,
        None => name.column.at,
    }
}

/// The type of what was found. What isn't one column has every type.
pub fn kind_of(found: Found) -> Option<Kind>
    ensures { result ≡ kind_of found }
{
    match found {
        Found::One(spot) => Some(spot.kind),
        Found::NoTable | Found::NoColumn | Found::Several => None,
    }
}

/// The fault of the name of a table that isn't there.
pub fn unknown_table(name: &Name) -> BindFault
    ensures { result ≡ unknown_table name.now }
{
    BindFault {
        at: name.at,
        kind: BindKind::UnknownTable,
    }
}
