//! The first fault of a statement.

ghost use Rattle.std.specs.Prelude.{◌≡◌, IfOk};
ghost use Rattle.tl_scope.specs.Fault.{least};
ghost use Rattle.tl_scope.specs.Statement.{statement_faults};

use crate::change::{delete_fault, insert_fault, update_fault};
use crate::create::{create_index_fault, create_table_fault};
use crate::fault::BindFault;
use crate::scope::{table_named, unknown_table};
use crate::select::select_fault;
use std::alloc::Global;
use tl_base::NoMemory;
use tl_grammar::Statement;
use tl_schema::Catalog;

/// The first fault of a statement, where it has any.
pub fn statement_fault(
    alloc: Global,
    catalog: &Catalog,
    statement: &Statement,
) -> Result<Option<BindFault>, NoMemory>
    ensures { IfOk result (λ fault. fault ≡ least (statement_faults catalog.now statement.now)) }
{
    match statement {
        Statement::CreateTable { name, columns, key } => {
            create_table_fault(alloc, catalog, name, columns.as_slice(), key)
        }
        Statement::CreateIndex {
            name,
            table,
            columns,
        } => create_index_fault(alloc, catalog, name, table, columns.as_slice()),
        Statement::Insert {
            table,
            columns,
            tuples,
        } => match table_named(catalog, &table.text) {
            Some(found) => insert_fault(alloc, found.columns.as_slice(), columns, tuples),
            None => Ok(Some(unknown_table(table))),
        },
        Statement::Update {
            table,
            sets,
            filter,
        } => match table_named(catalog, &table.text) {
            Some(found) => update_fault(alloc, found, sets.as_slice(), filter),
            None => Ok(Some(unknown_table(table))),
        },
        Statement::Delete { table, filter } => match table_named(catalog, &table.text) {
            Some(found) => delete_fault(alloc, found, filter),
            None => Ok(Some(unknown_table(table))),
        },
        Statement::Select {
            items,
            from,
            filter,
            group,
            order,
            ..
        } => select_fault(
            alloc,
            catalog,
            items,
            from.as_slice(),
            filter,
            group.as_slice(),
            order.as_slice(),
        ),
        Statement::Begin | Statement::Commit | Statement::Rollback | Statement::Recover { .. } => {
            Ok(None)
        }
    }
}
