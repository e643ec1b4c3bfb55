//! Statements bound to a catalog.

ghost use Rattle.std.specs.Prelude.{◌≡◌, [], length, ◌≤◌, false, IfOk, IfSome, OnOk};
ghost use Rattle.std.specs.Option.{option_copied};
ghost use Rattle.tl_scope.specs.Statement.{statement_faults};
ghost use Rattle.tl_scope.specs.Scope.{scope_of, table_named};
ghost use Rattle.tl_bind.specs.Place.{columns_in};
ghost use Rattle.tl_bind.specs.Values.{HasValues};
ghost use Rattle.tl_names.specs.Bind.{Binds, IsWithin, bound_of, is_create};

use crate::error::{BindError, refusal};
use std::alloc::Global;
use tl_base::{NoMemory, Text};
use tl_bind::{delete_of, insert_of, query_of, table_number, update_of};
use tl_grammar::Statement;
use tl_isolation::Bound;
use tl_schema::{Catalog, Table};
use tl_scope::{statement_fault, table_named};

/// The statement by places, or the first of its faults. It is no CREATE.
pub fn bind(alloc: Global, catalog: &Catalog, statement: &Statement) -> Result<Bound, BindError>
    requires within { IsWithin catalog.now }
    requires statement { is_create statement.now ≡ false }
    ensures bound { Binds result (statement_faults catalog.now statement.now) (bound_of catalog.now statement.now) }
    ensures values { OnOk result (HasValues statement.now) }
{
    match statement_fault(alloc, catalog, statement)? {
        Some(fault) => Err(refusal(fault)),
        None => Ok(bound_of(alloc, catalog, statement)?),
    }
}

fn bound_of(alloc: Global, catalog: &Catalog, statement: &Statement) -> Result<Bound, NoMemory>
    requires within { IsWithin catalog.now }
    requires faults { statement_faults catalog.now statement.now ≡ [] }
    ensures same { IfOk result (λ bound. bound ≡ bound_of catalog.now statement.now) }
    ensures values { OnOk result (HasValues statement.now) }
{
    match statement {
        Statement::CreateTable { .. } | Statement::CreateIndex { .. } | Statement::Begin => {
            Ok(Bound::Begin)
        }
        Statement::Insert {
            table,
            columns,
            tuples,
        } => match few_columns(catalog, &table.text) {
            Some(found) => {
                let number = table_number(catalog, &table.text);
                let edit = insert_of(alloc, number, found, columns, tuples)?;
                Ok(Bound::Change { edit })
            }
            None => Ok(Bound::Begin),
        },
        Statement::Update {
            table,
            sets,
            filter,
        } => match few_columns(catalog, &table.text) {
            Some(found) => {
                let number = table_number(catalog, &table.text);
                let edit = update_of(alloc, number, found, sets.as_slice(), filter)?;
                Ok(Bound::Change { edit })
            }
            None => Ok(Bound::Begin),
        },
        Statement::Delete { table, filter } => match few_columns(catalog, &table.text) {
            Some(found) => {
                let number = table_number(catalog, &table.text);
                let edit = delete_of(alloc, number, found, filter)?;
                Ok(Bound::Change { edit })
            }
            None => Ok(Bound::Begin),
        },
        Statement::Select {
            items,
            from,
            filter,
            group,
            order,
            limit,
        } => {
            let query = query_of(
                alloc,
                catalog,
                items,
                from.as_slice(),
                filter,
                group.as_slice(),
                order.as_slice(),
                *limit,
            )?;
            Ok(Bound::Select { query })
        }
        Statement::Commit => Ok(Bound::Commit),
        Statement::Rollback => Ok(Bound::Rollback),
        Statement::Recover { node } => Ok(Bound::Recover { node: *node }),
    }
}

// The table of this name, which has few columns.
#[tactic(auto, using(crate::proofs::Within::found_few))]
fn few_columns<'a>(catalog: &'a Catalog, name: &Text) -> Option<&'a Table>
    requires { IsWithin catalog.now }
    ensures found { option_copied result ≡ table_named catalog.now name.now }
    ensures few { IfSome result (λ table. length table.now.columns ≤ 256) }
{
    table_named(catalog, name)
}
