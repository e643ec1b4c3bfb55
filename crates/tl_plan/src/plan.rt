//! What a statement reads and tells.

ghost use Rattle.std.specs.Prelude.{◌≡◌, IfOk};
ghost use Rattle.tl_plan.specs.Law.{FinishesWhole};
ghost use Rattle.tl_plan.specs.Plan.{Finishes, NamesTables, accesses_in};

use crate::copy::copy_bound;
use crate::planned::{edit_accesses, query_accesses};
use std::alloc::Global;
use tl_algebra::{ValueFault, rows_of};
use tl_base::{Items, NoMemory};
use tl_isolation::Bound;
use tl_schema::{Access, Catalog};
use tl_values::Rows;

/// Accesses, in the order in which they are made.
pub type Accesses = Items<Access>;

/// A statement with the records that it reads.
#[derive(Drop)]
pub struct Plan {
    pub bound: Bound,
    /// One for each FROM item of a SELECT; of an UPDATE or DELETE that of its table; of an INSERT one for each row whose
    /// key has no NULL and isn't long, twice where a key comes twice; none for the other statements.
    pub accesses: Accesses,
}

/// The plan of a statement that was bound to the catalog. `NoMemory` comes where the plan finds no room, and for no other
/// reason.
pub fn make_plan(alloc: Global, bound: &Bound, catalog: &Catalog) -> Result<Plan, NoMemory>
    requires tables { NamesTables catalog.now bound.now }
    ensures statement { IfOk result (λ plan. plan.bound ≡ bound.now) }
    ensures accesses { IfOk result (λ plan. plan.accesses ≡ accesses_in catalog.now bound.now) }
{
    let accesses = accesses_in(alloc, bound, catalog)?;
    let bound = copy_bound(alloc, bound)?;
    Ok(Plan { bound, accesses })
}

fn accesses_in(alloc: Global, bound: &Bound, catalog: &Catalog) -> Result<Accesses, NoMemory>
    requires { NamesTables catalog.now bound.now }
    ensures { IfOk result (λ accesses. accesses ≡ accesses_in catalog.now bound.now) }
{
    match bound {
        Bound::Select { query } => query_accesses(alloc, query, catalog),
        Bound::Change { edit } => edit_accesses(alloc, edit, catalog),
        Bound::Begin | Bound::Commit | Bound::Rollback | Bound::Recover { .. } => {
            Ok(Accesses::new(alloc))
        }
    }
}

/// The rows of the plan's SELECT, where `tables` has one list of rows for each FROM item, in the order of the items; no
/// rows where the plan is that of another statement. Rows of the tables that have those within the plan's accesses among
/// them, each once and in any order, are as good as the whole tables.
#[tactic(auto, using(crate::proofs::Suffices::finishes_whole))]
pub fn finish(alloc: Global, plan: &Plan, tables: &[Rows]) -> Result<Rows, ValueFault>
    ensures told { Finishes plan.now.bound tables.now result }
    ensures whole { FinishesWhole plan.now.bound plan.now.accesses tables.now result }
{
    rows_told(alloc, &plan.bound, tables)
}

fn rows_told(alloc: Global, bound: &Bound, tables: &[Rows]) -> Result<Rows, ValueFault>
    ensures { Finishes bound.now tables.now result }
{
    match bound {
        Bound::Select { query } => rows_of(alloc, query, tables),
        Bound::Begin
        | Bound::Commit
        | Bound::Rollback
        | Bound::Recover { .. }
        | Bound::Change { .. } => Ok(Rows::new(alloc)),
    }
}
