ghost use Rattle.std.specs.Prelude.{List, IfOk};
ghost use Rattle.tl_values.specs.declared.value.Value.{Value};
ghost use Rattle.tl_algebra.specs.Select.{Tells};
ghost use Rattle.std.specs.List.{AllByRecursion};
ghost use Rattle.tl_isolation.specs.Meaning.{QueryAnswers};
ghost use Rattle.tl_isolation.specs.Tables.{HasTable};
ghost use Rattle.tl_plan.specs.Plan.{numbers_of};
ghost use Rattle.tl_journal.specs.Takes.{tables_seen};

use crate::seen::tables_seen;
use std::alloc::Global;
use tl_algebra::{Query, ValueFault, rows_of};
use tl_base::{Items, NoMemory};
use tl_isolation::Answer;
use tl_schema::Catalog;
use tl_values::Rows;
use tl_write::Buffer;

/// What a SELECT is answered, rows or `Overflow`. `rows` has what was read of each FROM item, in the order of the
/// items; the own writes are laid over each.
pub fn answer_query(
    alloc: Global,
    catalog: &Catalog,
    query: &Query,
    rows: Items<Rows>,
    own: &Buffer,
) -> Result<Answer, NoMemory>
    requires tables { AllByRecursion (λ join. HasTable catalog.now join.table) query.now.from }
    ensures { IfOk result (λ told. QueryAnswers query.now (tables_seen catalog.now (numbers_of query.now) own.now rows) told) }
{
    let seen = tables_seen(alloc, catalog, query.from.as_slice(), rows, own)?;
    answer_of(rows_of(alloc, query, seen.as_slice()))
}

/// Rows, or that a number overflows.
fn answer_of(told: Result<Rows, ValueFault>) -> Result<Answer, NoMemory>
    ensures { (query : Query) (tables : List (List (List Value))) → Tells query tables told → IfOk result (QueryAnswers query tables) }
{
    match told {
        Ok(rows) => Ok(Answer::Rows(rows)),
        Err(ValueFault::Overflow) => Ok(Answer::Overflow),
        Err(ValueFault::NoMemory) => Err(NoMemory),
    }
}
