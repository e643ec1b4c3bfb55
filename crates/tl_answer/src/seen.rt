//! The rows that were read, with the own writes of the transaction laid over them.

ghost use Rattle.std.specs.Prelude.{◌≡◌, IfOk, map};
ghost use Rattle.std.specs.List.{AllByRecursion};
ghost use Rattle.tl_isolation.specs.Tables.{HasTable, rows_in};
ghost use Rattle.tl_journal.specs.Takes.{tables_seen, view_read};

use crate::table::table_of;
use std::alloc::Global;
use tl_algebra::Join;
use tl_base::{Items, NoMemory};
use tl_schema::Catalog;
use tl_values::Rows;
use tl_write::Buffer;

/// The rows of each FROM item, where `rows` has what was read of it, as far as both lists go.
pub fn tables_seen(
    alloc: Global,
    catalog: &Catalog,
    from: &[Join],
    rows: Items<Rows>,
    own: &Buffer,
) -> Result<Items<Rows>, NoMemory>
    requires { AllByRecursion (λ join. HasTable catalog.now join.table) from.now }
    ensures { IfOk result (λ seen. seen ≡ tables_seen catalog.now (map (λ join. join.table) from.now) own.now rows) }
{
    let mut seen = Items::new(alloc);
    let mut left = from;
    for found in rows.into_vec() {
        let Some((join, after)) = left.split_first() else {
            return Ok(seen);
        };
        seen.push(rows_seen(catalog, join.table, found, own)?)?;
        left = after;
    }
    Ok(seen)
}

/// The rows of the table of this number, in the order of their keys.
#[tactic(auto, using(crate::proofs::Views::seen_laid))]
fn rows_seen(catalog: &Catalog, number: u8, rows: Rows, own: &Buffer) -> Result<Rows, NoMemory>
    requires { HasTable catalog.now number }
    ensures { IfOk result (λ seen. seen ≡ rows_in number (view_read catalog.now number own.now rows)) }
{
    let table = table_of(catalog, number);
    let seen = own.lay(number, table, rows)?;
    Ok(seen)
}
