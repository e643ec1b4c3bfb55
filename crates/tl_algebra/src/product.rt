ghost use Rattle.std.specs.Prelude.{◌≡◌, ◌++◌, map, IfOk, OnOk};
ghost use Rattle.std.specs.List.{flat_map, list_all};
ghost use Rattle.tl_algebra.specs.Select.{passes, product, selected};
ghost use Rattle.tl_algebra.specs.Truth.{lets_through};

use crate::query::{Join, Query};
use crate::truth::lets_through;
use std::alloc::Global;
use tl_base::{Duplicate, Items, NoMemory};
use tl_values::{Row, Rows};

/// The rows of the product for which each ON and the WHERE are true.
pub fn selected(alloc: Global, query: &Query, tables: &[Rows]) -> Result<Rows, NoMemory>
    ensures { IfOk result (λ rows. rows ≡ selected query.now tables.now) }
{
    let mut rows = product(alloc, tables)?.into_vec();
    rows.retain(|row| passes(query, row));
    Ok(Items::from_vec(rows))
}

// Each row of the first table before each row of the product of the others.
fn product(alloc: Global, tables: &[Rows]) -> Result<Rows, NoMemory>
    ensures { IfOk result (λ rows. rows ≡ product tables.now) }
{
    let mut rows = Rows::new(alloc);
    rows.push(Row::new(alloc))?;
    let mut left = tables.len();
    while left > 0 {
        left -= 1;
        rows = fronted(alloc, &tables[left], &rows)?;
    }
    Ok(rows)
}

#[tactic(auto, using(std::proofs::Common::append_assoc))]
fn fronted(alloc: Global, fronts: &Rows, backs: &Rows) -> Result<Rows, NoMemory>
    ensures { IfOk result (λ rows. rows ≡ flat_map (λ front. map (λ back. front ++ back) backs.now) fronts.now) }
{
    let mut rows = Rows::new(alloc);
    for front in fronts.as_slice() {
        push_fronted(&mut rows, front, backs)?;
    }
    Ok(rows)
}

fn push_fronted(rows: &mut Rows, front: &Row, backs: &Rows) -> Result<(), NoMemory>
    ensures { OnOk result (rows.new ≡ rows.old ++ map (λ back. front.now ++ back) backs.now) }
{
    for back in backs.as_slice() {
        let mut row = front.copy()?;
        row.append(back.copy()?)?;
        rows.push(row)?;
    }
    Ok(())
}

/// Whether each ON and the WHERE are true of a joined row.
pub fn passes(query: &Query, row: &Row) -> bool
    ensures { result ≡ passes query.now row.now }
{
    joins(&query.from, row) && lets_through(&query.filter, row)
}

// Whether each ON is true.
fn joins(from: &Items<Join>, row: &Row) -> bool
    ensures { result ≡ list_all (λ join. lets_through join.on row.now) from.now }
{
    from.as_slice()
        .iter()
        .all(|join| lets_through(&join.on, row))
}
