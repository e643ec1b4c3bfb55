//! The store as a run opens.

ghost use Rattle.std.specs.Prelude.{◌≡◌, ◌<◌, ◌^◌, ◌∷◌, ◌++◌, List, [], length, map, true, IfOk, OnOk};
ghost use Rattle.std.specs.FinMap as finmap;
ghost use Rattle.std.specs.List.{AllByRecursion};
ghost use Rattle.tl_cells.specs.Cells.{cell_under, greatest};
ghost use Rattle.tl_versions.specs.Cell.{IsShortRow};
ghost use Rattle.tl_isolation.specs.Script.{setup_of};
ghost use Rattle.tl_isolation.specs.Tables.{HasTable, opening_writes};
ghost use Rattle.tl_journal.specs.Binding.{WriteFits};
ghost use Rattle.tl_journal.specs.Journal.{opening_cells, stores_from};
ghost use Rattle.tl_journal.specs.Served.{is_record_key};
ghost use Rattle.tl_places.specs.Opening.{HaveRoom, HaveStored, Stored, commits_cell, row_cell};
ghost use Rattle.tl_places.specs.Places.{ShardHasServed};

use crate::rows::{opening_cell, opening_rows};
use std::alloc::Global;
use tl_ask::Layout;
use tl_base::{Bytes, Duplicate, Machine, NoMemory, StoreReply, StoreRequest};
use tl_cells::{Shard, shard_of};
use tl_descriptor::Descriptor;
use tl_isolation::Script;
use tl_map::SortedMap;
use tl_values::Row;

/// The shards with the commits cell, and then with the opening rows in the order of their keys.
pub fn open_shards(alloc: Global, layout: Layout, script: &Script) -> Result<Vec<Shard>, NoMemory>
    requires tables { AllByRecursion (λ o. HasTable script.now.catalog o.table) script.now.rows }
    requires writes { AllByRecursion WriteFits (opening_writes script.now.catalog script.now.rows) }
    ensures { IfOk result (λ shards. HaveStored layout.shards (opening_cells (setup_of script.now layout)) shards.items) }
{
    let mut shards = empty_shards(alloc, layout)?;
    store_commits(alloc, layout, &mut shards)?;
    let rows = opening_rows(alloc, script)?;
    store_rows(alloc, layout, &mut shards, &rows)?;
    Ok(shards)
}

fn empty_shards(alloc: Global, layout: Layout) -> Result<Vec<Shard>, NoMemory>
    ensures { IfOk result (λ shards. HaveStored layout.shards [] shards.items) }
{
    let mut shards = Vec::new(alloc);
    let count = layout.shards();
    for _ in 0..count {
        shards.push(Shard::new(alloc, 0))?;
    }
    Ok(shards)
}

/// Stores the set of transactions that are over as the store opens: tid 0 alone.
fn store_commits(alloc: Global, layout: Layout, shards: &mut Vec<Shard>) -> Result<(), NoMemory>
    requires { HaveStored layout.shards [] shards.old.items }
    ensures { OnOk result (HaveStored layout.shards (commits_cell ∷ []) shards.new.items) }
{
    let key = Bytes::from_slice(alloc, &[1])?;
    let value = Descriptor::new(alloc, 0).encode()?;
    store(layout, shards, key, value)?;
    Ok(())
}

fn store_rows(
    alloc: Global,
    layout: Layout,
    shards: &mut Vec<Shard>,
    rows: &SortedMap<Row>,
) -> Result<(), NoMemory>
    requires stored { HaveStored layout.shards (commits_cell ∷ []) shards.old.items }
    requires short { AllByRecursion (λ e. IsShortRow e.1) (finmap.entries rows.now) }
    requires records { AllByRecursion (λ e. is_record_key e.0 ≡ true) (finmap.entries rows.now) }
    requires few { finmap.len rows.now < 2 ^ 61 }
    ensures { OnOk result (HaveStored layout.shards (commits_cell ∷ map row_cell (finmap.entries rows.now)) shards.new.items) }
{
    for (key, row) in rows.iter() {
        let key = key.copy()?;
        let value = opening_cell(alloc, row)?;
        store(layout, shards, key, value)?;
    }
    Ok(())
}

/// Stores the cell in its shard, which has none of this key and a stamp for it.
fn store(layout: Layout, shards: &mut Vec<Shard>, key: Bytes, value: Bytes) -> Result<(), NoMemory>
    requires count { length shards.old.items ≡ layout.shards }
    requires room { HaveRoom layout.shards key shards.old.items }
    ensures { OnOk result ((stored : List Stored) → HaveStored layout.shards stored shards.old.items
        → HaveStored layout.shards (stored ++ (key, value) ∷ []) shards.new.items) }
{
    let at = shard_of(key.as_slice(), layout.shards());
    store_at(&mut shards[usize::from(at)], key, value)?;
    Ok(())
}

/// Stores the cell, which isn't there yet.
fn store_at(shard: &mut Shard, key: Bytes, value: Bytes) -> Result<(), NoMemory>
    requires absent { (cell_under key shard.old.cells).stamp ≡ 0 }
    requires stamps { shard.old.last < greatest }
    ensures { OnOk result ((stored : List Stored) → ShardHasServed (stores_from 0 stored) shard.old
        → ShardHasServed (stores_from 0 (stored ++ (key, value) ∷ [])) shard.new) }
{
    let request = StoreRequest::StoreIf {
        key,
        stamp: 0,
        value,
    };
    match shard.apply(&request)? {
        StoreReply::Stored { stamp: _ } => Ok(()),
        _ => unreachable!(),
    }
}
