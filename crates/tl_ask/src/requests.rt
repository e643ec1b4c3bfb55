//! What a node asks. Each function makes the request, and the place that it goes to.

ghost use Rattle.std.specs.Prelude.{◌≡◌, IfOk};
ghost use Rattle.tl_base.specs.declared.store.StoreRequest.TheVariants as store;
ghost use Rattle.tl_logrec.specs.declared.entry.LogEntry.{LogEntry};
ghost use Rattle.tl_logrec.specs.Entry.{spelling};
ghost use Rattle.tl_journal.specs.Ask.{LoadCommits, StoreCommits, LoadLog, StoreLog, LoadRecord, StoreRecord, ReadPage, DrawNumbers, AskManager};
ghost use Rattle.tl_journal.specs.Bytes.{commits_key, counter_key, log_key, shard_at};
ghost use Rattle.tl_ask.specs.Asked.{asked, at_key};

use crate::asked::Asked;
use crate::layout::Layout;
use std::alloc::Global;
use tl_base::{Bytes, NoMemory, PlaceId, Stamp, StoreRequest, Tid};
use tl_cells::shard_of;
use tl_codec::write_u64;
use tl_descriptor::Descriptor;
use tl_manager::{ManagerRequest, Request};
use tl_versions::Versions;

/// How many cells a page has at most.
const PAGE_LIMIT: u32 = 64;

/// How many transaction numbers are drawn at once.
const DRAW: u64 = 16;

fn commits_key(alloc: Global) -> Result<Bytes, NoMemory>
    ensures { IfOk result (λ key. key ≡ commits_key) }
{
    Bytes::from_slice(alloc, b"\x01")
}

fn counter_key(alloc: Global) -> Result<Bytes, NoMemory>
    ensures { IfOk result (λ key. key ≡ counter_key) }
{
    Bytes::from_slice(alloc, b"\x02")
}

fn log_key(alloc: Global, tid: Tid) -> Result<Bytes, NoMemory>
    ensures { IfOk result (λ key. key ≡ log_key tid) }
{
    let mut key = Bytes::new(alloc);
    key.push(3)?;
    write_u64(&mut key, tid)?;
    Ok(key)
}

/// Where a key lives.
fn shard_at(layout: Layout, key: &Bytes) -> PlaceId
    ensures { result ≡ shard_at layout key.now }
{
    PlaceId::Shard(shard_of(key.as_slice(), layout.shards()))
}

fn load(layout: Layout, key: Bytes) -> Asked
    ensures { result ≡ at_key layout key (store.Load key) }
{
    Asked {
        place: shard_at(layout, &key),
        request: Request::Store(StoreRequest::Load { key }),
    }
}

fn store_if(layout: Layout, key: Bytes, stamp: Stamp, value: Bytes) -> Asked
    ensures { result ≡ at_key layout key (store.StoreIf key stamp value) }
{
    Asked {
        place: shard_at(layout, &key),
        request: Request::Store(StoreRequest::StoreIf { key, stamp, value }),
    }
}

/// Loads the commits cell.
pub fn load_commits(alloc: Global, layout: Layout) -> Result<Asked, NoMemory>
    ensures { IfOk result (λ ask. ask ≡ asked layout LoadCommits) }
{
    let key = commits_key(alloc)?;
    Ok(load(layout, key))
}

/// Stores the commits cell, if it still has this stamp.
pub fn store_commits(
    alloc: Global,
    layout: Layout,
    stamp: Stamp,
    set: &Descriptor,
) -> Result<Asked, NoMemory>
    ensures { IfOk result (λ ask. ask ≡ asked layout (StoreCommits stamp set.now)) }
{
    let key = commits_key(alloc)?;
    let value = set.encode()?;
    Ok(store_if(layout, key, stamp, value))
}

/// Loads the log cell of the transaction.
pub fn load_log(alloc: Global, layout: Layout, tid: Tid) -> Result<Asked, NoMemory>
    ensures { IfOk result (λ ask. ask ≡ asked layout (LoadLog tid)) }
{
    let key = log_key(alloc, tid)?;
    Ok(load(layout, key))
}

/// Stores the log cell of the transaction, if it still has this stamp. The value is the spelling of its entry.
pub fn store_log(
    alloc: Global,
    layout: Layout,
    stamp: Stamp,
    tid: Tid,
    value: Bytes,
) -> Result<Asked, NoMemory>
    ensures { (entry : LogEntry) → value ≡ spelling entry → tid ≡ entry.tid → IfOk result (λ ask. ask ≡ asked layout (StoreLog stamp entry)) }
{
    let key = log_key(alloc, tid)?;
    Ok(store_if(layout, key, stamp, value))
}

/// Loads the cell of the record under this key.
pub fn load_record(layout: Layout, key: Bytes) -> Asked
    ensures { result ≡ asked layout (LoadRecord key) }
{
    load(layout, key)
}

/// Stores the cell of the record under this key, if it still has this stamp.
pub fn store_record(
    layout: Layout,
    key: Bytes,
    stamp: Stamp,
    versions: &Versions,
) -> Result<Asked, NoMemory>
    ensures { IfOk result (λ ask. ask ≡ asked layout (StoreRecord key stamp versions.now)) }
{
    let value = versions.encode()?;
    Ok(store_if(layout, key, stamp, value))
}

/// Reads, at this shard, the first cells from the one key on and below the other.
pub fn read_page(layout: Layout, shard: u8, from: Bytes, before: Bytes) -> Asked
    ensures { result ≡ asked layout (ReadPage shard from before) }
{
    Asked {
        place: PlaceId::Shard(shard),
        request: Request::Store(StoreRequest::Page {
            from,
            before,
            limit: PAGE_LIMIT,
        }),
    }
}

/// Draws the next 16 transaction numbers.
pub fn draw_numbers(alloc: Global, layout: Layout) -> Result<Asked, NoMemory>
    ensures { IfOk result (λ ask. ask ≡ asked layout DrawNumbers) }
{
    let key = counter_key(alloc)?;
    Ok(Asked {
        place: shard_at(layout, &key),
        request: Request::Store(StoreRequest::Add { key, by: DRAW }),
    })
}

/// Asks this manager.
pub fn ask_manager(layout: Layout, manager: u8, request: ManagerRequest) -> Asked
    ensures { result ≡ asked layout (AskManager manager request) }
{
    Asked {
        place: PlaceId::Manager(manager),
        request: Request::Manager(request),
    }
}
