ghost use Rattle.std.specs.Prelude.{◌≡◌, ◌≢◌, ◌+◌, ◌≤◌, ◌<◌, ◌^◌, [], IsTrue, IsNone, IsOk, IfOk, OnOk, OnErr, SomeIff, unwrap_or};
ghost use Rattle.std.specs.FinMap as map;
ghost use Rattle.tl_cells.specs.Cells.{cell_under, greatest, store_reply, add_reply, page_of, cells_within, item_of, reply_of, next_of, after_reply};
ghost use Rattle.tl_cells.specs.Memory.{takes_no_memory};
ghost use Rattle.tl_cells.specs.Outcome.{reply_with};
ghost use Rattle.tl_cells.specs.Serves.{Matches};

use crate::cell::Cell;
use std::alloc::Global;
use std::marker::Model;
use tl_base::{Bytes, Duplicate, Item, Items, Machine, NoMemory, Stamp, StoreReply, StoreRequest};
use tl_map::SortedMap;

/// The end of stamps and counters.
const GREATEST: u64 = 1 << 62;

/// One shard of the store: its cells, its counters, and the stamp that it gave last.
#[derive(Drop)]
pub struct Shard {
    alloc: Global,
    cells: SortedMap<Cell>,
    counters: SortedMap<u64>,
    last: Stamp,
}

impl Model for Shard {
    ghost use Rattle.std.specs.Prelude.{◌≤◌};
    ghost use Rattle.tl_cells.specs.Cells.{ShardState, greatest};
    ghost use Rattle.tl_cells.specs.StateCode.{state_code};

    ghost Value = { ShardState };

    ghost coded = { state_code };

    ghost view = { λ s. record { cells = s.cells; counters = s.counters; last = s.last } };

    ghost invariant = { λ s. s.last ≤ greatest };
}

/// What a store or a sum came to: a reply without bytes.
#[derive(Clone, Copy)]
enum Outcome {
    Stored(Stamp),
    Moved(Stamp),
    Count(u64),
    Full(u64),
}

impl Outcome {
    fn reply(self) -> StoreReply
        ensures { result ≡ reply_with self }
    {
        match self {
            Outcome::Stored(stamp) => StoreReply::Stored { stamp },
            Outcome::Moved(stamp) => StoreReply::Moved { stamp },
            Outcome::Count(old) => StoreReply::Count { old },
            Outcome::Full(old) => StoreReply::Full { old },
        }
    }
}

/// The sum, unless it passes the end of counters.
fn sum_within(old: u64, by: u64) -> Option<u64>
    ensures { SomeIff result (old + by ≤ greatest) (old + by) }
{
    match old.checked_add(by) {
        Some(sum) if sum <= GREATEST => Some(sum),
        _ => None,
    }
}

impl Shard {
    /// A shard without cells and counters, whose next stamp is `last + 1`.
    pub fn new(alloc: Global, last: Stamp) -> Shard
        requires { last ≤ 2 ^ 62 }
        ensures state { result ≡ record { cells = map.empty; counters = map.empty; last = last } }
        ensures opens { Matches last [] result }
    {
        Shard {
            alloc,
            cells: SortedMap::new(alloc),
            counters: SortedMap::new(alloc),
            last,
        }
    }

    fn load(&self, key: &Bytes) -> Result<StoreReply, NoMemory>
        ensures replied { IfOk result (λ answer. answer ≡ reply_of self.now (StoreRequest.Load key.now)) }
        ensures ready { IsTrue (takes_no_memory self.now (StoreRequest.Load key.now)) → IsOk result }
    {
        match self.cells.get(key) {
            Some(cell) => Ok(StoreReply::Cell {
                stamp: cell.stamp,
                value: cell.value.copy()?,
            }),
            None => Ok(StoreReply::Cell {
                stamp: 0,
                value: Bytes::new(self.alloc),
            }),
        }
    }

    fn stamp_of(&self, key: &Bytes) -> Stamp
        ensures { result ≡ (cell_under key.now self.now.cells).stamp }
    {
        match self.cells.get(key) {
            Some(cell) => cell.stamp,
            None => 0,
        }
    }

    fn store_if(&mut self, key: &Bytes, stamp: Stamp, value: &Bytes) -> Result<Outcome, NoMemory>
        ensures replied { IfOk result (λ outcome. reply_with outcome ≡ reply_of self.old (StoreRequest.StoreIf key.now stamp value.now)) }
        ensures changed { OnOk result (self.new ≡ next_of self.old (StoreRequest.StoreIf key.now stamp value.now)) }
        ensures kept { OnErr result (self.new ≡ self.old) }
        ensures ready { IsTrue (takes_no_memory self.old (StoreRequest.StoreIf key.now stamp value.now)) → IsOk result }
    {
        let found = self.stamp_of(key);
        if found != stamp {
            return Ok(Outcome::Moved(found));
        }
        if self.last == GREATEST {
            return Ok(Outcome::Full(self.last));
        }
        let fresh = self.last + 1;
        let cell = Cell {
            stamp: fresh,
            value: value.copy()?,
        };
        self.cells.put(key, cell)?;
        self.last = fresh;
        Ok(Outcome::Stored(fresh))
    }

    fn count_of(&self, key: &Bytes) -> u64
        ensures { result ≡ unwrap_or (map.get self.now.counters key.now) 0 }
    {
        self.counters.get(key).copied().unwrap_or(0)
    }

    fn add(&mut self, key: &Bytes, by: u64) -> Result<Outcome, NoMemory>
        ensures replied { IfOk result (λ outcome. reply_with outcome ≡ reply_of self.old (StoreRequest.Add key.now by)) }
        ensures changed { OnOk result (self.new ≡ next_of self.old (StoreRequest.Add key.now by)) }
        ensures kept { OnErr result (self.new ≡ self.old) }
        ensures ready { IsTrue (takes_no_memory self.old (StoreRequest.Add key.now by)) → IsOk result }
    {
        let old = self.count_of(key);
        let Some(sum) = sum_within(old, by) else {
            return Ok(Outcome::Full(old));
        };
        self.counters.put(key, sum)?;
        Ok(Outcome::Count(old))
    }

    fn page(&self, from: &Bytes, before: &Bytes, limit: u32) -> Result<StoreReply, NoMemory>
        ensures { IfOk result (λ answer. answer ≡ reply_of self.now (StoreRequest.Page from.now before.now limit)) }
    {
        let mut list = Items::new(self.alloc);
        for (key, cell) in self.cells.range(from, before) {
            if list.len() == limit as usize {
                return Ok(StoreReply::Items { list, more: true });
            }
            list.push(item(key, cell)?)?;
        }
        Ok(StoreReply::Items { list, more: false })
    }
}

fn item(key: &Bytes, cell: &Cell) -> Result<Item, NoMemory>
    ensures { IfOk result (λ item. item ≡ item_of (key.now, cell.now)) }
{
    let key = key.copy()?;
    let value = cell.value.copy()?;
    Ok(Item {
        key,
        stamp: cell.stamp,
        value,
    })
}

impl Machine for Shard {
    type Request = StoreRequest;

    type Reply = StoreReply;

    ghost reply = { reply_of };

    ghost next = { next_of };

    fn apply(&mut self, request: &StoreRequest) -> Result<StoreReply, NoMemory>
        ensures replied { IfOk result (λ answer. answer ≡ reply_of self.old request.now) }
        ensures changed { OnOk result (self.new ≡ next_of self.old request.now) }
        ensures kept { OnErr result (self.new ≡ self.old) }

        // A load of an absent cell, a store that is turned away and a sum at a counter that is there take no memory.
        ensures ready { IsTrue (takes_no_memory self.old request.now) → IsOk result }
    {
        match request {
            StoreRequest::Load { key } => self.load(key),
            StoreRequest::StoreIf { key, stamp, value } => {
                Ok(self.store_if(key, *stamp, value)?.reply())
            }
            StoreRequest::Add { key, by } => Ok(self.add(key, *by)?.reply()),
            StoreRequest::Page {
                from,
                before,
                limit,
            } => self.page(from, before, *limit),
        }
    }

    fn apply_twice(&mut self, request: &StoreRequest) -> Result<(StoreReply, StoreReply), NoMemory>
        ensures replied { IfOk result (λ answers. (answers.0 ≡ reply_of self.old request.now) × (answers.1 ≡ reply_of self.old request.now)) }
        ensures changed { OnOk result (self.new ≡ next_of self.old request.now) }
        ensures kept { OnErr result (self.new ≡ self.old) }
        ensures ready { IsTrue (takes_no_memory self.old request.now) → IsOk result }
    {
        match request {
            StoreRequest::Load { key } => Ok((self.load(key)?, self.load(key)?)),
            StoreRequest::StoreIf { key, stamp, value } => {
                let outcome = self.store_if(key, *stamp, value)?;
                Ok((outcome.reply(), outcome.reply()))
            }
            StoreRequest::Add { key, by } => {
                let outcome = self.add(key, *by)?;
                Ok((outcome.reply(), outcome.reply()))
            }
            StoreRequest::Page {
                from,
                before,
                limit,
            } => {
                let page = self.page(from, before, *limit)?;
                Ok((page, self.page(from, before, *limit)?))
            }
        }
    }

    fn copy_request(alloc: Global, request: &StoreRequest) -> Result<StoreRequest, NoMemory> {
        match request {
            StoreRequest::Load { key } => {
                let key = Bytes::from_slice(alloc, key.as_slice())?;
                Ok(StoreRequest::Load { key })
            }
            StoreRequest::StoreIf { key, stamp, value } => {
                let key = Bytes::from_slice(alloc, key.as_slice())?;
                let value = Bytes::from_slice(alloc, value.as_slice())?;
                Ok(StoreRequest::StoreIf {
                    key,
                    stamp: *stamp,
                    value,
                })
            }
            StoreRequest::Add { key, by } => {
                let key = Bytes::from_slice(alloc, key.as_slice())?;
                Ok(StoreRequest::Add { key, by: *by })
            }
            StoreRequest::Page {
                from,
                before,
                limit,
            } => {
                let from = Bytes::from_slice(alloc, from.as_slice())?;
                let before = Bytes::from_slice(alloc, before.as_slice())?;
                Ok(StoreRequest::Page {
                    from,
                    before,
                    limit: *limit,
                })
            }
        }
    }
}
