//! What a shard may reply to a request, whatever it holds: stamps, and the keys of a page.

ghost use Rattle.std.specs.Prelude.{◌≡◌, ◌&&◌, length};
ghost use Rattle.std.specs.List.{list_all};
ghost use Rattle.tl_journal.specs.Strange.{are_above, are_from, fills, is_cell, is_item, is_log_cell, is_outcome, is_page};
ghost use Rattle.tl_ask.specs.Given.{is_outcome_of};

use tl_base::{Bytes, Item, Stamp, StoreReply, StoreRequest};
use tl_manager::{Reply, Request};

/// The end of stamps.
const GREATEST: Stamp = 1 << 62;

/// How many cells a page has at most.
const MOST_FOUND: usize = 64;

/// Whether a cell may have this stamp and these bytes: one that was never stored has stamp 0 and no bytes.
pub fn is_cell(stamp: Stamp, value: &[u8]) -> bool
    ensures { result ≡ is_cell stamp value.now }
{
    stamp <= GREATEST && (stamp != 0 || value.is_empty())
}

/// Whether a log cell may: it has bytes exactly where it was stored.
pub fn is_log_cell(stamp: Stamp, value: &[u8]) -> bool
    ensures { result ≡ is_log_cell stamp value.now }
{
    if value.is_empty() {
        stamp == 0
    } else {
        stamp != 0 && stamp <= GREATEST
    }
}

/// Whether the reply has a stamp that the request may be given: a store at a stamp gives a greater one, or finds another.
pub fn is_outcome_of(request: &Request, reply: &Reply) -> bool
    ensures { result ≡ is_outcome_of request.now reply.now }
{
    match (request, reply) {
        (
            Request::Store(
                StoreRequest::StoreIf {
                    key: _,
                    stamp,
                    value: _,
                },
            ),
            Reply::Store(told),
        ) => { is_outcome(*stamp, told) }
        (Request::Store(_) | Request::Manager(_), Reply::Store(_) | Reply::Manager(_)) => true,
    }
}

fn is_outcome(stamp: Stamp, told: &StoreReply) -> bool
    ensures { result ≡ is_outcome stamp told.now }
{
    match told {
        StoreReply::Stored { stamp: fresh } => stamp < *fresh && *fresh <= GREATEST,
        StoreReply::Moved { stamp: found } => *found != stamp && *found <= GREATEST,
        StoreReply::Cell { .. }
        | StoreReply::Items { .. }
        | StoreReply::Count { .. }
        | StoreReply::Full { .. } => true,
    }
}

/// Whether these cells are a page of the range, with further cells behind it or not.
pub fn is_page(from: &Bytes, before: &Bytes, list: &[Item], more: bool) -> bool
    ensures { result ≡ is_page from.now before.now list.now more }
{
    are_from(from, list) && are_items(before, list) && fills(list.len(), more)
}

fn fills(found: usize, more: bool) -> bool
    ensures { result ≡ fills found more }
{
    if more {
        found == MOST_FOUND
    } else {
        found <= MOST_FOUND
    }
}

/// Whether the keys rise from this one on.
fn are_from(from: &Bytes, list: &[Item]) -> bool
    ensures { result ≡ are_from from.now list.now }
{
    match list.split_first() {
        Some((item, items)) => !item.key.cmp(from).is_lt() && are_above(&item.key, items),
        None => true,
    }
}

/// Whether they rise from one above this.
fn are_above(key: &Bytes, items: &[Item]) -> bool
    ensures { result ≡ are_above key.now items.now }
{
    let mut last = key;
    for item in items {
        if !last.cmp(&item.key).is_lt() {
            return false;
        }
        last = &item.key;
    }
    true
}

/// Whether each of these cells was stored, under a key below this one.
fn are_items(before: &Bytes, list: &[Item]) -> bool
    ensures { result ≡ list_all (is_item before.now) list.now }
{
    for item in list {
        if !is_item(before, item) {
            return false;
        }
    }
    true
}

fn is_item(before: &Bytes, item: &Item) -> bool
    ensures { result ≡ is_item before.now item.now }
{
    item.key.cmp(before).is_lt() && item.stamp >= 1 && item.stamp <= GREATEST
}
