//! Which requests are counted until a node vanishes.

ghost use Rattle.std.specs.Prelude.{◌≡◌};
ghost use Rattle.tl_journal.specs.Schedule as schedule;
ghost use Rattle.tl_base.specs.declared.store.StoreRequest.TheVariants as store;
ghost use Rattle.tl_base.specs.declared.store.StoreReply.TheVariants as stored;

use tl_base::{Bytes, StoreReply, StoreRequest};
use tl_isolation::VanishKind;
use tl_manager::{Reply, Request};

/// Whether the key begins with this byte.
fn is_kind(byte: u8, key: &Bytes) -> bool
    ensures { result ≡ schedule.is_kind byte key.now }
{
    match key.as_slice() {
        [first, ..] => *first == byte,
        [] => false,
    }
}

/// Whether the request is of this kind; of the stores those that were done count.
pub fn counts(kind: VanishKind, request: &Request, reply: &Reply) -> bool
    ensures { result ≡ schedule.counts kind request.now reply.now }
{
    match (request, reply) {
        (Request::Store(request), Reply::Store(reply)) => counts_store(kind, request, reply),
        _ => matches!(kind, VanishKind::Any),
    }
}

fn counts_store(kind: VanishKind, request: &StoreRequest, reply: &StoreReply) -> bool
    ensures { result ≡ schedule.counts_store kind request.now reply.now }
{
    match (request, reply) {
        (StoreRequest::StoreIf { key, stamp, value }, StoreReply::Stored { stamp: _ }) => {
            counts_done(kind, key, *stamp, value)
        }
        _ => matches!(kind, VanishKind::Any),
    }
}

/// Of a conditional store that was done.
fn counts_done(kind: VanishKind, key: &Bytes, stamp: u64, value: &Bytes) -> bool
    ensures { result ≡ schedule.counts_store kind (store.StoreIf key.now stamp value.now) (stored.Stored stamp) }
{
    match kind {
        VanishKind::Any => true,
        VanishKind::RecordStore => is_kind(4, key),
        VanishKind::FlagStore => is_kind(3, key) && stamp > 0,
        VanishKind::LeafStore => is_kind(6, key) && stamp > 0 && is_kind(0, value),
        VanishKind::SplitStore => is_kind(6, key) && stamp == 0,
    }
}
