//! The transaction is over at its manager.

ghost use Rattle.std.specs.Prelude.{◌≡◌};
ghost use Rattle.tl_ask.specs.Hears.{hears_manager};
ghost use Rattle.tl_recover.specs.Heeds.{Gives, is_ended};
ghost use Rattle.tl_recover.specs.Taken.{takes_ending};

use crate::after::{After, strange};
use crate::finding::next_lost;
use crate::phase::Lost;
use std::alloc::Global;
use tl_ask::{Layout, hear_manager};
use tl_base::{NoMemory, NodeSet};
use tl_manager::{ManagerReply, Reply};

fn is_ended(reply: &Reply) -> bool
    ensures { result ≡ is_ended (hears_manager reply.now) }
{
    matches!(hear_manager(reply), Some(ManagerReply::Ended))
}

pub fn takes_ending(
    alloc: Global,
    layout: Layout,
    all: NodeSet,
    lost: Lost,
    reply: &Reply,
) -> Result<After, NoMemory>
    ensures { Gives layout (takes_ending layout all lost (hears_manager reply.now)) result }
{
    if !is_ended(reply) {
        return Ok(strange());
    }
    let Lost {
        node,
        tid: _,
        others,
    } = lost;
    next_lost(alloc, layout, all, node, others)
}
