//! A death notice.

ghost use Rattle.std.specs.Prelude.{◌≡◌, ◌<◌, ◌∷◌, [], vec_capacity, vec_len};
ghost use Rattle.tl_isolation.specs.declared.entry.Entry.TheVariants as entry;
ghost use Rattle.tl_world.specs.Stands.{ended};

use crate::room::take_all;
use crate::slot::Slot;
use std::alloc::Global;
use std::mem;
use tl_base::{Items, NodeId};
use tl_isolation::{Ending, Entry};
use tl_node::Node;

/// The node leaves its slot.
pub fn leave(slot: &mut Slot) -> Option<Node>
    ensures node { result ≡ slot.old.node }
    ensures left { slot.new ≡ ended slot.old }
{
    mem::replace(&mut slot.node, None)
}

/// What is told of the end of a node.
pub fn tell_end(
    alloc: Global,
    last: &mut Vec<Entry>,
    number: NodeId,
    ending: Ending,
) -> Items<Entry>
    requires room { vec_len last.old < vec_capacity last.old }
    requires empty { last.old.items ≡ [] }
    ensures { result ≡ entry.Vanished number ending ∷ [] }
{
    let entry = Entry::Vanished {
        node: number,
        ending,
    };
    last.push_reserved(entry);
    take_all(alloc, last)
}
