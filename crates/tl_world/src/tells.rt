//! What is told of an event.

ghost use Rattle.std.specs.Prelude.{◌≡◌, ◌<◌, ◌^◌, length};
ghost use Rattle.std.specs.Option.{option_to_list};
ghost use Rattle.tl_world.specs.Told.{began_in, marked_in};

use crate::firsts::count_in;
use tl_base::{NodeId, Tid};
use tl_isolation::Entry;
use tl_manager::{ManagerReply, Mark, Reply};

/// The entry of a mark, if it has one of its own.
pub fn entry_of(node: NodeId, mark: Mark, reply: &Reply, commits: &[Tid]) -> Option<Entry>
    requires { length commits.now < 2 ^ 32 }
    ensures { option_to_list result ≡ marked_in commits.now node reply.now mark }
{
    match mark {
        Mark::Quiet | Mark::Answered => None,
        Mark::Asked => Some(Entry::Asked { node }),
        Mark::Began { tid } => began(node, tid, reply, commits),
        Mark::Tried { tid } => Some(Entry::Tried { tid }),
        Mark::Clashed { tid, rival, at } => Some(Entry::Clash { tid, rival, at }),
        Mark::Committed { tid } => Some(Entry::Committed { tid }),
        Mark::Undone { tid } => Some(Entry::Undone { tid }),
    }
}

fn began(node: NodeId, tid: Tid, reply: &Reply, commits: &[Tid]) -> Option<Entry>
    requires { length commits.now < 2 ^ 32 }
    ensures { option_to_list result ≡ began_in commits.now node tid reply.now }
{
    match reply {
        Reply::Manager(
            ManagerReply::Began {
                tid: _,
                snapshot,
                floor: _,
            },
        ) => Some(Entry::Began {
            node,
            tid,
            first: count_in(commits, snapshot),
        }),
        _ => None,
    }
}
