//! What a manager's reply says to a node.

ghost use Rattle.std.specs.Prelude.{◌≡◌};
ghost use Rattle.std.specs.Option.{option_copied};
ghost use Rattle.tl_ask.specs.Hears.{hears_manager};
ghost use Rattle.tl_node.specs.Hears.{claim_heard, floor_heard, is_ended};

use tl_ask::hear_manager;
use tl_base::NodeSet;
use tl_descriptor::Descriptor;
use tl_manager::{ManagerReply, Reply};

/// What the claim of a death notice came to.
#[derive(Clone, Copy, Debug, PartialEq, Eq)]
pub enum Claim {
    /// The notice is there no longer, or was never there.
    There,
    /// The other nodes of the notice.
    Given(NodeSet),
}

/// The low-water mark; `None` where the reply says none.
pub fn hear_floor(reply: &Reply) -> Option<&Descriptor>
    ensures { option_copied result ≡ floor_heard (hears_manager reply.now) }
{
    match hear_manager(reply) {
        Some(ManagerReply::FloorIs { floor }) => Some(floor),
        Some(_) | None => None,
    }
}

pub fn hear_claim(reply: &Reply) -> Option<Claim>
    ensures { result ≡ claim_heard (hears_manager reply.now) }
{
    match hear_manager(reply) {
        Some(ManagerReply::There) => Some(Claim::There),
        Some(ManagerReply::Given { also }) => Some(Claim::Given(*also)),
        Some(_) | None => None,
    }
}

/// Whether the transaction is over.
pub fn is_ended(reply: &Reply) -> bool
    ensures { result ≡ is_ended (hears_manager reply.now) }
{
    matches!(hear_manager(reply), Some(ManagerReply::Ended))
}
