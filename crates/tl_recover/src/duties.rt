//! The nodes that are to be recovered, in rising order.

ghost use Rattle.std.specs.Prelude.{◌≡◌, ◌≤◌, ℕ, List, ◌∷◌, ◌&&◌, nat_lt, true, false, MatchOption};
ghost use Rattle.tl_base.specs.NodeSet.{has_node};
ghost use Rattle.tl_journal.specs.Node.{nodes_in};
ghost use Rattle.tl_recover.specs.Duties.{first_of};
ghost use Rattle.tl_recover.specs.Heeds.{written};
ghost use Rattle.tl_recover.specs.Taken.{duties_after, finding, next_duty};

use crate::after::{After, going};
use crate::phase::Phase;
use tl_ask::{Layout, ask_manager};
use tl_base::{NodeId, NodeSet};
use tl_manager::{ManagerRequest, Mark, TxnStep};

/// The node of this number, where it is in the set and its number is above the other.
fn duty_at(number: u64, node: u8, all: NodeSet) -> Option<NodeId>
    requires least { 1 ≤ number }
    requires greatest { number ≤ 16 }
    ensures { MatchOption result ((nat_lt node number && has_node all number) ≡ false) (λ duty. (duty ≡ number) × ((nat_lt node number && has_node all number) ≡ true)) }
{
    let duty = NodeId::new(number)?;
    if node < duty.number() && all.contains(duty) {
        Some(duty)
    } else {
        None
    }
}

/// The node of the set whose number is the least above this one.
pub fn duty_after(node: u8, all: NodeSet) -> Option<NodeId>
    ensures { result ≡ first_of (duties_after node all) }
{
    for number in 1..17 {
        if let Some(duty) = duty_at(number, node, all) {
            return Some(duty);
        }
    }
    None
}

/// The least node of the set, which has this one.
pub fn least_of(all: NodeSet, node: NodeId) -> NodeId
    requires { has_node all node ≡ true }
    ensures { (later : List ℕ) × (nodes_in all ≡ result ∷ later) }
{
    // From 1 to 16.
    let _number = node.number();
    match duty_after(0, all) {
        Some(duty) => duty,
        None => node,
    }
}

/// The active transactions of the node are asked for.
pub fn finding(layout: Layout, node: NodeId) -> After
    ensures { result ≡ written layout (finding layout node) }
{
    let next = ask_manager(
        layout,
        layout.home_of(node),
        ManagerRequest::Orphans { node },
    );
    going(Phase::Finding(node), next, Mark::Quiet)
}

/// The duty after this node, or the end where none is left.
pub fn next_duty(layout: Layout, all: NodeSet, node: NodeId) -> After
    ensures { result ≡ written layout (next_duty layout (duties_after node all)) }
{
    match duty_after(node.number(), all) {
        Some(duty) => finding(layout, duty),
        None => After {
            phase: Phase::Over,
            next: None,
            step: Some(TxnStep::Ended(Mark::Quiet)),
        },
    }
}
