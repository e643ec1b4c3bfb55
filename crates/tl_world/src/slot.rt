ghost use Rattle.std.specs.Prelude.{◌≡◌};
ghost use Rattle.tl_world.specs.Slot.{answered, has_more, spent_by, spot};
ghost use Rattle.tl_world.specs.Turns.{due_by};

use tl_base::NodeId;
use tl_isolation::Vanish;
use tl_node::Node;

/// A node of the run, with what was counted of its requests.
#[derive(Drop)]
pub struct Slot {
    pub number: NodeId,
    /// None once it has ended.
    pub node: Option<Node>,
    /// How many requests it made.
    pub made: u32,
    /// How many of them its `@vanish` counts.
    pub counted: u32,
    pub vanish: Option<Vanish>,
}

impl Slot {
    /// Whether the count of its `@vanish` is reached.
    pub fn is_due(&self) -> bool
        ensures { result ≡ due_by self.now.vanish self.now.counted }
    {
        match self.vanish {
            Some(vanish) => self.counted >= vanish.count,
            None => false,
        }
    }

    /// How many statements its node has answered; none once it has ended.
    pub fn answered(&self) -> usize
        ensures { result ≡ answered self.now.node }
    {
        match &self.node {
            Some(node) => node.replies().len(),
            None => 0,
        }
    }

    /// Whether its node runs, and has more to do.
    pub fn has_more(&self) -> bool
        ensures { result ≡ has_more self.now.node }
    {
        match &self.node {
            Some(node) => !node.is_done(),
            None => false,
        }
    }

    /// Whether it has more to do, and no request of this budget is left for it.
    pub fn is_spent(&self, budget: u32) -> bool
        ensures { result ≡ spent_by self.now budget }
    {
        self.has_more() && self.made >= budget
    }
}

/// Where the slot of this node stands.
pub fn spot(slots: &[Slot], number: NodeId) -> Option<usize>
    ensures { result ≡ spot 0 slots.now number }
{
    let mut at = 0;
    while at < slots.len() {
        if slots[at].number == number {
            return Some(at);
        }
        at += 1;
    }
    None
}
