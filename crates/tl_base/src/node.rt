ghost use Rattle.std.specs.Prelude.{◌≡◌, ◌<◌, ◌≤◌, IsSome, IfSome, ◌↔◌};
ghost use Rattle.tl_base.specs.NodeSet.{has_node, with_node, no_nodes};

use std::marker::Model;

/// The number of a processing node, from 1 to 16.
#[derive(Clone, Copy, Debug, PartialEq, Eq, PartialOrd, Ord, Hash)]
pub struct NodeId {
    number: u8,
}

impl Model for NodeId {
    ghost use Rattle.std.specs.Prelude.{ℕ, ◌≤◌};

    ghost Value = { ℕ };

    ghost view = { λ node. node.number };

    ghost invariant = { λ node. (1 ≤ node.number) × (node.number ≤ 16) };

    ghost inverse = { λ number. record { number = number } };
}

impl NodeId {
    /// The node of this number; `None` exactly where it is 0 or above 16.
    pub fn new(number: u64) -> Option<NodeId>
        ensures within { IsSome result ↔ ((1 ≤ number) × (number ≤ 16)) }
        ensures value { IfSome result (λ node. node ≡ number) }
    {
        if number < 1 || number > 16 {
            return None;
        }
        Some(NodeId {
            number: number as u8,
        })
    }

    pub fn number(&self) -> u8
        ensures value { result ≡ self.now }
        ensures least { 1 ≤ self.now }
        ensures greatest { self.now ≤ 16 }
    {
        self.number
    }
}

/// A set of nodes: bit `n - 1` stands for node `n`.
#[derive(Clone, Copy, Debug, PartialEq, Eq, Hash)]
pub struct NodeSet(pub u16);

impl NodeSet {
    /// The set of no nodes.
    pub fn new() -> NodeSet
        ensures { result ≡ no_nodes }
    {
        NodeSet(0)
    }

    pub fn contains(self, node: NodeId) -> bool
        ensures { result ≡ has_node self node }
    {
        (self.0 >> (node.number() - 1)) & 1 == 1
    }

    pub fn insert(&mut self, node: NodeId)
        ensures { self.new ≡ with_node self.old node }
    {
        self.0 |= 1 << (node.number() - 1);
    }
}
