//! The death notices.

ghost use Rattle.std.specs.Prelude.{◌≡◌, ◌+◌, ◌<◌};
ghost use Rattle.std.specs.FinMap as map;
ghost use Rattle.tl_manager.specs.Notices.{joined, with_notice};

use std::marker::Model;
use tl_base::{NodeId, NodeSet};

/// A place for each node, where its death notice stands: the nodes that it was to recover.
#[derive(Drop)]
pub struct Board {
    places: [Option<NodeSet>; 16],
}

/// The notices by their nodes.
impl Model for Board {
    ghost use Rattle.std.specs.Prelude.{◌≡◌, length};
    ghost use Rattle.tl_manager.specs.Notices.{Notices, notices_code};
    ghost use Rattle.tl_manager.specs.Board.{on_board};

    ghost Value = { Notices };

    ghost coded = { notices_code };

    ghost view = { λ board. on_board board.places };

    ghost invariant = { λ board. length board.places ≡ 16 };
}

fn joined(nodes: NodeSet, also: NodeSet) -> NodeSet
    ensures { result ≡ joined nodes also }
{
    NodeSet(nodes.0 | also.0)
}

/// The place of a node.
fn place_of(node: NodeId) -> usize
    ensures place { result + 1 ≡ node }
    ensures within { result < 16 }
{
    (node.number() - 1) as usize
}

impl Board {
    pub fn new() -> Board
        ensures { result ≡ map.empty }
    {
        Board { places: [None; 16] }
    }

    /// The notice of the node.
    pub fn get(&self, node: NodeId) -> Option<NodeSet>
        ensures { result ≡ map.get self.now node }
    {
        self.places[place_of(node)]
    }

    /// Adds the nodes to the notice of the node, which is there from now on.
    pub fn add(&mut self, node: NodeId, also: NodeSet)
        ensures { self.new ≡ with_notice node also self.old }
    {
        let nodes = self.get(node).unwrap_or(NodeSet::new());
        self.places[place_of(node)] = Some(joined(nodes, also));
    }

    /// Takes the notice of the node away.
    pub fn remove(&mut self, node: NodeId)
        ensures { self.new ≡ map.remove self.old node }
    {
        self.places[place_of(node)] = None;
    }
}
