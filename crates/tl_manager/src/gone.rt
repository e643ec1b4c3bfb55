ghost use Rattle.std.specs.Prelude.{◌≡◌};

use crate::request::ManagerRequest;
use std::marker::Model;
use tl_base::{NodeId, NodeSet};

/// What is left of a node that vanished: the death notice that it owes. It can be neither copied nor dropped, so
/// somebody has to post it.
pub struct Gone {
    node: NodeId,
    also: NodeSet,
}

/// The request that posts it.
impl Model for Gone {
    ghost use Rattle.tl_manager.specs.declared.request.ManagerRequest.{ManagerRequest};
    ghost use Rattle.tl_manager.specs.declared.request.ManagerRequest.TheVariants.{Post};

    ghost Value = { ManagerRequest };

    ghost view = { λ gone. Post gone.node gone.also };
}

impl Gone {
    /// Of this node, with the nodes that it was to recover.
    pub fn new(node: NodeId, also: NodeSet) -> Gone
        ensures { result ≡ ManagerRequest.Post node also }
    {
        Gone { node, also }
    }

    /// The notice of the node.
    pub fn post(self) -> ManagerRequest
        ensures { result ≡ self }
    {
        let Gone { node, also } = self;
        ManagerRequest::Post { node, also }
    }
}
