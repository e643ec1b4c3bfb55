use tl_base::{NodeId, PlaceId};

/// Is told of each request of a node that a place serves, while it serves it.
pub trait Gate: Sync {
    fn inside(&self, node: NodeId, place: PlaceId);
}

/// The gate that lets every request pass.
#[derive(Clone, Copy, Debug)]
pub struct NoGate;

impl Gate for NoGate {
    fn inside(&self, _node: NodeId, _place: PlaceId) {}
}
