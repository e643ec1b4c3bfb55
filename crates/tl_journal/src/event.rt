use tl_base::{Items, NodeId, PlaceId};
use tl_isolation::Entry;
use tl_manager::{Reply, Request};

/// One request of one node, served at one place, with what is told of it.
#[derive(Drop)]
pub struct Event {
    pub node: NodeId,
    pub place: PlaceId,
    pub request: Request,
    pub reply: Reply,
    pub entries: Items<Entry>,
}

/// All that happened in a run, in order.
#[derive(Drop)]
pub struct Journal {
    pub events: Items<Event>,
}
