use tl_base::{NodeId, Tid};
use tl_descriptor::Descriptor;

/// A transaction that has begun and is not over.
#[derive(Debug, Drop)]
pub struct Active {
    pub tid: Tid,
    /// The node that began it.
    pub node: NodeId,
    /// The finished transactions that it sees.
    pub snapshot: Descriptor,
}
