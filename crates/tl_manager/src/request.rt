use tl_base::{Items, NodeId, NodeSet, StoreReply, StoreRequest, Tid};
use tl_descriptor::Descriptor;

/// Numbers of transactions.
pub type Tids = Items<Tid>;

/// A request to one commit manager.
#[derive(Debug, Drop)]
pub enum ManagerRequest {
    /// A new transaction of this node. `seen` is a set of finished transactions that the node has loaded.
    Begin { node: NodeId, seen: Descriptor },
    /// The numbers from `low` to `high` are the manager's to give. There are none where `low` is above `high`.
    Range { low: Tid, high: Tid },
    /// The transaction is over.
    End { tid: Tid },
    /// The transactions of this node that are not over.
    Orphans { node: NodeId },
    /// The low-water mark. `seen` is a set of finished transactions that the node knows.
    Floor { seen: Descriptor },
    /// The death notice of a node, with the nodes that it was to recover.
    Post { node: NodeId, also: NodeSet },
    /// Takes the death notice of this node, and with it the duty to recover the node.
    Claim { node: NodeId },
}

/// What a commit manager answers.
#[derive(Debug, Drop)]
pub enum ManagerReply {
    /// The number and the snapshot of the new transaction, and the low-water mark.
    Began {
        tid: Tid,
        snapshot: Descriptor,
        floor: Descriptor,
    },
    /// Nothing was begun: the manager has no number left.
    NeedRange,
    /// The numbers were taken.
    Ranged,
    /// The transaction was active, and is no longer.
    Ended,
    /// No transaction of this number is active.
    NotActive,
    /// The active transactions of the node, in the order in which they began.
    Orphaned {
        tids: Tids,
    },
    /// The low-water mark.
    FloorIs {
        floor: Descriptor,
    },
    /// The notice is there.
    Posted,
    /// The nodes of the notice, which is there no longer.
    Given {
        also: NodeSet,
    },
    /// No notice of the node is here.
    There,
}

/// A request to a place.
#[derive(Debug, Drop)]
pub enum Request {
    Store(StoreRequest),
    Manager(ManagerRequest),
}

/// What a place answers.
#[derive(Debug, Drop)]
pub enum Reply {
    Store(StoreReply),
    Manager(ManagerReply),
}
