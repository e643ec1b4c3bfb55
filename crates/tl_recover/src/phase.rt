use tl_ask::{LogCell, TxnId};
use tl_base::{Items, NodeId};

/// A transaction that a vanished node left behind, and those that are seen to after it.
#[derive(Drop)]
pub struct Lost {
    pub node: NodeId,
    pub tid: TxnId,
    /// The node's other transactions, in the order in which they began.
    pub others: Items<TxnId>,
}

/// How far a recovery is: what the reply that it awaits will be taken for.
#[derive(Drop)]
pub enum Phase {
    /// The active transactions of this node are asked for.
    Finding(NodeId),
    /// The log cell of the transaction is loaded.
    ReadingLog(Lost),
    /// The versions of an attempt are removed from the records that its log cell names: how many are seen to, and
    /// whether the next one is loaded.
    Stripping {
        lost: Lost,
        log: LogCell,
        at: usize,
        loaded: bool,
    },
    /// The transaction is put among the finished ones, whose cell is loaded or not.
    Finishing {
        lost: Lost,
        committed: bool,
        loaded: bool,
    },
    /// It is finished, and still active at its manager.
    EndingLost(Lost),
    Over,
    /// It met want of memory, or a reply that no place of a run gives.
    Stopped,
}
