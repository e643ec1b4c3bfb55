use crate::entry::Answer;
use tl_base::{Items, NodeId, NodeSet, Tid};
use tl_write::Writes;

/// How far a held transaction is.
#[derive(Clone, Copy, Debug, PartialEq, Eq)]
pub enum TxnPhase {
    /// It takes statements.
    Live,
    /// It is about to commit.
    Trying,
    /// It has a rival.
    Undoing,
    /// Its node has vanished.
    Lost,
}

/// A commit: a transaction with all that it wrote, in rising order of keys.
#[derive(Debug, Drop)]
pub struct Commit {
    pub tid: Tid,
    pub writes: Writes,
}

/// A transaction that is neither committed nor undone.
#[derive(Debug, Drop)]
pub struct Transaction {
    pub tid: Tid,
    pub node: NodeId,
    /// How many commits it sees.
    pub first: u32,
    /// Its own writes, in rising order of keys.
    pub own: Writes,
    pub phase: TxnPhase,
    /// Whether BEGIN opened it.
    pub opened: bool,
    pub tried: bool,
    pub rival: Option<Tid>,
    /// The answer of a statement outside BEGIN, until its transaction has ended.
    pub unanswered: Option<Answer>,
}

/// What a node has in hand beside its transaction.
#[derive(Debug, Drop)]
pub struct NodeState {
    pub node: NodeId,
    /// How many commits there were when it asked to begin.
    pub noted: Option<u32>,
    /// The answer that is still to be given.
    pub outcome: Option<Answer>,
}

/// The state of snapshot isolation (Berenson and others, 1995) over whole tables.
#[derive(Debug, Drop)]
pub struct SiState {
    /// In order; the first has the opening rows and the number 0.
    pub commits: Items<Commit>,
    /// The numbers of all transactions so far, in the order in which they began.
    pub begun: Items<Tid>,
    pub vanished: NodeSet,
    /// The transactions that are neither committed nor undone, in the order in which they began.
    pub held: Items<Transaction>,
    /// The nodes that have anything in hand, each once.
    pub nodes: Items<NodeState>,
}
