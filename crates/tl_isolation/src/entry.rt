use crate::bound::Bound;
use tl_base::{NodeId, Tid};
use tl_values::Rows;

/// What a statement is answered.
#[derive(Debug, Drop)]
pub enum Answer {
    Begun,
    Rows(Rows),
    /// How many rows a change inserted, updated or deleted.
    Changed(u32),
    /// A key is there already.
    Duplicate,
    /// A NULL in a column that refuses it.
    Null,
    /// A number outside 64 bits.
    Overflow,
    /// A row or a key above its limit.
    Long,
    /// More records than a transaction may write.
    Many,
    /// BEGIN or RECOVER inside a transaction.
    Nested,
    /// COMMIT or ROLLBACK outside.
    Outside,
    /// The transaction lost a record to this one.
    Conflict(Tid),
    Committed,
    RolledBack,
    Recovered(NodeId),
    /// No death notice of that node was left.
    There(NodeId),
}

/// What a node said of a statement.
#[derive(Debug, Drop)]
pub struct Said {
    /// The statement's number in its session, from 1.
    pub statement: u32,
    pub answer: Answer,
    /// Whether this is the answer already, or stands only once its transaction is committed.
    pub answered: bool,
}

/// How a node ended before its last statement.
#[derive(Clone, Copy, Debug, PartialEq, Eq)]
pub enum Ending {
    Vanished,
    /// It made as many requests as it may.
    Spent,
    OutOfMemory,
}

/// One thing that is told of a run.
#[derive(Drop)]
pub enum Entry {
    /// The node is about to begin a transaction: it sees at least the commits so far.
    Asked {
        node: NodeId,
    },
    /// The transaction began, and sees the first `first` commits.
    Began {
        node: NodeId,
        tid: Tid,
        first: u32,
    },
    Said {
        node: NodeId,
        bound: Bound,
        said: Said,
    },
    /// The transaction is about to commit.
    Tried {
        tid: Tid,
    },
    /// The own record at place `at`, from 0 in rising order of keys, was written by `rival` outside the snapshot.
    Clash {
        tid: Tid,
        rival: Tid,
        at: u32,
    },
    Committed {
        tid: Tid,
    },
    Undone {
        tid: Tid,
    },
    Answered {
        node: NodeId,
        statement: u32,
        answer: Answer,
    },
    Vanished {
        node: NodeId,
        ending: Ending,
    },
}
