//! What a node is at.

use tl_ask::Asked;
use tl_base::{Boxed, Items, NodeId, NodeSet};
use tl_isolation::{Answer, Said};
use tl_plan::Accesses;
use tl_recover::Recover;
use tl_txn::Txn;
use tl_values::Rows;

/// What was said in a transaction.
#[derive(Debug, Drop)]
pub enum Stage {
    /// Nothing yet.
    Fresh,
    /// BEGIN.
    Opened,
    /// Its one statement, whose answer waits for the end.
    Answering(Answer),
}

/// The first request of a statement outside a transaction.
#[derive(Drop)]
pub enum Outside {
    /// All statements are answered.
    Done,
    Begins(Txn),
    /// COMMIT or ROLLBACK.
    Idles(Asked),
    /// RECOVER of this node.
    Claims { gone: NodeId, asked: Asked },
}

/// The answer that stands once the transaction has ended, for the node's replies and to be told; and the first request
/// of the statement after it.
#[derive(Drop)]
pub struct Last {
    pub kept: Answer,
    pub said: Said,
    pub following: Outside,
}

/// A statement's reads: their accesses, which of them is in hand, and what was found by those before it.
#[derive(Drop)]
pub struct Reading {
    pub accesses: Accesses,
    pub at: usize,
    pub found: Items<Rows>,
}

/// How far a node is with its transaction.
#[derive(Drop)]
pub enum Course {
    Begins,
    Reads(Reading),
    /// The one request of a statement without reads.
    Idles(Asked),
    /// Another manager's low-water mark.
    AsksOther { manager: u8, asked: Asked },
    /// The end is asked for; what it is answered, once the transaction is finished. Behind a pointer, since it holds a
    /// transaction of its own.
    Ends(Option<Boxed<Last>>),
}

/// A node's transaction.
#[derive(Drop)]
pub struct Running {
    pub txn: Txn,
    pub stage: Stage,
    pub course: Course,
}

#[derive(Drop)]
pub enum Work {
    Outside(Outside),
    Runs(Running),
    Recovers { gone: NodeId, recover: Recover },
    /// It met want of memory, or a reply that no place of a run gives; the nodes that it was to recover.
    Stopped(NodeSet),
}

/// What a reply led to, where there was memory for it.
#[derive(Drop)]
pub enum Next {
    /// No place of a run gives this reply.
    Strange,
    Goes(Work),
    /// The present statement is said, or answered.
    Says(Work, Said),
}
