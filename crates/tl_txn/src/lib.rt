//! A transaction of a node, request by request: what it asks for next, and what it does with each reply.
#![tactic(auto)]

mod after;
mod attempt;
mod begin;
mod commit;
mod finish;
mod law;
mod phase;
mod prepare;
mod reading;
mod short;
mod txn;
mod undo;

pub use attempt::{Attempt, Settled};
pub use law::transactions_follow_the_node;
pub use phase::{
    Deciding, Decision, Open, PageRead, Phase, Read, Removes, RemovesAt, Removing, Stores,
    StoresAt, Storing, Undoing,
};
pub use txn::Txn;
