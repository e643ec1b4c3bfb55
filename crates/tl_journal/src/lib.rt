//! What a node does, request by request, and what a journal of a run is. There is no code here; the code of nodes and
//! drivers is proved to do what these definitions say.
#![tactic(auto)]

mod event;
mod law;

pub use event::{Event, Journal};
pub use law::{every_journal_is_one_history, runs_are_complete, strange_replies_stop};
