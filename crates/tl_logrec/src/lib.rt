//! The log cell of a transaction: who runs it, how far it is, and what it writes.
#![tactic(auto)]

mod entry;
mod fault;
mod keys;
mod laws;
mod reading;

pub use entry::{Flag, LogEntry};
pub use fault::LogFault;
pub use laws::entries_are_read;
