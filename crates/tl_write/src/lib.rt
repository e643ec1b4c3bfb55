//! What INSERT, UPDATE and DELETE mean, and the own writes of a transaction, which are kept until it commits.
#![tactic(auto)]

mod buffer;
mod fault;
mod judge;
mod laws;
mod lay;
mod place;
mod places;
mod row;
mod statement;
mod write;

pub use buffer::Buffer;
pub use fault::ChangeFault;
pub use laws::{change_counts_rows, part_suffices, rows_suffice};
pub use statement::change;
pub use write::{Effect, Write, Writes};
