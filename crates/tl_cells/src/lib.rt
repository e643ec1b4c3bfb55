//! One shard of the store: its cells and counters, what it answers to each request, and the law that its
//! replies follow from the requests and replies before them.
#![tactic(auto)]

mod cell;
mod law;
mod place;
mod shard;

pub use cell::Cell;
pub use law::served_calls_follow_the_log;
pub use place::shard_of;
pub use shard::Shard;
