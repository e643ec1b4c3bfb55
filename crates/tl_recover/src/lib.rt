//! The recovery of vanished nodes, request by request: it undoes what each of their transactions left undecided, puts
//! it among the finished ones, and ends it at its manager.
#![tactic(auto)]

mod after;
mod duties;
mod ending;
mod finding;
mod finishing;
mod law;
mod lost_log;
mod phase;
mod recover;
mod stripping;

pub use law::{duties_go_on, recoveries_follow_the_node};
pub use phase::{Lost, Phase};
pub use recover::Recover;
