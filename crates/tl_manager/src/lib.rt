//! The commit manager: it numbers transactions, hands out their snapshots and its low-water mark, and keeps the death
//! notices of vanished nodes. With it the requests and replies of all places, and the law that a manager's replies
//! follow from the requests and replies before them.
#![tactic(auto)]

mod active;
mod board;
mod floor;
mod gone;
mod law;
mod manager;
mod mark;
mod ranges;
mod request;

pub use active::Active;
pub use gone::Gone;
pub use law::{floor_begins_all, numbers_are_given_in_order, served_calls_follow_the_log};
pub use manager::Manager;
pub use mark::{Mark, TxnStep};
pub use request::{ManagerReply, ManagerRequest, Reply, Request, Tids};
