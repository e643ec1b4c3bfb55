//! Statements without faults, with names replaced by places.
#![tactic(auto)]

mod change;
mod condition;
mod expression;
mod laws;
mod place;
mod select;

pub use change::{delete_of, insert_of, update_of};
pub use laws::bound_conditions_fit;
pub use select::{query_of, table_number};
