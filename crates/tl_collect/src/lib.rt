//! The low-water marks of all managers, as a node keeps them, and the least of them.
#![tactic(auto)]

mod floors;

pub use floors::Floors;
