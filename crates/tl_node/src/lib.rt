//! A node: it runs the statements of its session, one request after the other.
#![tactic(auto)]

mod ends;
mod hears;
mod kept;
mod node;
mod outside;
mod reads;
mod running;
mod told;
mod work;

pub use node::Node;
pub use told::{Rest, Told};
