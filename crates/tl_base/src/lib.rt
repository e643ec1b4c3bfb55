//! The types that every crate of Tell stands on: want of memory, the names of nodes and places, lists that
//! contracts see as lists, the requests of the store, and the machine that a place runs.
#![tactic(auto)]

mod boxed;
mod bytes;
mod duplicate;
mod items;
mod machine;
mod memory;
mod node;
mod place;
mod store;
mod text;

pub use boxed::Boxed;
pub use bytes::{Bytes, Keys};
pub use duplicate::Duplicate;
pub use items::Items;
pub use machine::Machine;
pub use memory::NoMemory;
pub use node::{NodeId, NodeSet};
pub use place::{PlaceId, Settings};
pub use store::{Item, Stamp, StoreReply, StoreRequest, Tid};
pub use text::Text;
