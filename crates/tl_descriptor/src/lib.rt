//! Descriptors: which transactions are finished, as a set of their tids.
#![tactic(auto)]

mod descriptor;
mod fault;
mod laws;
mod reading;
mod run;
mod runs;

pub use descriptor::Descriptor;
pub use fault::{DescriptorFault, InsertFault};
pub use laws::{begins_is_an_order, inserted_is_one_more, same_members, sets_are_read};
pub use run::Run;
