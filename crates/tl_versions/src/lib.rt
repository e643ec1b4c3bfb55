//! The versions of a record: which one a transaction sees, and the bytes of the record's cell.
#![tactic(auto)]

mod entry;
mod fault;
mod laws;
mod reading;
mod version;
mod versions;

pub use fault::CellFault;
pub use laws::{cells_are_read, cells_stay_cells, no_stranger_is_new, prune_keeps_the_visible};
pub use version::Version;
pub use versions::Versions;
