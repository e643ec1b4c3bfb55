//! Numbers, flags and lists as bytes: written at the end of a list of bytes, and read from the left.
#![tactic(auto)]

mod fault;
mod reading;
mod sized;
mod spelled;
mod writing;

pub use fault::ReadFault;
pub use reading::{all_read, read_byte, read_flag, read_span, read_u16, read_u32, read_u64};
pub use spelled::{Spelled, read_many, write_many};
pub use writing::{write_u16, write_u32, write_u64};
