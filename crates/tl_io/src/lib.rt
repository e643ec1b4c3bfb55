//! Where a script comes from, where the text goes, and the gate of the places: a source gives bytes piece by piece,
//! a sink takes them, and each counts its failed calls. Here too are the two loops over them: reading to the end of
//! the input, and writing a whole text.
#![tactic(auto)]

mod calls;
mod failed;
mod gate;
mod memory;
mod reading;
mod sink;
mod source;
mod standard;
mod steady;
mod unread;
mod writing;

pub use calls::Calls;
pub use failed::Failed;
pub use gate::{Gate, NoGate};
pub use memory::{MemorySink, MemorySource};
pub use reading::{ReadError, read_all};
pub use sink::Sink;
pub use source::Source;
pub use standard::{InputSource, OutputSink};
pub use steady::{SteadySink, SteadySource};
pub use writing::write_all;
