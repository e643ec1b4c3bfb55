//! The top calls: a session script is read from a source and run, and all replies and the final tables are written to a
//! sink. What they promise stands at `run_tell`.
#![tactic(auto)]

mod command;
mod ended;
mod input;
mod law;
mod run;

pub use ended::{Ended, Reason};
pub use run::{run_tell, run_turns};
