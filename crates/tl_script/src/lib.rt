//! What a script is, read from its bytes: a table of two INT columns, its opening rows, the sessions of the nodes, and
//! the schedule.
#![tactic(auto)]

mod build;
mod directive;
mod fault;
mod field;
mod line;
mod name;
mod number;
mod opening;
mod reader;
mod script;
mod statement;
mod words;

pub use fault::{ScriptError, ScriptKind};
pub use number::number_within;
pub use script::read_script;
