//! The printed text of a run: what each session was answered, and the tables after all commits.
#![tactic(auto)]

mod answer;
mod run;
mod session;
mod stored;
mod table;
mod value;

pub use answer::{push_answer, push_ending};
pub use run::render;
pub use value::push_row;
