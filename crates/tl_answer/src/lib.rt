//! What a statement is answered, by the rows that were read for it: the own writes of its transaction are laid over
//! them first.
#![tactic(auto)]

mod answer;
mod change;
mod query;
mod seen;
mod table;

pub use answer::{copy_answer, is_refusal};
pub use change::answer_change;
pub use query::answer_query;
