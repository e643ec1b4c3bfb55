//! The check of a history: which state of snapshot isolation a list of entries leads to, or the first entry that
//! the machine of snapshot isolation doesn't allow.
#![tactic(auto)]

mod answer;
mod begin;
mod begun;
mod commit;
mod held;
mod history;
mod nodes;
mod past;
mod said;
mod seen;
mod state;
mod statement;
mod stop;
mod undo;
mod vanish;

pub use history::{CheckFault, check, keep_keys};
