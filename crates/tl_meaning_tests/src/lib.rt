//! The tests of what statements mean: SELECT, changes, the plan of a statement, and the check
//! of a history. They stand apart, so that no crate
//! of code is proved twice.
#![tactic(auto)]

#[cfg(test)]
mod access;
#[cfg(test)]
mod algebra;
#[cfg(test)]
mod fixtures;
#[cfg(test)]
mod history;
#[cfg(test)]
mod plan;
#[cfg(test)]
mod write;
