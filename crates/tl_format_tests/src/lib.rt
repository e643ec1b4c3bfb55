//! The tests of what stands below statements: values and their bytes, cells, shards, managers, sources and sinks.
//! They stand apart, so that no crate of code is proved twice.
#![tactic(auto)]

#[cfg(test)]
mod cells;
#[cfg(test)]
mod collect;
#[cfg(test)]
mod descriptor;
#[cfg(test)]
mod fixtures;
#[cfg(test)]
mod io;
#[cfg(test)]
mod logrec;
#[cfg(test)]
mod manager;
#[cfg(test)]
mod map;
#[cfg(test)]
mod schema;
#[cfg(test)]
mod values;
#[cfg(test)]
mod versions;
