//! The driver of a run: shards, managers and nodes, one request at a time, with the journal of what happened.
#![tactic(auto)]

mod counts;
mod firsts;
mod notice;
mod opening;
mod request;
mod room;
mod slot;
mod tells;
mod terms;
mod world;

pub use world::{Turned, World};
