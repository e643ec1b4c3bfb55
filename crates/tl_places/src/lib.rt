//! The shards and the managers of a run: the store with the rows that a script opens with, and what is served and
//! posted from there on.
#![tactic(auto)]

mod law;
mod opening;
mod places;
mod rows;

pub use law::places_serve_their_logs;
pub use places::Places;
pub use rows::opening_rows;
