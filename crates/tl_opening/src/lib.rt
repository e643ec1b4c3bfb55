//! The rows that a database opens with, by their record keys: what INSERT does to them, and that they are what every
//! script may open with.
#![tactic(auto)]

mod laws;
mod opening;
mod rows;

pub use laws::{
    home_stands_under_keys, inserts_count, inserts_stay_home, opening_rows_fit, tables_stay_home,
};
pub use opening::insert;
pub use rows::opening_rows;
