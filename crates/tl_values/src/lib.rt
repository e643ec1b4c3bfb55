//! The values of SQL, their order and comparison, and the bytes under which a list of values is a key.
#![tactic(auto)]

mod comparison;
mod copy;
mod fault;
mod key;
mod laws;
mod reading;
mod row;
mod value;

pub use comparison::{compare, order};
pub use copy::{copy_row, prove_value, prove_values};
pub use fault::KeyFault;
pub use key::encode_key;
pub use laws::{key_order, keys_differ, rows_in_order, values_in_order};
pub use reading::decode_key;
pub use row::{copy_at, values_at};
pub use value::{Comparison, Kind, Row, Rows, Truth, Value};
