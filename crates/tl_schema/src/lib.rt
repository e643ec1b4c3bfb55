//! What a database is made of: tables and their columns, and the bytes of rows and of the keys that they stand under.
#![tactic(auto)]

mod access;
mod catalog;
mod copy;
mod fault;
mod laws;
mod limits;
mod reading;
mod record;
mod spelling;

pub use access::Access;
pub use catalog::{Catalog, Column, Index, OpeningRow, Setup, Table};
pub use fault::RowFault;
pub use laws::{entries_in_order, rows_differ};
pub use limits::{LONGEST_KEY, LONGEST_ROW, breaks_not_null, is_long};
pub use reading::row_of;
pub use record::{RECORD, entries_of, entry_key, key_values, record_key, store_key};
pub use spelling::row_bytes;
