//! What a node asks of the places, in bytes, and what the bytes of a place's reply say.
#![tactic(auto)]

mod asked;
mod for_key;
mod given;
mod heard;
mod hears;
mod law;
mod layout;
mod reading;
mod requests;
mod txn_id;

pub use asked::Asked;
pub use given::is_outcome_of;
pub use heard::{CommitsCell, Found, LogCell, Page, RecordCell, StoreOutcome};
pub use hears::{
    hear_begin, hear_commits, hear_log, hear_manager, hear_numbers, hear_page, hear_record,
    hear_store,
};
pub use law::requests_alike;
pub use layout::Layout;
pub use requests::{
    ask_manager, draw_numbers, load_commits, load_log, load_record, read_page, store_commits,
    store_log, store_record,
};
pub use txn_id::TxnId;
