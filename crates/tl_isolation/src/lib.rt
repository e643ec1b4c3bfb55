//! Snapshot isolation: the statements of a session in their bound form, the entries that tell what became of them,
//! and the machine that says which lists of entries are a history. There is no code here: the definitions that the
//! promises of Tell are measured by stand in `specs/`, over these types, with the law of all histories.
#![tactic(auto)]

mod bound;
mod entry;
mod law;
mod script;
mod state;

pub use bound::Bound;
pub use entry::{Answer, Ending, Entry, Said};
pub use law::{bound_queries_suit_their_groups, histories_keep_their_promises};
pub use script::{Script, Session, TurnItem, Vanish, VanishKind};
pub use state::{Commit, NodeState, SiState, Transaction, TxnPhase};
