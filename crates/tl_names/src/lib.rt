//! Statements bound to a catalog: names by places, or the first fault.
#![tactic(auto)]

mod create;
mod error;
mod statement;

pub use create::define;
pub use error::BindError;
pub use statement::bind;
pub use tl_scope::{BindFault, BindKind};
