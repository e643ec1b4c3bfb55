//! What the names of a statement mean, and every fault of a statement, with the first of them.
#![tactic(auto)]

mod change;
mod condition;
mod create;
mod expression;
mod fault;
mod found;
mod names;
mod scope;
mod select;
mod statement;

pub use fault::{BindFault, BindKind};
pub use found::{Found, Spot};
pub use names::Names;
pub use scope::{Scope, Source, column_place, push_item, scope_in, scope_of, table_named};
pub use statement::statement_fault;
