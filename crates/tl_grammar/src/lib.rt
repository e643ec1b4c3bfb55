//! The language: its syntax trees, its tokens, the grammar (in `specs/`), and the law that reading answers exactly the
//! grammar (in `proofs/`). No parser.
#![tactic(auto)]

mod condition;
mod expression;
mod fault;
mod law;
mod name;
mod operand;
mod select;
mod statement;
mod token;

pub use condition::Cond;
pub use expression::{Expr, Operator, Step};
pub use fault::{Expected, Fault, ParseFault};
pub use law::{parsed_exactly, statements_are_whole, tuples_are_few};
pub use name::{ColumnName, Name};
pub use operand::{Literal, Operand};
pub use select::{FromItem, OrderBy, OrderItem, SelectForm, SelectItem};
pub use statement::{ColumnForm, SetItem, Statement, Tuple};
pub use token::{Sign, Word};
