//! What the statements of the grammar of `tl_grammar` are made of, read from the tokens of `tl_tokens`: columns, literals,
//! lists of names, expressions and conditions.
#![tactic(auto)]

mod arithmetic;
mod condition;
mod operand;

pub use arithmetic::{expression, is_expression};
pub use condition::{MOST, filter, joining};
pub use operand::{column, is_column, literal, names};
