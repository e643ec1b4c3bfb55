//! The statement of a text, read by the grammar of `tl_grammar` from the tokens of `tl_tokens`, or the first fault.
#![tactic(auto)]

mod create;
mod fault;
mod from;
mod insert;
mod law;
mod parser;
mod select;
mod statement;
mod update;

pub use fault::ParseError;
pub use law::same_words;
pub use parser::parse;
