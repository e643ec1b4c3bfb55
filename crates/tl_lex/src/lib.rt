//! The tokens of SQL text: names, numbers, texts and signs, each with the place where it stands, or the first fault.
#![tactic(auto)]

mod before;
mod fault;
mod front;
mod lexer;
mod token;
mod word;

pub use fault::{LexError, LexFault, LexKind};
pub use front::limited_value;
pub use lexer::lex;
pub use token::{Token, TokenKind, Tokens};
