//! The tokens of a text that the grammar of `tl_grammar` knows, and the cursor over them that reads one after the other.
#![tactic(auto)]

mod cursor;
mod fault;
mod lexeme;
mod spelling;
mod text;

pub use cursor::{
    Cursor, given_sign, given_word, is_name, is_sign, is_word, name, number, sign, word,
};
pub use fault::Stop;
pub use lexeme::{Lexeme, LexemeKind, lexemes};
pub use text::unquoted;
