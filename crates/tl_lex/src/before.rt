//! What stands before a token, as far as a number's sign depends on it.

ghost use Rattle.std.specs.Prelude.{◌≡◌};
ghost use Rattle.tl_lex.specs.Before.{after, after_name, after_sign};

use crate::token::TokenKind;
use crate::word::{is_literal_word, is_word};

#[derive(Clone, Copy, Debug, PartialEq, Eq)]
pub enum Before {
    /// Nothing, or a token after which a minus sign begins a literal.
    Free,
    /// A minus sign that begins a literal.
    Minus,
    /// The end of a value, after which a minus sign subtracts.
    Value,
}

/// What stands before the next token, after a token of this kind with these bytes.
pub fn after(before: Before, kind: TokenKind, bytes: &[u8]) -> Before
    ensures { result ≡ after before kind bytes.now }
{
    match kind {
        TokenKind::Name => after_name(bytes),
        TokenKind::Number => Before::Value,
        TokenKind::Text => Before::Value,
        TokenKind::Sign => after_sign(before, bytes),
    }
}

fn after_name(name: &[u8]) -> Before
    ensures { result ≡ after_name name.now }
{
    if is_word(name) && !is_literal_word(name) {
        Before::Free
    } else {
        Before::Value
    }
}

fn after_sign(before: Before, sign: &[u8]) -> Before
    ensures { result ≡ after_sign before sign.now }
{
    match sign {
        [b')', ..] => Before::Value,
        [b'-', ..] => match before {
            Before::Value => Before::Free,
            _ => Before::Minus,
        },
        _ => Before::Free,
    }
}
