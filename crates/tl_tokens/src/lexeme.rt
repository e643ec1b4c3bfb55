//! The tokens of a text with what is written there.

ghost use Rattle.std.specs.Prelude.{◌≡◌, ◌≤◌, true, false, All, IfOk};
ghost use Rattle.std.specs.Str.{str_to_ascii_lowercase};
ghost use Rattle.std.specs.Str.Parse.{digits_value};
ghost use Rattle.std.specs.Char.{is_ascii_digit};
ghost use Rattle.std.specs.List.{list_all};
ghost use Rattle.tl_grammar.specs.Spelling.{sign_spellings, spelled, word_spellings};
ghost use Rattle.tl_grammar.specs.Token as grammar;
ghost use Rattle.tl_lex.specs.declared.token.TokenKind.TheVariants as lexed;
ghost use Rattle.tl_tokens.specs.Lexemes.{kind_of, token_of, tokens_of, without_doubles};
ghost use Rattle.tl_tokens.specs.Tokens.{IsPiece, IsWritten, piece_of, token_in, tokens_in};

use crate::spelling::{sign_of, word_of};
use std::alloc::Global;
use tl_base::{Items, NoMemory};
use tl_grammar::{Sign, Word};
use tl_lex::{Token, TokenKind, limited_value};

/// What a token is: a word of the grammar or another name, a number, a text, a sign of the grammar or none of these.
#[derive(Clone, Copy)]
pub enum LexemeKind<'a> {
    Word(Word),
    /// As it is written, in either case.
    Name(&'a str),
    /// Its value, at most 2^63.
    Number(u64),
    /// What stands between the outer quotes, with two quotes for one.
    Text(&'a str),
    Sign(Sign),
    Other,
}

/// A token, with the byte of the text at which it begins.
#[derive(Clone, Copy)]
pub struct Lexeme<'a> {
    pub kind: LexemeKind<'a>,
    pub start: u32,
}

/// What stands in the text at each of these tokens, which a lexer found there.
pub fn lexemes<'a>(
    alloc: Global,
    text: &'a str,
    tokens: &[Token],
) -> Result<Items<Lexeme<'a>>, NoMemory>
    requires { All (IsWritten text.now) tokens.now }
    ensures { IfOk result (λ found. tokens_of found ≡ tokens_in text.now tokens.now) }
{
    let mut found = Items::new(alloc);
    for token in tokens {
        found.push(lexeme_in(text, *token))?;
    }
    Ok(found)
}

#[tactic(auto, using(crate::proofs::Pieces::piece_of_text))]
fn lexeme_in(text: &str, token: Token) -> Lexeme<'_>
    requires { IsWritten text.now token }
    ensures { token_of result ≡ token_in text.now token }
{
    let piece = &text[token.start as usize..token.end as usize];
    Lexeme {
        kind: kind_of_piece(token.kind, piece),
        start: token.start,
    }
}

fn kind_of_piece(kind: TokenKind, piece: &str) -> LexemeKind<'_>
    requires { IsPiece kind piece.now }
    ensures { kind_of result ≡ grammar.kind_of (piece_of kind) piece.now }
{
    match kind {
        TokenKind::Name => word_or_name(piece),
        TokenKind::Number => LexemeKind::Number(value_of(piece.as_bytes())),
        TokenKind::Text => LexemeKind::Text(between_quotes(piece)),
        TokenKind::Sign => sign_or_other(piece),
    }
}

/// Without the first and the last byte.
#[tactic(auto, using(crate::proofs::Quoted::quoted))]
fn between_quotes(piece: &str) -> &str
    requires { IsPiece lexed.Text piece.now }
    ensures { without_doubles result.now false ≡ grammar.unquoted piece.now }
{
    &piece[1..piece.len() - 1]
}

fn word_or_name(piece: &str) -> LexemeKind<'_>
    ensures { kind_of result ≡ grammar.word_or_name (str_to_ascii_lowercase piece.now) (spelled word_spellings (str_to_ascii_lowercase piece.now)) }
{
    match word_of(piece.as_bytes()) {
        Some(word) => LexemeKind::Word(word),
        None => LexemeKind::Name(piece),
    }
}

fn sign_or_other(piece: &str) -> LexemeKind<'_>
    ensures { kind_of result ≡ grammar.sign_or_other (spelled sign_spellings piece.now) }
{
    match sign_of(piece.as_bytes()) {
        Some(sign) => LexemeKind::Sign(sign),
        None => LexemeKind::Other,
    }
}

/// The number that the digits stand for.
#[tactic(auto, using(crate::proofs::Pieces::small_numbers))]
fn value_of(digits: &[u8]) -> u64
    requires digits { list_all is_ascii_digit digits.now ≡ true }
    requires fits { digits_value 10 digits.now ≤ 9223372036854775808 }
    ensures { result ≡ digits_value 10 digits.now }
{
    limited_value(digits) as u64
}
