//! The statement of a text.

ghost use Rattle.std.specs.Prelude.{◌≡◌, ◌<◌, ◌≤◌, ◌^◌, length, All, IfOk};
ghost use Rattle.tl_grammar.specs.Few.{tuple_count};
ghost use Rattle.tl_grammar.specs.Grammar.{fault_place, parsed, place_or_end};
ghost use Rattle.tl_grammar.specs.Whole.{IsWhole};
ghost use Rattle.tl_tokens.specs.Lexemes.{tokens_of};
ghost use Rattle.tl_parse.specs.Read.{Answers, read, statement_of, stopped};
ghost use Rattle.tl_tokens.specs.Seen.{Gives};
ghost use Rattle.tl_tokens.specs.Tokens.{IsWritten};

use crate::fault::ParseError;
use crate::statement::sentence;
use std::alloc::Global;
use tl_grammar::{Expected, Fault, ParseFault, Statement};
use tl_lex::{Token, lex};
use tl_tokens::{Cursor, Lexeme, Stop, lexemes};

/// The statement of the text, or its first fault.
pub fn parse(alloc: Global, text: &str) -> Result<Statement, ParseError>
    requires { length text.now < 2 ^ 31 }
    ensures exact { Answers result (statement_of text.now) }
    ensures whole { IfOk result (λ statement. IsWhole statement) }
    ensures few { IfOk result (λ statement. tuple_count statement ≤ length text.now) }
{
    let tokens = lex(alloc, text)?;
    read(alloc, text, tokens.as_slice())
}

/// The statement of these tokens of the text, or its first fault.
fn read(alloc: Global, text: &str, tokens: &[Token]) -> Result<Statement, ParseError>
    requires short { length text.now < 2 ^ 31 }
    requires written { All (IsWritten text.now) tokens.now }
    ensures { Answers result (read text.now tokens.now) }
{
    let lexemes = lexemes(alloc, text, tokens)?;
    let end = text.len() as u32;
    match parsed(alloc, lexemes.as_slice()) {
        Ok(found) => Ok(found),
        Err(stop) => Err(placed(end, lexemes.as_slice(), stop)),
    }
}

/// The fault with its place in the text.
fn placed(end: u32, tokens: &[Lexeme<'_>], stop: Stop) -> ParseError
    ensures { result ≡ stopped end (tokens_of tokens.now) stop }
{
    match stop {
        Stop::Fault(Fault::Parse { left, expected }) => ParseError::Parse(ParseFault {
            at: place(end, tokens, left),
            expected,
        }),
        Stop::Fault(Fault::Deep { left }) => ParseError::Deep {
            at: place(end, tokens, left),
        },
        Stop::NoMemory => ParseError::NoMemory,
    }
}

/// Where the token begins with which so many are left; with none left, the end.
fn place(end: u32, tokens: &[Lexeme<'_>], left: usize) -> u32
    ensures { result ≡ fault_place end (tokens_of tokens.now) left }
{
    let (_, rest) = tokens.split_at(tokens.len().saturating_sub(left));
    place_or_end(end, rest)
}

/// Where the first of these tokens begins.
fn place_or_end(end: u32, tokens: &[Lexeme<'_>]) -> u32
    ensures { result ≡ place_or_end end (tokens_of tokens.now) }
{
    match tokens {
        [token, ..] => token.start,
        [] => end,
    }
}

#[tactic(auto, unfolding(tl_grammar::specs::Grammar::parsed_within))]
fn parsed(alloc: Global, tokens: &[Lexeme<'_>]) -> Result<Statement, Stop>
    ensures { Gives (λ s. s) result (parsed (tokens_of tokens.now)) }
{
    let start = Cursor {
        wanted: None,
        rest: tokens,
    };
    let (found, at) = sentence(alloc, start)?;
    match at.rest {
        [] => Ok(found),
        [_, ..] => Err(at.refused(Expected::End)),
    }
}
