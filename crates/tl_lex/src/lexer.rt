//! The tokens of a text.

ghost use Rattle.std.specs.Prelude.{◌≡◌, ◌<◌, ◌≤◌, ◌^◌, [], drop, length, All, IfOk, IfErr, IfSome};
ghost use Rattle.tl_lex.specs.Lexed.{Gives, lexed, next_token, past_blanks};
ghost use Rattle.tl_lex.specs.Spans.{AreSigned, InOrder, IsCut, IsPlaced};

use crate::before::{Before, after};
use crate::fault::{LexError, LexFault};
use crate::front::{blanks_len, token_at};
use crate::token::{Token, Tokens};
use std::alloc::Global;
use tl_base::Items;

/// The tokens of the text, or its first fault.
pub fn lex(alloc: Global, text: &str) -> Result<Tokens, LexError>
    requires { length text.now < 2 ^ 31 }
    ensures exact { Gives result (lexed text.now) }
    ensures in_order { IfOk result (λ tokens. InOrder text.now 0 tokens) }
    ensures cut { IfOk result (λ tokens. All (IsCut text.now) tokens) }
    ensures signed { IfOk result (λ tokens. AreSigned text.now [] tokens) }
    ensures place { IfErr result (λ error. IsPlaced text.now error) }
{
    tokens_of(alloc, text.as_bytes())
}

fn tokens_of(alloc: Global, text: &[u8]) -> Result<Tokens, LexError>
    requires { length text.now < 2 ^ 31 }
    ensures { Gives result (lexed text.now) }
{
    let mut tokens = Items::new(alloc);
    let mut before = Before::Free;
    let mut at: u32 = 0;
    while let Some(token) = next_token(text, before, at)? {
        let bytes = &text[token.start as usize..token.end as usize];
        before = after(before, token.kind, bytes);
        at = token.end;
        tokens.push(token)?;
    }
    Ok(tokens)
}

/// The token behind the blanks from this place on, if there is one.
#[tactic(auto, unfolding(crate::specs::Lexed::next_token))]
fn next_token(text: &[u8], before: Before, at: u32) -> Result<Option<Token>, LexFault>
    requires short { length text.now < 2 ^ 31 }
    requires within { at ≤ length text.now }
    ensures token { result ≡ next_token text.now before at }
    ensures within { IfOk result (λ found. IfSome found (λ token. (at ≤ token.start) × (token.start < token.end) × (token.end ≤ length text.now))) }
{
    let start = past_blanks(text, at);
    if start as usize == text.len() {
        return Ok(None);
    }
    match token_at(before, from_place(text, start)) {
        Ok((kind, len)) => Ok(Some(Token {
            kind,
            start,
            end: start + len as u32,
        })),
        Err(kind) => Err(LexFault { at: start, kind }),
    }
}

/// Where the blanks from this place on end.
fn past_blanks(text: &[u8], at: u32) -> u32
    requires short { length text.now < 2 ^ 31 }
    requires within { at ≤ length text.now }
    ensures place { result ≡ past_blanks text.now at }
    ensures behind { at ≤ result }
    ensures inside { result ≤ length text.now }
{
    at + blanks_len(from_place(text, at)) as u32
}

fn from_place(text: &[u8], at: u32) -> &[u8]
    requires { at ≤ length text.now }
    ensures { result.now ≡ drop at text.now }
{
    let (_, rest) = text.split_at(at as usize);
    rest
}
