//! Where reading stands, and how single tokens are read.
//!
//! What reads a form answers what it found and the cursor behind it, or why it stopped.

ghost use Rattle.std.specs.Prelude.{◌≡◌, Option, length, Err, IfOk};
ghost use Rattle.tl_grammar.specs.Form.{missing, or_else, place_of, some, starts};
ghost use Rattle.tl_grammar.specs.Grammar.{name, number, sign, word, given};
ghost use Rattle.tl_grammar.specs.Pick.{name_kind, number_kind, sign_kind, word_kind};
ghost use Rattle.tl_tokens.specs.Lexemes.{kind_of};
ghost use Rattle.tl_tokens.specs.Seen.{Reads, seen};

use crate::fault::Stop;
use crate::lexeme::{Lexeme, LexemeKind};
use crate::spelling::{sign_number, word_number};
use std::alloc::Global;
use tl_base::{NoMemory, Text};
use tl_grammar::{Expected, Fault, Name, Sign, Word};

/// The tokens from here on, and what was looked for here first and in vain, if anything was.
#[derive(Clone, Copy)]
pub struct Cursor<'a> {
    pub wanted: Option<Expected>,
    pub rest: &'a [Lexeme<'a>],
}

impl<'a> Cursor<'a> {
    /// The number of tokens from here on.
    pub fn left(self) -> usize
        ensures { result ≡ length (seen self.entry).rest }
    {
        self.rest.len()
    }

    /// The byte of the text at which the token that stands here begins, and 0 behind the last token.
    pub fn place(self) -> u32
        ensures { result ≡ place_of (seen self.entry).rest }
    {
        match self.rest {
            [token, ..] => token.start,
            [] => 0,
        }
    }

    /// The same tokens, once this was looked for here in vain: what was looked for first is kept.
    pub fn missing(self, expected: Expected) -> Cursor<'a>
        ensures { seen result ≡ missing expected (seen self.entry) }
    {
        let wanted = match self.wanted {
            None => expected,
            Some(first) => first,
        };
        Cursor {
            wanted: Some(wanted),
            rest: self.rest,
        }
    }

    /// The fault that what was looked for first is missing here, and this where nothing was.
    pub fn refused(self, expected: Expected) -> Stop
        ensures { result ≡ Stop.Fault (Fault.Parse (length (seen self.entry).rest) (or_else self.entry.wanted expected)) }
    {
        let expected = match self.wanted {
            None => expected,
            Some(first) => first,
        };
        Stop::Fault(Fault::Parse {
            left: self.left(),
            expected,
        })
    }

    /// The fault that brackets and NOT nest too deep here.
    pub fn deep(self) -> Stop
        ensures { result ≡ Stop.Fault (Fault.Deep (length (seen self.entry).rest)) }
    {
        Stop::Fault(Fault::Deep { left: self.left() })
    }
}

fn word_of(x: Word, token: Lexeme<'_>) -> Option<u32>
    ensures { result ≡ word_kind x token.entry.start (kind_of token.entry.kind) }
{
    match token.kind {
        LexemeKind::Word(y) => {
            if word_number(x) == word_number(y) {
                Some(token.start)
            } else {
                None
            }
        }
        _ => None,
    }
}

/// This word, found as the byte at which it begins.
#[tactic(auto, unfolding(tl_grammar::specs::Grammar::word))]
pub fn word<'a>(x: Word, at: Cursor<'a>) -> Result<(u32, Cursor<'a>), Stop>
    ensures { Reads result ((word x).read (seen at.entry)) }
{
    match at.rest {
        [token, rest @ ..] => match word_of(x, *token) {
            Some(found) => Ok((found, Cursor { wanted: None, rest })),
            None => Err(at.refused(Expected::Word)),
        },
        [] => Err(at.refused(Expected::Word)),
    }
}

/// Whether this word stands here.
#[tactic(auto, unfolding(tl_grammar::specs::Grammar::word))]
pub fn is_word(x: Word, at: Cursor<'_>) -> bool
    ensures { result ≡ starts (word x).begins (seen at.entry).rest }
{
    match at.rest {
        [token, ..] => word_of(x, *token).is_some(),
        [] => false,
    }
}

fn sign_of(x: Sign, token: Lexeme<'_>) -> Option<u32>
    ensures { result ≡ sign_kind x token.entry.start (kind_of token.entry.kind) }
{
    match token.kind {
        LexemeKind::Sign(y) => {
            if sign_number(x) == sign_number(y) {
                Some(token.start)
            } else {
                None
            }
        }
        _ => None,
    }
}

/// This sign, found as the byte at which it begins.
#[tactic(auto, unfolding(tl_grammar::specs::Grammar::sign))]
pub fn sign<'a>(x: Sign, at: Cursor<'a>) -> Result<(u32, Cursor<'a>), Stop>
    ensures { Reads result ((sign x).read (seen at.entry)) }
{
    match at.rest {
        [token, rest @ ..] => match sign_of(x, *token) {
            Some(found) => Ok((found, Cursor { wanted: None, rest })),
            None => Err(at.refused(Expected::Sign)),
        },
        [] => Err(at.refused(Expected::Sign)),
    }
}

/// Whether this sign stands here.
#[tactic(auto, unfolding(tl_grammar::specs::Grammar::sign))]
pub fn is_sign(x: Sign, at: Cursor<'_>) -> bool
    ensures { result ≡ starts (sign x).begins (seen at.entry).rest }
{
    match at.rest {
        [token, ..] => sign_of(x, *token).is_some(),
        [] => false,
    }
}

/// In lower case.
fn name_of(alloc: Global, token: Lexeme<'_>) -> Result<Option<Name>, NoMemory>
    ensures { IfOk result (λ found. found ≡ name_kind token.entry.start (kind_of token.entry.kind)) }
{
    match token.kind {
        LexemeKind::Name(written) => {
            let text = Text::from_string(written.to_ascii_lowercase(alloc)?);
            Ok(Some(Name {
                at: token.start,
                text,
            }))
        }
        _ => Ok(None),
    }
}

/// A name, found in lower case.
#[tactic(auto, unfolding(tl_grammar::specs::Grammar::name))]
pub fn name<'a>(alloc: Global, at: Cursor<'a>) -> Result<(Name, Cursor<'a>), Stop>
    ensures { Reads result (name.read (seen at.entry)) }
{
    match at.rest {
        [token, rest @ ..] => match name_of(alloc, *token)? {
            Some(found) => Ok((found, Cursor { wanted: None, rest })),
            None => Err(at.refused(Expected::Name)),
        },
        [] => Err(at.refused(Expected::Name)),
    }
}

fn is_a_name(token: Lexeme<'_>) -> bool
    ensures { result ≡ some (name_kind token.entry.start (kind_of token.entry.kind)) }
{
    matches!(token.kind, LexemeKind::Name(_))
}

/// Whether a name stands here.
#[tactic(auto, unfolding(tl_grammar::specs::Grammar::name))]
pub fn is_name(at: Cursor<'_>) -> bool
    ensures { result ≡ starts name.begins (seen at.entry).rest }
{
    match at.rest {
        [token, ..] => is_a_name(*token),
        [] => false,
    }
}

fn number_of(token: Lexeme<'_>) -> Option<u64>
    ensures { result ≡ number_kind (kind_of token.entry.kind) }
{
    match token.kind {
        LexemeKind::Number(n) => Some(n),
        _ => None,
    }
}

/// A number without a sign, found as its value, at most 2^63.
#[tactic(auto, unfolding(tl_grammar::specs::Grammar::number))]
pub fn number<'a>(at: Cursor<'a>) -> Result<(u64, Cursor<'a>), Stop>
    ensures { Reads result (number.read (seen at.entry)) }
{
    match at.rest {
        [token, rest @ ..] => match number_of(*token) {
            Some(found) => Ok((found, Cursor { wanted: None, rest })),
            None => Err(at.refused(Expected::Number)),
        },
        [] => Err(at.refused(Expected::Number)),
    }
}

/// Whether this word stands here, and the cursor behind it if it does.
#[tactic(auto, unfolding(tl_grammar::specs::Grammar::given))]
pub fn given_word<'a>(x: Word, at: Cursor<'a>) -> Result<(bool, Cursor<'a>), Stop>
    ensures { Reads result ((given (word x)).read (seen at.entry)) }
{
    if is_word(x, at) {
        let (_, at) = word(x, at)?;
        return Ok((true, at));
    }
    Ok((false, at.missing(Expected::Word)))
}

/// Whether this sign stands here, and the cursor behind it if it does.
#[tactic(auto, unfolding(tl_grammar::specs::Grammar::given))]
pub fn given_sign<'a>(x: Sign, at: Cursor<'a>) -> Result<(bool, Cursor<'a>), Stop>
    ensures { Reads result ((given (sign x)).read (seen at.entry)) }
{
    if is_sign(x, at) {
        let (_, at) = sign(x, at)?;
        return Ok((true, at));
    }
    Ok((false, at.missing(Expected::Sign)))
}
