//! Why a text is no statement.

ghost use Rattle.std.specs.Prelude.{◌≡◌};
ghost use Rattle.tl_parse.specs.Read.{lex_error};

use tl_base::NoMemory;
use tl_grammar::ParseFault;
use tl_lex::{LexError, LexFault};

/// Why a text is no statement: its first fault, the tokens' before the statement's.
#[derive(Clone, Copy, Debug, PartialEq, Eq)]
pub enum ParseError {
    Lex(LexFault),
    Parse(ParseFault),
    /// The 65th bracket or NOT opens at this byte while 64 are open.
    Deep { at: u32 },
    NoMemory,
}

impl From<NoMemory> for ParseError {
    ghost use Rattle.tl_parse.specs.declared.fault.ParseError.TheVariants as error;

    ghost from_gives = { λ _ e. e ≡ error.NoMemory };

    fn from(_error: NoMemory) -> ParseError {
        ParseError::NoMemory
    }
}

impl From<LexError> for ParseError {
    ghost from_gives = { λ error e. e ≡ lex_error error };

    fn from(error: LexError) -> ParseError {
        match error {
            LexError::Fault(fault) => ParseError::Lex(fault),
            LexError::NoMemory => ParseError::NoMemory,
        }
    }
}
