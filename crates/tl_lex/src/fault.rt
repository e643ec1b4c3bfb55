//! Why a text has no tokens.

ghost use Rattle.std.specs.Prelude.{◌≡◌};
ghost use Rattle.tl_lex.specs.declared.fault.LexError.TheVariants as error;

use thiserror::Error;
use tl_base::NoMemory;

/// What is wrong with a text.
#[derive(Clone, Copy, Debug, PartialEq, Eq, Error)]
pub enum LexKind {
    /// A character that begins no token.
    #[error("BadCharacter")]
    BadCharacter,
    /// A text without its closing quote.
    #[error("Unclosed")]
    Unclosed,
    /// A number that doesn't fit 64 bits with its sign.
    #[error("Wide")]
    Wide,
    /// A name of more than 31 bytes.
    #[error("LongName")]
    LongName,
}

/// What is wrong with the token that begins at this byte.
#[derive(Clone, Copy, Debug, PartialEq, Eq, Error)]
#[error("byte {at}: {kind}")]
pub struct LexFault {
    pub at: u32,
    pub kind: LexKind,
}

#[derive(Clone, Copy, Debug, PartialEq, Eq, Error)]
pub enum LexError {
    /// The first fault of the text.
    #[error("{0}")]
    Fault(LexFault),
    #[error("out of memory")]
    NoMemory,
}

impl From<LexFault> for LexError {
    ghost from_gives = { λ fault e. e ≡ error.Fault fault };

    fn from(fault: LexFault) -> LexError {
        LexError::Fault(fault)
    }
}

impl From<NoMemory> for LexError {
    ghost from_gives = { λ _ e. e ≡ error.NoMemory };

    fn from(_error: NoMemory) -> LexError {
        LexError::NoMemory
    }
}
