use tl_base::Items;

/// The tokens of a text, in order.
pub type Tokens = Items<Token>;

#[derive(Clone, Copy, Debug, PartialEq, Eq)]
pub enum TokenKind {
    /// A word of the grammar too.
    Name,
    /// Decimal digits. A minus sign before them is a token of its own.
    Number,
    /// What stands between quotes, with them.
    Text,
    Sign,
}

/// The bytes of a text from `start` up to `end`.
#[derive(Clone, Copy, Debug, PartialEq, Eq)]
pub struct Token {
    pub kind: TokenKind,
    pub start: u32,
    pub end: u32,
}
