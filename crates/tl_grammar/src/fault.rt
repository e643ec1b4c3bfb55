//! Why tokens are no statement.

/// What could have stood there, by the first form listed in the grammar.
#[derive(Clone, Copy, Debug, PartialEq, Eq)]
pub enum Expected {
    Word,
    Name,
    Number,
    Sign,
    End,
}

/// Where a text stops being the beginning of a statement.
#[derive(Clone, Copy, Debug, PartialEq, Eq)]
pub struct ParseFault {
    /// The place of a token's first byte, or of the text's end.
    pub at: u32,
    pub expected: Expected,
}

/// Why reading stopped, with the number of tokens from there on.
#[derive(Clone, Copy, Debug, PartialEq, Eq)]
pub enum Fault {
    Parse { left: usize, expected: Expected },
    /// Brackets and NOT nest too deep.
    Deep { left: usize },
}
