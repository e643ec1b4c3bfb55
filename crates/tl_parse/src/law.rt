//! What the lexer and the grammar agree on.

ghost use Rattle.tl_parse.specs.Law.{SameWords};

/// The lexer knows just the words of the grammar.
pub fn same_words()
    ensures { SameWords }
{}
