//! What the grammar says of `parsed`, the definition of reading that a parser meets.

ghost use Rattle.tl_grammar.specs.Few.{TuplesAreFew};
ghost use Rattle.tl_grammar.specs.Law.{AsWritten, Complete, DeepGoesOn, ExpectedComesFirst, ExpectedGoesOn, FaultPlace, FaultStops, Found, OneReading, ParseFaultStops, ParsedOrDeep};
ghost use Rattle.tl_grammar.specs.Whole.{StatementsAreWhole};

/// What is parsed is a statement of the grammar, each statement is parsed, and a fault stands at the first place where
/// no statement goes on.
pub fn parsed_exactly()
    ensures found { Found }
    ensures complete { Complete }
    ensures one { OneReading }
    ensures fault { FaultStops }
    ensures nowhere { ParseFaultStops }
    ensures deep { DeepGoesOn }
    ensures whole { ParsedOrDeep }
    ensures expected { ExpectedGoesOn }
    ensures first { ExpectedComesFirst }
    ensures place { FaultPlace }
    // One rule is read another way than it is written.
    ensures as_written { AsWritten }
{}

/// A statement has no more rows of values than tokens.
pub fn tuples_are_few()
    ensures few { TuplesAreFew }
{}

/// Each statement of the grammar is whole: lists, chains, AND and OR have something in them.
pub fn statements_are_whole()
    ensures whole { StatementsAreWhole }
{}
