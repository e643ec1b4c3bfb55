//! The tests of the language: the tokens of a text, and the statement that they say. They stand apart, so that no crate of
//! code is proved twice.
#![tactic(auto)]

#[cfg(test)]
mod lex;
#[cfg(test)]
mod parse;
