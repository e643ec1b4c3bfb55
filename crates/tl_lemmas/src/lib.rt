//! Lemmas on truth values, orderings and lists that several crates cite and std lacks. There is no code here.
#![tactic(auto)]
