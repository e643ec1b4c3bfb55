//! The tests of what a node does request by request, of the places that serve it, and of printed answers. They stand apart, so that no crate
//! of code is proved twice.
#![tactic(auto)]

#[cfg(test)]
mod answer;
#[cfg(test)]
mod ask;
#[cfg(test)]
mod places;
#[cfg(test)]
mod render;
#[cfg(test)]
mod tables;
