//! The lines of a session script, what a line may be, and the directives.
#![tactic(auto)]

mod directive;
mod field;
mod form;
mod laws;
mod line;
mod number;

pub use directive::{Directive, directive_in};
pub use form::{Form, form_of};
pub use laws::directives_are_in_range;
pub use line::split_line;
pub use number::number_within;
