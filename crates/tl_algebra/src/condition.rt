use tl_base::{Boxed, Items};
use tl_values::{Comparison, Value};

/// A side of a test.
#[derive(Debug, Drop)]
pub enum Side {
    /// The value at this place of the row.
    Place(u8),
    Literal(Value),
}

/// What is true, unknown or false of a row.
#[derive(Drop)]
pub enum Condition {
    Test {
        left: Side,
        by: Comparison,
        right: Side,
    },
    /// IS NULL, or IS NOT NULL where it is negated.
    IsNull {
        of: Side,
        negated: bool,
    },
    Not(Boxed<Condition>),
    And(Items<Condition>),
    Or(Items<Condition>),
}
