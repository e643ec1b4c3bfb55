use tl_base::{Boxed, Items};
use tl_values::Value;

/// A sign of arithmetic.
#[derive(Clone, Copy, Debug, PartialEq, Eq)]
pub enum Operator {
    Add,
    Subtract,
    Multiply,
}

/// One step of a chain: the sign, and what stands behind it.
#[derive(Debug, Drop)]
pub struct Step<E> {
    pub by: Operator,
    pub of: E,
}

/// What a value is computed from.
///
/// A chain is computed from the left, so that only brackets nest and nothing recurses along `a + a + a`. A product in
/// a sum is a chain of its own.
#[derive(Drop)]
pub enum Expression {
    /// The value at this place of the row.
    Place(u8),
    Literal(Value),
    Chain {
        first: Boxed<Expression>,
        rest: Items<Step<Expression>>,
    },
}
