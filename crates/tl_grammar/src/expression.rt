use crate::operand::Operand;
use tl_base::{Boxed, Items};

/// A sign of arithmetic.
#[derive(Clone, Copy, Debug, PartialEq, Eq)]
pub enum Operator {
    Add,
    Subtract,
    Multiply,
}

/// One step of a chain: the sign, and what stands behind it.
#[derive(Debug, Drop)]
pub struct Step<E> {
    pub by: Operator,
    pub of: E,
}

/// An expression. Brackets leave nothing but its form.
///
/// A chain is computed from the left, so that only brackets nest and nothing recurses along `a + a + a`. A product in
/// a sum is a chain of its own.
#[derive(Drop)]
pub enum Expr {
    Operand(Operand),
    /// At least one step.
    Chain {
        first: Boxed<Expr>,
        rest: Items<Step<Expr>>,
    },
}
