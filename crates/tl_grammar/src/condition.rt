use crate::operand::Operand;
use tl_base::{Boxed, Items};
use tl_values::Comparison;

/// A condition. Brackets leave nothing but its form.
#[derive(Drop)]
pub enum Cond {
    Test {
        left: Operand,
        by: Comparison,
        right: Operand,
    },
    /// IS NULL, or IS NOT NULL where it is negated.
    IsNull {
        of: Operand,
        negated: bool,
    },
    Not(Boxed<Cond>),
    /// AND of at least two parts, in order.
    All(Items<Cond>),
    /// OR of at least two parts, in order.
    Any(Items<Cond>),
}
