use crate::name::ColumnName;
use tl_values::Value;

/// A value as it is written, with the place of its first byte: of the minus sign where it has one.
#[derive(Debug, Drop)]
pub struct Literal {
    pub at: u32,
    pub value: Value,
}

/// What stands on a side of a test, and in an expression between its signs.
#[derive(Debug, Drop)]
pub enum Operand {
    Column(ColumnName),
    Literal(Literal),
}
