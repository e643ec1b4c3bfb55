use crate::condition::Condition;
use crate::expression::Expression;
use tl_base::Items;
use tl_values::Rows;

/// An item of SET.
#[derive(Drop)]
pub struct SetColumn {
    /// The place of the column in its table.
    pub column: u8,
    /// Computed from the old row.
    pub value: Expression,
}

/// A change of the table with this number. A place counts from 0 through its columns.
#[derive(Drop)]
pub enum Edit {
    /// Rows with all columns of the table.
    Insert {
        table: u8,
        rows: Rows,
    },
    Update {
        table: u8,
        sets: Items<SetColumn>,
        /// WHERE.
        filter: Option<Condition>,
    },
    Delete {
        table: u8,
        /// WHERE.
        filter: Option<Condition>,
    },
}
