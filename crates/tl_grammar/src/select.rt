use crate::condition::Cond;
use crate::expression::Expr;
use crate::name::{ColumnName, Name};

/// What an item of SELECT shows.
#[derive(Drop)]
pub enum SelectForm {
    Expr(Expr),
    /// COUNT(*)
    CountRows,
    Count(ColumnName),
    Sum(ColumnName),
    Min(ColumnName),
    Max(ColumnName),
}

/// An item of SELECT, with the place of its first byte, a bracket's too.
#[derive(Drop)]
pub struct SelectItem {
    pub at: u32,
    pub form: SelectForm,
}

/// A FROM item: the table, what it is called here where it has another name, and its ON condition where it is joined.
#[derive(Drop)]
pub struct FromItem {
    pub table: Name,
    pub called: Option<Name>,
    pub on: Option<Cond>,
}

/// What rows are sorted by.
#[derive(Debug, Drop)]
pub enum OrderBy {
    Column(ColumnName),
    /// A printed column, counted from 1, with the place of the number.
    Number { at: u32, number: u64 },
}

/// An ORDER BY item.
#[derive(Debug, Drop)]
pub struct OrderItem {
    pub by: OrderBy,
    pub descending: bool,
}
