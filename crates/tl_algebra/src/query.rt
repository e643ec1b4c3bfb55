use crate::condition::Condition;
use crate::expression::Expression;
use tl_base::Items;

/// What one printed column shows of a group of rows.
#[derive(Drop)]
pub enum Output {
    /// The expression's value at the group's first row.
    Expression(Expression),
    /// COUNT(*): the number of rows.
    CountRows,
    /// COUNT: the number of values in this column that aren't NULL.
    Count(u8),
    /// SUM of the values in this column that aren't NULL.
    Sum(u8),
    /// MIN: the least value in this column that isn't NULL.
    Least(u8),
    /// MAX: the greatest value in this column that isn't NULL.
    Greatest(u8),
}

/// A FROM item, with the number of its table and its ON condition.
#[derive(Drop)]
pub struct Join {
    pub table: u8,
    pub on: Option<Condition>,
}

/// What rows are sorted by.
#[derive(Clone, Copy, Debug, PartialEq, Eq)]
pub enum SortBy {
    /// The value at this place of the group's first row.
    Place(u8),
    /// The printed column of this number, from 0.
    Printed(u32),
}

/// An ORDER BY item.
#[derive(Clone, Copy, Debug, PartialEq, Eq)]
pub struct Sort {
    pub by: SortBy,
    pub descending: bool,
}

/// A SELECT. A place counts from 0 through the columns of all FROM items, one item after the other.
#[derive(Drop)]
pub struct Query {
    pub from: Items<Join>,
    /// WHERE.
    pub filter: Option<Condition>,
    /// The places of the GROUP BY columns.
    pub group: Items<u8>,
    pub outputs: Items<Output>,
    pub sort: Items<Sort>,
    pub limit: Option<u64>,
}
