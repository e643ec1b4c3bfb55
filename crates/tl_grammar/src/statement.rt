use crate::condition::Cond;
use crate::expression::Expr;
use crate::name::{ColumnName, Name};
use crate::operand::Literal;
use crate::select::{FromItem, OrderItem, SelectItem};
use tl_base::{Items, NodeId};
use tl_values::Kind;

/// The values of one row, with the place of the bracket that opens them.
#[derive(Debug, Drop)]
pub struct Tuple {
    pub at: u32,
    pub values: Items<Literal>,
}

/// An item of SET.
#[derive(Drop)]
pub struct SetItem {
    pub column: Name,
    pub value: Expr,
}

/// A column of a table that is created.
#[derive(Debug, Drop)]
pub struct ColumnForm {
    pub name: Name,
    pub kind: Kind,
    /// NOT NULL.
    pub not_null: bool,
    /// PRIMARY KEY.
    pub primary: bool,
}

/// A statement.
#[derive(Drop)]
pub enum Statement {
    CreateTable {
        name: Name,
        columns: Items<ColumnForm>,
        /// PRIMARY KEY behind the columns.
        key: Option<Items<Name>>,
    },
    CreateIndex {
        name: Name,
        table: Name,
        columns: Items<Name>,
    },
    Insert {
        table: Name,
        columns: Option<Items<Name>>,
        tuples: Items<Tuple>,
    },
    Update {
        table: Name,
        sets: Items<SetItem>,
        /// WHERE.
        filter: Option<Cond>,
    },
    Delete {
        table: Name,
        /// WHERE.
        filter: Option<Cond>,
    },
    Select {
        /// `None` stands for `*`.
        items: Option<Items<SelectItem>>,
        from: Items<FromItem>,
        /// WHERE.
        filter: Option<Cond>,
        /// GROUP BY; empty where there is none.
        group: Items<ColumnName>,
        /// ORDER BY; empty where there is none.
        order: Items<OrderItem>,
        limit: Option<u64>,
    },
    Begin,
    Commit,
    Rollback,
    Recover {
        node: NodeId,
    },
}
