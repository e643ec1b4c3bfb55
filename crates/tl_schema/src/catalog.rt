use tl_base::{Items, Settings, Text};
use tl_values::{Kind, Row};

/// A column of a table.
#[derive(Debug, Drop)]
pub struct Column {
    /// In lower case.
    pub name: Text,
    pub kind: Kind,
    /// Whether NULL is refused.
    pub not_null: bool,
}

/// A secondary index of a table.
#[derive(Debug, Drop)]
pub struct Index {
    /// In lower case.
    pub name: Text,
    /// The places of its columns in the table, from 0.
    pub columns: Items<u8>,
}

/// A table, whose number in its catalog counts from 0.
#[derive(Debug, Drop)]
pub struct Table {
    /// In lower case.
    pub name: Text,
    pub columns: Items<Column>,
    /// The places of the primary key columns, in the order of the key.
    pub key: Items<u8>,
    /// In order of creation.
    pub indexes: Items<Index>,
}

/// The tables of a database, in order of creation.
#[derive(Debug, Drop)]
pub struct Catalog {
    pub tables: Items<Table>,
}

/// A row that stands before the first statement.
#[derive(Debug, Drop)]
pub struct OpeningRow {
    /// The number of its table.
    pub table: u8,
    pub row: Row,
}

/// What a run begins with.
#[derive(Debug, Drop)]
pub struct Setup {
    pub catalog: Catalog,
    pub rows: Items<OpeningRow>,
    pub settings: Settings,
}
