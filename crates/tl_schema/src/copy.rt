//! Copies of what a database is made of, each equal to its original.

use crate::access::Access;
use crate::catalog::{Catalog, Column, Index, OpeningRow, Setup, Table};
use tl_base::{Duplicate, NoMemory};

impl Duplicate for Access {
    fn copy(&self) -> Result<Access, NoMemory> {
        Ok(match self {
            Access::Point { key } => Access::Point { key: key.copy()? },
            Access::KeyRange { low, high } => Access::KeyRange {
                low: low.copy()?,
                high: high.copy()?,
            },
            Access::IndexRange { index, low, high } => Access::IndexRange {
                index: *index,
                low: low.copy()?,
                high: high.copy()?,
            },
            Access::Whole => Access::Whole,
        })
    }
}

impl Duplicate for Column {
    fn copy(&self) -> Result<Column, NoMemory> {
        Ok(Column {
            name: self.name.copy()?,
            kind: self.kind,
            not_null: self.not_null,
        })
    }
}

impl Duplicate for Index {
    fn copy(&self) -> Result<Index, NoMemory> {
        Ok(Index {
            name: self.name.copy()?,
            columns: self.columns.copy()?,
        })
    }
}

impl Duplicate for Table {
    fn copy(&self) -> Result<Table, NoMemory> {
        Ok(Table {
            name: self.name.copy()?,
            columns: self.columns.copy()?,
            key: self.key.copy()?,
            indexes: self.indexes.copy()?,
        })
    }
}

impl Duplicate for Catalog {
    fn copy(&self) -> Result<Catalog, NoMemory> {
        Ok(Catalog {
            tables: self.tables.copy()?,
        })
    }
}

impl Duplicate for OpeningRow {
    fn copy(&self) -> Result<OpeningRow, NoMemory> {
        Ok(OpeningRow {
            table: self.table,
            row: self.row.copy()?,
        })
    }
}

impl Duplicate for Setup {
    fn copy(&self) -> Result<Setup, NoMemory> {
        Ok(Setup {
            catalog: self.catalog.copy()?,
            rows: self.rows.copy()?,
            settings: self.settings,
        })
    }
}
