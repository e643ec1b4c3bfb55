ghost use Rattle.std.specs.Prelude.{◌≡◌, IfOk};

use tl_base::{Bytes, Duplicate, Items, NoMemory};
use tl_values::Row;

/// What a record becomes.
#[derive(Debug, Drop)]
pub struct Write {
    /// The record key.
    pub key: Bytes,
    /// None where the record is deleted.
    pub row: Option<Row>,
}

/// Writes, in rising order of record keys.
pub type Writes = Items<Write>;

/// What a change does.
#[derive(Debug, Drop)]
pub struct Effect {
    /// How many rows it inserts, updates or deletes.
    pub count: u32,
    /// The writes of their records.
    pub writes: Writes,
}

impl Duplicate for Write {
    fn copy(&self) -> Result<Write, NoMemory> {
        Ok(Write {
            key: self.key.copy()?,
            row: copy_row(&self.row)?,
        })
    }
}

fn copy_row(row: &Option<Row>) -> Result<Option<Row>, NoMemory>
    ensures { IfOk result (λ copy. copy ≡ row.now) }
{
    match row {
        Some(row) => Ok(Some(row.copy()?)),
        None => Ok(None),
    }
}
