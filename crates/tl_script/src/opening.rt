//! The rows that the table opens with.

ghost use Rattle.std.specs.Prelude.{◌≡◌, [], ◌∷◌, ◌++◌, false, MatchResult, OnOk};
ghost use Rattle.tl_script.specs.Build.{opening_row};
ghost use Rattle.tl_script.specs.Opening.{Refuses};
ghost use Rattle.tl_script.specs.Parts.{has_key};

use crate::build::row_of;
use crate::fault::{LineFault, not_built};
use std::alloc::Global;
use std::collections::BTreeSet;
use std::marker::Model;
use tl_base::{Items, NoMemory};
use tl_schema::OpeningRow;

/// Rows of two numbers, of which no two have the same key.
#[derive(Drop)]
pub struct Opening {
    rows: Items<OpeningRow>,
    keys: BTreeSet<i64>,
}

impl Model for Opening {
    ghost use Rattle.std.specs.Prelude.{List};
    ghost use Rattle.tl_schema.specs.declared.catalog.OpeningRow.{OpeningRow as TheRow};
    ghost use Rattle.tl_script.specs.Opening.{AreKeys};

    ghost Value = { List TheRow };

    ghost view = { λ opening. opening.rows };

    ghost invariant = { λ opening. AreKeys opening.rows opening.keys };
}

impl Opening {
    pub fn new(alloc: Global) -> Opening
        ensures { result ≡ [] }
    {
        Opening {
            rows: Items::new(alloc),
            keys: BTreeSet::new(alloc),
        }
    }

    /// One row more; a fault where its key is there.
    pub fn add(&mut self, alloc: Global, key: i64, other: i64) -> Result<(), LineFault>
        ensures { MatchResult result (λ done. (has_key key self.old ≡ false) × (self.new ≡ self.old ++ opening_row key other ∷ [])) (λ e. Refuses e (has_key key self.old)) }
    {
        if self.keys.contains(&key) {
            return Err(not_built());
        }
        self.push(alloc, key, other)?;
        Ok(())
    }

    /// One row more, whose key isn't there.
    fn push(&mut self, alloc: Global, key: i64, other: i64) -> Result<(), NoMemory>
        requires { has_key key self.old ≡ false }
        ensures { OnOk result (self.new ≡ self.old ++ opening_row key other ∷ []) }
    {
        let row = row_of(alloc, key, other)?;
        self.keys.insert(key)?;
        if self.rows.push(OpeningRow { table: 0, row }).is_err() {
            self.keys.remove(&key);
            return Err(NoMemory);
        }
        Ok(())
    }

    pub fn into_rows(self) -> Items<OpeningRow>
        ensures { result ≡ self }
    {
        let Opening { rows, keys: _ } = self;
        rows
    }
}
