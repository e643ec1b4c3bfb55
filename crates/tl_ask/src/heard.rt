//! What replies say, with the bytes of their cells read.

ghost use Rattle.std.specs.Prelude.{◌≡◌, IfOk};
ghost use Rattle.tl_logrec.specs.Entry.{spelling};
ghost use Rattle.tl_protocol.specs.Next.{marked};

use std::marker::Model;
use tl_base::{Bytes, Items, NoMemory, Stamp};
use tl_descriptor::Descriptor;
use tl_logrec::{Flag, LogEntry};
use tl_versions::Versions;

/// The commits cell: the finished transactions.
#[derive(Debug, Drop)]
pub struct CommitsCell {
    pub stamp: Stamp,
    pub finished: Descriptor,
}

impl Model for CommitsCell {
    ghost use Rattle.tl_protocol.specs.Store as store;

    ghost Value = { store.CommitsCell };

    ghost view = { λ cell. record { stamp = cell.stamp; finished = cell.finished } };
}

/// The log cell of a transaction, whose entry has a spelling.
#[derive(Debug, Drop)]
pub struct LogCell {
    pub stamp: Stamp,
    pub entry: LogEntry,
}

impl Model for LogCell {
    ghost use Rattle.tl_logrec.specs.Entry as logs;
    ghost use Rattle.tl_protocol.specs.Store as store;

    ghost Value = { store.LogCell };

    ghost view = { λ cell. record { stamp = cell.stamp; entry = cell.entry } };

    ghost invariant = { λ cell. logs.FitsEntry cell.entry };
}

impl LogCell {
    /// The spelling of its entry, marked as undone.
    pub fn undone(&mut self) -> Result<Bytes, NoMemory>
        ensures bytes { IfOk result (λ bytes. bytes ≡ spelling (marked 0 Flag.Undone self.old).entry) }
        ensures kept { self.new ≡ self.old }
    {
        let flag = self.entry.flag;
        self.entry.flag = Flag::Undone;
        let bytes = self.entry.encode();
        self.entry.flag = flag;
        bytes
    }
}

/// The cell of a record. One that was never stored has stamp 0 and no versions.
#[derive(Debug, Drop)]
pub struct RecordCell {
    pub stamp: Stamp,
    pub versions: Versions,
}

impl Model for RecordCell {
    ghost use Rattle.tl_protocol.specs.Store as store;

    ghost Value = { store.Cell };

    ghost view = { λ cell. record { stamp = cell.stamp; versions = cell.versions } };
}

/// The cell of a record in a page, with its key.
#[derive(Debug, Drop)]
pub struct Found {
    pub key: Bytes,
    pub versions: Versions,
}

impl Model for Found {
    ghost use Rattle.tl_journal.specs.Ask as ask;

    ghost Value = { ask.Found };

    ghost view = { λ found. record { key = found.key; versions = found.versions } };
}

/// Cells in the order of their keys, and whether the range has further ones.
#[derive(Debug, Drop)]
pub struct Page {
    pub found: Items<Found>,
    pub more: bool,
}

/// What a conditional store came to.
#[derive(Clone, Copy, Debug, PartialEq, Eq)]
pub enum StoreOutcome {
    /// The value was stored, and the cell has this stamp now.
    Stored(Stamp),
    /// Nothing was stored: the cell had another stamp.
    Moved,
}
