//! Cells, read from all of their bytes; `None` where these are no spelling.

ghost use Rattle.std.specs.Prelude.{◌≡◌, IfOk, IfSome};
ghost use Rattle.tl_descriptor.specs.Reading as sets;
ghost use Rattle.tl_logrec.specs.Entry.{FitsEntry};
ghost use Rattle.tl_logrec.specs.Reading as logs;
ghost use Rattle.tl_versions.specs.Reading as cells;

use std::alloc::Global;
use tl_base::NoMemory;
use tl_descriptor::{Descriptor, DescriptorFault, sets_are_read};
use tl_logrec::{LogEntry, LogFault, entries_are_read};
use tl_versions::{CellFault, Versions, cells_are_read};

pub fn set_read(alloc: Global, bytes: &[u8]) -> Result<Option<Descriptor>, NoMemory>
    ensures { IfOk result (λ set. set ≡ sets.read_set bytes.now) }
{
    sets_are_read();
    match Descriptor::decode(alloc, bytes) {
        Ok(set) => Ok(Some(set)),
        Err(DescriptorFault::BadDescriptor) => Ok(None),
        Err(DescriptorFault::NoMemory) => Err(NoMemory),
    }
}

pub fn entry_read(alloc: Global, bytes: &[u8]) -> Result<Option<LogEntry>, NoMemory>
    ensures read { IfOk result (λ entry. entry ≡ logs.read_entry bytes.now) }
    ensures fits { IfOk result (λ entry. IfSome entry FitsEntry) }
{
    entries_are_read();
    match LogEntry::decode(alloc, bytes) {
        Ok(entry) => Ok(Some(entry)),
        Err(LogFault::BadLog) => Ok(None),
        Err(LogFault::NoMemory) => Err(NoMemory),
    }
}

pub fn cell_read(alloc: Global, bytes: &[u8]) -> Result<Option<Versions>, NoMemory>
    ensures { IfOk result (λ versions. versions ≡ cells.read_cell bytes.now) }
{
    cells_are_read();
    match Versions::decode(alloc, bytes) {
        Ok(versions) => Ok(Some(versions)),
        Err(CellFault::BadCell) => Ok(None),
        Err(CellFault::NoMemory) => Err(NoMemory),
    }
}
