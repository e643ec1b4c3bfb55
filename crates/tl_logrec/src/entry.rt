ghost use Rattle.std.specs.Prelude.{◌≡◌, IfOk, OnOk};
ghost use Rattle.std.specs.Result.{IsErrOf};
ghost use Rattle.tl_logrec.specs.declared.entry.LogEntry.{LogEntry as TheEntry};
ghost use Rattle.tl_logrec.specs.Entry.{AreWrites, FitsEntry, flag_byte, spelling};

use crate::fault::LogFault;
use crate::reading::read_entry;
use std::alloc::Global;
use tl_base::{Bytes, Keys, NoMemory, NodeId, Tid};
use tl_codec::{ReadFault, write_many, write_u32, write_u64};

/// How far a transaction is.
#[derive(Clone, Copy, Debug, PartialEq, Eq)]
pub enum Flag {
    /// It stores its writes, and may still be undone.
    Trying,
    /// It is committed.
    Decided,
    /// None of its writes stands.
    Undone,
}

impl Flag {
    fn byte(self) -> u8
        ensures { result ≡ flag_byte self }
    {
        match self {
            Flag::Trying => 0,
            Flag::Decided => 1,
            Flag::Undone => 2,
        }
    }
}

/// What a transaction's log cell says.
#[derive(Debug, Drop)]
pub struct LogEntry {
    pub tid: Tid,
    /// The node that runs it.
    pub node: NodeId,
    pub flag: Flag,
    /// The store keys of the records that it writes, strictly rising.
    pub writes: Keys,
}

impl LogEntry {
    /// The one spelling of the entry. Its keys rise strictly, each is shorter than 65,536 bytes, and they are fewer
    /// than 2^32.
    pub fn encode(&self) -> Result<Bytes, NoMemory>
        requires { AreWrites self.now.writes }
        ensures bytes { IfOk result (λ bytes. bytes ≡ spelling self.now) }
        ensures fits { OnOk result (FitsEntry self.now) }
    {
        let mut bytes = Bytes::new(self.writes.allocator());
        bytes.push(1)?;
        write_u64(&mut bytes, self.tid)?;
        bytes.push(self.node.number())?;
        bytes.push(self.flag.byte())?;
        write_u32(&mut bytes, self.writes.len() as u32)?;
        write_many(self.writes.as_slice(), &mut bytes)?;
        Ok(bytes)
    }

    /// The entry whose spelling the bytes are, all of them.
    pub fn decode(alloc: Global, bytes: &[u8]) -> Result<LogEntry, LogFault>
        ensures spelled { IfOk result (λ entry. bytes.now ≡ spelling entry) }
        ensures fits { IfOk result (λ entry. FitsEntry entry) }
        ensures bad { IsErrOf result LogFault.BadLog → (entry : TheEntry) → FitsEntry entry → bytes.now ≡ spelling entry → ⊥ }
    {
        match read_entry(alloc, bytes) {
            Ok(entry) => Ok(entry),
            Err(ReadFault::Bad) => Err(LogFault::BadLog),
            Err(ReadFault::NoMemory) => Err(LogFault::NoMemory),
        }
    }
}
