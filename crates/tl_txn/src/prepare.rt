//! What a commit takes memory for before its first store.

ghost use Rattle.std.specs.Prelude.{◌≡◌, ◌<◌, ◌^◌, ◌↔◌, All, IfOk, IsTrue, map};
ghost use Rattle.tl_logrec.specs.Entry.{AreWrites};
ghost use Rattle.tl_logrec.specs.Keys.{IsKey};
ghost use Rattle.tl_txn.specs.Calls.{attempt_of};
ghost use Rattle.tl_txn.specs.Prepared.{AreValues};

use crate::phase::Open;
use tl_base::{Bytes, Duplicate, Keys, NoMemory, NodeId};
use tl_descriptor::Descriptor;
use tl_logrec::{Flag, LogEntry};
use tl_write::Buffer;

/// The values that the log cell of a transaction takes, and its low-water mark.
#[derive(Drop)]
pub struct Preparation {
    pub floor: Descriptor,
    pub trying: Bytes,
    pub decided: Bytes,
    pub undone: Bytes,
}

/// A number of writes that has no four bytes, and a key whose length has no two, are want of memory.
pub fn prepare(node: NodeId, live: &Open, floor: &Descriptor) -> Result<Preparation, NoMemory>
    ensures { IfOk result (AreValues (attempt_of node floor.now live.now)) }
{
    let writes = store_keys(&live.own)?;
    let mut entry = LogEntry {
        tid: live.tid.get(),
        node,
        flag: Flag::Trying,
        writes,
    };
    let trying = entry.encode()?;
    entry.flag = Flag::Decided;
    let decided = entry.encode()?;
    entry.flag = Flag::Undone;
    let undone = entry.encode()?;
    let floor = floor.copy()?;
    Ok(Preparation {
        floor,
        trying,
        decided,
        undone,
    })
}

/// The keys of the writes, where a log cell has room for them.
fn store_keys(own: &Buffer) -> Result<Keys, NoMemory>
    ensures keys { IfOk result (λ keys. keys ≡ map (λ w. w.key) own.now) }
    ensures fit { IfOk result AreWrites }
{
    let _rising = own.writes();
    let keys = own.keys()?;
    if keys.len() > MOST_KEYS || !are_short(keys.as_slice()) {
        return Err(NoMemory);
    }
    Ok(keys)
}

/// The greatest number of four bytes.
const MOST_KEYS: usize = 0xffff_ffff;

/// Whether the length of each key has two bytes.
fn are_short(keys: &[Bytes]) -> bool
    ensures { IsTrue result ↔ All IsKey keys.now }
{
    keys.iter().all(|key| key.len() < 65_536)
}
