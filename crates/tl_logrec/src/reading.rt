//! The bytes of a log entry, read.

ghost use Rattle.std.specs.Prelude.{◌≡◌};
ghost use Rattle.tl_codec.specs.Reading.{Gives};
ghost use Rattle.tl_logrec.specs.Reading.{node_of, read_entry, read_flag, read_mark};

use crate::entry::{Flag, LogEntry};
use crate::keys::rising_keys;
use std::alloc::Global;
use tl_base::{Bytes, NodeId};
use tl_codec::{ReadFault, read_byte, read_many, read_u32, read_u64};

/// The entry whose spelling the bytes are, all of them.
#[tactic(auto, unfolding(crate::specs::Reading::read_entry))]
pub fn read_entry(alloc: Global, bytes: &[u8]) -> Result<LogEntry, ReadFault>
    ensures { Gives (λ entry. entry) result (read_entry bytes.now) }
{
    let (_, rest) = read_mark(bytes)?;
    let (tid, rest) = read_u64(rest)?;
    let (number, rest) = read_byte(rest)?;
    let node = node_of(number)?;
    let (flag, rest) = read_flag(rest)?;
    let (count, rest) = read_u32(rest)?;
    let (writes, rest) = read_many::<Bytes>(alloc, rest, count)?;
    let writes = rising_keys(writes, rest)?;
    Ok(LogEntry {
        tid,
        node,
        flag,
        writes,
    })
}

/// The first byte, which is 1, and the bytes after it.
#[tactic(auto, unfolding(crate::specs::Reading::read_mark))]
fn read_mark(bytes: &[u8]) -> Result<(u8, &[u8]), ReadFault>
    ensures { Gives (λ x. (x.0, x.1.now)) result (read_mark bytes.now) }
{
    match bytes {
        [1, rest @ ..] => Ok((1, rest)),
        [] | [_, ..] => Err(ReadFault::Bad),
    }
}

/// The node of this number, from 1 to 16.
fn node_of(number: u8) -> Result<NodeId, ReadFault>
    ensures { Gives (λ node. node) result (node_of number) }
{
    match NodeId::new(u64::from(number)) {
        Some(node) => Ok(node),
        None => Err(ReadFault::Bad),
    }
}

/// A flag, and the bytes after it.
#[tactic(auto, unfolding(crate::specs::Reading::read_flag))]
fn read_flag(bytes: &[u8]) -> Result<(Flag, &[u8]), ReadFault>
    ensures { Gives (λ x. (x.0, x.1.now)) result (read_flag bytes.now) }
{
    match bytes {
        [0, rest @ ..] => Ok((Flag::Trying, rest)),
        [1, rest @ ..] => Ok((Flag::Decided, rest)),
        [2, rest @ ..] => Ok((Flag::Undone, rest)),
        [] | [_, ..] => Err(ReadFault::Bad),
    }
}
