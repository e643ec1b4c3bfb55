ghost use Rattle.std.specs.Prelude.{◌≡◌};

use crate::attempt::{Attempt, Settled};
use std::marker::Model;
use tl_ask::TxnId;
use tl_base::{Bytes, Stamp};
use tl_descriptor::Descriptor;
use tl_values::Rows;
use tl_write::Buffer;

/// A transaction that has begun.
#[derive(Drop)]
pub struct Open {
    pub tid: TxnId,
    pub snapshot: Descriptor,
    /// What it wrote so far.
    pub own: Buffer,
    /// What its last read found, before own writes.
    pub rows: Rows,
}

/// A page of a range of store keys: the shard, where the page begins, and where the range begins and ends.
#[derive(Drop)]
pub struct PageRead {
    pub shard: u8,
    pub from: Bytes,
    pub first: Bytes,
    pub before: Bytes,
}

/// A read whose reply is awaited.
#[derive(Drop)]
pub enum Read {
    /// The cell of the record under this key.
    Point(Bytes),
    Range(PageRead),
}

/// How a transaction ends.
#[derive(Clone, Copy, Debug, PartialEq, Eq)]
pub enum Decision {
    Commit,
    /// With the version outside the snapshot that it met, if it met one.
    Undo(Option<u64>),
}

/// An attempt to commit whose log cell stands: how many of the own records bear its version, and whether the next one
/// is loaded.
#[derive(Drop)]
pub struct Storing {
    pub attempt: Attempt,
    /// The stamp of the log cell.
    pub log: Stamp,
    pub stored: usize,
    pub loaded: bool,
}

/// An attempt whose versions all stand, and whose log cell is stored as decided.
#[derive(Drop)]
pub struct Deciding {
    pub attempt: Settled,
    pub log: Stamp,
    pub stored: usize,
}

/// What an attempt to commit stores.
#[derive(Drop)]
pub enum StoresAt {
    /// The next own record.
    Record(Storing),
    /// Its decision.
    Decision(Deciding),
}

/// An attempt that stores its versions and then its decision: in contracts a `Storing`.
#[derive(Drop)]
pub struct Stores {
    pub at: StoresAt,
}

impl Model for Stores {
    ghost use Rattle.tl_txn.specs.Course.{IsStoring, storing_at};
    ghost use Rattle.tl_txn.specs.declared.phase.Storing.{Storing as TheStoring};

    ghost Value = { TheStoring };

    ghost view = { λ s. storing_at s.at };

    ghost invariant = { λ s. IsStoring s.at };
}

/// An attempt that removes its versions from the first `stored` own records: from how many they are removed already, and
/// whether the next one is loaded.
#[derive(Drop)]
pub struct Removing {
    pub attempt: Attempt,
    pub log: Stamp,
    pub rival: u64,
    pub stored: usize,
    pub removed: usize,
    pub loaded: bool,
}

/// An attempt none of whose versions stands, and whose log cell is stored as undone.
#[derive(Drop)]
pub struct Undoing {
    pub attempt: Settled,
    pub log: Stamp,
    pub rival: u64,
    pub stored: usize,
    pub removed: usize,
}

/// What an attempt that met a version outside its snapshot stores.
#[derive(Drop)]
pub enum RemovesAt {
    /// The next own record, without its version.
    Record(Removing),
    /// That it is undone.
    Undone(Undoing),
}

/// An attempt that removes its versions and then is undone: in contracts a `Removing`.
#[derive(Drop)]
pub struct Removes {
    pub at: RemovesAt,
}

impl Model for Removes {
    ghost use Rattle.tl_txn.specs.Course.{IsRemoving, removing_at};
    ghost use Rattle.tl_txn.specs.declared.phase.Removing.{Removing as TheRemoving};

    ghost Value = { TheRemoving };

    ghost view = { λ r. removing_at r.at };

    ghost invariant = { λ r. IsRemoving r.at };
}

impl Removes {
    /// The transaction whose version it met.
    pub fn rival(&self) -> u64
        ensures { result ≡ self.now.rival }
    {
        match &self.at {
            RemovesAt::Record(removing) => removing.rival,
            RemovesAt::Undone(undoing) => undoing.rival,
        }
    }
}

/// How far a transaction is: what the reply that it awaits will be taken for.
#[derive(Drop)]
pub enum Phase {
    /// The finished transactions are asked for.
    Asking,
    /// A number and a snapshot are asked for, by this set of finished transactions.
    Noted(Descriptor),
    /// The manager has no number: 16 are drawn.
    Drawing(Descriptor),
    /// The numbers above `low` are brought to the manager.
    Bringing {
        seen: Descriptor,
        low: u64,
    },
    /// It takes reads, and its end.
    Ready(Open),
    Reading(Open, Read),
    /// A commit that has nothing to store.
    TryingNothing(Open),
    /// Its log cell is stored.
    Trying(Attempt),
    Storing(Stores),
    Removing(Removes),
    /// It gives up before it has stored anything.
    GivingUp(Open),
    /// It is put among the finished ones, whose cell is loaded or not.
    Closing {
        tid: TxnId,
        decision: Decision,
        loaded: bool,
    },
    /// It is finished, and still active at its manager.
    Ending {
        tid: TxnId,
        decision: Decision,
    },
    Over,
    /// It met want of memory, or a reply that no place of a run gives.
    Stopped,
}
