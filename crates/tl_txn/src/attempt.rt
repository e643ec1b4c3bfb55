ghost use Rattle.std.specs.Prelude.{◌≡◌, ◌<◌, ◌^◌, IfOk, IsTrue, Some, length, slice_get};
ghost use Rattle.std.specs.Option.{option_copied};
ghost use Rattle.tl_logrec.specs.Entry.{spelling};
ghost use Rattle.tl_logrec.specs.declared.entry.Flag.TheVariants as flag;
ghost use Rattle.tl_write.specs.Own.{is_rising};
ghost use Rattle.tl_ask.specs.Asked.{asked};
ghost use Rattle.tl_journal.specs.Ask.{LoadRecord};
ghost use Rattle.tl_txn.specs.Attempt.{entry_of};
ghost use Rattle.tl_txn.specs.Calls.{attempt_of};

use crate::phase::Open;
use std::marker::Model;
use tl_ask::{Asked, Layout, TxnId, load_record};
use tl_base::{Bytes, Duplicate, NoMemory, NodeId};
use tl_descriptor::Descriptor;
use tl_write::{Buffer, Write};

/// A transaction that tries to commit: its node, what it sees and writes, and the low-water mark down to which it drops
/// old versions. It has memory for the values of its log cell from the beginning.
#[derive(Drop)]
pub struct Attempt {
    node: NodeId,
    tid: TxnId,
    snapshot: Descriptor,
    own: Buffer,
    floor: Descriptor,
    /// The value of the log cell that says that it is committed.
    decided: Bytes,
    /// The one that says that none of its versions stands.
    undone: Bytes,
}

impl Model for Attempt {
    ghost use Rattle.tl_txn.specs.Attempt.{Attempt as TheAttempt, IsPrepared};

    ghost Value = { TheAttempt };

    ghost view = { λ a. record { node = a.node; tid = a.tid; snapshot = a.snapshot; own = a.own; floor = a.floor } };

    ghost invariant = { λ a. IsPrepared (record { node = a.node; tid = a.tid; snapshot = a.snapshot; own = a.own; floor = a.floor }) a.decided a.undone };
}

/// An attempt that has given away the value of its log cell that says how it ends.
#[derive(Drop)]
pub struct Settled {
    node: NodeId,
    tid: TxnId,
    snapshot: Descriptor,
    own: Buffer,
    floor: Descriptor,
}

impl Model for Settled {
    ghost use Rattle.tl_txn.specs.Attempt.{Attempt as TheAttempt};

    ghost Value = { TheAttempt };

    ghost view = { λ a. record { node = a.node; tid = a.tid; snapshot = a.snapshot; own = a.own; floor = a.floor } };
}

impl Settled {
    pub fn tid(&self) -> TxnId
        ensures { result ≡ self.now.tid }
    {
        self.tid
    }
}

impl Attempt {
    /// The attempt of a transaction that is ready, with the values of its log cell.
    pub fn new(
        node: NodeId,
        live: Open,
        floor: Descriptor,
        decided: Bytes,
        undone: Bytes,
    ) -> Attempt
        requires decided_is { decided ≡ spelling (entry_of (attempt_of node floor live) flag.Decided) }
        requires undone_is { undone ≡ spelling (entry_of (attempt_of node floor live) flag.Undone) }
        requires few { length live.own < 2 ^ 32 }
        ensures { result ≡ attempt_of node floor live }
    {
        let Open {
            tid,
            snapshot,
            own,
            rows: _,
        } = live;
        Attempt {
            node,
            tid,
            snapshot,
            own,
            floor,
            decided,
            undone,
        }
    }

    pub fn tid(&self) -> TxnId
        ensures { result ≡ self.now.tid }
    {
        self.tid
    }

    pub fn snapshot(&self) -> &Descriptor
        ensures { result.now ≡ self.now.snapshot }
    {
        &self.snapshot
    }

    pub fn floor(&self) -> &Descriptor
        ensures { result.now ≡ self.now.floor }
    {
        &self.floor
    }

    /// How many records it writes.
    pub fn len(&self) -> usize
        ensures value { result ≡ length self.now.own }
        ensures few { result < 2 ^ 32 }
    {
        self.own.len()
    }

    /// The write at this place among its own.
    pub fn own_at(&self, at: usize) -> Option<&Write>
        ensures value { option_copied result ≡ slice_get self.now.own at }
        ensures rising { IsTrue (is_rising self.now.own) }
    {
        self.own.writes().get(at)
    }

    /// The same, where there is one at this place.
    pub fn own_within(&self, at: usize) -> &Write
        requires { at < length self.now.own }
        ensures value { slice_get self.now.own at ≡ Some result.now }
        ensures rising { IsTrue (is_rising self.now.own) }
    {
        &self.own.writes()[at]
    }

    /// What is left of it, and the value of the log cell that says that it is committed.
    pub fn decide(self) -> (Settled, Bytes)
        ensures same { result.0 ≡ self }
        ensures value { result.1 ≡ spelling (entry_of self flag.Decided) }
    {
        let Attempt {
            node,
            tid,
            snapshot,
            own,
            floor,
            decided,
            undone: _,
        } = self;
        let settled = Settled {
            node,
            tid,
            snapshot,
            own,
            floor,
        };
        (settled, decided)
    }

    /// What is left of it, and the value of the log cell that says that none of its versions stands.
    pub fn undo(self) -> (Settled, Bytes)
        ensures same { result.0 ≡ self }
        ensures value { result.1 ≡ spelling (entry_of self flag.Undone) }
    {
        let Attempt {
            node,
            tid,
            snapshot,
            own,
            floor,
            decided: _,
            undone,
        } = self;
        let settled = Settled {
            node,
            tid,
            snapshot,
            own,
            floor,
        };
        (settled, undone)
    }
}

/// An own record is to be loaded.
pub fn load_own(layout: Layout, own: &Write) -> Result<Asked, NoMemory>
    ensures { IfOk result (λ ask. ask ≡ asked layout (LoadRecord own.now.key)) }
{
    Ok(load_record(layout, own.key.copy()?))
}
