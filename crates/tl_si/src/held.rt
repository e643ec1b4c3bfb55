//! The transactions that are neither committed nor undone: at most one of each node.

ghost use Rattle.std.specs.Prelude.{◌≡◌};
ghost use Rattle.tl_isolation.specs.declared.state.Transaction.{Transaction};
ghost use Rattle.tl_isolation.specs.State as si;
ghost use Rattle.tl_isolation.specs.Step as step;

use crate::answer::is_refusal;
use std::alloc::Global;
use std::marker::Model;
use tl_base::{Items, NodeId, Tid};
use tl_isolation::{Answer, Transaction, TxnPhase};
use tl_write::Buffer;

/// A transaction that is neither committed nor undone.
#[derive(Drop)]
pub struct Held {
    pub tid: Tid,
    pub node: NodeId,
    /// How many commits it sees.
    pub first: u32,
    pub own: Buffer,
    pub phase: TxnPhase,
    /// Whether BEGIN opened it.
    pub opened: bool,
    pub tried: bool,
    pub rival: Option<Tid>,
    /// The answer of a statement outside BEGIN, until its transaction has ended.
    pub unanswered: Option<Answer>,
}

impl Model for Held {
    ghost use Rattle.tl_isolation.specs.declared.state.Transaction.{Transaction};

    ghost Value = { Transaction };

    ghost view = { λ t. record { tid = t.tid; node = t.node; first = t.first; own = t.own; phase = t.phase; opened = t.opened; tried = t.tried; rival = t.rival; unanswered = t.unanswered } };
}

impl Held {
    pub fn new(alloc: Global, node: NodeId, tid: Tid, first: u32) -> Held
        ensures { result ≡ step.begin node tid first }
    {
        Held {
            tid,
            node,
            first,
            own: Buffer::new(alloc),
            phase: TxnPhase::Live,
            opened: false,
            tried: false,
            rival: None,
            unanswered: None,
        }
    }

    pub fn into_transaction(self) -> Transaction
        ensures { result ≡ self }
    {
        let Held {
            tid,
            node,
            first,
            own,
            phase,
            opened,
            tried,
            rival,
            unanswered,
        } = self;
        Transaction {
            tid,
            node,
            first,
            own: Items::from_vec(own.into_vec()),
            phase,
            opened,
            tried,
            rival,
            unanswered,
        }
    }

    /// Live, outside BEGIN, and nothing was said in it yet.
    pub fn is_fresh(&self) -> bool
        ensures { result ≡ si.is_fresh self.now }
    {
        self.phase == TxnPhase::Live && !self.opened && self.unanswered.is_none()
    }

    /// Live, and opened by BEGIN.
    pub fn is_open(&self) -> bool
        ensures { result ≡ si.is_open self.now }
    {
        self.phase == TxnPhase::Live && self.opened
    }

    /// A statement is answered at once in a transaction that BEGIN opened; in a fresh one its answer waits for the
    /// commit.
    pub fn takes_statement(&self, answered: bool) -> bool
        ensures { result ≡ step.takes_statement answered self.now }
    {
        if answered {
            self.is_open()
        } else {
            self.is_fresh()
        }
    }

    /// Live, and opened by BEGIN or with a waiting answer that is no refusal.
    pub fn may_try(&self) -> bool
        ensures { result ≡ step.may_try self.now }
    {
        self.phase == TxnPhase::Live && (self.opened || self.awaits_commit())
    }

    fn awaits_commit(&self) -> bool
        ensures { result ≡ step.awaits_commit self.now }
    {
        match &self.unanswered {
            Some(told) => !is_refusal(told),
            None => false,
        }
    }

    fn was_refused(&self) -> bool
        ensures { result ≡ step.was_refused self.now }
    {
        match &self.unanswered {
            Some(told) => is_refusal(told),
            None => false,
        }
    }

    /// It tried and met no rival.
    pub fn is_ready(&self) -> bool
        ensures { result ≡ step.is_ready self.now }
    {
        self.phase == TxnPhase::Trying
            || (self.phase == TxnPhase::Lost && self.tried && self.rival.is_none())
    }

    pub fn may_undo(&self) -> bool
        ensures { result ≡ step.may_undo self.now }
    {
        self.phase == TxnPhase::Undoing
            || self.phase == TxnPhase::Lost
            || (self.phase == TxnPhase::Live && (self.opened || self.was_refused()))
    }
}
