ghost use Rattle.std.specs.Prelude.{◌≡◌, ◌+◌, [], IsTrue, IsOk, IfOk, OnOk, OnErr};
ghost use Rattle.std.specs.FinMap as map;
ghost use Rattle.tl_manager.specs.Floor.{newer};
ghost use Rattle.tl_manager.specs.Memory.{takes_no_memory};
ghost use Rattle.tl_manager.specs.Ranges.{first_number};
ghost use Rattle.tl_manager.specs.Serves.{Matches};
ghost use Rattle.tl_manager.specs.State.{begin_reply, claim_reply, end_reply, next_of, reply_of};
ghost use Rattle.tl_manager.specs.Transactions.{is_active, tids_of, without};

use crate::active::Active;
use crate::board::Board;
use crate::floor::{floor_of, newer};
use crate::ranges::{add_range, draw, first_number};
use crate::request::{ManagerReply, ManagerRequest, Tids};
use std::alloc::Global;
use std::marker::Model;
use tl_base::{Duplicate, Items, Machine, NoMemory, NodeId, Tid};
use tl_descriptor::{Descriptor, Run};

/// A commit manager.
#[derive(Drop)]
pub struct Manager {
    alloc: Global,
    // The newest set of finished transactions that it was shown.
    copy: Descriptor,
    // The numbers that it has to give.
    ranges: Items<Run>,
    // In the order in which they began.
    active: Vec<Active>,
    board: Board,
}

impl Model for Manager {
    ghost use Rattle.tl_manager.specs.State.{ManagerState};
    ghost use Rattle.tl_manager.specs.StateCode.{state_code};

    ghost Value = { ManagerState };

    ghost coded = { state_code };

    ghost view = { λ manager. record { copy = manager.copy; ranges = manager.ranges; active = manager.active.items; notices = manager.board } };
}

/// The numbers of the node's transactions.
fn tids_of(alloc: Global, node: NodeId, active: &[Active]) -> Result<Tids, NoMemory>
    ensures { IfOk result (λ tids. tids ≡ tids_of node active.now) }
{
    let mut tids = Items::new(alloc);
    for transaction in active {
        if transaction.node == node {
            tids.push(transaction.tid)?;
        }
    }
    Ok(tids)
}

fn is_active(tid: Tid, active: &[Active]) -> bool
    ensures { result ≡ is_active tid active.now }
{
    active.iter().any(|transaction| transaction.tid == tid)
}

fn end_reply(tid: Tid, active: &[Active]) -> ManagerReply
    ensures { result ≡ end_reply tid active.now }
{
    if is_active(tid, active) {
        ManagerReply::Ended
    } else {
        ManagerReply::NotActive
    }
}

/// Takes the transactions of this number away.
fn end(active: &mut Vec<Active>, tid: Tid)
    ensures { active.new.items ≡ without tid active.old.items }
{
    active.retain(|transaction| transaction.tid != tid);
}

impl Manager {
    /// A manager that knows of no finished transaction but tid 0, and has no numbers.
    pub fn new(alloc: Global) -> Manager
        ensures state { result ≡ record { copy = record { base = 0; runs = [] }; ranges = []; active = []; notices = map.empty } }
        ensures opens { Matches [] result }
    {
        Manager {
            alloc,
            copy: Descriptor::new(alloc, 0),
            ranges: Items::new(alloc),
            active: Vec::new(alloc),
            board: Board::new(),
        }
    }

    fn begin_reply(&self, seen: &Descriptor) -> Result<ManagerReply, NoMemory>
        ensures { IfOk result (λ answer. answer ≡ begin_reply (first_number self.now.ranges) (newer self.now.copy seen.now) self.now.active) }
    {
        let Some(tid) = first_number(self.ranges.as_slice()) else {
            return Ok(ManagerReply::NeedRange);
        };
        let newest = newer(&self.copy, seen);
        let snapshot = newest.copy()?;
        let floor = floor_of(newest, self.active.as_slice()).copy()?;
        Ok(ManagerReply::Began {
            tid,
            snapshot,
            floor,
        })
    }

    fn orphans(&self, node: NodeId) -> Result<ManagerReply, NoMemory>
        ensures { IfOk result (λ answer. answer ≡ ManagerReply.Orphaned (tids_of node self.now.active)) }
    {
        let tids = tids_of(self.alloc, node, self.active.as_slice())?;
        Ok(ManagerReply::Orphaned { tids })
    }

    fn floor_reply(&self, seen: &Descriptor) -> Result<ManagerReply, NoMemory>
        ensures { IfOk result (λ answer. answer ≡ reply_of self.now (ManagerRequest.Floor seen.now)) }
    {
        let newest = newer(&self.copy, seen);
        let floor = floor_of(newest, self.active.as_slice()).copy()?;
        Ok(ManagerReply::FloorIs { floor })
    }

    fn claim_reply(&self, node: NodeId) -> ManagerReply
        ensures { result ≡ claim_reply (map.get self.now.notices node) }
    {
        match self.board.get(node) {
            Some(also) => ManagerReply::Given { also },
            None => ManagerReply::There,
        }
    }

    /// What the manager answers.
    fn answer(&self, request: &ManagerRequest) -> Result<ManagerReply, NoMemory>
        ensures replied { IfOk result (λ answer. answer ≡ reply_of self.now request.now) }
        ensures ready { IsTrue (takes_no_memory request.now) → IsOk result }
    {
        match request {
            ManagerRequest::Begin { node: _, seen } => self.begin_reply(seen),
            ManagerRequest::Range { low: _, high: _ } => Ok(ManagerReply::Ranged),
            ManagerRequest::End { tid } => Ok(end_reply(*tid, self.active.as_slice())),
            ManagerRequest::Orphans { node } => self.orphans(*node),
            ManagerRequest::Floor { seen } => self.floor_reply(seen),
            ManagerRequest::Post { node: _, also: _ } => Ok(ManagerReply::Posted),
            ManagerRequest::Claim { node } => Ok(self.claim_reply(*node)),
        }
    }

    fn begin(&mut self, node: NodeId, seen: &Descriptor) -> Result<(), NoMemory>
        ensures changed { OnOk result (self.new ≡ next_of self.old (ManagerRequest.Begin node seen.now)) }
        ensures kept { OnErr result (self.new ≡ self.old) }
    {
        let Some(tid) = first_number(self.ranges.as_slice()) else {
            return Ok(());
        };
        let copy = newer(&self.copy, seen).copy()?;
        let snapshot = copy.copy()?;
        self.active.push(Active {
            tid,
            node,
            snapshot,
        })?;
        draw(&mut self.ranges);
        self.copy = copy;
        Ok(())
    }

    fn renew(&mut self, seen: &Descriptor) -> Result<(), NoMemory>
        ensures changed { OnOk result (self.new ≡ next_of self.old (ManagerRequest.Floor seen.now)) }
        ensures kept { OnErr result (self.new ≡ self.old) }
    {
        self.copy = newer(&self.copy, seen).copy()?;
        Ok(())
    }

    /// What the request changes.
    fn change(&mut self, request: &ManagerRequest) -> Result<(), NoMemory>
        ensures changed { OnOk result (self.new ≡ next_of self.old request.now) }
        ensures kept { OnErr result (self.new ≡ self.old) }
        ensures ready { IsTrue (takes_no_memory request.now) → IsOk result }
    {
        match request {
            ManagerRequest::Begin { node, seen } => self.begin(*node, seen)?,
            ManagerRequest::Range { low, high } => add_range(&mut self.ranges, *low, *high)?,
            ManagerRequest::End { tid } => end(&mut self.active, *tid),
            ManagerRequest::Orphans { node: _ } => {}
            ManagerRequest::Floor { seen } => self.renew(seen)?,
            ManagerRequest::Post { node, also } => self.board.add(*node, *also),
            ManagerRequest::Claim { node } => self.board.remove(*node),
        }
        Ok(())
    }
}

/// Whatever takes memory comes before the first change.
impl Machine for Manager {
    type Request = ManagerRequest;

    type Reply = ManagerReply;

    ghost reply = { reply_of };

    ghost next = { next_of };

    fn apply(&mut self, request: &ManagerRequest) -> Result<ManagerReply, NoMemory>
        ensures replied { IfOk result (λ answer. answer ≡ reply_of self.old request.now) }
        ensures changed { OnOk result (self.new ≡ next_of self.old request.now) }
        ensures kept { OnErr result (self.new ≡ self.old) }

        // End, Post and Claim take no memory.
        ensures ready { IsTrue (takes_no_memory request.now) → IsOk result }
    {
        let reply = self.answer(request)?;
        self.change(request)?;
        Ok(reply)
    }

    fn apply_twice(
        &mut self,
        request: &ManagerRequest,
    ) -> Result<(ManagerReply, ManagerReply), NoMemory>
        ensures replied { IfOk result (λ answers. (answers.0 ≡ reply_of self.old request.now) × (answers.1 ≡ reply_of self.old request.now)) }
        ensures changed { OnOk result (self.new ≡ next_of self.old request.now) }
        ensures kept { OnErr result (self.new ≡ self.old) }
        ensures ready { IsTrue (takes_no_memory request.now) → IsOk result }
    {
        let first = self.answer(request)?;
        let second = self.answer(request)?;
        self.change(request)?;
        Ok((first, second))
    }

    fn copy_request(_alloc: Global, request: &ManagerRequest) -> Result<ManagerRequest, NoMemory> {
        match request {
            ManagerRequest::Begin { node, seen } => {
                let seen = seen.copy()?;
                Ok(ManagerRequest::Begin { node: *node, seen })
            }
            ManagerRequest::Range { low, high } => Ok(ManagerRequest::Range {
                low: *low,
                high: *high,
            }),
            ManagerRequest::End { tid } => Ok(ManagerRequest::End { tid: *tid }),
            ManagerRequest::Orphans { node } => Ok(ManagerRequest::Orphans { node: *node }),
            ManagerRequest::Floor { seen } => {
                let seen = seen.copy()?;
                Ok(ManagerRequest::Floor { seen })
            }
            ManagerRequest::Post { node, also } => Ok(ManagerRequest::Post {
                node: *node,
                also: *also,
            }),
            ManagerRequest::Claim { node } => Ok(ManagerRequest::Claim { node: *node }),
        }
    }
}
