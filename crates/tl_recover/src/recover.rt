ghost use Rattle.std.specs.Prelude.{◌≡◌, ◌≤◌, IfOk, IsSome, MatchOption, Some};
ghost use Rattle.tl_base.specs.NodeSet.{with_node};
ghost use Rattle.tl_recover.specs.Heeds.{Gives, IsStarted, IsTaken, hears, taken_by};
ghost use Rattle.tl_recover.specs.Taken.{takes};

use crate::after::{After, strange};
use crate::duties::{finding, least_of};
use crate::ending::takes_ending;
use crate::finding::takes_finding;
use crate::finishing::takes_finishing;
use crate::lost_log::takes_log;
use crate::phase::Phase;
use crate::stripping::takes_stripping;
use std::alloc::Global;
use std::mem;
use tl_ask::{Asked, Layout};
use tl_base::{NoMemory, NodeId, NodeSet, PlaceId};
use tl_manager::{Mark, Reply, Request, TxnStep};
use tl_schema::{Catalog, Setup};

/// A node's recovery of vanished nodes, one after the other in rising order: it asks, and takes the reply.
pub struct Recover {
    alloc: Global,
    layout: Layout,
    /// All nodes that were given.
    all: NodeSet,
    phase: Phase,
    next: Option<Asked>,
}

// Written out, so that it is proved here, and not at each place that lets one go.
impl Drop for Recover {
    fn drop(self) {
        let Recover {
            alloc: _,
            layout: _,
            all: _,
            phase,
            next,
        } = self;
        drop(phase);
        drop(next);
    }
}

/// By the phase that the reply was awaited in.
fn takes(
    alloc: Global,
    catalog: &Catalog,
    layout: Layout,
    all: NodeSet,
    phase: Phase,
    reply: &Reply,
) -> Result<After, NoMemory>
    ensures { Gives layout (takes layout all phase (hears catalog.now phase reply.now)) result }
{
    match phase {
        Phase::Finding(node) => takes_finding(alloc, layout, all, node, reply),
        Phase::ReadingLog(lost) => takes_log(alloc, catalog, layout, lost, reply),
        Phase::Stripping {
            lost,
            log,
            at,
            loaded,
        } => takes_stripping(alloc, catalog, layout, lost, log, at, loaded, reply),
        Phase::Finishing {
            lost,
            committed,
            loaded,
        } => takes_finishing(alloc, layout, lost, committed, loaded, reply),
        Phase::EndingLost(lost) => takes_ending(alloc, layout, all, lost, reply),
        Phase::Over | Phase::Stopped => Ok(strange()),
    }
}

impl Recover {
    /// The recovery of the node that was claimed, and of these others. It asks for the active transactions of the
    /// first of them.
    pub fn start(
        alloc: Global,
        node: NodeId,
        also: NodeSet,
        setup: &Setup,
    ) -> Result<Recover, NoMemory>
        requires least_shards { 1 ≤ setup.now.settings.shards }
        requires greatest_shards { setup.now.settings.shards ≤ 16 }
        requires least_managers { 1 ≤ setup.now.settings.managers }
        requires greatest_managers { setup.now.settings.managers ≤ 4 }
        ensures { IfOk result (λ recovery. IsStarted setup.now.settings (with_node also node) recovery) }
    {
        Ok(Recover::begin(alloc, Layout::new(&setup.settings), node, also))
    }

    /// The recovery of the node that was claimed, and of these others, in a run laid out so.
    pub fn begin(alloc: Global, layout: Layout, node: NodeId, also: NodeSet) -> Recover
        ensures { IsStarted layout (with_node also node) result }
    {
        let mut all = also;
        all.insert(node);
        let first = least_of(all, node);
        let After {
            phase,
            next,
            step: _,
        } = finding(layout, first);
        Recover {
            alloc,
            layout,
            all,
            phase,
            next,
        }
    }

    /// What it asks, until it is over or has stopped.
    pub fn ask(&self) -> Option<(PlaceId, &Request)>
        ensures { MatchOption result (self.now.next ≡ None) (λ asked. self.now.next ≡ Some (record { place = asked.0; request = asked.1.now })) }
    {
        match &self.next {
            Some(asked) => Some((asked.place, &asked.request)),
            None => None,
        }
    }

    /// What the reply led to, in a database of these tables; `None` where no place of a run replies so.
    pub fn heed(&mut self, catalog: &Catalog, reply: &Reply) -> Option<TxnStep>
        ensures { IsTaken catalog.now self.old self.new reply.now result }
    {
        let phase = mem::replace(&mut self.phase, Phase::Stopped);
        match takes(self.alloc, catalog, self.layout, self.all, phase, reply) {
            Ok(After { phase, next, step }) => {
                self.phase = phase;
                self.next = next;
                step
            }
            Err(NoMemory) => {
                self.next = None;
                Some(TxnStep::NoMemory(Mark::Quiet))
            }
        }
    }

    /// What the reply led to, which a place of a run gave to what was asked.
    pub fn take(&mut self, catalog: &Catalog, reply: &Reply) -> TxnStep
        requires asks { IsSome self.old.next }
        requires known { IsSome (taken_by catalog.now self.old reply.now).step }
        ensures { IsTaken catalog.now self.old self.new reply.now (Some result) }
    {
        self.heed(catalog, reply).unwrap()
    }

    /// All nodes that it was given, whatever was done of them.
    pub fn duties(&self) -> NodeSet
        ensures { result ≡ self.now.all }
    {
        self.all
    }
}
