//! The shards and the managers.

ghost use Rattle.std.specs.Prelude.{◌≡◌, ◌<◌, ◌↔◌, [], true, length, IfOk, IsTrue, OnErr};
ghost use Rattle.std.specs.List.{AllByRecursion};
ghost use Rattle.tl_isolation.specs.Tables.{HasTable, opening_writes};
ghost use Rattle.tl_journal.specs.Binding.{WriteFits};
ghost use Rattle.tl_manager.specs.declared.request.ManagerReply.TheVariants as told;
ghost use Rattle.tl_manager.specs.declared.request.Reply.TheVariants as answered;
ghost use Rattle.tl_manager.specs.declared.request.Request.TheVariants as asked;
ghost use Rattle.tl_base.specs.declared.place.PlaceId.TheVariants as place_of;
ghost use Rattle.tl_journal.specs.Journal.{IsCall, is_post};
ghost use Rattle.tl_places.specs.Opening.{AreNew};
ghost use Rattle.tl_places.specs.Places.{AreAt, HaveServed};

use crate::opening::open_shards;
use std::alloc::Global;
use std::marker::Model;
use tl_ask::Layout;
use tl_base::{Machine, NoMemory, PlaceId, StoreReply, StoreRequest};
use tl_cells::Shard;
use tl_isolation::Script;
use tl_manager::{Manager, ManagerReply, ManagerRequest, Reply, Request};

/// The shards and the managers of a run.
#[derive(Drop)]
pub struct Places {
    alloc: Global,
    shards: Vec<Shard>,
    managers: Vec<Manager>,
}

impl Model for Places {
    ghost use Rattle.tl_places.specs.Places.{PlacesState};
    ghost use Rattle.tl_places.specs.StateCode.{places_code};

    ghost Value = { PlacesState };

    ghost coded = { places_code };

    ghost view = { λ places. record { shards = places.shards.items; managers = places.managers.items } };
}

impl Places {
    /// As a run opens: the shards with the commits cell and the rows of the script, and managers that know of nothing.
    /// The rows are of tables of the catalog, and have room in their cells.
    pub fn new(alloc: Global, layout: Layout, script: &Script) -> Result<Places, NoMemory>
        requires tables { AllByRecursion (λ o. HasTable script.now.catalog o.table) script.now.rows }
        requires writes { AllByRecursion WriteFits (opening_writes script.now.catalog script.now.rows) }
        ensures { IfOk result (λ places. AreAt script.now layout [] places) }
    {
        let shards = open_shards(alloc, layout, script)?;
        let managers = new_managers(alloc, layout)?;
        Ok(Places {
            alloc,
            shards,
            managers,
        })
    }

    /// Serves the request at its place, and gives a copy of it for the journal. A request to a place that isn't there
    /// is want of memory.
    pub fn serve(&mut self, place: PlaceId, request: &Request) -> Result<(Request, Reply), NoMemory>
        ensures copied { IfOk result (λ call. call.0 ≡ request.now) }
        ensures call { IfOk result (λ call. IsCall place request.now call.1) }
        ensures served { IfOk result (λ call. HaveServed place request.now call.1 self.old self.new) }
        ensures kept { OnErr result (self.new ≡ self.old) }
    {
        match (place, request) {
            (PlaceId::Shard(shard), Request::Store(request)) => {
                let (copy, reply) = self.serve_store(shard, request)?;
                Ok((Request::Store(copy), Reply::Store(reply)))
            }
            (PlaceId::Manager(manager), Request::Manager(request)) => {
                let (copy, reply) = self.serve_manager(manager, request)?;
                Ok((Request::Manager(copy), Reply::Manager(reply)))
            }
            _ => Err(NoMemory),
        }
    }

    fn serve_store(
        &mut self,
        shard: u8,
        request: &StoreRequest,
    ) -> Result<(StoreRequest, StoreReply), NoMemory>
        ensures copied { IfOk result (λ call. call.0 ≡ request.now) }
        ensures served { IfOk result (λ call. HaveServed (place_of.Shard shard) (asked.Store request.now) (answered.Store call.1) self.old self.new) }
        ensures kept { OnErr result (self.new ≡ self.old) }
    {
        let at = usize::from(shard);
        if at >= self.shards.len() {
            return Err(NoMemory);
        }
        let copy = Shard::copy_request(self.alloc, request)?;
        let reply = self.shards[at].apply(request)?;
        Ok((copy, reply))
    }

    fn serve_manager(
        &mut self,
        manager: u8,
        request: &ManagerRequest,
    ) -> Result<(ManagerRequest, ManagerReply), NoMemory>
        ensures copied { IfOk result (λ call. call.0 ≡ request.now) }
        ensures served { IfOk result (λ call. HaveServed (place_of.Manager manager) (asked.Manager request.now) (answered.Manager call.1) self.old self.new) }
        ensures kept { OnErr result (self.new ≡ self.old) }
    {
        let at = usize::from(manager);
        if at >= self.managers.len() {
            return Err(NoMemory);
        }
        let copy = Manager::copy_request(self.alloc, request)?;
        let reply = self.managers[at].apply(request)?;
        Ok((copy, reply))
    }

    /// Whether there is a manager of this number.
    pub fn has_manager(&self, manager: u8) -> bool
        ensures { IsTrue result ↔ (manager < length self.now.managers) }
    {
        usize::from(manager) < self.managers.len()
    }

    /// Posts a death notice, which takes no memory.
    pub fn post(&mut self, manager: u8, notice: &ManagerRequest) -> Reply
        requires notice { is_post (asked.Manager notice.now) ≡ true }
        requires manager { manager < length self.old.managers }
        ensures posted { result ≡ answered.Manager told.Posted }
        ensures served { HaveServed (place_of.Manager manager) (asked.Manager notice.now) result self.old self.new }
    {
        match self.managers[usize::from(manager)].apply(notice) {
            Ok(reply) => Reply::Manager(reply),
            Err(_) => unreachable!(),
        }
    }
}

fn new_managers(alloc: Global, layout: Layout) -> Result<Vec<Manager>, NoMemory>
    ensures { IfOk result (λ managers. AreNew layout.managers managers.items) }
{
    let mut managers = Vec::new(alloc);
    let count = layout.managers();
    for _ in 0..count {
        managers.push(Manager::new(alloc))?;
    }
    Ok(managers)
}
