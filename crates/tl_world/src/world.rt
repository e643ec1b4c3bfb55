//! A world: the shards, the managers and the nodes of a run, with the journal of what happened.

ghost use Rattle.std.specs.Prelude.{◌≡◌, ◌≤◌, ◌<◌, ◌+◌, ◌^◌, [], false, true, IfOk, MatchOption, OnErr, OnOk, Some, length, slice_index_or, vec_capacity, vec_len};
ghost use Rattle.tl_isolation.specs.declared.script.Script.{Script as TheScript};
ghost use Rattle.tl_isolation.specs.Script.{answers_by};
ghost use Rattle.tl_journal.specs.Binding.{IsBound};
ghost use Rattle.tl_journal.specs.Journal.{entries_told};
ghost use Rattle.tl_journal.specs.Schedule.{is_over};
ghost use Rattle.tl_world.specs.Seen.{HasEnded, HasGoneOn, HasRoom, HasRoomForNotice, HasTurned, IsThere, Runs, seen_as};
ghost use Rattle.tl_world.specs.Slot.{has_more};
ghost use Rattle.tl_world.specs.Stands.{Stands, StandsOn};
ghost use Rattle.tl_world.specs.Turns.{Goes, TurnsTo, VanishesTo};
ghost use Rattle.tl_world.specs.Premises.{LogsAreServed};
ghost use Rattle.tl_world.specs.declared.slot.Slot.{Slot as TheSlot};

use crate::notice::{leave, tell_end};
use crate::opening::{open_commits, open_slots};
use crate::request::{Served, count_request, hear, serve};
use crate::room::take_all;
use crate::slot::{Slot, spot};
use crate::terms::Terms;
use std::alloc::Global;
use tl_base::{Items, NoMemory, NodeId, PlaceId, Settings, Tid};
use tl_isolation::{Ending, Entry, Script};
use tl_journal::{Event, Journal};
use tl_manager::Request;
use tl_places::{Places, places_serve_their_logs};

/// What a node's turn came to.
#[derive(Clone, Copy, Debug, PartialEq, Eq)]
pub enum Turned {
    /// There is no such node, or it has nothing more to do, or it is gone.
    Done,
    /// It made a request.
    Went,
    /// It ended, and posted its death notice.
    Ended(Ending),
}

/// A run of a script so far.
#[derive(Drop)]
pub struct World {
    alloc: Global,
    terms: Terms,
    places: Places,
    slots: Vec<Slot>,
    /// The numbers of the committed transactions, in order. The first is that of the opening rows.
    commits: Vec<Tid>,
    events: Vec<Event>,
    /// Room for the entries of a request,
    spare: Vec<Entry>,
    /// and of a death notice.
    last: Vec<Entry>,
}

impl World {
    /// The world before the first request of a script that was bound.
    pub fn new(alloc: Global, script: &Script, settings: &Settings) -> Result<World, NoMemory>
        requires least_shards { 1 ≤ settings.now.shards }
        requires greatest_shards { settings.now.shards ≤ 16 }
        requires least_managers { 1 ≤ settings.now.managers }
        requires greatest_managers { settings.now.managers ≤ 4 }
        requires bound { IsBound script.now settings.now }
        ensures stands { IfOk result (λ w. IsBound script.now settings.now → length script.now.rows < 2 ^ 32 → Stands script.now (seen_as w)) }
        ensures settings { IfOk result (λ w. (seen_as w).settings ≡ settings.now) }
        ensures events { IfOk result (λ w. (seen_as w).events ≡ []) }
    {
        places_serve_their_logs();
        let terms = Terms::new(settings);
        let places = Places::new(alloc, terms.layout(), script)?;
        let slots = open_slots(alloc, script, settings)?;
        let commits = open_commits(alloc)?;
        Ok(World {
            alloc,
            terms,
            places,
            slots,
            commits,
            events: Vec::new(alloc),
            spare: Vec::new(alloc),
            last: Vec::new(alloc),
        })
    }

    /// What happened so far.
    pub fn events(&self) -> &[Event]
        ensures { result.now ≡ (seen_as self.now).events }
    {
        self.events.as_slice()
    }

    pub fn into_journal(self) -> Journal
        ensures { result.events ≡ (seen_as self).events }
    {
        Journal {
            events: Items::from_vec(self.events),
        }
    }

    /// Whether the node has nothing more to do: there is no such node, or all its statements are answered, or it has ended.
    pub fn is_over(&self, node: NodeId) -> bool
        ensures { (script : TheScript) → Stands script (seen_as self.now) → result ≡ is_over script (seen_as self.now).events node }
    {
        match spot(self.slots.as_slice(), node) {
            Some(at) => !self.slots[at].has_more(),
            None => true,
        }
    }

    /// How many statements of a node that hasn't ended are answered.
    pub fn answered(&self, node: NodeId) -> usize
        ensures { (script : TheScript) → Stands script (seen_as self.now) → is_over script (seen_as self.now).events node ≡ false
            → result ≡ length (answers_by node (entries_told (seen_as self.now).events)) }
    {
        match spot(self.slots.as_slice(), node) {
            Some(at) => self.slots[at].answered(),
            None => 0,
        }
    }

    /// The node makes one request, or ends.
    pub fn turn(&mut self, node: NodeId) -> Result<Turned, NoMemory>
        ensures turns { IfOk result (λ turned. (script : TheScript) → Stands script (seen_as self.old) → Stands script (seen_as self.new) × TurnsTo script node (seen_as self.old) turned (seen_as self.new)) }
        ensures kept { OnErr result (seen_as self.new ≡ seen_as self.old) }
    {
        places_serve_their_logs();
        let Some(at) = spot(self.slots.as_slice(), node) else {
            return Ok(Turned::Done);
        };
        if !self.slots[at].has_more() {
            return Ok(Turned::Done);
        }
        self.make_room()?;
        Ok(self.go(at, node))
    }

    /// The node vanishes, whether the script asks for it or not; false where there is no such node or it has vanished
    /// already.
    pub fn vanish(&mut self, node: NodeId) -> Result<bool, NoMemory>
        ensures vanishes { IfOk result (λ there. (script : TheScript) → Stands script (seen_as self.old) → Stands script (seen_as self.new) × VanishesTo script node (seen_as self.old) there (seen_as self.new)) }
        ensures kept { OnErr result (seen_as self.new ≡ seen_as self.old) }
    {
        places_serve_their_logs();
        let Some(at) = spot(self.slots.as_slice(), node) else {
            return Ok(false);
        };
        if self.slots[at].node.is_none() {
            return Ok(false);
        }
        self.make_room()?;
        self.end(at, node, Ending::Vanished);
        Ok(true)
    }

    /// A node that has more to do makes a request, or ends.
    fn go(&mut self, at: usize, node: NodeId) -> Turned
        requires there { IsThere self.old node at }
        requires room { HasRoom self.old }
        requires more { (d : TheSlot) → has_more (slice_index_or self.old.slots.items at d).node ≡ true }
        ensures { HasTurned node self.old result self.new }
    {
        if self.slots[at].is_due() {
            return self.end(at, node, Ending::Vanished);
        }
        if self.slots[at].is_spent(self.terms.budget()) {
            return self.end(at, node, Ending::Spent);
        }
        match self.request(at, node) {
            Some(wants) => self.go_on(at, node, wants),
            None => self.end(at, node, Ending::OutOfMemory),
        }
    }

    /// It has made its request: it goes on, or ends behind it.
    fn go_on(&mut self, at: usize, node: NodeId, wants: bool) -> Turned
        requires there { IsThere self.old node at }
        requires room { HasRoomForNotice self.old }
        ensures { HasGoneOn node wants self.old result self.new }
    {
        if self.slots[at].is_due() {
            return self.end(at, node, Ending::Vanished);
        }
        if wants {
            return self.end(at, node, Ending::OutOfMemory);
        }
        if self.slots[at].is_spent(self.terms.budget()) {
            return self.end(at, node, Ending::Spent);
        }
        Turned::Went
    }

    /// Room for an event and a death notice behind it.
    fn make_room(&mut self) -> Result<(), NoMemory>
        ensures room { OnOk result (HasRoom self.new) }
        ensures kept { seen_as self.new ≡ seen_as self.old }
    {
        if self.events.len() >= 4_294_967_293 || self.commits.len() >= 4_294_967_295 {
            return Err(NoMemory);
        }
        self.spare.clear();
        self.last.clear();
        self.events.reserve(2)?;
        self.spare.reserve_exact(2)?;
        self.last.reserve(1)?;
        self.commits.reserve(1)?;
        Ok(())
    }

    /// The node makes its next request; whether it asks nothing more, for want of memory. None where there was no memory
    /// to serve it.
    fn request(&mut self, at: usize, number: NodeId) -> Option<bool>
        requires there { IsThere self.old number at }
        requires room { HasRoom self.old }
        requires runs { (d : TheSlot) → Runs self.old.terms (slice_index_or self.old.slots.items at d) }
        ensures went { MatchOption result (seen_as self.new ≡ seen_as self.old) (λ wants. LogsAreServed → (script : TheScript) → StandsOn script (seen_as self.old) → Goes script number (seen_as self.old) wants (seen_as self.new)) }
        ensures there { IsThere self.new number at }
        ensures room { HasRoomForNotice self.new }
    {
        let Served {
            place,
            request,
            reply,
        } = serve(&self.slots[at], &mut self.places)?;
        let wants = hear(
            self.alloc,
            &mut self.slots[at],
            &reply,
            &mut self.commits,
            &mut self.spare,
        );
        count_request(&mut self.slots[at], &request, &reply);
        let entries = take_all(self.alloc, &mut self.spare);
        let event = Event {
            node: number,
            place,
            request,
            reply,
            entries,
        };
        self.events.push_reserved(event);
        Some(wants)
    }

    /// The node is gone, and its death notice stands.
    fn end(&mut self, at: usize, number: NodeId, ending: Ending) -> Turned
        requires there { IsThere self.old number at }
        requires room { HasRoomForNotice self.old }
        ensures { HasEnded number ending self.old result self.new }
    {
        let Some(node) = leave(&mut self.slots[at]) else {
            return Turned::Done;
        };
        let home = self.terms.layout().home_of(number);
        if !self.places.has_manager(home) {
            return Turned::Done;
        }
        let notice = node.vanish().post();
        let reply = self.places.post(home, &notice);
        let entries = tell_end(self.alloc, &mut self.last, number, ending);
        let event = Event {
            node: number,
            place: PlaceId::Manager(home),
            request: Request::Manager(notice),
            reply,
            entries,
        };
        self.events.push_reserved(event);
        Turned::Ended(ending)
    }
}
