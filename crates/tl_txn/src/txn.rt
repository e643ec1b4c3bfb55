ghost use Rattle.std.specs.Prelude.{◌≡◌, ◌↔◌, ◌≤◌, IfOk, IsSome, IsTrue, None, OnErr, OnOk, Some};
ghost use Rattle.std.specs.Option.{option_map};
ghost use Rattle.tl_ask.specs.Asked.{asked};
ghost use Rattle.tl_journal.specs.Ask.{LoadCommits};
ghost use Rattle.tl_journal.specs.Reads.{range_of, read_of, table_key};
ghost use Rattle.tl_txn.specs.After.{IsTaken};
ghost use Rattle.tl_txn.specs.Calls.{IsReady, ask_commit, ask_read, ask_writes, awaited, commits, conflict_in, gives_up, own_in, reads, rival_of, rows_in, rows_taken, snapshot_in, tries_nothing, tries_writes, with_own};
ghost use Rattle.std.specs.Borrow.{sem};
ghost use Rattle.tl_txn.specs.Hears.{hears};
ghost use Rattle.tl_txn.specs.Lending.{LendsOwn, LendsOwnOf};
ghost use Rattle.tl_txn.specs.Taken.{takes};

use crate::after::After;
use crate::attempt::Attempt;
use crate::begin::{hear_asking, hear_bringing, hear_drawing, hear_noted};
use crate::commit::{hear_storing, hear_trying};
use crate::finish::{hear_closing, hear_ending, hear_giving_up, hear_trying_nothing};
use crate::phase::{Decision, Open, PageRead, Phase, Read};
use crate::prepare::{Preparation, prepare};
use crate::reading::{ask_page, hear_reading};
use crate::undo::hear_removing;
use std::alloc::Global;
use std::mem;
use tl_ask::{Asked, Layout, load_commits, load_record, store_log};
use tl_base::{Bytes, Duplicate, NoMemory, NodeId, PlaceId, Tid};
use tl_descriptor::Descriptor;
use tl_manager::{Reply, Request, TxnStep};
use tl_schema::{Access, Catalog, RECORD, Setup};
use tl_values::Rows;
use tl_write::Buffer;

/// A transaction of a node: it says what it asks for next, and takes the reply.
pub struct Txn {
    alloc: Global,
    layout: Layout,
    node: NodeId,
    phase: Phase,
    next: Option<Asked>,
}

// Written out, so that it is proved here, and not at each place that lets one go.
impl Drop for Txn {
    fn drop(self) {
        let Txn {
            alloc: _,
            layout: _,
            node: _,
            phase,
            next,
        } = self;
        drop(phase);
        drop(next);
    }
}

impl Txn {
    ghost use Rattle.tl_txn.specs.Run.{IsSameRun};

    /// A transaction that is to begin: it asks for the finished transactions.
    pub fn start(alloc: Global, node: NodeId, setup: &Setup) -> Result<Txn, NoMemory>
        requires least_shards { 1 ≤ setup.now.settings.shards }
        requires greatest_shards { setup.now.settings.shards ≤ 16 }
        requires least_managers { 1 ≤ setup.now.settings.managers }
        requires greatest_managers { setup.now.settings.managers ≤ 4 }
        ensures { IfOk result (λ txn. txn ≡ record { alloc = alloc; layout = setup.now.settings; node = node; phase = Phase.Asking; next = Some (asked setup.now.settings LoadCommits) }) }
    {
        Txn::begin(alloc, Layout::new(&setup.settings), node)
    }

    /// A transaction of this node that is to begin, in a run laid out so.
    pub fn begin(alloc: Global, layout: Layout, node: NodeId) -> Result<Txn, NoMemory>
        ensures { IfOk result (λ txn. txn ≡ record { alloc = alloc; layout = layout; node = node; phase = Phase.Asking; next = Some (asked layout LoadCommits) }) }
    {
        let ask = load_commits(alloc, layout)?;
        Ok(Txn {
            alloc,
            layout,
            node,
            phase: Phase::Asking,
            next: Some(ask),
        })
    }

    /// What it asks for next, and where; `None` where it is ready, over or stopped.
    pub fn ask(&self) -> Option<(PlaceId, &Request)>
        ensures { option_map (λ ask. record { place = ask.0; request = ask.1.now }) result ≡ self.now.next }
    {
        match &self.next {
            Some(ask) => Some((ask.place, &ask.request)),
            None => None,
        }
    }

    /// Whether it takes reads, and its end.
    pub fn is_ready(&self) -> bool
        ensures { IsTrue result ↔ IsReady self.now.phase }
    {
        matches!(&self.phase, Phase::Ready(_))
    }

    /// Takes the reply to what it asks for, in a database of these tables. `None` at a reply that no place of a run gives; then it asks nothing more.
    pub fn heed(&mut self, catalog: &Catalog, reply: &Reply) -> Option<TxnStep>
        ensures taken { IsTaken self.old.layout (takes self.old.layout self.old.node self.old.phase (hears catalog.now self.old.phase reply.now)) (record { phase = self.new.phase; next = self.new.next; step = result }) }
        ensures stays { IsSameRun self.old self.new }
    {
        let phase = mem::replace(&mut self.phase, Phase::Stopped);
        let After { phase, next, step } = hear(
            self.alloc,
            catalog,
            self.layout,
            self.node,
            phase,
            reply,
        );
        self.phase = phase;
        self.next = next;
        step
    }

    /// Takes the reply to what it asks for, which is one that a place of a run gives.
    pub fn take(&mut self, catalog: &Catalog, reply: &Reply) -> TxnStep
        requires asks { IsSome self.old.next }
        requires known { IsSome (takes self.old.layout self.old.node self.old.phase (hears catalog.now self.old.phase reply.now)).step }
        ensures taken { IsTaken self.old.layout (takes self.old.layout self.old.node self.old.phase (hears catalog.now self.old.phase reply.now)) (record { phase = self.new.phase; next = self.new.next; step = Some result }) }
        ensures stays { IsSameRun self.old self.new }
    {
        match self.heed(catalog, reply) {
            Some(step) => step,
            None => unreachable!(),
        }
    }

    /// Reads these records of the table of this number. An index isn't read by its entries: the whole table is read.
    pub fn read(&mut self, table: u8, access: &Access) -> Result<(), NoMemory>
        requires { IsReady self.old.phase }
        ensures ok { OnOk result (self.new ≡ record self.old { phase = reads (read_of table access.now) self.old.phase; next = Some (asked self.old.layout (ask_read (read_of table access.now))) }) }
        ensures err { OnErr result (self.new ≡ self.old) }
    {
        let (ask, read) = begin_read(self.alloc, self.layout, table, access)?;
        let live = self.leave();
        let live = Open {
            rows: Rows::new(self.alloc),
            ..live
        };
        self.phase = Phase::Reading(live, read);
        self.next = Some(ask);
        Ok(())
    }

    /// What its last read found. They are given once.
    pub fn rows(&mut self) -> Rows
        requires { IsReady self.old.phase }
        ensures rows { result ≡ rows_in self.old.phase }
        ensures rest { self.new ≡ record self.old { phase = rows_taken self.old.phase } }
    {
        let Open {
            tid,
            snapshot,
            own,
            rows,
        } = self.leave();
        self.phase = Phase::Ready(Open {
            tid,
            snapshot,
            own,
            rows: Rows::new(self.alloc),
        });
        rows
    }

    /// What it sees: the transactions that were finished when it began.
    pub fn snapshot(&self) -> &Descriptor
        requires { IsReady self.now.phase }
        ensures { result.now ≡ snapshot_in self.now.phase }
    {
        &live_in(&self.phase).snapshot
    }

    /// What it wrote so far.
    pub fn own(&self) -> &Buffer
        requires { IsReady self.now.phase }
        ensures { result.now ≡ own_in self.now.phase }
    {
        &live_in(&self.phase).own
    }

    /// What it wrote so far, to be written on.
    pub fn buffer(&mut self) -> &mut Buffer
        requires { IsReady self.old.phase }
        ensures* lends { sem 𝓛 (LendsOwn self.entry result) }
        ensures own { result.now ≡ own_in self.old.phase }
    {
        let phase = &mut self.phase;
        own_of(phase)
    }

    /// Commits what it wrote; `floor` is the low-water mark down to which old versions are dropped.
    pub fn commit(&mut self, floor: &Descriptor) -> Result<(), NoMemory>
        requires { IsReady self.old.phase }
        ensures ok { OnOk result (self.new ≡ record self.old { phase = commits self.old.node floor.now self.old.phase; next = Some (asked self.old.layout (ask_commit self.old.node floor.now self.old.phase)) }) }
        ensures err { OnErr result (self.new ≡ self.old) }
    {
        if self.own().len() == 0 {
            self.commit_nothing()
        } else {
            self.commit_writes(floor)
        }
    }

    fn commit_nothing(&mut self) -> Result<(), NoMemory>
        requires { IsReady self.old.phase }
        ensures ok { OnOk result (self.new ≡ record self.old { phase = tries_nothing self.old.phase; next = Some (asked self.old.layout LoadCommits) }) }
        ensures err { OnErr result (self.new ≡ self.old) }
    {
        let ask = load_commits(self.alloc, self.layout)?;
        let live = self.leave();
        self.phase = Phase::TryingNothing(live);
        self.next = Some(ask);
        Ok(())
    }

    fn commit_writes(&mut self, floor: &Descriptor) -> Result<(), NoMemory>
        requires { IsReady self.old.phase }
        ensures ok { OnOk result (self.new ≡ record self.old { phase = tries_writes self.old.node floor.now self.old.phase; next = Some (asked self.old.layout (ask_writes self.old.node floor.now self.old.phase)) }) }
        ensures err { OnErr result (self.new ≡ self.old) }
    {
        let live = live_in(&self.phase);
        let tid = live.tid.get();
        let Preparation {
            floor,
            trying,
            decided,
            undone,
        } = prepare(self.node, live, floor)?;
        let ask = store_log(self.alloc, self.layout, 0, tid, trying)?;
        let live = self.leave();
        self.phase = Phase::Trying(Attempt::new(self.node, live, floor, decided, undone));
        self.next = Some(ask);
        Ok(())
    }

    /// Gives up: nothing of it will stand.
    pub fn rollback(&mut self) -> Result<(), NoMemory>
        requires { IsReady self.old.phase }
        ensures ok { OnOk result (self.new ≡ record self.old { phase = gives_up self.old.phase; next = Some (asked self.old.layout LoadCommits) }) }
        ensures err { OnErr result (self.new ≡ self.old) }
    {
        let ask = load_commits(self.alloc, self.layout)?;
        let live = self.leave();
        self.phase = Phase::GivingUp(live);
        self.next = Some(ask);
        Ok(())
    }

    /// The transaction whose version, outside the snapshot, kept it from committing, while it undoes its own.
    pub fn conflict(&self) -> Option<Tid>
        ensures { result ≡ conflict_in self.now.phase }
    {
        match &self.phase {
            Phase::Removing(removes) => Some(removes.rival()),
            Phase::Closing { decision, .. } | Phase::Ending { decision, .. } => rival_of(*decision),
            _ => None,
        }
    }

    /// What it is while it is ready; the next phase is put in its place.
    fn leave(&mut self) -> Open
        requires { IsReady self.old.phase }
        ensures was { self.old.phase ≡ Phase.Ready result }
        ensures left { self.new ≡ record self.old { phase = Phase.Stopped } }
    {
        let Phase::Ready(live) = mem::replace(&mut self.phase, Phase::Stopped) else {
            unreachable!()
        };
        live
    }
}

fn live_in(phase: &Phase) -> &Open
    requires { IsReady phase.now }
    ensures { phase.now ≡ Phase.Ready result.now }
{
    let Phase::Ready(live) = phase else {
        unreachable!()
    };
    live
}

fn own_of(phase: &mut Phase) -> &mut Buffer
    requires { IsReady phase.old }
    ensures* lends { sem 𝓛 (LendsOwnOf phase.entry result) }
    ensures own { result.now ≡ own_in phase.old }
{
    let Phase::Ready(live) = phase else {
        unreachable!()
    };
    &mut live.own
}

fn rival_of(decision: Decision) -> Option<Tid>
    ensures { result ≡ rival_of decision }
{
    match decision {
        Decision::Commit => None,
        Decision::Undo(rival) => rival,
    }
}

/// The first request of a read, and what its reply is taken for.
fn begin_read(
    alloc: Global,
    layout: Layout,
    table: u8,
    access: &Access,
) -> Result<(Asked, Read), NoMemory>
    ensures { IfOk result (λ begun. (begun.0 ≡ asked layout (ask_read (read_of table access.now))) × (begun.1 ≡ awaited (read_of table access.now))) }
{
    match access {
        Access::Point { key } => {
            let key = table_key(alloc, table, key.as_slice())?;
            let wanted = key.copy()?;
            Ok((load_record(layout, wanted), Read::Point(key)))
        }
        Access::KeyRange { low, high } => {
            begin_range(alloc, layout, table, low.as_slice(), high.as_slice())
        }
        Access::IndexRange { .. } | Access::Whole => {
            begin_range(alloc, layout, table, b"\x01", b"\x04")
        }
    }
}

fn begin_range(
    alloc: Global,
    layout: Layout,
    table: u8,
    low: &[u8],
    high: &[u8],
) -> Result<(Asked, Read), NoMemory>
    ensures { IfOk result (λ begun. (begun.0 ≡ asked layout (ask_read (range_of table low.now high.now))) × (begun.1 ≡ awaited (range_of table low.now high.now))) }
{
    let page = PageRead {
        shard: 0,
        from: table_key(alloc, table, low)?,
        first: table_key(alloc, table, low)?,
        before: table_key(alloc, table, high)?,
    };
    let ask = ask_page(layout, &page)?;
    Ok((ask, Read::Range(page)))
}

/// The store key of the record of the table of this number whose key has these bytes.
fn table_key(alloc: Global, table: u8, key: &[u8]) -> Result<Bytes, NoMemory>
    ensures { IfOk result (λ store_key. store_key ≡ table_key table key.now) }
{
    let mut store_key = Bytes::new(alloc);
    store_key.push(RECORD)?;
    store_key.push(table)?;
    store_key.extend_from_slice(key)?;
    Ok(store_key)
}

/// What it does with a reply, by how far it is.
fn hear(
    alloc: Global,
    catalog: &Catalog,
    layout: Layout,
    node: NodeId,
    phase: Phase,
    reply: &Reply,
) -> After
    ensures { IsTaken layout (takes layout node phase (hears catalog.now phase reply.now)) result }
{
    match phase {
        Phase::Asking => hear_asking(alloc, layout, node, reply),
        Phase::Noted(seen) => hear_noted(alloc, layout, node, seen, reply),
        Phase::Drawing(seen) => hear_drawing(layout, node, seen, reply),
        Phase::Bringing { seen, low: _ } => hear_bringing(layout, node, seen, reply),
        Phase::Reading(live, read) => hear_reading(alloc, catalog, layout, live, read, reply),
        Phase::TryingNothing(live) => hear_trying_nothing(alloc, layout, live, reply),
        Phase::Trying(attempt) => hear_trying(alloc, layout, attempt, reply),
        Phase::Storing(stores) => hear_storing(alloc, catalog, layout, stores, reply),
        Phase::Removing(removes) => hear_removing(alloc, catalog, layout, removes, reply),
        Phase::GivingUp(live) => hear_giving_up(alloc, layout, live, reply),
        Phase::Closing {
            tid,
            decision,
            loaded,
        } => hear_closing(alloc, layout, node, tid, decision, loaded, reply),
        Phase::Ending { .. } => hear_ending(layout, reply),
        Phase::Ready(_) | Phase::Over | Phase::Stopped => After::strange(),
    }
}
