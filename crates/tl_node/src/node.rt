//! A node runs the statements of its session, request by request.

ghost use Rattle.std.specs.Prelude.{◌≡◌, ◌≤◌, IfOk, MatchOption, None, Some, drop, length, slice_get};
ghost use Rattle.std.specs.Option.{option_copied};
ghost use Rattle.tl_manager.specs.declared.request.ManagerRequest.TheVariants as asked_of;
ghost use Rattle.tl_protocol.specs.Move.{is_empty};
ghost use Rattle.tl_journal.specs.Node.{opening_node, owed_by};
ghost use Rattle.tl_node.specs.After.{IsAfter, IsTold, IsToldSo, Stays, may_be_given};
ghost use Rattle.tl_node.specs.Fits.{IsFit};
ghost use Rattle.tl_ask.specs.Hears.{hears_manager};
ghost use Rattle.tl_node.specs.Hears.{claim_heard};
ghost use Rattle.tl_node.specs.Named.{AreNamed};
ghost use Rattle.tl_node.specs.New.{IsNew};
ghost use Rattle.tl_node.specs.Owed.{owed_at, owed_next, owed_of_claim};
ghost use Rattle.tl_node.specs.declared.work.Work.TheVariants as stopped_work;
ghost use Rattle.tl_node.specs.View.{StandsFor, course_asks, node_at, outside_asks, value_of, work_asks};

use crate::hears::{Claim, hear_claim};
use crate::kept::Core;
use crate::outside::{outside_at, take_outside, take_recovery};
use crate::running::take_running;
use crate::told::{Rest, Told};
use crate::work::{Course, Next, Outside, Running, Work};
use std::alloc::Global;
use std::marker::Model;
use std::mem;
use tl_ask::{Asked, Layout, is_outcome_of};
use tl_base::{Duplicate, Items, NoMemory, NodeId, NodeSet, PlaceId};
use tl_collect::Floors;
use tl_isolation::{Answer, Bound, Session};
use tl_manager::{Gone, Mark, Reply, Request};
use tl_plan::copy_bound;
use tl_schema::Setup;
use tl_txn::Txn;

/// A processing node. It keeps no rows between two statements.
#[derive(Drop)]
pub struct Node {
    core: Core,
    work: Work,
}

impl Model for Node {
    ghost use Rattle.tl_node.specs.View.{NodeValue, value_of};
    ghost use Rattle.tl_node.specs.Fits.{IsFit};
    ghost use Rattle.std.specs.Coded.{codes};
    ghost use Rattle.tl_algebra.specs.contracts.condition.Condition as conditions;
    ghost use Rattle.tl_algebra.specs.contracts.expression.Expression as expressions;

    ghost Value = { NodeValue };

    ghost coded = { Prim.hlevel (codes, conditions.the_row.coded, expressions.the_row.coded) };

    ghost view = { λ node. value_of node.core node.work };

    ghost invariant = { λ node. IsFit node.core node.work };
}

impl Node {
    /// A node at the first request of its session, whose statements name tables of the catalog alone.
    pub fn new(alloc: Global, session: &Session, setup: &Setup) -> Result<Node, NoMemory>
        requires least_shards { 1 ≤ setup.now.settings.shards }
        requires greatest_shards { setup.now.settings.shards ≤ 16 }
        requires least_managers { 1 ≤ setup.now.settings.managers }
        requires greatest_managers { setup.now.settings.managers ≤ 4 }
        requires named { AreNamed setup.now.catalog session.now.statements }
        ensures opens { IfOk result (λ node. StandsFor setup.now.settings setup.now.catalog (opening_node setup.now.settings session.now) node) }
        ensures session { IfOk result (λ node. node.session ≡ session.now.statements) }
    {
        let core = opening_core(alloc, session, setup)?;
        let first = outside_at(&core, 0)?;
        Ok(Node {
            core,
            work: Work::Outside(first),
        })
    }

    /// What it asks next, and where; `None` exactly where all its statements are answered, or it met want of memory or a
    /// reply that no place of a run gives.
    pub fn ask(&self) -> Option<(PlaceId, &Request)>
        ensures { MatchOption result (self.now.ask ≡ None) (λ asked. self.now.ask ≡ Some (record { place = asked.0; request = asked.1.now })) }
    {
        ask_work(&self.work)
    }

    /// Takes the reply to what it asked.
    pub fn take(&mut self, reply: &Reply) -> Told
        ensures told { IsTold self.old reply.now self.new result.mark result.rest }
        ensures session { self.new.session ≡ self.old.session }
        ensures todo { self.old.node.todo ≡ drop (length self.old.node.answers) self.old.session }
    {
        let work = mem::replace(&mut self.work, Work::Stopped(NodeSet::new()));
        let (work, told) = take_given(&mut self.core, work, reply);
        self.work = work;
        told
    }

    /// The node is gone: what is left of it names the nodes that it was to recover.
    pub fn vanish(self) -> Gone
        ensures { result ≡ asked_of.Post self.node.number (owed_by self.node.doing) }
    {
        self.left()
    }

    fn left(&self) -> Gone
        ensures { result ≡ asked_of.Post self.now.node.number (owed_by self.now.node.doing) }
    {
        Gone::new(self.core.number, owed_by(&self.work))
    }

    /// The answers of the answered statements, in order.
    pub fn replies(&self) -> &[Answer]
        ensures { result.now ≡ self.now.node.answers }
    {
        self.core.answers.as_slice()
    }

    /// Whether all its statements are answered.
    pub fn is_done(&self) -> bool
        ensures { result ≡ is_empty self.now.node.todo }
    {
        self.core.answers.len() >= self.core.statements.len()
    }

    /// The statement at this place of the session, from 0.
    pub fn statement(&self, at: usize) -> Option<&Bound>
        ensures { option_copied result ≡ slice_get self.now.session at }
    {
        self.core.statements.get(at)
    }
}

fn opening_core(alloc: Global, session: &Session, setup: &Setup) -> Result<Core, NoMemory>
    requires least_shards { 1 ≤ setup.now.settings.shards }
    requires greatest_shards { setup.now.settings.shards ≤ 16 }
    requires least_managers { 1 ≤ setup.now.settings.managers }
    requires greatest_managers { setup.now.settings.managers ≤ 4 }
    requires named { AreNamed setup.now.catalog session.now.statements }
    ensures { IfOk result (λ core. IsNew core setup.now.settings setup.now.catalog session.now) }
{
    let layout = Layout::new(&setup.settings);
    let catalog = setup.catalog.copy()?;
    let statements = copy_statements(alloc, &session.statements)?;
    let floors = Floors::new(alloc, layout.managers())?;
    Ok(Core {
        alloc,
        layout,
        number: session.node,
        catalog,
        statements,
        answers: Vec::new(alloc),
        floors,
        asked_others: 0,
    })
}

/// What the node is at after the reply, and what it tells. A reply with a stamp that no place gives to the request is strange.
fn take_given(core: &mut Core, work: Work, reply: &Reply) -> (Work, Told)
    requires { IsFit core.old work }
    ensures told { IsTold (value_of core.old work) reply.now (value_of core.new result.0) result.1.mark result.1.rest }
    ensures fits { IsFit core.new result.0 }
    ensures stays { Stays core.old core.new }
{
    if may_be_given(&work, reply) {
        take_reply(core, work, reply)
    } else {
        let mark = Mark::Quiet;
        let rest = Rest::Strange;
        (stopped(work), Told { mark, rest })
    }
}

/// It has stopped, and keeps what it was to recover.
fn stopped(work: Work) -> Work
    ensures { result ≡ stopped_work.Stopped (owed_at work) }
{
    Work::Stopped(owed_by(&work))
}

fn may_be_given(work: &Work, reply: &Reply) -> bool
    ensures { result ≡ may_be_given (work_asks work.now) reply.now }
{
    match ask_work(work) {
        Some((_, request)) => is_outcome_of(request, reply),
        None => true,
    }
}

/// What the node is at after the reply, and what it tells. Where it stops, it keeps what it was to recover.
fn take_reply(core: &mut Core, work: Work, reply: &Reply) -> (Work, Told)
    requires { IsFit core.old work }
    ensures told { IsToldSo (value_of core.old work) reply.now (value_of core.new result.0) result.1.mark result.1.rest }
    ensures fits { IsFit core.new result.0 }
    ensures stays { Stays core.old core.new }
{
    let owed = owed_after(&work, reply);
    let (mark, next) = take_work(core, work, reply);
    match next {
        Ok(Next::Goes(work)) => {
            let rest = Rest::Going;
            (work, Told { mark, rest })
        }
        Ok(Next::Says(work, said)) => {
            let rest = Rest::Said(said);
            (work, Told { mark, rest })
        }
        Ok(Next::Strange) => {
            let mark = Mark::Quiet;
            let rest = Rest::Strange;
            (Work::Stopped(owed), Told { mark, rest })
        }
        Err(NoMemory) => {
            let rest = Rest::NoMemory;
            (Work::Stopped(owed), Told { mark, rest })
        }
    }
}

fn take_work(core: &mut Core, work: Work, reply: &Reply) -> (Mark, Result<Next, NoMemory>)
    requires { IsFit core.old work }
    ensures after { IsAfter core.old.layout core.old.catalog (node_at core.old work) reply.now core.new result.0 result.1 }
    ensures stays { Stays core.old core.new }
{
    match work {
        Work::Outside(outside) => take_outside(core, outside, reply),
        Work::Runs(running) => take_running(core, running, reply),
        Work::Recovers { gone, recover } => take_recovery(core, gone, recover, reply),
        Work::Stopped(_) => (Mark::Quiet, Ok(Next::Strange)),
    }
}

/// The nodes that are to be recovered by a node that is at this.
fn owed_by(work: &Work) -> NodeSet
    ensures { result ≡ owed_at work.now }
{
    match work {
        Work::Recovers { gone: _, recover } => recover.duties(),
        Work::Stopped(nodes) => *nodes,
        Work::Outside(_) | Work::Runs(_) => NodeSet::new(),
    }
}

/// What it claims with this reply is its duty at once.
fn owed_after(work: &Work, reply: &Reply) -> NodeSet
    ensures { result ≡ owed_next work.now reply.now }
{
    match work {
        Work::Outside(Outside::Claims { gone, asked: _ }) => claimed_by(*gone, reply),
        Work::Outside(Outside::Done | Outside::Begins(_) | Outside::Idles(_))
        | Work::Runs(_)
        | Work::Recovers { .. }
        | Work::Stopped(_) => owed_by(work),
    }
}

fn claimed_by(gone: NodeId, reply: &Reply) -> NodeSet
    ensures { result ≡ owed_of_claim gone (claim_heard (hears_manager reply.now)) }
{
    match hear_claim(reply) {
        Some(Claim::Given(also)) => {
            let mut all = also;
            all.insert(gone);
            all
        }
        Some(Claim::There) | None => NodeSet::new(),
    }
}

fn shown(asked: &Asked) -> Option<(PlaceId, &Request)>
    ensures { MatchOption result ⊥ (λ shown. Some asked.now ≡ Some (record { place = shown.0; request = shown.1.now })) }
{
    Some((asked.place, &asked.request))
}

fn ask_txn(txn: &Txn) -> Option<(PlaceId, &Request)>
    ensures { MatchOption result (txn.now.next ≡ None) (λ asked. txn.now.next ≡ Some (record { place = asked.0; request = asked.1.now })) }
{
    txn.ask()
}

fn ask_work(work: &Work) -> Option<(PlaceId, &Request)>
    ensures { MatchOption result (work_asks work.now ≡ None) (λ asked. work_asks work.now ≡ Some (record { place = asked.0; request = asked.1.now })) }
{
    match work {
        Work::Outside(outside) => ask_outside(outside),
        Work::Runs(running) => ask_running(running),
        Work::Recovers { gone: _, recover } => recover.ask(),
        Work::Stopped(_) => None,
    }
}

fn ask_outside(outside: &Outside) -> Option<(PlaceId, &Request)>
    ensures { MatchOption result (outside_asks outside.now ≡ None) (λ asked. outside_asks outside.now ≡ Some (record { place = asked.0; request = asked.1.now })) }
{
    match outside {
        Outside::Done => None,
        Outside::Begins(txn) => ask_txn(txn),
        Outside::Idles(asked) => shown(asked),
        Outside::Claims { gone: _, asked } => shown(asked),
    }
}

fn ask_running(running: &Running) -> Option<(PlaceId, &Request)>
    ensures { MatchOption result (course_asks running.now.txn.next running.now.course ≡ None) (λ asked. course_asks running.now.txn.next running.now.course ≡ Some (record { place = asked.0; request = asked.1.now })) }
{
    match &running.course {
        Course::Begins => ask_txn(&running.txn),
        Course::Reads(_) => ask_txn(&running.txn),
        Course::Ends(_) => ask_txn(&running.txn),
        Course::Idles(asked) => shown(asked),
        Course::AsksOther { manager: _, asked } => shown(asked),
    }
}

fn copy_statements(alloc: Global, statements: &Items<Bound>) -> Result<Items<Bound>, NoMemory>
    ensures { IfOk result (λ copies. copies ≡ statements.now) }
{
    let mut copies = Items::new(alloc);
    for statement in statements.as_slice() {
        copies.push(copy_bound(alloc, statement)?)?;
    }
    Ok(copies)
}
