//! A node outside a transaction.

ghost use Rattle.std.specs.Prelude.{◌≡◌, ◌+◌, IfOk, length};
ghost use Rattle.tl_ask.specs.Hears.{hears_manager};
ghost use Rattle.tl_isolation.specs.declared.bound.Bound.TheVariants as bound;
ghost use Rattle.tl_manager.specs.declared.mark.Mark.TheVariants as marks;
ghost use Rattle.tl_journal.specs.Asks.{ToBegin, ToIdle, course_outside};
ghost use Rattle.tl_journal.specs.Node as law;
ghost use Rattle.tl_node.specs.After.{ComesTo, IsAfter, Stays};
ghost use Rattle.tl_node.specs.Fits.{HasPresent, IsFirst, IsFit, IsOpening};
ghost use Rattle.tl_node.specs.Leaves.{Learns, Leaves, Recovers};
ghost use Rattle.tl_node.specs.View.{node_at, node_so};
ghost use Rattle.tl_node.specs.declared.work.Outside.TheVariants as outside_work;
ghost use Rattle.tl_node.specs.declared.work.Work.TheVariants as work;

use crate::hears::{Claim, hear_claim, hear_floor};
use crate::kept::Core;
use crate::running::take_begin;
use crate::work::{Next, Outside, Work};
use tl_ask::ask_manager;
use tl_base::{NoMemory, NodeId, NodeSet};
use tl_descriptor::Descriptor;
use tl_isolation::{Answer, Bound};
use tl_manager::{ManagerRequest, Mark, Reply, TxnStep};
use tl_recover::{Recover, recoveries_follow_the_node};
use tl_txn::Txn;

/// The first request of the statement at this place of the session, from 0.
pub fn outside_at(core: &Core, at: usize) -> Result<Outside, NoMemory>
    ensures { IfOk result (λ o. IsOpening core.now at o) }
{
    match core.statements.get(at) {
        Some(statement) => outside(core, statement),
        None => Ok(Outside::Done),
    }
}

fn outside(core: &Core, statement: &Bound) -> Result<Outside, NoMemory>
    ensures { IfOk result (λ o. IsFirst core.now statement.now o) }
{
    match statement {
        Bound::Begin | Bound::Select { query: _ } | Bound::Change { edit: _ } => {
            let txn = Txn::begin(core.alloc, core.layout, core.number)?;
            Ok(Outside::Begins(txn))
        }
        Bound::Commit | Bound::Rollback => {
            let seen = Descriptor::new(core.alloc, 0);
            Ok(Outside::Idles(core.ask_floor(seen)))
        }
        Bound::Recover { node } => Ok(claims(core, *node)),
    }
}

fn claims(core: &Core, gone: NodeId) -> Outside
    ensures { IsFirst core.now (bound.Recover gone) result }
{
    let home = core.layout.home_of(gone);
    let asked = ask_manager(core.layout, home, ManagerRequest::Claim { node: gone });
    Outside::Claims { gone, asked }
}

/// Answers the present statement; the next one begins outside a transaction.
pub fn answer_and_leave(core: &mut Core, answer: Answer) -> Result<Next, NoMemory>
    ensures { Leaves core.old answer core.new result }
{
    let following = outside_at(core, core.answers.len() + 1)?;
    let said = core.answer(answer)?;
    Ok(Next::Says(Work::Outside(following), said))
}

pub fn take_outside(
    core: &mut Core,
    outside: Outside,
    reply: &Reply,
) -> (Mark, Result<Next, NoMemory>)
    requires { IsFit core.old (work.Outside outside) }
    ensures after { IsAfter core.old.layout core.old.catalog (node_at core.old (work.Outside outside)) reply.now core.new result.0 result.1 }
    ensures stays { Stays core.old core.new }
{
    match outside {
        Outside::Done => (Mark::Quiet, Ok(Next::Goes(Work::Outside(Outside::Done)))),
        Outside::Begins(txn) => take_begin(core, txn, reply),
        Outside::Idles(_) => (Mark::Quiet, answer_outside(core, reply)),
        Outside::Claims { gone, asked: _ } => (Mark::Quiet, take_claim(core, gone, reply)),
    }
}

/// COMMIT and ROLLBACK are answered by the low-water mark.
fn answer_outside(core: &mut Core, reply: &Reply) -> Result<Next, NoMemory>
    requires { HasPresent core.old (λ statement. course_outside statement ≡ ToIdle) }
    ensures after { ComesTo core.old.layout core.old.catalog (node_so core.old law.Outside) (hears_manager reply.now) reply.now core.new marks.Quiet result }
    ensures stays { Stays core.old core.new }
{
    match hear_floor(reply) {
        Some(floor) => learn_and_leave(core, floor),
        None => Ok(Next::Strange),
    }
}

fn learn_and_leave(core: &mut Core, floor: &Descriptor) -> Result<Next, NoMemory>
    ensures { Learns core.old floor.now core.new result }
{
    match core.learn(core.home(), floor) {
        Ok(()) => answer_and_leave(core, Answer::Outside),
        Err(NoMemory) => Err(NoMemory),
    }
}

fn take_claim(core: &mut Core, gone: NodeId, reply: &Reply) -> Result<Next, NoMemory>
    requires { HasPresent core.old (λ statement. statement ≡ bound.Recover gone) }
    ensures after { ComesTo core.old.layout core.old.catalog (node_so core.old law.Outside) (hears_manager reply.now) reply.now core.new marks.Quiet result }
    ensures stays { Stays core.old core.new }
{
    recoveries_follow_the_node();
    match hear_claim(reply) {
        Some(Claim::There) => answer_and_leave(core, Answer::There(gone)),
        Some(Claim::Given(also)) => Ok(Next::Goes(recovers(core, gone, also))),
        None => Ok(Next::Strange),
    }
}

fn recovers(core: &Core, gone: NodeId, also: NodeSet) -> Work
    ensures { Recovers core.now gone also result }
{
    let recover = Recover::begin(core.alloc, core.layout, gone, also);
    Work::Recovers { gone, recover }
}

pub fn take_recovery(
    core: &mut Core,
    gone: NodeId,
    mut recover: Recover,
    reply: &Reply,
) -> (Mark, Result<Next, NoMemory>)
    requires { IsFit core.old (work.Recovers gone recover) }
    ensures after { IsAfter core.old.layout core.old.catalog (node_at core.old (work.Recovers gone recover)) reply.now core.new result.0 result.1 }
    ensures stays { Stays core.old core.new }
{
    recoveries_follow_the_node();
    match recover.heed(&core.catalog, reply) {
        Some(TxnStep::Going(mark)) => (mark, Ok(Next::Goes(Work::Recovers { gone, recover }))),
        Some(TxnStep::Ended(mark)) => (mark, answer_and_leave(core, Answer::Recovered(gone))),
        Some(TxnStep::NoMemory(mark)) => (mark, Err(NoMemory)),
        Some(TxnStep::Ready(_)) => (Mark::Quiet, Ok(Next::Strange)),
        Some(TxnStep::Leaf(_)) => (Mark::Quiet, Ok(Next::Strange)),
        None => (Mark::Quiet, Ok(Next::Strange)),
    }
}
