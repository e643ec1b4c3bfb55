//! The transactions that a vanished node left active.

ghost use Rattle.std.specs.Prelude.{◌≡◌, [], ◌∷◌, IfOk, MatchOption};
ghost use Rattle.std.specs.Option.{option_copied};
ghost use Rattle.tl_ask.specs.Hears.{hears_manager};
ghost use Rattle.tl_recover.specs.Heeds.{Gives, known, orphans_heard};
ghost use Rattle.tl_recover.specs.Taken.{next_lost, takes_finding};

use crate::after::{After, going, strange};
use crate::duties::next_duty;
use crate::phase::{Lost, Phase};
use std::alloc::Global;
use tl_ask::{Layout, TxnId, hear_manager, load_log};
use tl_base::{Items, NoMemory, NodeId, NodeSet, Tid};
use tl_manager::{ManagerReply, Mark, Reply, Tids};

/// The transactions that a manager told of.
fn hear_orphans(reply: &Reply) -> Option<&Tids>
    ensures { option_copied result ≡ orphans_heard (hears_manager reply.now) }
{
    match hear_manager(reply) {
        Some(ManagerReply::Orphaned { tids }) => Some(tids),
        Some(_) | None => None,
    }
}

/// The transactions by their numbers; `None` where one is above those of a run.
fn known(alloc: Global, tids: &[Tid]) -> Result<Option<Items<TxnId>>, NoMemory>
    ensures { IfOk result (λ ids. ids ≡ known tids.now) }
{
    let mut ids = Items::new(alloc);
    for tid in tids {
        let Some(id) = TxnId::new(*tid) else {
            return Ok(None);
        };
        ids.push(id)?;
    }
    Ok(Some(ids))
}

/// Takes out the first one.
fn take_first(tids: &mut Items<TxnId>) -> Option<TxnId>
    ensures { MatchOption result ((tids.old ≡ []) × (tids.new ≡ [])) (λ tid. tids.old ≡ tid ∷ tids.new) }
{
    if tids.is_empty() {
        return None;
    }
    Some(tids.remove(0))
}

/// The next of these transactions of the node, or the next duty.
pub fn next_lost(
    alloc: Global,
    layout: Layout,
    all: NodeSet,
    node: NodeId,
    tids: Items<TxnId>,
) -> Result<After, NoMemory>
    ensures { Gives layout (next_lost layout all node tids) result }
{
    let mut others = tids;
    let Some(tid) = take_first(&mut others) else {
        return Ok(next_duty(layout, all, node));
    };
    let next = load_log(alloc, layout, tid.get())?;
    let lost = Lost { node, tid, others };
    Ok(going(Phase::ReadingLog(lost), next, Mark::Quiet))
}

pub fn takes_finding(
    alloc: Global,
    layout: Layout,
    all: NodeSet,
    node: NodeId,
    reply: &Reply,
) -> Result<After, NoMemory>
    ensures { Gives layout (takes_finding layout all node (hears_manager reply.now)) result }
{
    let Some(tids) = hear_orphans(reply) else {
        return Ok(strange());
    };
    match known(alloc, tids.as_slice())? {
        Some(ids) => next_lost(alloc, layout, all, node, ids),
        None => Ok(strange()),
    }
}
