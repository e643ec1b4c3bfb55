//! A transaction begins.

ghost use Rattle.std.specs.Prelude.{◌≡◌, IfOk, ◌^◌, nat_le, ◌&&◌, not};
ghost use Rattle.std.specs.Option.{option_copied};
ghost use Rattle.tl_ask.specs.Asked.{asked};
ghost use Rattle.tl_ask.specs.Hears.{commits_or_strange, hears_begin, hears_commits, hears_manager, hears_numbers, numbers_or_strange, told_or_strange};
ghost use Rattle.tl_descriptor.specs.Tids.{has};
ghost use Rattle.tl_manager.specs.declared.mark.Mark.TheVariants as mark;
ghost use Rattle.tl_txn.specs.After.{IsTaken};
ghost use Rattle.tl_txn.specs.Taken.{ask_begin, opened, ready, takes_asking, takes_bringing, takes_drawing, takes_noted, unless_odd};

use crate::after::After;
use crate::phase::{Open, Phase};
use std::alloc::Global;
use tl_ask::{
    Asked, CommitsCell, Layout, TxnId, ask_manager, draw_numbers, hear_begin, hear_commits,
    hear_manager, hear_numbers,
};
use tl_base::{NoMemory, NodeId, Tid};
use tl_descriptor::Descriptor;
use tl_manager::{ManagerReply, ManagerRequest, Mark, Reply};
use tl_values::Rows;
use tl_write::Buffer;

/// How many numbers are drawn at once.
const DRAWN: Tid = 16;

/// The highest counter from which that many numbers are left.
const LAST_COUNTER: Tid = (1 << 62) - 16;

fn ask_begin(layout: Layout, node: NodeId, seen: &Descriptor) -> Result<Asked, NoMemory>
    ensures { IfOk result (λ ask. ask ≡ asked layout (ask_begin layout node seen.now)) }
{
    let seen = seen.copy()?;
    Ok(ask_manager(
        layout,
        layout.home_of(node),
        ManagerRequest::Begin { node, seen },
    ))
}

pub fn hear_asking(alloc: Global, layout: Layout, node: NodeId, reply: &Reply) -> After
    ensures { IsTaken layout (takes_asking layout node (hears_commits reply.now)) result }
{
    match hear_commits(alloc, reply) {
        Ok(cell) => take_asking(layout, node, cell),
        Err(NoMemory) => After::out(Mark::Asked),
    }
}

fn take_asking(layout: Layout, node: NodeId, cell: Option<CommitsCell>) -> After
    ensures { IsTaken layout (takes_asking layout node (commits_or_strange cell)) result }
{
    let Some(cell) = cell else {
        return After::strange();
    };
    let CommitsCell { stamp: _, finished } = cell;
    let ask = ask_begin(layout, node, &finished);
    After::going(Mark::Asked, Phase::Noted(finished), ask)
}

pub fn hear_noted(
    alloc: Global,
    layout: Layout,
    node: NodeId,
    seen: Descriptor,
    reply: &Reply,
) -> After
    ensures { IsTaken layout (takes_noted layout node seen (hears_begin seen reply.now)) result }
{
    let told = hear_begin(&seen, reply);
    take_noted(alloc, layout, node, seen, told)
}

fn take_noted(
    alloc: Global,
    layout: Layout,
    node: NodeId,
    seen: Descriptor,
    told: Option<&ManagerReply>,
) -> After
    ensures { IsTaken layout (takes_noted layout node seen (told_or_strange (option_copied told.entry))) result }
{
    let _ = node;
    match told {
        Some(
            ManagerReply::Began {
                tid,
                snapshot,
                floor: _,
            },
        ) => take_began(alloc, layout, *tid, snapshot),
        Some(ManagerReply::NeedRange) => {
            After::going(
                Mark::Quiet,
                Phase::Drawing(seen),
                draw_numbers(alloc, layout),
            )
        }
        Some(
            ManagerReply::Ranged
            | ManagerReply::Ended
            | ManagerReply::NotActive
            | ManagerReply::Orphaned { .. }
            | ManagerReply::FloorIs { .. }
            | ManagerReply::Posted
            | ManagerReply::Given { .. }
            | ManagerReply::There,
        )
        | None => After::strange(),
    }
}

fn take_began(alloc: Global, layout: Layout, tid: Tid, snapshot: &Descriptor) -> After
    ensures { IsTaken layout (unless_odd (not (nat_le tid (2 ^ 62) && not (has snapshot.now tid))) (ready (opened tid snapshot.now) (mark.Began tid))) result }
{
    let _ = layout;
    let Some(id) = TxnId::new(tid) else {
        return After::strange();
    };
    if snapshot.has(tid) {
        return After::strange();
    }
    match snapshot.copy() {
        Ok(snapshot) => After::ready(
            Open {
                tid: id,
                snapshot,
                own: Buffer::new(alloc),
                rows: Rows::new(alloc),
            },
            Mark::Began { tid },
        ),
        Err(NoMemory) => After::out(Mark::Began { tid }),
    }
}

pub fn hear_drawing(layout: Layout, node: NodeId, seen: Descriptor, reply: &Reply) -> After
    ensures { IsTaken layout (takes_drawing layout node seen (hears_numbers reply.now)) result }
{
    take_drawing(layout, node, seen, hear_numbers(reply))
}

fn take_drawing(layout: Layout, node: NodeId, seen: Descriptor, old: Option<Tid>) -> After
    ensures { IsTaken layout (takes_drawing layout node seen (numbers_or_strange old)) result }
{
    let Some(old) = old else {
        return After::strange();
    };
    if old > LAST_COUNTER {
        return After::strange();
    }
    let range = ManagerRequest::Range {
        low: old + 1,
        high: old + DRAWN,
    };
    let ask = ask_manager(layout, layout.home_of(node), range);
    After::going(Mark::Quiet, Phase::Bringing { seen, low: old }, Ok(ask))
}

pub fn hear_bringing(layout: Layout, node: NodeId, seen: Descriptor, reply: &Reply) -> After
    ensures { IsTaken layout (takes_bringing layout node seen (hears_manager reply.now)) result }
{
    take_bringing(layout, node, seen, hear_manager(reply))
}

fn take_bringing(
    layout: Layout,
    node: NodeId,
    seen: Descriptor,
    told: Option<&ManagerReply>,
) -> After
    ensures { IsTaken layout (takes_bringing layout node seen (told_or_strange (option_copied told.entry))) result }
{
    match told {
        Some(ManagerReply::Ranged) => {
            let ask = ask_begin(layout, node, &seen);
            After::going(Mark::Quiet, Phase::Noted(seen), ask)
        }
        Some(
            ManagerReply::Began { .. }
            | ManagerReply::NeedRange
            | ManagerReply::Ended
            | ManagerReply::NotActive
            | ManagerReply::Orphaned { .. }
            | ManagerReply::FloorIs { .. }
            | ManagerReply::Posted
            | ManagerReply::Given { .. }
            | ManagerReply::There,
        )
        | None => After::strange(),
    }
}
