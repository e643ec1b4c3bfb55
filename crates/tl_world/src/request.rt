//! A request of a node: it is served, and the node hears the reply.

ghost use Rattle.std.specs.Prelude.{◌≡◌, ◌<◌, ◌≤◌, ◌+◌, ◌^◌, ◌++◌, [], false, true, IfOk, MatchOption, OnErr, Some, drop, if◌then◌else◌, length, vec_capacity, vec_len};
ghost use Rattle.std.specs.Option.{option_to_list};
ghost use Rattle.tl_node.specs.After.{said_so, statement_in};
ghost use Rattle.tl_node.specs.View.{NodeValue};
ghost use Rattle.tl_world.specs.Hearing.{Hears, SlotServed, committed_so};
ghost use Rattle.tl_world.specs.Slot.{has_more};
ghost use Rattle.tl_world.specs.Stands.{counted_more};
ghost use Rattle.tl_world.specs.Turns.{due_by};
ghost use Rattle.tl_world.specs.Told.{is_answered, marked_in, takes_memory};

use crate::counts::counts;
use crate::slot::Slot;
use crate::tells::entry_of;
use std::alloc::Global;
use tl_base::{NoMemory, NodeId, PlaceId, Tid};
use tl_isolation::{Bound, Entry, Said};
use tl_manager::{Mark, Reply, Request};
use tl_node::{Node, Rest, Told};
use tl_places::Places;
use tl_plan::copy_bound;

/// A request, with the reply to it.
#[derive(Drop)]
pub struct Served {
    pub place: PlaceId,
    pub request: Request,
    pub reply: Reply,
}

/// What the node asks is served; None where it asks nothing, or there was no memory.
pub fn serve(slot: &Slot, places: &mut Places) -> Option<Served>
    ensures { MatchOption result (places.new ≡ places.old) (λ s. SlotServed slot.now places.old s places.new) }
{
    let node = slot.node.as_ref()?;
    let (place, request) = node.ask()?;
    match places.serve(place, request) {
        Ok((request, reply)) => Some(Served {
            place,
            request,
            reply,
        }),
        Err(NoMemory) => None,
    }
}

/// The node hears the reply, and what that means is told; whether the node asks nothing more, for want of memory.
pub fn hear(
    alloc: Global,
    slot: &mut Slot,
    reply: &Reply,
    commits: &mut Vec<Tid>,
    spare: &mut Vec<Entry>,
) -> bool
    requires more { has_more slot.old.node ≡ true }
    requires spare { vec_len spare.old + 2 ≤ vec_capacity spare.old }
    requires empty { spare.old.items ≡ [] }
    requires commits { vec_len commits.old < vec_capacity commits.old }
    requires few { length commits.old.items < 2 ^ 32 }
    ensures hears { (v : NodeValue) → slot.old.node ≡ Some v → Hears v slot.old reply.now commits.old.items slot.new commits.new.items spare.new.items result }
{
    let number = slot.number;
    let Some(node) = &mut slot.node else {
        return false;
    };
    let present = node.replies().len();
    let Told { mark, rest } = node.take(reply);
    tell_mark(number, mark, reply, commits.as_slice(), spare);
    commit(mark, commits);
    match rest {
        Rest::Going | Rest::Strange => false,
        Rest::NoMemory => true,
        Rest::Said(said) => match say(alloc, node, present, number, mark, said) {
            Ok(entry) => {
                spare.push_reserved(entry);
                false
            }
            Err(NoMemory) => true,
        },
    }
}

/// What is told of a mark.
fn tell_mark(number: NodeId, mark: Mark, reply: &Reply, commits: &[Tid], spare: &mut Vec<Entry>)
    requires few { length commits.now < 2 ^ 32 }
    requires room { vec_len spare.old < vec_capacity spare.old }
    ensures told { spare.new.items ≡ spare.old.items ++ marked_in commits.now number reply.now mark }
    ensures capacity { vec_capacity spare.new ≡ vec_capacity spare.old }
    ensures len { vec_len spare.new ≤ vec_len spare.old + 1 }
{
    if let Some(entry) = entry_of(number, mark, reply, commits) {
        spare.push_reserved(entry);
    }
}

/// What a mark commits.
fn commit(mark: Mark, commits: &mut Vec<Tid>)
    requires room { vec_len commits.old < vec_capacity commits.old }
    ensures { commits.new.items ≡ commits.old.items ++ committed_so mark }
{
    if let Mark::Committed { tid } = mark {
        commits.push_reserved(tid);
    }
}

/// One request more.
pub fn count_request(slot: &mut Slot, request: &Request, reply: &Reply)
    requires made { slot.old.made + 1 < 2 ^ 32 }
    requires counted { due_by slot.old.vanish slot.old.counted ≡ false }
    ensures { slot.new ≡ record slot.old { made = slot.old.made + 1; counted = counted_more slot.old.vanish request.now reply.now slot.old.counted } }
{
    slot.made += 1;
    if let Some(vanish) = slot.vanish {
        if counts(vanish.kind, request, reply) {
            slot.counted += 1;
        }
    }
}

/// The entry of what was said or answered of the statement at this place of the session, from 0.
fn say(
    alloc: Global,
    node: &Node,
    present: usize,
    number: NodeId,
    mark: Mark,
    said: Said,
) -> Result<Entry, NoMemory>
    requires left { present < length node.now.session }
    ensures ok { IfOk result (λ e. e ≡ said_so number (statement_in (drop present node.now.session)) mark said) }
    ensures wants { OnErr result ((takes_memory (statement_in (drop present node.now.session)) ≡ true) × (is_answered mark ≡ false)) }
{
    if is_answer(mark) {
        return Ok(Entry::Answered {
            node: number,
            statement: said.statement,
            answer: said.answer,
        });
    }
    let Some(statement) = node.statement(present) else {
        unreachable!()
    };
    let bound = copy_statement(alloc, statement)?;
    Ok(Entry::Said {
        node: number,
        bound,
        said,
    })
}

/// Whether what was said before is answered.
fn is_answer(mark: Mark) -> bool
    ensures { result ≡ is_answered mark }
{
    matches!(mark, Mark::Answered)
}

/// Only a SELECT and a change take memory to copy.
fn copy_statement(alloc: Global, statement: &Bound) -> Result<Bound, NoMemory>
    ensures ok { IfOk result (λ copy. copy ≡ statement.now) }
    ensures wants { OnErr result (takes_memory statement.now ≡ true) }
{
    match statement {
        Bound::Begin => Ok(Bound::Begin),
        Bound::Commit => Ok(Bound::Commit),
        Bound::Rollback => Ok(Bound::Rollback),
        Bound::Recover { node } => Ok(Bound::Recover { node: *node }),
        Bound::Select { query: _ } | Bound::Change { edit: _ } => copy_bound(alloc, statement),
    }
}
