//! Whose turn it is.

ghost use Rattle.std.specs.Prelude.{◌≡◌, ◌++◌, ◌∷◌, List, length};
ghost use Rattle.tl_isolation.specs.declared.script.Script.{Script as TheScript};
ghost use Rattle.tl_journal.specs.declared.event.Event.{Event as TheEvent};
ghost use Rattle.tl_journal.specs.Journal.{is_post};
ghost use Rattle.tl_journal.specs.Schedule.{is_behind, is_finished, is_over, next_round, node_of, taken, ticked, turn_at, unfinished};
ghost use Rattle.tl_turns.specs.Clock.{HasItem, IsFirst, IsRunning, after_turn, clock_of, passed};
ghost use Rattle.tl_world.specs.Seen.{seen_as};
ghost use Rattle.tl_world.specs.Stands.{Stands};

use tl_base::NodeId;
use tl_isolation::TurnItem;
use tl_journal::Event;
use tl_manager::{ManagerRequest, Request};
use tl_world::World;

/// The items of the schedule that are left, and the node that had the last turn behind them, after some events.
#[derive(Clone, Copy)]
pub struct Clock<'a> {
    /// What is left of the item in hand.
    present: Option<TurnItem>,
    later: &'a [TurnItem],
    /// 0 before the first turn behind the items.
    last: u8,
    /// How many events there were.
    events: usize,
}

/// The greatest number of a node.
const GREATEST: u8 = 16;

impl<'a> Clock<'a> {
    pub fn new(items: &'a [TurnItem]) -> Clock<'a>
        ensures items { (clock_of result).items ≡ items.now }
        ensures last { result.last ≡ 0 }
        ensures events { result.events ≡ 0 }
    {
        Clock {
            present: None,
            later: items,
            last: 0,
            events: 0,
        }
    }

    /// The node whose turn it is; `None` where no node has more to do.
    pub fn next(&mut self, world: &World) -> Option<NodeId>
        ensures turn { (script : TheScript) → Stands script (seen_as world.now) → result ≡ turn_at script (seen_as world.now).events (clock_of self.old) }
        ensures passed { (script : TheScript) → Stands script (seen_as world.now) → clock_of self.new ≡ passed script (seen_as world.now).events (clock_of self.old) }
        ensures item { HasItem self.new }
        ensures events { self.new.events ≡ self.old.events }
    {
        self.pass_finished(world);
        match &self.present {
            Some(item) => Some(node_of(item)),
            None => next_round(world, self.last),
        }
    }

    /// Comes to the first item that isn't finished.
    fn pass_finished(&mut self, world: &World)
        ensures passed { (script : TheScript) → Stands script (seen_as world.now) → clock_of self.new ≡ passed script (seen_as world.now).events (clock_of self.old) }
        ensures item { HasItem self.new }
        ensures events { self.new.events ≡ self.old.events }
    {
        match self.present {
            Some(item) => {
                if is_finished(world, &item) {
                    self.take_up(unfinished(world, self.later));
                }
            }
            None => self.take_up(unfinished(world, self.later)),
        }
    }

    /// These items are left.
    fn take_up(&mut self, items: &'a [TurnItem])
        ensures items { (clock_of self.new).items ≡ items.now }
        ensures last { self.new.last ≡ self.old.last }
        ensures item { HasItem self.new }
        ensures events { self.new.events ≡ self.old.events }
    {
        match items.split_first() {
            Some((item, later)) => {
                self.present = Some(*item);
                self.later = later;
            }
            None => {
                self.present = None;
                self.later = items;
            }
        }
    }

    /// The node had its turn, which added to these events. A death notice directly behind a request of its node belongs to
    /// the turn of that request.
    pub fn tick(&mut self, node: NodeId, events: &[Event])
        requires item { HasItem self.old }
        ensures turn { (past : List TheEvent) (e : TheEvent) (rest : List TheEvent) → events.now ≡ past ++ e ∷ rest → self.old.events ≡ length past
            → clock_of self.new ≡ after_turn past e node (clock_of self.old) }
        ensures events { self.new.events ≡ length events.now }
    {
        if !is_behind(events, self.events) {
            self.take(node);
        }
        self.events = events.len();
    }

    /// One request of the item in hand is made, or a turn behind the items.
    fn take(&mut self, node: NodeId)
        requires item { HasItem self.old }
        ensures { clock_of self.new ≡ ticked node (clock_of self.old).items (clock_of self.old) }
    {
        match &self.present {
            Some(item) => self.present = Some(taken(item)),
            None => self.last = node.number(),
        }
    }
}

fn node_of(item: &TurnItem) -> NodeId
    ensures { result ≡ node_of item.now }
{
    match item {
        TurnItem::One { node, times: _ } => *node,
        TurnItem::Until { node, statement: _ } => *node,
    }
}

/// One request of the item is made.
fn taken(item: &TurnItem) -> TurnItem
    ensures { result ≡ taken item.now }
{
    match item {
        TurnItem::One { node, times } => TurnItem::One {
            node: *node,
            times: times.saturating_sub(1),
        },
        TurnItem::Until { node, statement } => TurnItem::Until {
            node: *node,
            statement: *statement,
        },
    }
}

/// The items from the first one on that isn't finished.
fn unfinished<'a>(world: &World, items: &'a [TurnItem]) -> &'a [TurnItem]
    ensures { (script : TheScript) → Stands script (seen_as world.now) → result.now ≡ unfinished script (seen_as world.now).events items.now }
{
    let mut left = items;
    while let Some((item, later)) = left.split_first() {
        if !is_finished(world, item) {
            return left;
        }
        left = later;
    }
    left
}

fn is_finished(world: &World, item: &TurnItem) -> bool
    ensures { (script : TheScript) → Stands script (seen_as world.now) → result ≡ is_finished script (seen_as world.now).events item.now }
{
    match item {
        TurnItem::One { node, times } => *times == 0 || world.is_over(*node),
        TurnItem::Until { node, statement } => {
            world.is_over(*node) || world.answered(*node) >= *statement as usize
        }
    }
}

/// Of the nodes with more to do the lowest above this number, or else the lowest.
fn next_round(world: &World, last: u8) -> Option<NodeId>
    ensures { (script : TheScript) → Stands script (seen_as world.now) → result ≡ next_round script (seen_as world.now).events last }
{
    match first_between(world, last, GREATEST) {
        Some(node) => Some(node),
        None => first_between(world, 0, last),
    }
}

/// The lowest node above the one number and up to the other that has more to do.
fn first_between(world: &World, above: u8, up_to: u8) -> Option<NodeId>
    ensures { (script : TheScript) → Stands script (seen_as world.now) → IsFirst (is_over script (seen_as world.now).events) above up_to result }
{
    for number in above..up_to {
        if let Some(node) = running(world, number + 1) {
            return Some(node);
        }
    }
    None
}

/// The node of this number, where it has more to do.
fn running(world: &World, number: u8) -> Option<NodeId>
    ensures { (script : TheScript) → Stands script (seen_as world.now) → IsRunning (is_over script (seen_as world.now).events) number result }
{
    let node = NodeId::new(u64::from(number))?;
    if world.is_over(node) {
        return None;
    }
    Some(node)
}

/// Whether the event at this place is a death notice directly behind an event of its node.
fn is_behind(events: &[Event], at: usize) -> bool
    ensures { (past : List TheEvent) (e : TheEvent) (rest : List TheEvent) → events.now ≡ past ++ e ∷ rest → at ≡ length past → result ≡ is_behind past e }
{
    if at == 0 || at >= events.len() {
        return false;
    }
    is_notice(&events[at]) && events[at - 1].node == events[at].node
}

fn is_notice(event: &Event) -> bool
    ensures { result ≡ is_post event.now.request }
{
    matches!(event.request, Request::Manager(ManagerRequest::Post { .. }))
}
