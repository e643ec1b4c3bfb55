//! The slots of a run as it opens.

ghost use Rattle.std.specs.Prelude.{◌≡◌, ◌≤◌, ◌==◌, ◌∷◌, [], IfOk, find};
ghost use Rattle.std.specs.List.{AllByRecursion};
ghost use Rattle.std.specs.Option.{option_copied};
ghost use Rattle.tl_node.specs.Named.{AreNamed};
ghost use Rattle.tl_journal.specs.Schedule as schedule;
ghost use Rattle.tl_world.specs.Opening.{AreOpened, IsOpened};

use crate::slot::Slot;
use std::alloc::Global;
use tl_base::{Duplicate, Items, NoMemory, NodeId, Settings, Tid};
use tl_isolation::{Script, Session, Vanish};
use tl_node::Node;
use tl_schema::Setup;

/// A slot for each session.
pub fn open_slots(
    alloc: Global,
    script: &Script,
    settings: &Settings,
) -> Result<Vec<Slot>, NoMemory>
    requires least_shards { 1 ≤ settings.now.shards }
    requires greatest_shards { settings.now.shards ≤ 16 }
    requires least_managers { 1 ≤ settings.now.managers }
    requires greatest_managers { settings.now.managers ≤ 4 }
    requires named { AllByRecursion (λ s. AreNamed script.now.catalog s.statements) script.now.sessions }
    ensures { IfOk result (λ slots. AreOpened script.now settings.now script.now.catalog script.now.sessions slots.items) }
{
    let setup = Setup {
        catalog: script.catalog.copy()?,
        rows: Items::new(alloc),
        settings: *settings,
    };
    let mut slots = Vec::new(alloc);
    for session in script.sessions.as_slice() {
        slots.push(open_slot(alloc, session, &setup, script)?)?;
    }
    Ok(slots)
}

fn open_slot(
    alloc: Global,
    session: &Session,
    setup: &Setup,
    script: &Script,
) -> Result<Slot, NoMemory>
    requires least_shards { 1 ≤ setup.now.settings.shards }
    requires greatest_shards { setup.now.settings.shards ≤ 16 }
    requires least_managers { 1 ≤ setup.now.settings.managers }
    requires greatest_managers { setup.now.settings.managers ≤ 4 }
    requires named { AreNamed setup.now.catalog session.now.statements }
    ensures { IfOk result (λ slot. IsOpened script.now setup.now.settings setup.now.catalog session.now slot) }
{
    let node = Node::new(alloc, session, setup)?;
    Ok(Slot {
        number: session.node,
        node: Some(node),
        made: 0,
        counted: 0,
        vanish: vanish_of(script, session.node),
    })
}

/// The `@vanish` of the node, if it has one.
fn vanish_of(script: &Script, node: NodeId) -> Option<Vanish>
    ensures { result ≡ schedule.vanish_of script.now node }
{
    vanish_among(script.vanishes.as_slice(), node).copied()
}

fn vanish_among(vanishes: &[Vanish], node: NodeId) -> Option<&Vanish>
    ensures { option_copied result ≡ find (λ v. v.node == node) vanishes.now }
{
    vanishes.iter().find(|vanish| vanish.node == node)
}

/// The commit of the opening rows.
pub fn open_commits(alloc: Global) -> Result<Vec<Tid>, NoMemory>
    ensures { IfOk result (λ commits. commits.items ≡ 0 ∷ []) }
{
    let mut commits = Vec::new(alloc);
    commits.push(0)?;
    Ok(commits)
}
