//! A run of a script.

ghost use Rattle.std.specs.Prelude.{◌≤◌, ◌<◌, ◌^◌, IfOk, length};
ghost use Rattle.tl_journal.specs.Outcome.{HasRun};
ghost use Rattle.tl_journal.specs.Binding.{IsBound};

use crate::clock::Clock;
use std::alloc::Global;
use tl_base::{NoMemory, Settings};
use tl_isolation::Script;
use tl_journal::Journal;
use tl_world::World;

/// Runs the script to its end, by its schedule: all statements of each node are answered, or it has ended.
pub fn run_script(alloc: Global, script: &Script, settings: &Settings) -> Result<Journal, NoMemory>
    requires bound { IsBound script.now settings.now }
    requires few { length script.now.rows < 2 ^ 32 }
    requires least_shards { 1 ≤ settings.now.shards }
    requires greatest_shards { settings.now.shards ≤ 16 }
    requires least_managers { 1 ≤ settings.now.managers }
    requires greatest_managers { settings.now.managers ≤ 4 }
    ensures { IfOk result (λ journal. HasRun script.now settings.now journal.events) }
{
    let mut world = World::new(alloc, script, settings)?;
    let mut clock = Clock::new(script.turns.as_slice());
    while let Some(node) = clock.next(&world) {
        world.turn(node)?;
        clock.tick(node, world.events());
    }
    Ok(world.into_journal())
}
