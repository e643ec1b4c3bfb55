//! The top call.

ghost use Rattle.std.specs.Prelude.{◌≡◌, ◌⊎◌, ◌+◌, ◌≤◌, ◌<◌, ◌^◌, IfOk, false, length};
ghost use Rattle.tl_io.specs.Told.{LosesUpTo};
ghost use Rattle.tl_journal.specs.Binding.{IsBound};
ghost use Rattle.tl_tell.specs.Promise.{Ends, IsFine, IsOneHistory, Keeps, Leaves, most_bytes, text_of};
ghost use Rattle.tl_tell.specs.Status.{status_of};

use crate::command::read_words;
use crate::ended::{Ended, Reason};
use crate::input::read_input;
use crate::law::every_run_is_one_history;
use std::alloc::Global;
use tl_base::{Bytes, NoMemory, Settings, Text};
use tl_io::{Gate, Sink, Source, write_all};
use tl_isolation::Script;
use tl_journal::Journal;
use tl_render::render;
use tl_turns::run_script;

/// A run with its text.
#[derive(Drop)]
struct Played {
    journal: Journal,
    text: Bytes,
}

/// Runs the script and makes its text.
fn play(alloc: Global, script: &Script, settings: &Settings) -> Result<Played, NoMemory>
    requires bound { IsBound script.now settings.now }
    requires few { length script.now.rows < 2 ^ 32 }
    requires least_shards { 1 ≤ settings.now.shards }
    requires greatest_shards { settings.now.shards ≤ 16 }
    requires least_managers { 1 ≤ settings.now.managers }
    requires greatest_managers { settings.now.managers ≤ 4 }
    ensures history { IfOk result (λ played. IsOneHistory script.now settings.now played.journal.events) }
    ensures text { IfOk result (λ played. played.text ≡ text_of script.now settings.now played.journal) }
{
    every_run_is_one_history();
    let journal = run_script(alloc, script, settings)?;
    let text = render(alloc, script, &journal)?;
    Ok(Played { journal, text })
}

/// Runs the program by turns, with all clauses but `runs`.
fn run_kept<S: Source, K: Sink>(
    alloc: Global,
    words: &[Text],
    source: &mut S,
    sink: &mut K,
) -> Ended
    ensures status { result.status ≡ status_of result.reason }
    ensures keeps { Keeps words.now (record { left = S.left source.old; read_faults = S.faults source.old; held = K.held sink.old; write_faults = K.faults sink.old }) (record { left = S.left source.new; read_faults = S.faults source.new; held = K.held sink.new; write_faults = K.faults sink.new }) result.reason result.journal }
    ensures leaves { Leaves result.reason source.old source.new sink.old sink.new }
    ensures bytes { LosesUpTo (most_bytes + 1) (S.left source.old) (S.left source.new) }
    ensures calls { S.calls source.new ≤ S.calls source.old + most_bytes + 1 }
{
    let settings = match read_words(words) {
        Ok(settings) => settings,
        Err(refused) => return Ended::without_run(alloc, Reason::Words { place: refused.0 }),
    };
    let script = match read_input(alloc, source) {
        Ok(script) => script,
        Err(reason) => return Ended::without_run(alloc, reason),
    };
    let Ok(played) = play(alloc, &script, &settings) else {
        return Ended::without_run(alloc, Reason::NoMemory);
    };
    match write_all(sink, played.text.as_slice()) {
        Ok(()) => Ended::after_run(Reason::Done, played.journal),
        Err(_) => Ended::after_run(Reason::WriteFault, played.journal),
    }
}

/// Runs the program by turns: reads the words, the source to its end and its script, runs the statements of all nodes
/// by the script's schedule, and writes the text of the run.
///
/// The reasons are looked for in this order: words, read fault, too long, script, want of memory, write fault. Nothing
/// is written but with `Done` and `WriteFault`; what was read stays read.
pub fn run_turns<S: Source, K: Sink>(
    alloc: Global,
    words: &[Text],
    source: &mut S,
    sink: &mut K,
) -> Ended
    ensures status { result.status ≡ status_of result.reason }

    // What stands, for each reason.
    ensures keeps { Keeps words.now (record { left = S.left source.old; read_faults = S.faults source.old; held = K.held sink.old; write_faults = K.faults sink.old }) (record { left = S.left source.new; read_faults = S.faults source.new; held = K.held sink.new; write_faults = K.faults sink.new }) result.reason result.journal }

    // Words of the command line and a told script without fault are run to the end, unless memory runs out.
    ensures runs { IsFine words.now (record { left = S.left source.old; read_faults = S.faults source.old; held = K.held sink.old; write_faults = K.faults sink.old }) (record { left = S.left source.new; read_faults = S.faults source.new; held = K.held sink.new; write_faults = K.faults sink.new }) → (result.status ≡ 0) ⊎ (result.status ≡ 5) }

    // What isn't touched, for each reason.
    ensures leaves { Leaves result.reason source.old source.new sink.old sink.new }

    // How much is read at most, whatever the reason: bytes that the source tells, and calls that it counts.
    ensures bytes { LosesUpTo (most_bytes + 1) (S.left source.old) (S.left source.new) }
    ensures calls { S.calls source.new ≤ S.calls source.old + most_bytes + 1 }
{
    run_kept(alloc, words, source, sink)
}

/// Runs the program. As yet it takes no word that asks for threads, and answers what `run_turns` answers; the gate isn't
/// called yet.
pub fn run_tell<S: Source, K: Sink, G: Gate>(
    alloc: Global,
    words: &[Text],
    source: &mut S,
    sink: &mut K,
    _gate: &G,
) -> Ended
    ensures status { result.status ≡ status_of result.reason }

    // What stands, for each reason.
    ensures keeps { Keeps words.now (record { left = S.left source.old; read_faults = S.faults source.old; held = K.held sink.old; write_faults = K.faults sink.old }) (record { left = S.left source.new; read_faults = S.faults source.new; held = K.held sink.new; write_faults = K.faults sink.new }) result.reason result.journal }

    // Words of the command line and a told script without fault are run to the end, unless memory runs out.
    ensures runs { IsFine words.now (record { left = S.left source.old; read_faults = S.faults source.old; held = K.held sink.old; write_faults = K.faults sink.old }) (record { left = S.left source.new; read_faults = S.faults source.new; held = K.held sink.new; write_faults = K.faults sink.new }) → (result.status ≡ 0) ⊎ (result.status ≡ 5) }

    // What isn't touched, for each reason.
    ensures leaves { Leaves result.reason source.old source.new sink.old sink.new }

    // How much is read at most, whatever the reason: bytes that the source tells, and calls that it counts.
    ensures bytes { LosesUpTo (most_bytes + 1) (S.left source.old) (S.left source.new) }
    ensures calls { S.calls source.new ≤ S.calls source.old + most_bytes + 1 }
{
    run_turns(alloc, words, source, sink)
}
