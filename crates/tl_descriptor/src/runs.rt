//! Runs of tids in rising order, each apart from the one before it.

ghost use Rattle.std.specs.Prelude.{◌≡◌, ◌≤◌, ◌<◌, ◌+◌, ◌^◌, length, true, OnOk, OnErr, OnSome};
ghost use Rattle.std.specs.List.{list_any};
ghost use Rattle.tl_descriptor.specs.Places.{put_at, run_after, run_before};
ghost use Rattle.tl_descriptor.specs.Runs.{are_apart, count_below, holds, put};

use crate::run::Run;
use tl_base::{Items, NoMemory, Tid};

/// The greatest tid.
pub const GREATEST: Tid = 1 << 62;

/// Whether the runs stand above the base, each apart from the one before it, and none goes above 2^62.
pub fn are_apart(base: Tid, runs: &[Run]) -> bool
    requires { base ≤ 2 ^ 62 }
    ensures { result ≡ are_apart base runs.now }
{
    let mut below = base;
    for run in runs {
        if run.low <= below + 1 || run.high < run.low || GREATEST < run.high {
            return false;
        }
        below = run.high;
    }
    true
}

/// How many of the first runs end below the tid.
fn count_below(base: Tid, runs: &[Run], tid: Tid) -> usize
    requires { are_apart base runs.now ≡ true }
    ensures { result ≡ count_below tid runs.now }
{
    runs.partition_point(|run| run.high < tid)
}

/// Whether the run lies in one of these.
pub fn find_run(base: Tid, runs: &Items<Run>, run: &Run) -> bool
    requires apart { are_apart base runs.now ≡ true }
    requires some { run.now.low ≤ run.now.high }
    ensures { result ≡ list_any (holds run.now) runs.now }
{
    match runs.get(count_below(base, runs.as_slice(), run.high)) {
        Some(found) => found.low <= run.low,
        None => false,
    }
}

/// Puts a tid that is in none of the runs into them. It is above the number after the base.
pub fn put(base: Tid, runs: &mut Items<Run>, tid: Tid) -> Result<(), NoMemory>
    requires apart { are_apart base runs.old ≡ true }
    requires above { base + 1 < tid }
    requires fits { tid ≤ 2 ^ 62 }
    ensures ok { OnOk result (runs.new ≡ put tid runs.old) }
    ensures err { OnErr result (runs.new ≡ runs.old) }
{
    let place = count_below(base, runs.as_slice(), tid);
    let before = run_before(runs.as_slice(), place, tid);
    let after = run_after(runs.as_slice(), place, tid);
    put_at(runs, place, before, after, tid)
}

/// The run before this place, where it ends right before the tid.
fn run_before(runs: &[Run], place: usize, tid: Tid) -> Option<Run>
    requires { 0 < tid }
    ensures run { result ≡ run_before tid place runs.now }
    ensures place { OnSome result (0 < place) }
{
    if place == 0 {
        return None;
    }
    match runs.get(place - 1) {
        Some(run) if run.high == tid - 1 => Some(*run),
        Some(_) | None => None,
    }
}

/// The run at this place, where it begins right after the tid.
pub fn run_after(runs: &[Run], place: usize, tid: Tid) -> Option<Run>
    requires { tid ≤ 2 ^ 62 }
    ensures run { result ≡ run_after tid place runs.now }
    ensures place { OnSome result (place < length runs.now) }
{
    match runs.get(place) {
        Some(run) if run.low == tid + 1 => Some(*run),
        Some(_) | None => None,
    }
}

/// Puts the tid at this place, joined to the runs before and after it.
fn put_at(
    runs: &mut Items<Run>,
    place: usize,
    before: Option<Run>,
    after: Option<Run>,
    tid: Tid,
) -> Result<(), NoMemory>
    requires place { place ≤ length runs.old }
    requires before { OnSome before (0 < place) }
    requires after { OnSome after (place < length runs.old) }
    ensures ok { OnOk result (runs.new ≡ put_at tid place before after runs.old) }
    ensures err { OnErr result (runs.new ≡ runs.old) }
{
    match (before, after) {
        (Some(before), Some(after)) => {
            runs.remove(place);
            let run = Run {
                low: before.low,
                high: after.high,
            };
            runs.set(place - 1, run);
        }
        (Some(before), None) => {
            let run = Run {
                low: before.low,
                high: tid,
            };
            runs.set(place - 1, run);
        }
        (None, Some(after)) => {
            let run = Run {
                low: tid,
                high: after.high,
            };
            runs.set(place, run);
        }
        (None, None) => {
            let run = Run {
                low: tid,
                high: tid,
            };
            runs.insert(place, run)?;
        }
    }
    Ok(())
}
