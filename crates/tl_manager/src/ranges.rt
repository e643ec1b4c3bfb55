//! The numbers that a manager has to give.

ghost use Rattle.std.specs.Prelude.{◌≡◌, ◌++◌, OnOk, OnErr};
ghost use Rattle.tl_manager.specs.Ranges.{after_first, drawn, first_number, range_of};

use tl_base::{Items, NoMemory, Tid};
use tl_descriptor::Run;

/// The lowest number of the first range.
pub fn first_number(ranges: &[Run]) -> Option<Tid>
    ensures { result ≡ first_number ranges.now }
{
    match ranges {
        [] => None,
        [run, ..] => Some(run.low),
    }
}

/// The numbers after the first.
fn after_first(run: Run) -> Option<Run>
    ensures { result ≡ after_first run }
{
    if run.low < run.high {
        Some(Run {
            low: run.low + 1,
            high: run.high,
        })
    } else {
        None
    }
}

/// Takes the first number.
pub fn draw(ranges: &mut Items<Run>)
    ensures { ranges.new ≡ drawn ranges.old }
{
    let Some(run) = ranges.get(0).copied() else {
        return;
    };
    match after_first(run) {
        Some(left) => ranges.set(0, left),
        None => {
            ranges.remove(0);
        }
    }
}

/// Puts the numbers to the end.
pub fn add_range(ranges: &mut Items<Run>, low: Tid, high: Tid) -> Result<(), NoMemory>
    ensures ok { OnOk result (ranges.new ≡ ranges.old ++ range_of low high) }
    ensures err { OnErr result (ranges.new ≡ ranges.old) }
{
    if low <= high {
        ranges.push(Run { low, high })?;
    }
    Ok(())
}
