ghost use Rattle.std.specs.Prelude.{◌≡◌, ◌++◌, OnOk};
ghost use Rattle.tl_codec.specs.Reading.{Gives};
ghost use Rattle.tl_descriptor.specs.Reading.{FitsRun, read_run, run_spelling};
ghost use Rattle.tl_descriptor.specs.RunReading.{run_again, run_taken};

use std::alloc::Global;
use tl_base::{Bytes, Duplicate, NoMemory, Tid};
use tl_codec::{ReadFault, Spelled, read_u64, write_u64};

/// The tids from `low` to `high`, with both of them.
#[derive(Clone, Copy, Debug, PartialEq, Eq)]
pub struct Run {
    pub low: Tid,
    pub high: Tid,
}

impl Duplicate for Run {
    fn copy(&self) -> Result<Run, NoMemory> {
        Ok(*self)
    }
}

/// The lowest and the highest tid, in 8 bytes each.
impl Spelled for Run {
    ghost Fits = { FitsRun };

    ghost spelling = { run_spelling };

    ghost reading = { read_run };

    ghost taken = { run_taken };

    ghost again = { run_again };

    fn write(&self, out: &mut Bytes) -> Result<(), NoMemory> {
        write_u64(out, self.low)?;
        write_u64(out, self.high)?;
        Ok(())
    }

    #[tactic(auto, unfolding(crate::specs::Reading::read_run))]
    fn read(_alloc: Global, bytes: &[u8]) -> Result<(Run, &[u8]), ReadFault> {
        let (low, rest) = read_u64(bytes)?;
        let (high, rest) = read_u64(rest)?;
        Ok((Run { low, high }, rest))
    }
}
