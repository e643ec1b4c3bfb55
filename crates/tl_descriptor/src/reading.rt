//! The bytes of a set, read.

ghost use Rattle.std.specs.Prelude.{◌≡◌};
ghost use Rattle.tl_codec.specs.Reading.{Gives};
ghost use Rattle.tl_descriptor.specs.Reading.{checked, read_set};

use crate::descriptor::Descriptor;
use crate::run::Run;
use crate::runs::{GREATEST, are_apart};
use std::alloc::Global;
use tl_base::{Items, Tid};
use tl_codec::{ReadFault, read_many, read_u32, read_u64};

/// The set whose spelling the bytes are, all of them.
#[tactic(auto, unfolding(crate::specs::Reading::read_set))]
pub fn read_set(alloc: Global, bytes: &[u8]) -> Result<Descriptor, ReadFault>
    ensures { Gives (λ set. set) result (read_set bytes.now) }
{
    let (base, rest) = read_u64(bytes)?;
    let (count, rest) = read_u32(rest)?;
    let (runs, rest) = read_many::<Run>(alloc, rest, count)?;
    match rest {
        [] => checked(base, runs),
        [_, ..] => Err(ReadFault::Bad),
    }
}

/// The set, where it is written in the one way.
fn checked(base: Tid, runs: Items<Run>) -> Result<Descriptor, ReadFault>
    ensures { Gives (λ set. set) result (checked base runs) }
{
    if GREATEST < base || !are_apart(base, runs.as_slice()) {
        return Err(ReadFault::Bad);
    }
    Ok(Descriptor::from_parts(base, runs))
}
