//! The bytes of a record cell, read.

ghost use Rattle.std.specs.Prelude.{◌≡◌, All};
ghost use Rattle.tl_codec.specs.Reading.{Gives};
ghost use Rattle.tl_versions.specs.Cell.{FitsVersion};
ghost use Rattle.tl_versions.specs.Reading.{distinct_versions, read_cell, read_versions};
ghost use Rattle.tl_versions.specs.Versions.{are_distinct, is_written};

use crate::version::Version;
use crate::versions::Versions;
use std::alloc::Global;
use tl_base::{Items, Tid};
use tl_codec::{ReadFault, read_many, read_u32};

/// The versions whose spelling the bytes are, all of them.
#[tactic(auto, unfolding(crate::specs::Reading::read_cell))]
pub fn read_cell(alloc: Global, bytes: &[u8]) -> Result<Versions, ReadFault>
    ensures { Gives (λ versions. versions) result (read_cell bytes.now) }
{
    match bytes {
        [] => Ok(Versions::new(alloc)),
        [1, rest @ ..] => read_versions(alloc, rest),
        [_, ..] => Err(ReadFault::Bad),
    }
}

#[tactic(auto, unfolding(crate::specs::Reading::read_versions))]
fn read_versions(alloc: Global, bytes: &[u8]) -> Result<Versions, ReadFault>
    ensures { Gives (λ versions. versions) result (read_versions bytes.now) }
{
    let (count, rest) = read_u32(bytes)?;
    let (versions, after) = read_many::<Version>(alloc, rest, count)?;
    distinct_versions(versions, after)
}

/// The versions, where no bytes are left behind them and no two have the same tid.
fn distinct_versions(versions: Items<Version>, rest: &[u8]) -> Result<Versions, ReadFault>
    requires { All FitsVersion versions }
    ensures { Gives (λ versions. versions) result (distinct_versions (versions, rest.now)) }
{
    if !rest.is_empty() || !are_distinct(versions.as_slice()) {
        return Err(ReadFault::Bad);
    }
    Ok(Versions::from_items(versions))
}

/// Whether no two versions have the same tid.
fn are_distinct(versions: &[Version]) -> bool
    ensures { result ≡ are_distinct versions.now }
{
    let mut rest = versions;
    while let Some((version, others)) = rest.split_first() {
        if is_written(version.tid, others) {
            return false;
        }
        rest = others;
    }
    true
}

fn is_written(tid: Tid, versions: &[Version]) -> bool
    ensures { result ≡ is_written tid versions.now }
{
    versions.iter().any(|version| version.tid == tid)
}
