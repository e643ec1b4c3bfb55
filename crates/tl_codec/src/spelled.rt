ghost use Rattle.std.specs.Prelude.{◌≡◌, ◌++◌, All, ℕ, List, Option, Some, OnOk};
ghost use Rattle.std.specs.List.{flat_map};
ghost use Rattle.tl_codec.specs.Reading.{Gives, read_many};
ghost use Rattle.tl_codec.specs.Taken.{IsBytes, Takes};

use crate::fault::ReadFault;
use std::alloc::Global;
use tl_base::{Bytes, Items, NoMemory};

/// What has one spelling in bytes, which no other bytes begin.
pub trait Spelled: Sized {
    /// What has a spelling.
    ghost Fits: { Self → Type 0 };

    ghost spelling: { Self → List ℕ };

    /// What the bytes begin with, and the bytes after it.
    ghost reading: { List ℕ → Option (Self × List ℕ) };

    /// What is read is spelled so.
    ghost taken: { (bytes : List ℕ) (x : Self) (rest : List ℕ) → IsBytes bytes → reading bytes ≡ Some (x, rest) → Takes bytes (spelling x) rest × Fits x };

    /// What is spelled so is read.
    ghost again: { (x : Self) (rest : List ℕ) → Fits x → reading (spelling x ++ rest) ≡ Some (x, rest) };

    fn write(&self, out: &mut Bytes) -> Result<(), NoMemory>
        requires { Fits self.now }
        ensures { OnOk result (out.new ≡ out.old ++ spelling self.now) };

    fn read(alloc: Global, bytes: &[u8]) -> Result<(Self, &[u8]), ReadFault>
        ensures { Gives (λ x. (x.0, x.1.now)) result (reading bytes.now) };
}

/// Writes the items one after the other.
pub fn write_many<T: Spelled>(items: &[T], out: &mut Bytes) -> Result<(), NoMemory>
    requires { All T.Fits items.now }
    ensures { OnOk result (out.new ≡ out.old ++ flat_map T.spelling items.now) }
{
    for item in items {
        item.write(out)?;
    }
    Ok(())
}

/// So many items, and the bytes after them.
pub fn read_many<T: Spelled + Drop>(
    alloc: Global,
    bytes: &[u8],
    count: u32,
) -> Result<(Items<T>, &[u8]), ReadFault>
    ensures { Gives (λ x. (x.0, x.1.now)) result (read_many T.reading count bytes.now) }
{
    let mut items = Items::new(alloc);
    let mut rest = bytes;
    for _ in 0..count {
        let (item, after) = T::read(alloc, rest)?;
        items.push(item)?;
        rest = after;
    }
    Ok((items, rest))
}
