ghost use Rattle.std.specs.Prelude.{◌≡◌, IfOk};

use crate::memory::NoMemory;

/// What can be copied where memory is left: the copy equals its original.
pub trait Duplicate: Sized {
    fn copy(&self) -> Result<Self, NoMemory>
        ensures { IfOk result (λ copy. copy ≡ self.now) };
}

impl Duplicate for u8 {
    fn copy(&self) -> Result<u8, NoMemory> {
        Ok(*self)
    }
}

impl Duplicate for u64 {
    fn copy(&self) -> Result<u64, NoMemory> {
        Ok(*self)
    }
}
