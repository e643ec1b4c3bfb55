ghost use Rattle.std.specs.Prelude.{◌≡◌, IfOk};

use crate::memory::NoMemory;
use std::alloc::Global;
use std::marker::Model;

/// A `Box` that contracts see as what it holds.
#[derive(Debug, Drop)]
pub struct Boxed<T> {
    boxed: Box<T>,
}

impl<T> Model for Boxed<T> {
    ghost Value = { T };

    ghost coded = { T.code };

    ghost view = { λ b. b.boxed.value };
}

impl<T> Boxed<T> {
    pub fn get(&self) -> &T
        ensures { result.now ≡ self.now }
    {
        &self.boxed
    }

    pub fn into_inner(self) -> T
        ensures { result ≡ self }
    {
        let Boxed { boxed } = self;
        Box::into_inner(boxed)
    }
}

impl<T: Drop> Boxed<T> {
    pub fn new(alloc: Global, value: T) -> Result<Boxed<T>, NoMemory>
        ensures { IfOk result (λ b. b ≡ value) }
    {
        let boxed = Box::new(alloc, value)?;
        Ok(Boxed { boxed })
    }
}
