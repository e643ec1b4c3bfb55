ghost use Rattle.std.specs.Prelude.{◌≡◌};
ghost use Rattle.tl_algebra.specs.declared.fault.ValueFault.TheVariants as fault;

use std::alloc::{AllocError, AllocFailed};
use thiserror::Error;

/// Why there is no value.
#[derive(Clone, Copy, Debug, PartialEq, Eq, Error)]
pub enum ValueFault {
    /// A number lies outside 64 bits.
    #[error("overflow")]
    Overflow,
    #[error("out of memory")]
    NoMemory,
}

impl From<tl_base::NoMemory> for ValueFault {
    ghost from_gives = { λ _ e. e ≡ fault.NoMemory };

    fn from(_error: tl_base::NoMemory) -> ValueFault {
        ValueFault::NoMemory
    }
}

impl From<AllocError> for ValueFault {
    ghost from_gives = { λ _ e. e ≡ fault.NoMemory };

    fn from(_error: AllocError) -> ValueFault {
        ValueFault::NoMemory
    }
}

impl<T: Drop> From<AllocFailed<T>> for ValueFault {
    ghost from_gives = { λ _ e. e ≡ fault.NoMemory };

    fn from(_error: AllocFailed<T>) -> ValueFault {
        ValueFault::NoMemory
    }
}
