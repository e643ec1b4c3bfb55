ghost use Rattle.std.specs.Prelude.{◌≡◌};
ghost use Rattle.tl_codec.specs.declared.fault.ReadFault.TheVariants as fault;

use std::alloc::AllocFailed;
use thiserror::Error;

/// Why bytes are not read.
#[derive(Clone, Copy, Debug, PartialEq, Eq, Error)]
pub enum ReadFault {
    /// They don't begin with what is read.
    #[error("not such bytes")]
    Bad,
    #[error("out of memory")]
    NoMemory,
}

impl From<tl_base::NoMemory> for ReadFault {
    ghost from_gives = { λ _ e. e ≡ fault.NoMemory };

    fn from(_error: tl_base::NoMemory) -> ReadFault {
        ReadFault::NoMemory
    }
}

impl<T: Drop> From<AllocFailed<T>> for ReadFault {
    ghost from_gives = { λ _ e. e ≡ fault.NoMemory };

    fn from(_error: AllocFailed<T>) -> ReadFault {
        ReadFault::NoMemory
    }
}
