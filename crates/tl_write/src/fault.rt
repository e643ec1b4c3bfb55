ghost use Rattle.std.specs.Prelude.{◌≡◌};
ghost use Rattle.tl_write.specs.declared.fault.ChangeFault.TheVariants as fault;
ghost use Rattle.tl_write.specs.Fault.{value_fault};

use thiserror::Error;
use tl_algebra::ValueFault;
use tl_base::NoMemory;

/// Why a change is refused: what its first offending row does. Of two offences of one row the first of this list is
/// told.
#[derive(Clone, Copy, Debug, PartialEq, Eq, Error)]
pub enum ChangeFault {
    /// A number outside 64 bits.
    #[error("overflow")]
    Overflow,
    /// A NULL in a column that refuses it.
    #[error("null")]
    Null,
    /// A row, its key or an index key above its limit.
    #[error("long")]
    Long,
    /// A key that the view has, or an earlier row of the statement.
    #[error("duplicate")]
    Duplicate,
    /// A record more than a transaction may write.
    #[error("many")]
    Many,
    #[error("out of memory")]
    NoMemory,
}

impl From<NoMemory> for ChangeFault {
    ghost from_gives = { λ _ e. e ≡ fault.NoMemory };

    fn from(_error: NoMemory) -> ChangeFault {
        ChangeFault::NoMemory
    }
}

impl From<ValueFault> for ChangeFault {
    ghost from_gives = { λ value e. e ≡ value_fault value };

    fn from(error: ValueFault) -> ChangeFault {
        match error {
            ValueFault::Overflow => ChangeFault::Overflow,
            ValueFault::NoMemory => ChangeFault::NoMemory,
        }
    }
}
