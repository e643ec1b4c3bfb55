ghost use Rattle.std.specs.Prelude.{◌≡◌};
ghost use Rattle.tl_schema.specs.Fault.{row_fault};

use thiserror::Error;
use tl_codec::ReadFault;

/// Why a row is not read.
#[derive(Clone, Copy, Debug, PartialEq, Eq, Error)]
pub enum RowFault {
    /// The bytes are the spelling of no row.
    #[error("not the bytes of a row")]
    BadRow,
    #[error("out of memory")]
    NoMemory,
}

impl From<ReadFault> for RowFault {
    ghost from_gives = { λ fault e. e ≡ row_fault fault };

    fn from(fault: ReadFault) -> RowFault {
        match fault {
            ReadFault::Bad => RowFault::BadRow,
            ReadFault::NoMemory => RowFault::NoMemory,
        }
    }
}
