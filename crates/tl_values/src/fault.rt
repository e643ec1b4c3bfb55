ghost use Rattle.std.specs.Prelude.{◌≡◌};
ghost use Rattle.tl_values.specs.Fault.{key_fault};

use thiserror::Error;
use tl_codec::ReadFault;

/// Why a key is not read.
#[derive(Clone, Copy, Debug, PartialEq, Eq, Error)]
pub enum KeyFault {
    /// The bytes are the key of no list of values.
    #[error("not the bytes of a key")]
    BadKey,
    #[error("out of memory")]
    NoMemory,
}

impl From<ReadFault> for KeyFault {
    ghost from_gives = { λ fault e. e ≡ key_fault fault };

    fn from(fault: ReadFault) -> KeyFault {
        match fault {
            ReadFault::Bad => KeyFault::BadKey,
            ReadFault::NoMemory => KeyFault::NoMemory,
        }
    }
}
