ghost use Rattle.std.specs.Prelude.{◌≡◌};
ghost use Rattle.tl_names.specs.declared.error.BindError.TheVariants as error;

use tl_base::NoMemory;
use tl_scope::{BindFault, BindKind};

/// Why a statement is neither bound nor defined.
#[derive(Clone, Copy, Debug, PartialEq, Eq)]
pub enum BindError {
    /// The first fault, with the place of its first byte.
    Fault { at: u32, kind: BindKind },
    NoMemory,
}

impl From<NoMemory> for BindError {
    ghost from_gives = { λ _ e. e ≡ error.NoMemory };

    fn from(_error: NoMemory) -> BindError {
        BindError::NoMemory
    }
}

/// The fault, as a refusal.
pub fn refusal(fault: BindFault) -> BindError
    ensures { result ≡ BindError.Fault fault.at fault.kind }
{
    BindError::Fault {
        at: fault.at,
        kind: fault.kind,
    }
}
