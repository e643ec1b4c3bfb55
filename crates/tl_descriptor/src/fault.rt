ghost use Rattle.std.specs.Prelude.{◌≡◌};
ghost use Rattle.tl_codec.specs.declared.fault.ReadFault.{ReadFault as TheReadFault};
ghost use Rattle.tl_descriptor.specs.declared.fault.InsertFault.TheVariants as insert_fault;
ghost use Rattle.tl_descriptor.specs.declared.fault.DescriptorFault.TheVariants as fault;

use thiserror::Error;

/// Why a tid is not inserted.
#[derive(Clone, Copy, Debug, PartialEq, Eq, Error)]
pub enum InsertFault {
    /// It is in the set.
    #[error("the tid is in the set")]
    Present,
    #[error("out of memory")]
    NoMemory,
}

impl From<tl_base::NoMemory> for InsertFault {
    ghost from_gives = { λ _ e. e ≡ insert_fault.NoMemory };

    fn from(_error: tl_base::NoMemory) -> InsertFault {
        InsertFault::NoMemory
    }
}

/// Why a descriptor is not read.
#[derive(Clone, Copy, Debug, PartialEq, Eq, Error)]
pub enum DescriptorFault {
    /// The bytes are the spelling of no descriptor.
    #[error("not the bytes of a descriptor")]
    BadDescriptor,
    #[error("out of memory")]
    NoMemory,
}
