use thiserror::Error;

/// Why a record cell is not read.
#[derive(Clone, Copy, Debug, PartialEq, Eq, Error)]
pub enum CellFault {
    /// The bytes are the spelling of no versions.
    #[error("not the bytes of a record cell")]
    BadCell,
    #[error("out of memory")]
    NoMemory,
}
