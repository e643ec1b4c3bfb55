use thiserror::Error;

/// Why a log entry is not read.
#[derive(Clone, Copy, Debug, PartialEq, Eq, Error)]
pub enum LogFault {
    /// The bytes are the spelling of no log entry.
    #[error("not the bytes of a log entry")]
    BadLog,
    #[error("out of memory")]
    NoMemory,
}
