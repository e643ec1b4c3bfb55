use thiserror::Error;

/// A read or a write failed. The source or sink counted it, and holds the bytes that it held before.
#[derive(Clone, Copy, Debug, PartialEq, Eq, Error)]
#[error("a read or a write failed")]
pub struct Failed;
