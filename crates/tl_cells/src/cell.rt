use tl_base::{Bytes, Stamp};

/// A stored cell.
#[derive(Debug, Drop)]
pub struct Cell {
    /// 1 at least.
    pub stamp: Stamp,
    pub value: Bytes,
}
