use tl_base::Bytes;

/// Which records of a table a statement reads.
#[derive(Debug, Drop)]
pub enum Access {
    /// The record whose primary key has these key bytes.
    Point { key: Bytes },
    /// The records whose primary key's bytes are at least `low` and below `high`.
    KeyRange { low: Bytes, high: Bytes },
    /// The records with an entry in this index whose bytes are at least `low` and below `high`.
    IndexRange { index: u8, low: Bytes, high: Bytes },
    /// All.
    Whole,
}
