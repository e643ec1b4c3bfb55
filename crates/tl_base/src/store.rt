use crate::bytes::Bytes;
use crate::items::Items;

/// The number of a transaction. 0 stands for the opening rows.
pub type Tid = u64;

/// The stamp of a cell: it differs after each store. 0 is that of an absent cell.
pub type Stamp = u64;

/// A request to one shard of the store.
#[derive(Debug, Drop)]
pub enum StoreRequest {
    /// The cell under this key.
    Load {
        key: Bytes,
    },
    /// The value, stored if the cell still has this stamp.
    StoreIf {
        key: Bytes,
        stamp: Stamp,
        value: Bytes,
    },
    /// Adds to the counter under this key.
    Add {
        key: Bytes,
        by: u64,
    },
    /// The first `limit` cells whose key is at least `from` and below `before`, in the order of keys.
    Page {
        from: Bytes,
        before: Bytes,
        limit: u32,
    },
}

/// A cell of a page, with its key.
#[derive(Debug, Drop)]
pub struct Item {
    pub key: Bytes,
    pub stamp: Stamp,
    pub value: Bytes,
}

/// What a shard answers.
#[derive(Debug, Drop)]
pub enum StoreReply {
    /// The loaded cell. An absent one has the stamp 0 and no bytes.
    Cell { stamp: Stamp, value: Bytes },
    /// The value was stored, and the cell has this stamp now.
    Stored { stamp: Stamp },
    /// Nothing was stored: the cell has this other stamp.
    Moved { stamp: Stamp },
    /// The counter as it was before the sum.
    Count { old: u64 },
    /// Nothing was done: the counter or the shard's stamps, which stand at `old`, would pass their end.
    Full { old: u64 },
    /// The cells of a page, and whether the range has further ones.
    Items { list: Items<Item>, more: bool },
}
