/// Where a request is served: a shard of the store, or a commit manager. Shards stand before managers.
#[derive(Clone, Copy, Debug, PartialEq, Eq, PartialOrd, Ord, Hash)]
pub enum PlaceId {
    Shard(u8),
    Manager(u8),
}

/// How a run is laid out.
#[derive(Clone, Copy, Debug, PartialEq, Eq)]
pub struct Settings {
    /// From 1 to 16.
    pub shards: u8,
    /// From 1 to 4.
    pub managers: u8,
    /// The greatest number of entries of a tree node, from 4 to 128.
    pub fan: u8,
    /// How many requests a node may make, from 1 to 100,000.
    pub budget: u32,
    /// Whether each node runs in a thread of its own.
    pub threads: bool,
}
