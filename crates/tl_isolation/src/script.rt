use crate::bound::Bound;
use tl_base::{Items, NodeId};
use tl_schema::{Catalog, OpeningRow};

/// An item of the schedule.
#[derive(Clone, Copy, Debug)]
pub enum TurnItem {
    /// So many requests of the node.
    One { node: NodeId, times: u32 },
    /// Requests of the node until its statement of this number is answered.
    Until { node: NodeId, statement: u32 },
}

/// Which stores are counted until a node vanishes.
#[derive(Clone, Copy, Debug)]
pub enum VanishKind {
    /// All requests, stores or not.
    Any,
    RecordStore,
    FlagStore,
    LeafStore,
    SplitStore,
}

/// A node that vanishes after its `count`-th request of this kind.
#[derive(Clone, Copy, Debug)]
pub struct Vanish {
    pub node: NodeId,
    pub count: u32,
    pub kind: VanishKind,
}

/// The statements of one node, in order.
#[derive(Drop)]
pub struct Session {
    pub node: NodeId,
    pub statements: Items<Bound>,
}

/// A script: the tables, the rows that they open with, the sessions and the schedule.
#[derive(Drop)]
pub struct Script {
    pub catalog: Catalog,
    pub rows: Items<OpeningRow>,
    pub sessions: Items<Session>,
    pub turns: Items<TurnItem>,
    pub vanishes: Items<Vanish>,
}
