use tl_isolation::Said;
use tl_manager::Mark;

/// What a reply meant for the present statement.
#[derive(Debug, Drop)]
pub enum Rest {
    /// Nothing yet.
    Going,
    /// It is said, or answered.
    Said(Said),
    /// No place of a run gives this reply. The node asks nothing more.
    Strange,
    /// Memory was wanted. The node asks nothing more; the mark holds all the same.
    NoMemory,
}

/// What a node tells of a reply.
#[derive(Debug, Drop)]
pub struct Told {
    pub mark: Mark,
    pub rest: Rest,
}
