use tl_algebra::{Edit, Query};
use tl_base::NodeId;

/// A statement of a session, bound to the catalog.
#[derive(Drop)]
pub enum Bound {
    Begin,
    Commit,
    Rollback,
    Recover { node: NodeId },
    Select { query: Query },
    Change { edit: Edit },
}
