ghost use Rattle.std.specs.Prelude.{◌≡◌, IfOk};

use std::alloc::Global;
use tl_base::NoMemory;
use tl_isolation::Bound;

/// A copy of the statement.
pub fn copy_bound(alloc: Global, bound: &Bound) -> Result<Bound, NoMemory>
    ensures { IfOk result (λ copy. copy ≡ bound.now) }
{
    match bound {
        Bound::Begin => Ok(Bound::Begin),
        Bound::Commit => Ok(Bound::Commit),
        Bound::Rollback => Ok(Bound::Rollback),
        Bound::Recover { node } => Ok(Bound::Recover { node: *node }),
        Bound::Select { query } => Ok(Bound::Select {
            query: query.copy(alloc)?,
        }),
        Bound::Change { edit } => Ok(Bound::Change {
            edit: edit.copy(alloc)?,
        }),
    }
}
