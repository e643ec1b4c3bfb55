//! Room that is taken before a request is served, so that what follows it can't fail.

ghost use Rattle.std.specs.Prelude.{◌≡◌, []};

use std::alloc::Global;
use std::mem;
use tl_base::Items;
use tl_isolation::Entry;

/// What was told since the last event.
pub fn take_all(alloc: Global, spare: &mut Vec<Entry>) -> Items<Entry>
    ensures taken { result ≡ spare.old.items }
    ensures left { spare.new.items ≡ [] }
{
    if spare.is_empty() {
        return Items::new(alloc);
    }
    Items::from_vec(mem::replace(spare, Vec::new(alloc)))
}
