//! The low-water mark.

ghost use Rattle.std.specs.Prelude.{◌≡◌};
ghost use Rattle.tl_manager.specs.Floor.{floor_of, lowered, newer};

use crate::active::Active;
use tl_descriptor::Descriptor;

/// The second set, where the first begins it.
pub fn newer<'a>(copy: &'a Descriptor, seen: &'a Descriptor) -> &'a Descriptor
    ensures { result.now ≡ newer copy.now seen.now }
{
    if copy.begins(seen) { seen } else { copy }
}

fn lowered<'a>(floor: &'a Descriptor, transaction: &'a Active) -> &'a Descriptor
    ensures { result.now ≡ lowered floor.now transaction.now }
{
    if transaction.snapshot.begins(floor) {
        &transaction.snapshot
    } else {
        floor
    }
}

/// The set below the copy and below each snapshot that begins what is below those before it.
pub fn floor_of<'a>(copy: &'a Descriptor, active: &'a [Active]) -> &'a Descriptor
    ensures { result.now ≡ floor_of copy.now active.now }
{
    let mut floor = copy;
    for transaction in active {
        floor = lowered(floor, transaction);
    }
    floor
}
