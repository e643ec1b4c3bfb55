//! The commits of a run, by the numbers of their transactions, in order. The first is that of the opening rows.

ghost use Rattle.std.specs.Prelude.{◌≡◌, ◌<◌, ◌^◌, length};
ghost use Rattle.tl_world.specs.Told.{first_in};

use tl_base::Tid;
use tl_descriptor::Descriptor;

/// How many of them are in the snapshot: it has the first ones and no others.
pub fn count_in(commits: &[Tid], snapshot: &Descriptor) -> u32
    requires { length commits.now < 2 ^ 32 }
    ensures { result ≡ first_in snapshot.now commits.now }
{
    let mut count = commits.len();
    while count > 0 && !snapshot.has(commits[count - 1]) {
        count -= 1;
    }
    count as u32
}
