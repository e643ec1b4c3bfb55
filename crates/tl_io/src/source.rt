ghost use Rattle.std.specs.Prelude.{◌≡◌, ℕ, List, Option, ◌+◌, ◌<◌, ◌≤◌, length, take, IfOk, OnErr};
ghost use Rattle.std.specs.Io.{ReadsAtMost};
ghost use Rattle.tl_io.specs.Faults.{Rose};
ghost use Rattle.tl_io.specs.Told.{prepend, IsAtEnd};

use crate::failed::Failed;

/// What gives bytes, piece by piece, until they end.
pub trait Source {
    // The bytes not yet read, where the source tells them.
    ghost left: { Self → Option (List ℕ) };

    // How many calls failed, up to 2^64 - 1.
    ghost faults: { Self → ℕ };

    // How many calls were made, where the source counts them, up to 2^64 - 1.
    ghost calls: { Self → ℕ };

    /// Puts the next bytes at the buffer's start, and answers how many. None into a buffer with room is the end of
    /// the input.
    fn read(&mut self, buffer: &mut [u8]) -> Result<usize, Failed>
        ensures within { ReadsAtMost result buffer.new }
        ensures bytes { IfOk result (λ count. left self.old ≡ prepend (take count buffer.new) (left self.new)) }
        ensures end { IfOk result (λ count. count ≡ 0 → 0 < length buffer.new → IsAtEnd (left self.new)) }
        ensures kept { OnErr result (left self.new ≡ left self.old) }
        ensures counted { OnErr result (Rose (faults self.old) (faults self.new)) }
        ensures never_falls { faults self.old ≤ faults self.new }
        ensures one_call { calls self.new ≤ calls self.old + 1 };
}
