ghost use Rattle.std.specs.Prelude.{◌≡◌, ℕ, List, Option, ◌<◌, ◌≤◌, length, take, IfOk, OnErr};
ghost use Rattle.std.specs.Io.{WritesAtMost};
ghost use Rattle.tl_io.specs.Faults.{Rose};
ghost use Rattle.tl_io.specs.Told.{append};

use crate::failed::Failed;

/// What takes bytes, piece by piece.
pub trait Sink {
    // The bytes taken so far, where the sink tells them.
    ghost held: { Self → Option (List ℕ) };

    // How many calls failed, up to 2^64 - 1.
    ghost faults: { Self → ℕ };

    /// Takes bytes from the piece's start, and answers how many. Of a piece that isn't empty it takes at least one,
    /// or fails.
    fn write(&mut self, piece: &[u8]) -> Result<usize, Failed>
        ensures within { WritesAtMost result piece.now }
        ensures some { IfOk result (λ count. 0 < length piece.now → 0 < count) }
        ensures bytes { IfOk result (λ count. held self.new ≡ append (held self.old) (take count piece.now)) }
        ensures kept { OnErr result (held self.new ≡ held self.old) }
        ensures counted { OnErr result (Rose (faults self.old) (faults self.new)) }
        ensures never_falls { faults self.old ≤ faults self.new };
}
