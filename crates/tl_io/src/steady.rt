ghost use Rattle.std.specs.Prelude.{◌≡◌, length};

use crate::failed::Failed;
use crate::sink::Sink;
use crate::source::Source;
use crate::unread::Unread;
use std::marker::Model;
use tl_base::Bytes;

/// A source that tells its bytes and never fails.
#[derive(Debug, Drop)]
pub struct SteadySource {
    unread: Unread,
}

impl Model for SteadySource {
    ghost use Rattle.std.specs.Prelude.{ℕ, List};

    ghost Value = { List ℕ };

    ghost view = { λ source. source.unread };
}

impl SteadySource {
    pub fn new(bytes: Bytes) -> SteadySource
        ensures { result ≡ bytes }
    {
        SteadySource {
            unread: Unread::new(bytes),
        }
    }
}

impl Source for SteadySource {
    ghost use Rattle.std.specs.Prelude.{Some};

    ghost left = { λ bytes. Some bytes };

    ghost faults = { λ _. 0 };

    ghost calls = { λ _. 0 };

    fn read(&mut self, buffer: &mut [u8]) -> Result<usize, Failed> {
        Ok(self.unread.take_front(buffer.len(), buffer))
    }
}

/// A sink that takes every piece, keeps none and never fails.
#[derive(Clone, Copy, Debug)]
pub struct SteadySink;

impl SteadySink {
    pub fn new() -> SteadySink {
        SteadySink
    }
}

impl Sink for SteadySink {
    ghost use Rattle.std.specs.Prelude.{None};

    ghost held = { λ _. None };

    ghost faults = { λ _. 0 };

    fn write(&mut self, piece: &[u8]) -> Result<usize, Failed>
        ensures { result ≡ Ok (length piece.now) }
    {
        Ok(piece.len())
    }
}
