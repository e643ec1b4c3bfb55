ghost use Rattle.std.specs.Prelude.{◌≡◌, ◌≤◌};
ghost use Rattle.tl_io.specs.Faults.{Rose};

use crate::failed::Failed;
use crate::sink::Sink;
use crate::source::Source;
use std::io::{Read, Write};
use std::marker::Model;

/// Standard input, or another reader, as a source. It tells no bytes and counts no calls.
#[derive(Drop)]
pub struct InputSource<R> {
    reader: R,
    faults: u64,
}

impl<R> Model for InputSource<R> {
    ghost use Rattle.std.specs.Prelude.{ℕ};

    ghost Value = { ℕ };

    ghost view = { λ source. source.faults };
}

impl<R: Read> InputSource<R> {
    pub fn new(reader: R) -> InputSource<R>
        ensures { result ≡ 0 }
    {
        InputSource { reader, faults: 0 }
    }

    /// Counts an error.
    fn fail(&mut self) -> Failed
        ensures rose { Rose self.old self.new }
        ensures never_falls { self.old ≤ self.new }
    {
        self.faults = self.faults.saturating_add(1);
        Failed
    }
}

impl<R: Read> Source for InputSource<R> {
    ghost use Rattle.std.specs.Prelude.{None};

    ghost left = { λ _. None };

    ghost faults = { λ faults. faults };

    ghost calls = { λ _. 0 };

    fn read(&mut self, buffer: &mut [u8]) -> Result<usize, Failed> {
        match self.reader.read(buffer) {
            Ok(count) => Ok(count),
            Err(_) => Err(self.fail()),
        }
    }
}

/// Standard output, or another writer, as a sink. It tells no bytes.
#[derive(Drop)]
pub struct OutputSink<W> {
    writer: W,
    faults: u64,
}

impl<W> Model for OutputSink<W> {
    ghost use Rattle.std.specs.Prelude.{ℕ};

    ghost Value = { ℕ };

    ghost view = { λ sink. sink.faults };
}

impl<W: Write> OutputSink<W> {
    pub fn new(writer: W) -> OutputSink<W>
        ensures { result ≡ 0 }
    {
        OutputSink { writer, faults: 0 }
    }

    /// Counts an error.
    fn fail(&mut self) -> Failed
        ensures rose { Rose self.old self.new }
        ensures never_falls { self.old ≤ self.new }
    {
        self.faults = self.faults.saturating_add(1);
        Failed
    }
}

impl<W: Write> Sink for OutputSink<W> {
    ghost use Rattle.std.specs.Prelude.{None};

    ghost held = { λ _. None };

    ghost faults = { λ faults. faults };

    fn write(&mut self, piece: &[u8]) -> Result<usize, Failed> {
        match self.writer.write(piece) {
            Ok(0) if !piece.is_empty() => Err(self.fail()),
            Ok(count) => Ok(count),
            Err(_) => Err(self.fail()),
        }
    }
}
