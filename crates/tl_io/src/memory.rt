ghost use Rattle.std.specs.Prelude.{◌≡◌, ◌+◌, ◌-◌, ◌<◌, ◌≤◌, ◌⊎◌, ◌↔◌, [], ◌++◌, min, length, take, IsTrue, IsErr, is_err, IfOk, OnErr};
ghost use Rattle.std.specs.Io.{ReadsAtMost};
ghost use Rattle.tl_io.specs.Faults.{Rose, next};
ghost use Rattle.tl_io.specs.Memory.{none_made, is_listed, after_call};

use crate::calls::{CallCount, Calls};
use crate::failed::Failed;
use crate::sink::Sink;
use crate::source::Source;
use crate::unread::Unread;
use std::alloc::Global;
use std::marker::Model;
use tl_base::{Bytes, NoMemory};

/// A source over bytes in memory. Each call moves a few bytes at most, and the calls that are listed fail.
#[derive(Debug, Drop)]
pub struct MemorySource {
    unread: Unread,
    most: u32,
    calls: CallCount,
}

impl Model for MemorySource {
    ghost use Rattle.std.specs.Prelude.{◌≤◌};
    ghost use Rattle.tl_io.specs.Memory.{SourceSeen};

    ghost Value = { SourceSeen };

    ghost view = { λ source. record { left = source.unread; most = source.most; calls = source.calls } };

    ghost invariant = { λ source. 1 ≤ source.most };
}

impl MemorySource {
    /// `most` is the greatest number of bytes that one call moves; `failing` lists the calls that are to fail.
    pub fn new(bytes: Bytes, most: u32, failing: Calls) -> MemorySource
        requires { 1 ≤ most }
        ensures { result ≡ record { left = bytes; most = most; calls = none_made failing } }
    {
        MemorySource {
            unread: Unread::new(bytes),
            most,
            calls: CallCount::new(failing),
        }
    }
}

impl Source for MemorySource {
    ghost use Rattle.std.specs.Prelude.{Some};

    ghost left = { λ source. Some source.left };

    ghost faults = { λ source. source.calls.failed };

    ghost calls = { λ source. source.calls.made };

    fn read(&mut self, buffer: &mut [u8]) -> Result<usize, Failed>
        ensures within { ReadsAtMost result buffer.new }
        ensures bytes { IfOk result (λ count. self.old.left ≡ take count buffer.new ++ self.new.left) }
        ensures end { IfOk result (λ count. count ≡ 0 → 0 < length buffer.new → self.new.left ≡ []) }
        ensures kept { OnErr result (self.new.left ≡ self.old.left) }
        ensures counted { OnErr result (Rose self.old.calls.failed self.new.calls.failed) }
        ensures never_falls { self.old.calls.failed ≤ self.new.calls.failed }
        ensures one_call { self.new.calls.made ≤ self.old.calls.made + 1 }

        ensures listed { IsErr result ↔ IsTrue (is_listed self.old.calls.failing (next self.old.calls.made)) }
        ensures count { IfOk result (λ count.
            count ≡ min self.old.most (min (length self.old.left) (length buffer.old))) }
        ensures calls { self.new.calls ≡ after_call self.old.calls (is_err result) }
        ensures most { self.new.most ≡ self.old.most }
    {
        self.calls.begin()?;
        Ok(self.unread.take_front(self.most as usize, buffer))
    }
}

/// A sink that holds its bytes in memory taken when it is made. Each call moves a few bytes at most, and the calls
/// that are listed fail; so does a call for a piece where no room is left.
#[derive(Debug, Drop)]
pub struct MemorySink {
    held: Vec<u8>,
    room: u32,
    most: u32,
    calls: CallCount,
}

impl Model for MemorySink {
    ghost use Rattle.std.specs.Prelude.{◌≤◌, vec_len, vec_capacity};
    ghost use Rattle.tl_io.specs.Memory.{SinkSeen};

    ghost Value = { SinkSeen };

    ghost view = { λ sink. record { held = sink.held.items; room = sink.room; most = sink.most; calls = sink.calls } };

    ghost invariant = { λ sink. (vec_len sink.held ≤ sink.room) × (sink.room ≤ vec_capacity sink.held) × (1 ≤ sink.most) };
}

impl MemorySink {
    /// `room` is the number of bytes that the sink can hold, `most` the greatest number that one call moves;
    /// `failing` lists the calls that are to fail.
    pub fn new(alloc: Global, room: u32, most: u32, failing: Calls) -> Result<MemorySink, NoMemory>
        requires { 1 ≤ most }
        ensures { IfOk result (λ sink.
            sink ≡ record { held = []; room = room; most = most; calls = none_made failing }) }
    {
        let held = Vec::with_capacity(alloc, room as usize)?;
        Ok(MemorySink {
            held,
            room,
            most,
            calls: CallCount::new(failing),
        })
    }

    /// The bytes taken so far.
    pub fn held(&self) -> &[u8]
        ensures { result.now ≡ self.now.held }
    {
        self.held.as_slice()
    }
}

impl Sink for MemorySink {
    ghost use Rattle.std.specs.Prelude.{Some};

    ghost held = { λ sink. Some sink.held };

    ghost faults = { λ sink. sink.calls.failed };

    fn write(&mut self, piece: &[u8]) -> Result<usize, Failed>
        ensures some { IfOk result (λ count. 0 < length piece.now → 0 < count) }
        ensures bytes { IfOk result (λ count. self.new.held ≡ self.old.held ++ take count piece.now) }
        ensures kept { OnErr result (self.new.held ≡ self.old.held) }
        ensures counted { OnErr result (Rose self.old.calls.failed self.new.calls.failed) }
        ensures never_falls { self.old.calls.failed ≤ self.new.calls.failed }

        ensures refused { IsErr result ↔ (IsTrue (is_listed self.old.calls.failing (next self.old.calls.made))
            ⊎ ((self.old.room ≤ length self.old.held) × (0 < length piece.now))) }
        ensures count { IfOk result (λ count.
            count ≡ min self.old.most (min (self.old.room - length self.old.held) (length piece.now))) }
        ensures calls { self.new.calls ≡ after_call self.old.calls (is_err result) }
        ensures room { self.new.room ≡ self.old.room }
        ensures most { self.new.most ≡ self.old.most }
    {
        self.calls.begin()?;
        let free = self.room as usize - self.held.len();
        let front = at_most(piece, free.min(self.most as usize));
        if front.is_empty() && !piece.is_empty() {
            return Err(self.calls.fail());
        }
        self.held.extend_from_slice(front).unwrap();
        Ok(front.len())
    }
}

/// The first bytes, `most` at most.
fn at_most(bytes: &[u8], most: usize) -> &[u8]
    ensures { result.now ≡ take most bytes.now }
{
    &bytes[..bytes.len().min(most)]
}
