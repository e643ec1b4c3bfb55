ghost use Rattle.std.specs.Prelude.{◌≡◌, ◌≤◌, ◌++◌, min, take, length};

use std::marker::Model;
use tl_base::Bytes;

/// Bytes of which those at the front have been read.
#[derive(Debug, Drop)]
pub struct Unread {
    bytes: Bytes,
    at: usize,
}

impl Model for Unread {
    ghost use Rattle.std.specs.Prelude.{ℕ, List, ◌≤◌, length, drop};

    ghost Value = { List ℕ };

    ghost view = { λ unread. drop unread.at unread.bytes };

    ghost invariant = { λ unread. unread.at ≤ length unread.bytes };
}

impl Unread {
    pub fn new(bytes: Bytes) -> Unread
        ensures { result ≡ bytes }
    {
        Unread { bytes, at: 0 }
    }

    /// Moves the first bytes to the buffer's start, `most` at most, and answers how many.
    pub fn take_front(&mut self, most: usize, buffer: &mut [u8]) -> usize
        ensures count { result ≡ min most (min (length self.old) (length buffer.old)) }
        ensures bytes { self.old ≡ take result buffer.new ++ self.new }
    {
        let left = &self.bytes.as_slice()[self.at..];
        let count = most.min(left.len().min(buffer.len()));
        copy_front(&left[..count], buffer);
        self.at += count;
        count
    }
}

/// Copies the bytes to the buffer's start.
fn copy_front(bytes: &[u8], buffer: &mut [u8])
    requires { length bytes.now ≤ length buffer.old }
    ensures { take (length bytes.now) buffer.new ≡ bytes.now }
{
    buffer[..bytes.len()].copy_from_slice(bytes);
}
