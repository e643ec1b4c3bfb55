//! Where a key stands among writes in rising order of keys.

ghost use Rattle.std.specs.Prelude.{◌≡◌, ◌+◌, ◌<◌, ◌≤◌, IsTrue, length, slice_get, vec_len, vec_capacity};
ghost use Rattle.std.specs.List.{position_or_len};
ghost use Rattle.std.specs.Ordering.{is_eq, is_le, is_lt};
ghost use Rattle.tl_write.specs.Own.{is_rising, is_written, key_cmp, put_write};
ghost use Rattle.tl_write.specs.Place.{holds};

use crate::write::Write;
use tl_base::Bytes;

/// The place of the first write whose key isn't below this one, or their end.
fn place_of(key: &Bytes, writes: &[Write]) -> usize
    requires { IsTrue (is_rising writes.now) }
    ensures { result ≡ position_or_len (λ w. is_le (key_cmp key.now w.key)) writes.now }
{
    writes.partition_point(|write| is_below(write, key))
}

fn is_below(write: &Write, key: &Bytes) -> bool
    ensures { result ≡ is_lt (key_cmp write.now.key key.now) }
{
    write.key.cmp(key).is_lt()
}

/// Whether the write at this place has the key.
fn has_key_at(key: &Bytes, at: usize, writes: &[Write]) -> bool
    ensures value { result ≡ holds (λ w. is_eq (key_cmp key.now w.key)) (slice_get writes.now at) }
    ensures within { IsTrue result → at < length writes.now }
{
    match writes.get(at) {
        Some(write) => key.cmp(&write.key).is_eq(),
        None => false,
    }
}

/// Whether a write has the key.
pub fn is_written(key: &Bytes, writes: &[Write]) -> bool
    requires { IsTrue (is_rising writes.now) }
    ensures { result ≡ is_written key.now writes.now }
{
    has_key_at(key, place_of(key, writes), writes)
}

/// Puts the write in its place, in that of one of its key where there is one. There is room for one more.
pub fn put_write(writes: &mut Vec<Write>, write: Write)
    requires rising { IsTrue (is_rising writes.old.items) }
    requires room { vec_len writes.old < vec_capacity writes.old }
    ensures put { writes.new.items ≡ put_write write writes.old.items }
    ensures rising { IsTrue (is_rising writes.new.items) }
    ensures len { vec_len writes.new ≤ vec_len writes.old + 1 }
    ensures capacity { vec_capacity writes.old ≤ vec_capacity writes.new }
{
    let at = place_of(&write.key, writes.as_slice());
    if has_key_at(&write.key, at, writes.as_slice()) {
        writes[at] = write;
    } else {
        let _ = writes.insert(at, write);
    }
}
