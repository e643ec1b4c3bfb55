ghost use Rattle.std.specs.Prelude.{◌≡◌, ◌≤◌, ◌<◌};
ghost use Rattle.tl_cells.specs.Place.{shard_of_key};

/// The shard, below `count`, at which the cell or counter of this key lives.
pub fn shard_of(key: &[u8], count: u8) -> u8
    requires least { 1 ≤ count }
    requires greatest { count ≤ 16 }
    ensures shard { result ≡ shard_of_key key.now count }
    ensures within { result < count }
{
    let mut hash: u32 = 0;
    for byte in key {
        hash = (hash * 31 + *byte as u32) % 65_521;
    }
    (hash % count as u32) as u8
}
