use std::alloc::Global;
use std::test::Fail;
use tl_base::{Bytes, NoMemory};
use tl_map::SortedMap;

fn key(alloc: Global, letters: &str) -> Result<Bytes, NoMemory> {
    Bytes::from_slice(alloc, letters.as_bytes())
}

fn put(
    map: &mut SortedMap<u8>,
    alloc: Global,
    letters: &str,
    value: u8,
) -> Result<Option<u8>, NoMemory> {
    map.insert(key(alloc, letters)?, value)
}

fn two(alloc: Global) -> Result<SortedMap<u8>, NoMemory> {
    let mut map = SortedMap::new(alloc);
    put(&mut map, alloc, "b", 1)?;
    put(&mut map, alloc, "ab", 2)?;
    Ok(map)
}

#[test]
fn maps_are_walked_in_order(rt: HostRuntime) -> Result<(), Fail> {
    let map = two(rt.alloc())?;
    let b = key(rt.alloc(), "b")?;
    assert_eq!(rt; map.iter().next().map(|(_, value)| *value), Some(2));
    assert_eq!(rt; map.range_from(&b).next().map(|(_, value)| *value), Some(1));
    assert_eq!(rt; map.range(&key(rt.alloc(), "ab")?, &b).count(), 1);
    Ok(())
}

#[test]
fn maps_are_changed(rt: HostRuntime) -> Result<(), Fail> {
    let mut map = two(rt.alloc())?;
    let b = key(rt.alloc(), "b")?;
    assert_eq!(rt; put(&mut map, rt.alloc(), "b", 3)?, Some(1));
    assert_eq!(rt; map.get(&b).copied(), Some(3));
    map.put(&b, 4)?;
    assert!(rt; map.contains_key(&b));
    assert_eq!(rt; map.remove(&b), Some(4));
    assert_eq!(rt; map.len(), 1);
    assert!(rt; !map.is_empty());
    Ok(())
}
