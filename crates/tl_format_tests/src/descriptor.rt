use std::alloc::Global;
use std::test::Fail;
use tl_base::Bytes;
use tl_codec::{write_u32, write_u64};
use tl_descriptor::{
    Descriptor, DescriptorFault, InsertFault, begins_is_an_order, inserted_is_one_more,
    same_members, sets_are_read,
};

/// A base, and runs from the first to the second number.
#[derive(Clone, Copy)]
struct Plain(u64, &'static [(u64, u64)]);

fn spelled(alloc: Global, plain: Plain) -> Result<Bytes, Fail> {
    let Plain(base, runs) = plain;
    let mut bytes = Bytes::new(alloc);
    write_u64(&mut bytes, base)?;
    write_u32(&mut bytes, u32::try_from(runs.len())?)?;
    for (low, high) in runs {
        write_u64(&mut bytes, *low)?;
        write_u64(&mut bytes, *high)?;
    }
    Ok(bytes)
}

fn set_of(alloc: Global, plain: Plain) -> Result<Descriptor, Fail> {
    let bytes = spelled(alloc, plain)?;
    Ok(Descriptor::decode(alloc, bytes.as_slice())?)
}

// The bytes of the set with one number more.
fn grown(alloc: Global, plain: Plain, tid: u64) -> Result<Bytes, Fail> {
    let mut set = set_of(alloc, plain)?.copy()?;
    if tid <= 1 << 62 {
        set.insert(tid)?;
    }
    Ok(set.encode()?)
}

#[test]
fn sets_grow_and_runs_are_joined(rt: HostRuntime) -> Result<(), Fail> {
    let alloc = rt.alloc();
    let steps = [
        (Plain(0, &[]), 2, Plain(0, &[(2, 2)])),
        (Plain(0, &[(2, 2)]), 1, Plain(2, &[])),
        (Plain(3, &[(5, 6), (8, 8)]), 7, Plain(3, &[(5, 8)])),
        (Plain(3, &[(5, 8)]), 4, Plain(8, &[])),
    ];
    for (before, tid, after) in steps {
        assert!(rt; grown(alloc, before, tid)? == spelled(alloc, after)?);
    }
    let again = Descriptor::new(alloc, 2).insert(2);
    assert!(rt; matches!(again, Err(InsertFault::Present)));
    Ok(())
}

#[test]
fn tids_are_found(rt: HostRuntime) -> Result<(), Fail> {
    let set = set_of(rt.alloc(), Plain(3, &[(5, 6), (8, 8), (20, 1 << 62)]))?;
    for tid in [0, 3, 5, 6, 8, 1 << 62] {
        assert!(rt; set.has(tid));
    }
    for tid in [4, 7, 9] {
        assert!(rt; !set.has(tid));
    }
    Ok(())
}

#[test]
fn sets_begin_others(rt: HostRuntime) -> Result<(), Fail> {
    let low = Descriptor::new(rt.alloc(), 3);
    let high = set_of(rt.alloc(), Plain(3, &[(5, 6)]))?;
    assert!(rt; low.begins(&high));
    assert!(rt; !high.begins(&low));
    Ok(())
}

#[test]
fn other_bytes_are_no_sets(rt: HostRuntime) -> Result<(), Fail> {
    inserted_is_one_more();
    sets_are_read();
    same_members();
    begins_is_an_order();
    for plain in [
        Plain(0, &[(1, 1)]),
        Plain(0, &[(2, 3), (4, 5)]),
        Plain((1 << 62) + 1, &[]),
    ] {
        let bytes = spelled(rt.alloc(), plain)?;
        let read = Descriptor::decode(rt.alloc(), bytes.as_slice());
        assert!(rt; matches!(read, Err(DescriptorFault::BadDescriptor)));
    }
    Ok(())
}
