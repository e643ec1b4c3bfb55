ghost use Rattle.std.specs.Prelude.{◌≡◌, IfOk, false};
ghost use Rattle.tl_versions.specs.Versions.{is_written};

use crate::fixtures::{point, point_table};
use std::alloc::Global;
use std::test::Fail;
use tl_base::{Bytes, Tid};
use tl_descriptor::Descriptor;
use tl_versions::{
    CellFault, Version, Versions, cells_are_read, cells_stay_cells, no_stranger_is_new,
    prune_keeps_the_visible,
};

// The cell whose one version, of tid 0, has the row (1, 10).
static OPENING: [u8; 35] = [
    1, 0, 0, 0, 1, 0, 0, 0, 0, 0, 0, 0, 0, 1, 0, 19, 2, 2, 0, 0, 0, 0, 0, 0, 0, 1, 2, 0, 0, 0, 0,
    0, 0, 0, 10,
];

// The same behind a deletion by tid 1.
static DELETED: [u8; 44] = [
    1, 0, 0, 0, 2, 0, 0, 0, 0, 0, 0, 0, 1, 0, 0, 0, 0, 0, 0, 0, 0, 0, 1, 0, 19, 2, 2, 0, 0, 0, 0,
    0, 0, 0, 1, 2, 0, 0, 0, 0, 0, 0, 0, 10,
];

static DELETION: [u8; 14] = [1, 0, 0, 0, 1, 0, 0, 0, 0, 0, 0, 0, 1, 0];

fn opening(alloc: Global) -> Result<Versions, Fail>
    ensures { IfOk result (λ versions. is_written 1 versions ≡ false) }
{
    let mut versions = Versions::new(alloc);
    let row = Some(point(alloc, 1, 10)?);
    versions.push(Version { tid: 0, row })?;
    Ok(versions)
}

fn deleted(alloc: Global) -> Result<Bytes, Fail> {
    let mut versions = opening(alloc)?;
    versions.push(Version { tid: 1, row: None })?;
    Ok(versions.encode()?)
}

#[test]
fn cells_have_these_bytes(rt: HostRuntime) -> Result<(), Fail> {
    let alloc = rt.alloc();
    assert_eq!(rt; opening(alloc)?.encode()?.as_slice(), OPENING.as_slice());
    assert_eq!(rt; deleted(alloc)?.as_slice(), DELETED.as_slice());
    assert_eq!(rt;
        Versions::decode(alloc, &[])?.encode()?.as_slice(),
        [1, 0, 0, 0, 0].as_slice()
    );
    Ok(())
}

#[test]
fn other_bytes_are_no_cells(rt: HostRuntime) {
    let bad: [&[u8]; 3] = [
        &[2],
        &OPENING[..34],
        &[1, 0, 0, 0, 1, 0, 0, 0, 0, 0, 0, 0, 1, 2],
    ];
    for bytes in bad {
        assert!(rt; matches!(Versions::decode(rt.alloc(), bytes), Err(CellFault::BadCell)));
    }
}

// What a snapshot of this base sees in the cell: the version and the stranger.
fn seen(alloc: Global, bytes: &[u8], base: bool) -> Result<(Option<Tid>, Option<Tid>), Fail> {
    let snapshot = Descriptor::new(alloc, u64::from(base));
    let versions = Versions::decode(alloc, bytes)?;
    let visible = versions.visible(&snapshot).map(|version| version.tid);
    Ok((visible, versions.stranger(&snapshot)))
}

#[test]
fn snapshots_see_their_versions(rt: HostRuntime) -> Result<(), Fail> {
    let alloc = rt.alloc();
    assert_eq!(rt; seen(alloc, &DELETED, false)?, (Some(0), Some(1)));
    assert_eq!(rt; seen(alloc, &DELETED, true)?, (Some(1), None));
    assert_eq!(rt; seen(alloc, &DELETION, false)?, (None, Some(1)));
    Ok(())
}

fn pruned(alloc: Global, base: bool) -> Result<Bytes, Fail> {
    let mut versions = Versions::decode(alloc, &DELETED)?;
    versions.prune(&Descriptor::new(alloc, u64::from(base)));
    Ok(versions.encode()?)
}

fn stripped(alloc: Global, tid: Tid) -> Result<Bytes, Fail> {
    let mut versions = Versions::decode(alloc, &DELETED)?;
    versions.strip(tid);
    Ok(versions.encode()?)
}

#[test]
fn versions_are_taken_out(rt: HostRuntime) -> Result<(), Fail> {
    let alloc = rt.alloc();
    assert_eq!(rt; pruned(alloc, false)?.as_slice(), DELETED.as_slice());
    assert_eq!(rt; pruned(alloc, true)?.as_slice(), DELETION.as_slice());
    assert_eq!(rt; stripped(alloc, 2)?.as_slice(), DELETED.as_slice());
    assert_eq!(rt; stripped(alloc, 1)?.as_slice(), OPENING.as_slice());
    Ok(())
}

fn bears(alloc: Global, bytes: &[u8], entry: &[u8]) -> Result<bool, Fail> {
    let table = point_table(alloc)?;
    Ok(Versions::decode(alloc, bytes)?.bears(&table, 0, entry)?)
}

#[test]
fn versions_bear_entries(rt: HostRuntime) -> Result<(), Fail> {
    let alloc = rt.alloc();
    let entry: [u8; 18] = [2, 0x80, 0, 0, 0, 0, 0, 0, 10, 2, 0x80, 0, 0, 0, 0, 0, 0, 1];
    assert!(rt; bears(alloc, &DELETED, &entry)?);
    assert!(rt; !bears(alloc, &DELETED, &entry[..17])?);
    assert!(rt; !bears(alloc, &DELETION, &entry)?);
    cells_are_read();
    cells_stay_cells();
    no_stranger_is_new();
    prune_keeps_the_visible();
    Ok(())
}
