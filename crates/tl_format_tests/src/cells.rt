use std::alloc::Global;
use std::test::Fail;
use tl_base::{Bytes, Machine, NoMemory, Stamp, StoreRequest};
use tl_cells::{Shard, shard_of};

/// The greatest stamp.
const GREATEST: Stamp = 1 << 62;

static RECORD: [u8; 11] = [4, 0, 2, 0x80, 0, 0, 0, 0, 0, 0, 1];

#[test]
fn shards_of_keys(rt: HostRuntime) {
    let cases: [(&[u8], [u8; 3]); 3] = [(&[1], [0, 1, 1]), (&[2], [0, 2, 2]), (&RECORD, [0, 1, 9])];
    for (key, wanted) in cases {
        assert_eq!(rt;
            [shard_of(key, 1), shard_of(key, 4), shard_of(key, 16)],
            wanted
        );
    }
}

/// A request at the cell `k` or the counter `c`.
#[derive(Clone, Copy)]
enum Step {
    Load,
    StoreIf(Stamp, &'static [u8]),
    Add(u64),
    Page(u32),
}

fn request(alloc: Global, step: &Step) -> Result<StoreRequest, NoMemory> {
    let key = Bytes::from_slice(alloc, b"k")?;
    match step {
        Step::Load => Ok(StoreRequest::Load { key }),
        Step::StoreIf(stamp, value) => {
            let value = Bytes::from_slice(alloc, *value)?;
            Ok(StoreRequest::StoreIf {
                key,
                stamp: *stamp,
                value,
            })
        }
        Step::Add(by) => {
            let key = Bytes::from_slice(alloc, b"c")?;
            Ok(StoreRequest::Add { key, by: *by })
        }
        Step::Page(limit) => {
            let before = Bytes::from_slice(alloc, b"z")?;
            Ok(StoreRequest::Page {
                from: Bytes::new(alloc),
                before,
                limit: *limit,
            })
        }
    }
}

fn answer(alloc: Global, shard: &mut Shard, step: &Step) -> Result<String, NoMemory> {
    let request = request(alloc, step)?;
    let copy = Shard::copy_request(alloc, &request)?;
    let reply = shard.apply(&copy)?;
    let text = format!(in alloc; "{reply:?}")?;
    Ok(text)
}

#[test]
fn replies(rt: HostRuntime) -> Result<(), Fail> {
    let steps = [
        (Step::Load, "Cell { stamp: 0, value: Bytes { bytes: [] } }"),
        (Step::StoreIf(0, b"a"), "Stored { stamp: 1 }"),
        (Step::StoreIf(0, b"b"), "Moved { stamp: 1 }"),
        (Step::StoreIf(1, b"b"), "Stored { stamp: 2 }"),
        (
            Step::Page(1),
            "Items { list: Items { items: [Item { key: Bytes { bytes: [107] }, stamp: 2, value: Bytes { bytes: [98] } }] }, more: false }",
        ),
        (
            Step::Page(0),
            "Items { list: Items { items: [] }, more: true }",
        ),
        (Step::Add(4_611_686_018_427_387_888), "Count { old: 0 }"),
        (Step::Add(16), "Count { old: 4611686018427387888 }"),
        (Step::Add(1), "Full { old: 4611686018427387904 }"),
    ];
    let alloc = rt.alloc();
    let mut shard = Shard::new(alloc, 0);
    for (step, wanted) in &steps {
        assert_eq!(rt; answer(alloc, &mut shard, step)?.as_str(), *wanted);
    }
    Ok(())
}

#[test]
fn the_last_stamp_is_given_once(rt: HostRuntime) -> Result<(), Fail> {
    let alloc = rt.alloc();
    let mut shard = Shard::new(alloc, GREATEST - 1);
    let store = request(alloc, &Step::StoreIf(0, b"a"))?;
    let (reply, again) = shard.apply_twice(&store)?;
    let texts = format!(in alloc; "{reply:?} {again:?}")?;
    assert_eq!(rt;
        texts.as_str(),
        "Stored { stamp: 4611686018427387904 } Stored { stamp: 4611686018427387904 }"
    );
    let reply = answer(alloc, &mut shard, &Step::StoreIf(GREATEST, b"b"))?;
    assert_eq!(rt; reply.as_str(), "Full { old: 4611686018427387904 }");
    Ok(())
}
