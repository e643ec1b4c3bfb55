ghost use Rattle.std.specs.Prelude.{◌≡◌, IfOk, length};

use std::alloc::Global;
use std::process::Abort;
use std::test::Fail;
use tl_ask::Layout;
use tl_base::{
    Bytes, Duplicate, NodeId, NodeSet, PlaceId, Settings, Stamp, StoreReply, StoreRequest,
};
use tl_manager::{ManagerReply, ManagerRequest, Reply, Request};
use tl_places::{Places, places_serve_their_logs};
use tl_script::read_script;

// The commits cell: the set of tid 0 alone.
const COMMITS: [u8; 12] = [0; 12];

// The keys of the records 1, 2 and 5 in table 0.
const KEY_1: [u8; 11] = [4, 0, 2, 0x80, 0, 0, 0, 0, 0, 0, 1];

const KEY_2: [u8; 11] = [4, 0, 2, 0x80, 0, 0, 0, 0, 0, 0, 2];

const KEY_5: [u8; 11] = [4, 0, 2, 0x80, 0, 0, 0, 0, 0, 0, 5];

// The cells whose one version, of tid 0, has the row (1, 10), (2, 20) or (5, 50).
const CELL_1: [u8; 35] = [
    1, 0, 0, 0, 1, 0, 0, 0, 0, 0, 0, 0, 0, 1, 0, 19, 2, 2, 0, 0, 0, 0, 0, 0, 0, 1, 2, 0, 0, 0, 0,
    0, 0, 0, 10,
];

const CELL_2: [u8; 35] = [
    1, 0, 0, 0, 1, 0, 0, 0, 0, 0, 0, 0, 0, 1, 0, 19, 2, 2, 0, 0, 0, 0, 0, 0, 0, 2, 2, 0, 0, 0, 0,
    0, 0, 0, 20,
];

const CELL_5: [u8; 35] = [
    1, 0, 0, 0, 1, 0, 0, 0, 0, 0, 0, 0, 0, 1, 0, 19, 2, 2, 0, 0, 0, 0, 0, 0, 0, 5, 2, 0, 0, 0, 0,
    0, 0, 0, 50,
];

// Four shards and one manager.
fn layout() -> Layout
    ensures { result.managers ≡ 1 }
{
    let settings = Settings {
        shards: 4,
        managers: 1,
        fan: 4,
        budget: 100,
        threads: false,
    };
    Layout::new(&settings)
}

// Three rows, not in the order of their keys.
const SCRIPT: &str =
    "CREATE TABLE point (x INT PRIMARY KEY, y INT)\nINSERT INTO point VALUES (5, 50)\nINSERT INTO point VALUES (1, 10)\nINSERT INTO point VALUES (2, 20)\n@node 1\nBEGIN\n";

fn places(alloc: Global) -> Result<Places, Fail>
    ensures { IfOk result (λ places. length places.managers ≡ 1) }
{
    let script = read_script(alloc, SCRIPT.as_bytes())?;
    let places = Places::new(alloc, layout(), &script)?;
    Ok(places)
}

// What a Load of the key at the shard finds.
fn expect_cell(
    rt: &impl Abort,
    alloc: Global,
    places: &mut Places,
    (shard, key, wanted, bytes): (u8, &[u8], Stamp, &[u8]),
) -> Result<(), Fail> {
    let key = Bytes::from_slice(alloc, key)?;
    let request = Request::Store(StoreRequest::Load { key: key.copy()? });
    let (copy, reply) = places.serve(PlaceId::Shard(shard), &request)?;
    assert!(rt;
        matches!(&copy, Request::Store(StoreRequest::Load { key: copied }) if *copied == key)
    );
    let Reply::Store(StoreReply::Cell { stamp, value }) = reply else {
        panic!(rt; "no cell");
    };
    assert_eq!(rt; stamp, wanted);
    assert_eq!(rt; value.as_slice(), bytes);
    Ok(())
}

#[test]
fn cells_of_the_opening(rt: HostRuntime) -> Result<(), Fail> {
    let alloc = rt.alloc();
    let mut places = places(alloc)?;
    let cells: [(u8, &[u8], Stamp, &[u8]); 6] = [
        (1, &[1], 1, &COMMITS),
        (1, &KEY_1, 2, &CELL_1),
        (1, &KEY_5, 3, &CELL_5),
        (2, &KEY_2, 1, &CELL_2),
        (2, &KEY_1, 0, &[]),
        (0, &[1], 0, &[]),
    ];
    for cell in cells {
        expect_cell(&rt, alloc, &mut places, cell)?;
    }
    Ok(())
}

fn claimed(places: &mut Places, node: NodeId) -> Result<Option<NodeSet>, Fail> {
    let request = Request::Manager(ManagerRequest::Claim { node });
    let (_, reply) = places.serve(PlaceId::Manager(0), &request)?;
    match reply {
        Reply::Manager(ManagerReply::Given { also }) => Ok(Some(also)),
        _ => Ok(None),
    }
}

#[test]
fn notices_are_given_once(rt: HostRuntime) -> Result<(), Fail> {
    places_serve_their_logs();
    let alloc = rt.alloc();
    let mut places = places(alloc)?;
    let node = NodeId::new(1).ok_or("a node")?;
    let notice = ManagerRequest::Post {
        node,
        also: NodeSet(4),
    };
    let reply = places.post(0, &notice);
    assert!(rt; matches!(reply, Reply::Manager(ManagerReply::Posted)));
    assert_eq!(rt; claimed(&mut places, node)?, Some(NodeSet(4)));
    assert_eq!(rt; claimed(&mut places, node)?, None);
    Ok(())
}
