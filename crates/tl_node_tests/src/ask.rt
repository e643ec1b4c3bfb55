use crate::tables::catalog_of;
use std::alloc::Global;
use std::test::Fail;
use tl_ask::{
    Asked, Layout, TxnId, ask_manager, draw_numbers, hear_commits, hear_log, hear_manager,
    hear_numbers, hear_page, hear_record, hear_store, load_commits, load_log, load_record,
    read_page, requests_alike, store_commits, store_log, store_record,
};
use tl_base::{Bytes, Item, Items, NodeId, Settings, Stamp, StoreReply};
use tl_descriptor::Descriptor;
use tl_manager::{ManagerReply, ManagerRequest, Reply};
use tl_versions::Versions;

// The key of the record with the key 1 in table 0.
const KEY: [u8; 11] = [4, 0, 2, 0x80, 0, 0, 0, 0, 0, 0, 1];

// The cell of a record that transaction 1 deleted.
const DELETION: [u8; 14] = [1, 0, 0, 0, 1, 0, 0, 0, 0, 0, 0, 0, 1, 0];

// Transaction 1 of node 1, which tries to write that record.
const TRYING: [u8; 28] = [
    1, 0, 0, 0, 0, 0, 0, 0, 1, 1, 0, 0, 0, 0, 1, 0, 11, 4, 0, 2, 0x80, 0, 0, 0, 0, 0, 0, 1,
];

// The tids 0, 1, 2 and 3, and 5 and 6.
const FINISHED: [u8; 28] = [
    0, 0, 0, 0, 0, 0, 0, 3, 0, 0, 0, 1, 0, 0, 0, 0, 0, 0, 0, 5, 0, 0, 0, 0, 0, 0, 0, 6,
];

// Four shards and two managers.
fn layout() -> Layout {
    let settings = Settings {
        shards: 4,
        managers: 2,
        fan: 4,
        budget: 100,
        threads: false,
    };
    Layout::new(&settings)
}

// A kind of request, with what the test asks of it.
#[derive(Clone, Copy)]
enum Ask {
    LoadCommits,
    StoreCommits,
    LoadLog,
    StoreLog,
    LoadRecord,
    StoreRecord,
    ReadPage,
    DrawNumbers,
    AskManager,
}

fn asked(alloc: Global, ask: Ask) -> Result<Asked, Fail> {
    let layout = layout();
    match ask {
        Ask::LoadCommits => Ok(load_commits(alloc, layout)?),
        Ask::StoreCommits => {
            let set = Descriptor::decode(alloc, &FINISHED)?;
            Ok(store_commits(alloc, layout, 7, &set)?)
        }
        Ask::LoadLog => Ok(load_log(alloc, layout, 258)?),
        Ask::StoreLog => {
            let entry = Bytes::from_slice(alloc, &TRYING)?;
            Ok(store_log(alloc, layout, 0, 1, entry)?)
        }
        Ask::LoadRecord => {
            let key = Bytes::from_slice(alloc, &KEY)?;
            Ok(load_record(layout, key))
        }
        Ask::StoreRecord => {
            let key = Bytes::from_slice(alloc, &KEY)?;
            let versions = Versions::decode(alloc, &DELETION)?;
            Ok(store_record(layout, key, 5, &versions)?)
        }
        Ask::ReadPage => {
            let from = Bytes::from_slice(alloc, &[4, 0, 1])?;
            let before = Bytes::from_slice(alloc, &[4, 0, 4])?;
            Ok(read_page(layout, 3, from, before))
        }
        Ask::DrawNumbers => Ok(draw_numbers(alloc, layout)?),
        Ask::AskManager => Ok(ask_manager(layout, 1, ManagerRequest::End { tid: 1 })),
    }
}

#[test]
fn requests_have_these_places_and_bytes(rt: HostRuntime) -> Result<(), Fail> {
    let alloc = rt.alloc();
    let texts: [(Ask, &'static str); 9] = [
        (
            Ask::LoadCommits,
            "Asked { place: Shard(1), request: Store(Load { key: Bytes { bytes: [1] } }) }",
        ),
        (
            Ask::StoreCommits,
            "Asked { place: Shard(1), request: Store(StoreIf { key: Bytes { bytes: [1] }, stamp: 7, value: Bytes { bytes: [0, 0, 0, 0, 0, 0, 0, 3, 0, 0, 0, 1, 0, 0, 0, 0, 0, 0, 0, 5, 0, 0, 0, 0, 0, 0, 0, 6] } }) }",
        ),
        (
            Ask::LoadLog,
            "Asked { place: Shard(1), request: Store(Load { key: Bytes { bytes: [3, 0, 0, 0, 0, 0, 0, 1, 2] } }) }",
        ),
        (
            Ask::StoreLog,
            "Asked { place: Shard(1), request: Store(StoreIf { key: Bytes { bytes: [3, 0, 0, 0, 0, 0, 0, 0, 1] }, stamp: 0, value: Bytes { bytes: [1, 0, 0, 0, 0, 0, 0, 0, 1, 1, 0, 0, 0, 0, 1, 0, 11, 4, 0, 2, 128, 0, 0, 0, 0, 0, 0, 1] } }) }",
        ),
        (
            Ask::LoadRecord,
            "Asked { place: Shard(1), request: Store(Load { key: Bytes { bytes: [4, 0, 2, 128, 0, 0, 0, 0, 0, 0, 1] } }) }",
        ),
        (
            Ask::StoreRecord,
            "Asked { place: Shard(1), request: Store(StoreIf { key: Bytes { bytes: [4, 0, 2, 128, 0, 0, 0, 0, 0, 0, 1] }, stamp: 5, value: Bytes { bytes: [1, 0, 0, 0, 1, 0, 0, 0, 0, 0, 0, 0, 1, 0] } }) }",
        ),
        (
            Ask::ReadPage,
            "Asked { place: Shard(3), request: Store(Page { from: Bytes { bytes: [4, 0, 1] }, before: Bytes { bytes: [4, 0, 4] }, limit: 64 }) }",
        ),
        (
            Ask::DrawNumbers,
            "Asked { place: Shard(2), request: Store(Add { key: Bytes { bytes: [2] }, by: 16 }) }",
        ),
        (
            Ask::AskManager,
            "Asked { place: Manager(1), request: Manager(End { tid: 1 }) }",
        ),
    ];
    for (ask, wanted) in texts {
        let asked = asked(alloc, ask)?;
        let text = format!(in alloc; "{asked:?}")?;
        assert_eq!(rt; text.as_str(), wanted);
    }
    Ok(())
}

// A request whose reply is heard.
#[derive(Clone, Copy)]
enum Kind {
    Commits,
    Log,
    Record,
    Page,
    Store,
    Numbers,
    Manager,
}

fn heard(alloc: Global, kind: Kind, reply: &Reply) -> Result<String, Fail> {
    let text = match kind {
        Kind::Commits => format!(in alloc; "{:?}", hear_commits(alloc, reply)?)?,
        Kind::Log => format!(in alloc;
            "{:?}",
            hear_log(alloc, &catalog_of(alloc, &[tl_values::Kind::Int])?, reply)?
        )?,
        Kind::Record => format!(in alloc;
            "{:?}",
            hear_record(
                alloc,
                &catalog_of(alloc, &[tl_values::Kind::Int])?,
                &Bytes::from_slice(alloc, &KEY)?,
                reply
            )?
        )?,
        Kind::Page => format!(in alloc;
            "{:?}",
            hear_page(
                alloc,
                &catalog_of(alloc, &[tl_values::Kind::Int])?,
                &Bytes::from_slice(alloc, &[4, 0])?,
                &Bytes::from_slice(alloc, &[4, 1])?,
                reply
            )?
        )?,
        Kind::Store => format!(in alloc; "{:?}", hear_store(reply))?,
        Kind::Numbers => format!(in alloc; "{:?}", hear_numbers(reply))?,
        Kind::Manager => format!(in alloc; "{:?}", hear_manager(reply))?,
    };
    Ok(text)
}

// A reply: a cell of this stamp and value, a page of one such cell, or another.
#[derive(Clone, Copy)]
enum Answer {
    Cell(Stamp, &'static [u8]),
    Page(&'static [u8]),
    Stored(Stamp),
    Moved(Stamp),
    Count(u64),
    Full(u64),
    Ended,
}

fn page(alloc: Global, value: &[u8]) -> Result<Reply, Fail> {
    let key = Bytes::from_slice(alloc, &KEY)?;
    let value = Bytes::from_slice(alloc, value)?;
    let mut list = Items::new(alloc);
    list.push(Item {
        key,
        stamp: 9,
        value,
    })?;
    Ok(Reply::Store(StoreReply::Items { list, more: false }))
}

fn reply(alloc: Global, answer: Answer) -> Result<Reply, Fail> {
    match answer {
        Answer::Cell(stamp, value) => {
            let value = Bytes::from_slice(alloc, value)?;
            Ok(Reply::Store(StoreReply::Cell { stamp, value }))
        }
        Answer::Page(value) => page(alloc, value),
        Answer::Stored(stamp) => Ok(Reply::Store(StoreReply::Stored { stamp })),
        Answer::Moved(stamp) => Ok(Reply::Store(StoreReply::Moved { stamp })),
        Answer::Count(old) => Ok(Reply::Store(StoreReply::Count { old })),
        Answer::Full(old) => Ok(Reply::Store(StoreReply::Full { old })),
        Answer::Ended => Ok(Reply::Manager(ManagerReply::Ended)),
    }
}

#[test]
fn replies_are_heard_so(rt: HostRuntime) -> Result<(), Fail> {
    let alloc = rt.alloc();
    requests_alike();
    let texts: [(Kind, Answer, &'static str); 24] = [
        (
            Kind::Commits,
            Answer::Cell(7, &FINISHED),
            "Some(CommitsCell { stamp: 7, finished: Descriptor { base: 3, runs: Items { items: [Run { low: 5, high: 6 }] } } })",
        ),
        (Kind::Commits, Answer::Cell(7, &[0; 11]), "None"),
        (Kind::Commits, Answer::Page(&FINISHED), "None"),
        (Kind::Log, Answer::Cell(0, &[]), "Some(None)"),
        (
            Kind::Log,
            Answer::Cell(4, &TRYING),
            "Some(Some(LogCell { stamp: 4, entry: LogEntry { tid: 1, node: NodeId { number: 1 }, flag: Trying, writes: Items { items: [Bytes { bytes: [4, 0, 2, 128, 0, 0, 0, 0, 0, 0, 1] }] } } }))",
        ),
        (Kind::Log, Answer::Cell(4, &[1]), "None"),
        (
            Kind::Record,
            Answer::Cell(0, &[]),
            "Some(RecordCell { stamp: 0, versions: Versions { versions: Items { items: [] } } })",
        ),
        (
            Kind::Record,
            Answer::Cell(5, &DELETION),
            "Some(RecordCell { stamp: 5, versions: Versions { versions: Items { items: [Version { tid: 1, row: None }] } } })",
        ),
        (Kind::Record, Answer::Cell(5, &[2]), "None"),
        (
            Kind::Page,
            Answer::Page(&DELETION),
            "Some(Page { found: Items { items: [Found { key: Bytes { bytes: [4, 0, 2, 128, 0, 0, 0, 0, 0, 0, 1] }, versions: Versions { versions: Items { items: [Version { tid: 1, row: None }] } } }] }, more: false })",
        ),
        (Kind::Page, Answer::Page(&[2]), "None"),
        (Kind::Store, Answer::Stored(5), "Some(Stored(5))"),
        (Kind::Store, Answer::Moved(5), "Some(Moved)"),
        (Kind::Store, Answer::Full(5), "None"),
        (Kind::Numbers, Answer::Count(32), "Some(32)"),
        (Kind::Numbers, Answer::Full(32), "None"),
        (Kind::Manager, Answer::Ended, "Some(Ended)"),
        // Replies of another kind.
        (Kind::Log, Answer::Ended, "None"),
        (Kind::Record, Answer::Page(&DELETION), "None"),
        (Kind::Page, Answer::Cell(5, &DELETION), "None"),
        (Kind::Store, Answer::Count(5), "None"),
        (Kind::Numbers, Answer::Stored(32), "None"),
        (Kind::Manager, Answer::Stored(5), "None"),
        (Kind::Commits, Answer::Moved(5), "None"),
    ];
    for (kind, answer, wanted) in texts {
        let reply = reply(alloc, answer)?;
        let text = heard(alloc, kind, &reply)?;
        assert_eq!(rt; text.as_str(), wanted);
    }
    Ok(())
}

#[test]
fn layouts_and_numbers(rt: HostRuntime) -> Result<(), Fail> {
    let layout = layout();
    assert_eq!(rt; layout.shards(), 4);
    assert_eq!(rt; layout.managers(), 2);
    for (number, home) in [(1, 0), (2, 1), (3, 0), (16, 1)] {
        let node = NodeId::new(number).ok_or("a node")?;
        assert_eq!(rt; layout.home_of(node), home);
    }
    assert_eq!(rt; TxnId::new(1 << 62).map(TxnId::get), Some(1 << 62));
    assert!(rt; TxnId::new((1 << 62) + 1).is_none());
    Ok(())
}
