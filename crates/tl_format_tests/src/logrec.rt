use std::alloc::Global;
use std::process::Abort;
use std::test::Fail;
use tl_logrec::{Flag, LogEntry, LogFault, entries_are_read};

// The bytes are the spelling of an entry of this number, node, flag and first key.
fn expect_entry(
    rt: &impl Abort,
    alloc: Global,
    bytes: &[u8],
    tid_node: (u64, u8),
    flag: Flag,
    first: Option<&[u8]>,
) -> Result<(), Fail> {
    let entry = LogEntry::decode(alloc, bytes)?;
    assert_eq!(rt; (entry.tid, entry.node.number()), tid_node);
    assert!(rt; entry.flag == flag);
    assert_eq!(rt; entry.writes.get(0).map(|key| key.as_slice()), first);
    assert_eq!(rt; entry.encode()?.as_slice(), bytes);
    Ok(())
}

// Tid 1 and node 1, which tries; its one write is the record with the key 1 in table 0.
static TRYING: [u8; 28] = [
    1, 0, 0, 0, 0, 0, 0, 0, 1, 1, 0, 0, 0, 0, 1, 0, 11, 4, 0, 2, 0x80, 0, 0, 0, 0, 0, 0, 1,
];

static DECIDED: [u8; 22] = [
    1, 0, 0, 0, 0, 0, 0, 1, 0, 16, 1, 0, 0, 0, 2, 0, 1, 4, 0, 2, 4, 0,
];

static UNDONE: [u8; 15] = [1, 0xff, 0, 0, 0, 0, 0, 0, 0, 2, 2, 0, 0, 0, 0];

#[test]
fn entries_are_spelled_so(rt: HostRuntime) -> Result<(), Fail> {
    entries_are_read();
    let alloc = rt.alloc();
    expect_entry(
        &rt,
        alloc,
        &TRYING,
        (1, 1),
        Flag::Trying,
        Some(&TRYING[17..]),
    )?;
    expect_entry(&rt, alloc, &DECIDED, (256, 16), Flag::Decided, Some(&[4]))?;
    expect_entry(&rt, alloc, &UNDONE, (0xff << 56, 2), Flag::Undone, None)
}

#[test]
fn other_bytes_are_no_entries(rt: HostRuntime) {
    let bad: [&[u8]; 3] = [
        &TRYING[..27],
        &[1, 0, 0, 0, 0, 0, 0, 0, 1, 17, 0, 0, 0, 0, 0],
        &[1, 0, 0, 0, 0, 0, 0, 0, 1, 1, 3, 0, 0, 0, 0],
    ];
    for bytes in bad {
        let read = LogEntry::decode(rt.alloc(), bytes);
        assert!(rt; matches!(read, Err(LogFault::BadLog)));
    }
}
