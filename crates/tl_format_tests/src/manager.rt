use crate::fixtures::set_of;
use std::alloc::Global;
use std::process::Abort;
use std::test::Fail;
use tl_base::{Machine, NodeId, NodeSet, Tid};
use tl_manager::{
    Gone, Manager, ManagerRequest, floor_begins_all, numbers_are_given_in_order,
    served_calls_follow_the_log,
};

/// A request, with sets of base 0 and of the tids that are listed.
#[derive(Clone, Copy)]
enum Step {
    Begin(u64, &'static [Tid]),
    Range(Tid, Tid),
    End(Tid),
    Orphans(u64),
    Floor(&'static [Tid]),
    Post(u64, u16),
    Claim(u64),
}

fn node_of(number: u64) -> Result<NodeId, Fail> {
    Ok(NodeId::new(number).ok_or("a node")?)
}

fn request(alloc: Global, step: &Step) -> Result<ManagerRequest, Fail> {
    match step {
        Step::Begin(node, seen) => {
            let node = node_of(*node)?;
            let seen = set_of(alloc, *seen)?;
            Ok(ManagerRequest::Begin { node, seen })
        }
        Step::Range(low, high) => Ok(ManagerRequest::Range {
            low: *low,
            high: *high,
        }),
        Step::End(tid) => Ok(ManagerRequest::End { tid: *tid }),
        Step::Orphans(node) => {
            let node = node_of(*node)?;
            Ok(ManagerRequest::Orphans { node })
        }
        Step::Floor(seen) => {
            let seen = set_of(alloc, *seen)?;
            Ok(ManagerRequest::Floor { seen })
        }
        Step::Post(node, also) => {
            let node = node_of(*node)?;
            Ok(Gone::new(node, NodeSet(*also)).post())
        }
        Step::Claim(node) => {
            let node = node_of(*node)?;
            Ok(ManagerRequest::Claim { node })
        }
    }
}

// The reply in words; where it is given twice, both are the same.
fn answer(alloc: Global, manager: &mut Manager, step: &Step) -> Result<String, Fail> {
    let request = request(alloc, step)?;
    let copy = Manager::copy_request(alloc, &request)?;
    let (_, reply) = manager.apply_twice(&copy)?;
    let text = format!(in alloc; "{reply:?}")?;
    Ok(text)
}

fn expect_replies(
    rt: &impl Abort,
    alloc: Global,
    steps: &[(Step, &'static str)],
) -> Result<(), Fail> {
    let mut manager = Manager::new(alloc);
    for (step, wanted) in steps {
        assert_eq!(rt; answer(alloc, &mut manager, step)?.as_str(), *wanted);
    }
    Ok(())
}

static REPLIES: [(Step, &'static str); 12] = [
    (Step::Begin(1, &[]), "NeedRange"),
    (Step::Range(1, 16), "Ranged"),
    (
        Step::Begin(1, &[]),
        "Began { tid: 1, snapshot: Descriptor { base: 0, runs: Items { items: [] } }, floor: Descriptor { base: 0, runs: Items { items: [] } } }",
    ),
    (
        Step::Begin(2, &[2]),
        "Began { tid: 2, snapshot: Descriptor { base: 0, runs: Items { items: [Run { low: 2, high: 2 }] } }, floor: Descriptor { base: 0, runs: Items { items: [] } } }",
    ),
    (Step::Orphans(1), "Orphaned { tids: Items { items: [1] } }"),
    (Step::End(1), "Ended"),
    (Step::End(1), "NotActive"),
    (
        Step::Floor(&[]),
        "FloorIs { floor: Descriptor { base: 0, runs: Items { items: [Run { low: 2, high: 2 }] } } }",
    ),
    (Step::Claim(1), "There"),
    (Step::Post(1, 4), "Posted"),
    (Step::Claim(1), "Given { also: NodeSet(4) }"),
    (Step::Claim(1), "There"),
];

static RANGES: [(Step, &'static str); 12] = [
    (Step::Range(17, 18), "Ranged"),
    (Step::Range(5, 4), "Ranged"),
    (Step::Range(1, 1), "Ranged"),
    (
        Step::Begin(3, &[]),
        "Began { tid: 17, snapshot: Descriptor { base: 0, runs: Items { items: [] } }, floor: Descriptor { base: 0, runs: Items { items: [] } } }",
    ),
    (
        Step::Begin(3, &[]),
        "Began { tid: 18, snapshot: Descriptor { base: 0, runs: Items { items: [] } }, floor: Descriptor { base: 0, runs: Items { items: [] } } }",
    ),
    (
        Step::Begin(3, &[]),
        "Began { tid: 1, snapshot: Descriptor { base: 0, runs: Items { items: [] } }, floor: Descriptor { base: 0, runs: Items { items: [] } } }",
    ),
    (Step::Begin(3, &[]), "NeedRange"),
    (
        Step::Orphans(3),
        "Orphaned { tids: Items { items: [17, 18, 1] } }",
    ),
    (Step::Post(16, 1), "Posted"),
    (Step::Post(16, 32768), "Posted"),
    (Step::Claim(15), "There"),
    (Step::Claim(16), "Given { also: NodeSet(32769) }"),
];

#[test]
fn replies(rt: HostRuntime) -> Result<(), Fail> {
    served_calls_follow_the_log();
    floor_begins_all();
    numbers_are_given_in_order();
    expect_replies(&rt, rt.alloc(), &REPLIES)?;
    expect_replies(&rt, rt.alloc(), &RANGES)
}
