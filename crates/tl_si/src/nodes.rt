//! What the nodes have in hand beside their transactions.

ghost use Rattle.std.specs.Prelude.{◌≡◌, ◌==◌, not, filter, find, position, OnOk};
ghost use Rattle.std.specs.Option.{option_copied};
ghost use Rattle.tl_isolation.specs.State as si;

use tl_base::{NoMemory, NodeId};
use tl_isolation::{Answer, NodeState};

fn listed(nodes: &[NodeState], node: NodeId) -> Option<&NodeState>
    ensures { option_copied result ≡ find (λ s. s.node == node) nodes.now }
{
    nodes.iter().find(|s| s.node == node)
}

/// The answer that the node has still to give.
pub fn outcome_of(nodes: &[NodeState], node: NodeId) -> Option<&Answer>
    ensures { option_copied result ≡ (si.node_of node nodes.now).outcome }
{
    listed(nodes, node)?.outcome.as_ref()
}

/// How many commits there were when the node asked to begin.
pub fn noted_of(nodes: &[NodeState], node: NodeId) -> Option<u32>
    ensures { result ≡ (si.node_of node nodes.now).noted }
{
    listed(nodes, node)?.noted
}

fn place_of(nodes: &[NodeState], node: NodeId) -> Option<usize>
    ensures { result ≡ position (λ s. s.node == node) nodes.now }
{
    nodes.iter().position(|s| s.node == node)
}

/// What the node has in hand, taken from the list.
fn take_node(nodes: &mut Vec<NodeState>, node: NodeId) -> NodeState
    ensures taken { result ≡ si.node_of node nodes.old.items }
    ensures others { filter (λ o. not (o.node == node)) nodes.new.items ≡ filter (λ o. not (o.node == node)) nodes.old.items }
{
    match place_of(nodes, node) {
        Some(at) => nodes.remove(at),
        None => NodeState {
            node,
            noted: None,
            outcome: None,
        },
    }
}

/// The node has nothing in hand any more.
pub fn clear(nodes: &mut Vec<NodeState>, node: NodeId)
    ensures { nodes.new.items ≡ si.put_node (si.idle node) nodes.old.items }
{
    drop_node(nodes, node);
}

fn drop_node(nodes: &mut Vec<NodeState>, node: NodeId)
    ensures { nodes.new.items ≡ filter (λ o. not (o.node == node)) nodes.old.items }
{
    nodes.retain(|other| other.node != node);
}

/// The node's state in the place of what it had. A node with nothing in hand isn't listed.
fn put_node(nodes: &mut Vec<NodeState>, changed: NodeState) -> Result<(), NoMemory>
    ensures { OnOk result (nodes.new.items ≡ si.put_node changed nodes.old.items) }
{
    drop_node(nodes, changed.node);
    if changed.noted.is_some() || changed.outcome.is_some() {
        nodes.push(changed)?;
    }
    Ok(())
}

/// The node notes so many commits, or forgets its note.
pub fn note(nodes: &mut Vec<NodeState>, node: NodeId, noted: Option<u32>) -> Result<(), NoMemory>
    ensures { OnOk result (nodes.new.items ≡ si.put_node (record (si.node_of node nodes.old.items) { noted = noted }) nodes.old.items) }
{
    let changed = NodeState {
        noted,
        ..take_node(nodes, node)
    };
    put_node(nodes, changed)
}

/// The node has this answer to give.
pub fn give(nodes: &mut Vec<NodeState>, node: NodeId, told: Answer) -> Result<(), NoMemory>
    ensures { OnOk result (nodes.new.items ≡ si.put_node (record (si.node_of node nodes.old.items) { outcome = Some told }) nodes.old.items) }
{
    let changed = NodeState {
        outcome: Some(told),
        ..take_node(nodes, node)
    };
    put_node(nodes, changed)
}
