//! `Answered`, and what answers are.

ghost use Rattle.std.specs.Prelude.{ℕ, ◌≡◌, ◌↔◌, IsTrue, IfOk, Some};
ghost use Rattle.std.specs.Ordering.{is_eq};
ghost use Rattle.std.specs.Cmp.Lexicographic.{slice_cmp};
ghost use Rattle.std.specs.List.{list_all, zip};
ghost use Rattle.tl_values.specs.Value.{row_cmp, value_cmp};
ghost use Rattle.tl_schema.specs.declared.catalog.Catalog.{Catalog};
ghost use Rattle.tl_isolation.specs.State as si;
ghost use Rattle.tl_si.specs.Answers as same;
ghost use Rattle.tl_si.specs.Stops.{Stepped};

use crate::nodes;
use crate::state::State;
use crate::stop::Stop;
use tl_base::{Duplicate, NoMemory, NodeId, Tid};
use tl_isolation::{Answer, Entry};
use tl_values::{Row, Rows, Value, order};

/// The node gives the answer that it has to give.
pub fn answer(state: &mut State, node: NodeId, told: &Answer) -> Result<(), Stop>
    ensures { (catalog : Catalog) (statement : ℕ) → Stepped catalog state.old (Entry.Answered node statement told.now) result state.new }
{
    if !has_outcome(state, node, told) {
        return Err(Stop::Breaks);
    }
    nodes::clear(&mut state.nodes, node);
    Ok(())
}

fn has_outcome(state: &State, node: NodeId, told: &Answer) -> bool
    ensures { IsTrue result ↔ ((si.node_of node state.now.nodes.items).outcome ≡ Some told.now) }
{
    match nodes::outcome_of(state.nodes.as_slice(), node) {
        Some(outcome) => same_answer(outcome, told),
        None => false,
    }
}

/// Whether a change was refused.
pub fn is_refusal(told: &Answer) -> bool
    ensures { result ≡ si.is_refusal told.now }
{
    matches!(
        told,
        Answer::Duplicate | Answer::Null | Answer::Overflow | Answer::Long | Answer::Many
    )
}

/// Whether the two say the same.
fn same_answer(a: &Answer, b: &Answer) -> bool
    ensures { result ≡ same.same_answer a.now b.now }
{
    match a {
        Answer::Begun => matches!(b, Answer::Begun),
        Answer::Rows(rows) => tells_rows(b, rows),
        Answer::Changed(count) => tells_count(b, *count),
        Answer::Duplicate => matches!(b, Answer::Duplicate),
        Answer::Null => matches!(b, Answer::Null),
        Answer::Overflow => matches!(b, Answer::Overflow),
        Answer::Long => matches!(b, Answer::Long),
        Answer::Many => matches!(b, Answer::Many),
        Answer::Nested => matches!(b, Answer::Nested),
        Answer::Outside => matches!(b, Answer::Outside),
        Answer::Conflict(rival) => tells_rival(b, *rival),
        Answer::Committed => matches!(b, Answer::Committed),
        Answer::RolledBack => matches!(b, Answer::RolledBack),
        Answer::Recovered(node) => tells_recovered(b, *node),
        Answer::There(node) => tells_there(b, *node),
    }
}

/// Whether these rows are told.
pub fn tells_rows(told: &Answer, rows: &Rows) -> bool
    ensures { result ≡ same.tells_rows told.now rows.now }
{
    match told {
        Answer::Rows(told) => same_rows(told.as_slice(), rows.as_slice()),
        _ => false,
    }
}

/// Whether an overflow is told.
pub fn tells_overflow(told: &Answer) -> bool
    ensures { result ≡ same.is_overflow told.now }
{
    matches!(told, Answer::Overflow)
}

/// Whether a change is told, of so many rows.
pub fn tells_count(told: &Answer, count: u32) -> bool
    ensures { result ≡ same.tells_count told.now count }
{
    match told {
        Answer::Changed(told) => *told == count,
        _ => false,
    }
}

fn tells_rival(told: &Answer, rival: Tid) -> bool
    ensures { result ≡ same.tells_rival told.now rival }
{
    match told {
        Answer::Conflict(told) => *told == rival,
        _ => false,
    }
}

/// Whether it is told that this node is recovered.
pub fn tells_recovered(told: &Answer, node: NodeId) -> bool
    ensures { result ≡ same.tells_recovered told.now node }
{
    match told {
        Answer::Recovered(told) => *told == node,
        _ => false,
    }
}

/// Whether it is told that this node is recovered already.
pub fn tells_there(told: &Answer, node: NodeId) -> bool
    ensures { result ≡ same.tells_there told.now node }
{
    match told {
        Answer::There(told) => *told == node,
        _ => false,
    }
}

/// Whether the rows and their order are the same.
fn same_rows(a: &[Row], b: &[Row]) -> bool
    ensures { result ≡ is_eq (slice_cmp row_cmp a.now b.now) }
{
    a.len() == b.len() && each_row_same(a, b)
}

fn each_row_same(a: &[Row], b: &[Row]) -> bool
    ensures { result ≡ list_all (λ p. is_eq (row_cmp p.0 p.1)) (zip a.now b.now) }
{
    a.iter()
        .zip(b)
        .all(|(x, y)| same_row(x.as_slice(), y.as_slice()))
}

fn same_row(a: &[Value], b: &[Value]) -> bool
    ensures { result ≡ is_eq (row_cmp a.now b.now) }
{
    a.len() == b.len() && each_value_same(a, b)
}

fn each_value_same(a: &[Value], b: &[Value]) -> bool
    ensures { result ≡ list_all (λ p. is_eq (value_cmp p.0 p.1)) (zip a.now b.now) }
{
    a.iter().zip(b).all(|(x, y)| order(x, y).is_eq())
}

/// A copy of the answer.
pub fn copy_answer(answer: &Answer) -> Result<Answer, NoMemory>
    ensures { IfOk result (λ copy. copy ≡ answer.now) }
{
    Ok(match answer {
        Answer::Begun => Answer::Begun,
        Answer::Rows(rows) => Answer::Rows(rows.copy()?),
        Answer::Changed(count) => Answer::Changed(*count),
        Answer::Duplicate => Answer::Duplicate,
        Answer::Null => Answer::Null,
        Answer::Overflow => Answer::Overflow,
        Answer::Long => Answer::Long,
        Answer::Many => Answer::Many,
        Answer::Nested => Answer::Nested,
        Answer::Outside => Answer::Outside,
        Answer::Conflict(rival) => Answer::Conflict(*rival),
        Answer::Committed => Answer::Committed,
        Answer::RolledBack => Answer::RolledBack,
        Answer::Recovered(node) => Answer::Recovered(*node),
        Answer::There(node) => Answer::There(*node),
    })
}
