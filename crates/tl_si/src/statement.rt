//! SELECT and the changes.

ghost use Rattle.std.specs.Prelude.{◌≡◌, ◌↔◌, IsTrue, IfOk, Some};
ghost use Rattle.tl_schema.specs.declared.catalog.Catalog.{Catalog};
ghost use Rattle.tl_write.specs.Change.{number_of};
ghost use Rattle.tl_write.specs.Own.{put_writes};
ghost use Rattle.tl_isolation.specs.Meaning as meaning;
ghost use Rattle.tl_isolation.specs.Step as step;
ghost use Rattle.tl_si.specs.Shown.{shown};
ghost use Rattle.tl_si.specs.Sound.{AreAlone, AreHome, IsSound};
ghost use Rattle.tl_si.specs.Statements as statements;

use crate::answer::{copy_answer, tells_count, tells_overflow, tells_rows};
use crate::held::Held;
use crate::past::Past;
use crate::seen::{rows_seen, tables_seen};
use crate::state::{State, no_table, table_of};
use crate::stop::Stop;
use std::alloc::Global;
use tl_algebra::{Edit, Query, ValueFault, rows_of, select_has_one_answer};
use tl_base::{NoMemory, NodeId};
use tl_isolation::{Answer, Bound, Said};
use tl_schema::Catalog;
use tl_write::{ChangeFault, Effect, change, rows_suffice};

/// A SELECT is answered by its meaning on what the transaction sees.
pub fn select(
    alloc: Global,
    state: &mut State,
    node: NodeId,
    query: &Query,
    said: &Said,
) -> Result<(), Stop>
    requires { AreAlone state.old.held.items }
    ensures { (catalog : Catalog) → statements.Taken catalog state.old node (Bound.Select query.now) said.now result state.new }
{
    let Some((at, t)) = state.take_by(node) else {
        return Err(Stop::Breaks);
    };
    if !t.takes_statement(said.answered)
        || !tells_query(alloc, query, &state.commits, &t, &said.answer)?
    {
        return Err(Stop::Breaks);
    }
    state.put_back(at, keep_answer(said, t)?)?;
    Ok(())
}

/// Whether this is the answer to the query on what the transaction sees.
fn tells_query(
    alloc: Global,
    query: &Query,
    past: &Past,
    t: &Held,
    told: &Answer,
) -> Result<bool, NoMemory>
    ensures { IfOk result (λ tells. IsTrue tells ↔ meaning.SelectAnswers query.now (statements.view past.now t.now) told.now) }
{
    let tables = tables_seen(alloc, query, past, t.first, &t.own)?;
    select_has_one_answer();
    match rows_of(alloc, query, tables.as_slice()) {
        Ok(rows) => Ok(tells_rows(told, &rows)),
        Err(ValueFault::Overflow) => Ok(tells_overflow(told)),
        Err(ValueFault::NoMemory) => Err(NoMemory),
    }
}

/// An answer that has still to be given is kept.
fn keep_answer(said: &Said, t: Held) -> Result<Held, NoMemory>
    ensures { IfOk result (λ kept. kept ≡ step.keep_answer said.now.answer said.now.answered t) }
{
    if said.answered {
        return Ok(t);
    }
    let told = copy_answer(&said.answer)?;
    Ok(Held {
        unanswered: Some(told),
        ..t
    })
}

/// A change is answered by its meaning on what the transaction sees, and is laid over the own writes.
pub fn take_change(
    alloc: Global,
    catalog: &Catalog,
    state: &mut State,
    node: NodeId,
    edit: &Edit,
    said: &Said,
) -> Result<(), Stop>
    requires { IsSound catalog.now (shown state.old) }
    ensures { statements.Taken catalog.now state.old node (Bound.Change edit.now) said.now result state.new }
{
    let Some((at, t)) = state.take_by(node) else {
        return Err(Stop::Breaks);
    };
    if !t.takes_statement(said.answered) {
        return Err(Stop::Breaks);
    }
    let effect = effect_on(alloc, catalog, edit, &state.commits, &t)?;
    if !tells_change(&effect, &said.answer) {
        return Err(Stop::Breaks);
    }
    let kept = keep_answer(said, t)?;
    state.put_back(at, with_effect(effect, kept)?)?;
    Ok(())
}

/// What the change comes to on what the transaction sees.
fn effect_on(
    alloc: Global,
    catalog: &Catalog,
    edit: &Edit,
    past: &Past,
    t: &Held,
) -> Result<Result<Effect, ChangeFault>, NoMemory>
    requires { AreHome catalog.now (statements.view past.now t.now) }
    ensures { IfOk result (λ effect. effect ≡ meaning.change_of catalog.now edit.now (statements.view past.now t.now) t.now.own) }
{
    let none = no_table(alloc)?;
    let number = number_of(edit);
    let table = table_of(catalog, number, &none);
    let view = rows_seen(alloc, number, past, t.first, &t.own)?;
    rows_suffice();
    let effect = change(alloc, edit, table, &view, &t.own);
    if wants_memory(&effect) {
        return Err(NoMemory);
    }
    Ok(effect)
}

fn wants_memory(effect: &Result<Effect, ChangeFault>) -> bool
    ensures { result ≡ statements.wants_memory effect.now }
{
    matches!(effect, Err(ChangeFault::NoMemory))
}

fn number_of(edit: &Edit) -> u8
    ensures { result ≡ number_of edit.now }
{
    match edit {
        Edit::Insert { table, .. } | Edit::Update { table, .. } | Edit::Delete { table, .. } => {
            *table
        }
    }
}

/// Whether this is the answer to a change that comes to so much.
fn tells_change(effect: &Result<Effect, ChangeFault>, told: &Answer) -> bool
    ensures { IsTrue result ↔ (meaning.told_of effect.now ≡ Some told.now) }
{
    match effect {
        Ok(effect) => tells_count(told, effect.count),
        Err(refusal) => tells_refusal(*refusal, told),
    }
}

fn tells_refusal(refusal: ChangeFault, told: &Answer) -> bool
    ensures { IsTrue result ↔ (meaning.refusal_of refusal ≡ Some told.now) }
{
    match refusal {
        ChangeFault::Overflow => matches!(told, Answer::Overflow),
        ChangeFault::Null => matches!(told, Answer::Null),
        ChangeFault::Long => matches!(told, Answer::Long),
        ChangeFault::Duplicate => matches!(told, Answer::Duplicate),
        ChangeFault::Many => matches!(told, Answer::Many),
        ChangeFault::NoMemory => false,
    }
}

/// The own writes with those of a change after them; a refused change writes nothing.
fn with_effect(effect: Result<Effect, ChangeFault>, t: Held) -> Result<Held, NoMemory>
    ensures { IfOk result (λ changed. changed ≡ record t { own = step.own_after effect t.own }) }
{
    match effect {
        Ok(effect) => with_writes(effect, t),
        Err(_) => Ok(t),
    }
}

fn with_writes(effect: Effect, t: Held) -> Result<Held, NoMemory>
    ensures { IfOk result (λ changed. changed ≡ record t { own = put_writes effect.writes t.own }) }
{
    let Held { mut own, .. } = t;
    own.keep(effect)?;
    Ok(Held { own, ..t })
}
