//! INSERT.

ghost use Rattle.std.specs.Prelude.{◌≡◌, [], ◌∷◌};
ghost use Rattle.tl_grammar.specs.Form.{row};
ghost use Rattle.tl_grammar.specs.Grammar.{behind, comma, insert, list, literal, names, optional, tuple};
ghost use Rattle.tl_tokens.specs.Seen.{Reads, seen};

use std::alloc::Global;
use tl_base::Items;
use tl_grammar::{Expected, Literal, Name, Sign, Statement, Tuple, Word};
use tl_terms::{literal, names};
use tl_tokens::{Cursor, Stop, is_sign, name, sign, word};

#[tactic(auto, unfolding(tl_grammar::specs::Grammar::comma))]
fn comma_literal<'a>(alloc: Global, at: Cursor<'a>) -> Result<(Literal, Cursor<'a>), Stop>
    ensures { Reads result ((comma literal).read (seen at.entry)) }
{
    let (_, at) = sign(Sign::Comma, at)?;
    let (found, at) = literal(alloc, at)?;
    Ok((found, at))
}

#[tactic(auto, unfolding(tl_grammar::specs::Grammar::comma))]
fn more_literals<'a>(
    alloc: Global,
    first: Literal,
    at: Cursor<'a>,
) -> Result<(Items<Literal>, Cursor<'a>), Stop>
    ensures { Reads result ((row behind (comma literal) (first ∷ [])).read (seen at.entry)) }
{
    let mut found = Items::new(alloc);
    found.push(first)?;
    let mut here = at;
    for i in 0..at.left() {
        if !is_sign(Sign::Comma, here) {
            return Ok((found, here.missing(Expected::Sign)));
        }
        let (next, after) = comma_literal(alloc, here)?;
        found.push(next)?;
        here = after;
    }
    Ok((found, here.missing(Expected::Sign)))
}

#[tactic(auto, unfolding(tl_grammar::specs::Grammar::list))]
fn literals<'a>(alloc: Global, at: Cursor<'a>) -> Result<(Items<Literal>, Cursor<'a>), Stop>
    ensures { Reads result ((list literal).read (seen at.entry)) }
{
    let (first, at) = literal(alloc, at)?;
    let (found, at) = more_literals(alloc, first, at)?;
    Ok((found, at))
}

#[tactic(auto, unfolding(tl_grammar::specs::Grammar::tuple))]
fn tuple<'a>(alloc: Global, at: Cursor<'a>) -> Result<(Tuple, Cursor<'a>), Stop>
    ensures { Reads result (tuple.read (seen at.entry)) }
{
    let (start, at) = sign(Sign::Open, at)?;
    let (values, at) = literals(alloc, at)?;
    let (_, at) = sign(Sign::Close, at)?;
    Ok((Tuple { at: start, values }, at))
}

#[tactic(auto, unfolding(tl_grammar::specs::Grammar::comma))]
fn comma_tuple<'a>(alloc: Global, at: Cursor<'a>) -> Result<(Tuple, Cursor<'a>), Stop>
    ensures { Reads result ((comma tuple).read (seen at.entry)) }
{
    let (_, at) = sign(Sign::Comma, at)?;
    let (found, at) = tuple(alloc, at)?;
    Ok((found, at))
}

#[tactic(auto, unfolding(tl_grammar::specs::Grammar::comma))]
fn more_tuples<'a>(
    alloc: Global,
    first: Tuple,
    at: Cursor<'a>,
) -> Result<(Items<Tuple>, Cursor<'a>), Stop>
    ensures { Reads result ((row behind (comma tuple) (first ∷ [])).read (seen at.entry)) }
{
    let mut found = Items::new(alloc);
    found.push(first)?;
    let mut here = at;
    for i in 0..at.left() {
        if !is_sign(Sign::Comma, here) {
            return Ok((found, here.missing(Expected::Sign)));
        }
        let (next, after) = comma_tuple(alloc, here)?;
        found.push(next)?;
        here = after;
    }
    Ok((found, here.missing(Expected::Sign)))
}

#[tactic(auto, unfolding(tl_grammar::specs::Grammar::list))]
fn tuples<'a>(alloc: Global, at: Cursor<'a>) -> Result<(Items<Tuple>, Cursor<'a>), Stop>
    ensures { Reads result ((list tuple).read (seen at.entry)) }
{
    let (first, at) = tuple(alloc, at)?;
    let (found, at) = more_tuples(alloc, first, at)?;
    Ok((found, at))
}

#[tactic(auto, unfolding(tl_grammar::specs::Grammar::optional, tl_grammar::specs::Grammar::names, tl_grammar::specs::Grammar::in_brackets))]
fn columns<'a>(alloc: Global, at: Cursor<'a>) -> Result<(Option<Items<Name>>, Cursor<'a>), Stop>
    ensures { Reads result ((optional names).read (seen at.entry)) }
{
    if is_sign(Sign::Open, at) {
        let (found, at) = names(alloc, at)?;
        return Ok((Some(found), at));
    }
    Ok((None, at.missing(Expected::Sign)))
}

#[tactic(auto, unfolding(tl_grammar::specs::Grammar::insert))]
pub fn insert<'a>(alloc: Global, at: Cursor<'a>) -> Result<(Statement, Cursor<'a>), Stop>
    ensures { Reads result (insert.read (seen at.entry)) }
{
    let (_, at) = word(Word::Insert, at)?;
    let (_, at) = word(Word::Into, at)?;
    let (table, at) = name(alloc, at)?;
    let (columns, at) = columns(alloc, at)?;
    let (_, at) = word(Word::Values, at)?;
    let (tuples, at) = tuples(alloc, at)?;
    let found = Statement::Insert {
        table,
        columns,
        tuples,
    };
    Ok((found, at))
}
