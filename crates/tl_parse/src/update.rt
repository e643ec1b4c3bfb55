//! UPDATE and DELETE.

ghost use Rattle.std.specs.Prelude.{◌≡◌, [], ◌∷◌};
ghost use Rattle.tl_grammar.specs.Form.{row};
ghost use Rattle.tl_grammar.specs.Grammar.{behind, comma, delete, list, set_item, update};
ghost use Rattle.tl_tokens.specs.Seen.{Reads, seen};

use std::alloc::Global;
use tl_base::Items;
use tl_grammar::{Expected, SetItem, Sign, Statement, Word};
use tl_terms::{MOST, expression, filter};
use tl_tokens::{Cursor, Stop, is_sign, name, sign, word};

#[tactic(auto, unfolding(tl_grammar::specs::Grammar::set_item))]
fn set_item<'a>(alloc: Global, at: Cursor<'a>) -> Result<(SetItem, Cursor<'a>), Stop>
    ensures { Reads result ((set_item 64).read (seen at.entry)) }
{
    let (column, at) = name(alloc, at)?;
    let (_, at) = sign(Sign::Equal, at)?;
    let (value, at) = expression(alloc, at, MOST)?;
    Ok((SetItem { column, value }, at))
}

#[tactic(auto, unfolding(tl_grammar::specs::Grammar::comma))]
fn comma_set_item<'a>(alloc: Global, at: Cursor<'a>) -> Result<(SetItem, Cursor<'a>), Stop>
    ensures { Reads result ((comma (set_item 64)).read (seen at.entry)) }
{
    let (_, at) = sign(Sign::Comma, at)?;
    let (found, at) = set_item(alloc, at)?;
    Ok((found, at))
}

#[tactic(auto, unfolding(tl_grammar::specs::Grammar::comma))]
fn more_set_items<'a>(
    alloc: Global,
    first: SetItem,
    at: Cursor<'a>,
) -> Result<(Items<SetItem>, Cursor<'a>), Stop>
    ensures { Reads result ((row behind (comma (set_item 64)) (first ∷ [])).read (seen at.entry)) }
{
    let mut found = Items::new(alloc);
    found.push(first)?;
    let mut here = at;
    for i in 0..at.left() {
        if !is_sign(Sign::Comma, here) {
            return Ok((found, here.missing(Expected::Sign)));
        }
        let (next, after) = comma_set_item(alloc, here)?;
        found.push(next)?;
        here = after;
    }
    Ok((found, here.missing(Expected::Sign)))
}

#[tactic(auto, unfolding(tl_grammar::specs::Grammar::list))]
fn set_items<'a>(alloc: Global, at: Cursor<'a>) -> Result<(Items<SetItem>, Cursor<'a>), Stop>
    ensures { Reads result ((list (set_item 64)).read (seen at.entry)) }
{
    let (first, at) = set_item(alloc, at)?;
    let (found, at) = more_set_items(alloc, first, at)?;
    Ok((found, at))
}

#[tactic(auto, unfolding(tl_grammar::specs::Grammar::update))]
pub fn update<'a>(alloc: Global, at: Cursor<'a>) -> Result<(Statement, Cursor<'a>), Stop>
    ensures { Reads result ((update 64).read (seen at.entry)) }
{
    let (_, at) = word(Word::Update, at)?;
    let (table, at) = name(alloc, at)?;
    let (_, at) = word(Word::Set, at)?;
    let (sets, at) = set_items(alloc, at)?;
    let (filter, at) = filter(alloc, at)?;
    let found = Statement::Update {
        table,
        sets,
        filter,
    };
    Ok((found, at))
}

#[tactic(auto, unfolding(tl_grammar::specs::Grammar::delete))]
pub fn delete<'a>(alloc: Global, at: Cursor<'a>) -> Result<(Statement, Cursor<'a>), Stop>
    ensures { Reads result ((delete 64).read (seen at.entry)) }
{
    let (_, at) = word(Word::Delete, at)?;
    let (_, at) = word(Word::From, at)?;
    let (table, at) = name(alloc, at)?;
    let (filter, at) = filter(alloc, at)?;
    Ok((Statement::Delete { table, filter }, at))
}
