//! The FROM items of SELECT.

ghost use Rattle.std.specs.Prelude.{◌≡◌, [], ◌∷◌};
ghost use Rattle.tl_grammar.specs.Form.{either, row, starts};
ghost use Rattle.tl_grammar.specs.Grammar.{as_name, behind, comma, from_item, from_items, inner_join, joined, more_from, name, optional, word};
ghost use Rattle.tl_grammar.specs.declared.token.Word.TheVariants as w;
ghost use Rattle.tl_tokens.specs.Seen.{Reads, seen};

use std::alloc::Global;
use tl_base::Items;
use tl_grammar::{Expected, FromItem, Name, Sign, Word};
use tl_terms::joining;
use tl_tokens::{Cursor, Stop, is_name, is_sign, is_word, name, sign, word};

#[tactic(auto, unfolding(tl_grammar::specs::Grammar::as_name))]
fn as_name<'a>(alloc: Global, at: Cursor<'a>) -> Result<(Name, Cursor<'a>), Stop>
    ensures { Reads result (as_name.read (seen at.entry)) }
{
    let (_, at) = word(Word::As, at)?;
    let (found, at) = name(alloc, at)?;
    Ok((found, at))
}

#[tactic(auto, unfolding(tl_grammar::specs::Grammar::as_name))]
fn new_name<'a>(alloc: Global, at: Cursor<'a>) -> Result<(Name, Cursor<'a>), Stop>
    ensures { Reads result ((either as_name name).read (seen at.entry)) }
{
    if is_word(Word::As, at) {
        return as_name(alloc, at);
    }
    name(alloc, at.missing(Expected::Word))
}

#[tactic(auto, unfolding(tl_grammar::specs::Grammar::as_name))]
fn is_new_name(at: Cursor<'_>) -> bool
    ensures { result ≡ starts (either as_name name).begins (seen at.entry).rest }
{
    is_word(Word::As, at) || is_name(at)
}

#[tactic(auto, unfolding(tl_grammar::specs::Grammar::optional, tl_grammar::specs::Grammar::as_name))]
fn called<'a>(alloc: Global, at: Cursor<'a>) -> Result<(Option<Name>, Cursor<'a>), Stop>
    ensures { Reads result ((optional (either as_name name)).read (seen at.entry)) }
{
    if is_new_name(at) {
        let (found, at) = new_name(alloc, at)?;
        return Ok((Some(found), at));
    }
    Ok((None, at.missing(Expected::Word)))
}

#[tactic(auto, unfolding(tl_grammar::specs::Grammar::from_item))]
fn from_item<'a>(alloc: Global, at: Cursor<'a>) -> Result<(FromItem, Cursor<'a>), Stop>
    ensures { Reads result (from_item.read (seen at.entry)) }
{
    let (table, at) = name(alloc, at)?;
    let (called, at) = called(alloc, at)?;
    let found = FromItem {
        table,
        called,
        on: None,
    };
    Ok((found, at))
}

#[tactic(auto, unfolding(tl_grammar::specs::Grammar::inner_join))]
fn inner_join<'a>(at: Cursor<'a>) -> Result<(u32, Cursor<'a>), Stop>
    ensures { Reads result (inner_join.read (seen at.entry)) }
{
    let (_, at) = word(Word::Inner, at)?;
    let (found, at) = word(Word::Join, at)?;
    Ok((found, at))
}

#[tactic(auto, unfolding(tl_grammar::specs::Grammar::inner_join))]
fn join<'a>(at: Cursor<'a>) -> Result<(u32, Cursor<'a>), Stop>
    ensures { Reads result ((either inner_join (word w.Join)).read (seen at.entry)) }
{
    if is_word(Word::Inner, at) {
        return inner_join(at);
    }
    word(Word::Join, at.missing(Expected::Word))
}

#[tactic(auto, unfolding(tl_grammar::specs::Grammar::joined))]
fn joined<'a>(alloc: Global, at: Cursor<'a>) -> Result<(FromItem, Cursor<'a>), Stop>
    ensures { Reads result ((joined 64).read (seen at.entry)) }
{
    let (_, at) = join(at)?;
    let (item, at) = from_item(alloc, at)?;
    let (_, at) = word(Word::On, at)?;
    let (on, at) = joining(alloc, at)?;
    let found = FromItem {
        table: item.table,
        called: item.called,
        on: Some(on),
    };
    Ok((found, at))
}

#[tactic(auto, unfolding(tl_grammar::specs::Grammar::comma))]
fn comma_from<'a>(alloc: Global, at: Cursor<'a>) -> Result<(FromItem, Cursor<'a>), Stop>
    ensures { Reads result ((comma from_item).read (seen at.entry)) }
{
    let (_, at) = sign(Sign::Comma, at)?;
    let (found, at) = from_item(alloc, at)?;
    Ok((found, at))
}

#[tactic(auto, unfolding(tl_grammar::specs::Grammar::more_from, tl_grammar::specs::Grammar::comma))]
fn next_from<'a>(alloc: Global, at: Cursor<'a>) -> Result<(FromItem, Cursor<'a>), Stop>
    ensures { Reads result ((more_from 64).read (seen at.entry)) }
{
    if is_sign(Sign::Comma, at) {
        return comma_from(alloc, at);
    }
    joined(alloc, at.missing(Expected::Sign))
}

#[tactic(auto, unfolding(tl_grammar::specs::Grammar::more_from, tl_grammar::specs::Grammar::comma, tl_grammar::specs::Grammar::joined, tl_grammar::specs::Grammar::inner_join))]
fn is_next_from(at: Cursor<'_>) -> bool
    ensures { result ≡ starts (more_from 64).begins (seen at.entry).rest }
{
    is_sign(Sign::Comma, at) || is_word(Word::Inner, at) || is_word(Word::Join, at)
}

#[tactic(auto, unfolding(tl_grammar::specs::Grammar::more_from, tl_grammar::specs::Grammar::comma))]
fn many_from<'a>(
    alloc: Global,
    first: FromItem,
    at: Cursor<'a>,
) -> Result<(Items<FromItem>, Cursor<'a>), Stop>
    ensures { Reads result ((row behind (more_from 64) (first ∷ [])).read (seen at.entry)) }
{
    let mut found = Items::new(alloc);
    found.push(first)?;
    let mut here = at;
    for i in 0..at.left() {
        if !is_next_from(here) {
            return Ok((found, here.missing(Expected::Sign)));
        }
        let (next, after) = next_from(alloc, here)?;
        found.push(next)?;
        here = after;
    }
    Ok((found, here.missing(Expected::Sign)))
}

#[tactic(auto, unfolding(tl_grammar::specs::Grammar::from_items))]
pub fn from_items<'a>(alloc: Global, at: Cursor<'a>) -> Result<(Items<FromItem>, Cursor<'a>), Stop>
    ensures { Reads result ((from_items 64).read (seen at.entry)) }
{
    let (first, at) = from_item(alloc, at)?;
    let (found, at) = many_from(alloc, first, at)?;
    Ok((found, at))
}
