//! Conditions.

ghost use Rattle.std.specs.Prelude.{◌≡◌, [], Ok};
ghost use Rattle.tl_grammar.specs.Form.{either, row, starts, some};
ghost use Rattle.tl_grammar.specs.Grammar.{all, all_form, and_part, any, behind, compared, comparison, cond_form, in_brackets, negated, nested, not_form, null_test, optional, or_part, test, where_form};
ghost use Rattle.tl_grammar.specs.Pick.{comparison_kind};
ghost use Rattle.tl_tokens.specs.Lexemes.{kind_of};
ghost use Rattle.tl_tokens.specs.Seen.{Gives, Reads, seen};

use crate::operand::operand;
use std::alloc::Global;
use tl_base::{Boxed, Items};
use tl_grammar::{Cond, Expected, Operand, Sign, Word};
use tl_tokens::{Cursor, Lexeme, LexemeKind, Stop, given_word, is_sign, is_word, sign, word};
use tl_values::Comparison;

/// So many brackets may be open at once, and in a condition so many brackets and NOT.
pub const MOST: u8 = 64;

fn comparison_of(token: Lexeme<'_>) -> Option<Comparison>
    ensures { result ≡ comparison_kind (kind_of token.entry.kind) }
{
    match token.kind {
        LexemeKind::Sign(Sign::Equal) => Some(Comparison::Equal),
        LexemeKind::Sign(Sign::NotEqual) => Some(Comparison::NotEqual),
        LexemeKind::Sign(Sign::Less) => Some(Comparison::Less),
        LexemeKind::Sign(Sign::LessEqual) => Some(Comparison::LessEqual),
        LexemeKind::Sign(Sign::Greater) => Some(Comparison::Greater),
        LexemeKind::Sign(Sign::GreaterEqual) => Some(Comparison::GreaterEqual),
        _ => None,
    }
}

#[tactic(auto, unfolding(tl_grammar::specs::Grammar::comparison))]
fn comparison<'a>(at: Cursor<'a>) -> Result<(Comparison, Cursor<'a>), Stop>
    ensures { Reads result (comparison.read (seen at.entry)) }
{
    match at.rest {
        [token, rest @ ..] => match comparison_of(*token) {
            Some(found) => Ok((found, Cursor { wanted: None, rest })),
            None => Err(at.refused(Expected::Sign)),
        },
        [] => Err(at.refused(Expected::Sign)),
    }
}

#[tactic(auto, unfolding(tl_grammar::specs::Grammar::comparison))]
fn is_comparison(at: Cursor<'_>) -> bool
    ensures { result ≡ starts comparison.begins (seen at.entry).rest }
{
    match at.rest {
        [token, ..] => comparison_of(*token).is_some(),
        [] => false,
    }
}

#[tactic(auto, unfolding(tl_grammar::specs::Grammar::compared))]
fn compared<'a>(alloc: Global, left: Operand, at: Cursor<'a>) -> Result<(Cond, Cursor<'a>), Stop>
    ensures { Reads result ((compared left).read (seen at.entry)) }
{
    let (by, at) = comparison(at)?;
    let (right, at) = operand(alloc, at)?;
    Ok((Cond::Test { left, by, right }, at))
}

#[tactic(auto, unfolding(tl_grammar::specs::Grammar::null_test))]
fn null_test<'a>(of: Operand, at: Cursor<'a>) -> Result<(Cond, Cursor<'a>), Stop>
    ensures { Reads result ((null_test of).read (seen at.entry)) }
{
    let (_, at) = word(Word::Is, at)?;
    let (negated, at) = given_word(Word::Not, at)?;
    let (_, at) = word(Word::Null, at)?;
    Ok((Cond::IsNull { of, negated }, at))
}

#[tactic(auto, unfolding(tl_grammar::specs::Grammar::compared))]
fn tested<'a>(alloc: Global, left: Operand, at: Cursor<'a>) -> Result<(Cond, Cursor<'a>), Stop>
    ensures { Reads result ((either (compared left) (null_test left)).read (seen at.entry)) }
{
    if is_comparison(at) {
        return compared(alloc, left, at);
    }
    null_test(left, at.missing(Expected::Sign))
}

fn test<'a>(alloc: Global, at: Cursor<'a>) -> Result<(Cond, Cursor<'a>), Stop>
    ensures { Reads result (test.read (seen at.entry)) }
{
    let (left, at) = operand(alloc, at)?;
    let (found, at) = tested(alloc, left, at)?;
    Ok((found, at))
}

/// One part is itself.
fn all(alloc: Global, first: Cond, rest: Items<Cond>) -> Result<Cond, Stop>
    ensures { Gives (λ e. e) result (Ok (all first rest)) }
{
    if rest.is_empty() {
        return Ok(first);
    }
    let mut parts = Items::new(alloc);
    parts.push(first)?;
    parts.append(rest)?;
    Ok(Cond::All(parts))
}

/// One part is itself.
fn any(alloc: Global, first: Cond, rest: Items<Cond>) -> Result<Cond, Stop>
    ensures { Gives (λ e. e) result (Ok (any first rest)) }
{
    if rest.is_empty() {
        return Ok(first);
    }
    let mut parts = Items::new(alloc);
    parts.push(first)?;
    parts.append(rest)?;
    Ok(Cond::Any(parts))
}

/// Whether NOT or a bracket stands here.
fn is_nested(at: Cursor<'_>, depth: u8) -> bool
    ensures { result ≡ starts (nested depth).begins (seen at.entry).rest }
{
    let _depth = depth;
    is_word(Word::Not, at) || is_sign(Sign::Open, at)
}

#[tactic(auto, unfolding(tl_grammar::specs::Grammar::nested, tl_grammar::specs::Grammar::sign, tl_grammar::specs::Grammar::word))]
fn no_more_nested<'a>(at: Cursor<'a>) -> Result<(Cond, Cursor<'a>), Stop>
    ensures { Reads result ((nested 0).read (seen at.entry)) }
{
    if is_word(Word::Not, at) {
        return Err(at.deep());
    }
    let at = at.missing(Expected::Word);
    if is_sign(Sign::Open, at) {
        return Err(at.deep());
    }
    Err(at.refused(Expected::Sign))
}

#[cycle(condition)]
#[tactic(auto, unfolding(tl_grammar::specs::Grammar::not_form))]
fn not<'a>(alloc: Global, at: Cursor<'a>, depth: u8) -> Result<(Cond, Cursor<'a>), Stop>
    ensures { Reads result ((not_form (nested depth)).read (seen at.entry)) }
{
    if is_nested(at, depth) {
        return nested(alloc, at, depth);
    }
    test(alloc, at.missing(Expected::Word))
}

#[cycle(condition)]
#[tactic(auto, unfolding(tl_grammar::specs::Grammar::and_part))]
fn and_part<'a>(alloc: Global, at: Cursor<'a>, depth: u8) -> Result<(Cond, Cursor<'a>), Stop>
    ensures { Reads result ((and_part (nested depth)).read (seen at.entry)) }
{
    let (_, at) = word(Word::And, at)?;
    let (found, at) = not(alloc, at, depth)?;
    Ok((found, at))
}

#[cycle(condition)]
#[tactic(auto, unfolding(tl_grammar::specs::Grammar::and_part))]
fn many_and<'a>(alloc: Global, at: Cursor<'a>, depth: u8) -> Result<(Items<Cond>, Cursor<'a>), Stop>
    ensures { Reads result ((row behind (and_part (nested depth)) []).read (seen at.entry)) }
{
    let mut found = Items::new(alloc);
    let mut here = at;
    for i in 0..at.left() {
        if !is_word(Word::And, here) {
            return Ok((found, here.missing(Expected::Word)));
        }
        let (next, after) = and_part(alloc, here, depth)?;
        found.push(next)?;
        here = after;
    }
    Ok((found, here.missing(Expected::Word)))
}

#[cycle(condition)]
#[tactic(auto, unfolding(tl_grammar::specs::Grammar::all_form))]
fn all_form<'a>(alloc: Global, at: Cursor<'a>, depth: u8) -> Result<(Cond, Cursor<'a>), Stop>
    ensures { Reads result ((all_form (nested depth)).read (seen at.entry)) }
{
    let (first, at) = not(alloc, at, depth)?;
    let (rest, at) = many_and(alloc, at, depth)?;
    let whole = all(alloc, first, rest)?;
    Ok((whole, at))
}

#[cycle(condition)]
#[tactic(auto, unfolding(tl_grammar::specs::Grammar::or_part))]
fn or_part<'a>(alloc: Global, at: Cursor<'a>, depth: u8) -> Result<(Cond, Cursor<'a>), Stop>
    ensures { Reads result ((or_part (nested depth)).read (seen at.entry)) }
{
    let (_, at) = word(Word::Or, at)?;
    let (found, at) = all_form(alloc, at, depth)?;
    Ok((found, at))
}

#[cycle(condition)]
#[tactic(auto, unfolding(tl_grammar::specs::Grammar::or_part))]
fn many_or<'a>(alloc: Global, at: Cursor<'a>, depth: u8) -> Result<(Items<Cond>, Cursor<'a>), Stop>
    ensures { Reads result ((row behind (or_part (nested depth)) []).read (seen at.entry)) }
{
    let mut found = Items::new(alloc);
    let mut here = at;
    for i in 0..at.left() {
        if !is_word(Word::Or, here) {
            return Ok((found, here.missing(Expected::Word)));
        }
        let (next, after) = or_part(alloc, here, depth)?;
        found.push(next)?;
        here = after;
    }
    Ok((found, here.missing(Expected::Word)))
}

#[cycle(condition)]
#[tactic(auto, unfolding(tl_grammar::specs::Grammar::cond_form))]
fn condition<'a>(alloc: Global, at: Cursor<'a>, depth: u8) -> Result<(Cond, Cursor<'a>), Stop>
    ensures { Reads result ((cond_form (nested depth)).read (seen at.entry)) }
{
    let (first, at) = all_form(alloc, at, depth)?;
    let (rest, at) = many_or(alloc, at, depth)?;
    let whole = any(alloc, first, rest)?;
    Ok((whole, at))
}

#[cycle(condition)]
#[tactic(auto, unfolding(tl_grammar::specs::Grammar::negated))]
fn negated<'a>(alloc: Global, at: Cursor<'a>, depth: u8) -> Result<(Cond, Cursor<'a>), Stop>
    ensures { Reads result ((negated (nested depth)).read (seen at.entry)) }
{
    let (_, at) = word(Word::Not, at)?;
    let (inner, at) = not(alloc, at, depth)?;
    let inner = Boxed::new(alloc, inner)?;
    Ok((Cond::Not(inner), at))
}

#[cycle(condition)]
#[tactic(auto, unfolding(tl_grammar::specs::Grammar::in_brackets))]
fn condition_in_brackets<'a>(
    alloc: Global,
    at: Cursor<'a>,
    depth: u8,
) -> Result<(Cond, Cursor<'a>), Stop>
    ensures { Reads result ((in_brackets (cond_form (nested depth))).read (seen at.entry)) }
{
    let (_, at) = sign(Sign::Open, at)?;
    let (found, at) = condition(alloc, at, depth)?;
    let (_, at) = sign(Sign::Close, at)?;
    Ok((found, at))
}

#[cycle(condition)]
#[tactic(auto, unfolding(tl_grammar::specs::Grammar::nested))]
fn nested<'a>(alloc: Global, at: Cursor<'a>, depth: u8) -> Result<(Cond, Cursor<'a>), Stop>
    ensures { Reads result ((nested depth).read (seen at.entry)) }
{
    if depth == 0 {
        return no_more_nested(at);
    }
    if is_word(Word::Not, at) {
        return negated(alloc, at, depth - 1);
    }
    condition_in_brackets(alloc, at.missing(Expected::Word), depth - 1)
}

#[tactic(auto, unfolding(tl_grammar::specs::Grammar::where_form))]
fn where_condition<'a>(alloc: Global, at: Cursor<'a>) -> Result<(Cond, Cursor<'a>), Stop>
    ensures { Reads result ((where_form 64).read (seen at.entry)) }
{
    let (_, at) = word(Word::Where, at)?;
    let (found, at) = condition(alloc, at, MOST)?;
    Ok((found, at))
}

/// The condition behind ON.
pub fn joining<'a>(alloc: Global, at: Cursor<'a>) -> Result<(Cond, Cursor<'a>), Stop>
    ensures { Reads result ((cond_form (nested 64)).read (seen at.entry)) }
{
    let (found, at) = condition(alloc, at, MOST)?;
    Ok((found, at))
}

/// The condition behind WHERE, where WHERE stands here.
#[tactic(auto, unfolding(tl_grammar::specs::Grammar::optional, tl_grammar::specs::Grammar::where_form))]
pub fn filter<'a>(alloc: Global, at: Cursor<'a>) -> Result<(Option<Cond>, Cursor<'a>), Stop>
    ensures { Reads result ((optional (where_form 64)).read (seen at.entry)) }
{
    if is_word(Word::Where, at) {
        let (found, at) = where_condition(alloc, at)?;
        return Ok((Some(found), at));
    }
    Ok((None, at.missing(Expected::Word)))
}
