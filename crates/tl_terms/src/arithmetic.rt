//! Expressions.

ghost use Rattle.std.specs.Prelude.{◌≡◌, [], Ok};
ghost use Rattle.tl_grammar.specs.Form.{read_row, row, starts, some};
ghost use Rattle.tl_grammar.specs.Grammar.{behind, bracketed, chain, expr, factor, in_brackets, plain, plus, plus_or_minus, term, times};
ghost use Rattle.tl_grammar.specs.Pick.{sum_kind};
ghost use Rattle.tl_tokens.specs.Lexemes.{kind_of};
ghost use Rattle.tl_tokens.specs.Seen.{Gives, Reads, seen};

use crate::operand::{is_operand, operand};
use std::alloc::Global;
use tl_base::{Boxed, Items};
use tl_grammar::{Expected, Expr, Operator, Sign, Step};
use tl_tokens::{Cursor, Lexeme, LexemeKind, Stop, is_sign, sign};

#[tactic(auto, unfolding(tl_grammar::specs::Grammar::plain))]
fn plain<'a>(alloc: Global, at: Cursor<'a>) -> Result<(Expr, Cursor<'a>), Stop>
    ensures { Reads result (plain.read (seen at.entry)) }
{
    let (found, at) = operand(alloc, at)?;
    Ok((Expr::Operand(found), at))
}

#[tactic(auto, unfolding(tl_grammar::specs::Grammar::plain))]
fn is_plain(at: Cursor<'_>) -> bool
    ensures { result ≡ starts plain.begins (seen at.entry).rest }
{
    is_operand(at)
}

/// A chain of no steps is what it begins with.
fn chain(alloc: Global, first: Expr, rest: Items<Step<Expr>>) -> Result<Expr, Stop>
    ensures { Gives (λ e. e) result (Ok (chain first rest)) }
{
    if rest.is_empty() {
        return Ok(first);
    }
    let first = Boxed::new(alloc, first)?;
    Ok(Expr::Chain { first, rest })
}

#[tactic(auto, unfolding(tl_grammar::specs::Grammar::bracketed, tl_grammar::specs::Grammar::sign))]
fn no_more_brackets<'a>(at: Cursor<'a>) -> Result<(Expr, Cursor<'a>), Stop>
    ensures { Reads result ((bracketed 0).read (seen at.entry)) }
{
    if is_sign(Sign::Open, at) {
        return Err(at.deep());
    }
    Err(at.refused(Expected::Sign))
}

#[cycle(expression)]
#[tactic(auto, unfolding(tl_grammar::specs::Grammar::factor))]
fn factor<'a>(alloc: Global, at: Cursor<'a>, depth: u8) -> Result<(Expr, Cursor<'a>), Stop>
    ensures { Reads result ((factor (bracketed depth)).read (seen at.entry)) }
{
    if is_plain(at) {
        return plain(alloc, at);
    }
    bracketed(alloc, at.missing(Expected::Name), depth)
}

#[cycle(expression)]
#[tactic(auto, unfolding(tl_grammar::specs::Grammar::times))]
fn times<'a>(alloc: Global, at: Cursor<'a>, depth: u8) -> Result<(Step<Expr>, Cursor<'a>), Stop>
    ensures { Reads result ((times (bracketed depth)).read (seen at.entry)) }
{
    let (_, at) = sign(Sign::Star, at)?;
    let (of, at) = factor(alloc, at, depth)?;
    let by = Operator::Multiply;
    Ok((Step { by, of }, at))
}

#[cycle(expression)]
#[tactic(auto, unfolding(tl_grammar::specs::Grammar::times))]
fn many_times<'a>(
    alloc: Global,
    at: Cursor<'a>,
    depth: u8,
) -> Result<(Items<Step<Expr>>, Cursor<'a>), Stop>
    ensures { Reads result ((row behind (times (bracketed depth)) []).read (seen at.entry)) }
{
    let mut found = Items::new(alloc);
    let mut here = at;
    for i in 0..at.left() {
        if !is_sign(Sign::Star, here) {
            return Ok((found, here.missing(Expected::Sign)));
        }
        let (next, after) = times(alloc, here, depth)?;
        found.push(next)?;
        here = after;
    }
    Ok((found, here.missing(Expected::Sign)))
}

#[cycle(expression)]
#[tactic(auto, unfolding(tl_grammar::specs::Grammar::term))]
fn term<'a>(alloc: Global, at: Cursor<'a>, depth: u8) -> Result<(Expr, Cursor<'a>), Stop>
    ensures { Reads result ((term (bracketed depth)).read (seen at.entry)) }
{
    let (first, at) = factor(alloc, at, depth)?;
    let (rest, at) = many_times(alloc, at, depth)?;
    let whole = chain(alloc, first, rest)?;
    Ok((whole, at))
}

fn plus_or_minus_of(token: Lexeme<'_>) -> Option<Operator>
    ensures { result ≡ sum_kind (kind_of token.entry.kind) }
{
    match token.kind {
        LexemeKind::Sign(Sign::Plus) => Some(Operator::Add),
        LexemeKind::Sign(Sign::Minus) => Some(Operator::Subtract),
        _ => None,
    }
}

#[tactic(auto, unfolding(tl_grammar::specs::Grammar::plus_or_minus))]
fn plus_or_minus<'a>(at: Cursor<'a>) -> Result<(Operator, Cursor<'a>), Stop>
    ensures { Reads result (plus_or_minus.read (seen at.entry)) }
{
    match at.rest {
        [token, rest @ ..] => match plus_or_minus_of(*token) {
            Some(found) => Ok((found, Cursor { wanted: None, rest })),
            None => Err(at.refused(Expected::Sign)),
        },
        [] => Err(at.refused(Expected::Sign)),
    }
}

#[tactic(auto, unfolding(tl_grammar::specs::Grammar::plus_or_minus))]
fn is_plus_or_minus(at: Cursor<'_>) -> bool
    ensures { result ≡ starts plus_or_minus.begins (seen at.entry).rest }
{
    match at.rest {
        [token, ..] => plus_or_minus_of(*token).is_some(),
        [] => false,
    }
}

#[cycle(expression)]
#[tactic(auto, unfolding(tl_grammar::specs::Grammar::plus))]
fn plus<'a>(alloc: Global, at: Cursor<'a>, depth: u8) -> Result<(Step<Expr>, Cursor<'a>), Stop>
    ensures { Reads result ((plus (bracketed depth)).read (seen at.entry)) }
{
    let (by, at) = plus_or_minus(at)?;
    let (of, at) = term(alloc, at, depth)?;
    Ok((Step { by, of }, at))
}

#[cycle(expression)]
#[tactic(auto, unfolding(tl_grammar::specs::Grammar::plus))]
fn many_plus<'a>(
    alloc: Global,
    at: Cursor<'a>,
    depth: u8,
) -> Result<(Items<Step<Expr>>, Cursor<'a>), Stop>
    ensures { Reads result ((row behind (plus (bracketed depth)) []).read (seen at.entry)) }
{
    let mut found = Items::new(alloc);
    let mut here = at;
    for i in 0..at.left() {
        if !is_plus_or_minus(here) {
            return Ok((found, here.missing(Expected::Sign)));
        }
        let (next, after) = plus(alloc, here, depth)?;
        found.push(next)?;
        here = after;
    }
    Ok((found, here.missing(Expected::Sign)))
}

/// An expression in which at most this many brackets are open at once.
#[cycle(expression)]
#[tactic(auto, unfolding(tl_grammar::specs::Grammar::expr))]
pub fn expression<'a>(alloc: Global, at: Cursor<'a>, depth: u8) -> Result<(Expr, Cursor<'a>), Stop>
    ensures { Reads result ((expr (bracketed depth)).read (seen at.entry)) }
{
    let (first, at) = term(alloc, at, depth)?;
    let (rest, at) = many_plus(alloc, at, depth)?;
    let whole = chain(alloc, first, rest)?;
    Ok((whole, at))
}

#[cycle(expression)]
#[tactic(auto, unfolding(tl_grammar::specs::Grammar::bracketed, tl_grammar::specs::Grammar::in_brackets))]
fn bracketed<'a>(alloc: Global, at: Cursor<'a>, depth: u8) -> Result<(Expr, Cursor<'a>), Stop>
    ensures { Reads result ((bracketed depth).read (seen at.entry)) }
{
    if depth == 0 {
        return no_more_brackets(at);
    }
    let (_, at) = sign(Sign::Open, at)?;
    let (inner, at) = expression(alloc, at, depth - 1)?;
    let (_, at) = sign(Sign::Close, at)?;
    Ok((inner, at))
}

/// Whether an expression begins here.
#[tactic(auto, unfolding(tl_grammar::specs::Grammar::expr, tl_grammar::specs::Grammar::term, tl_grammar::specs::Grammar::factor, tl_grammar::specs::Grammar::bracketed, tl_grammar::specs::Grammar::in_brackets))]
pub fn is_expression(at: Cursor<'_>) -> bool
    ensures { result ≡ starts (expr (bracketed 64)).begins (seen at.entry).rest }
{
    is_plain(at) || is_sign(Sign::Open, at)
}
