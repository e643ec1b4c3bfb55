//! Columns, literals and lists of names.

ghost use Rattle.std.specs.Prelude.{◌≡◌, ◌≤◌, ◌^◌, [], ◌∷◌, IfOk};
ghost use Rattle.tl_grammar.specs.Form.{row, starts, some};
ghost use Rattle.tl_grammar.specs.Grammar.{behind, column, column_of, comma, constant, dot_name, in_brackets, list, literal, literal_operand, column_operand, name, names, negative, negative_number, operand_form, optional, positive, text};
ghost use Rattle.tl_grammar.specs.Pick.{constant_kind, minus, negative_kind, positive_kind, text_kind};
ghost use Rattle.tl_tokens.specs.Lexemes.{kind_of};
ghost use Rattle.tl_tokens.specs.Seen.{Reads, seen};

use std::alloc::Global;
use tl_base::{Items, NoMemory};
use tl_grammar::{ColumnName, Expected, Literal, Name, Operand, Sign, Word};
use tl_tokens::{Cursor, Lexeme, LexemeKind, Stop, is_name, is_sign, name, sign, unquoted};
use tl_values::Value;

#[tactic(auto, unfolding(tl_grammar::specs::Grammar::dot_name))]
fn dot_name<'a>(alloc: Global, at: Cursor<'a>) -> Result<(Name, Cursor<'a>), Stop>
    ensures { Reads result (dot_name.read (seen at.entry)) }
{
    let (_, at) = sign(Sign::Dot, at)?;
    let (found, at) = name(alloc, at)?;
    Ok((found, at))
}

#[tactic(auto, unfolding(tl_grammar::specs::Grammar::optional, tl_grammar::specs::Grammar::dot_name))]
fn second_name<'a>(alloc: Global, at: Cursor<'a>) -> Result<(Option<Name>, Cursor<'a>), Stop>
    ensures { Reads result ((optional dot_name).read (seen at.entry)) }
{
    if is_sign(Sign::Dot, at) {
        let (found, at) = dot_name(alloc, at)?;
        return Ok((Some(found), at));
    }
    Ok((None, at.missing(Expected::Sign)))
}

fn column_of(first: Name, second: Option<Name>) -> ColumnName
    ensures { result ≡ column_of first second }
{
    match second {
        Some(second) => ColumnName {
            table: Some(first),
            column: second,
        },
        None => ColumnName {
            table: None,
            column: first,
        },
    }
}

/// A column, with its table's name where that and a dot stand before it.
#[tactic(auto, unfolding(tl_grammar::specs::Grammar::column))]
pub fn column<'a>(alloc: Global, at: Cursor<'a>) -> Result<(ColumnName, Cursor<'a>), Stop>
    ensures { Reads result (column.read (seen at.entry)) }
{
    let (first, at) = name(alloc, at)?;
    let (second, at) = second_name(alloc, at)?;
    Ok((column_of(first, second), at))
}

/// Whether a column begins here.
#[tactic(auto, unfolding(tl_grammar::specs::Grammar::column))]
pub fn is_column(at: Cursor<'_>) -> bool
    ensures { result ≡ starts column.begins (seen at.entry).rest }
{
    is_name(at)
}

#[tactic(auto, unfolding(tl_grammar::specs::Grammar::comma))]
fn comma_name<'a>(alloc: Global, at: Cursor<'a>) -> Result<(Name, Cursor<'a>), Stop>
    ensures { Reads result ((comma name).read (seen at.entry)) }
{
    let (_, at) = sign(Sign::Comma, at)?;
    let (found, at) = name(alloc, at)?;
    Ok((found, at))
}

#[tactic(auto, unfolding(tl_grammar::specs::Grammar::comma))]
fn more_names<'a>(
    alloc: Global,
    first: Name,
    at: Cursor<'a>,
) -> Result<(Items<Name>, Cursor<'a>), Stop>
    ensures { Reads result ((row behind (comma name) (first ∷ [])).read (seen at.entry)) }
{
    let mut found = Items::new(alloc);
    found.push(first)?;
    let mut here = at;
    for i in 0..at.left() {
        if !is_sign(Sign::Comma, here) {
            return Ok((found, here.missing(Expected::Sign)));
        }
        let (next, after) = comma_name(alloc, here)?;
        found.push(next)?;
        here = after;
    }
    Ok((found, here.missing(Expected::Sign)))
}

#[tactic(auto, unfolding(tl_grammar::specs::Grammar::list))]
fn name_list<'a>(alloc: Global, at: Cursor<'a>) -> Result<(Items<Name>, Cursor<'a>), Stop>
    ensures { Reads result ((list name).read (seen at.entry)) }
{
    let (first, at) = name(alloc, at)?;
    let (found, at) = more_names(alloc, first, at)?;
    Ok((found, at))
}

/// One name or more in brackets, with commas between them.
#[tactic(auto, unfolding(tl_grammar::specs::Grammar::names, tl_grammar::specs::Grammar::in_brackets))]
pub fn names<'a>(alloc: Global, at: Cursor<'a>) -> Result<(Items<Name>, Cursor<'a>), Stop>
    ensures { Reads result (names.read (seen at.entry)) }
{
    let (_, at) = sign(Sign::Open, at)?;
    let (found, at) = name_list(alloc, at)?;
    let (_, at) = sign(Sign::Close, at)?;
    Ok((found, at))
}

fn negative_of(token: Lexeme<'_>) -> Option<Value>
    ensures { result ≡ negative_kind (kind_of token.entry.kind) }
{
    match token.kind {
        LexemeKind::Number(n) => {
            if n <= 1 << 63 {
                Some(Value::Int(minus(n)))
            } else {
                None
            }
        }
        _ => None,
    }
}

fn minus(n: u64) -> i64
    requires { n ≤ 2 ^ 63 }
    ensures { result ≡ minus n }
{
    if n == 0 {
        return 0;
    }
    -1 - (n - 1) as i64
}

#[tactic(auto, unfolding(tl_grammar::specs::Grammar::negative_number))]
fn negative_number<'a>(at: Cursor<'a>) -> Result<(Value, Cursor<'a>), Stop>
    ensures { Reads result (negative_number.read (seen at.entry)) }
{
    match at.rest {
        [token, rest @ ..] => match negative_of(*token) {
            Some(found) => Ok((found, Cursor { wanted: None, rest })),
            None => Err(at.refused(Expected::Number)),
        },
        [] => Err(at.refused(Expected::Number)),
    }
}

#[tactic(auto, unfolding(tl_grammar::specs::Grammar::negative))]
fn negative<'a>(at: Cursor<'a>) -> Result<(Literal, Cursor<'a>), Stop>
    ensures { Reads result (negative.read (seen at.entry)) }
{
    let (start, at) = sign(Sign::Minus, at)?;
    let (value, at) = negative_number(at)?;
    Ok((Literal { at: start, value }, at))
}

#[tactic(auto, unfolding(tl_grammar::specs::Grammar::negative))]
fn is_negative(at: Cursor<'_>) -> bool
    ensures { result ≡ starts negative.begins (seen at.entry).rest }
{
    is_sign(Sign::Minus, at)
}

fn positive_of(token: Lexeme<'_>) -> Option<Literal>
    ensures { result ≡ positive_kind token.entry.start (kind_of token.entry.kind) }
{
    match token.kind {
        LexemeKind::Number(n) => {
            if n < 1 << 63 {
                Some(Literal {
                    at: token.start,
                    value: Value::Int(n as i64),
                })
            } else {
                None
            }
        }
        _ => None,
    }
}

#[tactic(auto, unfolding(tl_grammar::specs::Grammar::positive))]
fn positive<'a>(at: Cursor<'a>) -> Result<(Literal, Cursor<'a>), Stop>
    ensures { Reads result (positive.read (seen at.entry)) }
{
    match at.rest {
        [token, rest @ ..] => match positive_of(*token) {
            Some(found) => Ok((found, Cursor { wanted: None, rest })),
            None => Err(at.refused(Expected::Number)),
        },
        [] => Err(at.refused(Expected::Number)),
    }
}

fn is_a_positive(token: Lexeme<'_>) -> bool
    ensures { result ≡ some (positive_kind token.entry.start (kind_of token.entry.kind)) }
{
    match token.kind {
        LexemeKind::Number(n) => n < 1 << 63,
        _ => false,
    }
}

#[tactic(auto, unfolding(tl_grammar::specs::Grammar::positive))]
fn is_positive(at: Cursor<'_>) -> bool
    ensures { result ≡ starts positive.begins (seen at.entry).rest }
{
    match at.rest {
        [token, ..] => is_a_positive(*token),
        [] => false,
    }
}

fn text_of(alloc: Global, token: Lexeme<'_>) -> Result<Option<Literal>, NoMemory>
    ensures { IfOk result (λ found. found ≡ text_kind token.entry.start (kind_of token.entry.kind)) }
{
    match token.kind {
        LexemeKind::Text(quoted) => {
            let text = unquoted(alloc, quoted)?;
            Ok(Some(Literal {
                at: token.start,
                value: Value::Text(text),
            }))
        }
        _ => Ok(None),
    }
}

#[tactic(auto, unfolding(tl_grammar::specs::Grammar::text))]
fn text<'a>(alloc: Global, at: Cursor<'a>) -> Result<(Literal, Cursor<'a>), Stop>
    ensures { Reads result (text.read (seen at.entry)) }
{
    match at.rest {
        [token, rest @ ..] => match text_of(alloc, *token)? {
            Some(found) => Ok((found, Cursor { wanted: None, rest })),
            None => Err(at.refused(Expected::Word)),
        },
        [] => Err(at.refused(Expected::Word)),
    }
}

fn is_a_text(token: Lexeme<'_>) -> bool
    ensures { result ≡ some (text_kind token.entry.start (kind_of token.entry.kind)) }
{
    matches!(token.kind, LexemeKind::Text(_))
}

#[tactic(auto, unfolding(tl_grammar::specs::Grammar::text))]
fn is_text(at: Cursor<'_>) -> bool
    ensures { result ≡ starts text.begins (seen at.entry).rest }
{
    match at.rest {
        [token, ..] => is_a_text(*token),
        [] => false,
    }
}

/// TRUE, FALSE or NULL.
fn constant_of(token: Lexeme<'_>) -> Option<Literal>
    ensures { result ≡ constant_kind token.entry.start (kind_of token.entry.kind) }
{
    let at = token.start;
    match token.kind {
        LexemeKind::Word(Word::True) => Some(Literal {
            at,
            value: Value::Bool(true),
        }),
        LexemeKind::Word(Word::False) => Some(Literal {
            at,
            value: Value::Bool(false),
        }),
        LexemeKind::Word(Word::Null) => Some(Literal {
            at,
            value: Value::Null,
        }),
        _ => None,
    }
}

#[tactic(auto, unfolding(tl_grammar::specs::Grammar::constant))]
fn constant<'a>(at: Cursor<'a>) -> Result<(Literal, Cursor<'a>), Stop>
    ensures { Reads result (constant.read (seen at.entry)) }
{
    match at.rest {
        [token, rest @ ..] => match constant_of(*token) {
            Some(found) => Ok((found, Cursor { wanted: None, rest })),
            None => Err(at.refused(Expected::Word)),
        },
        [] => Err(at.refused(Expected::Word)),
    }
}

fn is_a_constant(token: Lexeme<'_>) -> bool
    ensures { result ≡ some (constant_kind token.entry.start (kind_of token.entry.kind)) }
{
    matches!(
        token.kind,
        LexemeKind::Word(Word::True | Word::False | Word::Null)
    )
}

#[tactic(auto, unfolding(tl_grammar::specs::Grammar::constant))]
fn is_constant(at: Cursor<'_>) -> bool
    ensures { result ≡ starts constant.begins (seen at.entry).rest }
{
    match at.rest {
        [token, ..] => is_a_constant(*token),
        [] => false,
    }
}

/// A literal, with the byte at which it begins: a number with its sign, a text, TRUE, FALSE or NULL.
#[tactic(auto, unfolding(tl_grammar::specs::Grammar::literal))]
pub fn literal<'a>(alloc: Global, at: Cursor<'a>) -> Result<(Literal, Cursor<'a>), Stop>
    ensures { Reads result (literal.read (seen at.entry)) }
{
    if is_negative(at) {
        return negative(at);
    }
    let at = at.missing(Expected::Sign);
    if is_positive(at) {
        return positive(at);
    }
    let at = at.missing(Expected::Number);
    if is_text(at) {
        return text(alloc, at);
    }
    constant(at.missing(Expected::Word))
}

#[tactic(auto, unfolding(tl_grammar::specs::Grammar::literal))]
fn is_literal(at: Cursor<'_>) -> bool
    ensures { result ≡ starts literal.begins (seen at.entry).rest }
{
    is_negative(at) || is_positive(at) || is_text(at) || is_constant(at)
}

#[tactic(auto, unfolding(tl_grammar::specs::Grammar::column_operand))]
fn column_operand<'a>(alloc: Global, at: Cursor<'a>) -> Result<(Operand, Cursor<'a>), Stop>
    ensures { Reads result (column_operand.read (seen at.entry)) }
{
    let (found, at) = column(alloc, at)?;
    Ok((Operand::Column(found), at))
}

#[tactic(auto, unfolding(tl_grammar::specs::Grammar::literal_operand))]
fn literal_operand<'a>(alloc: Global, at: Cursor<'a>) -> Result<(Operand, Cursor<'a>), Stop>
    ensures { Reads result (literal_operand.read (seen at.entry)) }
{
    let (found, at) = literal(alloc, at)?;
    Ok((Operand::Literal(found), at))
}

/// A column or a literal.
#[tactic(auto, unfolding(tl_grammar::specs::Grammar::operand_form, tl_grammar::specs::Grammar::column_operand))]
pub fn operand<'a>(alloc: Global, at: Cursor<'a>) -> Result<(Operand, Cursor<'a>), Stop>
    ensures { Reads result (operand_form.read (seen at.entry)) }
{
    if is_column(at) {
        return column_operand(alloc, at);
    }
    literal_operand(alloc, at.missing(Expected::Name))
}

/// Whether a column or a literal begins here.
#[tactic(auto, unfolding(tl_grammar::specs::Grammar::operand_form, tl_grammar::specs::Grammar::column_operand, tl_grammar::specs::Grammar::literal_operand))]
pub fn is_operand(at: Cursor<'_>) -> bool
    ensures { result ≡ starts operand_form.begins (seen at.entry).rest }
{
    is_column(at) || is_literal(at)
}
