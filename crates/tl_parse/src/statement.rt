//! Statements.

ghost use Rattle.std.specs.Prelude.{◌≡◌};
ghost use Rattle.tl_grammar.specs.Form.{either, nothing, starts, some};
ghost use Rattle.tl_grammar.specs.Grammar.{begin, commit, create, delete, ending, given, insert, node, recover, rollback, select, sentence, sign, statement_form, update};
ghost use Rattle.tl_grammar.specs.Pick.{node_kind};
ghost use Rattle.tl_tokens.specs.Lexemes.{kind_of};
ghost use Rattle.tl_tokens.specs.Seen.{Reads, seen};

use crate::create::create;
use crate::insert::insert;
use crate::select::select;
use crate::update::{delete, update};
use std::alloc::Global;
use tl_base::NodeId;
use tl_grammar::{Expected, Sign, Statement, Word};
use tl_tokens::{Cursor, Lexeme, LexemeKind, Stop, given_sign, is_word, word};

#[tactic(auto, unfolding(tl_grammar::specs::Grammar::begin))]
fn begin<'a>(at: Cursor<'a>) -> Result<(Statement, Cursor<'a>), Stop>
    ensures { Reads result (begin.read (seen at.entry)) }
{
    let (_, at) = word(Word::Begin, at)?;
    Ok((Statement::Begin, at))
}

#[tactic(auto, unfolding(tl_grammar::specs::Grammar::commit))]
fn commit<'a>(at: Cursor<'a>) -> Result<(Statement, Cursor<'a>), Stop>
    ensures { Reads result (commit.read (seen at.entry)) }
{
    let (_, at) = word(Word::Commit, at)?;
    Ok((Statement::Commit, at))
}

#[tactic(auto, unfolding(tl_grammar::specs::Grammar::rollback))]
fn rollback<'a>(at: Cursor<'a>) -> Result<(Statement, Cursor<'a>), Stop>
    ensures { Reads result (rollback.read (seen at.entry)) }
{
    let (_, at) = word(Word::Rollback, at)?;
    Ok((Statement::Rollback, at))
}

/// From 1 to 16.
fn node_of(token: Lexeme<'_>) -> Option<NodeId>
    ensures { result ≡ node_kind (kind_of token.entry.kind) }
{
    match token.kind {
        LexemeKind::Number(n) => NodeId::new(n),
        _ => None,
    }
}

#[tactic(auto, unfolding(tl_grammar::specs::Grammar::node))]
fn node<'a>(at: Cursor<'a>) -> Result<(NodeId, Cursor<'a>), Stop>
    ensures { Reads result (node.read (seen at.entry)) }
{
    match at.rest {
        [token, rest @ ..] => match node_of(*token) {
            Some(found) => Ok((found, Cursor { wanted: None, rest })),
            None => Err(at.refused(Expected::Number)),
        },
        [] => Err(at.refused(Expected::Number)),
    }
}

#[tactic(auto, unfolding(tl_grammar::specs::Grammar::recover))]
fn recover<'a>(at: Cursor<'a>) -> Result<(Statement, Cursor<'a>), Stop>
    ensures { Reads result (recover.read (seen at.entry)) }
{
    let (_, at) = word(Word::Recover, at)?;
    match node(at) {
        Ok((node, at)) => Ok((Statement::Recover { node }, at)),
        Err(stop) => Err(stop),
    }
}

#[tactic(auto, unfolding(tl_grammar::specs::Grammar::rollback))]
fn rollback_or_recover<'a>(at: Cursor<'a>) -> Result<(Statement, Cursor<'a>), Stop>
    ensures { Reads result ((either rollback recover).read (seen at.entry)) }
{
    if is_word(Word::Rollback, at) {
        return rollback(at);
    }
    recover(at.missing(Expected::Word))
}

#[tactic(auto, unfolding(tl_grammar::specs::Grammar::commit))]
fn commit_or_later<'a>(at: Cursor<'a>) -> Result<(Statement, Cursor<'a>), Stop>
    ensures { Reads result ((either commit (either rollback recover)).read (seen at.entry)) }
{
    if is_word(Word::Commit, at) {
        return commit(at);
    }
    rollback_or_recover(at.missing(Expected::Word))
}

#[tactic(auto, unfolding(tl_grammar::specs::Grammar::begin))]
fn begin_or_later<'a>(at: Cursor<'a>) -> Result<(Statement, Cursor<'a>), Stop>
    ensures { Reads result ((either begin (either commit (either rollback recover))).read (seen at.entry)) }
{
    if is_word(Word::Begin, at) {
        return begin(at);
    }
    commit_or_later(at.missing(Expected::Word))
}

#[tactic(auto, unfolding(tl_grammar::specs::Grammar::select))]
fn select_or_later<'a>(alloc: Global, at: Cursor<'a>) -> Result<(Statement, Cursor<'a>), Stop>
    ensures { Reads result ((either (select 64) (either begin (either commit (either rollback recover)))).read (seen at.entry)) }
{
    if is_word(Word::Select, at) {
        return select(alloc, at);
    }
    begin_or_later(at.missing(Expected::Word))
}

#[tactic(auto, unfolding(tl_grammar::specs::Grammar::delete))]
fn delete_or_later<'a>(alloc: Global, at: Cursor<'a>) -> Result<(Statement, Cursor<'a>), Stop>
    ensures { Reads result ((either (delete 64) (either (select 64) (either begin (either commit (either rollback recover))))).read (seen at.entry)) }
{
    if is_word(Word::Delete, at) {
        return delete(alloc, at);
    }
    select_or_later(alloc, at.missing(Expected::Word))
}

#[tactic(auto, unfolding(tl_grammar::specs::Grammar::update))]
fn update_or_later<'a>(alloc: Global, at: Cursor<'a>) -> Result<(Statement, Cursor<'a>), Stop>
    ensures { Reads result ((either (update 64) (either (delete 64) (either (select 64) (either begin (either commit (either rollback recover)))))).read (seen at.entry)) }
{
    if is_word(Word::Update, at) {
        return update(alloc, at);
    }
    delete_or_later(alloc, at.missing(Expected::Word))
}

#[tactic(auto, unfolding(tl_grammar::specs::Grammar::insert))]
fn insert_or_later<'a>(alloc: Global, at: Cursor<'a>) -> Result<(Statement, Cursor<'a>), Stop>
    ensures { Reads result ((either insert (either (update 64) (either (delete 64) (either (select 64) (either begin (either commit (either rollback recover))))))).read (seen at.entry)) }
{
    if is_word(Word::Insert, at) {
        return insert(alloc, at);
    }
    update_or_later(alloc, at.missing(Expected::Word))
}

#[tactic(auto, unfolding(tl_grammar::specs::Grammar::statement_form, tl_grammar::specs::Grammar::create))]
fn statement<'a>(alloc: Global, at: Cursor<'a>) -> Result<(Statement, Cursor<'a>), Stop>
    ensures { Reads result ((statement_form 64).read (seen at.entry)) }
{
    if is_word(Word::Create, at) {
        return create(alloc, at);
    }
    insert_or_later(alloc, at.missing(Expected::Word))
}

#[tactic(auto, unfolding(tl_grammar::specs::Grammar::ending))]
fn ending<'a>(at: Cursor<'a>) -> Result<(bool, Cursor<'a>), Stop>
    ensures { Reads result (ending.read (seen at.entry)) }
{
    given_sign(Sign::Semicolon, at.missing(Expected::End))
}

#[tactic(auto, unfolding(tl_grammar::specs::Grammar::sentence))]
pub fn sentence<'a>(alloc: Global, at: Cursor<'a>) -> Result<(Statement, Cursor<'a>), Stop>
    ensures { Reads result ((sentence 64).read (seen at.entry)) }
{
    let (found, at) = statement(alloc, at)?;
    let (_, at) = ending(at)?;
    Ok((found, at))
}
