//! CREATE TABLE and CREATE INDEX.

ghost use Rattle.std.specs.Prelude.{◌≡◌, [], ◌∷◌, None, Ok};
ghost use Rattle.tl_grammar.specs.Form.{either, row_by, starts, some};
ghost use Rattle.tl_grammar.specs.Grammar.{behind, column_entry, column_form, comma, create, create_index, create_table, entries, entry, given, in_brackets, key_entry, not_null, primary_key, type_form, with_entry};
ghost use Rattle.tl_grammar.specs.Pick.{type_kind};
ghost use Rattle.tl_parse.specs.Entries.{ReadsEntry, entry_of};
ghost use Rattle.tl_tokens.specs.Lexemes.{kind_of};
ghost use Rattle.tl_tokens.specs.Seen.{Gives, Reads, seen};

use std::alloc::Global;
use tl_base::Items;
use tl_grammar::{ColumnForm, Expected, Name, Sign, Statement, Word};
use tl_terms::names;
use tl_tokens::{Cursor, Lexeme, LexemeKind, Stop, is_name, is_sign, is_word, name, sign, word};
use tl_values::Kind;

fn type_of(token: Lexeme<'_>) -> Option<Kind>
    ensures { result ≡ type_kind (kind_of token.entry.kind) }
{
    match token.kind {
        LexemeKind::Word(Word::Int) => Some(Kind::Int),
        LexemeKind::Word(Word::Integer) => Some(Kind::Int),
        LexemeKind::Word(Word::Text) => Some(Kind::Text),
        LexemeKind::Word(Word::Bool) => Some(Kind::Bool),
        LexemeKind::Word(Word::Boolean) => Some(Kind::Bool),
        _ => None,
    }
}

#[tactic(auto, unfolding(tl_grammar::specs::Grammar::type_form))]
fn type_form<'a>(at: Cursor<'a>) -> Result<(Kind, Cursor<'a>), Stop>
    ensures { Reads result (type_form.read (seen at.entry)) }
{
    match at.rest {
        [token, rest @ ..] => match type_of(*token) {
            Some(found) => Ok((found, Cursor { wanted: None, rest })),
            None => Err(at.refused(Expected::Word)),
        },
        [] => Err(at.refused(Expected::Word)),
    }
}

#[tactic(auto, unfolding(tl_grammar::specs::Grammar::not_null))]
fn not_null<'a>(at: Cursor<'a>) -> Result<(u32, Cursor<'a>), Stop>
    ensures { Reads result (not_null.read (seen at.entry)) }
{
    let (_, at) = word(Word::Not, at)?;
    let (found, at) = word(Word::Null, at)?;
    Ok((found, at))
}

#[tactic(auto, unfolding(tl_grammar::specs::Grammar::primary_key))]
fn primary_key<'a>(at: Cursor<'a>) -> Result<(u32, Cursor<'a>), Stop>
    ensures { Reads result (primary_key.read (seen at.entry)) }
{
    let (_, at) = word(Word::Primary, at)?;
    let (found, at) = word(Word::Key, at)?;
    Ok((found, at))
}

#[tactic(auto, unfolding(tl_grammar::specs::Grammar::given, tl_grammar::specs::Grammar::not_null))]
fn given_not_null<'a>(at: Cursor<'a>) -> Result<(bool, Cursor<'a>), Stop>
    ensures { Reads result ((given not_null).read (seen at.entry)) }
{
    if is_word(Word::Not, at) {
        let (_, at) = not_null(at)?;
        return Ok((true, at));
    }
    Ok((false, at.missing(Expected::Word)))
}

#[tactic(auto, unfolding(tl_grammar::specs::Grammar::given, tl_grammar::specs::Grammar::primary_key))]
fn given_primary_key<'a>(at: Cursor<'a>) -> Result<(bool, Cursor<'a>), Stop>
    ensures { Reads result ((given primary_key).read (seen at.entry)) }
{
    if is_word(Word::Primary, at) {
        let (_, at) = primary_key(at)?;
        return Ok((true, at));
    }
    Ok((false, at.missing(Expected::Word)))
}

#[tactic(auto, unfolding(tl_grammar::specs::Grammar::column_form))]
fn column_form<'a>(alloc: Global, at: Cursor<'a>) -> Result<(ColumnForm, Cursor<'a>), Stop>
    ensures { Reads result (column_form.read (seen at.entry)) }
{
    let (name, at) = name(alloc, at)?;
    let (kind, at) = type_form(at)?;
    let (not_null, at) = given_not_null(at)?;
    let (primary, at) = given_primary_key(at)?;
    let found = ColumnForm {
        name,
        kind,
        not_null,
        primary,
    };
    Ok((found, at))
}

/// What stands between the brackets behind the first column.
#[derive(Drop)]
enum Entry {
    Column(ColumnForm),
    Key(Items<Name>),
}

#[tactic(auto, unfolding(tl_grammar::specs::Grammar::column_entry))]
fn column_entry<'a>(alloc: Global, at: Cursor<'a>) -> Result<(Entry, Cursor<'a>), Stop>
    ensures { ReadsEntry result (column_entry.read (seen at.entry)) }
{
    let (found, at) = column_form(alloc, at)?;
    Ok((Entry::Column(found), at))
}

#[tactic(auto, unfolding(tl_grammar::specs::Grammar::key_entry))]
fn key_entry<'a>(alloc: Global, at: Cursor<'a>) -> Result<(Entry, Cursor<'a>), Stop>
    ensures { ReadsEntry result (key_entry.read (seen at.entry)) }
{
    let (_, at) = primary_key(at)?;
    let (found, at) = names(alloc, at)?;
    Ok((Entry::Key(found), at))
}

#[tactic(auto, unfolding(tl_grammar::specs::Grammar::column_entry, tl_grammar::specs::Grammar::column_form))]
fn one_entry<'a>(alloc: Global, at: Cursor<'a>) -> Result<(Entry, Cursor<'a>), Stop>
    ensures { ReadsEntry result ((either column_entry key_entry).read (seen at.entry)) }
{
    if is_name(at) {
        return column_entry(alloc, at);
    }
    key_entry(alloc, at.missing(Expected::Name))
}

#[tactic(auto, unfolding(tl_grammar::specs::Grammar::entry, tl_grammar::specs::Grammar::comma))]
fn next_entry<'a>(alloc: Global, at: Cursor<'a>) -> Result<(Entry, Cursor<'a>), Stop>
    ensures { ReadsEntry result ((entry None).read (seen at.entry)) }
{
    let (_, at) = sign(Sign::Comma, at)?;
    let (found, at) = one_entry(alloc, at)?;
    Ok((found, at))
}

/// The columns, and the primary key where one stands behind them.
type Columns = (Items<ColumnForm>, Option<Items<Name>>);

/// Behind the primary key nothing more comes.
fn more_entries<'a>(
    alloc: Global,
    first: ColumnForm,
    at: Cursor<'a>,
) -> Result<(Columns, Cursor<'a>), Stop>
    ensures { Reads result ((row_by with_entry (λ so_far. entry so_far.1) (first ∷ [], None)).read (seen at.entry)) }
{
    let mut columns = Items::new(alloc);
    columns.push(first)?;
    let mut here = at;
    for i in 0..at.left() {
        if !is_sign(Sign::Comma, here) {
            return Ok(((columns, None), here.missing(Expected::Sign)));
        }
        let (next, after) = next_entry(alloc, here)?;
        match next {
            Entry::Column(column) => columns.push(column)?,
            Entry::Key(key) => {
                return Ok(((columns, Some(key)), after.missing(Expected::Sign)));
            }
        }
        here = after;
    }
    Ok(((columns, None), here.missing(Expected::Sign)))
}

#[tactic(auto, unfolding(tl_grammar::specs::Grammar::entries))]
fn entries<'a>(alloc: Global, at: Cursor<'a>) -> Result<(Columns, Cursor<'a>), Stop>
    ensures { Reads result (entries.read (seen at.entry)) }
{
    let (first, at) = column_form(alloc, at)?;
    let (found, at) = more_entries(alloc, first, at)?;
    Ok((found, at))
}

#[tactic(auto, unfolding(tl_grammar::specs::Grammar::in_brackets))]
fn entries_in_brackets<'a>(alloc: Global, at: Cursor<'a>) -> Result<(Columns, Cursor<'a>), Stop>
    ensures { Reads result ((in_brackets entries).read (seen at.entry)) }
{
    let (_, at) = sign(Sign::Open, at)?;
    let (found, at) = entries(alloc, at)?;
    let (_, at) = sign(Sign::Close, at)?;
    Ok((found, at))
}

#[tactic(auto, unfolding(tl_grammar::specs::Grammar::create_table))]
fn create_table<'a>(alloc: Global, at: Cursor<'a>) -> Result<(Statement, Cursor<'a>), Stop>
    ensures { Reads result (create_table.read (seen at.entry)) }
{
    let (_, at) = word(Word::Table, at)?;
    let (name, at) = name(alloc, at)?;
    let ((columns, key), at) = entries_in_brackets(alloc, at)?;
    Ok((Statement::CreateTable { name, columns, key }, at))
}

#[tactic(auto, unfolding(tl_grammar::specs::Grammar::create_index))]
fn create_index<'a>(alloc: Global, at: Cursor<'a>) -> Result<(Statement, Cursor<'a>), Stop>
    ensures { Reads result (create_index.read (seen at.entry)) }
{
    let (_, at) = word(Word::Index, at)?;
    let (index, at) = name(alloc, at)?;
    let (_, at) = word(Word::On, at)?;
    let (table, at) = name(alloc, at)?;
    let (columns, at) = names(alloc, at)?;
    let found = Statement::CreateIndex {
        name: index,
        table,
        columns,
    };
    Ok((found, at))
}

#[tactic(auto, unfolding(tl_grammar::specs::Grammar::create_table))]
fn created<'a>(alloc: Global, at: Cursor<'a>) -> Result<(Statement, Cursor<'a>), Stop>
    ensures { Reads result ((either create_table create_index).read (seen at.entry)) }
{
    if is_word(Word::Table, at) {
        return create_table(alloc, at);
    }
    create_index(alloc, at.missing(Expected::Word))
}

#[tactic(auto, unfolding(tl_grammar::specs::Grammar::create))]
pub fn create<'a>(alloc: Global, at: Cursor<'a>) -> Result<(Statement, Cursor<'a>), Stop>
    ensures { Reads result (create.read (seen at.entry)) }
{
    let (_, at) = word(Word::Create, at)?;
    let (found, at) = created(alloc, at)?;
    Ok((found, at))
}
