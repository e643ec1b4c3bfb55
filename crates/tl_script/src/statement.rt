//! The forms of the table's line and of statements.

ghost use Rattle.std.specs.Prelude.{◌≡◌};
ghost use Rattle.std.specs.Option.{option_map};
ghost use Rattle.tl_script.specs.Statement.{delete_in, insert_in, names_seen, one_word_in, recover_in, select_in, statement_in, table_in, update_in, where_key_in};

use crate::directive::node_in;
use crate::line::{after_text, is_text};
use crate::name::name_at;
use crate::number::number_at;
use tl_base::NodeId;

/// The names of the table, of its key column and of its other column, where they stand in the script.
#[derive(Clone, Copy)]
pub struct TableNames<'a> {
    pub table: &'a str,
    pub key: &'a str,
    pub other: &'a str,
}

/// A statement on the table.
#[derive(Clone, Copy)]
pub enum Statement {
    Begin,
    Commit,
    Rollback,
    Recover { node: NodeId },
    /// A row of these two numbers.
    Insert { key: i64, other: i64 },
    SelectAll,
    /// The row with this key.
    Select { key: i64 },
    /// Sets the other column of the row with this key.
    Update { other: i64, key: i64 },
    /// Deletes the row with this key.
    Delete { key: i64 },
}

/// The names in a line `CREATE TABLE name (name INT PRIMARY KEY, name INT)`.
#[tactic(auto, unfolding(crate::specs::Statement::table_in))]
pub fn table_in(line: &[u8]) -> Option<TableNames<'_>>
    ensures { option_map names_seen result ≡ table_in line.now }
{
    let rest = after_text(b"CREATE TABLE ", line)?;
    let (table, rest) = name_at(rest)?;
    let rest = after_text(b" (", rest)?;
    let (key, rest) = name_at(rest)?;
    let rest = after_text(b" INT PRIMARY KEY, ", rest)?;
    let (other, rest) = name_at(rest)?;
    if is_text(rest, b" INT)") && key != other {
        Some(TableNames { table, key, other })
    } else {
        None
    }
}

/// The statement in a line of this table.
#[tactic(auto, unfolding(crate::specs::Statement::statement_in))]
pub fn statement_in(names: &TableNames<'_>, line: &[u8]) -> Option<Statement>
    ensures { result ≡ statement_in (names_seen names.now) line.now }
{
    one_word_in(line)
        .or(recover_in(line))
        .or(insert_in(names, line))
        .or(select_in(names, line))
        .or(update_in(names, line))
        .or(delete_in(names, line))
}

/// BEGIN, COMMIT or ROLLBACK.
#[tactic(auto, unfolding(crate::specs::Statement::one_word_in))]
fn one_word_in(line: &[u8]) -> Option<Statement>
    ensures { result ≡ one_word_in line.now }
{
    if is_text(line, b"BEGIN") {
        Some(Statement::Begin)
    } else if is_text(line, b"COMMIT") {
        Some(Statement::Commit)
    } else if is_text(line, b"ROLLBACK") {
        Some(Statement::Rollback)
    } else {
        None
    }
}

/// RECOVER n
#[tactic(auto, unfolding(crate::specs::Statement::recover_in))]
fn recover_in(line: &[u8]) -> Option<Statement>
    ensures { result ≡ recover_in line.now }
{
    let digits = after_text(b"RECOVER ", line)?;
    let node = node_in(digits)?;
    Some(Statement::Recover { node })
}

/// INSERT INTO name VALUES (i, j)
#[tactic(auto, unfolding(crate::specs::Statement::insert_in))]
fn insert_in(names: &TableNames<'_>, line: &[u8]) -> Option<Statement>
    ensures { result ≡ insert_in (names_seen names.now) line.now }
{
    let rest = after_text(b"INSERT INTO ", line)?;
    let rest = after_text(names.table.as_bytes(), rest)?;
    let rest = after_text(b" VALUES (", rest)?;
    let (key, rest) = number_at(rest)?;
    let rest = after_text(b", ", rest)?;
    let (other, rest) = number_at(rest)?;
    if is_text(rest, b")") {
        Some(Statement::Insert { key, other })
    } else {
        None
    }
}

/// SELECT * FROM name, for all rows or with WHERE for one
#[tactic(auto, unfolding(crate::specs::Statement::select_in))]
fn select_in(names: &TableNames<'_>, line: &[u8]) -> Option<Statement>
    ensures { result ≡ select_in (names_seen names.now) line.now }
{
    let rest = after_text(b"SELECT * FROM ", line)?;
    let rest = after_text(names.table.as_bytes(), rest)?;
    if rest.is_empty() {
        return Some(Statement::SelectAll);
    }
    let key = where_key_in(names, rest)?;
    Some(Statement::Select { key })
}

/// UPDATE name SET other = i WHERE key = j
#[tactic(auto, unfolding(crate::specs::Statement::update_in))]
fn update_in(names: &TableNames<'_>, line: &[u8]) -> Option<Statement>
    ensures { result ≡ update_in (names_seen names.now) line.now }
{
    let rest = after_text(b"UPDATE ", line)?;
    let rest = after_text(names.table.as_bytes(), rest)?;
    let rest = after_text(b" SET ", rest)?;
    let rest = after_text(names.other.as_bytes(), rest)?;
    let rest = after_text(b" = ", rest)?;
    let (other, rest) = number_at(rest)?;
    let key = where_key_in(names, rest)?;
    Some(Statement::Update { other, key })
}

/// DELETE FROM name WHERE key = i
#[tactic(auto, unfolding(crate::specs::Statement::delete_in))]
fn delete_in(names: &TableNames<'_>, line: &[u8]) -> Option<Statement>
    ensures { result ≡ delete_in (names_seen names.now) line.now }
{
    let rest = after_text(b"DELETE FROM ", line)?;
    let rest = after_text(names.table.as_bytes(), rest)?;
    let key = where_key_in(names, rest)?;
    Some(Statement::Delete { key })
}

/// The number in the end of a line that names one row: WHERE key = i
#[tactic(auto, unfolding(crate::specs::Statement::where_key_in))]
fn where_key_in(names: &TableNames<'_>, rest: &[u8]) -> Option<i64>
    ensures { result ≡ where_key_in (names_seen names.now) rest.now }
{
    let rest = after_text(b" WHERE ", rest)?;
    let rest = after_text(names.key.as_bytes(), rest)?;
    let rest = after_text(b" = ", rest)?;
    let (key, rest) = number_at(rest)?;
    if rest.is_empty() { Some(key) } else { None }
}
