//! The parts of a script, line by line.

ghost use Rattle.std.specs.Prelude.{◌≡◌, [], ◌∷◌, ◌++◌, Err, IfOk, MatchOption, OnOk};
ghost use Rattle.tl_journal.specs.Schedule.{node_of};
ghost use Rattle.tl_script.specs.declared.fault.LineFault.TheVariants as line_fault;
ghost use Rattle.tl_script.specs.declared.fault.ScriptKind.{ScriptKind};
ghost use Rattle.tl_script.specs.Build.{bound_of};
ghost use Rattle.tl_script.specs.Fields.{fields_of};
ghost use Rattle.tl_script.specs.Parts.{Parts, has_schedule, has_session, has_vanish, no_parts, placed, script_with, take_item, take_line, take_node, take_opening, take_statement, take_turns, take_vanish};
ghost use Rattle.tl_script.specs.Script.{Gets, Takes};
ghost use Rattle.tl_script.specs.Seen.{head_of, names_of, parts_of, take_directive};
ghost use Rattle.tl_script.specs.Statement.{Names, names_seen};

use crate::build::{bound_of, catalog_of};
use crate::directive::{item_in, node_in, vanish_in};
use crate::fault::{LineFault, not_built};
use crate::field::split_field;
use crate::line::is_text;
use crate::opening::Opening;
use crate::statement::{Statement, TableNames, statement_in};
use std::alloc::Global;
use tl_base::{Items, NoMemory, NodeId};
use tl_isolation::{Script, Session, TurnItem, Vanish};

/// What was read of a script whose table has these names.
#[derive(Drop)]
pub struct Reader<'a> {
    alloc: Global,
    names: TableNames<'a>,
    opening: Opening,
    sessions: Vec<Session>,
    turns: Items<TurnItem>,
    vanishes: Items<Vanish>,
}

/// A directive, by its first field.
enum Head {
    Node,
    Turns,
    Vanish,
}

fn head_of(field: &[u8]) -> Option<Head>
    ensures { result ≡ head_of field.now }
{
    if is_text(field, b"@node") {
        Some(Head::Node)
    } else if is_text(field, b"@turns") {
        Some(Head::Turns)
    } else if is_text(field, b"@vanish") {
        Some(Head::Vanish)
    } else {
        None
    }
}

/// The directive of a line, and its further fields.
fn directive_of(line: &[u8]) -> Option<(Head, &[u8])>
    ensures { MatchOption result ((parts : Parts) (names : Names) → take_line names line.now parts ≡ take_statement names line.now parts)
        (λ found. (parts : Parts) (names : Names) → take_line names line.now parts ≡ take_directive found.0 (fields_of found.1.now) parts) }
{
    let (field, fields) = split_field(line)?;
    let head = head_of(field)?;
    Some((head, fields))
}

impl<'a> Reader<'a> {
    /// Nothing but the table's line was read.
    pub fn new(alloc: Global, names: TableNames<'a>) -> Reader<'a>
        ensures parts { parts_of result ≡ no_parts }
        ensures names { names_of result ≡ names_seen names.entry }
    {
        Reader {
            alloc,
            names,
            opening: Opening::new(alloc),
            sessions: Vec::new(alloc),
            turns: Items::new(alloc),
            vanishes: Items::new(alloc),
        }
    }

    /// The next line. A fault where it has no form that is built, or doesn't stand where it may; what was read is then
    /// of no use.
    pub fn take_line(&mut self, line: &[u8]) -> Result<(), LineFault>
        ensures takes { Takes (names_of self.old) line.now (parts_of self.old) result (parts_of self.new) }
        ensures names { names_of self.new ≡ names_of self.old }
    {
        match directive_of(line) {
            Some((Head::Node, fields)) => self.take_node(fields),
            Some((Head::Turns, fields)) => self.take_turns(fields),
            Some((Head::Vanish, fields)) => self.take_vanish(fields),
            None => self.take_statement(line),
        }
    }

    pub fn into_script(self) -> Result<Script, NoMemory>
        ensures { IfOk result (λ script. script ≡ script_with (names_of self.entry) (parts_of self.entry)) }
    {
        let Reader {
            alloc,
            names,
            opening,
            sessions,
            turns,
            vanishes,
        } = self;
        Ok(Script {
            catalog: catalog_of(alloc, &names)?,
            rows: opening.into_rows(),
            sessions: Items::from_vec(sessions),
            turns,
            vanishes,
        })
    }

    fn has_schedule(&self) -> bool
        ensures { result ≡ has_schedule (parts_of self.now) }
    {
        !self.turns.is_empty() || !self.vanishes.is_empty()
    }

    fn has_session(&self, node: NodeId) -> bool
        ensures { result ≡ has_session node (parts_of self.now) }
    {
        self.sessions.iter().any(|session| session.node == node)
    }

    fn has_vanish(&self, node: NodeId) -> bool
        ensures { result ≡ has_vanish node (parts_of self.now) }
    {
        self.vanishes.iter().any(|vanish| vanish.node == node)
    }

    /// A further session begins.
    fn take_node(&mut self, fields: &[u8]) -> Result<(), LineFault>
        ensures takes { Gets result (take_node (fields_of fields.now) (parts_of self.old)) (parts_of self.new) }
        ensures names { names_of self.new ≡ names_of self.old }
    {
        let (digits, rest) = split_field(fields).ok_or(not_built())?;
        if split_field(rest).is_some() || self.has_schedule() {
            return Err(not_built());
        }
        let node = node_in(digits).ok_or(not_built())?;
        if self.has_session(node) {
            return Err(not_built());
        }
        let statements = Items::new(self.alloc);
        push_session(&mut self.sessions, Session { node, statements })?;
        Ok(())
    }

    /// A statement, where no schedule stands before it.
    fn take_statement(&mut self, line: &[u8]) -> Result<(), LineFault>
        ensures takes { Gets result (take_statement (names_of self.old) line.now (parts_of self.old)) (parts_of self.new) }
        ensures names { names_of self.new ≡ names_of self.old }
    {
        if self.has_schedule() {
            return Err(not_built());
        }
        let statement = statement_in(&self.names, line).ok_or(not_built())?;
        self.place(statement)
    }

    /// A statement of the last session, or an opening row before all sessions.
    fn place(&mut self, statement: Statement) -> Result<(), LineFault>
        ensures takes { Gets result (placed statement (parts_of self.old)) (parts_of self.new) }
        ensures names { names_of self.new ≡ names_of self.old }
    {
        match self.sessions.last_mut() {
            Some(session) => push_statement(self.alloc, session, statement),
            None => self.take_opening(statement),
        }
    }

    fn take_opening(&mut self, statement: Statement) -> Result<(), LineFault>
        ensures takes { Gets result (take_opening statement (parts_of self.old)) (parts_of self.new) }
        ensures names { names_of self.new ≡ names_of self.old }
    {
        match statement {
            Statement::Insert { key, other } => self.opening.add(self.alloc, key, other),
            _ => Err(not_built()),
        }
    }

    fn take_turns(&mut self, fields: &[u8]) -> Result<(), LineFault>
        ensures takes { Gets result (take_turns (fields_of fields.now) (parts_of self.old)) (parts_of self.new) }
        ensures names { names_of self.new ≡ names_of self.old }
    {
        let (first, mut rest) = split_field(fields).ok_or(not_built())?;
        self.take_item(first)?;
        while let Some((field, after)) = split_field(rest) {
            self.take_item(field)?;
            rest = after;
        }
        Ok(())
    }

    fn take_item(&mut self, field: &[u8]) -> Result<(), LineFault>
        ensures takes { Gets result (take_item field.now (parts_of self.old)) (parts_of self.new) }
        ensures names { names_of self.new ≡ names_of self.old }
    {
        let item = item_in(field).ok_or(not_built())?;
        if !self.has_session(node_of(&item)) {
            return Err(not_built());
        }
        self.turns.push(item)?;
        Ok(())
    }

    fn take_vanish(&mut self, fields: &[u8]) -> Result<(), LineFault>
        ensures takes { Gets result (take_vanish (fields_of fields.now) (parts_of self.old)) (parts_of self.new) }
        ensures names { names_of self.new ≡ names_of self.old }
    {
        let vanish = vanish_in(fields).ok_or(not_built())?;
        if !self.has_session(vanish.node) || self.has_vanish(vanish.node) {
            return Err(not_built());
        }
        self.vanishes.push(vanish)?;
        Ok(())
    }
}

fn push_session(sessions: &mut Vec<Session>, session: Session) -> Result<(), NoMemory>
    ensures { OnOk result (sessions.new.items ≡ sessions.old.items ++ session ∷ []) }
{
    sessions.push(session)?;
    Ok(())
}

fn push_statement(
    alloc: Global,
    session: &mut Session,
    statement: Statement,
) -> Result<(), LineFault>
    ensures pushed { OnOk result (session.new ≡ record session.old { statements = session.old.statements ++ bound_of statement ∷ [] }) }
    ensures never { (kind : ScriptKind) → result ≡ Err (line_fault.Fault kind) → ⊥ }
{
    let bound = bound_of(alloc, statement)?;
    session.statements.push(bound)?;
    Ok(())
}

fn node_of(item: &TurnItem) -> NodeId
    ensures { result ≡ node_of item.now }
{
    match item {
        TurnItem::One { node, times: _ } => *node,
        TurnItem::Until { node, statement: _ } => *node,
    }
}
