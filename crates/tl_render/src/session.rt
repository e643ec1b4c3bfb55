//! The text of a session.

ghost use Rattle.std.specs.Prelude.{◌≡◌, ◌++◌, OnOk};
ghost use Rattle.std.specs.Option.{option_copied};
ghost use Rattle.std.specs.List.{flat_map};
ghost use Rattle.tl_isolation.specs.Script.{answer_at, answers_by};
ghost use Rattle.tl_journal.specs.Journal.{entries_told};
ghost use Rattle.tl_render.specs.Printed.{answer_text, ending_at, ending_text, endings_of, session_text, sessions_text};

use crate::answer::{push_answer, push_ending, push_numbered};
use tl_base::{Bytes, NoMemory, NodeId};
use tl_isolation::{Answer, Ending, Entry, Session};
use tl_journal::Event;

/// Writes each session, with what the events tell of it.
pub fn push_sessions(
    out: &mut Bytes,
    sessions: &[Session],
    events: &[Event],
) -> Result<(), NoMemory>
    ensures { OnOk result (out.new ≡ out.old ++ sessions_text sessions.now (entries_told events.now)) }
{
    for session in sessions {
        push_session(out, session, events)?;
    }
    Ok(())
}

fn push_session(out: &mut Bytes, session: &Session, events: &[Event]) -> Result<(), NoMemory>
    ensures { OnOk result (out.new ≡ out.old ++ session_text (entries_told events.now) session.now) }
{
    push_numbered(out, b"@node ", u64::from(session.node.number()))?;
    push_answers(out, session.node, events)?;
    push_endings(out, session.node, events)
}

fn push_answers(out: &mut Bytes, node: NodeId, events: &[Event]) -> Result<(), NoMemory>
    ensures { OnOk result (out.new ≡ out.old ++ flat_map answer_text (answers_by node (entries_told events.now))) }
{
    for event in events {
        push_answers_in(out, node, event.entries.as_slice())?;
    }
    Ok(())
}

fn push_answers_in(out: &mut Bytes, node: NodeId, entries: &[Entry]) -> Result<(), NoMemory>
    ensures { OnOk result (out.new ≡ out.old ++ flat_map answer_text (answers_by node entries.now)) }
{
    for entry in entries {
        if let Some(answer) = answer_at(node, entry) {
            push_answer(out, answer)?;
        }
    }
    Ok(())
}

// The answer that the entry gives at the node.
fn answer_at(node: NodeId, entry: &Entry) -> Option<&Answer>
    ensures { option_copied result ≡ answer_at node entry.now }
{
    match entry {
        Entry::Said {
            node: told_by,
            said,
            ..
        } if *told_by == node && said.answered => Some(&said.answer),
        Entry::Answered {
            node: told_by,
            answer,
            ..
        } if *told_by == node => Some(answer),
        _ => None,
    }
}

fn push_endings(out: &mut Bytes, node: NodeId, events: &[Event]) -> Result<(), NoMemory>
    ensures { OnOk result (out.new ≡ out.old ++ flat_map ending_text (endings_of node (entries_told events.now))) }
{
    for event in events {
        push_endings_in(out, node, event.entries.as_slice())?;
    }
    Ok(())
}

fn push_endings_in(out: &mut Bytes, node: NodeId, entries: &[Entry]) -> Result<(), NoMemory>
    ensures { OnOk result (out.new ≡ out.old ++ flat_map ending_text (endings_of node entries.now)) }
{
    for entry in entries {
        if let Some(ending) = ending_at(node, entry) {
            push_ending(out, ending)?;
        }
    }
    Ok(())
}

// How the node ended, where the entry tells it.
fn ending_at(node: NodeId, entry: &Entry) -> Option<Ending>
    ensures { result ≡ ending_at node entry.now }
{
    match entry {
        Entry::Vanished { node: gone, ending } if *gone == node => Some(*ending),
        _ => None,
    }
}
