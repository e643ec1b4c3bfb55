//! The text of answers and endings.

ghost use Rattle.std.specs.Prelude.{◌≡◌, ◌++◌, OnOk, codes, decimal};
ghost use Rattle.tl_render.specs.Printed.{answer_text, ending_text};

use crate::value::{push_number, push_rows};
use tl_base::{Bytes, NoMemory};
use tl_isolation::{Answer, Ending};

/// Writes a line of these words and a number.
pub fn push_numbered(out: &mut Bytes, words: &[u8], number: u64) -> Result<(), NoMemory>
    ensures { OnOk result (out.new ≡ out.old ++ words.now ++ decimal number ++ codes "\n") }
{
    out.extend_from_slice(words)?;
    push_number(out, number)?;
    out.push(b'\n')
}

/// Writes an answer: one line, and behind the number of a SELECT's rows a line for each.
pub fn push_answer(out: &mut Bytes, answer: &Answer) -> Result<(), NoMemory>
    ensures { OnOk result (out.new ≡ out.old ++ answer_text answer.now) }
{
    match answer {
        Answer::Begun => out.extend_from_slice(b"begun\n"),
        Answer::Rows(rows) => {
            push_numbered(out, b"rows ", rows.len() as u64)?;
            push_rows(out, rows)
        }
        Answer::Changed(count) => push_numbered(out, b"changed ", u64::from(*count)),
        Answer::Duplicate => out.extend_from_slice(b"refused duplicate\n"),
        Answer::Null => out.extend_from_slice(b"refused null\n"),
        Answer::Overflow => out.extend_from_slice(b"refused overflow\n"),
        Answer::Long => out.extend_from_slice(b"refused long\n"),
        Answer::Many => out.extend_from_slice(b"refused many\n"),
        Answer::Nested => out.extend_from_slice(b"refused nested\n"),
        Answer::Outside => out.extend_from_slice(b"refused outside\n"),
        Answer::Conflict(rival) => push_numbered(out, b"conflict ", *rival),
        Answer::Committed => out.extend_from_slice(b"committed\n"),
        Answer::RolledBack => out.extend_from_slice(b"rolled back\n"),
        Answer::Recovered(node) => push_numbered(out, b"recovered ", u64::from(node.number())),
        Answer::There(_) => out.extend_from_slice(b"there\n"),
    }
}

/// Writes how a node ended, as a line.
pub fn push_ending(out: &mut Bytes, ending: Ending) -> Result<(), NoMemory>
    ensures { OnOk result (out.new ≡ out.old ++ ending_text ending) }
{
    match ending {
        Ending::Vanished => out.extend_from_slice(b"vanished\n"),
        Ending::Spent => out.extend_from_slice(b"spent\n"),
        Ending::OutOfMemory => out.extend_from_slice(b"out of memory\n"),
    }
}
