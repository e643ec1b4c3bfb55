//! A script, read from its bytes.

ghost use Rattle.std.specs.Prelude.{◌≡◌, ◌≤◌, ◌<◌, ◌^◌, IfOk, length};
ghost use Rattle.tl_base.specs.declared.place.Settings.{Settings};
ghost use Rattle.tl_journal.specs.Binding.{IsBound};
ghost use Rattle.tl_script.specs.declared.fault.ScriptError.TheVariants as error;
ghost use Rattle.tl_script.specs.Lines.{lines_of};
ghost use Rattle.tl_script.specs.Script.{GetsAll, Gives, parts_in, script_of};
ghost use Rattle.tl_script.specs.Seen.{names_of, parts_of};

use crate::fault::{ScriptError, ScriptKind};
use crate::line::split_line;
use crate::reader::Reader;
use crate::statement::table_in;
use std::alloc::Global;
use tl_isolation::Script;

/// The script that the bytes stand for, or its first fault.
///
/// The lines are, in this order: `CREATE TABLE name (name INT PRIMARY KEY, name INT)`; rows `INSERT INTO name VALUES
/// (i, j)` of different keys; for each node `@node n` with its statements behind it; `@turns` and `@vanish`. A script
/// without any line is `NoTable` at line 1, and the first line that isn't of such a form or stands elsewhere is
/// `NotBuilt`.
#[tactic(auto, using(crate::proofs::Kept::is_bound, crate::proofs::Kept::few_rows))]
pub fn read_script(alloc: Global, bytes: &[u8]) -> Result<Script, ScriptError>
    requires { length bytes.now ≤ 1048576 }
    // What was read is what the bytes stand for, and a fault is the first one.
    ensures exact { Gives result (script_of bytes.now) }
    // A script that is read is one that can be run.
    ensures bound { IfOk result (λ script. (settings : Settings) → IsBound script settings) }
    ensures few { IfOk result (λ script. length script.rows < 2 ^ 32) }
{
    script_from(alloc, bytes)
}

fn script_from(alloc: Global, bytes: &[u8]) -> Result<Script, ScriptError>
    requires { length bytes.now ≤ 1048576 }
    ensures { Gives result (script_of bytes.now) }
{
    let Some((table, rest)) = split_line(bytes) else {
        return Err(fault(1, ScriptKind::NoTable));
    };
    let Some(names) = table_in(table) else {
        return Err(fault(1, ScriptKind::NotBuilt));
    };
    let mut reader = Reader::new(alloc, names);
    take_lines(&mut reader, rest)?;
    Ok(reader.into_script()?)
}

fn fault(line: u32, kind: ScriptKind) -> ScriptError
    ensures { result ≡ error.Fault line kind }
{
    ScriptError::Fault { line, kind }
}

/// The lines behind the first one.
fn take_lines(reader: &mut Reader<'_>, bytes: &[u8]) -> Result<(), ScriptError>
    requires { length bytes.now ≤ 1048576 }
    ensures parts { GetsAll result (parts_in (names_of reader.old) 2 (lines_of bytes.now) (parts_of reader.old)) (parts_of reader.new) }
    ensures names { names_of reader.new ≡ names_of reader.old }
{
    let mut number: u32 = 2;
    let mut rest = bytes;
    while let Some((line, after)) = split_line(rest) {
        if let Err(fault) = reader.take_line(line) {
            return Err(fault.at(number));
        }
        number += 1;
        rest = after;
    }
    Ok(())
}
