ghost use Rattle.std.specs.Prelude.{◌≡◌, ◌+◌, ◌≤◌, IfOk, IfErr};
ghost use Rattle.tl_io.specs.Faults.{Rose};
ghost use Rattle.tl_io.specs.Told.{LosesUpTo};
ghost use Rattle.tl_tell.specs.Input.{IsInput, Refuses, reason_of_read, reason_of_script};
ghost use Rattle.tl_tell.specs.Promise.{most_bytes};

use crate::ended::Reason;
use std::alloc::Global;
use tl_io::{ReadError, Source, read_all};
use tl_isolation::Script;
use tl_script::{ScriptError, read_script};

/// The greatest number of bytes of a script.
const MOST_BYTES: usize = 1_048_576;

fn reason_of_read(error: ReadError) -> Reason
    ensures { result ≡ reason_of_read error }
{
    match error {
        ReadError::Fault => Reason::ReadFault,
        ReadError::TooLong => Reason::TooLong,
        ReadError::NoMemory => Reason::NoMemory,
    }
}

fn reason_of_script(error: ScriptError) -> Reason
    ensures { result ≡ reason_of_script error }
{
    match error {
        ScriptError::Fault { line, kind } => Reason::Script { line, kind },
        ScriptError::NoMemory => Reason::NoMemory,
    }
}

/// Reads the source to its end, and the script in its bytes.
pub fn read_input<S: Source>(alloc: Global, source: &mut S) -> Result<Script, Reason>
    ensures input { IfOk result (λ script. IsInput (S.left source.old) (S.left source.new) script) }
    ensures refused { IfErr result (Refuses (S.left source.old) (S.left source.new) (S.faults source.old) (S.faults source.new)) }
    ensures never_falls { S.faults source.old ≤ S.faults source.new }
    ensures bytes { LosesUpTo (most_bytes + 1) (S.left source.old) (S.left source.new) }
    ensures calls { S.calls source.new ≤ S.calls source.old + most_bytes + 1 }
{
    let bytes = match read_all(alloc, source, MOST_BYTES) {
        Ok(bytes) => bytes,
        Err(error) => return Err(reason_of_read(error)),
    };
    match read_script(alloc, bytes.as_slice()) {
        Ok(script) => Ok(script),
        Err(error) => Err(reason_of_script(error)),
    }
}
