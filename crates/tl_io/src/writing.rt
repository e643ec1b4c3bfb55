ghost use Rattle.std.specs.Prelude.{◌≡◌, [], ◌≤◌, OnOk, OnErr};
ghost use Rattle.tl_io.specs.Faults.{Rose};
ghost use Rattle.tl_io.specs.Told.{append, GainsPart};

use crate::failed::Failed;
use crate::sink::Sink;

/// Writes all the bytes. Where a write fails, the sink has taken a part of them from their start.
pub fn write_all<K: Sink>(sink: &mut K, bytes: &[u8]) -> Result<(), Failed>
    ensures whole { OnOk result (K.held sink.new ≡ append (K.held sink.old) bytes.now) }
    ensures part { OnErr result (GainsPart bytes.now (K.held sink.old) (K.held sink.new)) }
    ensures fault { OnErr result (Rose (K.faults sink.old) (K.faults sink.new)) }
    ensures never_falls { K.faults sink.old ≤ K.faults sink.new }
    // No call is made for a text with no bytes.
    ensures empty { bytes.now ≡ [] → sink.new ≡ sink.old }
{
    let mut written = 0;
    while written < bytes.len() {
        written += sink.write(&bytes[written..])?;
    }
    Ok(())
}
