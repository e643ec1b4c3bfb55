use std::io;
use tl_tell::Reason;

/// Writes the reason as one line on standard error, unless all is done. Where standard error takes nothing, the exit
/// status tells the reason all the same.
pub fn report(rt: &impl Eprint, reason: Reason) {
    let _written: io::Result<()> = match reason {
        Reason::Done => Ok(()),
        reason => eprintln!(rt; "{reason}"),
    };
}
