ghost use Rattle.std.specs.Prelude.{◌≡◌, []};
ghost use Rattle.tl_tell.specs.Status.{status_of};

use std::alloc::Global;
use thiserror::Error;
use tl_base::Items;
use tl_journal::Journal;
use tl_script::ScriptKind;

/// Why a call of the program ended. The texts are the lines that the program writes on standard error.
#[derive(Clone, Copy, Debug, PartialEq, Eq, Error)]
pub enum Reason {
    /// The whole text was written.
    #[error("tell: done")]
    Done,
    /// The word at this place, from 1, isn't one of the command line's.
    #[error("tell: word {place} refused")]
    Words { place: u32 },
    /// The first faulty line, from 1.
    #[error("tell: line {line}: {kind}")]
    Script { line: u32, kind: ScriptKind },
    #[error("tell: read fault")]
    ReadFault,
    #[error("tell: write fault")]
    WriteFault,
    #[error("tell: out of memory")]
    NoMemory,
    #[error("tell: script too long")]
    TooLong,
}

/// How a call of the program ended.
#[derive(Drop)]
pub struct Ended {
    /// 0 done, 1 words, 2 script, 3 read fault, 4 write fault, 5 out of memory, 6 too long.
    pub status: u8,
    pub reason: Reason,
    /// All that happened in the run; empty unless the status is 0 or 4.
    pub journal: Journal,
}

impl Ended {
    /// The end of a call that ran a script.
    pub fn after_run(reason: Reason, journal: Journal) -> Ended
        ensures { result ≡ record { status = status_of reason; reason = reason; journal = journal } }
    {
        Ended {
            status: reason.status(),
            reason,
            journal,
        }
    }

    /// The end of a call that ran nothing, or whose run is lost.
    pub fn without_run(alloc: Global, reason: Reason) -> Ended
        ensures { result ≡ record { status = status_of reason; reason = reason; journal = record { events = [] } } }
    {
        Ended {
            status: reason.status(),
            reason,
            journal: Journal {
                events: Items::new(alloc),
            },
        }
    }
}

impl Reason {
    /// The exit status of the program.
    pub fn status(self) -> u8
        ensures { result ≡ status_of self }
    {
        match self {
            Reason::Done => 0,
            Reason::Words { .. } => 1,
            Reason::Script { .. } => 2,
            Reason::ReadFault => 3,
            Reason::WriteFault => 4,
            Reason::NoMemory => 5,
            Reason::TooLong => 6,
        }
    }
}
