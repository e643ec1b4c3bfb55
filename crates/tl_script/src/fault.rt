//! Why bytes are no script.

ghost use Rattle.std.specs.Prelude.{◌≡◌};
ghost use Rattle.tl_script.specs.declared.fault.LineFault.TheVariants as line_fault;
ghost use Rattle.tl_script.specs.declared.fault.ScriptError.TheVariants as error;
ghost use Rattle.tl_script.specs.declared.fault.ScriptKind.TheVariants as kind;
ghost use Rattle.tl_script.specs.Script.{numbered};

use thiserror::Error;
use tl_base::NoMemory;

/// What is wrong with a line.
#[derive(Clone, Copy, Debug, PartialEq, Eq, Error)]
pub enum ScriptKind {
    /// The script has no line.
    #[error("NoTable")]
    NoTable,
    /// The line has no form that is built.
    #[error("NotBuilt")]
    NotBuilt,
}

#[derive(Clone, Copy, Debug, PartialEq, Eq, Error)]
pub enum ScriptError {
    /// The first line with a fault, from 1.
    #[error("line {line}: {kind}")]
    Fault { line: u32, kind: ScriptKind },
    #[error("out of memory")]
    NoMemory,
}

impl From<NoMemory> for ScriptError {
    ghost from_gives = { λ _ e. e ≡ error.NoMemory };

    fn from(_error: NoMemory) -> ScriptError {
        ScriptError::NoMemory
    }
}

/// Why a line wasn't taken.
#[derive(Clone, Copy, Debug)]
pub enum LineFault {
    Fault(ScriptKind),
    NoMemory,
}

impl LineFault {
    /// The fault of the line of this number, from 1.
    pub fn at(self, line: u32) -> ScriptError
        ensures { result ≡ numbered line self }
    {
        match self {
            LineFault::Fault(kind) => ScriptError::Fault { line, kind },
            LineFault::NoMemory => ScriptError::NoMemory,
        }
    }
}

impl From<NoMemory> for LineFault {
    ghost from_gives = { λ _ e. e ≡ line_fault.NoMemory };

    fn from(_error: NoMemory) -> LineFault {
        LineFault::NoMemory
    }
}

/// The line has no form that is built, or doesn't stand where it may.
pub fn not_built() -> LineFault
    ensures { result ≡ line_fault.Fault kind.NotBuilt }
{
    LineFault::Fault(ScriptKind::NotBuilt)
}
