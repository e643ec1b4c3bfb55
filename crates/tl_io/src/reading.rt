ghost use Rattle.std.specs.Prelude.{◌≡◌, ◌+◌, ◌^◌, ◌<◌, ◌≤◌, length, IfOk, IfSome, OnOk, IsErrOf};
ghost use Rattle.tl_io.specs.Faults.{Rose};
ghost use Rattle.tl_io.specs.Told.{prepend, Loses, LosesUpTo, IsAtEnd};

use crate::failed::Failed;
use crate::source::Source;
use std::alloc::Global;
use thiserror::Error;
use tl_base::{Bytes, NoMemory};

/// Why an input wasn't read to its end.
#[derive(Clone, Copy, Debug, PartialEq, Eq, Error)]
pub enum ReadError {
    #[error("a read failed")]
    Fault,
    #[error("more bytes than the reader allows")]
    TooLong,
    #[error("out of memory")]
    NoMemory,
}

impl From<Failed> for ReadError {
    ghost use Rattle.tl_io.specs.declared.reading.ReadError.TheVariants as error;

    ghost from_gives = { λ _ given. given ≡ error.Fault };

    fn from(_failed: Failed) -> ReadError {
        ReadError::Fault
    }
}

impl From<NoMemory> for ReadError {
    ghost use Rattle.tl_io.specs.declared.reading.ReadError.TheVariants as error;

    ghost from_gives = { λ _ given. given ≡ error.NoMemory };

    fn from(_error: NoMemory) -> ReadError {
        ReadError::NoMemory
    }
}

/// How many bytes one read asks for at most.
const PIECE: usize = 4096;

/// The bytes of a source, read to the end of the input.
///
/// `Fault` comes where a read failed, and `TooLong` once `most + 1` bytes were read without a fault. Whatever comes,
/// what was read is gone from the source, and no more than `most + 1` bytes are read, by no more calls.
pub fn read_all<S: Source>(alloc: Global, source: &mut S, most: usize) -> Result<Bytes, ReadError>
    requires { most < 2 ^ 32 }
    ensures within { IfOk result (λ bytes. length bytes ≤ most) }
    ensures whole { IfOk result (λ bytes. S.left source.old ≡ prepend bytes (S.left source.new)) }
    ensures end { OnOk result (IsAtEnd (S.left source.new)) }
    ensures told { IfOk result (λ bytes. IfSome (S.left source.old) (λ told. told ≡ bytes)) }

    ensures too_long { IsErrOf result ReadError.TooLong →
        Loses (most + 1) (S.left source.old) (S.left source.new) }
    ensures too_long_told { IsErrOf result ReadError.TooLong →
        IfSome (S.left source.old) (λ told. most < length told) }
    ensures fault { IsErrOf result ReadError.Fault → Rose (S.faults source.old) (S.faults source.new) }
    ensures fault_early { IsErrOf result ReadError.Fault →
        LosesUpTo most (S.left source.old) (S.left source.new) }

    ensures front { LosesUpTo (most + 1) (S.left source.old) (S.left source.new) }
    ensures never_falls { S.faults source.old ≤ S.faults source.new }
    ensures calls { S.calls source.new ≤ S.calls source.old + most + 1 }
{
    let mut bytes = Bytes::new(alloc);
    let mut buffer = [0; PIECE];
    while bytes.len() <= most {
        let room = (most - bytes.len() + 1).min(PIECE);
        let count = source.read(&mut buffer[..room])?;
        if count == 0 {
            return Ok(bytes);
        }
        bytes.extend_from_slice(&buffer[..count])?;
    }
    Err(ReadError::TooLong)
}
