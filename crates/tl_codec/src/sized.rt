ghost use Rattle.std.specs.Prelude.{◌≡◌, ◌++◌, ◌<◌, ◌^◌, length, IfOk, OnOk};
ghost use Rattle.std.specs.Int.{w16, to_be_bytes};
ghost use Rattle.tl_codec.specs.Reading.{Gives, read_sized};
ghost use Rattle.tl_codec.specs.Taken.{sized};
ghost use Rattle.tl_codec.specs.Sized.{sized_again, sized_takes};

use crate::fault::ReadFault;
use crate::reading::{read_span, read_u16};
use crate::spelled::Spelled;
use crate::writing::write_u16;
use std::alloc::Global;
use tl_base::{Bytes, NoMemory};

/// Bytes behind their length in 2 bytes, which is below 65,536.
impl Spelled for Bytes {
    ghost Fits = { λ bytes. length bytes < 2 ^ 16 };

    ghost spelling = { sized };

    ghost reading = { read_sized };

    ghost taken = { sized_takes };

    ghost again = { sized_again };

    fn write(&self, out: &mut Bytes) -> Result<(), NoMemory> {
        write_u16(out, self.len() as u16)?;
        out.extend_from_slice(self.as_slice())
    }

    #[tactic(auto, unfolding(crate::specs::Reading::read_sized))]
    fn read(alloc: Global, bytes: &[u8]) -> Result<(Bytes, &[u8]), ReadFault> {
        let (size, rest) = read_u16(bytes)?;
        let (found, rest) = read_span(rest, usize::from(size))?;
        let found = Bytes::from_slice(alloc, found)?;
        Ok((found, rest))
    }
}
