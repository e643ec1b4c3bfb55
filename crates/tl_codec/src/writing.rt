ghost use Rattle.std.specs.Prelude.{◌≡◌, ◌++◌, OnOk};
ghost use Rattle.std.specs.Int.{w16, w32, w64, to_be_bytes};

use byteorder::{BigEndian, ByteOrder};
use tl_base::{Bytes, NoMemory};

/// Writes the number in 2 bytes, its highest byte first.
pub fn write_u16(out: &mut Bytes, number: u16) -> Result<(), NoMemory>
    ensures { OnOk result (out.new ≡ out.old ++ to_be_bytes w16 number) }
{
    let mut bytes = [0; 2];
    BigEndian::write_u16(&mut bytes, number);
    out.extend_from_slice(&bytes)
}

/// Writes the number in 4 bytes, its highest byte first.
pub fn write_u32(out: &mut Bytes, number: u32) -> Result<(), NoMemory>
    ensures { OnOk result (out.new ≡ out.old ++ to_be_bytes w32 number) }
{
    let mut bytes = [0; 4];
    BigEndian::write_u32(&mut bytes, number);
    out.extend_from_slice(&bytes)
}

/// Writes the number in 8 bytes, its highest byte first.
pub fn write_u64(out: &mut Bytes, number: u64) -> Result<(), NoMemory>
    ensures { OnOk result (out.new ≡ out.old ++ to_be_bytes w64 number) }
{
    let mut bytes = [0; 8];
    BigEndian::write_u64(&mut bytes, number);
    out.extend_from_slice(&bytes)
}
