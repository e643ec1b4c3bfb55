ghost use Rattle.std.specs.Int.{w16, w32, w64};
ghost use Rattle.tl_codec.specs.Reading.{Gives, all_read, read_byte, read_flag, read_number, read_span};

use crate::fault::ReadFault;

/// A byte, and the bytes after it.
#[tactic(auto, unfolding(crate::specs::Reading::read_byte))]
pub fn read_byte(bytes: &[u8]) -> Result<(u8, &[u8]), ReadFault>
    ensures { Gives (λ x. (x.0, x.1.now)) result (read_byte bytes.now) }
{
    match bytes {
        [byte, rest @ ..] => Ok((*byte, rest)),
        [] => Err(ReadFault::Bad),
    }
}

/// A flag, 0 or 1, and the bytes after it. Any other byte is refused.
#[tactic(auto, unfolding(crate::specs::Reading::read_flag))]
pub fn read_flag(bytes: &[u8]) -> Result<(bool, &[u8]), ReadFault>
    ensures { Gives (λ x. (x.0, x.1.now)) result (read_flag bytes.now) }
{
    match bytes {
        [0, rest @ ..] => Ok((false, rest)),
        [1, rest @ ..] => Ok((true, rest)),
        [] | [_, ..] => Err(ReadFault::Bad),
    }
}

/// A number of 2 bytes, the highest first, and the bytes after it.
pub fn read_u16(bytes: &[u8]) -> Result<(u16, &[u8]), ReadFault>
    ensures { Gives (λ x. (x.0, x.1.now)) result (read_number w16 bytes.now) }
{
    let (number, rest) = bytes.split_first_chunk::<2>().ok_or(ReadFault::Bad)?;
    Ok((u16::from_be_bytes(*number), rest))
}

/// A number of 4 bytes, the highest first, and the bytes after it.
pub fn read_u32(bytes: &[u8]) -> Result<(u32, &[u8]), ReadFault>
    ensures { Gives (λ x. (x.0, x.1.now)) result (read_number w32 bytes.now) }
{
    let (number, rest) = bytes.split_first_chunk::<4>().ok_or(ReadFault::Bad)?;
    Ok((u32::from_be_bytes(*number), rest))
}

/// A number of 8 bytes, the highest first, and the bytes after it.
pub fn read_u64(bytes: &[u8]) -> Result<(u64, &[u8]), ReadFault>
    ensures { Gives (λ x. (x.0, x.1.now)) result (read_number w64 bytes.now) }
{
    let (number, rest) = bytes.split_first_chunk::<8>().ok_or(ReadFault::Bad)?;
    Ok((u64::from_be_bytes(*number), rest))
}

/// So many bytes, and the bytes after them.
#[tactic(auto, unfolding(crate::specs::Reading::read_span))]
pub fn read_span(bytes: &[u8], count: usize) -> Result<(&[u8], &[u8]), ReadFault>
    ensures { Gives (λ x. (x.0.now, x.1.now)) result (read_span count bytes.now) }
{
    if bytes.len() < count {
        return Err(ReadFault::Bad);
    }
    Ok(bytes.split_at(count))
}

/// What was read, where no bytes are left after it; else it is refused.
pub fn all_read<T: Drop>(value: T, rest: &[u8]) -> Result<T, ReadFault>
    ensures { Gives (λ x. x) result (all_read (value, rest.now)) }
{
    match rest {
        [] => Ok(value),
        [_, ..] => Err(ReadFault::Bad),
    }
}
