//! The keys of a transaction's writes, which rise strictly.

ghost use Rattle.std.specs.Prelude.{◌≡◌};
ghost use Rattle.tl_codec.specs.Reading.{Gives};
ghost use Rattle.tl_logrec.specs.Entry.{are_rising, rise_from};
ghost use Rattle.tl_logrec.specs.Reading.{rising_keys};

use tl_base::{Bytes, Keys};
use tl_codec::ReadFault;

/// The keys, where no bytes are left behind them and each stands behind the one before it.
pub fn rising_keys(keys: Keys, rest: &[u8]) -> Result<Keys, ReadFault>
    ensures { Gives (λ x. x) result (rising_keys (keys, rest.now)) }
{
    if !rest.is_empty() || !are_rising(keys.as_slice()) {
        return Err(ReadFault::Bad);
    }
    Ok(keys)
}

/// Whether each key stands behind the one before it.
fn are_rising(keys: &[Bytes]) -> bool
    ensures { result ≡ are_rising keys.now }
{
    match keys {
        [] => true,
        [first, rest @ ..] => rise_from(first, rest),
    }
}

fn rise_from(first: &Bytes, keys: &[Bytes]) -> bool
    ensures { result ≡ rise_from first.now keys.now }
{
    let mut before = first;
    for key in keys {
        if *before >= *key {
            return false;
        }
        before = key;
    }
    true
}
