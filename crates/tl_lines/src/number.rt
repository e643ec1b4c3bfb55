//! Numbers of directives.

ghost use Rattle.std.specs.Prelude.{◌≡◌, ◌^◌, min};
ghost use Rattle.std.specs.Char.{is_ascii_digit};
ghost use Rattle.std.specs.List.{list_all, prefix_len};
ghost use Rattle.std.specs.Str.Parse.{AllDigits, digits_value};
ghost use Rattle.tl_lines.specs.Number.{node_in, number_within};

use tl_base::NodeId;

/// How many digits the bytes begin with.
pub fn digits_len(bytes: &[u8]) -> usize
    ensures { result ≡ prefix_len is_ascii_digit bytes.now }
{
    bytes.iter().take_while(|b| b.is_ascii_digit()).count()
}

/// Above every number of a directive or an argument.
const LIMIT: u64 = 4_294_967_296;

/// The number of these digits; `None` where there are none or other bytes among them, or where it is below `least` or
/// above `most`.
pub fn number_within(digits: &[u8], least: u32, most: u32) -> Option<u32>
    ensures { result ≡ number_within least most digits.now }
{
    if digits.is_empty() || !are_digits(digits) {
        return None;
    }
    let number = limited_value(digits);
    if number < u64::from(least) || number > u64::from(most) {
        return None;
    }
    Some(number as u32)
}

/// The node of these digits, from 1 to 16.
pub fn node_in(digits: &[u8]) -> Option<NodeId>
    ensures { result ≡ node_in digits.now }
{
    let number = number_within(digits, 1, 16)?;
    NodeId::new(u64::from(number))
}

fn are_digits(bytes: &[u8]) -> bool
    ensures { result ≡ list_all is_ascii_digit bytes.now }
{
    bytes.iter().all(|b| b.is_ascii_digit())
}

/// The number that the digits stand for, or the limit where that is less.
#[tactic(auto, using(crate::proofs::Digits::limited_steps))]
fn limited_value(digits: &[u8]) -> u64
    requires { AllDigits 10 digits.now }
    ensures { result ≡ min (digits_value 10 digits.now) (2 ^ 32) }
{
    let mut value: u64 = 0;
    for digit in digits {
        value = (value * 10 + u64::from(*digit - b'0')).min(LIMIT);
    }
    value
}
