ghost use Rattle.std.specs.Prelude.{◌≡◌, ◌≤◌, ◌<◌, ◌^◌, length, min, pos, neg_ℤ, IfSome};
ghost use Rattle.std.specs.Option.{option_map};
ghost use Rattle.std.specs.Char.{is_ascii_digit};
ghost use Rattle.std.specs.List.{list_all, prefix_len};
ghost use Rattle.std.specs.Str.Parse.{AllDigits, digits_value};
ghost use Rattle.tl_script.specs.Number.{magnitude_at, number_at, number_within};

use crate::line::after_text;

/// How many digits the bytes begin with.
pub fn digits_len(bytes: &[u8]) -> usize
    ensures { result ≡ prefix_len is_ascii_digit bytes.now }
{
    bytes.iter().take_while(|b| b.is_ascii_digit()).count()
}

/// The number that the digits stand for.
#[tactic(auto, using(crate::proofs::Digits::digit_steps))]
fn value_of(digits: &[u8]) -> u64
    requires digits { AllDigits 10 digits.now }
    requires few { length digits.now ≤ 18 }
    ensures value { result ≡ digits_value 10 digits.now }
    ensures bound { result < 10 ^ 18 }
{
    let mut value: u64 = 0;
    for digit in digits {
        value = value * 10 + u64::from(*digit - b'0');
    }
    value
}

/// The number of the digits that the bytes begin with, and what stands after them.
#[tactic(auto, using(crate::proofs::Digits::digits), unfolding(crate::specs::Number::magnitude_at))]
fn magnitude_at(bytes: &[u8]) -> Option<(u64, &[u8])>
    ensures value { option_map (λ found. (found.0, found.1.now)) result ≡ magnitude_at bytes.now }
    ensures bound { IfSome result (λ found. found.0 < 10 ^ 18) }
{
    let (digits, rest) = bytes.split_at(digits_len(bytes));
    if digits.is_empty() || digits.len() > 18 {
        return None;
    }
    Some((value_of(digits), rest))
}

/// The number that the bytes begin with, and what stands after it.
#[tactic(auto, unfolding(crate::specs::Number::number_at))]
pub fn number_at(bytes: &[u8]) -> Option<(i64, &[u8])>
    ensures { option_map (λ found. (found.0, found.1.now)) result ≡ number_at bytes.now }
{
    match after_text(b"-", bytes) {
        Some(digits) => {
            let (magnitude, rest) = magnitude_at(digits)?;
            Some((-(magnitude as i64), rest))
        }
        None => {
            let (magnitude, rest) = magnitude_at(bytes)?;
            Some((magnitude as i64, rest))
        }
    }
}

/// Above every number of a directive or a word.
const LIMIT: u64 = 4_294_967_296;

/// The number of these digits; `None` where there are none or other bytes among them, or where it is below `least` or
/// above `most`.
pub fn number_within(digits: &[u8], least: u32, most: u32) -> Option<u32>
    ensures { result ≡ number_within least most digits.now }
{
    if digits.is_empty() || !are_digits(digits) {
        return None;
    }
    let number = limited_value(digits);
    if number < u64::from(least) || number > u64::from(most) {
        return None;
    }
    Some(number as u32)
}

fn are_digits(bytes: &[u8]) -> bool
    ensures { result ≡ list_all is_ascii_digit bytes.now }
{
    bytes.iter().all(|b| b.is_ascii_digit())
}

/// The number that the digits stand for, or the limit where that is less.
#[tactic(auto, using(crate::proofs::Digits::limited_steps))]
fn limited_value(digits: &[u8]) -> u64
    requires { AllDigits 10 digits.now }
    ensures { result ≡ min (digits_value 10 digits.now) (2 ^ 32) }
{
    let mut value: u64 = 0;
    for digit in digits {
        value = (value * 10 + u64::from(*digit - b'0')).min(LIMIT);
    }
    value
}
