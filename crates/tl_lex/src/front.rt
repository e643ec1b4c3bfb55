//! One token at the front of bytes.

ghost use Rattle.std.specs.Prelude.{◌≡◌, ◌<◌, ◌≤◌, ◌^◌, ◌+◌, false, length, min, IfSome};
ghost use Rattle.std.specs.Char.{is_ascii_digit};
ghost use Rattle.std.specs.List.{prefix_len};
ghost use Rattle.std.specs.Str.Parse.{AllDigits, digits_value};
ghost use Rattle.tl_lex.specs.Front.{greatest, in_name, is_blank, is_letter, is_long_sign, is_short_sign, name_at, number_at, rest_of_text, short_sign_at, sign_at, text_at, token_at};

use crate::before::Before;
use crate::fault::LexKind;
use crate::token::TokenKind;

fn is_blank(b: u8) -> bool
    ensures { result ≡ is_blank b }
{
    b == b' ' || b == b'\t'
}

fn is_letter(b: u8) -> bool
    ensures { result ≡ is_letter b }
{
    b.is_ascii_alphabetic() || b == b'_'
}

/// How many spaces and tabs the bytes begin with.
pub fn blanks_len(bytes: &[u8]) -> usize
    ensures len { result ≡ prefix_len is_blank bytes.now }
    ensures within { result ≤ length bytes.now }
{
    bytes.iter().take_while(|b| is_blank(**b)).count()
}

fn name_len(bytes: &[u8]) -> usize
    ensures len { result ≡ prefix_len in_name bytes.now }
    ensures within { result ≤ length bytes.now }
{
    bytes
        .iter()
        .take_while(|b| is_letter(**b) || b.is_ascii_digit())
        .count()
}

fn digits_len(bytes: &[u8]) -> usize
    ensures len { result ≡ prefix_len is_ascii_digit bytes.now }
    ensures within { result ≤ length bytes.now }
{
    bytes.iter().take_while(|b| b.is_ascii_digit()).count()
}

/// The longest token that the bytes begin with, as its kind and its length.
#[tactic(auto, unfolding(crate::specs::Front::token_at))]
pub fn token_at(before: Before, bytes: &[u8]) -> Result<(TokenKind, usize), LexKind>
    ensures { result ≡ token_at before bytes.now }
{
    match bytes {
        [] => Err(LexKind::BadCharacter),
        [first, ..] => {
            if is_letter(*first) {
                return name_at(bytes);
            }
            if first.is_ascii_digit() {
                return number_at(before, bytes);
            }
            if *first == b'\'' {
                return text_at(bytes);
            }
            sign_at(bytes)
        }
    }
}

fn name_at(bytes: &[u8]) -> Result<(TokenKind, usize), LexKind>
    ensures { result ≡ name_at bytes.now }
{
    let len = name_len(bytes);
    if len > 31 {
        return Err(LexKind::LongName);
    }
    Ok((TokenKind::Name, len))
}

#[tactic(auto, using(crate::proofs::Digits::digits))]
fn number_at(before: Before, bytes: &[u8]) -> Result<(TokenKind, usize), LexKind>
    ensures { result ≡ number_at before bytes.now }
{
    let len = digits_len(bytes);
    if limited_value(&bytes[..len]) > greatest(before) {
        return Err(LexKind::Wide);
    }
    Ok((TokenKind::Number, len))
}

/// The greatest number that may stand here.
fn greatest(before: Before) -> u128
    ensures { result ≡ greatest before }
{
    match before {
        Before::Minus => 9_223_372_036_854_775_808,
        _ => 9_223_372_036_854_775_807,
    }
}

/// Above every number that may stand anywhere.
const LIMIT: u128 = 9_223_372_036_854_775_809;

/// The number that these decimal digits stand for, or 2^63 + 1 where that is less.
#[tactic(auto, using(crate::proofs::Digits::limited_steps))]
pub fn limited_value(digits: &[u8]) -> u128
    requires { AllDigits 10 digits.now }
    ensures { result ≡ min (digits_value 10 digits.now) 9223372036854775809 }
{
    let mut value: u128 = 0;
    for digit in digits {
        value = (value * 10 + u128::from(*digit - b'0')).min(LIMIT);
    }
    value
}

fn text_at(bytes: &[u8]) -> Result<(TokenKind, usize), LexKind>
    requires { 0 < length bytes.now }
    ensures { result ≡ text_at bytes.now }
{
    match rest_of_text(&bytes[1..]) {
        Some(len) => Ok((TokenKind::Text, len + 1)),
        None => Err(LexKind::Unclosed),
    }
}

/// How many bytes behind the opening quote are of the text, its closing quote among them.
#[tactic(auto, using(crate::proofs::Texts::texts))]
fn rest_of_text(bytes: &[u8]) -> Option<usize>
    ensures len { result ≡ rest_of_text false bytes.now }
    ensures within { IfSome result (λ len. len ≤ length bytes.now) }
{
    let mut closed = false;
    for (len, b) in bytes.iter().enumerate() {
        let is_quote = *b == b'\'';
        if closed && !is_quote {
            return Some(len);
        }
        closed = is_quote && !closed;
    }
    if closed { Some(bytes.len()) } else { None }
}

fn sign_at(bytes: &[u8]) -> Result<(TokenKind, usize), LexKind>
    ensures { result ≡ sign_at bytes.now }
{
    match bytes {
        [] => Err(LexKind::BadCharacter),
        [first] => short_sign_at(*first),
        [first, second, ..] => {
            if is_long_sign(*first, *second) {
                return Ok((TokenKind::Sign, 2));
            }
            short_sign_at(*first)
        }
    }
}

fn is_long_sign(first: u8, second: u8) -> bool
    ensures { result ≡ is_long_sign first second }
{
    (first == b'<' && (second == b'=' || second == b'>'))
        || ((first == b'>' || first == b'!') && second == b'=')
}

fn short_sign_at(b: u8) -> Result<(TokenKind, usize), LexKind>
    ensures { result ≡ short_sign_at b }
{
    if is_short_sign(b) {
        return Ok((TokenKind::Sign, 1));
    }
    Err(LexKind::BadCharacter)
}

fn is_short_sign(b: u8) -> bool
    ensures { result ≡ is_short_sign b }
{
    b"(),.;*+-=<>".contains(&b)
}
