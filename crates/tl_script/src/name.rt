ghost use Rattle.std.specs.Prelude.{◌≡◌, ◌≤◌, length};
ghost use Rattle.std.specs.Option.{option_map};
ghost use Rattle.std.specs.Char.{is_ascii_lowercase};
ghost use Rattle.std.specs.List.{prefix_len};
ghost use Rattle.std.specs.Str.{IsUtf8};
ghost use Rattle.tl_script.specs.Name.{is_name, name_at};

use crate::words::is_word;
use std::str;

/// How many letters the bytes begin with.
fn letters_len(bytes: &[u8]) -> usize
    ensures { result ≡ prefix_len is_ascii_lowercase bytes.now }
{
    bytes.iter().take_while(|b| b.is_ascii_lowercase()).count()
}

/// The bytes as text.
fn text_of(bytes: &[u8]) -> &str
    requires { IsUtf8 bytes.now }
    ensures { result.now ≡ bytes.now }
{
    str::from_utf8(bytes).unwrap()
}

/// The name that the bytes begin with, and what stands after it.
#[tactic(auto, using(crate::proofs::Letters::letters), unfolding(crate::specs::Name::name_at))]
pub fn name_at(bytes: &[u8]) -> Option<(&str, &[u8])>
    ensures { option_map (λ found. (found.0.now, found.1.now)) result ≡ name_at bytes.now }
{
    let (letters, rest) = bytes.split_at(letters_len(bytes));
    if is_name(letters) {
        Some((text_of(letters), rest))
    } else {
        None
    }
}

/// Whether a run of letters is a name.
fn is_name(letters: &[u8]) -> bool
    ensures { result ≡ is_name letters.now }
{
    !letters.is_empty() && letters.len() <= 31 && !is_word(letters)
}
