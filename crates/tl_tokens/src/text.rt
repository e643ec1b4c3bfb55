//! Texts between quotes.

ghost use Rattle.std.specs.Prelude.{◌≡◌, ◌++◌, ◌&&◌, not, false, IfOk, OnOk, string_bytes};
ghost use Rattle.tl_tokens.specs.Lexemes.{is_second, quote_unless, without_doubles};

use std::alloc::Global;
use tl_base::{NoMemory, Text};

/// The text for which this stands between quotes: of two quotes in a row one.
pub fn unquoted(alloc: Global, quoted: &str) -> Result<Text, NoMemory>
    ensures { IfOk result (λ text. text ≡ without_doubles quoted.now false) }
{
    let mut found = String::new(alloc);
    let mut rest = quoted;
    let mut after_quote = false;
    while let Some((before, after)) = rest.split_once('\'') {
        after_quote = push_before(&mut found, before, after_quote)?;
        rest = after;
    }
    found.push_str(rest)?;
    Ok(Text::from_string(found))
}

/// Puts there what stands before a quote, and the quote, unless it is the second of two. Whether it was put there.
fn push_before(found: &mut String, before: &str, after_quote: bool) -> Result<bool, NoMemory>
    ensures quote { IfOk result (λ quote. quote ≡ not (is_second after_quote before.now)) }
    ensures found { OnOk result (string_bytes found.new ≡ string_bytes found.old ++ before.now ++ quote_unless (is_second after_quote before.now)) }
{
    found.push_str(before)?;
    if after_quote && before.is_empty() {
        return Ok(false);
    }
    found.push('\'')?;
    Ok(true)
}
