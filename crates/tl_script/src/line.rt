ghost use Rattle.std.specs.Prelude.{◌≡◌, ◌==◌, ◌<◌, [], ◌∷◌, length, not, MatchOption};
ghost use Rattle.std.specs.Option.{option_copied};
ghost use Rattle.std.specs.List.{prefix_len};
ghost use Rattle.std.specs.Str.{bytes_eq};
ghost use Rattle.tl_script.specs.Lines.{lines_of, after_text};

/// How many bytes stand before the first line feed, or before the end.
fn line_len(bytes: &[u8]) -> usize
    ensures { result ≡ prefix_len (λ b. not (b == 10)) bytes.now }
{
    bytes.iter().take_while(|b| **b != b'\n').count()
}

/// The first line, without its line feed, and the bytes after it; `None` where there are no bytes.
#[tactic(auto, using(crate::proofs::Lines::first_lines))]
pub fn split_line(bytes: &[u8]) -> Option<(&[u8], &[u8])>
    ensures lines { MatchOption result (lines_of bytes.now ≡ []) (λ parts. lines_of bytes.now ≡ parts.0.now ∷ lines_of parts.1.now) }
    ensures shorter { MatchOption result (length bytes.now ≡ 0) (λ parts. length parts.1.now < length bytes.now) }
{
    if bytes.is_empty() {
        return None;
    }
    let (line, rest) = bytes.split_at(line_len(bytes));
    match rest.split_first() {
        Some((_, after)) => Some((line, after)),
        None => Some((line, rest)),
    }
}

/// What stands after the text, where the bytes begin with it.
pub fn after_text<'a>(text: &[u8], bytes: &'a [u8]) -> Option<&'a [u8]>
    ensures { option_copied result ≡ after_text text.now bytes.now }
{
    bytes.strip_prefix(text)
}

/// Whether the bytes are this text.
pub fn is_text(bytes: &[u8], text: &[u8]) -> bool
    ensures { result ≡ bytes_eq bytes.now text.now }
{
    bytes == text
}
