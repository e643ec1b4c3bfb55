//! Lines, one by one.

ghost use Rattle.std.specs.Prelude.{◌≡◌, ◌==◌, ◌<◌, ◌≤◌, ◌+◌, [], ◌∷◌, length, not, IfSome, MatchOption};
ghost use Rattle.std.specs.List.{prefix_len};
ghost use Rattle.tl_lines.specs.Lines.{lines_of, without_return};

/// How many bytes stand before the first line feed, or before the end.
fn line_len(bytes: &[u8]) -> usize
    ensures { result ≡ prefix_len (λ b. not (b == 10)) bytes.now }
{
    bytes.iter().take_while(|b| **b != b'\n').count()
}

fn without_return(line: &[u8]) -> &[u8]
    ensures { result.now ≡ without_return line.now }
{
    let Some((last, front)) = line.split_last() else {
        return line;
    };
    if *last == b'\r' { front } else { line }
}

/// The first line, without its line feed and a carriage return before that, and the bytes after it; `None` where there
/// are no bytes.
pub fn split_line(bytes: &[u8]) -> Option<(&[u8], &[u8])>
    ensures lines { MatchOption result (lines_of bytes.now ≡ []) (λ parts. lines_of bytes.now ≡ parts.0.now ∷ lines_of parts.1.now) }
    ensures shorter { MatchOption result (length bytes.now ≡ 0) (λ parts. length parts.1.now < length bytes.now) }
    ensures within { IfSome result (λ parts. length parts.0.now + length parts.1.now ≤ length bytes.now) }
{
    if bytes.is_empty() {
        return None;
    }
    let (line, rest) = bytes.split_at(line_len(bytes));
    match rest.split_first() {
        Some((_, after)) => Some((without_return(line), after)),
        None => Some((line, rest)),
    }
}
