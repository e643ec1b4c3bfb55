//! The fields of a directive.

ghost use Rattle.std.specs.Prelude.{◌≡◌, [], ◌∷◌, ◌<◌, length, not, MatchOption};
ghost use Rattle.std.specs.List.{prefix_len};
ghost use Rattle.tl_lines.specs.Fields.{fields_of, is_blank};

/// A space or a tab.
fn is_blank(byte: u8) -> bool
    ensures { result ≡ is_blank byte }
{
    byte == b' ' || byte == b'\t'
}

/// How many blanks the bytes begin with.
pub fn blanks_len(bytes: &[u8]) -> usize
    ensures { result ≡ prefix_len is_blank bytes.now }
{
    bytes.iter().take_while(|b| is_blank(**b)).count()
}

fn field_len(bytes: &[u8]) -> usize
    ensures { result ≡ prefix_len (λ b. not (is_blank b)) bytes.now }
{
    bytes.iter().take_while(|b| !is_blank(**b)).count()
}

/// The first field and the bytes after it; `None` where there are only blanks.
pub fn split_field(bytes: &[u8]) -> Option<(&[u8], &[u8])>
    ensures fields { MatchOption result (fields_of bytes.now ≡ []) (λ parts. fields_of bytes.now ≡ parts.0.now ∷ fields_of parts.1.now) }
    ensures shorter { MatchOption result (fields_of bytes.now ≡ []) (λ parts. length parts.1.now < length bytes.now) }
{
    let (_, bytes) = bytes.split_at(blanks_len(bytes));
    if bytes.is_empty() {
        return None;
    }
    Some(bytes.split_at(field_len(bytes)))
}
