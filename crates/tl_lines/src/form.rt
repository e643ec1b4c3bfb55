//! What a line may be.

ghost use Rattle.std.specs.Prelude.{◌≡◌};
ghost use Rattle.tl_lines.specs.Form.{form_of, unindented};

use crate::field::blanks_len;

/// What a line may be, by how it begins.
#[derive(Clone, Copy, Debug, PartialEq, Eq)]
pub enum Form {
    /// Blanks alone, or a comment.
    Nothing,
    /// The first byte that is no blank is an `@`.
    Directive,
    Statement,
}

fn unindented(line: &[u8]) -> &[u8]
    ensures { result.now ≡ unindented line.now }
{
    let (_, text) = line.split_at(blanks_len(line));
    text
}

/// What the line may be, by its first bytes that are no blanks.
pub fn form_of(line: &[u8]) -> Form
    ensures { result ≡ form_of line.now }
{
    let text = unindented(line);
    match text.first() {
        None => Form::Nothing,
        Some(b'@') => Form::Directive,
        Some(_) if text.starts_with(b"--") => Form::Nothing,
        Some(_) => Form::Statement,
    }
}
