//! The words of the grammar.

ghost use Rattle.std.specs.Prelude.{◌≡◌};
ghost use Rattle.std.specs.List.{list_any};
ghost use Rattle.std.specs.Str.{str_eq_ignore_ascii_case};
ghost use Rattle.tl_lex.specs.Word.{is_literal_word, is_word};

/// The words of the grammar, in lower case.
static WORDS: [&[u8]; 44] = [
    b"and",
    b"as",
    b"asc",
    b"begin",
    b"bool",
    b"boolean",
    b"by",
    b"commit",
    b"count",
    b"create",
    b"delete",
    b"desc",
    b"false",
    b"from",
    b"group",
    b"index",
    b"inner",
    b"insert",
    b"int",
    b"integer",
    b"into",
    b"is",
    b"join",
    b"key",
    b"limit",
    b"max",
    b"min",
    b"not",
    b"null",
    b"on",
    b"or",
    b"order",
    b"primary",
    b"recover",
    b"rollback",
    b"select",
    b"set",
    b"sum",
    b"table",
    b"text",
    b"true",
    b"update",
    b"values",
    b"where",
];

/// Those that are literals.
static LITERAL_WORDS: [&[u8]; 3] = [b"true", b"false", b"null"];

/// Whether the name is a word of the grammar, in any case.
#[tactic(auto, unfolding(crate::specs::Word::is_word))]
pub fn is_word(name: &[u8]) -> bool
    ensures { result ≡ is_word name.now }
{
    is_one_of(name, &WORDS)
}

/// Whether the name is a literal, in any case.
#[tactic(auto, unfolding(crate::specs::Word::is_literal_word))]
pub fn is_literal_word(name: &[u8]) -> bool
    ensures { result ≡ is_literal_word name.now }
{
    is_one_of(name, &LITERAL_WORDS)
}

fn is_one_of(name: &[u8], words: &[&[u8]]) -> bool
    ensures { result ≡ list_any (λ word. str_eq_ignore_ascii_case word.now name.now) words.now }
{
    words.iter().any(|word| word.eq_ignore_ascii_case(name))
}
