ghost use Rattle.std.specs.Prelude.{◌≡◌};
ghost use Rattle.tl_script.specs.Words.{is_word};

/// The words of the grammar, in lower case.
static WORDS: [&[u8]; 44] = [
    b"and",
    b"as",
    b"asc",
    b"begin",
    b"bool",
    b"boolean",
    b"by",
    b"commit",
    b"count",
    b"create",
    b"delete",
    b"desc",
    b"false",
    b"from",
    b"group",
    b"index",
    b"inner",
    b"insert",
    b"int",
    b"integer",
    b"into",
    b"is",
    b"join",
    b"key",
    b"limit",
    b"max",
    b"min",
    b"not",
    b"null",
    b"on",
    b"or",
    b"order",
    b"primary",
    b"recover",
    b"rollback",
    b"select",
    b"set",
    b"sum",
    b"table",
    b"text",
    b"true",
    b"update",
    b"values",
    b"where",
];

/// Whether the letters are a word of the grammar.
#[tactic(auto, unfolding(crate::specs::Words::is_word))]
pub fn is_word(letters: &[u8]) -> bool
    ensures { result ≡ is_word letters.now }
{
    WORDS.contains(&letters)
}
