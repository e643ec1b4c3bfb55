//! The words and the signs of the grammar, as they are written.

ghost use Rattle.std.specs.Prelude.{◌≡◌};
ghost use Rattle.std.specs.Option.{option_copied};
ghost use Rattle.std.specs.Str.{str_to_ascii_lowercase};
ghost use Rattle.tl_grammar.specs.Spelling.{sign_number, sign_spellings, spelled, word_number, word_spellings};
ghost use Rattle.tl_tokens.specs.Tables.{sign_entry, word_entry};

use tl_grammar::{Sign, Word};

/// In lower case.
static WORDS: [(&[u8], Word); 44] = [
    (b"and", Word::And),
    (b"as", Word::As),
    (b"asc", Word::Asc),
    (b"begin", Word::Begin),
    (b"bool", Word::Bool),
    (b"boolean", Word::Boolean),
    (b"by", Word::By),
    (b"commit", Word::Commit),
    (b"count", Word::Count),
    (b"create", Word::Create),
    (b"delete", Word::Delete),
    (b"desc", Word::Desc),
    (b"false", Word::False),
    (b"from", Word::From),
    (b"group", Word::Group),
    (b"index", Word::Index),
    (b"inner", Word::Inner),
    (b"insert", Word::Insert),
    (b"int", Word::Int),
    (b"integer", Word::Integer),
    (b"into", Word::Into),
    (b"is", Word::Is),
    (b"join", Word::Join),
    (b"key", Word::Key),
    (b"limit", Word::Limit),
    (b"max", Word::Max),
    (b"min", Word::Min),
    (b"not", Word::Not),
    (b"null", Word::Null),
    (b"on", Word::On),
    (b"or", Word::Or),
    (b"order", Word::Order),
    (b"primary", Word::Primary),
    (b"recover", Word::Recover),
    (b"rollback", Word::Rollback),
    (b"select", Word::Select),
    (b"set", Word::Set),
    (b"sum", Word::Sum),
    (b"table", Word::Table),
    (b"text", Word::Text),
    (b"true", Word::True),
    (b"update", Word::Update),
    (b"values", Word::Values),
    (b"where", Word::Where),
];

static SIGNS: [(&[u8], Sign); 15] = [
    (b"(", Sign::Open),
    (b")", Sign::Close),
    (b",", Sign::Comma),
    (b".", Sign::Dot),
    (b";", Sign::Semicolon),
    (b"*", Sign::Star),
    (b"+", Sign::Plus),
    (b"-", Sign::Minus),
    (b"=", Sign::Equal),
    (b"<>", Sign::NotEqual),
    (b"<", Sign::Less),
    (b"<=", Sign::LessEqual),
    (b">", Sign::Greater),
    (b">=", Sign::GreaterEqual),
    (b"!=", Sign::NotEqual),
];

/// The word that is written so, in any case.
pub fn word_of(bytes: &[u8]) -> Option<Word>
    ensures { result ≡ spelled word_spellings (str_to_ascii_lowercase bytes.now) }
{
    match word_entry(bytes, &WORDS) {
        Some(entry) => Some(entry.1),
        None => None,
    }
}

#[tactic(auto, unfolding(crate::specs::Tables::word_entry))]
fn word_entry<'a>(bytes: &[u8], words: &'a [(&'a [u8], Word)]) -> Option<&'a (&'a [u8], Word)>
    ensures { option_copied result ≡ word_entry words.now bytes.now }
{
    words
        .iter()
        .find(|entry| entry.0.eq_ignore_ascii_case(bytes))
}

/// The sign that is written so.
pub fn sign_of(bytes: &[u8]) -> Option<Sign>
    ensures { result ≡ spelled sign_spellings bytes.now }
{
    match sign_entry(bytes, &SIGNS) {
        Some(entry) => Some(entry.1),
        None => None,
    }
}

#[tactic(auto, unfolding(crate::specs::Tables::sign_entry))]
fn sign_entry<'a>(bytes: &[u8], signs: &'a [(&'a [u8], Sign)]) -> Option<&'a (&'a [u8], Sign)>
    ensures { option_copied result ≡ sign_entry signs.now bytes.now }
{
    signs.iter().find(|entry| entry.0 == bytes)
}

/// A number for each word, by which words are told apart.
pub fn word_number(word: Word) -> u8
    ensures { result ≡ word_number word }
{
    match word {
        Word::And => 0,
        Word::As => 1,
        Word::Asc => 2,
        Word::Begin => 3,
        Word::Bool => 4,
        Word::Boolean => 5,
        Word::By => 6,
        Word::Commit => 7,
        Word::Count => 8,
        Word::Create => 9,
        Word::Delete => 10,
        Word::Desc => 11,
        Word::False => 12,
        Word::From => 13,
        Word::Group => 14,
        Word::Index => 15,
        Word::Inner => 16,
        Word::Insert => 17,
        Word::Int => 18,
        Word::Integer => 19,
        Word::Into => 20,
        Word::Is => 21,
        Word::Join => 22,
        Word::Key => 23,
        Word::Limit => 24,
        Word::Max => 25,
        Word::Min => 26,
        Word::Not => 27,
        Word::Null => 28,
        Word::On => 29,
        Word::Or => 30,
        Word::Order => 31,
        Word::Primary => 32,
        Word::Recover => 33,
        Word::Rollback => 34,
        Word::Select => 35,
        Word::Set => 36,
        Word::Sum => 37,
        Word::Table => 38,
        Word::Text => 39,
        Word::True => 40,
        Word::Update => 41,
        Word::Values => 42,
        Word::Where => 43,
    }
}

/// A number for each sign, by which signs are told apart.
pub fn sign_number(sign: Sign) -> u8
    ensures { result ≡ sign_number sign }
{
    match sign {
        Sign::Open => 0,
        Sign::Close => 1,
        Sign::Comma => 2,
        Sign::Dot => 3,
        Sign::Semicolon => 4,
        Sign::Star => 5,
        Sign::Plus => 6,
        Sign::Minus => 7,
        Sign::Equal => 8,
        Sign::NotEqual => 9,
        Sign::Less => 10,
        Sign::LessEqual => 11,
        Sign::Greater => 12,
        Sign::GreaterEqual => 13,
    }
}
