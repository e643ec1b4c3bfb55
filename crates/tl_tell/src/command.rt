//! The words of the command line.

ghost use Rattle.std.specs.Prelude.{◌≡◌, ◌+◌, ◌*◌, ◌<◌, ◌≤◌, IfOk, length};
ghost use Rattle.std.specs.Option.{option_copied, option_map};
ghost use Rattle.tl_tell.specs.Words.{AreWithin, GetsValue, Reads, ReadsOn, behind, count, given_by, greatest, name_in, settings_of, value_of, with_value, word_in, word_of, words_of};

use tl_base::{Settings, Text};
use tl_script::number_within;

/// The place, from 1, of the first word that can't follow the words before it; one more than there are words where
/// something is missing at the end.
#[derive(Clone, Copy, Debug, PartialEq, Eq)]
pub struct RefusedWord(pub u32);

/// An option of the command line.
#[derive(Clone, Copy, Debug, PartialEq, Eq)]
enum Name {
    Shards,
    Managers,
    Budget,
}

/// What a word is.
#[derive(Clone, Copy)]
enum Word {
    /// An option with its value.
    Gives(Name, u32),
    /// An option whose value is the next word.
    Awaits(Name),
}

/// What the words have given so far.
#[derive(Clone, Copy)]
struct Given {
    shards: Option<u32>,
    managers: Option<u32>,
    budget: Option<u32>,
}

impl Given {
    fn of(&self, name: Name) -> Option<u32>
        ensures { result ≡ given_by self.now name }
    {
        match name {
            Name::Shards => self.shards,
            Name::Managers => self.managers,
            Name::Budget => self.budget,
        }
    }

    fn set(&mut self, name: Name, value: u32)
        ensures { self.new ≡ with_value name value self.old }
    {
        match name {
            Name::Shards => self.shards = Some(value),
            Name::Managers => self.managers = Some(value),
            Name::Budget => self.budget = Some(value),
        }
    }

    fn settings(&self) -> Settings
        requires within { AreWithin self.now }
        ensures settings { result ≡ settings_of self.now }
        ensures shards { (1 ≤ result.shards) × (result.shards ≤ 16) }
        ensures managers { (1 ≤ result.managers) × (result.managers ≤ 4) }
    {
        Settings {
            shards: self.shards.unwrap_or(4) as u8,
            managers: self.managers.unwrap_or(1) as u8,
            fan: 32,
            budget: self.budget.unwrap_or(20_000),
            threads: false,
        }
    }
}

/// The settings that the words give: `--shards` from 1 to 16, else 4; `--managers` from 1 to 4, else 1; `--budget` from
/// 1 to 100,000, else 20,000. Each comes at most once, in any order, as `--name value` or `--name=value`, with a value
/// of 1 to 10 digits. Every other word is refused.
pub fn read_words(words: &[Text]) -> Result<Settings, RefusedWord>
    ensures reads { Reads result (words_of words.now) }
    ensures shards { IfOk result (λ settings. (1 ≤ settings.shards) × (settings.shards ≤ 16)) }
    ensures managers { IfOk result (λ settings. (1 ≤ settings.managers) × (settings.managers ≤ 4)) }
{
    let mut given = Given {
        shards: None,
        managers: None,
        budget: None,
    };
    let mut at = 0;
    while at < words.len() {
        at = read_option(words, at, &mut given)?;
    }
    Ok(given.settings())
}

/// The option at this place, from 0; and the place behind it.
fn read_option(words: &[Text], at: usize, given: &mut Given) -> Result<usize, RefusedWord>
    requires there { at < length words.now }
    requires few { at ≤ 2 * count given.old }
    requires within { AreWithin given.old }
    ensures reads { ReadsOn words.now at given.old result given.new }
    ensures few { IfOk result (λ next. next ≤ 2 * count given.new) }
    ensures within { AreWithin given.new }
{
    match word_in(given, words[at].as_bytes()) {
        Some(Word::Gives(name, value)) => {
            given.set(name, value);
            Ok(at + 1)
        }
        Some(Word::Awaits(name)) => {
            let value = value_at(words, at + 1, name)?;
            given.set(name, value);
            Ok(at + 2)
        }
        None => Err(refused(at)),
    }
}

/// What a word is behind those that have given this.
#[tactic(auto, unfolding(crate::specs::Words::word_in))]
fn word_in(given: &Given, word: &[u8]) -> Option<Word>
    ensures { result ≡ word_in given.now word.now }
{
    let (name, rest) = name_in(word)?;
    if given.of(name).is_some() {
        return None;
    }
    word_of(name, rest)
}

/// Nothing stands behind the name, or `=` and a value.
fn word_of(name: Name, rest: &[u8]) -> Option<Word>
    ensures { result ≡ word_of name rest.now }
{
    let Some((sign, digits)) = rest.split_first() else {
        return Some(Word::Awaits(name));
    };
    if *sign != b'=' {
        return None;
    }
    let value = value_of(name, digits)?;
    Some(Word::Gives(name, value))
}

/// The option that a word begins with, and what stands behind its name.
#[tactic(auto, unfolding(crate::specs::Words::name_in))]
fn name_in(word: &[u8]) -> Option<(Name, &[u8])>
    ensures { option_map (λ found. (found.0, found.1.now)) result ≡ name_in word.now }
{
    if let Some(rest) = behind(b"--shards", word) {
        Some((Name::Shards, rest))
    } else if let Some(rest) = behind(b"--managers", word) {
        Some((Name::Managers, rest))
    } else if let Some(rest) = behind(b"--budget", word) {
        Some((Name::Budget, rest))
    } else {
        None
    }
}

/// What stands behind this text at the front of a word.
fn behind<'a>(text: &[u8], word: &'a [u8]) -> Option<&'a [u8]>
    ensures { option_copied result ≡ behind text.now word.now }
{
    word.strip_prefix(text)
}

/// The value in the word at this place, from 0.
fn value_at(words: &[Text], at: usize, name: Name) -> Result<u32, RefusedWord>
    requires few { at ≤ 6 }
    ensures { GetsValue words.now at name result }
{
    let Some(word) = words.get(at) else {
        return Err(refused(at));
    };
    value_of(name, word.as_bytes()).ok_or(refused(at))
}

/// A value of 1 to 10 digits, from 1 to the greatest one of the option.
#[tactic(auto, unfolding(crate::specs::Words::value_of))]
fn value_of(name: Name, digits: &[u8]) -> Option<u32>
    ensures { result ≡ value_of name digits.now }
{
    if digits.len() > 10 {
        return None;
    }
    number_within(digits, 1, greatest(name))
}

fn greatest(name: Name) -> u32
    ensures { result ≡ greatest name }
{
    match name {
        Name::Shards => 16,
        Name::Managers => 4,
        Name::Budget => 100_000,
    }
}

/// The word at this place, from 0, is refused.
fn refused(at: usize) -> RefusedWord
    requires { at ≤ 6 }
    ensures { result.0 ≡ at + 1 }
{
    RefusedWord((at + 1) as u32)
}
