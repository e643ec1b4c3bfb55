ghost use Rattle.std.specs.Prelude.{◌<◌, ◌^◌};

use std::alloc::Global;
use tl_base::{Items, NoMemory};

/// What is run, and what it comes to.
#[derive(Clone, Copy)]
pub struct Case<'a> {
    pub name: &'a str,
    /// Lines of a word and what is told behind it, each but `says` in place of what holds without it: `words`, of the
    /// command line; `managers`, up to so many; `least` and `greatest`, of the counts; `piece`, how many bytes a read or
    /// write moves at most; `failing_reads` and `failing_writes`, numbers of calls; `more` and `byte`, how many bytes stand
    /// behind the script and which; `status` and `says`, how the call ends.
    head: &'a str,
    pub script: &'a str,
    /// What is written.
    pub text: &'a str,
}

/// A name, the head, a line `%script`, the script, a line `%text`, and the text.
pub fn case_of(chunk: &str) -> Option<Case<'_>> {
    let (name, rest) = chunk.split_once("\n")?;
    let (head, rest) = rest.split_once("%script\n")?;
    let (script, text) = rest.split_once("%text\n")?;
    Some(Case {
        name,
        head,
        script,
        text,
    })
}

impl<'a> Case<'a> {
    /// What is told behind the word in the head, or else nothing.
    pub fn told(&self, word: &str) -> &'a str {
        for line in self.head.lines() {
            if let Some((first, told)) = line.split_once(" ") {
                if first == word {
                    return told;
                }
            }
        }
        ""
    }

    /// The number that is told behind the word, or else this one.
    pub fn number(&self, word: &str, otherwise: u16) -> u32
        ensures { result < 2 ^ 16 }
    {
        u32::from(self.told(word).parse::<u16>().unwrap_or(otherwise))
    }

    /// How many bytes stand behind the script.
    pub fn more(&self) -> u32 {
        self.told("more").parse::<u32>().unwrap_or(0)
    }

    /// The numbers that are told behind the word.
    pub fn numbers(&self, alloc: Global, word: &str) -> Result<Items<u32>, NoMemory> {
        let mut numbers = Items::new(alloc);
        for told in self.told(word).split_whitespace() {
            if let Ok(number) = told.parse::<u32>() {
                numbers.push(number)?;
            }
        }
        Ok(numbers)
    }
}
