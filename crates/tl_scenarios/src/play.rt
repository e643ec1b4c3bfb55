use crate::case::Case;
use std::alloc::Global;
use std::fmt::{self, Display, Formatter, Write};
use tl_base::{Bytes, Items, NoMemory, Text};
use tl_io::{MemorySink, MemorySource, NoGate};
use tl_tell::{Ended, run_tell};

/// The words of the command line and the script.
#[derive(Clone, Copy)]
pub struct Call<'a> {
    pub words: &'a str,
    pub script: &'a str,
}

fn words_of(alloc: Global, words: &str) -> Result<Items<Text>, NoMemory> {
    let mut texts = Items::new(alloc);
    for word in words.split_whitespace() {
        texts.push(Text::from_str(alloc, word)?)?;
    }
    Ok(texts)
}

/// The call's script, and behind it as many bytes more as the case says.
fn source_of(alloc: Global, case: &Case, call: &Call) -> Result<MemorySource, NoMemory> {
    let mut bytes = Bytes::from_slice(alloc, call.script.as_bytes())?;
    let byte = case.told("byte").parse::<u8>().unwrap_or(0);
    for _ in 0..case.more() {
        bytes.push(byte)?;
    }
    let failing = case.numbers(alloc, "failing_reads")?;
    Ok(MemorySource::new(bytes, case.number("piece", 4096).max(1), failing))
}

fn sink_of(alloc: Global, case: &Case) -> Result<MemorySink, NoMemory> {
    let failing = case.numbers(alloc, "failing_writes")?;
    MemorySink::new(alloc, 100_000, case.number("piece", 4096).max(1), failing)
}

/// The reason is told in this line, and the status is this one.
fn ends(alloc: Global, ended: &Ended, status: u32, says: &str) -> Result<bool, NoMemory> {
    let told = format!(in alloc; "{}", ended.reason)?;
    Ok(u32::from(ended.status) == status && told.as_str() == says)
}

/// Whether the call ends as the case says, and writes its text.
pub fn plays(alloc: Global, case: &Case, call: &Call) -> Result<bool, NoMemory> {
    let words = words_of(alloc, call.words)?;
    let mut source = source_of(alloc, case, call)?;
    let mut sink = sink_of(alloc, case)?;
    let ended = run_tell(alloc, words.as_slice(), &mut source, &mut sink, &NoGate);
    let says = match case.told("says") {
        "" => "tell: done",
        says => says,
    };
    let ends = ends(alloc, &ended, case.number("status", 0), says)?;
    Ok(ends && sink.held() == case.text.as_bytes())
}

/// A script whose lines stand behind one another with ` / ` between, and ends with a line feed.
fn script_of(alloc: Global, lines: &str) -> Result<Bytes, NoMemory> {
    let mut bytes = Bytes::new(alloc);
    for line in lines.split(" / ") {
        bytes.extend_from_slice(line.as_bytes())?;
        bytes.push(b'\n')?;
    }
    Ok(bytes)
}

/// What is refused.
#[derive(Clone, Copy)]
pub enum Kind {
    Scripts,
    Words,
}

impl Display for Kind {
    fn fmt<W: Write>(&self, f: &mut Formatter<W>) -> fmt::Result {
        f.write_str(match self {
            Kind::Scripts => "scripts",
            Kind::Words => "words",
        })
    }
}

/// Whether the script is refused at this line, or the words at this place, and nothing is written. At 0 the script runs.
pub fn refuses(alloc: Global, place: &str, refused: &str, kind: Kind) -> Result<bool, NoMemory> {
    let (words, script, status) = match kind {
        Kind::Scripts => ("", refused, 2),
        Kind::Words => (refused, "", 1),
    };
    let words = words_of(alloc, words)?;
    let mut source = MemorySource::new(script_of(alloc, script)?, 4096, Items::new(alloc));
    let mut sink = MemorySink::new(alloc, 100_000, 4096, Items::new(alloc))?;
    let ended = run_tell(alloc, words.as_slice(), &mut source, &mut sink, &NoGate);
    let says = says_of(alloc, place, kind)?;
    match place {
        "0" => ends(alloc, &ended, 0, "tell: done"),
        _ => Ok(sink.held().is_empty() && ends(alloc, &ended, status, says.as_str())?),
    }
}

fn says_of(alloc: Global, place: &str, kind: Kind) -> Result<String, NoMemory> {
    let says = match kind {
        Kind::Scripts => format!(in alloc; "tell: line {place}: NotBuilt")?,
        Kind::Words => format!(in alloc; "tell: word {place} refused")?,
    };
    Ok(says)
}
