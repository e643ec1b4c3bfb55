//! The program `tell`: it reads a session script from standard input, runs it, and prints all replies and the final
//! tables. What it promises stands at `tl_tell::run_tell`.
#![tactic(auto)]

mod line;

use std::process::ExitCode;
use std::{env, io};
use tl_base::{Items, Text};
use tl_io::{InputSource, NoGate, OutputSink};
use tl_tell::{Ended, Reason, run_tell};

/// The words of the command line, without the program's name, or why there are none. A word that isn't UTF-8 is
/// refused as any other word is, at place 1.
fn words(rt: &HostRuntime) -> Result<Items<Text>, Reason> {
    let mut given = match env::args(rt) {
        Ok(given) => given,
        Err(error) => return Err(reason_of_words(error.kind())),
    };
    let _program = given.next();
    let mut words = Items::new(rt.alloc());
    for word in given {
        if words.push(Text::from_string(word)).is_err() {
            return Err(Reason::NoMemory);
        }
    }
    Ok(words)
}

fn reason_of_words(kind: io::ErrorKind) -> Reason {
    match kind {
        io::ErrorKind::InvalidData => Reason::Words { place: 1 },
        _ => Reason::NoMemory,
    }
}

fn main(rt: HostRuntime) -> ExitCode {
    let ended = match words(&rt) {
        Ok(words) => {
            let mut input = InputSource::new(rt.reader());
            let mut output = OutputSink::new(io::writer(&rt));
            run_tell(
                rt.alloc(),
                words.as_slice(),
                &mut input,
                &mut output,
                &NoGate,
            )
        }
        Err(reason) => Ended::without_run(rt.alloc(), reason),
    };
    line::report(&rt, ended.reason);
    ExitCode::from(ended.status)
}
