//! Runs scripts through the program's top call, over sources and sinks in memory, and compares how each call ended and
//! what it wrote with what stands beside the script in `data/`: one line for each case of `cases.txt`, and one each for
//! the scripts of `refused.txt` and the words of `words.txt`. The exit status is 0 where all is as it should be.
#![tactic(auto)]

mod case;
mod play;

use case::{Case, case_of};
use play::{Call, Kind, plays, refuses};
use std::alloc::Global;
use std::process::ExitCode;
use std::{fs, io};
use tl_base::NoMemory;
use tl_tell::Reason;

/// Whether the case is as it should be, over each number of shards and managers and each count that it names.
fn holds(alloc: Global, case: &Case) -> Result<bool, NoMemory> {
    for shards in ["1", "4", "16"] {
        for managers in 1..case.number("managers", 1) + 1 {
            let words = format!(in alloc;
                "{} --shards {shards} --managers {managers}",
                case.told("words")
            )?;
            if !holds_for_counts(alloc, case, words.as_str())? {
                return Ok(false);
            }
        }
    }
    Ok(true)
}

/// The same with these words. In the script `{n}` stands for the count.
fn holds_for_counts(alloc: Global, case: &Case, words: &str) -> Result<bool, NoMemory> {
    let (before, after) = case.script.split_once("{n}").unwrap_or((case.script, ""));
    for count in case.number("least", 0)..case.number("greatest", 0) + 1 {
        let script = match case.number("greatest", 0) {
            0 => format!(in alloc; "{before}{after}")?,
            _ => format!(in alloc; "{before}{count}{after}")?,
        };
        let call = Call {
            words,
            script: script.as_str(),
        };
        if !plays(alloc, case, &call)? {
            return Ok(false);
        }
    }
    Ok(true)
}

fn verdict(holds: bool) -> &'static str {
    match holds {
        true => "as it should be",
        false => "not as it should be",
    }
}

fn run_cases(rt: &HostRuntime, text: &str) -> io::Result<bool> {
    let mut all = true;
    for chunk in text.split("%case ") {
        if let Some(case) = case_of(chunk) {
            let holds = holds(rt.alloc(), &case).unwrap_or(false);
            println!(rt; "{}: {}", case.name, verdict(holds))?;
            all &= holds;
        }
    }
    Ok(all)
}

/// Lines of a number, a bar and what is refused there; at 0 it is run. Tells those that aren't as they should be.
fn run_refusals(rt: &HostRuntime, text: &str, kind: Kind) -> io::Result<bool> {
    let mut all = true;
    let mut count = 0_u32;
    for line in text.split("\n") {
        if let Some((place, refused)) = line.split_once("|") {
            if !refuses(rt.alloc(), place, refused, kind).unwrap_or(false) {
                println!(rt; "not as it should be: {line}")?;
                all = false;
            }
            count = count.saturating_add(1);
        }
    }
    if all {
        println!(rt; "{count} {kind}: as they should be")?;
    }
    Ok(all)
}

fn run(rt: &HostRuntime) -> io::Result<bool> {
    let cases = run_cases(rt, fs::read_to_string(rt, "cases.txt")?.as_str())?;
    let scripts = run_refusals(
        rt,
        fs::read_to_string(rt, "refused.txt")?.as_str(),
        Kind::Scripts,
    )?;
    let words = run_refusals(
        rt,
        fs::read_to_string(rt, "words.txt")?.as_str(),
        Kind::Words,
    )?;
    println!(rt; "{}", Reason::NoMemory)?;
    Ok(cases && scripts && words)
}

fn main(rt: HostRuntime) -> ExitCode {
    match run(&rt) {
        Ok(true) => ExitCode::SUCCESS,
        Ok(false) => ExitCode::FAILURE,
        Err(error) => {
            let _told: io::Result<()> = eprintln!(rt; "{error}");
            ExitCode::FAILURE
        }
    }
}
