//! Measures of the acceptor's store: `store_bench memory N`, `store_bench file PATH N`, and either with `cut FLOOR OCTETS` for N.
#![tactic(auto)]

mod body;
mod fault;
mod run;

use crate::fault::BenchFault;
use crate::run::Measure;
use std::env;
use std::io::Error;
use std::process::ExitCode;

const USAGE: &str = "\
usage: store_bench memory N
       store_bench file PATH N
  commits N votes of 200 octets, each alone, then N promises with a vote each, after what the store has; the counts are
  printed, and on standard error the nanoseconds that opening, loading and a commit took
       store_bench memory cut FLOOR OCTETS
       store_bench file PATH cut FLOOR OCTETS
  fills an empty store with FLOOR + 64 votes of 200 octets, and commits a snapshot of OCTETS octets at FLOOR";

// Returns the words of the command line, without the program's own name.
fn words_of(rt: &HostRuntime) -> Result<Vec<String>, Error> {
    let mut words = Vec::new(rt.alloc());
    for word in env::args(rt)?.skip(1) {
        words.push(word)?;
    }
    Ok(words)
}

// Says on standard error how the program is used.
fn misuse(rt: &HostRuntime) -> ExitCode {
    let _ = eprintln!(rt; "{USAGE}");
    ExitCode::from(2)
}

// Returns the status of a run, and prints its fault on standard error.
fn ended(rt: &HostRuntime, done: Result<(), BenchFault>) -> ExitCode {
    match done {
        Ok(()) => ExitCode::SUCCESS,
        Err(fault) => {
            let _ = eprintln!(rt; "error: {fault}");
            ExitCode::from(1)
        }
    }
}

// Returns what the words of a measure ask for.
fn measure_of(words: &[String]) -> Option<Measure> {
    match words {
        [times] => Some(Measure::Commits(times.parse().ok()?)),
        [cut, floor, octets] if cut.as_str() == "cut" => Some(Measure::Cut(
            floor.parse().ok()?,
            octets.parse().ok()?,
        )),
        _ => None,
    }
}

// Measures a store in memory.
fn memory(rt: &HostRuntime, words: &[String]) -> ExitCode {
    match measure_of(words) {
        Some(measure) => ended(rt, run::in_memory(rt, measure)),
        None => misuse(rt),
    }
}

// Measures a store on a file.
fn file(rt: &HostRuntime, path: &str, words: &[String]) -> ExitCode {
    match measure_of(words) {
        Some(measure) => ended(rt, run::on_file(rt, path, measure)),
        None => misuse(rt),
    }
}

fn main(rt: HostRuntime) -> ExitCode {
    let Ok(words) = words_of(&rt) else {
        return misuse(&rt);
    };
    match words.as_slice() {
        [kind, rest @ ..] if kind.as_str() == "memory" => memory(&rt, rest),
        [kind, path, rest @ ..] if kind.as_str() == "file" => file(&rt, path.as_str(), rest),
        _ => misuse(&rt),
    }
}
