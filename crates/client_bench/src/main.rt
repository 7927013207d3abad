//! Measures of a realm alone, each over a run of this program: `client_bench S N`.
#![tactic(auto)]

mod acts;
mod fault;
mod keeping;
mod run;

use crate::fault::BenchFault;
use std::env;
use std::io::Error;
use std::process::ExitCode;

const USAGE: &str = "\
usage: client_bench S N
  opens S sessions, each with 4 subscriptions (a topic, a prefix, a wildcard, and a topic of all) and 2 registrations,
  and then does each operation N times in each of 8 turns: a PUBLISH to a topic with one member, a CALL and its YIELD,
  a SUBSCRIBE and its UNSUBSCRIBE, a REGISTER and its UNREGISTER, and to connect, say HELLO and hang up; before these it
  saves and loads the realm 8 times
  Counts are printed, and on standard error the nanoseconds of an operation in its fastest turn, its messages being read
  before. S is at most 1,000,000, and so is N";

// Returns the words of the command line, without the program's own name.
fn words_of(rt: &HostRuntime) -> Result<Vec<String>, Error> {
    let mut words = Vec::new(rt.alloc());
    for word in env::args(rt)?.skip(1) {
        words.push(word)?;
    }
    Ok(words)
}

// The number of a word, from 1 to 1,000,000.
fn number_of(word: &str) -> Option<u64> {
    word.parse::<u64>()
        .ok()
        .filter(|number| *number > 0 && *number <= 1_000_000)
}

// Says on standard error how the program is used.
fn misuse(rt: &HostRuntime) -> ExitCode {
    let _ = eprintln!(rt; "{USAGE}");
    ExitCode::from(2)
}

// Returns the status of a run, and prints its fault on standard error.
fn ended(rt: &HostRuntime, done: Result<(), BenchFault>) -> ExitCode {
    match done {
        Ok(()) => ExitCode::SUCCESS,
        Err(fault) => {
            let _ = eprintln!(rt; "error: {fault}");
            ExitCode::from(1)
        }
    }
}

// What the words of the command line ask for.
fn ordered(rt: &HostRuntime, words: &[String]) -> ExitCode {
    let [sessions, times] = words else {
        return misuse(rt);
    };
    match (number_of(sessions.as_str()), number_of(times.as_str())) {
        (Some(sessions), Some(times)) => ended(rt, run::run(rt, sessions, times)),
        _ => misuse(rt),
    }
}

fn main(rt: HostRuntime) -> ExitCode {
    match words_of(&rt) {
        Ok(words) => ordered(&rt, words.as_slice()),
        Err(_) => misuse(&rt),
    }
}
