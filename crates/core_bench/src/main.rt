//! Measures of the consensus core, each over a run of this program: `core_bench log N W`, `core_bench codec N`,
//! `core_bench nodes N W number|act`, `core_bench cuts N W`, `core_bench actors N W`, `core_bench threads N W`, `core_bench rescue N` and
//! `core_bench all N W`.
#![tactic(auto)]

mod actors;
mod bodies;
mod cluster;
mod codec;
mod fault;
mod log;
mod nodes;
mod rescue;
mod threads;

use crate::cluster::Load;
use crate::fault::BenchFault;
use std::env;
use std::io::Error;
use std::process::ExitCode;
use std::thread::Threads;

const USAGE: &str = "\
usage: core_bench log N W
       core_bench codec N
       core_bench nodes N W number|act
       core_bench cuts N W
       core_bench actors N W
       core_bench threads N W
       core_bench rescue N
       core_bench all N W
  log N W  learns N entries in windows of W slots, the last slot of each first, and applies them
  codec N  puts and takes a PUBLISH with 200 octets of text N times a turn, beside writing it and reading its text
  nodes N W number|act
           takes N acts with such bodies, W at a time, at two of three nodes by turns, and passes their packets by hand
  cuts N W does the same with numbers, at most 16 at a time, while each node cuts its log after W acts
  actors N W
           does the same with numbers at three actors over stores in memory
  threads N W
           takes N acts at the second of three actors, W at a time, each actor on a thread of its own
  rescue N lets three nodes apply N acts, and computes rescues of the one that leads
  all N W  does each, one after the other
  Counts are printed, and on standard error the nanoseconds of an entry, a call, an event, an act or a rescue";

// Returns the words of the command line, without the program's own name.
fn words_of(rt: &HostRuntime) -> Result<Vec<String>, Error> {
    let mut words = Vec::new(rt.alloc());
    for word in env::args(rt)?.skip(1) {
        words.push(word)?;
    }
    Ok(words)
}

// The number of a word, from 1 on.
fn number_of(word: &str) -> Option<u64> {
    word.parse::<u64>().ok().filter(|number| *number > 0)
}

// Says on standard error how the program is used.
fn misuse(rt: &HostRuntime) -> ExitCode {
    let _ = eprintln!(rt; "{USAGE}");
    ExitCode::from(2)
}

// Returns the status of a run, and prints its fault on standard error.
fn ended(rt: &HostRuntime, done: Result<(), BenchFault>) -> ExitCode {
    match done {
        Ok(()) => ExitCode::SUCCESS,
        Err(fault) => {
            let _ = eprintln!(rt; "error: {fault}");
            ExitCode::from(1)
        }
    }
}

// What is measured.
#[derive(Clone, Copy)]
enum Measure {
    Log,
    Codec,
    Numbers,
    Acts,
    Cuts,
    Actors,
    Threads,
    Rescue,
}

// A measure's name, the body that is named after its numbers, how many words there are with these, and what is measured.
type Row = (&'static str, &'static str, usize, &'static [Measure]);

const MEASURES: &[Row] = &[
    ("log", "", 3, &[Measure::Log]),
    ("codec", "", 2, &[Measure::Codec]),
    ("nodes", "number", 4, &[Measure::Numbers]),
    ("nodes", "act", 4, &[Measure::Acts]),
    ("cuts", "", 3, &[Measure::Cuts]),
    ("actors", "", 3, &[Measure::Actors]),
    ("threads", "", 3, &[Measure::Threads]),
    ("rescue", "", 2, &[Measure::Rescue]),
    ("all", "", 3, EACH),
];

const EACH: &[Measure] = &[
    Measure::Log,
    Measure::Codec,
    Measure::Numbers,
    Measure::Acts,
    Measure::Cuts,
    Measure::Actors,
    Measure::Threads,
    Measure::Rescue,
];

// Returns the word at this place, empty if there is none.
fn word(words: &[String], place: usize) -> &str {
    match words.get(place) {
        Some(word) => word.as_str(),
        None => "",
    }
}

// What the words name.
fn measures_of(words: &[String]) -> Option<&'static [Measure]> {
    for (name, body, count, measures) in MEASURES {
        if *count == words.len() && *name == word(words, 0) && *body == word(words, 3) {
            return Some(*measures);
        }
    }
    None
}

// How many acts the words name, and how many at a time.
fn load_of(words: &[String]) -> Option<Load> {
    let acts = number_of(word(words, 1))?;
    let width = if words.len() < 3 {
        1
    } else {
        number_of(word(words, 2))?
    };
    Some(Load { acts, width })
}

fn run_one(
    rt: &HostRuntime,
    threads: &impl Threads,
    measure: Measure,
    load: Load,
) -> Result<(), BenchFault> {
    match measure {
        Measure::Log => log::run(rt, load),
        Measure::Codec => codec::run(rt, load.acts),
        Measure::Numbers => nodes::run_numbers(rt, load),
        Measure::Acts => nodes::run_acts(rt, load),
        Measure::Cuts => nodes::run_cuts(rt, load),
        Measure::Actors => actors::run(rt, load),
        Measure::Threads => threads::run(rt, threads, load),
        Measure::Rescue => rescue::run(rt, load),
    }
}

// One after the other.
fn run_each(
    rt: &HostRuntime,
    threads: &impl Threads,
    measures: &[Measure],
    load: Load,
) -> Result<(), BenchFault> {
    for measure in measures {
        run_one(rt, threads, *measure, load)?;
    }
    Ok(())
}

// What the words of the command line ask for.
fn ordered(rt: &HostRuntime, threads: &impl Threads, words: &[String]) -> ExitCode {
    match (measures_of(words), load_of(words)) {
        (Some(measures), Some(load)) => ended(rt, run_each(rt, threads, measures, load)),
        _ => misuse(rt),
    }
}

fn main(rt: HostRuntime) -> ExitCode {
    match words_of(&rt) {
        Ok(words) => ordered(&rt, &rt, words.as_slice()),
        Err(_) => misuse(&rt),
    }
}
