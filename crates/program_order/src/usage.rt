// The fault of a wrong command line: its text and its status.
ghost use Rattle.std.specs.Prelude.{◌≡◌};
ghost use Rattle.clap.specs.Words.{kind_of};
ghost use Rattle.clap.specs.declared.error.kind.ErrorKind.TheVariants.{OutOfMemory};
ghost use Rattle.program_order.specs.Usage.{usage_status_of};
ghost use Rattle.program_order.specs.declared.usage.UsageFault.TheVariants.{Memory};

use clap::error::ErrorKind;
use std::alloc::{AllocError, Global};
use thiserror::Error;

// How to use the program, for a command line that is wrong.
const USAGE: &str = "\
Usage: wampd stream [--realm NAME]
       wampd script --nodes N [--realm NAME]
       wampd serve --nodes N --port P --key K [--dir FOLDER] [--realm NAME]

  stream        serves one client: its RawSocket octets on standard input, the router's on standard output
  script        plays a cluster's schedule, one event a line on standard input, and writes what became of it
  serve         runs a cluster whose nodes clients connect to, until standard input ends
  --nodes N     how many nodes the cluster has, 3 to 7
  --port P      the port of node 1, 1024 to 65529; node I listens at port P+I-1
  --key K       the key of the cluster's random draws, 0 to 18446744073709551615
  --dir FOLDER  the folder that keeps the nodes' rows; in memory if none is named
  --realm NAME  the realm that is served; realm1 if none is named

For more information, try 'wampd --help'.";

/// Why a command line is not an order.
#[derive(Debug, Drop, Error)]
pub enum UsageFault {
    /// The words are not an order. The text says what is wrong with them, and how to use the program.
    #[error("{0}")]
    Usage(String),
    #[error("memory")]
    Memory,
}

impl UsageFault {
    /// Returns the status with which the program ends: 2, or 5 if memory ran out.
    pub fn status(&self) -> u8
        ensures { result ≡ usage_status_of self.now }
    {
        match self {
            UsageFault::Usage(_) => 2,
            UsageFault::Memory => 5,
        }
    }
}

impl From<AllocError> for UsageFault {
    ghost from_gives = { λ _ fault. fault ≡ Memory };

    fn from(_error: AllocError) -> UsageFault {
        UsageFault::Memory
    }
}

/// Returns the fault of a command line with a word that is not UTF-8.
pub fn unreadable_words(alloc: Global) -> UsageFault {
    usage(alloc, "error: a word of the command line is not UTF-8")
}

// Returns the fault that the command line's parser found.
pub(crate) fn fault_of(alloc: Global, error: &clap::Error) -> UsageFault
    ensures { kind_of error.now ≡ OutOfMemory → result ≡ Memory }
{
    if error.kind() == ErrorKind::OutOfMemory {
        return UsageFault::Memory;
    }
    match error.to_string(alloc) {
        Ok(text) => usage(alloc, cause_in(text.as_str())),
        Err(_) => UsageFault::Memory,
    }
}

// Returns the beginning of what the parser says: the cause, and what may have been meant. `USAGE` replaces the usage that follows.
fn cause_in(text: &str) -> &str {
    for end in ["\n\nUsage:", "\n\nFor more information"] {
        if let Some((cause, _usage)) = text.split_once(end) {
            return cause;
        }
    }
    text
}

// Returns the fault with this cause.
pub(crate) fn usage(alloc: Global, cause: &str) -> UsageFault {
    match format!(in alloc; "{cause}\n\n{USAGE}") {
        Ok(text) => UsageFault::Usage(text),
        Err(_) => UsageFault::Memory,
    }
}
