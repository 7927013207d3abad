// What a porter says of its clients on standard error: a line for each that was refused or closed, and a count where there are many.
ghost use Rattle.std.specs.Prelude.{◌≡◌};
ghost use Rattle.serve_connections.specs.Lines.{is_told};

use client_listener::ListenFault;
use std::net::SocketAddr;

/// How many clients have a line of their own within a second, for one cause.
const MOST_LINES: u32 = 10;

/// How many ticks of 100 ms that second has.
const TICKS: u32 = 10;

/// How many causes there are.
const CAUSES: usize = 9;

// Why a client was refused or closed, if that is to be said.
#[derive(Clone, Copy, Drop)]
pub(crate) enum Cause {
    // It was refused: too many are there, memory ran out, or its handshake is none.
    Full,
    NoRoom,
    Handshake,
    // It is closed: it sent no message, or a part of a frame; it took nothing; what it sent is no frame; memory ran out; or it takes no message
    // so long.
    NoHello,
    NoMore,
    Untaken,
    Frame,
    Memory,
    Wide,
}

impl Cause {
    // Returns the cause that a fault is. A stream that failed is none: the client is gone, or the node has released it.
    pub fn of(fault: ListenFault) -> Option<Cause> {
        match fault {
            ListenFault::Handshake => Some(Cause::Handshake),
            ListenFault::Frame => Some(Cause::Frame),
            ListenFault::Memory => Some(Cause::Memory),
            ListenFault::Wide => Some(Cause::Wide),
            ListenFault::Read | ListenFault::Write | ListenFault::Turns => None,
        }
    }

    // Returns its place among the causes.
    fn place(self) -> usize {
        match self {
            Cause::Full => 0,
            Cause::NoRoom => 1,
            Cause::Handshake => 2,
            Cause::NoHello => 3,
            Cause::NoMore => 4,
            Cause::Untaken => 5,
            Cause::Frame => 6,
            Cause::Memory => 7,
            Cause::Wide => 8,
        }
    }

    // Returns what is said of the client.
    fn text(self) -> &'static str {
        match self {
            Cause::Full => "a client was refused: 256 connections are open",
            Cause::NoRoom => "a client was refused: out of memory",
            Cause::Handshake =>
                "a client was refused: the handshake is refused, not answered or cut short",
            Cause::NoHello => "a client is closed: no message came within 10 seconds",
            Cause::NoMore => "a client is closed: a frame did not go on for 60 seconds",
            Cause::Untaken => "a client is closed: it took nothing for 10 seconds",
            Cause::Frame => "a client is closed: the client sent what is no frame",
            Cause::Memory => "a client is closed: out of memory",
            Cause::Wide => "a client is closed: a message or PONG is longer than the client takes",
        }
    }
}

// Returns whether one more client has a line, if `told` had one.
fn is_told(told: u32) -> bool
    ensures { result ≡ is_told told }
{
    told < MOST_LINES
}

// How many clients had a line within this second, and how many more there were, for one cause.
#[derive(Clone, Copy, Drop)]
struct Tally {
    cause: Option<Cause>,
    told: u32,
    untold: u32,
}

// What a porter has said within this second.
#[derive(Drop)]
pub(crate) struct Lines {
    node: u8,
    tallies: [Tally; CAUSES],
    // How many ticks are left of the second, if anything was said in it.
    ticks: Option<u32>,
}

impl Lines {
    // Returns the lines of a porter that has said nothing.
    pub fn new(node: u8) -> Lines {
        Lines {
            node,
            tallies: [Tally {
                cause: None,
                told: 0,
                untold: 0,
            }; CAUSES],
            ticks: None,
        }
    }

    // Returns whether ticks are counted.
    pub fn is_timed(&self) -> bool {
        self.ticks.is_some()
    }

    // Says why this client was refused or closed, or counts it if ten were said so within this second.
    pub fn tell<R: Eprint>(&mut self, rt: &R, cause: Cause, client: SocketAddr) {
        let Some(tally) = self.tallies.get_mut(cause.place()) else {
            return;
        };
        tally.cause = Some(cause);
        if self.ticks.is_none() {
            self.ticks = Some(TICKS);
        }
        if !is_told(tally.told) {
            tally.untold = tally.untold.saturating_add(1);
            return;
        }
        tally.told = tally.told.saturating_add(1);
        let _told = eprintln!(rt; "node {}: {} ({client})", self.node, cause.text());
    }

    // Counts a tick. At the end of the second says how many more clients there were.
    pub fn tick<R: Eprint>(&mut self, rt: &R) {
        let Some(ticks) = self.ticks else {
            return;
        };
        if ticks > 0 {
            self.ticks = Some(ticks - 1);
            return;
        }
        self.ticks = None;
        let node = self.node;
        for tally in &mut self.tallies {
            tally.end(rt, node);
        }
    }
}

impl Tally {
    // Ends the second: says how many clients had no line, if any.
    fn end<R: Eprint>(&mut self, rt: &R, node: u8) {
        if self.untold > 0
            && let Some(cause) = self.cause
        {
            let _told = eprintln!(rt;
                "node {node}: {} ({} more within a second)",
                cause.text(),
                self.untold
            );
        }
        self.told = 0;
        self.untold = 0;
    }
}
