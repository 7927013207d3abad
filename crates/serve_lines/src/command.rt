// The commands that come on standard input, a line each.
ghost use Rattle.std.specs.Prelude.{◌≡◌, []};
ghost use Rattle.serve_lines.specs.Command.{command_of, keeping, ended};

use arrayvec::ArrayVec;
use std::marker::Model;

/// How many octets of a line are kept: one more than the longest command has.
const KEPT: usize = 7;

/// What a line asks for.
#[derive(Clone, Copy, Debug, PartialEq, Eq, Drop)]
pub enum Command {
    /// `status`: a line of each node.
    Status,
    /// Any other line.
    Other,
}

/// What has come of a line, of which the first seven octets are kept.
#[derive(Drop)]
pub struct Commands {
    line: ArrayVec<u8, KEPT>,
}

impl Model for Commands {
    ghost use Rattle.std.specs.Prelude.{ℕ, List};

    ghost Value = { List ℕ };

    ghost view = { λ c. c.line.items };
}

impl Commands {
    /// Returns the beginning of the first line.
    pub fn new() -> Commands
        ensures { result ≡ [] }
    {
        Commands {
            line: ArrayVec::new(),
        }
    }

    /// Takes the next octet. Returns what the line asks for that it ends, if it is a line feed.
    pub fn take(&mut self, octet: u8) -> Option<Command>
        ensures command { result ≡ ended octet self.old }
        ensures kept { self.new ≡ keeping octet self.old }
    {
        if octet == b'\n' {
            let command = command_in(self.line.as_slice());
            self.line.clear();
            return Some(command);
        }
        if self.line.len() < KEPT {
            self.line.push(octet);
        }
        None
    }
}

// Returns what this line asks for.
fn command_in(line: &[u8]) -> Command
    ensures { result ≡ command_of line.now }
{
    if line == b"status".as_slice() {
        Command::Status
    } else {
        Command::Other
    }
}
