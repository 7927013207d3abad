// Builds the program's command line, as its parser reads it.
ghost use Rattle.std.specs.Prelude.{◌≡◌, IfOk};
ghost use Rattle.clap.specs.Words.{Shape, app_of, with_subcommand};
ghost use Rattle.program_order.specs.Program.{stream_shape, script_shape, serve_shape, bare, program, IsSubcommand};

use crate::args::{dir_arg, key_arg, nodes_arg, port_arg, realm_arg};
use clap::Command;
use std::alloc::{AllocError, Global};

// The program's version.
const VERSION: &str = "0.1.0";

// What the subcommands do, for the help.
const STREAM: &str =
    "Serves one client: its RawSocket octets on standard input, the router's on standard output";

const SCRIPT: &str =
    "Plays a cluster's schedule, one event a line on standard input, and writes what became of it";

const SERVE: &str =
    "Runs a cluster whose nodes clients connect to by RawSocket and JSON, until standard input ends";

// How to run a cluster, for the help of its subcommand.
const EXAMPLE: &str = "\
Example: three nodes at 127.0.0.1:9000, 127.0.0.1:9001 and 127.0.0.1:9002, whose rows are kept in the folder data.
They run until standard input ends (Ctrl-D); started again in the same way, they go on from their rows. The folder
stays with the --nodes and the --realm that it was made with.

A line `status` on standard input is answered by a line of each node on standard error.

  mkdir data
  wampd serve --nodes 3 --port 9000 --key 7 --dir data";

// How the program ends, for the help.
const STATUSES: &str = "\
Exit status:
  0  the client ended, or was told goodbye; the script was played; the cluster's standard input ended
  2  the command line is wrong
  3  a line of the script is not an event
  4  a node of the cluster failed, or its store; or the folder is of another cluster
  5  no memory is left
  6  the transport failed, or nothing can be written

docs/OPERATING.md explains each status, and the numbers of faults on standard error.";

// Returns the program's command line.
pub(crate) fn command<'a>(alloc: Global) -> Result<Command<'a>, AllocError>
    ensures { IfOk result (λ c. app_of c ≡ program) }
{
    let bare = bare_command(alloc)?;
    let one = added(bare, stream_command(alloc))?;
    let two = added(one, script_command(alloc))?;
    added(two, serve_command(alloc))
}

// Adds the subcommand to the command. If the subcommand could not be made, the command is dropped.
fn added<'a>(
    command: Command<'a>,
    subcommand: Result<Command<'a>, AllocError>,
) -> Result<Command<'a>, AllocError>
    ensures { (shape : Shape) → IfOk subcommand.entry (IsSubcommand shape)
        → IfOk result (λ c. app_of c ≡ with_subcommand (app_of command.entry) shape) }
{
    match subcommand {
        Ok(subcommand) => command.subcommand(subcommand),
        Err(fault) => {
            drop(command);
            Err(fault)
        },
    }
}

// Returns the program's command line without its subcommands.
fn bare_command<'a>(alloc: Global) -> Result<Command<'a>, AllocError>
    ensures { IfOk result (λ c. app_of c ≡ bare) }
{
    let named = Command::new(alloc, "wampd")
        .about("A WAMP router (RawSocket, JSON)")
        .version(VERSION)
        .after_help(STATUSES)
        .no_binary_name(true)
        .bin_name("wampd")?;
    Ok(
        named
            .disable_help_subcommand(true)
            .subcommand_required(true),
    )
}

fn stream_command<'a>(alloc: Global) -> Result<Command<'a>, AllocError>
    ensures { IfOk result (IsSubcommand stream_shape) }
{
    Command::new(alloc, "stream")
        .about(STREAM)
        .arg(realm_arg(alloc))
}

fn script_command<'a>(alloc: Global) -> Result<Command<'a>, AllocError>
    ensures { IfOk result (IsSubcommand script_shape) }
{
    Command::new(alloc, "script")
        .about(SCRIPT)
        .arg(nodes_arg(alloc))?
        .arg(realm_arg(alloc))
}

fn serve_command<'a>(alloc: Global) -> Result<Command<'a>, AllocError>
    ensures { IfOk result (IsSubcommand serve_shape) }
{
    Command::new(alloc, "serve")
        .about(SERVE)
        .after_help(EXAMPLE)
        .arg(nodes_arg(alloc))?
        .arg(port_arg(alloc))?
        .arg(key_arg(alloc))?
        .arg(dir_arg(alloc))?
        .arg(realm_arg(alloc))
}
