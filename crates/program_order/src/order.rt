// From the words of a command line to an order, or to the text of `--help` or `--version`.
ghost use Rattle.std.specs.Prelude.{◌≡◌, ◌≤◌, true, IfOk, IfSome, MatchResult, Some, codes, is_some, map, option_map};
ghost use Rattle.std.specs.String.{string_bytes};
ghost use Rattle.clap.specs.Words.{first_of, found_of, kind_of, rows_of, subcommand_of, subcommand_rows_of, takes};
ghost use Rattle.clap.specs.declared.error.kind.ErrorKind.TheVariants.{OutOfMemory};
ghost use Rattle.program_order.specs.declared.usage.UsageFault.TheVariants.{Memory};
ghost use Rattle.program_order.specs.Order.{Answers, AnswersWords, AnswersAsked, IsAllowed, asked_of, asked_in_rows, realm_in, name_in};
ghost use Rattle.program_order.specs.Order.{nodes_in, port_in, key_in, dir_in, is_name, stream_by, script_by, serve_by, Gives};
ghost use Rattle.program_order.specs.Program.{program};

use crate::command::command;
use crate::number::number_in;
use crate::usage::{UsageFault, fault_of, usage};
use clap::error::ErrorKind;
use clap::{ArgMatches, Command};
use paxos_packets::Members;
use std::alloc::{AllocError, Global};

// The realm that is served if the command line names none.
const DEFAULT_REALM: &str = "realm1";

/// What a command line asks the program to do.
#[derive(Debug, Drop)]
pub enum Order {
    /// Serve one client on standard input and output, in the realm of this name.
    Stream {
        realm: String,
    },
    /// Play the script on standard input in a cluster of these members, in the realm of this name.
    Script {
        members: Members,
        realm: String,
    },
    /// Run a cluster of these members, node I listening on 127.0.0.1 at port `port + I - 1`, with random draws by this key
    /// and rows in this folder (without one: in memory), in the realm of this name.
    Serve {
        members: Members,
        port: u16,
        key: u64,
        dir: Option<String>,
        realm: String,
    },
}

/// Returns the order that these words give, without the program's own name.
///
/// The name of a realm or of a folder is a text that is not empty and does not begin with `-`; a number of nodes is 3 to 7,
/// a port 1024 to 65529, a key any number of 64 bits. A request for help or for the version is not an order: `help_of` has its
/// text.
pub fn order_of<'a>(alloc: Global, words: &'a [String]) -> Result<Order, UsageFault>
    ensures answers { AnswersWords (map (λ s. string_bytes s) words.entry.now) result }
    ensures allowed { IfOk result (λ order. IsAllowed (asked_of order)) }
    ensures asked { AnswersAsked (map (λ s. string_bytes s) words.entry.now) result }
{
    order_in(alloc, words)
}

/// Returns what to print if the words ask for help or for the version, as `--help`, `stream --help` and `--version` do; else
/// `None`.
pub fn help_of<'a>(alloc: Global, words: &'a [String]) -> Result<Option<String>, UsageFault> {
    let Err(error) = parse(alloc, words)? else {
        return Ok(None);
    };
    match error.kind() {
        ErrorKind::DisplayHelp | ErrorKind::DisplayVersion => Ok(Some(error.to_string(alloc)?)),
        ErrorKind::OutOfMemory => Err(UsageFault::Memory),
        _ => Ok(None),
    }
}

// Parses the words by the program's command line.
fn parse<'a>(
    alloc: Global,
    words: &'a [String],
) -> Result<Result<ArgMatches<'a>, clap::Error>, AllocError>
    ensures { IfOk result (λ parsed. MatchResult parsed
        (λ m. subcommand_rows_of m ≡ subcommand_of program (map (λ s. string_bytes s) words.entry.now))
        (λ e. takes program (map (λ s. string_bytes s) words.entry.now) ≡ true → kind_of e ≡ OutOfMemory)) }
{
    let command: Command<'a> = command(alloc)?;
    Ok(command.try_get_matches_from(words))
}

// Returns the order that these words give.
fn order_in<'a>(alloc: Global, words: &'a [String]) -> Result<Order, UsageFault>
    ensures answers { AnswersWords (map (λ s. string_bytes s) words.entry.now) result }
    ensures allowed { IfOk result (λ order. IsAllowed (asked_of order)) }
{
    let matches = match parse(alloc, words)? {
        Ok(matches) => matches,
        Err(error) => return Err(fault_of(alloc, &error)),
    };
    match matches.subcommand() {
        Some((name, options)) => order_by(alloc, name, options),
        None => Err(usage(alloc, "error: no subcommand that is served")),
    }
}

// Returns the order of this subcommand with these options.
fn order_by<'a>(alloc: Global, name: &str, options: &ArgMatches<'a>) -> Result<Order, UsageFault>
    ensures answers { Answers (asked_in_rows name.now (rows_of (found_of options.now))) result }
    ensures allowed { IfOk result (λ order. IsAllowed (asked_of order)) }
{
    match name {
        "stream" => stream_by(alloc, options),
        "script" => script_by(alloc, options),
        "serve" => serve_by(alloc, options),
        _ => Err(usage(alloc, "error: no subcommand that is served")),
    }
}

fn stream_by<'a>(alloc: Global, options: &ArgMatches<'a>) -> Result<Order, UsageFault>
    ensures answers { Answers (stream_by (λ id. first_of id (rows_of (found_of options.now)))) result }
    ensures allowed { IfOk result (λ order. IsAllowed (asked_of order)) }
{
    let realm = realm_by(alloc, options)?;
    Ok(Order::Stream { realm })
}

fn script_by<'a>(alloc: Global, options: &ArgMatches<'a>) -> Result<Order, UsageFault>
    ensures answers { Answers (script_by (λ id. first_of id (rows_of (found_of options.now)))) result }
    ensures allowed { IfOk result (λ order. IsAllowed (asked_of order)) }
{
    let members = nodes_by(alloc, options)?;
    let realm = realm_by(alloc, options)?;
    Ok(Order::Script { members, realm })
}

fn serve_by<'a>(alloc: Global, options: &ArgMatches<'a>) -> Result<Order, UsageFault>
    ensures answers { Answers (serve_by (λ id. first_of id (rows_of (found_of options.now)))) result }
    ensures allowed { IfOk result (λ order. IsAllowed (asked_of order)) }
{
    let members = nodes_by(alloc, options)?;
    let port = port_by(alloc, options)?;
    let key = key_by(alloc, options)?;
    let dir = dir_by(alloc, options)?;
    let realm = realm_by(alloc, options)?;
    Ok(Order::Serve {
        members,
        port,
        key,
        dir,
        realm,
    })
}

// Returns the members of the cluster that is asked for.
fn nodes_by<'a>(alloc: Global, options: &ArgMatches<'a>) -> Result<Members, UsageFault>
    ensures { Gives (nodes_in (first_of (codes "nodes") (rows_of (found_of options.now)))) result }
{
    match nodes_in(option_of(options, "nodes")) {
        Some(members) => Ok(members),
        None => Err(usage(alloc, "error: a cluster has 3 to 7 nodes")),
    }
}

// Returns the port of node 1.
fn port_by<'a>(alloc: Global, options: &ArgMatches<'a>) -> Result<u16, UsageFault>
    ensures gives { Gives (port_in (first_of (codes "port") (rows_of (found_of options.now)))) result }
    ensures allowed { IfOk result (λ port. (1024 ≤ port) × (port ≤ 65529)) }
{
    match port_in(option_of(options, "port")) {
        Some(port) => Ok(port),
        None => Err(usage(alloc, "error: a port is a number from 1024 to 65529")),
    }
}

// Returns the key of the draws.
fn key_by<'a>(alloc: Global, options: &ArgMatches<'a>) -> Result<u64, UsageFault>
    ensures { Gives (key_in (first_of (codes "key") (rows_of (found_of options.now)))) result }
{
    match key_in(option_of(options, "key")) {
        Some(key) => Ok(key),
        None => Err(usage(
            alloc,
            "error: a key is a number from 0 to 18446744073709551615",
        )),
    }
}

// Returns the name of the folder, if one is given.
fn dir_by<'a>(alloc: Global, options: &ArgMatches<'a>) -> Result<Option<String>, UsageFault>
    ensures gives { MatchResult result
        (λ dir. dir_in (first_of (codes "dir") (rows_of (found_of options.now))) ≡ Some (option_map (λ s. string_bytes s) dir))
        (λ fault. is_some (dir_in (first_of (codes "dir") (rows_of (found_of options.now)))) ≡ true → fault ≡ Memory) }
    ensures allowed { IfOk result (λ dir. IfSome dir (λ s. is_name (string_bytes s) ≡ true)) }
{
    let Some(dir) = option_of(options, "dir") else {
        return Ok(None);
    };
    if !is_name(dir) {
        let cause = "error: the name of a folder is not empty and does not begin with '-'";
        return Err(usage(alloc, cause));
    }
    Ok(Some(String::from_str(alloc, dir)?))
}

// Returns the name of the realm that is given, or else the default.
fn realm_by<'a>(alloc: Global, options: &ArgMatches<'a>) -> Result<String, UsageFault>
    ensures { MatchResult result
        (λ realm. realm_in (first_of (codes "realm") (rows_of (found_of options.now))) ≡ Some (string_bytes realm))
        (λ fault. is_some (realm_in (first_of (codes "realm") (rows_of (found_of options.now)))) ≡ true → fault ≡ Memory) }
{
    let realm = named(option_of(options, "realm"));
    if !is_name(realm) {
        let cause = "error: the name of a realm is not empty and does not begin with '-'";
        return Err(usage(alloc, cause));
    }
    Ok(String::from_str(alloc, realm)?)
}

// Returns the text that is given for this option, if one is.
fn option_of<'a>(options: &ArgMatches<'a>, name: &str) -> Option<&'a str>
    ensures { option_map (λ text. text.now) result ≡ first_of name.now (rows_of (found_of options.now)) }
{
    options.get_str(name)
}

// Returns the name, or that of the default realm.
fn named(text: Option<&str>) -> &str
    ensures { realm_in (option_map (λ text. text.now) text.entry) ≡ name_in result.now }
{
    match text {
        Some(name) => name,
        None => DEFAULT_REALM,
    }
}

fn is_name(text: &str) -> bool
    ensures { result ≡ is_name text.now }
{
    match text.as_bytes().first() {
        Some(first) => *first != b'-',
        None => false,
    }
}

// Returns the members of a cluster of this many nodes, if a cluster may have this many.
fn nodes_in(text: Option<&str>) -> Option<Members>
    ensures { result ≡ nodes_in (option_map (λ s. s.now) text.entry) }
{
    let count = number_in(text?, u64::from(u8::MAX))?;
    Members::new(count as u8)
}

// Returns the port with this number, if the ports of all nodes of a cluster are then valid.
fn port_in(text: Option<&str>) -> Option<u16>
    ensures { result ≡ port_in (option_map (λ s. s.now) text.entry) }
{
    let port = number_in(text?, 65529)?;
    if 1024 <= port {
        Some(port as u16)
    } else {
        None
    }
}

fn key_in(text: Option<&str>) -> Option<u64>
    ensures { result ≡ key_in (option_map (λ s. s.now) text.entry) }
{
    number_in(text?, u64::MAX)
}
