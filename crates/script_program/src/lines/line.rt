// What one line spells (docs/SCRIPTS.md, "Lines").
ghost use Rattle.std.specs.Prelude.{◌≡◌, ◌∷◌, ◌<◌, ◌≤◌, length, IfOk, IfSome, option_map};
ghost use Rattle.paxos_packets.specs.Members.{no_nodes};
ghost use Rattle.script_program.specs.declared.lines.line.Line.TheVariants as line;
ghost use Rattle.script_program.specs.Number.{number_in};
ghost use Rattle.script_program.specs.Line.{words, words_behind, bare_act, said_in, act_in, take_in, one_in, suspect_in, among_in, listed};
ghost use Rattle.script_program.specs.Line.{all_nodes, other_line, line_of, last_transport};

use crate::lines::number::number_in;
use paxos_packets::{Members, Memory, NodeSet, Shared};
use realm_acts::{Act, Id};
use std::alloc::Global;
use wamp_messages::{Parser, read_by};

/// A line of a script: what happens next in a cluster.
pub enum Line {
    /// The node takes an act from its transport with this number.
    Take { node: u8, number: u32, act: Act },
    /// Time passes at the node.
    Tick { node: u8 },
    /// The node begins a ballot.
    Start { node: u8 },
    /// The node takes the other one to be lost.
    Suspect { node: u8, other: u8 },
    /// The packet with this number, counted from 1 over all that were ever sent, reaches its addressee.
    Deliver { packet: u64 },
    /// The node cuts its log: it keeps what its realm saves, and forgets the entries.
    Cut { node: u8 },
    /// The node goes down.
    Crash { node: u8 },
    /// The node comes back.
    Restart { node: u8 },
    /// Each packet that no line has delivered yet, and whose sender and addressee are both among these nodes, reaches its addressee.
    Flush { among: NodeSet },
}

impl Drop for Line {
    fn drop(self) {
        match self {
            Line::Take {
                node: _,
                number: _,
                act: _act,
            } => {},
            Line::Tick { node: _ } => {},
            Line::Start { node: _ } => {},
            Line::Suspect { node: _, other: _ } => {},
            Line::Deliver { packet: _ } => {},
            Line::Cut { node: _ } => {},
            Line::Crash { node: _ } => {},
            Line::Restart { node: _ } => {},
            Line::Flush { among: _ } => {},
        }
    }
}

// Returns the line that these octets spell in their whole length, without a line feed, or `None` if they spell none.
//
// If the line says something, it says it with this draw. Takes time in proportion to the line's length, and allocates only for
// what is said.
pub(crate) fn read_line(
    alloc: Global,
    parser: &mut Parser,
    members: Members,
    draw: Id,
    octets: &[u8],
) -> Result<Option<Line>, Memory>
    ensures { IfOk result (λ line. line ≡ line_of members draw octets.now) }
{
    let Ok(text) = std::str::from_utf8(octets) else {
        return Ok(None);
    };
    let (verb, rest) = first_word(text);
    if verb == "take" {
        return take_in(alloc, parser, members, draw, rest);
    }
    Ok(other_line(members, verb, rest))
}

// Returns the first word, and what follows the space that ends it, if there is one.
fn first_word(text: &str) -> (&str, Option<&str>)
    ensures words { words text.now ≡ result.0.now ∷ words_behind (option_map (λ text. text.now) result.1) }
    ensures shorter { IfSome result.1 (λ rest. length rest.now < length text.now) }
{
    match text.split_once(' ') {
        Some((word, rest)) => (word, Some(rest)),
        None => (text, None),
    }
}

// Reads a line that is not a `take`.
fn other_line(members: Members, verb: &str, rest: Option<&str>) -> Option<Line>
    ensures { result ≡ other_line members verb.now (words_behind (option_map (λ text. text.now) rest.entry)) }
{
    match verb {
        "tick" => Some(Line::Tick {
            node: one_node(members, rest)?,
        }),
        "start" => Some(Line::Start {
            node: one_node(members, rest)?,
        }),
        "suspect" => suspect_in(members, rest),
        "deliver" => Some(Line::Deliver {
            packet: one_in(u64::MAX, rest)?,
        }),
        "cut" => Some(Line::Cut {
            node: one_node(members, rest)?,
        }),
        "crash" => Some(Line::Crash {
            node: one_node(members, rest)?,
        }),
        "restart" => Some(Line::Restart {
            node: one_node(members, rest)?,
        }),
        "flush" => Some(Line::Flush {
            among: among_in(members, rest)?,
        }),
        _ => None,
    }
}

// ---- numbers

// Reads the rest as one number from 1 to `most`.
fn one_in(most: u64, rest: Option<&str>) -> Option<u64>
    ensures value { result ≡ one_in most (words_behind (option_map (λ text. text.now) rest.entry)) }
    ensures bound { IfSome result (λ n. n ≤ most) }
{
    let (word, others) = first_word(rest?);
    if others.is_some() {
        return None;
    }
    number_in(word, most)
}

fn one_node(members: Members, rest: Option<&str>) -> Option<u8>
    ensures { result ≡ one_in members (words_behind (option_map (λ text. text.now) rest.entry)) }
{
    Some(one_in(u64::from(members.count()), rest)? as u8)
}

fn node_in(members: Members, word: &str) -> Option<u8>
    ensures { result ≡ number_in members word.now }
{
    Some(number_in(word, u64::from(members.count()))? as u8)
}

fn suspect_in(members: Members, rest: Option<&str>) -> Option<Line>
    ensures { result ≡ suspect_in members (words_behind (option_map (λ text. text.now) rest.entry)) }
{
    let (node, rest) = first_word(rest?);
    let node = node_in(members, node)?;
    let other = one_node(members, rest)?;
    Some(Line::Suspect { node, other })
}

// ---- flushes

fn among_in(members: Members, rest: Option<&str>) -> Option<NodeSet>
    ensures { result ≡ among_in members (words_behind (option_map (λ text. text.now) rest.entry)) }
{
    match rest {
        Some(text) => listed(members, text),
        None => Some(all_nodes(members)),
    }
}

fn all_nodes(members: Members) -> NodeSet
    ensures { result ≡ all_nodes members }
{
    let mut set = NodeSet::new();
    for below in 0..members.count() {
        set.insert(below + 1);
    }
    set
}

// Returns the set of the nodes that the text lists.
fn listed(members: Members, text: &str) -> Option<NodeSet>
    ensures { result ≡ listed members no_nodes (words text.now) }
{
    let mut set = NodeSet::new();
    let mut rest = Some(text);
    'words: while let Some(text) = rest {
        let (word, behind) = first_word(text);
        set.insert(node_in(members, word)?);
        rest = behind;
    }
    Some(set)
}

// ---- takes

// Reads a `take` from the words that follow the first.
fn take_in(
    alloc: Global,
    parser: &mut Parser,
    members: Members,
    draw: Id,
    rest: Option<&str>,
) -> Result<Option<Line>, Memory>
    ensures { IfOk result (λ line. line ≡ take_in members draw (words_behind (option_map (λ text. text.now) rest.entry))) }
{
    let Some(text) = rest else {
        return Ok(None);
    };
    let (node, rest) = first_word(text);
    let Some(text) = rest else {
        return Ok(None);
    };
    let (number, act) = first_word(text);
    let Some(node) = node_in(members, node) else {
        return Ok(None);
    };
    let Some(number) = transport_in(number) else {
        return Ok(None);
    };
    Ok(taken(node, number, act_in(alloc, parser, draw, act)?))
}

fn taken(node: u8, number: u32, act: Option<Act>) -> Option<Line>
    ensures { result ≡ option_map (λ a. line.Take node number a) act }
{
    Some(Line::Take {
        node,
        number,
        act: act?,
    })
}

fn transport_in(word: &str) -> Option<u32>
    ensures { result ≡ number_in last_transport word.now }
{
    Some(number_in(word, u64::from(u32::MAX))? as u32)
}

// Reads the act, which follows the transport's number.
fn act_in(
    alloc: Global,
    parser: &mut Parser,
    draw: Id,
    rest: Option<&str>,
) -> Result<Option<Act>, Memory>
    ensures { IfOk result (λ act. act ≡ act_in draw (words_behind (option_map (λ text. text.now) rest.entry))) }
{
    let Some(text) = rest else {
        return Ok(None);
    };
    let (what, text) = first_word(text);
    match text {
        Some(text) => said_in(alloc, parser, draw, what, text),
        None => Ok(bare_act(what)),
    }
}

fn bare_act(what: &str) -> Option<Act>
    ensures { result ≡ bare_act what.now }
{
    match what {
        "connect" => Some(Act::Connect),
        "hung" => Some(Act::Hung),
        _ => None,
    }
}

// Reads what the client says with this text.
fn said_in(
    alloc: Global,
    parser: &mut Parser,
    draw: Id,
    what: &str,
    text: &str,
) -> Result<Option<Act>, Memory>
    ensures { IfOk result (λ act. act ≡ said_in draw what.now text.now) }
{
    if what != "say" {
        return Ok(None);
    }
    let Ok(read) = read_by(parser, text.as_bytes()) else {
        return Err(Memory);
    };
    let read = Shared::new(alloc, read)?;
    Ok(Some(Act::Said { draw, read }))
}
