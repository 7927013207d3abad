// The lines of a script: a cluster's schedule as a text, one event a line (docs/SCRIPTS.md).
ghost use Rattle.std.specs.Prelude.{◌≡◌, ◌∷◌, ◌<◌, length, IfSome, IfOk, MatchResult, Ok, option_map};
ghost use Rattle.script_program.specs.declared.lines.LinesFault.TheVariants as fault;
ghost use Rattle.script_program.specs.Line.{line_of};
ghost use Rattle.script_program.specs.Lines.{pieces, draw_behind, draw_behind_act, script_of, FailsBy};
ghost use Rattle.script_program.specs.Putting.{pieces_behind, behind, Puts, PutsLine};

mod line;
mod number;

pub use line::Line;
use line::read_line;
use memchr::memchr;
use paxos_packets::{Members, Memory};
use realm_acts::{Act, Id};
use std::alloc::Global;
use wamp_messages::Parser;

// Why a text is not a script.
#[derive(Clone, Copy)]
pub(crate) enum LinesFault {
    // The line with this number, from 1, is neither empty nor an event.
    NotAnEvent(u64),
    Memory,
}

impl From<Memory> for LinesFault {
    ghost from_gives = { λ _ told. told ≡ fault.Memory };

    fn from(_error: Memory) -> LinesFault {
        LinesFault::Memory
    }
}

// Returns the lines that a text spells in a cluster of these members, or the number of the first line that is not an event.
//
// A line ends with a line feed, which the last may lack. Empty lines are skipped, but counted. The first line that says
// something has draw 1, each later one the next draw. Takes time and memory in proportion to the text's length.
pub(crate) fn lines_of(
    alloc: Global,
    members: Members,
    text: &[u8],
) -> Result<Vec<Line>, LinesFault>
    ensures { MatchResult result (λ lines. script_of members text.now ≡ Ok lines.items)
        (λ fault. FailsBy fault (script_of members text.now)) }
{
    let mut lines = Vec::new(alloc);
    match put_lines(alloc, members, text, &mut lines) {
        Ok(()) => Ok(lines),
        Err(fault) => {
            drop(lines);
            Err(fault)
        }
    }
}

// Appends the lines that the text spells.
fn put_lines(
    alloc: Global,
    members: Members,
    text: &[u8],
    lines: &mut Vec<Line>,
) -> Result<(), LinesFault>
    ensures { Puts result (behind lines.old.items (script_of members text.now)) lines.new.items }
{
    let mut parser = Parser::new(alloc);
    let mut draw = Id::new(1).unwrap();
    let mut number: u64 = 1;
    let mut rest = Some(text);
    'pieces: while let Some(text) = rest {
        let (piece, others) = first_piece(text);
        if !piece.is_empty() && !put_line(alloc, &mut parser, members, &mut draw, piece, lines)? {
            return Err(LinesFault::NotAnEvent(number));
        }
        number += 1;
        rest = others;
    }
    Ok(())
}

// Returns what is before the first line feed, and what is after it, if there is one.
fn first_piece(text: &[u8]) -> (&[u8], Option<&[u8]>)
    ensures pieces { pieces text.now ≡ result.0.now ∷ pieces_behind (option_map (λ text. text.now) result.1) }
    ensures shorter { IfSome result.1 (λ rest. length rest.now < length text.now) }
{
    match memchr(b'\n', text) {
        Some(end) => (&text[..end], Some(&text[end + 1..])),
        None => (text, None),
    }
}

// Appends the line that the octets spell. Returns whether they spell one.
fn put_line(
    alloc: Global,
    parser: &mut Parser,
    members: Members,
    draw: &mut Id,
    octets: &[u8],
    lines: &mut Vec<Line>,
) -> Result<bool, Memory>
    ensures { IfOk result (λ is_line. PutsLine is_line (line_of members draw.old octets.now)
        draw.old draw.new lines.old.items lines.new.items) }
{
    let Some(line) = read_line(alloc, parser, members, *draw, octets)? else {
        return Ok(false);
    };
    *draw = draw_behind(*draw, &line);
    lines.push(line)?;
    Ok(true)
}

// Returns the draw of the next line that says something.
fn draw_behind(draw: Id, line: &Line) -> Id
    ensures { result ≡ draw_behind draw line.now }
{
    match line {
        Line::Take { act, .. } => draw_behind_act(draw, act),
        Line::Tick { .. }
        | Line::Start { .. }
        | Line::Suspect { .. }
        | Line::Deliver { .. }
        | Line::Cut { .. }
        | Line::Crash { .. }
        | Line::Restart { .. }
        | Line::Flush { .. } => draw,
    }
}

fn draw_behind_act(draw: Id, act: &Act) -> Id
    ensures { result ≡ draw_behind_act draw act.now }
{
    match act {
        Act::Said { .. } => draw.next(),
        Act::Connect | Act::Hung => draw,
    }
}
