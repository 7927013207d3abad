//! The coder of acts.
ghost use Rattle.std.specs.Prelude.{◌≡◌, ◌≢◌, [], ◌∷◌, Some, Ok, Err, IfOk, IfErr, MatchResult};
ghost use Rattle.command_codec.specs.Coder.{Puts};
ghost use Rattle.command_codec.specs.Number.{number_reading};
ghost use Rattle.command_codec.specs.Entry.{joined};
ghost use Rattle.realm_codec.specs.Parts.{id_form};
ghost use Rattle.realm_codec.specs.Read.{read_spelling};
ghost use Rattle.realm_codec.specs.Act.{draw_spelling, said_reading};

use crate::read::{put_read, take_read};
use command_codec::{CodecFault, Coder, Form, take_number};
use paxos_packets::Shared;
use realm_acts::Act;
use std::alloc::Global;
use wamp_ids::{Id, LAST_ID};
use wamp_message_types::Read;

/// The octets of an act: a tag, and for what was said its draw and what was read.
///
/// A message is encoded as its written text. `put` writes the text directly after room for its length, which it then fills in; `take`
/// parses the text once, and writes it once to check that it is the one text of its message. Both are linear in the length of the octets.
pub struct ActCoder;

impl Coder<Act> for ActCoder {
    ghost use Rattle.realm_codec.specs.Act.{act_spelling, act_reading};
    ghost use Rattle.realm_codec.specs.Again.{act_again, act_spelled};

    ghost spelling = { act_spelling };

    ghost reading = { act_reading };

    fn put(act: &Act, out: &mut Vec<u8>) -> Result<(), CodecFault> {
        match act {
            Act::Connect => put_octet(0, out),
            Act::Hung => put_octet(1, out),
            Act::Said { draw, read } => put_said(*draw, read.get(), out),
        }
    }

    fn take(alloc: Global, octets: &[u8]) -> Result<(Act, &[u8]), CodecFault> {
        let [tag, rest @ ..] = octets else {
            return Err(CodecFault::Short);
        };
        match *tag {
            0 => Ok((Act::Connect, rest)),
            1 => Ok((Act::Hung, rest)),
            2 => take_said(alloc, rest),
            _ => Err(CodecFault::Tag),
        }
    }

    ghost read_again = { act_again };

    ghost spelled = { act_spelled };
}

fn put_octet(octet: u8, out: &mut Vec<u8>) -> Result<(), CodecFault>
    ensures { Puts result (Some (octet ∷ [])) out.old.items out.new.items }
{
    out.push(octet)?;
    Ok(())
}

fn put_said(draw: Id, read: &Read, out: &mut Vec<u8>) -> Result<(), CodecFault>
    ensures { Puts result (joined (draw_spelling draw) (read_spelling read.now)) out.old.items out.new.items }
{
    let start = out.len();
    put_draw(draw, out)?;
    match put_read(read, out) {
        Ok(()) => Ok(()),
        Err(fault) => {
            out.truncate(start);
            Err(fault)
        }
    }
}

// Puts the tag of what was said, and its draw.
fn put_draw(draw: Id, out: &mut Vec<u8>) -> Result<(), CodecFault>
    ensures { Puts result (draw_spelling draw) out.old.items out.new.items }
{
    let number = draw.get();
    out.reserve(9)?;
    out.push(2)?;
    out.extend_from_slice(&number.to_be_bytes())?;
    Ok(())
}

// Takes what was said, after its tag.
fn take_said(alloc: Global, octets: &[u8]) -> Result<(Act, &[u8]), CodecFault>
    ensures taken { IfOk result (λ read. said_reading octets.now ≡ Ok (read.0, read.1.now)) }
    ensures fault { IfErr result (λ fault. fault ≢ CodecFault.Memory → said_reading octets.now ≡ Err fault) }
{
    let (draw, rest) = match take_id(octets) {
        Ok(read) => read,
        Err(fault) => return Err(fault),
    };
    let (read, rest) = match take_read(alloc, rest) {
        Ok(read) => read,
        Err(fault) => return Err(fault),
    };
    let read = Shared::new(alloc, read)?;
    Ok((Act::Said { draw, read }, rest))
}

/// An id: 1 to 2^53.
const ID: Form = Form {
    width: 8,
    low: 1,
    high: LAST_ID,
};

// Takes the id at the head of the octets; returns it and the octets after it.
pub(crate) fn take_id(octets: &[u8]) -> Result<(Id, &[u8]), CodecFault>
    ensures { MatchResult result (λ read. number_reading id_form octets.now ≡ Ok (read.0, read.1.now))
        (λ fault. number_reading id_form octets.now ≡ Err fault) }
{
    let (number, rest) = take_number(ID, octets)?;
    let Some(id) = Id::new(number) else {
        unreachable!();
    };
    Ok((id, rest))
}
