// A client's handshake: its four octets are read and answered, in one call or in two.
ghost use Rattle.std.specs.Prelude.{take};
ghost use Rattle.wamp_rawsocket.specs.Handshake.{answer_of};
ghost use Rattle.client_listener.specs.Handshake.{GivesOctet, ReadsHandshake, Writes, Answers, Greets};

use crate::fault::ListenFault;
use std::io::{Read, Write};
use wamp_rawsocket::{Answer, answer};

/// Reads a client's handshake from a stream and answers it, with the longest payload that the client takes as the result.
/// `room` says whether one more client is taken on.
///
/// Nothing after the handshake's four octets is read; the answer is written and flushed. `Handshake` if it was refused, not
/// answered at all or cut short, `Read` or `Write` if the stream failed. It does not allocate.
/// (WAMP specification, "RawSocket Transport", "Handshake".)
pub fn greet<S: Read + Write>(stream: &mut S, room: bool) -> Result<u32, ListenFault>
    ensures { Greets S.remaining S.contents room stream.old stream.new result }
{
    let octets = read_handshake(stream)?;
    answer_handshake(stream, octets, room)
}

/// Reads the four octets of a client's handshake, and nothing after them.
///
/// `Handshake` if the reader ends before the fourth, `Read` if it failed. It does not allocate.
pub fn read_handshake<R: Read>(reader: &mut R) -> Result<[u8; 4], ListenFault>
    ensures { ReadsHandshake result (R.remaining reader.old) (R.remaining reader.new) }
{
    let mut octets = [0; 4];
    for at in 0..4 {
        let Some(octet) = read_octet(reader)? else {
            return Err(ListenFault::Handshake);
        };
        octets[at] = octet;
    }
    Ok(octets)
}

/// Writes the answer to the four octets of a client's handshake, and flushes the writer. The result is the longest payload
/// that the client takes. `room` says whether one more client is taken on.
///
/// `Handshake` if it was refused, or not answered at all, `Write` if the writer failed. It does not allocate.
/// (WAMP specification, "RawSocket Transport", "Handshake".)
pub fn answer_handshake<W: Write>(
    writer: &mut W,
    octets: [u8; 4],
    room: bool,
) -> Result<u32, ListenFault>
    ensures { Answers W.contents (answer_of octets room) writer.old writer.new result }
{
    match answer(octets, room) {
        Answer::Terms { limit, octets } => {
            write_out(writer, &octets)?;
            Ok(limit)
        }
        Answer::Refuse(octets) => {
            write_out(writer, &octets)?;
            Err(ListenFault::Handshake)
        }
        Answer::Hang => Err(ListenFault::Handshake),
    }
}

// Reads the next octet. `None` at the reader's end.
fn read_octet<R: Read>(reader: &mut R) -> Result<Option<u8>, ListenFault>
    ensures { GivesOctet result (R.remaining reader.old) (R.remaining reader.new) }
{
    let mut octet = [0];
    match reader.read(&mut octet) {
        Ok(0) => Ok(None),
        Ok(_) => Ok(Some(octet[0])),
        Err(_) => Err(ListenFault::Read),
    }
}

// Writes these octets, and flushes the writer. `Write` if it failed.
pub(crate) fn write_out<W: Write>(writer: &mut W, octets: &[u8]) -> Result<(), ListenFault>
    ensures { Writes result octets.now (W.contents writer.old) (W.contents writer.new) }
{
    if writer.write_all(octets).is_err() || writer.flush().is_err() {
        return Err(ListenFault::Write);
    }
    Ok(())
}
