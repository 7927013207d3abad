// The run of one client, from the handshake to the end of its stream.
ghost use Rattle.stream_program.specs.Stream.{Ends, run_of, opened, config_of};

use crate::fault::RunFault;
use crate::progress::Progress;
use crate::service::Service;
use crate::turns::{act_out, turn};
use client_listener::{ListenFault, answer_handshake, read_handshake};
use realm_machine::Act;
use std::alloc::Global;
use std::io::{Read, Write};

// The most octets of one read.
const CHUNK: usize = 1 << 16;

// The most reads of a run.
const MOST_TURNS: u64 = 1 << 32;

/// Serves one client over its bytes, handshake first: reads what it sends, and writes what the realm of this name answers.
///
/// It ends with `Ok` when the reader ends, or when the realm closes the transport; nothing more is read then. A fault ends it,
/// too: `Memory`, or `Transport` with 81 for a handshake that is refused, not answered at all or cut short, 82
/// for what is no frame, 83 for a read that failed, 84 for a write that failed, 85 after 2^32 reads, and 87 for a
/// message or PONG that is longer than the client takes. But for `Memory` and 84, all that is due to what was read is
/// written by then.
///
/// A read takes up to 64 KiB. The replies to the frames that it completes are written and flushed before the next read, and
/// earlier if they pass 64 KiB. What is allocated does not grow with the length of the run.
/// (WAMP specification, "RawSocket Transport"; docs/PROTOCOL.md, "A stream".)
pub fn stream_run<R: Read, W: Write>(
    alloc: Global,
    reader: &mut R,
    writer: &mut W,
    realm: &str,
) -> Result<(), RunFault>
    ensures { Ends (run_of realm.now) result (R.remaining reader.old) (R.remaining reader.new)
        (W.contents writer.old) (W.contents writer.new) }
{
    let octets = read_handshake(reader)?;
    let limit = answer_handshake(writer, octets, true)?;
    serve(alloc, reader, writer, realm, limit)
}

// Serves a client whose handshake was answered.
fn serve<R: Read, W: Write>(
    alloc: Global,
    reader: &mut R,
    writer: &mut W,
    realm: &str,
    limit: u32,
) -> Result<(), RunFault>
    ensures { Ends (opened (config_of realm.now) limit) result (R.remaining reader.old) (R.remaining reader.new)
        (W.contents writer.old) (W.contents writer.new) }
{
    let mut room = vec![in alloc; 0u8; CHUNK]?;
    let chunk = room.as_mut_slice();
    let mut service = Service::new(alloc, realm, limit)?;
    let progress = match act_out(writer, &mut service, &Act::Connect) {
        Ok(progress) => progress,
        Err(fault) => {
            drop(service);
            return Err(fault);
        }
    };
    match progress {
        Progress::Closed => {
            drop(service);
            return Ok(());
        }
        _ => {}
    }
    for _turn in 0..MOST_TURNS {
        match turn(reader, writer, &mut service, chunk) {
            Ok(true) => {}
            Ok(false) => {
                drop(service);
                return Ok(());
            }
            Err(fault) => {
                drop(service);
                return Err(fault);
            }
        }
    }
    drop(service);
    Err(RunFault::from(ListenFault::Turns))
}
