// A turn of a run: one read, and the replies to the frames that are whole then.
ghost use Rattle.std.specs.Prelude.{◌≡◌, ◌<◌, Ok, length};
ghost use Rattle.stream_program.specs.Service.{held_len};
ghost use Rattle.stream_program.specs.Turns.{IsIdle, Turns, PerformsOut, AnswersAll, Steps};

use crate::fault::RunFault;
use crate::progress::Progress;
use crate::service::Service;
use client_listener::ListenFault;
use realm_machine::Act;
use std::io::{Read, Write};

// The most octets of replies that may wait while further frames are answered.
const FULL: usize = 1 << 16;

// Reads once, into `chunk`, and answers all frames that are whole then. Returns whether the transport stays open.
pub(crate) fn turn<R: Read, W: Write>(
    reader: &mut R,
    writer: &mut W,
    service: &mut Service,
    chunk: &mut [u8],
) -> Result<bool, RunFault>
    requires room { 0 < length chunk.old }
    requires idle { IsIdle service.old }
    ensures { Turns result service.old service.new (R.remaining reader.old) (R.remaining reader.new)
        (W.contents writer.old) (W.contents writer.new) }
{
    match reader.read(chunk) {
        Ok(0) => {
            act_out(writer, service, &Act::Hung)?;
            Ok(false)
        }
        Ok(count) => {
            service.feed(&chunk[..count])?;
            answer_frames(writer, service)
        }
        Err(_) => Err(RunFault::from(ListenFault::Read)),
    }
}

// Gives the realm what happens at the client's transport, and writes what it says to the client.
pub(crate) fn act_out<W: Write>(
    writer: &mut W,
    service: &mut Service,
    act: &Act,
) -> Result<Progress, RunFault>
    ensures { PerformsOut result service.old act.now service.new (W.contents writer.old) (W.contents writer.new) }
{
    let outcome = service.act(act);
    service.replies.write_to(writer)?;
    outcome
}

// Answers all frames that are whole. Returns whether the transport stays open.
fn answer_frames<W: Write>(writer: &mut W, service: &mut Service) -> Result<bool, RunFault>
    ensures { AnswersAll result service.old service.new (W.contents writer.old) (W.contents writer.new) }
{
    'frames: loop {
        match answer_frame(writer, service) {
            Ok(Progress::Onward) => {}
            Ok(Progress::Waiting) => return Ok(true),
            Ok(Progress::Closed) => return Ok(false),
            Err(fault) => return Err(fault),
        }
    }
}

// Answers the next frame, and writes the replies if they are many or the turn ends.
fn answer_frame<W: Write>(writer: &mut W, service: &mut Service) -> Result<Progress, RunFault>
    ensures steps { Steps result service.old service.new (W.contents writer.old) (W.contents writer.new) }
    ensures shrinks { result ≡ Ok Progress.Onward → held_len service.new.splitter < held_len service.old.splitter }
{
    let outcome = service.answer_next();
    if let Ok(Progress::Onward) = outcome
        && service.replies.len() <= FULL
    {
        return Ok(Progress::Onward);
    }
    service.replies.write_to(writer)?;
    outcome
}
