// The replies to the one client of a run, as frames of what its realm says.
ghost use Rattle.std.specs.Prelude.{◌≡◌, [], length};
ghost use Rattle.wamp_messages.specs.Writing.{text_of};
ghost use Rattle.paxos_packets.specs.Transport.{same_transport};
ghost use Rattle.stream_program.specs.Stream.{Run, client, framed, heard, told};
ghost use Rattle.stream_program.specs.Replies.{Puts, Flushes};

use crate::fault::RunFault;
use crate::progress::Progress;
use client_listener::Outbox;
use realm_machine::{Out, Say, Transport};
use std::alloc::Global;
use std::io::Write;
use std::marker::Model;
use wamp_messages::Message;
use wamp_rawsocket::FrameKind;

// The transport of the one client.
pub(crate) const CLIENT: Transport = Transport {
    node: 1,
    boot: 1,
    number: 1,
};

// The replies to one client that wait to be written.
#[derive(Drop)]
pub(crate) struct Replies {
    outbox: Outbox,
}

impl Model for Replies {
    ghost use Rattle.client_listener.specs.Waiting.{WaitingFrames};

    ghost Value = { WaitingFrames };

    ghost view = { λ replies. replies.outbox };
}

impl Replies {
    // Makes a queue without replies, for a client that takes payloads of up to `limit` octets. It does not allocate.
    pub fn new(alloc: Global, limit: u32) -> Replies
        ensures { result ≡ record { limit = limit; octets = [] } }
    {
        Replies {
            outbox: Outbox::new(alloc, limit),
        }
    }

    // Returns how many octets wait to be written.
    pub fn len(&self) -> usize
        ensures { result ≡ length self.now.octets }
    {
        self.outbox.len()
    }

    // Puts a frame after the others. A fault if its payload is longer than the client takes.
    #[tactic(auto, using(crate::proofs::Framing::frame_put, crate::proofs::Framing::frame_refused))]
    pub fn put(&mut self, kind: FrameKind, payload: &[u8]) -> Result<Progress, RunFault>
        ensures puts { (after : Run) → Puts result (framed self.old.limit kind payload.now after) after
            self.old.octets self.new.octets }
        ensures limit { self.new.limit ≡ self.old.limit }
    {
        self.outbox.put(kind, payload)?;
        Ok(Progress::Onward)
    }

    // Puts the frame of a message after the others.
    #[tactic(auto, using(crate::proofs::Framing::frame_put, crate::proofs::Framing::frame_refused))]
    fn send(&mut self, message: &Message) -> Result<Progress, RunFault>
        ensures puts { (after : Run)
            → Puts result (framed self.old.limit FrameKind.Message (text_of message.now) after) after
            self.old.octets self.new.octets }
        ensures limit { self.new.limit ≡ self.old.limit }
    {
        self.outbox.send(message)?;
        Ok(Progress::Onward)
    }

    // Puts what this says to the client after the others.
    fn hear(&mut self, out: &Out) -> Result<Progress, RunFault>
        ensures puts { (after : Run) → Puts result (heard self.old.limit out.now after) after
            self.old.octets self.new.octets }
        ensures limit { self.new.limit ≡ self.old.limit }
    {
        match out {
            Out::Send(message) => self.send(message),
            Out::Close => Ok(Progress::Closed),
        }
    }

    // Puts what these say to the client after the others, in order; nothing more once its transport is closed or a message is longer than
    // the client takes.
    pub fn tell(&mut self, says: &[Say]) -> Result<Progress, RunFault>
        ensures puts { (after : Run) → Puts result (told self.old.limit says.now after) after
            self.old.octets self.new.octets }
        ensures limit { self.new.limit ≡ self.old.limit }
    {
        for say in says {
            if !is_client(say.transport) {
                continue;
            }
            match self.hear(&say.out)? {
                Progress::Closed => return Ok(Progress::Closed),
                _ => {}
            }
        }
        Ok(Progress::Onward)
    }

    // Writes all that waits, and flushes the writer.
    #[tactic(auto, using(crate::proofs::Framing::flushed, crate::proofs::Framing::unflushed))]
    pub fn write_to<W: Write>(&mut self, writer: &mut W) -> Result<(), RunFault>
        ensures { Flushes result self.old self.new (W.contents writer.old) (W.contents writer.new) }
    {
        self.outbox.write_to(writer)?;
        Ok(())
    }
}

// Returns whether this is the transport of the one client.
fn is_client(transport: Transport) -> bool
    ensures { result ≡ same_transport transport client }
{
    transport == CLIENT
}
