// A client's outbox: gathers frames out of a ring, or takes them one by one, and writes them.
ghost use Rattle.std.specs.Prelude.{◌≡◌, ◌<◌, ◌++◌, ◌⊎◌, [], length, ℕ, List, Ok, true, OnOk, OnErr};
ghost use Rattle.wamp_messages.specs.Writing.{text_of};
ghost use Rattle.std.specs.Io.KnownBytes.{Appends, Keeps};
ghost use Rattle.rtrb.specs.Ring.{received, known_items, SameConsumer};
ghost use Rattle.client_listener.specs.Outbox.{Frames, Hears, Empties};
ghost use Rattle.client_listener.specs.Gathering.{Gathers, KeepsKnown};
ghost use Rattle.client_listener.specs.Writing.{most_waiting};

use crate::fault::ListenFault;
use crate::handshake::write_out;
use crate::items::ToClient;
use rtrb::{Consumer, Protocol};
use std::alloc::Global;
use std::io;
use std::io::Write;
use std::marker::Model;
use wamp_messages::{Message, write_into};
use wamp_rawsocket::{FrameFault, FrameKind, append_frame};

// The most octets of frames that may wait while further items are taken.
const FULL: usize = 1 << 16;

/// The frames that wait to be written to one client. A clause sees the longest payload that the client takes, and the octets
/// of the frames.
pub struct Outbox {
    limit: u32,
    frames: Vec<u8>,
    // The text of one message, kept for its room.
    text: Vec<u8>,
}

impl Drop for Outbox {
    fn drop(self) {
        let Outbox {
            limit: _,
            frames: _frames,
            text: _text,
        } = self;
    }
}

impl Model for Outbox {
    ghost use Rattle.client_listener.specs.Waiting.{WaitingFrames};

    ghost Value = { WaitingFrames };

    ghost view = { λ outbox. record { limit = outbox.limit; octets = outbox.frames.items } };
}

impl Outbox {
    /// Makes an outbox without frames, for a client that takes payloads of up to `limit` octets. It does not allocate.
    pub fn new(alloc: Global, limit: u32) -> Outbox
        ensures { result ≡ record { limit = limit; octets = [] } }
    {
        Outbox {
            limit,
            frames: Vec::new(alloc),
            text: Vec::new(alloc),
        }
    }

    /// Returns how many octets wait to be written.
    pub fn len(&self) -> usize
        ensures { result ≡ length self.now.octets }
    {
        self.frames.len()
    }

    // Puts the frame of an item after the others. Returns whether the transport stays open.
    fn hear(&mut self, item: &ToClient) -> Result<bool, ListenFault>
        ensures hears { Hears self.old.limit item.now result self.old.octets self.new.octets }
        ensures limit { self.new.limit ≡ self.old.limit }
    {
        match item {
            ToClient::Send(message) => {
                self.send(message)?;
                Ok(true)
            }
            ToClient::Pong(payload) => {
                self.put(FrameKind::Pong, payload.as_slice())?;
                Ok(true)
            }
            ToClient::Close => Ok(false),
        }
    }

    /// Puts a frame after the others.
    ///
    /// `Wide` if its payload is longer than the client takes, and `Memory`; nothing is put then. The payload is copied once.
    /// (WAMP specification, "RawSocket Transport", "Framing".)
    pub fn put(&mut self, kind: FrameKind, payload: &[u8]) -> Result<(), ListenFault>
        ensures frames { Frames self.old.limit kind payload.now result self.old.octets self.new.octets }
        ensures limit { self.new.limit ≡ self.old.limit }
    {
        append(&mut self.frames, kind, payload, self.limit)
    }

    /// Puts the frame of a message after the others, with the faults of [`Outbox::put`]. The message is written once, into memory
    /// that is kept, and copied once.
    pub fn send(&mut self, message: &Message) -> Result<(), ListenFault>
        ensures frames { Frames self.old.limit FrameKind.Message (text_of message.now) result self.old.octets self.new.octets }
        ensures limit { self.new.limit ≡ self.old.limit }
    {
        self.text.clear();
        write_into(message, &mut self.text)?;
        append(
            &mut self.frames,
            FrameKind::Message,
            self.text.as_slice(),
            self.limit,
        )
    }

    /// Takes items out of a ring and puts their frames after the others, until the consumer knows of no item or more than 64 KiB wait. Returns
    /// whether the transport stays open; it does not once a `Close` is taken.
    ///
    /// `Wide` at a message or PONG that is longer than the client takes, and `Memory`: what was taken before waits. It waits for nothing,
    /// and takes an item only while at most 64 KiB wait. (WAMP specification, "RawSocket Transport", "Framing".)
    pub fn gather<P: Protocol<ToClient>>(
        &mut self,
        consumer: &mut Consumer<ToClient, Global, P>,
    ) -> Result<bool, ListenFault>
        ensures gathers { Gathers P.allows self.old.limit result (received consumer.old) (received consumer.new)
            self.old.octets self.new.octets }
        ensures empty { result ≡ Ok true → (known_items consumer.new ≡ []) ⊎ (most_waiting < length self.new.octets) }
        ensures known { KeepsKnown consumer.old consumer.new }
        ensures limit { self.new.limit ≡ self.old.limit }
        ensures ring { SameConsumer consumer.old consumer.new }
    {
        'items: loop {
            if self.len() > FULL {
                return Ok(true);
            }
            let Ok(item) = consumer.pop() else {
                return Ok(true);
            };
            let heard = self.hear(&item);
            drop(item);
            match heard {
                Ok(true) => {}
                Ok(false) => return Ok(false),
                Err(fault) => return Err(fault),
            }
        }
    }

    /// Writes once what waits, if anything does, and drops what was written. An error leaves all as it was. What the writer left is moved
    /// to the front, 64 KiB at the most after frames that [`Outbox::gather`] put.
    pub fn write_some<W: Write>(&mut self, writer: &mut W) -> io::Result<()>
        ensures wrote { OnOk result ((written : List ℕ) × (self.old.octets ≡ written ++ self.new.octets)
            × Appends (W.contents writer.old) (W.contents writer.new) written) }
        ensures err { OnErr result ((self.new ≡ self.old) × Keeps (W.contents writer.old) (W.contents writer.new)) }
        ensures limit { self.new.limit ≡ self.old.limit }
    {
        if self.frames.is_empty() {
            return Ok(());
        }
        let count = writer.write(self.frames.as_slice())?;
        if count == self.frames.len() {
            self.frames.clear();
        } else {
            drop(self.frames.drain(..count));
        }
        Ok(())
    }

    /// Writes all that waits, and flushes the writer, also if nothing waits. `Write` if the writer failed.
    pub fn write_to<W: Write>(&mut self, writer: &mut W) -> Result<(), ListenFault>
        ensures empties { Empties result self.old.octets self.new.octets (W.contents writer.old) (W.contents writer.new) }
        ensures err { OnErr result (self.new ≡ self.old) }
        ensures limit { self.new.limit ≡ self.old.limit }
    {
        write_out(writer, self.frames.as_slice())?;
        self.frames.clear();
        Ok(())
    }
}

// Appends a frame, if the client takes payloads of its length.
fn append(
    frames: &mut Vec<u8>,
    kind: FrameKind,
    payload: &[u8],
    limit: u32,
) -> Result<(), ListenFault>
    ensures { Frames limit kind payload.now result frames.old.items frames.new.items }
{
    match append_frame(frames, kind, payload, limit) {
        Ok(()) => Ok(()),
        Err(FrameFault::TooLong) => Err(ListenFault::Wide),
        Err(_) => Err(ListenFault::Memory),
    }
}
