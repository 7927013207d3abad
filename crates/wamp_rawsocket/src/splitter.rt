// How frames are cut out of a stream, and which headers are refused.
ghost use Rattle.std.specs.Prelude.{◌≡◌, ◌↔◌, ◌++◌, [], Option, List, ℕ, option_map, MatchOption, OnOk, OnErr, IsOkUnless};
ghost use Rattle.wamp_rawsocket.specs.Frame.{header_of};
ghost use Rattle.wamp_rawsocket.specs.Splitter.{Gives, next_of, shown, passed, Measures};

use crate::fault::FrameFault;
use crate::frame::{Frame, FrameKind, FrameRef, HEADER_LEN};
use bytes::{Buf, BytesMut};
use std::alloc::Global;
use std::marker::Model;

// The longest payload that is received, as the handshake's answer says.
const INBOUND_LIMIT: u32 = 1 << 20;

/// Cuts the octets of a stream into frames, in whatever pieces they come.
///
/// Contracts see the octets that were fed and not yet returned as a frame, or `None` once they showed a fault: nothing is read from then
/// on.
#[derive(Debug, Drop)]
pub struct Splitter {
    octets: Option<BytesMut>,
}

impl Model for Splitter {
    ghost Value = { Option (List ℕ) };

    ghost view = { λ splitter. option_map (λ octets. octets.items) splitter.octets };
}

impl Splitter {
    /// Returns an empty splitter. Does not allocate.
    pub fn new(alloc: Global) -> Splitter
        ensures { result ≡ Some [] }
    {
        Splitter {
            octets: Some(BytesMut::new(alloc)),
        }
    }

    /// Takes the stream's next octets.
    ///
    /// Returns `Failed` after a fault of `next`; otherwise the only error is `Memory`. After an error the splitter is unchanged. Copies
    /// `octets`. If `next` is called until it returns `None` before the next octets are fed, and frames are dropped soon, a stream of N
    /// octets costs a number of steps in proportion to N, however it is cut.
    pub fn feed(&mut self, octets: &[u8]) -> Result<(), FrameFault>
        ensures ok { OnOk result (self.new ≡ option_map (λ held. held ++ octets.now) self.old) }
        ensures err { OnErr result (self.new ≡ self.old) }
        ensures refused { MatchOption self.old (result ≡ Err FrameFault.Failed)
            (λ _. IsOkUnless result FrameFault.Memory) }
    {
        let Some(held) = &mut self.octets else {
            return Err(FrameFault::Failed);
        };
        held.extend_from_slice(octets)?;
        Ok(())
    }

    /// Returns the next whole frame of the octets fed so far, or `None` if more are needed.
    ///
    /// Judges a frame once its first four octets are there, before any of its payload: `Reserved` for a reserved bit, `BadType`, and
    /// `TooLong` for more than 2^20 octets of payload, in this order. These spoil the splitter: each later call of `feed` or `next` returns
    /// `Failed`. Returns `Memory` only if a whole frame is there, and leaves the frame there. Copies neither the payload nor what follows
    /// it. (WAMP specification, "RawSocket Transport", "Framing".)
    pub fn next(&mut self) -> Result<Option<Frame>, FrameFault>
        ensures { Gives result self.old self.new }
    {
        let Some(held) = &mut self.octets else {
            return Err(FrameFault::Failed);
        };
        match measure(held.as_slice()) {
            Ok(None) => Ok(None),
            Ok(Some(Measured { kind, length })) => {
                let mut payload = held.freeze_to(HEADER_LEN + length)?;
                payload.advance(HEADER_LEN);
                Ok(Some(Frame { kind, payload }))
            }
            Err(fault) => {
                self.octets = None;
                Err(fault)
            }
        }
    }

    /// Returns the frame that `next` would return, without taking it out, or `None`, or the fault that `next` would return. Does not
    /// allocate and changes nothing: [`pass`](Splitter::pass) goes on.
    pub fn peek(&self) -> Result<Option<FrameRef<'_>>, FrameFault>
        ensures { shown result ≡ (next_of self.now).0 }
    {
        let Some(held) = &self.octets else {
            return Err(FrameFault::Failed);
        };
        match measure(held.as_slice()) {
            Ok(None) => Ok(None),
            Ok(Some(Measured { kind, length })) => Ok(Some(FrameRef {
                kind,
                payload: &held.as_slice()[..HEADER_LEN + length][HEADER_LEN..],
            })),
            Err(fault) => Err(fault),
        }
    }

    /// Skips the frame that `peek` shows; if it shows none, nothing changes. Does not allocate and copies nothing: the next octets that
    /// are fed take the place of what was skipped.
    pub fn pass(&mut self)
        ensures { self.new ≡ option_map passed self.old }
    {
        let Some(held) = &mut self.octets else {
            return;
        };
        if let Ok(Some(Measured { length, .. })) = measure(held.as_slice()) {
            held.advance(HEADER_LEN + length);
        }
    }
}

// What the first four octets of a whole frame say.
#[derive(Clone, Copy)]
struct Measured {
    kind: FrameKind,
    length: usize,
}

// Reads the header that the octets begin with; `None` if its frame is not whole yet.
fn measure(octets: &[u8]) -> Result<Option<Measured>, FrameFault>
    ensures { Measures result octets.now }
{
    let [octet, high, middle, low, rest @ ..] = octets else {
        return Ok(None);
    };
    let length = u32::from_be_bytes([0, *high, *middle, *low]);
    match read_header(*octet, length) {
        Ok(kind) if rest.len() < length as usize => Ok(None),
        Ok(kind) => Ok(Some(Measured {
            kind,
            length: length as usize,
        })),
        Err(fault) => Err(fault),
    }
}

// Judges a frame's first octet and the length of its payload.
fn read_header(octet: u8, length: u32) -> Result<FrameKind, FrameFault>
    ensures { result ≡ header_of octet length }
{
    if octet > 7 {
        return Err(FrameFault::Reserved);
    }
    let kind = match octet {
        0 => FrameKind::Message,
        1 => FrameKind::Ping,
        2 => FrameKind::Pong,
        _ => return Err(FrameFault::BadType),
    };
    if length > INBOUND_LIMIT {
        return Err(FrameFault::TooLong);
    }
    Ok(kind)
}
