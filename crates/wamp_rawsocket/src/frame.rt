// Frames and their kinds, and how a frame is written.
ghost use Rattle.std.specs.Prelude.{◌≡◌, ◌<◌, ◌≤◌, ◌++◌, ◌↔◌, length, IfOk, OnOk, OnErr, IsErrOf, IsOkUnless};
ghost use Rattle.wamp_rawsocket.specs.Frame.{frame_octets, code_of, outbound_limit};

use crate::fault::FrameFault;
use bytes::Bytes;
use std::alloc::Global;

// The number of octets before a frame's payload.
pub(crate) const HEADER_LEN: usize = 4;

// The longest payload whose length fits a frame's three octets.
pub(crate) const LONGEST_PAYLOAD: u32 = (1 << 24) - 1;

/// What a frame is for.
#[derive(Clone, Copy, Debug, PartialEq, Eq)]
pub enum FrameKind {
    /// A WAMP message.
    Message,
    /// A request for a `Pong` with the same payload.
    Ping,
    /// The answer to a `Ping`.
    Pong,
}

impl FrameKind {
    // Returns the type by which a frame's first octet encodes this kind.
    fn code(self) -> u8
        ensures { result ≡ code_of self }
    {
        match self {
            FrameKind::Message => 0,
            FrameKind::Ping => 1,
            FrameKind::Pong => 2,
        }
    }
}

/// A frame of a RawSocket stream. Its payload shares the memory of the octets that were fed.
#[derive(Debug, Drop)]
pub struct Frame {
    pub kind: FrameKind,
    pub payload: Bytes,
}

/// A frame that is still among the octets that were fed.
#[derive(Clone, Copy, Debug)]
pub struct FrameRef<'a> {
    pub kind: FrameKind,
    pub payload: &'a [u8],
}

/// Appends a frame to `out`: the octet of its kind, its payload's length in three octets, highest first, and the payload.
///
/// Returns `TooLong` if the payload has more than `limit` octets; the limit is the one that `answer` found in the receiver's handshake, and
/// one above 2^24 - 1, which is the most that a frame can hold, counts as that. Returns `Memory` only if the frame fits. After an error
/// `out` is unchanged. Copies the payload once. (WAMP specification, "RawSocket Transport", "Framing".)
pub fn append_frame(
    out: &mut Vec<u8>,
    kind: FrameKind,
    payload: &[u8],
    limit: u32,
) -> Result<(), FrameFault>
    ensures ok { OnOk result (out.new.items ≡ out.old.items ++ frame_octets kind payload.now) }
    ensures err { OnErr result (out.new.items ≡ out.old.items) }
    ensures too_long { IsErrOf result FrameFault.TooLong ↔ (outbound_limit limit < length payload.now) }
    ensures only_memory_else { length payload.now ≤ outbound_limit limit → IsOkUnless result FrameFault.Memory }
{
    if payload.len() > limit.min(LONGEST_PAYLOAD) as usize {
        return Err(FrameFault::TooLong);
    }
    let [_, high, middle, low] = (payload.len() as u32).to_be_bytes();
    out.reserve(HEADER_LEN + payload.len())?;
    out.extend_from_slice(&[kind.code(), high, middle, low])?;
    out.extend_from_slice(payload)?;
    Ok(())
}

/// Returns the octets of one frame, by the rules of [`append_frame`].
pub fn put_frame(
    alloc: Global,
    kind: FrameKind,
    payload: &[u8],
    limit: u32,
) -> Result<Vec<u8>, FrameFault>
    ensures octets { IfOk result (λ out. out.items ≡ frame_octets kind payload.now) }
    ensures too_long { IsErrOf result FrameFault.TooLong ↔ (outbound_limit limit < length payload.now) }
    ensures only_memory_else { length payload.now ≤ outbound_limit limit → IsOkUnless result FrameFault.Memory }
{
    let mut out = Vec::new(alloc);
    append_frame(&mut out, kind, payload, limit)?;
    Ok(out)
}
