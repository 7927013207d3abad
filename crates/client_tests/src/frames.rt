// Rows on handshakes and frames: what is answered, faults, octets in any pieces, and the limits of payloads.
use crate::check::Check;
use std::alloc::Global;
use std::process::Abort;
use test_checks::check;
use wamp_rawsocket::{
    Answer, Frame, FrameFault, FrameKind, Splitter, answer, append_frame, put_frame,
};

// A handshake, whether there is room, and the answer.
const HANDSHAKES: &[([u8; 4], bool, Answer)] = &[
    (
        [0x7F, 0xF1, 0, 0],
        true,
        Answer::Terms {
            limit: 16_777_215,
            octets: [0x7F, 0xB1, 0, 0],
        },
    ),
    (
        [0x7F, 0x01, 0, 0],
        true,
        Answer::Terms {
            limit: 512,
            octets: [0x7F, 0xB1, 0, 0],
        },
    ),
    ([0x7F, 0xF2, 0, 0], true, Answer::Refuse([0x7F, 0x10, 0, 0])),
    ([0x7F, 0xF1, 0, 1], true, Answer::Refuse([0x7F, 0x30, 0, 0])),
    ([0x7E, 0xF1, 0, 0], true, Answer::Hang),
    (
        [0x7F, 0xF1, 0, 0],
        false,
        Answer::Refuse([0x7F, 0x40, 0, 0]),
    ),
];

#[test]
fn answers_handshakes(rt: HostRuntime) {
    for (octets, room, want) in HANDSHAKES {
        check!(&rt; answer(*octets, *room) == *want, octets);
    }
}

// Four octets, and the fault that they show.
const FAULTS: &[([u8; 4], FrameFault, u8)] = &[
    ([0x08, 0, 0, 0], FrameFault::Reserved, 31),
    ([0x03, 0, 0, 0], FrameFault::BadType, 32),
    ([0x00, 0x10, 0, 1], FrameFault::TooLong, 33),
];

// Whether these octets show this fault, and then, or fed again, that all has failed.
fn are_faults(rt: &impl Abort, splitter: &mut Splitter, octets: &[u8], want: FrameFault) -> bool {
    splitter.feed(octets).expect(rt, "room for the octets");
    splitter.next().err() == Some(want)
        && splitter.next().err() == Some(FrameFault::Failed)
        && splitter.feed(octets).err() == Some(FrameFault::Failed)
}

fn is_shown(rt: &impl Abort, alloc: Global, octets: &[u8], want: FrameFault) -> bool {
    let mut splitter = Splitter::new(alloc);
    are_faults(rt, &mut splitter, octets, want)
}

#[test]
fn shows_faults_by_four_octets(rt: HostRuntime) {
    for (octets, want, number) in FAULTS {
        check!(&rt; is_shown(&rt, rt.alloc(), octets, *want), number);
        check!(&rt; want.number() == *number);
    }
    check!(&rt; FrameFault::Failed.number() == 35);
}

// Whether the next frame is a message with `length` octets.
fn is_message(rt: &impl Abort, splitter: &mut Splitter, length: usize) -> bool {
    match splitter.next().expect(rt, "no fault") {
        Some(Frame { kind, payload }) => kind == FrameKind::Message && payload.len() == length,
        None => false,
    }
}

// Feeds the piece `times` times. Returns whether no frame was whole before the last one.
fn waits(rt: &impl Abort, splitter: &mut Splitter, piece: &[u8], times: u32) -> bool {
    let mut waited = true;
    for _ in 0..times {
        waited = splitter.next().expect(rt, "no fault").is_none() && waited;
        splitter.feed(piece).expect(rt, "room for a piece");
    }
    waited
}

fn waits_for_all(rt: &impl Abort, splitter: &mut Splitter, piece: &[u8]) {
    splitter
        .feed(&[0x00, 0x10, 0x00, 0x00])
        .expect(rt, "room for a header");
    check!(rt; waits(rt, splitter, piece, 256));
    check!(rt; is_message(rt, splitter, 1 << 20));
    check!(rt; splitter.next().expect(rt, "no fault").is_none());
}

#[test]
fn waits_for_the_longest_payload(rt: HostRuntime) {
    let mut splitter = Splitter::new(rt.alloc());
    let piece = vec![in rt.alloc(); b'x'; 4096].expect(&rt, "room for a piece");
    waits_for_all(&rt, &mut splitter, &piece);
}

// Appends a PONG for a PING, and any other frame as it came.
fn reply(rt: &impl Abort, replies: &mut Vec<u8>, frame: &Frame) {
    let kind = match frame.kind {
        FrameKind::Ping => FrameKind::Pong,
        kind => kind,
    };
    append_frame(replies, kind, frame.payload.as_slice(), 3).expect(rt, "a frame within the limit");
}

// Feeds one piece, and replies to each frame that is whole.
fn reply_to(rt: &impl Abort, splitter: &mut Splitter, piece: &[u8], replies: &mut Vec<u8>) {
    splitter.feed(piece).expect(rt, "room for a piece");
    for _ in 0..4 {
        let Some(frame) = splitter.next().expect(rt, "no fault") else {
            break;
        };
        reply(rt, replies, &frame);
    }
}

// The replies to what comes in pieces of this length.
fn replies_by(rt: &impl Abort, alloc: Global, octets: &[u8], length: usize) -> Vec<u8> {
    let mut splitter = Splitter::new(alloc);
    let mut replies = Vec::new(alloc);
    for piece in octets.chunks(length.max(1)) {
        reply_to(rt, &mut splitter, piece, &mut replies);
    }
    replies
}

// Whether what comes in pieces of this length has these replies.
fn is_replied(rt: &impl Abort, alloc: Global, octets: &[u8], length: usize, want: &[u8]) -> bool {
    let replies = replies_by(rt, alloc, octets, length);
    replies.as_slice() == want
}

#[test]
fn splits_frames_in_any_pieces(rt: HostRuntime) {
    let octets = b"\x01\0\0\x02AB\0\0\0\x03[6]\x01\0\0\0".as_slice();
    let want = b"\x02\0\0\x02AB\0\0\0\x03[6]\x02\0\0\0".as_slice();
    for length in [1, 3, octets.len()] {
        check!(&rt; is_replied(&rt, rt.alloc(), octets, length, want), length);
    }
}

// Whether the frame with this payload, within this limit, begins with these octets.
fn is_put(
    rt: &impl Abort,
    alloc: Global,
    kind: FrameKind,
    payload: &[u8],
    limit: u32,
    front: &[u8],
) -> bool {
    let frame = put_frame(alloc, kind, payload, limit).expect(rt, "a frame within the limit");
    frame.len().saturating_sub(4) == payload.len() && frame.as_slice().starts_with(front)
}

fn is_long_put(rt: &impl Abort, alloc: Global) -> bool {
    let long = vec![in alloc; 0u8; 70_000].expect(rt, "room for a payload");
    is_put(
        rt,
        alloc,
        FrameKind::Message,
        &long,
        70_000,
        b"\0\x01\x11\x70",
    )
}

fn is_too_long(alloc: Global) -> bool {
    put_frame(alloc, FrameKind::Pong, b"ABC", 2).err() == Some(FrameFault::TooLong)
}

#[test]
fn puts_frames_within_the_limit(rt: HostRuntime) {
    check!(&rt; is_put(&rt, rt.alloc(), FrameKind::Pong, b"AB", 2, b"\x02\0\0\x02AB"));
    check!(&rt; is_long_put(&rt, rt.alloc()));
    check!(&rt; is_too_long(rt.alloc()));
}
