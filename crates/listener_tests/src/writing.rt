// Rows on what is written of what is taken out of a ring, and of what an outbox holds.
use crate::check::Check;
use crate::streams::{AtOnce, COUNT, FRAME, Wire, frames, is_same};
use bytes::Bytes;
use client_listener::{ListenFault, Outbox, ToClient, write_transport};
use rtrb::{Producer, RingBuffer};
use std::alloc::Global;
use std::io;
use std::io::Write;
use std::panic::Expect;
use std::process::Abort;
use test_checks::check;
use wamp_messages::{Read as ReadResult, read};
use wamp_rawsocket::FrameKind;

// The router's frames of the stored run, and the texts of their messages.
const ANSWERED: &[u8] =
    b"\0\0\x01\x0E[2,1,{\"roles\":{\"broker\":{\"features\":{\"pattern_based_subscription\":true,\"publisher_exclusion\":true}},\
\"dealer\":{\"features\":{\"call_canceling\":true,\"caller_identification\":true,\"pattern_based_registration\":true,\
\"progressive_call_results\":true,\"shared_registration\":true}}}}]\
\0\0\0\x08[33,1,1]\
\0\0\0\x08[17,2,3]\
\0\0\0\x12[36,1,3,{},[\"hi\"]]\
\0\0\0\x23[6,{},\"wamp.close.goodbye_and_out\"]";

const TEXTS: [&str; 5] = [
    "[2,1,{}]",
    "[33,1,1]",
    "[17,2,3]",
    "[36,1,3,{},[\"hi\"]]",
    "[6,{},\"wamp.close.goodbye_and_out\"]",
];

// The message of a text, to be sent.
pub fn message_of(alloc: Global, text: &[u8]) -> Option<ToClient> {
    let read = read(alloc, text).ok()?;
    let message = match &read {
        ReadResult::Good(message) => message.copy().ok(),
        _ => None,
    };
    drop(read);
    message.map(ToClient::Send)
}

fn pong_of(rt: &impl Abort, alloc: Global, length: usize) -> ToClient {
    let octets = vec![in alloc; b'x'; length].expect(rt, "room for the octets");
    let payload = Bytes::copy_from_slice(alloc, &octets).expect(rt, "a payload");
    drop(octets);
    ToClient::Pong(payload)
}

// Hands an item to a ring. Returns whether there is one, and the ring had room for it.
pub fn hand<T: Drop>(producer: &mut Producer<T>, item: Option<T>) -> bool {
    match item {
        Some(item) => producer.push(item).is_ok(),
        None => false,
    }
}

// Hands an item to a ring, which has room for it.
fn put<T: Drop>(rt: &impl Abort, producer: &mut Producer<T>, item: T) {
    check!(rt; hand(producer, Some(item)), "the ring has room");
}

// Puts the messages of the texts into a ring, and `Close` after them.
fn hand_texts(rt: &impl Abort, alloc: Global, producer: &mut Producer<ToClient>) {
    for text in TEXTS {
        let item = message_of(alloc, text.as_bytes());
        check!(rt; hand(producer, item), text);
    }
    put(rt, producer, ToClient::Close);
}

#[test]
fn writes_the_frames_of_the_stored_run(rt: HostRuntime) {
    let (mut producer, consumer) = RingBuffer::new(rt.alloc(), 8).expect(&rt, "a ring");
    hand_texts(&rt, rt.alloc(), &mut producer);
    let mut wire = Wire::new(rt.alloc(), b"", 64, None);
    let outcome = write_transport(&AtOnce, rt.alloc(), consumer, &mut wire, 1 << 24, 9);
    drop(producer);
    check!(&rt; outcome == Ok(()));
    check!(&rt; wire.answered.as_slice() == ANSWERED);
    drop(wire);
}

// Puts PONGs of these lengths into a ring, and `Close` after them.
pub fn hand_pongs(
    rt: &impl Abort,
    alloc: Global,
    producer: &mut Producer<ToClient>,
    lengths: &[usize],
    closes: bool,
) {
    for length in lengths {
        put(rt, producer, pong_of(rt, alloc, *length));
    }
    if closes {
        put(rt, producer, ToClient::Close);
    }
}

// How the writing of PONGs of these lengths ends, for a client that takes 512 octets.
fn written(
    rt: &impl Abort,
    alloc: Global,
    lengths: &[usize],
    closes: bool,
    wire: &mut Wire<'_>,
) -> Result<(), ListenFault> {
    let (mut producer, consumer) = RingBuffer::new(alloc, 8).expect(rt, "a ring");
    hand_pongs(rt, alloc, &mut producer, lengths, closes);
    let outcome = write_transport(&AtOnce, alloc, consumer, wire, 512, 3);
    drop(producer);
    outcome
}

// The lengths of PONGs, whether `Close` comes after them, and after how many calls the stream fails; how the writing ends then, and which
// octets are written.
type Row = (
    &'static [usize],
    bool,
    Option<u32>,
    Result<(), ListenFault>,
    &'static [u8],
);

const ENDS: &[Row] = &[
    (&[2, 1], true, None, Ok(()), b"\x02\0\0\x02xx\x02\0\0\x01x"),
    (
        &[2, 513, 1],
        true,
        None,
        Err(ListenFault::Wide),
        b"\x02\0\0\x02xx",
    ),
    (
        &[2],
        false,
        None,
        Err(ListenFault::Turns),
        b"\x02\0\0\x02xx",
    ),
    (&[], false, None, Err(ListenFault::Turns), b""),
    (&[2], true, Some(0), Err(ListenFault::Write), b""),
    (
        &[2],
        true,
        Some(1),
        Err(ListenFault::Write),
        b"\x02\0\0\x02xx",
    ),
];

// The writing of a row's PONGs to this stream ends as the row says.
fn is_ended(rt: &impl Abort, alloc: Global, row: &Row, wire: &mut Wire<'_>) {
    let outcome = written(rt, alloc, row.0, row.1, wire);
    let is_so = outcome == row.3 && is_same(wire.answered.as_slice(), row.4);
    check!(rt; is_so, (row.0, outcome));
}

fn ends(rt: &impl Abort, alloc: Global, row: &Row) {
    let mut wire = Wire::new(alloc, b"", 64, row.2);
    is_ended(rt, alloc, row, &mut wire);
    drop(wire);
}

#[test]
fn ends_the_writing_as_its_items_do(rt: HostRuntime) {
    for row in ENDS {
        ends(&rt, rt.alloc(), row);
    }
}

// A stream that fills the ring whenever it is flushed, as at each vain try, and closes it at last.
#[derive(Drop)]
struct Filling {
    alloc: Global,
    producer: Producer<ToClient>,
    left: u32,
    answered: Vec<u8>,
}

impl Filling {
    // Hands the next item to the ring. Returns whether it had room for it.
    fn hand_next(&mut self) -> bool {
        if self.left == 0 {
            return hand(&mut self.producer, Some(ToClient::Close));
        }
        let item = message_of(self.alloc, &FRAME[4..]);
        let had_room = hand(&mut self.producer, item);
        if had_room {
            self.left -= 1;
        }
        had_room
    }
}

impl Write for Filling {
    fn write(&mut self, buf: &[u8]) -> io::Result<usize> {
        self.answered.extend_from_slice(buf)?;
        Ok(buf.len())
    }

    fn flush(&mut self) -> io::Result<()> {
        for _ in 0..64 {
            if !self.hand_next() {
                break;
            }
        }
        Ok(())
    }
}

#[test]
fn ten_thousand_messages_are_written_out_of_a_ring_of_64(rt: HostRuntime) {
    let (producer, consumer) = RingBuffer::new(rt.alloc(), 64).expect(&rt, "a ring");
    let mut stream = Filling {
        alloc: rt.alloc(),
        producer,
        left: COUNT,
        answered: Vec::new(rt.alloc()),
    };
    let outcome = write_transport(&AtOnce, rt.alloc(), consumer, &mut stream, 512, u64::MAX);
    check!(&rt; outcome == Ok(()));
    let wanted = frames(&rt, rt.alloc());
    check!(&rt; stream.answered.as_slice() == wanted.as_slice());
    drop(wanted);
    drop(stream);
}

// What an outbox returns for a frame, for one that is too wide, and for two tries to write what it holds; how much it holds after each try.
fn tries(outbox: &mut Outbox, wire: &mut Wire<'_>) -> ([Result<(), ListenFault>; 4], [usize; 2]) {
    let kept = outbox.put(FrameKind::Pong, b"ab".as_slice());
    let refused = outbox.put(FrameKind::Message, &[b'x'; 513]);
    let failed = outbox.write_to(wire);
    let left = outbox.len();
    let done = outbox.write_to(wire);
    ([kept, refused, failed, done], [left, outbox.len()])
}

// A frame that is kept is written once, whole, and one that is too wide is not kept.
fn keeps(rt: &impl Abort, outbox: &mut Outbox, wire: &mut Wire<'_>) {
    let (answers, lengths) = tries(outbox, wire);
    let wanted = [
        Ok(()),
        Err(ListenFault::Wide),
        Err(ListenFault::Write),
        Ok(()),
    ];
    check!(rt; answers == wanted, answers);
    check!(rt; lengths == [6, 0], lengths);
    check!(rt; is_same(wire.answered.as_slice(), b"\x02\0\0\x02ab"));
}

#[test]
fn an_outbox_keeps_frames_until_they_are_written(rt: HostRuntime) {
    let mut outbox = Outbox::new(rt.alloc(), 512);
    let mut wire = Wire::new(rt.alloc(), b"", 64, Some(0));
    keeps(&rt, &mut outbox, &mut wire);
    drop(wire);
    drop(outbox);
}
