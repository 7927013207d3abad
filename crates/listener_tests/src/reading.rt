// Rows on what is put into a ring for a client's octets.
ghost use Rattle.rtrb.specs.Ring.{SameConsumer};

use crate::check::Check;
use crate::streams::{AtOnce, COUNT, Wire, frames};
use client_listener::{FromClient, ListenFault, read_transport};
use rtrb::{Consumer, Producer, RingBuffer};
use std::alloc::Global;
use std::io;
use std::io::Read;
use std::panic::Expect;
use std::process::Abort;
use test_checks::{check, check_eq};
use wamp_messages::{Message, Read as ReadResult, write};

// The client's frames of the stored run, and a PING.
pub const ASKED: &[u8] = b"\0\0\0\x28[1,\"realm1\",{\"roles\":{\"subscriber\":{}}}]\
\0\0\0\x0F[32,1,{},\"a.b\"]\
\0\0\0\x3B[16,2,{\"acknowledge\":true,\"exclude_me\":false},\"a.b\",[\"hi\"]]\
\0\0\0\x1F[6,{},\"wamp.close.close_realm\"]\
\x01\0\0\0";

// A letter for each kind of item; a message that breaks the protocol has its own.
pub fn letter(item: &FromClient) -> char {
    match item {
        FromClient::Connect => 'C',
        FromClient::Read(ReadResult::Good(_)) => 'R',
        FromClient::Read(_) => 'B',
        FromClient::Ping(_) => 'P',
        FromClient::Hung => 'H',
    }
}

// The letter of the next item of the ring, which is taken out.
pub fn next_letter(consumer: &mut Consumer<FromClient>) -> Option<char>
    ensures { SameConsumer consumer.old consumer.new }
{
    let Ok(item) = consumer.pop() else {
        return None;
    };
    let letter = letter(&item);
    drop(item);
    Some(letter)
}

// The next items of a ring have these letters, and none comes after them.
fn are_next(rt: &impl Abort, consumer: &mut Consumer<FromClient>, letters: &str) {
    for letter in letters.chars() {
        check_eq!(rt; next_letter(consumer), Some(letter), letters);
    }
    check_eq!(rt; next_letter(consumer), None, letters);
}

// The octets of a client, how many of them come at a time, and after how many calls its stream fails; the slots of a ring that nobody
// empties, and how often it is tried; how the reading ends then, and the letters of what it put into the ring.
type Row = (
    &'static [u8],
    usize,
    Option<u32>,
    usize,
    u64,
    Result<(), ListenFault>,
    &'static str,
);

const FRAMES: &[Row] = &[
    (ASKED, 4096, None, 64, 1000, Ok(()), "CRRRRPH"),
    (ASKED, 1, None, 64, 1000, Ok(()), "CRRRRPH"),
    (
        b"\x03\0\0\0",
        64,
        None,
        64,
        9,
        Err(ListenFault::Frame),
        "CH",
    ),
    (b"\x02\0\0\0\0", 64, None, 64, 9, Ok(()), "CH"),
    (b"\0\0\0\0\0\0\0\x02[]\0\0", 64, None, 64, 9, Ok(()), "CBBH"),
    (b"", 64, None, 64, 9, Ok(()), "CH"),
    (ASKED, 64, Some(0), 64, 9, Err(ListenFault::Read), "CH"),
    (ASKED, 64, Some(1), 64, 9, Err(ListenFault::Read), "CRRH"),
    (ASKED, 4096, None, 1, 3, Err(ListenFault::Turns), "C"),
    (ASKED, 64, None, 64, 1, Err(ListenFault::Turns), "CRR"),
];

// How the reading of a stream ends, whose items nobody takes out of the ring. The ring's other end is there still.
fn read_all<S: Read>(
    rt: &impl Abort,
    alloc: Global,
    stream: &mut S,
    producer: Producer<FromClient>,
    turns: u64,
) -> Result<(), ListenFault> {
    let (outcome, finished) = read_transport(&AtOnce, alloc, stream, producer, turns);
    check!(rt; finished.is_some(), "the ring's other end is there");
    drop(finished);
    outcome
}

// How the reading of a row's octets ends.
fn ended(
    rt: &impl Abort,
    alloc: Global,
    row: &Row,
    producer: Producer<FromClient>,
) -> Result<(), ListenFault> {
    let mut wire = Wire::new(alloc, row.0, row.1, row.2);
    let outcome = read_all(rt, alloc, &mut wire, producer, row.4);
    drop(wire);
    outcome
}

// What a row's octets put into the ring is what the row says.
fn puts(rt: &impl Abort, alloc: Global, row: &Row) {
    let (producer, mut consumer) = RingBuffer::new(alloc, row.3).expect(rt, "a ring");
    let outcome = ended(rt, alloc, row, producer);
    check!(rt; outcome == row.5, (row.1, row.0));
    are_next(rt, &mut consumer, row.6);
    drop(consumer);
}

#[test]
fn puts_an_item_for_each_frame(rt: HostRuntime) {
    for row in FRAMES {
        puts(&rt, rt.alloc(), row);
    }
}

// Whether this is the text of the message.
fn is_text(rt: &impl Abort, alloc: Global, message: &Message, octets: &[u8]) -> bool {
    let text = write(alloc, message).expect(rt, "room for the text");
    let is_same = text.as_slice() == octets;
    drop(text);
    is_same
}

// Whether the item holds this: the text of a message, or the octets of a PING.
fn holds(rt: &impl Abort, alloc: Global, item: &FromClient, octets: &[u8]) -> bool {
    match item {
        FromClient::Read(ReadResult::Good(message)) => is_text(rt, alloc, message, octets),
        FromClient::Ping(payload) => payload.as_slice() == octets,
        _ => false,
    }
}

// Whether the next item of the ring holds this.
fn next_holds(
    rt: &impl Abort,
    alloc: Global,
    consumer: &mut Consumer<FromClient>,
    octets: &[u8],
) -> bool {
    let item = consumer.pop().expect(rt, "an item");
    let held = holds(rt, alloc, &item, octets);
    drop(item);
    held
}

// The items of a ring, known by what they hold.
fn hold(rt: &impl Abort, alloc: Global, consumer: &mut Consumer<FromClient>) {
    check_eq!(rt; next_letter(consumer), Some('C'));
    check!(rt; next_holds(rt, alloc, consumer, b"[32,1,{},\"a.b\"]"));
    check!(rt; next_holds(rt, alloc, consumer, b"AB"));
}

#[test]
fn puts_what_the_frames_hold(rt: HostRuntime) {
    let mut asked = &b"\0\0\0\x0F[32,1,{},\"a.b\"]\x01\0\0\x02AB\x02\0\0\x01C"[..];
    let (producer, mut consumer) = RingBuffer::new(rt.alloc(), 8).expect(&rt, "a ring");
    let outcome = read_all(&rt, rt.alloc(), &mut asked, producer, 9);
    check!(&rt; outcome == Ok(()));
    hold(&rt, rt.alloc(), &mut consumer);
    drop(consumer);
}

// How many messages are in a ring, which is empty then.
fn take_all(consumer: &mut Consumer<FromClient>) -> u32 {
    let mut messages: u32 = 0;
    for _ in 0..64 {
        let Some(letter) = next_letter(consumer) else {
            break;
        };
        if letter == 'R' {
            messages = messages.saturating_add(1);
        }
    }
    messages
}

// A stream that empties the ring whenever it is asked for no octets, as after each vain try.
#[derive(Drop)]
struct Emptying<'a> {
    asked: &'a [u8],
    consumer: Consumer<FromClient>,
    messages: u32,
}

impl Read for Emptying<'_> {
    fn read(&mut self, buf: &mut [u8]) -> io::Result<usize> {
        if buf.is_empty() {
            let messages = take_all(&mut self.consumer);
            self.messages = self.messages.saturating_add(messages);
            return Ok(0);
        }
        self.asked.read(buf)
    }
}

// How many messages such a stream of these octets puts through a ring of 64, to its end.
fn count_through(rt: &impl Abort, alloc: Global, asked: &[u8]) -> u32 {
    let (producer, consumer) = RingBuffer::new(alloc, 64).expect(rt, "a ring");
    let mut stream = Emptying {
        asked,
        consumer,
        messages: 0,
    };
    let outcome = read_all(rt, alloc, &mut stream, producer, u64::MAX);
    check!(rt; outcome == Ok(()));
    let last = take_all(&mut stream.consumer);
    let messages = stream.messages.saturating_add(last);
    drop(stream);
    messages
}

#[test]
fn ten_thousand_messages_go_through_a_ring_of_64(rt: HostRuntime) {
    let octets = frames(&rt, rt.alloc());
    let messages = count_through(&rt, rt.alloc(), octets.as_slice());
    drop(octets);
    check_eq!(&rt; messages, COUNT);
}

// A stream that has no end: it gives these octets at each read, of which it counts those that ask for some.
#[derive(Drop)]
struct Endless<'a> {
    octets: &'a [u8],
    reads: u32,
}

impl Read for Endless<'_> {
    fn read(&mut self, buf: &mut [u8]) -> io::Result<usize> {
        if !buf.is_empty() {
            self.reads = self.reads.saturating_add(1);
        }
        let mut octets = self.octets;
        octets.read(buf)
    }
}

// Three turns are spent on such a stream: this many reads were made then, and a ring of 16 has these items.
fn is_given_up(rt: &impl Abort, alloc: Global, octets: &[u8], reads: u32, letters: &str) {
    let (producer, mut consumer) = RingBuffer::new(alloc, 16).expect(rt, "a ring");
    let mut stream = Endless { octets, reads: 0 };
    let outcome = read_all(rt, alloc, &mut stream, producer, 3);
    check!(rt; outcome == Err(ListenFault::Turns), letters);
    check_eq!(rt; stream.reads, reads, letters);
    are_next(rt, &mut consumer, letters);
    drop(consumer);
}

// Each four octets are a message without a text: three reads of 16 octets have twelve, and one of 64 fills the ring.
#[test]
fn gives_up_a_stream_that_has_no_end(rt: HostRuntime) {
    is_given_up(&rt, rt.alloc(), &[0; 16], 3, "CBBBBBBBBBBBB");
    is_given_up(&rt, rt.alloc(), &[0; 64], 1, "CBBBBBBBBBBBBBBB");
}
