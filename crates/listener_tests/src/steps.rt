// Rows on what goes into a ring, and out of one, in steps that wait for nothing.
use crate::check::Check;
use crate::reading::{ASKED, next_letter};
use crate::streams::is_same;
use crate::writing::hand_pongs;
use client_listener::{FromClient, Inlet, ListenFault, Outbox, Parser, ToClient};
use rtrb::{Consumer, Producer, RingBuffer};
use std::alloc::Global;
use std::io;
use std::io::{ErrorKind, Write};
use std::panic::Expect;
use std::process::Abort;
use std::str::Chars;
use test_checks::{check, check_eq};

// The octets of a client, how many of them are fed at a time, and the slots of the ring, which is emptied whenever it is full; how the last put
// ends, and the letters of all that is put.
type Fed = (
    &'static [u8],
    usize,
    usize,
    Result<bool, ListenFault>,
    &'static str,
);

const FED: &[Fed] = &[
    (ASKED, 4096, 64, Ok(true), "CRRRRPH"),
    (ASKED, 1, 1, Ok(true), "CRRRRPH"),
    (ASKED, 7, 2, Ok(true), "CRRRRPH"),
    (ASKED, 4096, 1, Ok(true), "CRRRRPH"),
    (
        b"\x01\0\0\0\x03\0\0\0",
        64,
        1,
        Err(ListenFault::Frame),
        "CPH",
    ),
    (b"\x02\0\0\0\0", 64, 64, Ok(true), "CH"),
    (b"\0\0\0\0\0\0\0\x02[]\0\0", 3, 1, Ok(true), "CBBH"),
    (b"", 64, 64, Ok(true), "CH"),
];

// The items of a ring have the next of these letters; it is empty then.
fn empty(rt: &impl Abort, consumer: &mut Consumer<FromClient>, letters: &mut Chars<'_>) {
    for _ in 0..64 {
        let Some(letter) = next_letter(consumer) else {
            return;
        };
        check_eq!(rt; Some(letter), letters.next());
    }
}

// Puts all that an inlet holds, through a ring that is emptied whenever it is full.
fn put_all(
    rt: &impl Abort,
    inlet: &mut Inlet,
    parser: &mut Parser,
    ring: (&mut Producer<FromClient>, &mut Consumer<FromClient>),
    letters: &mut Chars<'_>,
) -> Result<bool, ListenFault> {
    let (producer, consumer) = ring;
    for _ in 0..64 {
        match inlet.put(parser, producer) {
            Ok(false) => empty(rt, consumer, letters),
            other => return other,
        }
    }
    Ok(false)
}

// Puts that nothing more comes, likewise.
fn hang(
    rt: &impl Abort,
    inlet: &Inlet,
    ring: (&mut Producer<FromClient>, &mut Consumer<FromClient>),
    letters: &mut Chars<'_>,
) {
    let (producer, consumer) = ring;
    if !inlet.hang(producer) {
        empty(rt, consumer, letters);
        check!(rt; inlet.hang(producer));
    }
    empty(rt, consumer, letters);
    check_eq!(rt; letters.next(), None);
}

// What is put for a row's octets is what the row says.
fn goes_in(
    rt: &impl Abort,
    row: &Fed,
    inlet: &mut Inlet,
    parser: &mut Parser,
    ring: (&mut Producer<FromClient>, &mut Consumer<FromClient>),
) {
    let (producer, consumer) = ring;
    let mut letters = row.4.chars();
    let mut last = put_all(rt, inlet, parser, (producer, consumer), &mut letters);
    for octets in row.0.chunks(row.1.max(1)) {
        inlet.feed(octets).expect(rt, "room for the octets");
        last = put_all(rt, inlet, parser, (producer, consumer), &mut letters);
    }
    check!(rt; last == row.3, (row.1, row.0));
    hang(rt, inlet, (producer, consumer), &mut letters);
}

// Does so by a new inlet and a new ring.
fn goes_through(rt: &impl Abort, alloc: Global, row: &Fed) {
    let (mut producer, mut consumer) = RingBuffer::new(alloc, row.2).expect(rt, "a ring");
    let mut inlet = Inlet::new(alloc);
    let mut parser = Parser::new(alloc);
    goes_in(
        rt,
        row,
        &mut inlet,
        &mut parser,
        (&mut producer, &mut consumer),
    );
    drop(inlet);
    drop(parser);
    drop(consumer);
}

#[test]
fn an_inlet_puts_an_item_for_each_frame(rt: HostRuntime) {
    for row in FED {
        goes_through(&rt, rt.alloc(), row);
    }
}

// A writer that takes seven octets at a time, and each second time none.
#[derive(Drop)]
struct Sips {
    octets: Vec<u8>,
    is_full: bool,
}

impl Write for Sips {
    fn write(&mut self, buf: &[u8]) -> io::Result<usize> {
        self.is_full = !self.is_full;
        if self.is_full {
            return Err(ErrorKind::WouldBlock.into());
        }
        let count = buf.len().min(7);
        self.octets.extend_from_slice(&buf[..count])?;
        Ok(count)
    }

    fn flush(&mut self) -> io::Result<()> {
        Ok(())
    }
}

// The lengths of PONGs, and whether `Close` comes after them; how gathering ends, for a client that takes 512 octets, and which octets are
// written then.
type Gathered = (
    &'static [usize],
    bool,
    Result<bool, ListenFault>,
    &'static [u8],
);

const GATHERED: &[Gathered] = &[
    (&[2, 1], true, Ok(false), b"\x02\0\0\x02xx\x02\0\0\x01x"),
    (&[2, 1], false, Ok(true), b"\x02\0\0\x02xx\x02\0\0\x01x"),
    (
        &[2, 513, 1],
        true,
        Err(ListenFault::Wide),
        b"\x02\0\0\x02xx",
    ),
    (&[], false, Ok(true), b""),
    (&[], true, Ok(false), b""),
];

// Writes all that an outbox holds, some octets at a time.
fn write_all(rt: &impl Abort, outbox: &mut Outbox, sips: &mut Sips) {
    for _ in 0..64 {
        if let Err(error) = outbox.write_some(sips) {
            check!(rt; error.kind() == ErrorKind::WouldBlock);
        }
    }
    check_eq!(rt; outbox.len(), 0);
}

// What is gathered and written of a row is what the row says.
fn goes_out(
    rt: &impl Abort,
    row: &Gathered,
    outbox: &mut Outbox,
    consumer: &mut Consumer<ToClient>,
    sips: &mut Sips,
) {
    let gathered = outbox.gather(consumer);
    check!(rt; gathered == row.2, row.0);
    write_all(rt, outbox, sips);
    check!(rt; is_same(sips.octets.as_slice(), row.3), row.0);
}

// Does so by a new outbox and a new ring.
fn is_gathered(rt: &impl Abort, alloc: Global, row: &Gathered) {
    let (mut producer, mut consumer) = RingBuffer::new(alloc, 8).expect(rt, "a ring");
    hand_pongs(rt, alloc, &mut producer, row.0, row.1);
    let mut outbox = Outbox::new(alloc, 512);
    let mut sips = Sips {
        octets: Vec::new(alloc),
        is_full: false,
    };
    goes_out(rt, row, &mut outbox, &mut consumer, &mut sips);
    drop(sips);
    drop(outbox);
    drop(consumer);
    drop(producer);
}

#[test]
fn what_is_gathered_is_written_in_any_pieces(rt: HostRuntime) {
    for row in GATHERED {
        is_gathered(&rt, rt.alloc(), row);
    }
}

#[test]
fn gathering_stops_after_64_kib(rt: HostRuntime) {
    let (mut producer, mut consumer) = RingBuffer::new(rt.alloc(), 8).expect(&rt, "a ring");
    hand_pongs(&rt, rt.alloc(), &mut producer, &[20_000; 5], false);
    let mut outbox = Outbox::new(rt.alloc(), 1 << 24);
    let gathered = outbox.gather(&mut consumer);
    check!(&rt; gathered == Ok(true));
    check_eq!(&rt; outbox.len(), 80_016);
    check_eq!(&rt; consumer.slots(), 1);
    drop(outbox);
    drop(consumer);
    drop(producer);
}
