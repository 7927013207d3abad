// Rows on how a client is greeted.
use crate::check::Check;
use crate::streams::{Wire, is_same};
use client_listener::{ListenFault, greet, read_handshake};
use std::alloc::Global;
use std::process::Abort;
use test_checks::{check, check_eq};

// What a client sends first, whether there is room for it, and how the greeting ends; what the client is answered, and what is left of what
// it sent.
type Row = (
    &'static [u8],
    bool,
    Result<u32, ListenFault>,
    &'static [u8],
    &'static [u8],
);

const GREETED: &[Row] = &[
    (
        b"\x7F\xF1\0\0rest",
        true,
        Ok(16_777_215),
        b"\x7F\xB1\0\0",
        b"rest",
    ),
    (
        b"\x7F\xF2\0\0rest",
        true,
        Err(ListenFault::Handshake),
        b"\x7F\x10\0\0",
        b"rest",
    ),
    (
        b"\x7F\xF1\0\0",
        false,
        Err(ListenFault::Handshake),
        b"\x7F\x40\0\0",
        b"",
    ),
    (
        b"\x7E\xF1\0\0rest",
        true,
        Err(ListenFault::Handshake),
        b"",
        b"rest",
    ),
    (b"\x7F\xF1\0", true, Err(ListenFault::Handshake), b"", b""),
];

// A stream of these octets is greeted so, and the client is answered so.
fn is_greeted(rt: &impl Abort, wire: &mut Wire<'_>, row: &Row) {
    let (asked, room, result, answered, left) = row;
    check!(rt; greet(wire, *room) == *result, asked);
    check!(rt; is_same(wire.answered.as_slice(), answered), asked);
    check!(rt; is_same(wire.asked, left), asked);
}

// Greets the client of a row.
fn greets(rt: &impl Abort, alloc: Global, row: &Row) {
    let mut wire = Wire::new(alloc, row.0, 64, None);
    is_greeted(rt, &mut wire, row);
    drop(wire);
}

#[test]
fn greets_by_the_first_four_octets(rt: HostRuntime) {
    for row in GREETED {
        greets(&rt, rt.alloc(), row);
    }
}

// After how many calls a stream fails, how the greeting ends then, and that fault's number.
const FAILING: &[(u32, ListenFault, u8)] = &[
    (0, ListenFault::Read, 83),
    (3, ListenFault::Read, 83),
    (4, ListenFault::Write, 84),
    (5, ListenFault::Write, 84),
];

// How the greeting ends of a stream that fails after this many calls.
fn greeted(alloc: Global, calls: u32) -> Result<u32, ListenFault> {
    let mut wire = Wire::new(alloc, b"\x7F\xF1\0\0", 64, Some(calls));
    let ended = greet(&mut wire, true);
    drop(wire);
    ended
}

#[test]
fn greets_no_further_than_the_stream_goes(rt: HostRuntime) {
    for (calls, fault, number) in FAILING {
        check!(&rt; greeted(rt.alloc(), *calls) == Err(*fault), calls);
        check!(&rt; fault.number() == *number, calls);
    }
    check_eq!(&rt; read_handshake(&mut &b"\x7F\xF1\0\0rest"[..]), Ok([0x7F, 0xF1, 0, 0]));
}
