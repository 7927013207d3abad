// Rows on a client that takes payloads of up to 512 octets: one of that length is written, and a longer one ends the run.
use crate::check::Check;
use std::alloc::{AllocError, Global};
use std::process::Abort;
use stream_program::{RunFault, stream_run};
use test_checks::{check_eq, new_paper, reader_of};

// The handshake of such a client, and its answer.
const GREETED: (&[u8], &[u8]) = (b"\x7F\x01\0\0", b"\x7F\xB1\0\0");

// What the client sends in the stored run before the publication, and what it is answered up to the acknowledgement.
const SUBSCRIBED: (&[u8], &[u8]) = (
    b"\0\0\0\x28[1,\"realm1\",{\"roles\":{\"subscriber\":{}}}]\
\0\0\0\x0F[32,1,{},\"a.b\"]",
    b"\0\0\x01\x0E[2,1,{\"roles\":{\"broker\":{\"features\":{\"pattern_based_subscription\":true,\"publisher_exclusion\":true}},\
\"dealer\":{\"features\":{\"call_canceling\":true,\"caller_identification\":true,\"pattern_based_registration\":true,\
\"progressive_call_results\":true,\"shared_registration\":true}}}}]\
\0\0\0\x08[33,1,1]\
\0\0\0\x08[17,2,3]",
);

// What it sends last, and what it is answered.
const LEFT: (&[u8], &[u8]) = (
    b"\0\0\0\x1F[6,{},\"wamp.close.close_realm\"]",
    b"\0\0\0\x23[6,{},\"wamp.close.goodbye_and_out\"]",
);

// Appends a frame of this first octet, whose payload is `front`, `times` times `x`, and `back`.
fn put_long(
    out: &mut Vec<u8>,
    kind: u8,
    front: &[u8],
    times: u16,
    back: &[u8],
) -> Result<(), AllocError> {
    let length = usize::from(times)
        .wrapping_add(front.len())
        .wrapping_add(back.len());
    let [high, low] = ((length % 65536) as u16).to_be_bytes();
    out.extend_from_slice(&[kind, 0, high, low])?;
    out.extend_from_slice(front)?;
    for _ in 0..times {
        out.push(b'x')?;
    }
    out.extend_from_slice(back)
}

// Asserts how a run over these octets ends, and what it writes.
fn is_answered(
    rt: &impl Abort,
    alloc: Global,
    asked: &[u8],
    due: &[u8],
    ending: Result<(), RunFault>,
    times: u16,
) {
    let mut paper = new_paper(alloc, None);
    let outcome = stream_run(alloc, &mut reader_of(asked, 64), &mut paper, "realm1");
    check_eq!(rt; outcome, ending, times);
    check_eq!(rt; paper.octets.as_slice(), due, times);
}

// The stored run with so long a publication, and what is due to it: nothing after the acknowledgement if the event does not fit.
fn put_run(
    asked: &mut Vec<u8>,
    due: &mut Vec<u8>,
    times: u16,
    fits: bool,
) -> Result<(), AllocError> {
    asked.extend_from_slice(GREETED.0)?;
    asked.extend_from_slice(SUBSCRIBED.0)?;
    let front = b"[16,2,{\"acknowledge\":true,\"exclude_me\":false},\"a.b\",[\"";
    put_long(asked, 0, front, times, b"\"]]")?;
    asked.extend_from_slice(LEFT.0)?;
    due.extend_from_slice(GREETED.1)?;
    due.extend_from_slice(SUBSCRIBED.1)?;
    if fits {
        put_long(due, 0, b"[36,1,3,{},[\"", times, b"\"]]")?;
        due.extend_from_slice(LEFT.1)?;
    }
    Ok(())
}

fn publishes(rt: &impl Abort, alloc: Global, times: u16, ending: Result<(), RunFault>) {
    let mut asked = Vec::new(alloc);
    let mut due = Vec::new(alloc);
    put_run(&mut asked, &mut due, times, ending.is_ok()).expect(rt, "room for a run");
    is_answered(rt, alloc, asked.as_slice(), due.as_slice(), ending, times);
}

// An event has 16 octets beside its text.
#[test]
fn the_stored_run_ends_at_an_event_of_513_octets(rt: HostRuntime) {
    publishes(&rt, rt.alloc(), 496, Ok(()));
    publishes(&rt, rt.alloc(), 497, Err(RunFault::Transport(87)));
}

// A PING right after the handshake, and what is due to it: nothing if the PONG does not fit.
fn put_ping(
    asked: &mut Vec<u8>,
    due: &mut Vec<u8>,
    times: u16,
    fits: bool,
) -> Result<(), AllocError> {
    asked.extend_from_slice(GREETED.0)?;
    put_long(asked, 1, b"", times, b"")?;
    due.extend_from_slice(GREETED.1)?;
    if fits {
        put_long(due, 2, b"", times, b"")?;
    }
    Ok(())
}

fn pings(rt: &impl Abort, alloc: Global, times: u16, ending: Result<(), RunFault>) {
    let mut asked = Vec::new(alloc);
    let mut due = Vec::new(alloc);
    put_ping(&mut asked, &mut due, times, ending.is_ok()).expect(rt, "room for a ping");
    is_answered(rt, alloc, asked.as_slice(), due.as_slice(), ending, times);
}

#[test]
fn a_ping_of_513_octets_ends_the_run(rt: HostRuntime) {
    pings(&rt, rt.alloc(), 512, Ok(()));
    pings(&rt, rt.alloc(), 513, Err(RunFault::Transport(87)));
}
