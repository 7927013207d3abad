// Runs of one client over a reader and a writer: octets in any pieces, calls, faults, failed reads and writes, and limits.
use crate::check::Check;
use std::alloc::{AllocError, Global};
use std::process::Abort;
use stream_program::{RunFault, stream_run};
use test_checks::{Paper, Pieces, check, check_eq, new_paper, reader_of};

// The client's octets of the stored run.
const ASKED: &[u8] = b"\x7F\xF1\0\0\
\0\0\0\x28[1,\"realm1\",{\"roles\":{\"subscriber\":{}}}]\
\0\0\0\x0F[32,1,{},\"a.b\"]\
\0\0\0\x3B[16,2,{\"acknowledge\":true,\"exclude_me\":false},\"a.b\",[\"hi\"]]\
\0\0\0\x1F[6,{},\"wamp.close.close_realm\"]";

// The router's octets of the stored run.
const ANSWERED: &[u8] = b"\x7F\xB1\0\0\
\0\0\x01\x0E[2,1,{\"roles\":{\"broker\":{\"features\":{\"pattern_based_subscription\":true,\"publisher_exclusion\":true}},\
\"dealer\":{\"features\":{\"call_canceling\":true,\"caller_identification\":true,\"pattern_based_registration\":true,\
\"progressive_call_results\":true,\"shared_registration\":true}}}}]\
\0\0\0\x08[33,1,1]\
\0\0\0\x08[17,2,3]\
\0\0\0\x12[36,1,3,{},[\"hi\"]]\
\0\0\0\x23[6,{},\"wamp.close.goodbye_and_out\"]";

// The client's octets of a run in which it calls itself.
const CALLING: &[u8] = b"\x7F\xF1\0\0\
\0\0\0\x46[1,\"realm1\",{\"roles\":{\"callee\":{\"features\":{\"call_canceling\":true}}}}]\
\0\0\0\x0D[64,1,{},\"p\"]\
\0\0\0\x11[48,2,{},\"p\",[1]]\
\0\0\0\x0D[70,1,{},[2]]\
\0\0\0\x0D[48,3,{},\"p\"]\
\0\0\0\x09[49,3,{}]";

// The router's octets of that run after those of WELCOME.
const CALLED: &[u8] = b"\
\0\0\0\x08[65,1,1]\
\0\0\0\x0F[68,1,1,{},[1]]\
\0\0\0\x0D[50,2,{},[2]]\
\0\0\0\x0B[68,2,1,{}]\
\0\0\0\x1C[69,2,{\"mode\":\"killnowait\"}]\
\0\0\0\x21[8,48,3,{},\"wamp.error.canceled\"]";

// The client's octets of a run in which it calls itself, and answers in parts.
const PROGRESSING: &[u8] = b"\x7F\xF1\0\0\
\0\0\0\x0F[1,\"realm1\",{}]\
\0\0\0\x0F[64,1,{},\"p.q\"]\
\0\0\0\x39[48,7,{\"disclose_me\":true,\"receive_progress\":true},\"p.q\"]\
\0\0\0\x1C[70,1,{\"progress\":true},[1]]\
\0\0\0\x0D[70,1,{},[2]]\
\0\0\0\x18[70,1,{\"progress\":true}]\
\0\0\0\x0F[48,8,{},\"p.q\"]\
\0\0\0\x1C[70,2,{\"progress\":true},[1]]\
\0\0\0\x09[70,2,{}]\
\0\0\0\x1E[48,9,{\"disclose_me\":1},\"p.q\"]";

// The router's octets of that run after those of WELCOME.
const PROGRESSED: &[u8] = b"\
\0\0\0\x08[65,1,1]\
\0\0\0\x2D[68,1,1,{\"caller\":1,\"receive_progress\":true}]\
\0\0\0\x1C[50,7,{\"progress\":true},[1]]\
\0\0\0\x0D[50,7,{},[2]]\
\0\0\0\x0B[68,2,1,{}]\
\0\0\0\x09[50,8,{}]\
\0\0\0\x29[8,48,9,{},\"wamp.error.invalid_argument\"]";

// A run from the one to the other.
fn run(alloc: Global, reader: &mut Pieces<'_>, paper: &mut Paper) -> Result<(), RunFault> {
    stream_run(alloc, reader, paper, "realm1")
}

// What a run over these octets writes, and how it ends.
fn answers(alloc: Global, octets: &[u8], most: usize) -> (Vec<u8>, Result<(), RunFault>) {
    let mut paper = new_paper(alloc, None);
    let outcome = run(alloc, &mut reader_of(octets, most), &mut paper);
    (paper.octets, outcome)
}

// Asserts how a run ended, and that it wrote these octets.
fn is_due(
    rt: &impl Abort,
    outcome: Result<(), RunFault>,
    written: &[u8],
    ending: Result<(), RunFault>,
    due: &[u8],
    at: usize,
) {
    check_eq!(rt; outcome, ending, at);
    check_eq!(rt; written, due, at);
}

// After how many of the client's octets how many of the router's are due.
const DUE: &[(usize, usize)] = &[(4, 4), (48, 278), (67, 290), (130, 324), (165, 363)];

// How many of the router's octets are due to this many of the client's.
fn due_to(asked: usize) -> usize {
    let mut due = 0;
    for (from, answered) in DUE {
        if *from <= asked {
            due = *answered;
        }
    }
    due
}

// Asserts how a run ended, and that it wrote this many octets of the stored run.
fn is_front(
    rt: &impl Abort,
    outcome: Result<(), RunFault>,
    written: &[u8],
    ending: Result<(), RunFault>,
    length: usize,
    at: usize,
) {
    check_eq!(rt; outcome, ending, at);
    check_eq!(rt; written.len(), length, at);
    check!(rt; ANSWERED.starts_with(written), at);
}

fn answers_by(rt: &impl Abort, alloc: Global, most: usize) {
    let (written, outcome) = answers(alloc, ASKED, most);
    is_due(rt, outcome, written.as_slice(), Ok(()), ANSWERED, most);
}

#[test]
fn answers_the_stored_run_in_any_pieces(rt: HostRuntime) {
    answers_by(&rt, rt.alloc(), 1);
    answers_by(&rt, rt.alloc(), 7);
    answers_by(&rt, rt.alloc(), ASKED.len());
}

fn answers_calls_by(rt: &impl Abort, alloc: Global, asked: &[u8], due: &[u8], most: usize) {
    let (written, outcome) = answers(alloc, asked, most);
    is_called(rt, outcome, written.as_slice(), due, most);
}

fn is_called(
    rt: &impl Abort,
    outcome: Result<(), RunFault>,
    written: &[u8],
    due: &[u8],
    most: usize,
) {
    check_eq!(rt; outcome, Ok(()), most);
    check!(rt; written.ends_with(due), most);
    // The handshake's answer and WELCOME come before.
    check_eq!(rt; written.len(), due.len().wrapping_add(278), most);
}

fn answers_calls(rt: &impl Abort, alloc: Global, asked: &[u8], due: &[u8]) {
    answers_calls_by(rt, alloc, asked, due, 1);
    answers_calls_by(rt, alloc, asked, due, 7);
    answers_calls_by(rt, alloc, asked, due, asked.len());
}

#[test]
fn answers_a_client_that_calls_itself(rt: HostRuntime) {
    answers_calls(&rt, rt.alloc(), CALLING, CALLED);
}

#[test]
fn answers_a_client_that_calls_itself_in_parts(rt: HostRuntime) {
    answers_calls(&rt, rt.alloc(), PROGRESSING, PROGRESSED);
}

#[test]
fn reads_nothing_after_the_handshake_before_it_is_answered(rt: HostRuntime) {
    let mut reader = reader_of(b"\x7F\xF2\0\0rest", 8);
    let mut paper = new_paper(rt.alloc(), None);
    let outcome = run(rt.alloc(), &mut reader, &mut paper);
    is_refused(&rt, outcome, paper.octets.as_slice(), reader.octets);
}

fn is_refused(rt: &impl Abort, outcome: Result<(), RunFault>, written: &[u8], rest: &[u8]) {
    check_eq!(rt; outcome, Err(RunFault::Transport(81)));
    check_eq!(rt; written, b"\x7F\x10\0\0".as_slice());
    check_eq!(rt; rest, b"rest".as_slice());
}

// What faulty clients send, what they are answered, and the number of the fault.
const FAULTS: &[(&[u8], &[u8], u8)] = &[
    (b"", b"", 81),
    (b"\x7F\xF1\0", b"", 81),
    (b"\x7E\xF1\0\0", b"", 81),
    (b"\x7F\xF1\0\x01", b"\x7F\x30\0\0", 81),
    (b"\x7F\xF1\0\0\x03\0\0\0", b"\x7F\xB1\0\0", 82),
    (b"\x7F\xF1\0\0\x08\0\0\0", b"\x7F\xB1\0\0", 82),
    (b"\x7F\xF1\0\0\0\x10\0\x01", b"\x7F\xB1\0\0", 82),
];

fn ends_by_fault(rt: &impl Abort, alloc: Global, asked: &[u8], answered: &[u8], fault: u8) {
    let (written, outcome) = answers(alloc, asked, 64);
    let ending = Err(RunFault::Transport(fault));
    is_due(
        rt,
        outcome,
        written.as_slice(),
        ending,
        answered,
        asked.len(),
    );
}

#[test]
fn ends_by_faults_of_the_client(rt: HostRuntime) {
    for (asked, answered, fault) in FAULTS {
        ends_by_fault(&rt, rt.alloc(), asked, answered, *fault);
    }
}

fn is_told(rt: &impl Abort, alloc: Global, fault: RunFault, text: &str, status: u8) {
    let told = format!(in alloc; "{fault}").expect(rt, "room for a text");
    is_text(rt, told.as_str(), text);
    check_eq!(rt; fault.status(), status, text);
}

fn is_text(rt: &impl Abort, told: &str, text: &str) {
    check_eq!(rt; told, text);
}

#[test]
fn tells_faults(rt: HostRuntime) {
    let alloc = rt.alloc();
    is_told(&rt, alloc, RunFault::Line(7), "line 7: not an event", 3);
    is_told(&rt, alloc, RunFault::Store(61), "store: 61", 4);
    is_told(&rt, alloc, RunFault::Memory, "memory", 5);
    is_told(&rt, alloc, RunFault::Transport(81), "transport: 81", 6);
}

fn ends_at(rt: &impl Abort, alloc: Global, end: usize, asked: &[u8]) {
    let (written, outcome) = answers(alloc, asked, 64);
    let due = if end < 4 {
        Err(RunFault::Transport(81))
    } else {
        Ok(())
    };
    is_front(rt, outcome, written.as_slice(), due, due_to(end), end);
}

#[test]
fn answers_what_came_before_the_end(rt: HostRuntime) {
    for end in 0..ASKED.len() {
        ends_at(&rt, rt.alloc(), end, &ASKED[..end]);
    }
}

// The reads of the stored run: four of an octet for the handshake, eleven of at most 16 octets for the rest, and one that finds the end.
const READS: usize = 16;

fn stops_after_reads(rt: &impl Abort, alloc: Global, reads: u32) {
    let mut reader = reader_of(ASKED, 16);
    reader.reads_before_failure = Some(reads);
    let mut paper = new_paper(alloc, None);
    let outcome = run(alloc, &mut reader, &mut paper);
    let reads = reads as usize;
    let asked = reads.saturating_sub(4).saturating_mul(16);
    let due = due_to(asked.saturating_add(reads.min(4)));
    let ending = ending_after(reads < READS, 83);
    is_front(rt, outcome, paper.octets.as_slice(), ending, due, reads);
}

// How a run ends in which a call has failed, or none.
fn ending_after(has_failed: bool, fault: u8) -> Result<(), RunFault> {
    if has_failed {
        Err(RunFault::Transport(fault))
    } else {
        Ok(())
    }
}

#[test]
fn stops_at_a_failed_read(rt: HostRuntime) {
    for reads in 0..18 {
        stops_after_reads(&rt, rt.alloc(), reads);
    }
}

// The writes and flushes of the stored run: two for the handshake, one as the client connects, two for each of three reads, and one at the end.
const CALLS: u32 = 10;

// How many octets are written if the first 0, 1, 2 .. calls succeed. The first read has two frames.
const WRITTEN: &[usize] = &[0, 4, 4, 4, 290, 290, 324, 324, 363, 363, 363, 363];

fn stops_after_writes(rt: &impl Abort, alloc: Global, calls: u32, length: usize) {
    let mut paper = new_paper(alloc, Some(calls));
    let outcome = run(alloc, &mut reader_of(ASKED, 64), &mut paper);
    let ending = ending_after(calls < CALLS, 84);
    is_front(
        rt,
        outcome,
        paper.octets.as_slice(),
        ending,
        length,
        calls as usize,
    );
}

#[test]
fn stops_at_a_failed_write(rt: HostRuntime) {
    let mut calls = 0;
    for length in WRITTEN {
        stops_after_writes(&rt, rt.alloc(), calls, *length);
        calls = calls.saturating_add(1);
    }
}

// The octets of a client that takes payloads of up to 512 octets and is subscribed, and what it is answered.
const SMALL: (&[u8], &[u8]) = (
    b"\x7F\x01\0\0\0\0\0\x0F[1,\"realm1\",{}]\0\0\0\x0D[32,1,{},\"a\"]",
    b"\x7F\xB1\0\0\
\0\0\x01\x0E[2,1,{\"roles\":{\"broker\":{\"features\":{\"pattern_based_subscription\":true,\"publisher_exclusion\":true}},\
\"dealer\":{\"features\":{\"call_canceling\":true,\"caller_identification\":true,\"pattern_based_registration\":true,\
\"progressive_call_results\":true,\"shared_registration\":true}}}}]\
\0\0\0\x08[33,1,1]",
);

// Appends a frame of this first octet, whose payload is `front`, `times` times `x`, and `back`.
fn put_long(
    out: &mut Vec<u8>,
    kind: u8,
    front: &[u8],
    times: u16,
    back: &[u8],
) -> Result<(), AllocError> {
    let length = usize::from(times)
        .wrapping_add(front.len())
        .wrapping_add(back.len());
    let [high, low] = ((length % 65536) as u16).to_be_bytes();
    out.extend_from_slice(&[kind, 0, high, low])?;
    out.extend_from_slice(front)?;
    for _ in 0..times {
        out.push(b'x')?;
    }
    out.extend_from_slice(back)
}

// Asserts how a run over these octets ends, and what it writes.
fn is_answered(
    rt: &impl Abort,
    alloc: Global,
    asked: &[u8],
    due: &[u8],
    outcome: Result<(), RunFault>,
) {
    let (written, ending) = answers(alloc, asked, 65536);
    is_due(rt, ending, written.as_slice(), outcome, due, asked.len());
}

// What the client sends that publishes so wide an event, and what it is answered, with the event if that fits.
fn put_event(
    asked: &mut Vec<u8>,
    due: &mut Vec<u8>,
    times: u16,
    fits: bool,
) -> Result<(), AllocError> {
    asked.extend_from_slice(SMALL.0)?;
    let front = b"[16,2,{\"acknowledge\":true,\"exclude_me\":false},\"a\",[\"";
    put_long(asked, 0, front, times, b"\"]]")?;
    due.extend_from_slice(SMALL.1)?;
    due.extend_from_slice(b"\0\0\0\x08[17,2,3]")?;
    if fits {
        put_long(due, 0, b"[36,1,3,{},[\"", times, b"\"]]")?;
    }
    Ok(())
}

fn publishes(rt: &impl Abort, alloc: Global, times: u16, outcome: Result<(), RunFault>) {
    let mut asked = Vec::new(alloc);
    let mut due = Vec::new(alloc);
    put_event(&mut asked, &mut due, times, outcome.is_ok()).expect(rt, "room for an event");
    is_answered(rt, alloc, asked.as_slice(), due.as_slice(), outcome);
}

#[test]
fn ends_at_an_event_that_is_too_wide(rt: HostRuntime) {
    publishes(&rt, rt.alloc(), 496, Ok(()));
    publishes(&rt, rt.alloc(), 497, Err(RunFault::Transport(87)));
}

// What the client sends with so wide a ping, and what it is answered, with the pong if that fits.
fn put_pong(
    asked: &mut Vec<u8>,
    due: &mut Vec<u8>,
    times: u16,
    fits: bool,
) -> Result<(), AllocError> {
    asked.extend_from_slice(SMALL.0)?;
    asked.extend_from_slice(b"\x02\0\0\0")?;
    put_long(asked, 1, b"", times, b"")?;
    due.extend_from_slice(SMALL.1)?;
    if fits {
        put_long(due, 2, b"", times, b"")?;
    }
    Ok(())
}

fn pings(rt: &impl Abort, alloc: Global, times: u16, outcome: Result<(), RunFault>) {
    let mut asked = Vec::new(alloc);
    let mut due = Vec::new(alloc);
    put_pong(&mut asked, &mut due, times, outcome.is_ok()).expect(rt, "room for a ping");
    is_answered(rt, alloc, asked.as_slice(), due.as_slice(), outcome);
}

#[test]
fn ends_at_a_pong_that_is_too_wide(rt: HostRuntime) {
    pings(&rt, rt.alloc(), 512, Ok(()));
    pings(&rt, rt.alloc(), 513, Err(RunFault::Transport(87)));
}

// Puts a client's handshake, and many sessions that it opens and leaves.
fn put_sessions(asked: &mut Vec<u8>) -> Result<(), AllocError> {
    asked.extend_from_slice(b"\x7F\xF1\0\0")?;
    for _ in 0..1500 {
        asked.extend_from_slice(b"\0\0\0\x0F[1,\"realm1\",{}]\0\0\0\x0A[6,{},\"x\"]")?;
    }
    Ok(())
}

#[test]
fn writes_before_many_replies_wait(rt: HostRuntime) {
    let mut asked = Vec::new(rt.alloc());
    put_sessions(&mut asked).expect(&rt, "room for sessions");
    let mut paper = new_paper(rt.alloc(), None);
    let mut reader = reader_of(asked.as_slice(), 1 << 20);
    let outcome = run(rt.alloc(), &mut reader, &mut paper);
    check_eq!(&rt; outcome, Ok(()));
    check!(&rt; paper.longest > 65536 && paper.longest < 65536 + 512);
    check!(&rt; paper.octets.len() > 1500 * (274 + 39));
}
