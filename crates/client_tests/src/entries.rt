// Entries with acts as octets: which octets are which act, unfit requests and faults among them, and draws.
use crate::check::Check;
use command_codec::{Entry, put_entry, take_entry};
use paxos_packets::{Body, Shared};
use realm_acts::{Act, Read};
use realm_codec::ActCoder;
use std::alloc::Global;
use std::process::Abort;
use test_checks::{check, check_eq};
use wamp_ids::Id;
use wamp_messages::{Message, UnfitKind};

// An Item of node 2 in its boot 1, its first, of its transport 1, up to its body.
const FRONT: [u8; 22] = [
    3, 2, 0, 0, 0, 0, 0, 0, 0, 1, 0, 0, 0, 0, 0, 0, 0, 1, 0, 0, 0, 1,
];

// What is said with draw 5, up to what was read.
const SAID: [u8; 9] = [2, 0, 0, 0, 0, 0, 0, 0, 5];

// An Item whose body begins with these octets, and goes on with the text.
fn item(rt: &impl Abort, alloc: Global, body: &[u8], text: &str) -> Vec<u8> {
    let mut octets = Vec::from_slice(alloc, &FRONT).expect(rt, "room for an entry");
    octets
        .extend_from_slice(body)
        .expect(rt, "room for an entry");
    octets
        .extend_from_slice(text.as_bytes())
        .expect(rt, "room for an entry");
    octets
}

// An Item that says what these octets and the text are read as.
fn said(rt: &impl Abort, alloc: Global, read: &[u8], text: &str) -> Vec<u8> {
    let mut body = Vec::from_slice(alloc, &SAID).expect(rt, "room for a body");
    body.extend_from_slice(read).expect(rt, "room for a body");
    item(rt, alloc, body.as_slice(), text)
}

// What the octets are taken as: the number of the fault, the letter of the act if the entry is put as these octets again, or 0.
fn answer(alloc: Global, octets: &[u8]) -> u8 {
    match take_entry::<Act, ActCoder>(alloc, octets) {
        Ok(entry) => {
            let letter = letter_again(alloc, &entry, octets);
            drop(entry);
            letter
        }
        Err(fault) => fault.number(),
    }
}

pub fn letter_again(alloc: Global, entry: &Entry<Act>, octets: &[u8]) -> u8 {
    let mut again = Vec::new(alloc);
    match put_entry::<Act, ActCoder>(entry, &mut again) {
        Ok(()) if again.as_slice() == octets => letter(entry),
        _ => 0,
    }
}

fn letter(entry: &Entry<Act>) -> u8 {
    let Entry::Item { body, .. } = entry else {
        return b'-';
    };
    match body {
        Act::Connect => b'C',
        Act::Hung => b'H',
        Act::Said { read, .. } => read_letter(read.get()),
    }
}

// What was read: a message, a quiet PUBLISH, another unfit request, or the number of a fault.
fn read_letter(read: &Read) -> u8 {
    match read {
        Read::Good(_) => b'G',
        Read::Unfit {
            kind: UnfitKind::Publish,
            quiet: true,
            ..
        } => b'Q',
        Read::Unfit { .. } => b'U',
        Read::Bad(fault) => fault.number(),
    }
}

#[test]
fn acts_are_read_from_octets(rt: HostRuntime) {
    let alloc = rt.alloc();
    let rows: [(&[u8], u8); 7] = [
        (&[0], b'C'),
        (&[1], b'H'),
        (&[], 41),
        (&[3], 42),
        (&[0, 0], 44),
        (&[2, 0, 32, 0, 0, 0, 0, 0, 0, 2, 21], 21),
        (&[2, 0, 33], 43),
    ];
    for (body, wanted) in rows {
        let octets = item(&rt, alloc, body, "");
        check_eq!(&rt; answer(alloc, octets.as_slice()), wanted);
    }
}

#[test]
fn messages_stand_as_they_are_written(rt: HostRuntime) {
    let alloc = rt.alloc();
    let rows: [(u8, &str, u8); 16] = [
        (15, "[32,1,{},\"a.b\"]", b'G'),
        (15, "[32,1,{},\"a.b\"]x", 44),
        (16, "[32,1,{}, \"a.b\"]", 43),
        (15, "xx", 41),
        (2, "xx", 43),
        (0, "", 43),
        (8, "[2,1,{}]", 43),
        (24, "[70,1,{\"progress\":true}]", b'G'),
        (25, "[70,1,{\"progress\":false}]", 43),
        (9, "[70,1,{}]", b'G'),
        (13, "[48,1,{},\"p\"]", b'G'),
        (
            55,
            "[48,1,{\"disclose_me\":true,\"receive_progress\":true},\"p\"]",
            b'G',
        ),
        (
            55,
            "[48,1,{\"receive_progress\":true,\"disclose_me\":true},\"p\"]",
            43,
        ),
        (32, "[48,1,{\"disclose_me\":false},\"p\"]", 43),
        (9, "[50,1,{}]", b'G'),
        (26, "[68,1,1,{\"procedure\":\"p\"}]", b'G'),
    ];
    for (length, text, wanted) in rows {
        let octets = said(&rt, alloc, &[0, 0, 0, 0, length], text);
        check_eq!(&rt; answer(alloc, octets.as_slice()), wanted);
    }
}

#[test]
fn unfit_requests_and_faults_have_their_octets(rt: HostRuntime) {
    let alloc = rt.alloc();
    let rows: [(&[u8], u8); 9] = [
        (&[1, 16, 0, 0, 0, 0, 0, 0, 0, 1, 1], b'Q'),
        (&[1, 32, 0, 0, 0, 0, 0, 0, 0, 1, 0], b'U'),
        (&[1, 32, 0, 0, 0, 0, 0, 0, 0, 1, 1], 43),
        (&[1, 17], 43),
        (&[2, 21], 21),
        (&[2, 20], 43),
        (&[2, 27], 43),
        (&[2], 41),
        (&[3], 42),
    ];
    for (read, wanted) in rows {
        let octets = said(&rt, alloc, read, "");
        check_eq!(&rt; answer(alloc, octets.as_slice()), wanted);
    }
}

// An unfit request, said with draw 5.
fn unfit(rt: &impl Abort, alloc: Global, kind: UnfitKind, quiet: bool) -> Entry<Act> {
    let request = Id::new(1).expect(rt, "an id");
    let read = Read::Unfit {
        kind,
        request,
        quiet,
    };
    let read = Shared::new(alloc, read).expect(rt, "room for what was read");
    let draw = Id::new(5).expect(rt, "an id");
    Entry::Item {
        node: 2,
        boot: 1,
        seq: 1,
        transport: 1,
        body: Act::Said { draw, read },
    }
}

// Returns the number of the fault for which the entry is not put, 0 if it is put.
fn refusal(alloc: Global, entry: &Entry<Act>) -> u8 {
    let mut out = Vec::new(alloc);
    match put_entry::<Act, ActCoder>(entry, &mut out) {
        Ok(()) => 0,
        Err(fault) => fault.number(),
    }
}

// Does so for an unfit request.
fn unfit_refusal(rt: &impl Abort, alloc: Global, kind: UnfitKind, quiet: bool) -> u8 {
    let entry = unfit(rt, alloc, kind, quiet);
    let number = refusal(alloc, &entry);
    drop(entry);
    number
}

#[test]
fn only_a_publish_is_quiet(rt: HostRuntime) {
    let alloc = rt.alloc();
    let rows = [
        (UnfitKind::Publish, true, 0),
        (UnfitKind::Publish, false, 0),
        (UnfitKind::Subscribe, false, 0),
        (UnfitKind::Subscribe, true, 43),
        (UnfitKind::Yield, true, 43),
    ];
    for (kind, quiet, wanted) in rows {
        check_eq!(&rt; unfit_refusal(&rt, alloc, kind, quiet), wanted);
    }
}

// Whether the entry is a SUBSCRIBE to `a.b` that was said with this draw.
fn is_subscribe(entry: &Entry<Act>, number: u64) -> bool {
    let Entry::Item { body, .. } = entry else {
        return false;
    };
    let Act::Said { draw, read } = body else {
        return false;
    };
    match read.get() {
        Read::Good(Message::Subscribe(subscribe)) => draw.get() == number
            && subscribe.topic.as_str() == "a.b",
        _ => false,
    }
}

// Whether an entry is equal to its copy, which has the same letter.
fn is_equal(entry: &Entry<Act>, copy: &Entry<Act>) -> bool {
    entry.same(copy) && letter(copy) == letter(entry)
}

// Whether an entry and its copy are equal.
fn is_copied(alloc: Global, entry: &Entry<Act>) -> bool {
    match entry.copy(alloc) {
        Ok(copy) => {
            let equal = is_equal(entry, &copy);
            drop(copy);
            equal
        }
        Err(_) => false,
    }
}

#[test]
fn what_was_said_comes_with_its_draw(rt: HostRuntime) {
    let alloc = rt.alloc();
    let octets = said(&rt, alloc, &[0, 0, 0, 0, 15], "[32,1,{},\"a.b\"]");
    let entry = take_entry::<Act, ActCoder>(alloc, octets.as_slice()).expect(&rt, "an entry");
    check!(&rt; is_subscribe(&entry, 5));
    check!(&rt; is_copied(alloc, &entry));
}
