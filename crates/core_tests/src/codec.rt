// Entries as octets: the spelling of each kind, the faults of octets, and entries without a spelling.
use crate::check::Check;
use command_codec::{Entry, put_entry, take_entry};
use std::alloc::Global;
use std::process::Abort;
use test_checks::{check, check_eq};
use test_machines::{Number, Octet};

fn spelled(rt: &impl Abort, alloc: Global, entry: &Entry<Number>) -> Vec<u8> {
    let mut out = Vec::new(alloc);
    put_entry::<Number, Octet>(entry, &mut out).expect(rt, "a spelling");
    out
}

// An Item of node 2 in its boot 1, of its transport 1.
fn item(seq: u64, value: u32) -> Entry<Number> {
    Entry::Item {
        node: 2,
        boot: 1,
        seq,
        transport: 1,
        body: Number::new(value),
    }
}

// Returns the number of the fault of the octets, 0 if they are an entry.
fn fault_of(alloc: Global, octets: &[u8]) -> u8 {
    match take_entry::<Number, Octet>(alloc, octets) {
        Ok(_) => 0,
        Err(fault) => fault.number(),
    }
}

fn is_spelled(rt: &impl Abort, alloc: Global, entry: &Entry<Number>, octets: &[u8]) -> bool {
    let found = spelled(rt, alloc, entry);
    found.as_slice() == octets
}

const BOOT: &[u8] = &[1, 2, 0, 0, 0, 0, 0, 0, 0, 1];

const LOST: &[u8] = &[2, 7, 0, 0, 0, 0, 0, 0, 1, 2];

const ITEM: &[u8] = &[
    3, 2, 0, 0, 0, 0, 0, 0, 0, 1, 0, 0, 0, 0, 0, 0, 0, 5, 0, 0, 0, 1, 9,
];

// An entry of each kind.
#[derive(Clone, Copy, Debug)]
enum Sample {
    Noop,
    Boot,
    Lost,
    Item,
}

fn entry_of(sample: Sample) -> Entry<Number> {
    match sample {
        Sample::Noop => Entry::Noop,
        Sample::Boot => Entry::Boot { node: 2, boot: 1 },
        Sample::Lost => Entry::Lost { node: 7, boot: 258 },
        Sample::Item => item(5, 9),
    }
}

// Entries, and their octets.
const SPELLED: &[(Sample, &[u8])] = &[
    (Sample::Noop, &[0]),
    (Sample::Boot, BOOT),
    (Sample::Lost, LOST),
    (Sample::Item, ITEM),
];

#[test]
fn entries_have_their_octets(rt: HostRuntime) {
    for (sample, octets) in SPELLED {
        check!(&rt; is_spelled(&rt, rt.alloc(), &entry_of(*sample), octets), *sample);
    }
}

// Octets, and the number of their fault, or 0.
const OCTETS: &[(&[u8], u8)] = &[
    (&[], 41),
    (&[0], 0),
    (&[0, 0], 44),
    (&[1, 2, 0, 0, 0, 0, 0, 0, 0, 1], 0),
    (&[1, 2, 0, 0, 0, 0, 0, 0, 0], 41),
    (&[1, 2, 0, 0, 0, 0, 0, 0, 0, 1, 0], 44),
    (&[9, 2, 0, 0, 0, 0, 0, 0, 0, 1], 42),
    (&[1, 8, 0, 0, 0, 0, 0, 0, 0, 1], 43),
    (&[1, 0], 43),
    (&[1, 1, 0, 1], 43),
    (&[1, 1, 0, 0], 41),
    (&[2, 1, 0, 0, 0, 0, 0, 0, 0, 0], 43),
    (
        &[
            3, 2, 0, 0, 0, 0, 0, 0, 0, 1, 0, 0, 0, 0, 0, 0, 0, 1, 0, 0, 0, 1, 200,
        ],
        0,
    ),
    (
        &[
            3, 2, 0, 0, 0, 0, 0, 0, 0, 1, 0, 0, 0, 0, 0, 0, 0, 1, 0, 0, 0, 1,
        ],
        41,
    ),
    (
        &[
            3, 2, 0, 0, 0, 0, 0, 0, 0, 1, 0, 0, 0, 0, 0, 0, 0, 1, 0, 0, 0, 1, 200, 0,
        ],
        44,
    ),
    (
        &[
            3, 2, 0, 0, 0, 0, 0, 0, 0, 1, 0, 0, 0, 0, 0, 0, 0, 1, 0, 0, 0, 0,
        ],
        43,
    ),
    (&[3, 2, 0, 0, 0, 0, 0, 0, 0, 1, 0, 1], 43),
    (&[3, 2, 0, 0, 0, 0, 0, 0, 0, 1, 0, 0], 41),
];

#[test]
fn octets_are_read_as_entries(rt: HostRuntime) {
    for (octets, number) in OCTETS {
        check_eq!(&rt; fault_of(rt.alloc(), octets), *number);
    }
}

// Returns the number of the octets' Item and what it holds; `None` if they are another entry.
fn item_in(rt: &impl Abort, alloc: Global, octets: &[u8]) -> Option<(u64, u32)> {
    match take_entry::<Number, Octet>(alloc, octets).expect(rt, "an entry") {
        Entry::Item { seq, body, .. } => Some((seq, body.get())),
        _ => None,
    }
}

#[test]
fn an_entry_is_read_again(rt: HostRuntime) {
    let octets = spelled(&rt, rt.alloc(), &item(281_474_976_710_655, 255));
    let told = Some((281_474_976_710_655, 255));
    check_eq!(&rt; item_in(&rt, rt.alloc(), &octets), told);
}

// Returns the number of the fault for which the entry is not put, 0 if it is put.
fn refusal(entry: &Entry<Number>, out: &mut Vec<u8>) -> u8 {
    match put_entry::<Number, Octet>(entry, out) {
        Ok(()) => 0,
        Err(fault) => fault.number(),
    }
}

// Why an entry has no spelling.
#[derive(Clone, Copy, Debug)]
enum Unspelled {
    Node,
    Boot,
    Number,
    Body,
}

fn unspelled_entry(unspelled: Unspelled) -> Entry<Number> {
    match unspelled {
        Unspelled::Node => Entry::Boot { node: 8, boot: 1 },
        Unspelled::Boot => Entry::Lost {
            node: 1,
            boot: 1 << 48,
        },
        Unspelled::Number => item(0, 1),
        Unspelled::Body => item(1, 256),
    }
}

const UNSPELLED: &[Unspelled] = &[
    Unspelled::Node,
    Unspelled::Boot,
    Unspelled::Number,
    Unspelled::Body,
];

// Nothing is put of an entry that has no spelling.
fn puts_nothing(rt: &impl Abort, out: &mut Vec<u8>) {
    for unspelled in UNSPELLED {
        check_eq!(rt; refusal(&unspelled_entry(*unspelled), out), 43, *unspelled);
    }
    check_eq!(rt; out.as_slice(), [5, 6].as_slice());
}

#[test]
fn an_entry_without_a_spelling_puts_nothing(rt: HostRuntime) {
    let mut out = vec![in rt.alloc(); 5u8, 6].expect(&rt, "room for two octets");
    puts_nothing(&rt, &mut out);
}
