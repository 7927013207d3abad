// A log that is kept: the entries that the program stored before it knew progressive results and callers that are named. A caller asked for
// both then, a callee yielded with `progress`, and the keys were ignored. The entries are still put as these octets, and the realm says to
// them what clients were told then. What WELCOME announces since comes after the octets that are compared.
use crate::check::Check;
use crate::entries::letter_again;
use crate::realm::{realm_of, reload, spelled};
use command_codec::{Entry, take_entry};
use realm_acts::Act;
use realm_codec::ActCoder;
use realm_machine::{Realm, Say, Transport};
use std::alloc::Global;
use std::process::Abort;
use test_checks::check;

// An entry's octets, and what the realm says to it: `NODE TEXT;` for each saying.
type Row = (&'static [u8], &'static str);

// Node 1 has the callee, node 2 the caller, and node 3 a subscriber, each with its first transport.
const LOG: &[Row] = &[
    (b"\x01\x01\0\0\0\0\0\0\0\x01", ""),
    (
        b"\x03\x01\0\0\0\0\0\0\0\x01\0\0\0\0\0\0\0\x01\0\0\0\x01\
          \0",
        "",
    ),
    (
        b"\x03\x01\0\0\0\0\0\0\0\x01\0\0\0\0\0\0\0\x02\0\0\0\x01\
          \x02\0\x11\x4F\xD9\xC5\xDC\xF1\xEC\0\0\0\0\x46[1,\"realm1\",{\"roles\":{\"callee\":{\"features\":{\"call_canceling\":true}}}}]",
        "1 [2,4872871350170092,{\"roles\":{\"broker\":{\"features\":{\"pattern;",
    ),
    (b"\x01\x02\0\0\0\0\0\0\0\x01", ""),
    (
        b"\x03\x02\0\0\0\0\0\0\0\x01\0\0\0\0\0\0\0\x01\0\0\0\x01\
          \0",
        "",
    ),
    (
        b"\x03\x02\0\0\0\0\0\0\0\x01\0\0\0\0\0\0\0\x02\0\0\0\x01\
          \x02\0\x1E\x41\x7C\x15\xB0\xB4\x71\0\0\0\0\x0F[1,\"realm1\",{}]",
        "2 [2,8516250496971889,{\"roles\":{\"broker\":{\"features\":{\"pattern;",
    ),
    (b"\x01\x03\0\0\0\0\0\0\0\x01", ""),
    (
        b"\x03\x03\0\0\0\0\0\0\0\x01\0\0\0\0\0\0\0\x01\0\0\0\x01\
          \0",
        "",
    ),
    (
        b"\x03\x03\0\0\0\0\0\0\0\x01\0\0\0\0\0\0\0\x02\0\0\0\x01\
          \x02\0\x1A\x3D\xCF\xEB\xD2\xF6\x77\0\0\0\0\x0F[1,\"realm1\",{}]",
        "3 [2,7386312618473079,{\"roles\":{\"broker\":{\"features\":{\"pattern;",
    ),
    (
        b"\x03\x01\0\0\0\0\0\0\0\x01\0\0\0\0\0\0\0\x03\0\0\0\x01\
          \x02\0\x17\x31\xEF\x37\xA8\xE9\xCD\0\0\0\0\x15[64,1,{},\"test.echo\"]",
        "1 [65,1,1];",
    ),
    (
        b"\x03\x01\0\0\0\0\0\0\0\x01\0\0\0\0\0\0\0\x04\0\0\0\x01\
          \x02\0\x16\x58\x11\x1B\xD0\x02\x27\0\0\0\0\x33[64,2,{\"invoke\":\"last\",\"match\":\"prefix\"},\"test.by\"]",
        "1 [65,2,2];",
    ),
    (
        b"\x03\x03\0\0\0\0\0\0\0\x01\0\0\0\0\0\0\0\x03\0\0\0\x01\
          \x02\0\x0C\x9C\x9C\x3A\xED\x88\x52\0\0\0\0\x25[32,1,{\"match\":\"wildcard\"},\"test..c\"]",
        "3 [33,1,1];",
    ),
    (
        b"\x03\x02\0\0\0\0\0\0\0\x01\0\0\0\0\0\0\0\x03\0\0\0\x01\
          \x02\0\x17\xE4\xA8\x0C\x02\x46\xA8\0\0\0\0\x19[48,1,{},\"test.echo\",[1]]",
        "1 [68,1,1,{},[1]];",
    ),
    (
        b"\x03\x01\0\0\0\0\0\0\0\x01\0\0\0\0\0\0\0\x05\0\0\0\x01\
          \x02\0\x08\xC8\x05\x9F\xD7\x0E\xF0\0\0\0\0\x0D[70,1,{},[1]]",
        "2 [50,1,{},[1]];",
    ),
    (
        b"\x03\x01\0\0\0\0\0\0\0\x01\0\0\0\0\0\0\0\x06\0\0\0\x01\
          \x02\0\0\x07\x49\xFE\x2E\x01\x38\0\0\0\0\x0D[70,1,{},[2]]",
        "",
    ),
    (
        b"\x03\x01\0\0\0\0\0\0\0\x01\0\0\0\0\0\0\0\x07\0\0\0\x01\
          \x02\0\x16\xCA\xDD\xAD\x02\x81\xB0\0\0\0\0\x0D[70,1,{},[3]]",
        "",
    ),
    (
        b"\x03\x02\0\0\0\0\0\0\0\x01\0\0\0\0\0\0\0\x04\0\0\0\x01\
          \x02\0\x1A\x2D\x39\xEB\x90\xCA\x07\0\0\0\0\x25[48,2,{},\"test.by.prefix\",[],{\"a\":1}]",
        "1 [68,2,2,{\"procedure\":\"test.by.prefix\"},[],{\"a\":1}];",
    ),
    (
        b"\x03\x02\0\0\0\0\0\0\0\x01\0\0\0\0\0\0\0\x05\0\0\0\x01\
          \x02\0\x10\xAA\x94\x74\xF8\x20\xAB\0\0\0\0\x16[49,2,{\"mode\":\"kill\"}]",
        "1 [69,2,{\"mode\":\"kill\"}];",
    ),
    (
        b"\x03\x01\0\0\0\0\0\0\0\x01\0\0\0\0\0\0\0\x08\0\0\0\x01\
          \x02\0\x16\xB6\x07\x1E\xA4\x66\xFE\0\0\0\0\x09[70,2,{}]",
        "2 [50,2,{}];",
    ),
    (
        b"\x03\x02\0\0\0\0\0\0\0\x01\0\0\0\0\0\0\0\x06\0\0\0\x01\
          \x02\0\x1E\x69\x8F\xB0\x1F\xBF\x24\x01\x30\0\0\0\0\0\0\0\x03\0",
        "2 [8,48,3,{},\"wamp.error.invalid_argument\"];",
    ),
    (
        b"\x03\x02\0\0\0\0\0\0\0\x01\0\0\0\0\0\0\0\x07\0\0\0\x01\
          \x02\0\x1D\xE7\x54\xFD\x75\xF7\x60\0\0\0\0\x2D[16,4,{\"acknowledge\":true},\"test.b.c\",[\"hi\"]]",
        "2 [17,4,8417126540244832];3 [36,1,8417126540244832,{\"topic\":\"test.b.c\"},[\"hi\"]];",
    ),
    (
        b"\x03\x02\0\0\0\0\0\0\0\x01\0\0\0\0\0\0\0\x08\0\0\0\x01\
          \x02\0\x0E\xE7\x59\x96\x92\xD9\x88\x01\x10\0\0\0\0\0\0\0\x05\x01",
        "",
    ),
    (
        b"\x03\x02\0\0\0\0\0\0\0\x01\0\0\0\0\0\0\0\x09\0\0\0\x01\
          \x02\0\x04\x12\x56\x0C\x13\x30\x0D\0\0\0\0\x15[48,6,{},\"test.echo\"]",
        "1 [68,3,1,{}];",
    ),
    (
        b"\x03\x01\0\0\0\0\0\0\0\x01\0\0\0\0\0\0\0\x09\0\0\0\x01\
          \x02\0\x1E\x41\xDD\xB7\xA9\x35\x68\0\0\0\0\x21[8,68,3,{},\"test.failed\",[\"why\"]]",
        "2 [8,48,6,{},\"test.failed\",[\"why\"]];",
    ),
    (
        b"\x03\x02\0\0\0\0\0\0\0\x01\0\0\0\0\0\0\0\x0A\0\0\0\x01\
          \x02\0\x1A\xF6\x95\x3E\xD4\xFE\xF6\0\0\0\0\x15[48,7,{},\"test.echo\"]",
        "1 [68,4,1,{}];",
    ),
    (
        b"\x03\x02\0\0\0\0\0\0\0\x01\0\0\0\0\0\0\0\x0B\0\0\0\x01\
          \x02\0\x16\xB1\xB1\xCF\xEB\x64\x44\0\0\0\0\x09[49,7,{}]",
        "1 [69,4,{\"mode\":\"killnowait\"}];2 [8,48,7,{},\"wamp.error.canceled\"];",
    ),
    (
        b"\x03\x02\0\0\0\0\0\0\0\x01\0\0\0\0\0\0\0\x0C\0\0\0\x01\
          \x02\0\x1F\x51\x24\x52\x18\x7A\x1A\0\0\0\0\x15[48,8,{},\"test.echo\"]",
        "1 [68,5,1,{}];",
    ),
    (
        b"\x03\x01\0\0\0\0\0\0\0\x01\0\0\0\0\0\0\0\x0A\0\0\0\x01\
          \x02\0\x04\xD1\xC2\x5F\x6D\x73\x4D\0\0\0\0\x1A[6,{},\"wamp.close.normal\"]",
        "2 [8,48,8,{},\"wamp.error.canceled\"];1 [6,{},\"wamp.close.goodbye_and_out\"];",
    ),
    (
        b"\x03\x01\0\0\0\0\0\0\0\x01\0\0\0\0\0\0\0\x0B\0\0\0\x01\
          \x01",
        "",
    ),
    (
        b"\x03\x02\0\0\0\0\0\0\0\x01\0\0\0\0\0\0\0\x0D\0\0\0\x01\
          \x02\0\x05\x1B\xB0\x76\xEC\x73\x6C\0\0\0\0\x15[48,9,{},\"test.echo\"]",
        "2 [8,48,9,{},\"wamp.error.no_such_procedure\"];",
    ),
];

// Appends `NODE TEXT;`, the text cut after 60 octets.
fn append(rt: &impl Abort, alloc: Global, all: &mut Vec<u8>, say: &Say) {
    let node = format!(in alloc; "{} ", say.transport.node).expect(rt, "room for a number");
    all.extend_from_slice(node.as_bytes())
        .expect(rt, "room for a number");
    let octets = spelled(rt, alloc, &say.out);
    all.extend_from_slice(&octets[..octets.len().min(60)])
        .expect(rt, "room for a text");
    all.push(b';').expect(rt, "room for its end");
}

fn in_one_text(rt: &impl Abort, alloc: Global, says: &[Say]) -> Vec<u8> {
    let mut all = Vec::new(alloc);
    for say in says {
        append(rt, alloc, &mut all, say);
    }
    all
}

// What the realm says to the entry.
fn says(rt: &impl Abort, realm: &mut Realm, entry: &Entry<Act>) -> Vec<Say> {
    match entry {
        Entry::Item {
            node,
            boot,
            transport,
            body,
            ..
        } => {
            let transport = Transport {
                node: *node,
                boot: *boot,
                number: *transport,
            };
            realm.act(transport, body).expect(rt, "what the realm says")
        }
        Entry::Boot { node, .. } => realm.gone(*node).expect(rt, "what the realm says"),
        Entry::Noop | Entry::Lost { .. } => panic!(rt; "no row has such an entry"),
    }
}

fn told(rt: &impl Abort, alloc: Global, realm: &mut Realm, entry: &Entry<Act>) -> Vec<u8> {
    let says = says(rt, realm, entry);
    in_one_text(rt, alloc, says.as_slice())
}

// Whether the entry is put as these octets, and the realm says this.
fn is_told(
    rt: &impl Abort,
    alloc: Global,
    realm: &mut Realm,
    entry: &Entry<Act>,
    row: &Row,
) -> bool {
    let text = told(rt, alloc, realm, entry);
    letter_again(alloc, entry, row.0) != 0 && text.as_slice() == row.1.as_bytes()
}

fn is_replayed(rt: &impl Abort, alloc: Global, realm: &mut Realm, row: &Row) -> bool {
    match take_entry::<Act, ActCoder>(alloc, row.0) {
        Ok(entry) => {
            let holds = is_told(rt, alloc, realm, &entry, row);
            drop(entry);
            holds
        }
        Err(_) => false,
    }
}

fn replays(rt: &impl Abort, alloc: Global, realm: &mut Realm, rows: &[Row]) {
    for row in rows {
        check!(rt; is_replayed(rt, alloc, realm, row), row.1);
    }
}

// The same, with a realm that is saved and loaded before each entry.
fn replays_reloaded(rt: &impl Abort, alloc: Global, realm: &mut Realm, rows: &[Row]) {
    for row in rows {
        reload(rt, alloc, realm);
        check!(rt; is_replayed(rt, alloc, realm, row), row.1);
    }
}

fn replays_both_ways(rt: &impl Abort, alloc: Global, rows: &[Row]) {
    let mut realm = realm_of(rt, alloc, 1024);
    replays(rt, alloc, &mut realm, rows);
    realm = realm_of(rt, alloc, 1024);
    replays_reloaded(rt, alloc, &mut realm, rows);
}

#[test]
fn a_log_of_before_is_replayed(rt: HostRuntime) {
    replays_both_ways(&rt, rt.alloc(), LOG);
}
