// Rows on realms as octets: what is a realm's, octet by octet, and what is none's.
use crate::check::Check;
use realm_machine::Realm;
use realm_snapshot::{LoadFault, load, save};
use std::alloc::Global;
use std::process::Abort;
use test_checks::check;

// ---- octets as text: `WIDTH:NUMBER` for a number, `=TEXT` for the octets of a text

fn put(rt: &impl Abort, out: &mut Vec<u8>, octets: &[u8]) {
    out.extend_from_slice(octets).expect(rt, "room for octets");
}

fn put_number(rt: &impl Abort, out: &mut Vec<u8>, width: &str, number: u64) {
    match width {
        "1" => {
            let number = u8::try_from(number).expect(rt, "an octet");
            put(rt, out, &number.to_be_bytes());
        },
        "2" => {
            let number = u16::try_from(number).expect(rt, "two octets");
            put(rt, out, &number.to_be_bytes());
        },
        "4" => {
            let number = u32::try_from(number).expect(rt, "four octets");
            put(rt, out, &number.to_be_bytes());
        },
        _ => put(rt, out, &number.to_be_bytes()),
    }
}

fn put_word(rt: &impl Abort, out: &mut Vec<u8>, word: &str) {
    if let Some(text) = word.strip_prefix('=') {
        put(rt, out, text.as_bytes());
        return;
    }
    let (width, number) = word.split_once(':').expect(rt, "a number");
    let number = number.parse::<u64>().ok().expect(rt, "a number");
    put_number(rt, out, width, number);
}

fn put_part(rt: &impl Abort, out: &mut Vec<u8>, part: &str) {
    for word in part.split(' ') {
        put_word(rt, out, word);
    }
}

// The octets of a head, the last ids, the links, the registrations, the subscriptions and the calls.
fn octets_of(rt: &impl Abort, alloc: Global, parts: &[&str; 6]) -> Vec<u8> {
    let mut out = Vec::new(alloc);
    for part in parts {
        put_part(rt, &mut out, part);
    }
    out
}

// ---- a realm

const HEAD: &str = "1:1 8:6 =realm1 4:1 4:2 4:3 4:4";

const LAST: &str = "8:4 8:9";
// Session 5 announced canceling and was invoked three times, session 6 was not invoked, the transport of node 2 has no session.
const LINKS: &str = "8:3 1:1 8:1 4:1 8:5 1:1 8:3 1:1 8:1 4:2 8:6 1:0 8:0 1:2 8:7 4:1 8:0 1:0 8:0";

const REGISTRATIONS: &str = "8:2 8:1 1:0 1:0 2:3 =p.q 8:1 8:5 8:4 1:1 1:3 2:1 =x 8:2 8:6 8:5";

const SUBSCRIPTIONS: &str = "8:2 8:2 1:2 2:4 =a..b 8:2 8:5 8:6 8:9 1:0 2:3 =a.b 8:1 8:6";

const CALLS: &str = "8:2 8:6 8:7 8:5 8:3 1:1 8:5 8:7 8:6 8:1 1:0";

const NOTHING: &str = "8:0";

// What is a realm's.
const SAVED: &[[&str; 6]] = &[
    [HEAD, "8:0 8:0", NOTHING, NOTHING, NOTHING, NOTHING],
    [HEAD, LAST, LINKS, REGISTRATIONS, SUBSCRIPTIONS, CALLS],
    // no name, and limits that all is above
    [
        "1:1 8:0 4:0 4:0 4:0 4:0",
        LAST,
        LINKS,
        REGISTRATIONS,
        SUBSCRIPTIONS,
        CALLS,
    ],
    // the greatest numbers
    [
        "1:1 8:1 =r 4:4294967295 4:4294967295 4:4294967295 4:4294967295",
        "8:9007199254740992 8:9007199254740992",
        "8:1 1:7 8:281474976710655 4:4294967295 8:9007199254740992 1:1 8:9007199254740992",
        "8:1 8:9007199254740992 1:2 1:1 2:0 8:1 8:9007199254740992",
        "8:1 8:9007199254740992 1:1 2:0 8:1 8:9007199254740992",
        "8:1 8:9007199254740992 8:9007199254740992 8:9007199254740992 8:9007199254740992 1:1",
    ],
    // one text under three matches, one transport number of two boots and of two nodes
    [
        HEAD,
        LAST,
        "8:3 1:1 8:1 4:1 8:5 1:1 8:3 1:1 8:2 4:1 8:6 1:0 8:0 1:2 8:1 4:1 8:0 1:0 8:0",
        "8:3 8:1 1:0 1:0 2:1 =x 8:1 8:5 8:2 1:1 1:1 2:1 =x 8:2 8:6 8:5 8:3 1:2 1:2 2:1 =x 8:2 8:5 8:6",
        "8:3 8:1 1:0 2:1 =x 8:1 8:5 8:2 1:1 2:1 =x 8:2 8:6 8:5 8:9 1:2 2:1 =x 8:2 8:5 8:6",
        NOTHING,
    ],
];

fn saved(rt: &impl Abort, alloc: Global, realm: &Realm) -> Vec<u8> {
    save(alloc, realm).ok().expect(rt, "the octets of a realm")
}

fn loaded(rt: &impl Abort, alloc: Global, octets: &[u8]) -> Realm {
    load(alloc, octets).ok().expect(rt, "a realm")
}

// Whether the realm of these octets is saved as them.
fn is_saved_again(rt: &impl Abort, alloc: Global, octets: &[u8]) -> bool {
    let realm = loaded(rt, alloc, octets);
    let again = saved(rt, alloc, &realm);
    again.as_slice() == octets
}

fn is_damaged(alloc: Global, octets: &[u8]) -> bool {
    match load(alloc, octets) {
        Ok(_realm) => false,
        Err(fault) => fault == LoadFault::Damaged && fault.number() == 91,
    }
}

// Whether the octets are damaged without one or more of the last, and with one more.
fn is_neither_less_nor_more(rt: &impl Abort, alloc: Global, octets: &mut Vec<u8>) -> bool {
    for length in 0..octets.len() {
        if !is_damaged(alloc, &octets[..length]) {
            return false;
        }
    }
    octets.push(0).expect(rt, "room for an octet");
    is_damaged(alloc, octets)
}

fn saved_rows(rt: &impl Abort, alloc: Global) {
    for (place, parts) in SAVED.iter().enumerate() {
        let mut octets = octets_of(rt, alloc, parts);
        check!(rt; is_saved_again(rt, alloc, &octets), place);
        check!(rt; is_neither_less_nor_more(rt, alloc, &mut octets), place);
    }
}

#[test]
fn realms_are_loaded_as_they_were_saved(rt: HostRuntime) {
    saved_rows(&rt, rt.alloc());
}

// ---- what is no realm's

// What a realm is made of, but for the part of a row.
const SOUND: &[&str] = &[HEAD, LAST, LINKS, NOTHING, NOTHING, NOTHING];

// What is wrong, the place of the part that is, and this part.
const DAMAGED: &[(&str, usize, &str)] = &[
    ("version 0", 0, "1:0 8:1 =r 4:9 4:9 4:9 4:9"),
    ("version 2", 0, "1:2 8:1 =r 4:9 4:9 4:9 4:9"),
    (
        "a name that is no UTF-8",
        0,
        "1:1 8:1 1:255 4:9 4:9 4:9 4:9",
    ),
    ("a name without an end", 0, "1:1 8:9999 =r 4:9 4:9 4:9 4:9"),
    (
        "a last registration id above all",
        1,
        "8:9007199254740993 8:9",
    ),
    (
        "a last subscription id above all",
        1,
        "8:4 8:9007199254740993",
    ),
    ("node 0", 2, "8:1 1:0 8:1 4:1 8:0 1:0 8:0"),
    ("node 8", 2, "8:1 1:8 8:1 4:1 8:0 1:0 8:0"),
    ("boot 0", 2, "8:1 1:1 8:0 4:1 8:0 1:0 8:0"),
    ("boot 2^48", 2, "8:1 1:1 8:281474976710656 4:1 8:0 1:0 8:0"),
    ("transport number 0", 2, "8:1 1:1 8:1 4:0 8:0 1:0 8:0"),
    (
        "a session id above all",
        2,
        "8:1 1:1 8:1 4:1 8:9007199254740993 1:0 8:0",
    ),
    ("canceling 2", 2, "8:1 1:1 8:1 4:1 8:5 1:2 8:0"),
    (
        "an invocation above all",
        2,
        "8:1 1:1 8:1 4:1 8:5 1:0 8:9007199254740993",
    ),
    (
        "canceling without a session",
        2,
        "8:1 1:1 8:1 4:1 8:0 1:1 8:0",
    ),
    (
        "an invocation without a session",
        2,
        "8:1 1:1 8:1 4:1 8:0 1:0 8:1",
    ),
    (
        "two transports of one number",
        2,
        "8:2 1:1 8:1 4:1 8:5 1:0 8:0 1:1 8:1 4:1 8:6 1:0 8:0",
    ),
    (
        "two transports of one session",
        2,
        "8:2 1:1 8:1 4:1 8:5 1:0 8:0 1:1 8:1 4:2 8:5 1:0 8:0",
    ),
    ("registration id 0", 3, "8:1 8:0 1:0 1:0 2:1 =x 8:1 8:5"),
    (
        "match 3 of a registration",
        3,
        "8:1 8:1 1:3 1:0 2:1 =x 8:1 8:5",
    ),
    ("invoke 4", 3, "8:1 8:1 1:0 1:4 2:1 =x 8:1 8:5"),
    (
        "a procedure that is no pattern",
        3,
        "8:1 8:1 1:1 1:0 2:3 =a#b 8:1 8:5",
    ),
    (
        "a procedure with an empty component",
        3,
        "8:1 8:1 1:0 1:0 2:4 =a..b 8:1 8:5",
    ),
    (
        "a procedure that is no UTF-8",
        3,
        "8:1 8:1 1:0 1:0 2:1 1:255 8:1 8:5",
    ),
    (
        "a registration without callees",
        3,
        "8:1 8:1 1:0 1:0 2:1 =x 8:0",
    ),
    (
        "a callee that is no id",
        3,
        "8:1 8:1 1:0 1:0 2:1 =x 8:1 8:0",
    ),
    (
        "a callee that is no session",
        3,
        "8:1 8:1 1:0 1:0 2:1 =x 8:1 8:7",
    ),
    (
        "a second callee that is no session",
        3,
        "8:1 8:1 1:0 1:3 2:1 =x 8:2 8:5 8:7",
    ),
    (
        "a callee twice",
        3,
        "8:1 8:1 1:0 1:3 2:1 =x 8:3 8:5 8:6 8:5",
    ),
    (
        "two callees under single",
        3,
        "8:1 8:1 1:0 1:0 2:1 =x 8:2 8:5 8:6",
    ),
    (
        "a registration id above all",
        3,
        "8:1 8:9007199254740993 1:0 1:0 2:1 =x 8:1 8:5",
    ),
    (
        "a registration above the last one",
        3,
        "8:1 8:5 1:0 1:0 2:1 =x 8:1 8:5",
    ),
    (
        "registration ids that fall",
        3,
        "8:2 8:2 1:0 1:0 2:1 =x 8:1 8:5 8:1 1:0 1:0 2:1 =y 8:1 8:5",
    ),
    (
        "registration ids that stay",
        3,
        "8:2 8:2 1:0 1:0 2:1 =x 8:1 8:5 8:2 1:0 1:0 2:1 =y 8:1 8:5",
    ),
    (
        "two registrations of one pattern",
        3,
        "8:2 8:1 1:0 1:0 2:1 =x 8:1 8:5 8:2 1:0 1:1 2:1 =x 8:1 8:6",
    ),
    ("subscription id 0", 4, "8:1 8:0 1:0 2:1 =x 8:1 8:5"),
    ("match 3 of a subscription", 4, "8:1 8:1 1:3 2:1 =x 8:1 8:5"),
    (
        "a topic that is no pattern",
        4,
        "8:1 8:1 1:2 2:1 =# 8:1 8:5",
    ),
    (
        "a topic that is no UTF-8",
        4,
        "8:1 8:1 1:0 2:1 1:128 8:1 8:5",
    ),
    (
        "a subscription without members",
        4,
        "8:1 8:1 1:0 2:1 =x 8:0",
    ),
    (
        "a member that is no session",
        4,
        "8:1 8:1 1:0 2:1 =x 8:1 8:7",
    ),
    ("a member that is no id", 4, "8:1 8:1 1:0 2:1 =x 8:1 8:0"),
    (
        "a second member that is no session",
        4,
        "8:1 8:1 1:0 2:1 =x 8:2 8:5 8:7",
    ),
    ("a member twice", 4, "8:1 8:1 1:0 2:1 =x 8:3 8:5 8:6 8:6"),
    (
        "a subscription id above all",
        4,
        "8:1 8:9007199254740993 1:0 2:1 =x 8:1 8:5",
    ),
    (
        "a subscription above the last one",
        4,
        "8:1 8:10 1:0 2:1 =x 8:1 8:5",
    ),
    (
        "subscription ids that fall",
        4,
        "8:2 8:2 1:0 2:1 =x 8:1 8:5 8:1 1:0 2:1 =y 8:1 8:5",
    ),
    (
        "subscription ids that stay",
        4,
        "8:2 8:2 1:0 2:1 =x 8:1 8:5 8:2 1:0 2:1 =y 8:1 8:5",
    ),
    (
        "two subscriptions of one pattern",
        4,
        "8:2 8:1 1:0 2:1 =x 8:1 8:5 8:2 1:0 2:1 =x 8:1 8:6",
    ),
    ("a caller that is no session", 5, "8:1 8:7 8:1 8:5 8:1 1:0"),
    (
        "a called one that is no session",
        5,
        "8:1 8:5 8:1 8:7 8:1 1:0",
    ),
    (
        "a request above all",
        5,
        "8:1 8:5 8:9007199254740993 8:6 8:1 1:0",
    ),
    (
        "an invocation of a call above all",
        5,
        "8:1 8:5 8:1 8:6 8:9007199254740993 1:0",
    ),
    ("request 0", 5, "8:1 8:5 8:0 8:6 8:1 1:0"),
    ("invocation 0", 5, "8:1 8:5 8:1 8:6 8:0 1:0"),
    ("progress 2", 5, "8:1 8:5 8:1 8:6 8:1 1:2"),
    (
        "two calls of one request",
        5,
        "8:2 8:5 8:1 8:6 8:1 1:0 8:5 8:1 8:6 8:2 1:0",
    ),
    (
        "two calls of one invocation",
        5,
        "8:2 8:5 8:1 8:6 8:1 1:0 8:5 8:2 8:6 8:1 1:0",
    ),
    ("a call less than are counted", 5, "8:2 8:5 8:1 8:6 8:1 1:0"),
    (
        "more calls than octets",
        5,
        "8:18446744073709551615 8:5 8:1 8:6 8:1 1:0",
    ),
];

// The octets with this part in place of the sound one.
fn spoilt(rt: &impl Abort, alloc: Global, place: usize, text: &str) -> Vec<u8> {
    let mut out = Vec::new(alloc);
    for (at, part) in SOUND.iter().enumerate() {
        put_part(rt, &mut out, if at == place { text } else { part });
    }
    out
}

fn damaged_rows(rt: &impl Abort, alloc: Global) {
    for (what, place, text) in DAMAGED {
        let octets = spoilt(rt, alloc, *place, text);
        check!(rt; is_damaged(alloc, &octets), what);
    }
}

#[test]
fn what_is_no_realm_is_damaged(rt: HostRuntime) {
    damaged_rows(&rt, rt.alloc());
}
