// Rows on ids, texts and URIs.
use crate::check::Check;
use std::alloc::Global;
use std::process::Abort;
use test_checks::{check, check_eq};
use wamp_ids::{Id, LAST_ID, Memory, Text, Uri, UriFault};

fn next_of(number: u64) -> Option<u64> {
    Some(Id::new(number)?.next().get())
}

// A number, and the id after it.
const NEXT: &[(u64, Option<u64>)] = &[
    (0, None),
    (1, Some(2)),
    (9_007_199_254_740_991, Some(9_007_199_254_740_992)),
    (9_007_199_254_740_992, Some(1)),
    (9_007_199_254_740_993, None),
];

#[test]
fn ids_go_round(rt: HostRuntime) {
    for (number, next) in NEXT {
        check_eq!(&rt; next_of(*number), *next, number);
    }
    check_eq!(&rt; LAST_ID, 9_007_199_254_740_992);
}

// Whether a copy has this text, too, and is the same.
fn is_text_copied(rt: &impl Abort, text: &Text, wanted: &str) -> bool {
    let copy = text.copy().expect(rt, "room for a copy");
    copy.as_str() == wanted && text.same(&copy)
}

fn is_same_text(rt: &impl Abort, alloc: Global, text: &Text, other: &str) -> bool {
    text.same(&Text::new(alloc, other).expect(rt, "room for a text"))
}

fn is_hi(rt: &impl Abort, alloc: Global, text: &Text) {
    check!(rt; is_text_copied(rt, text, "hi"));
    check!(rt; !is_same_text(rt, alloc, text, "ho"));
}

#[test]
fn copies_texts(rt: HostRuntime) {
    let empty = Text::new(rt.alloc(), "").expect(&rt, "room for a text");
    check_eq!(&rt; empty.as_str(), "");
    let text = Text::from(String::from_str(rt.alloc(), "hi").expect(&rt, "room for a text"));
    is_hi(&rt, rt.alloc(), &text);
}

fn fault_of(alloc: Global, text: &str) -> u8 {
    match Uri::read(alloc, text) {
        Ok(_) => 0,
        Err(fault) => fault.number(),
    }
}

fn fault_found(text: &str) -> u8 {
    match Uri::of(text) {
        Ok(_) => 0,
        Err(fault) => fault.number(),
    }
}

// A text, and the number of its fault, or 0.
const URIS: &[(&str, u8)] = &[
    ("a.b", 0),
    ("a..b", 4),
    ("", 4),
    ("a b", 2),
    ("a#", 3),
    ("a#b c", 2),
    ("é.ü", 0),
];

// Returns the faults of a text of `length` octets, which is read, and found.
fn faults_of(rt: &impl Abort, alloc: Global, length: usize) -> (u8, u8) {
    let octets = vec![in alloc; b'a'; length].expect(rt, "room for a text");
    let text = String::from_utf8(octets).expect(rt, "a text");
    (fault_of(alloc, text.as_str()), fault_found(text.as_str()))
}

#[test]
fn reads_uris_by_the_loose_rules(rt: HostRuntime) {
    for (text, number) in URIS {
        check!(&rt; fault_of(rt.alloc(), text) == *number, text);
        check!(&rt; fault_found(text) == *number, text);
    }
    check!(&rt; faults_of(&rt, rt.alloc(), 1024) == (0, 0));
    check!(&rt; faults_of(&rt, rt.alloc(), 1025) == (1, 1));
}

fn is_reserved(rt: &impl Abort, alloc: Global, text: &str) -> bool {
    Uri::read(alloc, text).expect(rt, "a URI").is_reserved()
}

fn is_same_uri(rt: &impl Abort, alloc: Global, uri: &Uri<'_>, text: &str) -> bool {
    uri.same(&Uri::read(alloc, text).expect(rt, "a URI"))
}

fn is_uri_copied(rt: &impl Abort, alloc: Global, uri: &Uri<'_>, wanted: &str) -> bool {
    let copy = uri.copy(alloc).expect(rt, "room for a copy");
    copy.as_str() == wanted && uri.same(&copy)
}

fn has_parts(uri: &Uri<'_>) -> bool {
    uri.part(1) == Some("é") && uri.part(3).is_none() && uri.parts().count() == 3
}

fn is_apart(rt: &impl Abort, alloc: Global, uri: &Uri<'_>) {
    check!(rt; uri.is_reserved() && has_parts(uri));
    check!(rt; is_uri_copied(rt, alloc, uri, "wamp.é.x"));
    check!(rt; uri.same(&Uri::of("wamp.é.x").expect(rt, "a URI")));
    check!(rt; !is_same_uri(rt, alloc, uri, "wamp.é"));
}

#[test]
fn takes_uris_apart(rt: HostRuntime) {
    check!(&rt; !is_reserved(&rt, rt.alloc(), "wampx.y"));
    let uri = Uri::read(rt.alloc(), "wamp.é.x").expect(&rt, "a URI");
    is_apart(&rt, rt.alloc(), &uri);
}

#[test]
fn out_of_memory_has_number_five(rt: HostRuntime) {
    check_eq!(&rt; Memory.number(), 5);
    check_eq!(&rt; UriFault::Memory.number(), 5);
}
