// Rows on patterns.
use crate::check::Check;
use std::alloc::Global;
use std::process::Abort;
use test_checks::check;
use wamp_ids::{Match, Pattern};

fn fault_of(alloc: Global, text: &str, matching: Match) -> u8 {
    match Pattern::read(alloc, text, matching) {
        Ok(_) => 0,
        Err(fault) => fault.number(),
    }
}

fn fault_found(text: &str, matching: Match) -> u8 {
    match Pattern::of(text, matching) {
        Ok(_) => 0,
        Err(fault) => fault.number(),
    }
}

// A text, how it matches, and the number of its fault, or 0.
const PATTERNS: &[(&str, Match, u8)] = &[
    ("a.b", Match::Exact, 0),
    ("a..b", Match::Exact, 4),
    ("", Match::Exact, 4),
    ("a b", Match::Exact, 2),
    ("a#", Match::Exact, 3),
    ("a..b", Match::Prefix, 0),
    ("", Match::Prefix, 0),
    ("a b", Match::Prefix, 2),
    ("a..b", Match::Wildcard, 0),
    ("", Match::Wildcard, 0),
    ("a#", Match::Wildcard, 3),
];

#[test]
fn reads_patterns(rt: HostRuntime) {
    for (text, matching, number) in PATTERNS {
        check!(&rt; fault_of(rt.alloc(), text, *matching) == *number, text);
        check!(&rt; fault_found(text, *matching) == *number, text);
    }
}

// Returns the faults of a text of `length` octets, as it matches in each way.
fn faults_of(rt: &impl Abort, alloc: Global, length: usize) -> (u8, u8, u8) {
    let octets = vec![in alloc; b'a'; length].expect(rt, "room for a text");
    let text = String::from_utf8(octets).expect(rt, "a text");
    (
        fault_of(alloc, text.as_str(), Match::Exact),
        fault_of(alloc, text.as_str(), Match::Prefix),
        fault_of(alloc, text.as_str(), Match::Wildcard),
    )
}

#[test]
fn patterns_have_at_most_1024_octets(rt: HostRuntime) {
    check!(&rt; faults_of(&rt, rt.alloc(), 1024) == (0, 0, 0));
    check!(&rt; faults_of(&rt, rt.alloc(), 1025) == (1, 1, 1));
}

fn is_reserved(rt: &impl Abort, text: &str, matching: Match) -> bool {
    Pattern::of(text, matching)
        .expect(rt, "a pattern")
        .is_reserved()
}

// A text, how it matches, and whether it is reserved.
const RESERVED: &[(&str, Match, bool)] = &[
    ("wamp.x", Match::Exact, true),
    ("wamp", Match::Exact, true),
    ("wampx.y", Match::Exact, false),
    ("wamp", Match::Prefix, true),
    ("wam", Match::Prefix, false),
    ("", Match::Prefix, false),
    ("wamp..x", Match::Wildcard, true),
    (".wamp", Match::Wildcard, false),
];

#[test]
fn some_patterns_are_reserved(rt: HostRuntime) {
    for (text, matching, reserved) in RESERVED {
        check!(&rt; is_reserved(&rt, text, *matching) == *reserved, text);
    }
}

fn has_parts(pattern: &Pattern<'_>) -> bool {
    pattern.part(0) == Some("a")
        && pattern.part(1) == Some("")
        && pattern.part(2) == Some("é")
        && pattern.part(3).is_none()
        && pattern.parts().count() == 3
}

#[test]
fn takes_patterns_apart(rt: HostRuntime) {
    let pattern = Pattern::read(rt.alloc(), "a..é", Match::Wildcard).expect(&rt, "a pattern");
    check!(&rt; has_parts(&pattern));
}

fn is_same(rt: &impl Abort, pattern: &Pattern<'_>, text: &str, matching: Match) -> bool {
    pattern.same(&Pattern::of(text, matching).expect(rt, "a pattern"))
}

fn is_copy(rt: &impl Abort, copy: &Pattern<'_>) {
    check!(rt; copy.as_str() == "a..é" && copy.matching() == Match::Wildcard);
    check!(rt; is_same(rt, copy, "a..é", Match::Wildcard));
    check!(rt; !is_same(rt, copy, "a..é", Match::Prefix));
    check!(rt; !is_same(rt, copy, "a..", Match::Wildcard));
}

#[test]
fn a_copied_pattern_is_the_same(rt: HostRuntime) {
    let copy = Pattern::of("a..é", Match::Wildcard)
        .expect(&rt, "a pattern")
        .copy(rt.alloc())
        .expect(&rt, "room for a copy");
    is_copy(&rt, &copy);
}
