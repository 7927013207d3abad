// Rows on which URIs a pattern matches, which pattern serves, and tables by patterns.
use crate::check::Check;
use std::alloc::Global;
use std::process::Abort;
use test_checks::{check, check_eq};
use wamp_ids::{Match, Pattern, Uri};
use wamp_patterns::{Memory, PatternTable, better, matches};

fn is_matched(rt: &impl Abort, text: &str, matching: Match, uri: &str) -> bool {
    let pattern = Pattern::of(text, matching).expect(rt, "a pattern");
    matches(&pattern, &Uri::of(uri).expect(rt, "a URI"))
}

const MATCHED: &[(&str, Match, &str, bool)] = &[
    ("a.b", Match::Exact, "a.b", true),
    ("a.b", Match::Exact, "a.bc", false),
    ("a.b", Match::Prefix, "a.bc.d", true),
    ("wam", Match::Prefix, "wamp.x", true),
    ("a.b", Match::Prefix, "a", false),
    ("", Match::Prefix, "a", true),
    ("a..c", Match::Wildcard, "a.b.c", true),
    ("a..c", Match::Wildcard, "a.b.d", false),
    ("a..c", Match::Wildcard, "a.b.c.d", false),
    ("", Match::Wildcard, "a", true),
    ("", Match::Wildcard, "a.b", false),
];

#[test]
fn matches_by_the_three_rules(rt: HostRuntime) {
    for (text, matching, uri, expected) in MATCHED {
        let found = is_matched(&rt, text, *matching, uri);
        check_eq!(&rt; found, *expected, (text, uri));
    }
}

fn is_better(rt: &impl Abort, one: (&str, Match), other: (&str, Match)) -> bool {
    let pattern = Pattern::of(one.0, one.1).expect(rt, "a pattern");
    better(
        &pattern,
        &Pattern::of(other.0, other.1).expect(rt, "a pattern"),
    )
}

#[test]
fn the_longer_prefix_is_better_and_any_prefix_than_a_wildcard(rt: HostRuntime) {
    for (one, other) in [
        (("a.", Match::Prefix), ("a", Match::Prefix)),
        (("a", Match::Prefix), ("a.", Match::Wildcard)),
    ] {
        check!(&rt; is_better(&rt, one, other));
    }
}

// What is done with a table or asked of it, and what comes of it.
#[derive(Drop)]
enum Step<'a> {
    // A value is put for a pattern: the value that it replaces.
    Put(&'a str, Match, u8, Option<u8>),
    // The value of a pattern.
    Get(&'a str, Match, Option<u8>),
    // A pattern is removed: its value.
    Remove(&'a str, Match, Option<u8>),
    // The value of the pattern that serves a URI.
    Best(&'a str, Option<u8>),
    // The values of all patterns that match a URI, in the table's order.
    All(&'a str, &'a [u8]),
}

fn pattern<'a>(rt: &impl Abort, text: &'a str, matching: Match) -> Pattern<'a> {
    Pattern::of(text, matching).expect(rt, "a pattern")
}

fn put(
    rt: &impl Abort,
    table: &mut PatternTable<u8>,
    text: &str,
    matching: Match,
    value: u8,
) -> Option<u8> {
    let pattern = pattern(rt, text, matching);
    table.put(&pattern, value).expect(rt, "room for a value")
}

fn get(rt: &impl Abort, table: &PatternTable<u8>, text: &str, matching: Match) -> Option<u8> {
    table.get(&pattern(rt, text, matching)).copied()
}

fn remove(
    rt: &impl Abort,
    table: &mut PatternTable<u8>,
    text: &str,
    matching: Match,
) -> Option<u8> {
    table.remove(&pattern(rt, text, matching))
}

fn best(rt: &impl Abort, table: &PatternTable<u8>, uri: &str) -> Option<u8> {
    let uri = Uri::of(uri).expect(rt, "a URI");
    table.best(&uri).copied()
}

// Whether these are the values of all patterns that match, in this order.
fn are_all(rt: &impl Abort, table: &PatternTable<u8>, uri: &str, wanted: &[u8]) -> bool {
    let uri = Uri::of(uri).expect(rt, "a URI");
    let values = table.all(&uri).expect(rt, "room for all values");
    values.len() == wanted.len()
        && values
            .iter()
            .zip(wanted.iter())
            .all(|(value, wanted)| **value == *wanted)
}

// Takes the step. Returns whether it comes as it says.
fn take(rt: &impl Abort, table: &mut PatternTable<u8>, step: &Step<'_>) -> bool {
    match step {
        Step::Put(text, matching, value, wanted) => {
            put(rt, table, text, *matching, *value) == *wanted
        },
        Step::Get(text, matching, wanted) => get(rt, table, text, *matching) == *wanted,
        Step::Remove(text, matching, wanted) => remove(rt, table, text, *matching) == *wanted,
        Step::Best(uri, wanted) => best(rt, table, uri) == *wanted,
        Step::All(uri, wanted) => are_all(rt, table, uri, wanted),
    }
}

// Takes all steps; a note on a failed check is the step's place among them, from 0 on.
fn take_all(rt: &impl Abort, table: &mut PatternTable<u8>, steps: &[Step<'_>]) {
    for (place, step) in steps.iter().enumerate() {
        check!(rt; take(rt, table, step), place);
    }
}

// Takes these steps at an empty table.
fn check(rt: &impl Abort, alloc: Global, steps: &[Step<'_>]) {
    let mut table = PatternTable::new(alloc);
    take_all(rt, &mut table, steps);
    drop(table);
}

#[test]
fn one_of_two_wildcards_serves(rt: HostRuntime) {
    let wildcard = Match::Wildcard;
    for (one, other, uri, serves) in [
        ("a1.b2..d4.e5", "a1.b2.c33..e5", "a1.b2.c33.d4.e5", 2),
        (
            "a1.b2..d4.e5..g7",
            "a1.b2..d4..f6.g7",
            "a1.b2.c88.d4.e5.f6.g7",
            1,
        ),
        ("a.b...", "a..c.d.e", "a.b.c.d.e", 1),
    ] {
        let rows = [
            Step::Put(one, wildcard, 1, None),
            Step::Put(other, wildcard, 2, None),
            Step::Best(uri, Some(serves)),
            Step::Remove(one, wildcard, Some(1)),
            Step::Put(one, wildcard, 1, None),
            Step::Best(uri, Some(serves)),
        ];
        check(&rt, rt.alloc(), rows.as_slice());
    }
}

const NEXT_SERVES: &[Step<'static>] = &[
    Step::Put("a.", Match::Wildcard, 1, None),
    Step::Put("a", Match::Prefix, 2, None),
    Step::Put("a.", Match::Prefix, 3, None),
    Step::Put("a.b", Match::Exact, 4, None),
    Step::Best("a.b", Some(4)),
    Step::Remove("a.b", Match::Exact, Some(4)),
    Step::Remove("a.b", Match::Exact, None),
    Step::Best("a.b", Some(3)),
    Step::Remove("a.", Match::Prefix, Some(3)),
    Step::Remove("a.", Match::Prefix, None),
    Step::Best("a.b", Some(2)),
    Step::Remove("a", Match::Prefix, Some(2)),
    Step::Remove("a", Match::Prefix, None),
    Step::Best("a.b", Some(1)),
    Step::Remove("a.", Match::Wildcard, Some(1)),
    Step::Remove("a.", Match::Wildcard, None),
    Step::Best("a.b", None),
];

#[test]
fn the_next_serves_once_the_best_is_removed(rt: HostRuntime) {
    check(&rt, rt.alloc(), NEXT_SERVES);
}

const ORDER_IS_NO_RANK: &[Step<'static>] = &[
    Step::Put("a.b", Match::Exact, 4, None),
    Step::Put("a.", Match::Prefix, 3, None),
    Step::Put("a", Match::Prefix, 2, None),
    Step::Put("a.", Match::Wildcard, 1, None),
    Step::Best("a.b", Some(4)),
    Step::Remove("a.b", Match::Exact, Some(4)),
    Step::Best("a.b", Some(3)),
    Step::Remove("a.", Match::Prefix, Some(3)),
    Step::Best("a.b", Some(2)),
    Step::Remove("a", Match::Prefix, Some(2)),
    Step::Best("a.b", Some(1)),
    Step::Remove("a.", Match::Wildcard, Some(1)),
    Step::Best("a.b", None),
];

#[test]
fn the_order_of_putting_is_no_rank(rt: HostRuntime) {
    check(&rt, rt.alloc(), ORDER_IS_NO_RANK);
}

const ALL_IN_ORDER: &[Step<'static>] = &[
    Step::Put("a.", Match::Wildcard, 7, None),
    Step::Put("a", Match::Prefix, 3, None),
    Step::Put(".", Match::Wildcard, 5, None),
    Step::Put("b", Match::Prefix, 8, None),
    Step::Put("a.b", Match::Exact, 1, None),
    Step::Put("", Match::Prefix, 2, None),
    Step::Put(".b", Match::Wildcard, 6, None),
    Step::Put("a.c", Match::Exact, 9, None),
    Step::Put("a.", Match::Prefix, 4, None),
    Step::All("a.b", &[1, 2, 3, 4, 5, 6, 7]),
];

#[test]
fn gives_all_that_match_in_order(rt: HostRuntime) {
    check(&rt, rt.alloc(), ALL_IN_ORDER);
}

const WILDCARD_SERVES: &[Step<'static>] = &[
    Step::Put("a.b", Match::Exact, 1, None),
    Step::Put("", Match::Prefix, 2, None),
    Step::Put("a", Match::Prefix, 3, None),
    Step::Put("a.", Match::Prefix, 4, None),
    Step::Put(".", Match::Wildcard, 5, None),
    Step::Put(".b", Match::Wildcard, 6, None),
    Step::Put("a.", Match::Wildcard, 7, None),
    Step::All("a.b", &[1, 2, 3, 4, 5, 6, 7]),
    Step::Best("a.b", Some(1)),
    Step::Remove("a.b", Match::Exact, Some(1)),
    Step::Best("a.b", Some(4)),
    Step::Remove("a.", Match::Prefix, Some(4)),
    Step::Remove("a", Match::Prefix, Some(3)),
    Step::Remove("", Match::Prefix, Some(2)),
    Step::Best("a.b", Some(7)),
    Step::All("a.b", &[5, 6, 7]),
];

#[test]
fn the_wildcard_serves_once_all_prefixes_are_removed(rt: HostRuntime) {
    check(&rt, rt.alloc(), WILDCARD_SERVES);
}

const ONE_VALUE: &[Step<'static>] = &[
    Step::Put("a.b", Match::Exact, 4, None),
    Step::Put("a.", Match::Prefix, 3, None),
    Step::Get("a.b", Match::Exact, Some(4)),
    Step::Put("a.b", Match::Exact, 5, Some(4)),
    Step::Get("a.b", Match::Exact, Some(5)),
    Step::Get("a.b", Match::Prefix, None),
    Step::Put("a.b", Match::Prefix, 6, None),
    Step::Get("a.b", Match::Exact, Some(5)),
];

#[test]
fn puts_one_value_for_a_text_and_match(rt: HostRuntime) {
    check(&rt, rt.alloc(), ONE_VALUE);
}

#[test]
fn out_of_memory_has_number_36(rt: HostRuntime) {
    check_eq!(&rt; Memory.number(), 36);
}
