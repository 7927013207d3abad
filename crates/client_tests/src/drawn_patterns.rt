// A table of drawn patterns beside a scan of all of them by `matches` and `better`.
use crate::check::Check;
use rand_chacha::ChaCha20Rng;
use rand_core::SeedableRng;
use rand_core::utils::NextWord;
use std::alloc::Global;
use std::process::Abort;
use test_checks::{check, check_eq};
use wamp_ids::{Match, Pattern, Uri};
use wamp_patterns::{PatternTable, better, matches};

/// A pattern that was put, until another one takes its place.
#[derive(Drop)]
struct Drawn {
    pattern: Pattern<'static>,
    stands: bool,
}

// A text of up to seven of three letters, so that many begin alike.
fn draw_text(rt: &impl Abort, alloc: Global, words: &mut ChaCha20Rng) -> String {
    let mut text = String::new(alloc);
    let length = words.next_word() % 8;
    for _ in 0..length {
        let letter = match words.next_word() % 3 {
            0 => 'a',
            1 => 'b',
            _ => '.',
        };
        text.push(letter).expect(rt, "room for a letter");
    }
    text
}

fn draw_match(words: &mut ChaCha20Rng) -> Match {
    match words.next_word() % 3 {
        0 => Match::Exact,
        1 => Match::Prefix,
        _ => Match::Wildcard,
    }
}

// Puts a drawn pattern with its number, if it is one; the number that was there is not in the table any more.
fn put_drawn(
    rt: &impl Abort,
    alloc: Global,
    words: &mut ChaCha20Rng,
    table: &mut PatternTable<usize>,
    drawn: &mut Vec<Drawn>,
) {
    let matching = draw_match(words);
    let text = draw_text(rt, alloc, words);
    let Ok(pattern) = Pattern::read(alloc, text.as_str(), matching) else {
        return;
    };
    put_one(rt, table, drawn, pattern);
}

fn put_one(
    rt: &impl Abort,
    table: &mut PatternTable<usize>,
    drawn: &mut Vec<Drawn>,
    pattern: Pattern<'static>,
) {
    let old = table
        .put(&pattern, drawn.len())
        .expect(rt, "room for a pattern");
    if let Some(old) = old {
        strike(drawn, old);
    }
    let one = Drawn {
        pattern,
        stands: true,
    };
    drawn.push(one).expect(rt, "room for a pattern");
}

fn strike(drawn: &mut Vec<Drawn>, number: usize) {
    if let Some(one) = drawn.get_mut(number) {
        one.stands = false;
    }
}

// The number of the one that serves, and how many match, by a scan of all.
fn scan(drawn: &[Drawn], uri: &Uri<'_>) -> (Option<usize>, usize) {
    let mut best = None;
    let mut count: usize = 0;
    for (number, one) in drawn.iter().enumerate() {
        if one.stands && matches(&one.pattern, uri) {
            count = count.saturating_add(1);
            if is_better_than(drawn, one, best) {
                best = Some(number);
            }
        }
    }
    (best, count)
}

fn is_better_than(drawn: &[Drawn], one: &Drawn, best: Option<usize>) -> bool {
    match best.and_then(|number| drawn.get(number)) {
        Some(best) => better(&one.pattern, &best.pattern),
        None => true,
    }
}

fn rank(matching: Match) -> u8 {
    match matching {
        Match::Exact => 0,
        Match::Prefix => 1,
        Match::Wildcard => 2,
    }
}

// Whether the first comes before the second: exact, then prefix, then wildcard, each by text.
fn stands_before(one: &Pattern<'_>, other: &Pattern<'_>) -> bool {
    let (rank, other_rank) = (rank(one.matching()), rank(other.matching()));
    rank < other_rank || rank == other_rank && one.as_str() < other.as_str()
}

// Whether these are as many as the scan found, all match, and are in order.
fn are_all(drawn: &[Drawn], uri: &Uri<'_>, found: &[&usize], count: usize) -> bool {
    let mut before: Option<&Drawn> = None;
    for number in found {
        let Some(one) = drawn.get(**number) else {
            return false;
        };
        if !one.stands || !matches(&one.pattern, uri) || !is_after(before, one) {
            return false;
        }
        before = Some(one);
    }
    found.len() == count
}

fn is_after(before: Option<&Drawn>, one: &Drawn) -> bool {
    match before {
        Some(before) => stands_before(&before.pattern, &one.pattern),
        None => true,
    }
}

// Compares what the table returns for this URI with the scan. Returns how many match.
fn compare(rt: &impl Abort, table: &PatternTable<usize>, drawn: &[Drawn], uri: &Uri<'_>) -> usize {
    let (best, count) = scan(drawn, uri);
    check_eq!(rt; table.best(uri).copied(), best);
    let found = table.all(uri).expect(rt, "room for all that match");
    check!(rt; are_all(drawn, uri, found.as_slice(), count));
    count
}

// Draws until `most` patterns were put.
fn fill(
    rt: &impl Abort,
    alloc: Global,
    words: &mut ChaCha20Rng,
    table: &mut PatternTable<usize>,
    drawn: &mut Vec<Drawn>,
    most: usize,
) {
    for _ in 0..10_000u32 {
        if drawn.len() < most {
            put_drawn(rt, alloc, words, table, drawn);
        }
    }
}

// How many URIs none, one and more of the patterns match.
#[derive(Clone, Copy, Debug, PartialEq, Eq)]
struct Seen {
    none: usize,
    one: usize,
    many: usize,
}

impl Seen {
    fn with(self, count: usize) -> Seen {
        let Seen { none, one, many } = self;
        match count {
            0 => Seen {
                none: none.saturating_add(1),
                one,
                many,
            },
            1 => Seen {
                none,
                one: one.saturating_add(1),
                many,
            },
            _ => Seen {
                none,
                one,
                many: many.saturating_add(1),
            },
        }
    }
}

// What is seen once more has been asked: a drawn text, if it is a URI.
fn ask_one(
    rt: &impl Abort,
    text: &str,
    table: &PatternTable<usize>,
    drawn: &[Drawn],
    seen: Seen,
) -> Seen {
    let Ok(uri) = Uri::of(text) else {
        return seen;
    };
    seen.with(compare(rt, table, drawn, &uri))
}

// What the drawn URIs show.
fn ask(
    rt: &impl Abort,
    alloc: Global,
    words: &mut ChaCha20Rng,
    table: &PatternTable<usize>,
    drawn: &[Drawn],
) -> Seen {
    let mut seen = Seen {
        none: 0,
        one: 0,
        many: 0,
    };
    for _ in 0..200u32 {
        let text = draw_text(rt, alloc, words);
        seen = ask_one(rt, text.as_str(), table, drawn, seen);
        drop(text);
    }
    seen
}

// Takes every second one out again.
fn take_half(table: &mut PatternTable<usize>, drawn: &mut [Drawn]) {
    let mut take = false;
    for one in drawn.iter_mut() {
        if take && one.stands {
            one.stands = table.remove(&one.pattern).is_none();
        }
        take = !take;
    }
}

// Draws few patterns, then many, then takes half of them out again; after each the table agrees with the scan.
fn draws_and_asks(
    rt: &impl Abort,
    alloc: Global,
    table: &mut PatternTable<usize>,
    drawn: &mut Vec<Drawn>,
) {
    let mut words = ChaCha20Rng::from_seed([7; 32]);
    fill(rt, alloc, &mut words, table, drawn, 5);
    let few = ask(rt, alloc, &mut words, table, drawn);
    check!(rt; few.none > 0 && few.one > 0);
    fill(rt, alloc, &mut words, table, drawn, 2_000);
    check_eq!(rt; drawn.len(), 2_000);
    let full = ask(rt, alloc, &mut words, table, drawn);
    check!(rt; full.many > 0);
    take_half(table, drawn);
    ask(rt, alloc, &mut words, table, drawn);
}

#[test]
fn answers_as_a_scan_does(rt: HostRuntime) {
    let alloc = rt.alloc();
    let mut table = PatternTable::new(alloc);
    let mut drawn = Vec::new(alloc);
    draws_and_asks(&rt, alloc, &mut table, &mut drawn);
    drop(table);
    drop(drawn);
}
