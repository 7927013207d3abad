// Rounds of a node over a feed: the events that come out of it, by letters.
use crate::check::Check;
use actor_run::{Gate, RoundFeed, RoundSeen};
use paxos_node::Event;
use paxos_packets::NodeSet;
use realm_acts::Act;
use realm_machine::Say;
use std::alloc::Global;
use std::process::Abort;
use test_checks::check_eq;

pub const NODE: u8 = 2;

// What the last round showed, if nothing happened in it.
pub fn quiet() -> RoundSeen<'static> {
    RoundSeen {
        came: &[],
        applied: 0,
        floor: 0,
        pending: 0,
        posted: NodeSet::new(),
        waiting: [0; 7],
        commits: 0,
        leads: false,
        promised: None,
        open_slots: 0,
    }
}

// The letters of an event: an act's, with its transport's number before it; another event's, with none.
fn letters_of(event: &Event<Act>) -> (Option<char>, char) {
    match event {
        Event::Take {
            transport,
            body,
            ..
        } => {
            let letter = match body {
                Act::Connect => 'C',
                Act::Said { .. } => 'S',
                Act::Hung => 'H',
            };
            let number = char::from_digit(*transport, 10).unwrap_or('?');
            (Some(number), letter)
        },
        Event::Tick { .. } => (None, 't'),
        Event::Start { .. } => (None, 'b'),
        Event::Suspect { .. } => (None, 's'),
        Event::Cut { .. } => (None, 'c'),
        Event::Deliver { .. } | Event::Crash { .. } | Event::Restart { .. } => (None, '?'),
    }
}

// The letters of the feed's next event.
fn next_event<F: RoundFeed<Act, Say>>(
    feed: &mut F,
    seen: &RoundSeen<'_>,
) -> Option<(Option<char>, char)> {
    let Some(event) = feed.next(seen) else {
        return None;
    };
    let letters = letters_of(&event);
    drop(event);
    Some(letters)
}

// The letter of the feed's next event, if the last round brought nothing.
pub fn next_letter<F: RoundFeed<Act, Say>>(feed: &mut F) -> Option<char> {
    let (_, letter) = next_event(feed, &quiet())?;
    Some(letter)
}

// Appends the letters of a round's events.
fn put_round<F: RoundFeed<Act, Say>, G: Gate>(
    rt: &impl Abort,
    gate: &G,
    feed: &mut F,
    seen: &RoundSeen<'_>,
    letters: &mut String,
) {
    if !gate.pass(NODE, 1) {
        return;
    }
    for _ in 0..64 {
        let Some((number, letter)) = next_event(feed, seen) else {
            return;
        };
        if let Some(number) = number {
            letters.push(number).expect(rt, "room for a number");
        }
        letters.push(letter).expect(rt, "room for a letter");
    }
}

// The events of a round have these letters.
pub fn gives<F: RoundFeed<Act, Say>, G: Gate>(
    rt: &impl Abort,
    alloc: Global,
    gate: &G,
    feed: &mut F,
    seen: &RoundSeen<'_>,
    wanted: &str,
) {
    let mut letters = String::new(alloc);
    put_round(rt, gate, feed, seen, &mut letters);
    check_eq!(rt; letters.as_str(), wanted);
    drop(letters);
}

// Appends the letters of the first round with events. Returns which round that was.
fn first_event<F: RoundFeed<Act, Say>, G: Gate>(
    rt: &impl Abort,
    gate: &G,
    feed: &mut F,
    seen: &RoundSeen<'_>,
    letters: &mut String,
) -> u32 {
    for count in 1..1000 {
        put_round(rt, gate, feed, seen, letters);
        if letters.len() > 0 {
            return count;
        }
    }
    panic!(rt; "no event came")
}

// The first event has this letter. Returns in which round it came.
pub fn comes<F: RoundFeed<Act, Say>, G: Gate>(
    rt: &impl Abort,
    alloc: Global,
    gate: &G,
    feed: &mut F,
    seen: &RoundSeen<'_>,
    letter: &str,
) -> u32 {
    let mut letters = String::new(alloc);
    let count = first_event(rt, gate, feed, seen, &mut letters);
    check_eq!(rt; letters.as_str(), letter);
    drop(letters);
    count
}

// Ticks come, and then an event with this letter. Returns how many ticks there were.
pub fn ticks_before<F: RoundFeed<Act, Say>, G: Gate>(
    rt: &impl Abort,
    alloc: Global,
    gate: &G,
    feed: &mut F,
    seen: &RoundSeen<'_>,
    letter: &str,
) -> u32 {
    let mut letters = String::new(alloc);
    for count in 0..1000 {
        letters.clear();
        first_event(rt, gate, feed, seen, &mut letters);
        if letters.as_str() == letter {
            drop(letters);
            return count;
        }
        check_eq!(rt; letters.as_str(), "t");
    }
    panic!(rt; "only ticks came")
}
