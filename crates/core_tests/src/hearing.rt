// What is planned on a learner: what it would learn, disagreement, and runs up to a gap; and that what is planned is heard.
use crate::check::Check;
use paxos_learner::{Hearing, Learner, News};
use paxos_packets::{Ballot, Body, Entry, Floor, Members, Slot, Vote};
use std::alloc::Global;
use std::process::Abort;
use test_checks::{check, check_eq};
use test_machines::Number;

const FIRST: Ballot = Ballot { round: 1, node: 1 };

const BOOT: Entry<Number> = Entry::Boot { node: 1, boot: 1 };

// Whether the learner learned this entry in the slot.
fn has_learned(learner: &Learner<Number>, slot: Slot, wanted: &Entry<Number>) -> bool {
    match learner.learned(slot) {
        Some(entry) => entry.same(wanted),
        None => false,
    }
}

// Whether it would have learned it.
fn would_have(hearing: &Hearing<Number>, slot: Slot, wanted: &Entry<Number>) -> bool {
    match hearing.learned(slot) {
        Some(entry) => entry.same(wanted),
        None => false,
    }
}

// A vote for the Boot of node 1.
fn vote_in(slot: Slot) -> Vote<Number> {
    Vote {
        slot,
        ballot: FIRST,
        entry: BOOT,
    }
}

// Node 2 votes in the first slot, and a member reports the second.
fn plan(rt: &impl Abort, hearing: &mut Hearing<'_, Number>, first: Slot, second: Slot) {
    let _agrees = hearing
        .vote(2, &vote_in(first))
        .expect(rt, "room for a vote");
    let _free = hearing
        .tell(second, &Entry::Noop)
        .expect(rt, "room for an entry");
}

// What it is to hear then.
fn planned(
    rt: &impl Abort,
    alloc: Global,
    learner: &Learner<Number>,
    first: Slot,
    second: Slot,
) -> Vec<News<Number>> {
    let mut hearing = Hearing::of(alloc, learner);
    plan(rt, &mut hearing, first, second);
    hearing.into_news()
}

// What a report of the slot does: first nothing is learned there, then another entry is; and whether the first one stays.
fn tells(rt: &impl Abort, hearing: &mut Hearing<'_, Number>, slot: Slot) -> (bool, bool, bool) {
    let before = hearing
        .tell(slot, &Entry::Noop)
        .expect(rt, "room for an entry");
    let after = hearing.tell(slot, &BOOT).expect(rt, "room for an entry");
    (before, after, would_have(hearing, slot, &Entry::Noop))
}

fn disagree(
    rt: &impl Abort,
    alloc: Global,
    learner: &Learner<Number>,
    slot: Slot,
) -> (bool, bool, bool) {
    let mut hearing = Hearing::of(alloc, learner);
    tells(rt, &mut hearing, slot)
}

fn learner(rt: &impl Abort, alloc: Global) -> Learner<Number> {
    let members = Members::new(3).expect(rt, "3 members");
    Learner::new(alloc, members, Floor::none())
}

fn slot(rt: &impl Abort, number: u64) -> Slot {
    Slot::new(number).expect(rt, "a slot")
}

// What was planned is heard.
fn hear(rt: &impl Abort, learner: &mut Learner<Number>, news: Vec<News<Number>>) {
    learner.make_room_for(&news).expect(rt, "room for the news");
    learner.hear_in_room(news);
}

// What is planned is heard: how many news there were, and whether none was learned before.
fn take(
    rt: &impl Abort,
    alloc: Global,
    learner: &mut Learner<Number>,
    first: Slot,
    second: Slot,
) -> (usize, bool) {
    learner
        .vote(1, FIRST, first, &BOOT)
        .expect(rt, "room for a vote");
    let news = planned(rt, alloc, learner, first, second);
    let before = (news.len(), learner.learned(first).is_none());
    hear(rt, learner, news);
    before
}

fn is_heard(rt: &impl Abort, alloc: Global, learner: &mut Learner<Number>) {
    let first = slot(rt, 1);
    let second = slot(rt, 2);
    check!(rt; take(rt, alloc, learner, first, second) == (2, true));
    check!(rt; has_learned(learner, first, &BOOT));
    check!(rt; has_learned(learner, second, &Entry::Noop));
}

#[test]
fn what_is_planned_is_heard(rt: HostRuntime) {
    let mut learner = learner(&rt, rt.alloc());
    is_heard(&rt, rt.alloc(), &mut learner);
}

fn would_disagree(rt: &impl Abort, alloc: Global, learner: &Learner<Number>) {
    let slot = slot(rt, 2);
    check!(rt; disagree(rt, alloc, learner, slot) == (false, true, true));
    check!(rt; learner.learned(slot).is_none());
}

#[test]
fn another_entry_would_disagree(rt: HostRuntime) {
    let learner = learner(&rt, rt.alloc());
    would_disagree(&rt, rt.alloc(), &learner);
}

// News of a slot that the floor closes are kept, and change nothing: how many there are, and whether they disagree.
fn closed(
    rt: &impl Abort,
    alloc: Global,
    learner: &Learner<Number>,
    slot: Slot,
) -> (usize, bool, bool) {
    let mut hearing = Hearing::of(alloc, learner);
    let (before, after, stays) = tells(rt, &mut hearing, slot);
    (hearing.into_news().len(), before || after, stays)
}

fn is_closed(rt: &impl Abort, alloc: Global, learner: &Learner<Number>) {
    let slot = slot(rt, 2);
    check!(rt; closed(rt, alloc, learner, slot) == (2, false, false));
}

#[test]
fn a_closed_slot_stays_as_it_is(rt: HostRuntime) {
    let members = Members::new(3).expect(&rt, "3 members");
    let floor = Floor::new(2).expect(&rt, "a floor");
    let learner = Learner::new(rt.alloc(), members, floor);
    is_closed(&rt, rt.alloc(), &learner);
}

// Noops in slots 1, 2 and 4 are reported to it.
fn tell_all(rt: &impl Abort, hearing: &mut Hearing<'_, Number>) {
    for number in [1, 2, 4] {
        if let Some(slot) = Slot::new(number) {
            let _free = hearing
                .tell(slot, &Entry::Noop)
                .expect(rt, "room for an entry");
        }
    }
}

// Returns how long the run after this many slots is.
fn run(rt: &impl Abort, hearing: &Hearing<Number>, applied: u64) -> usize {
    let run = hearing.run_after(applied).expect(rt, "room for a run");
    run.as_slice().len()
}

// Returns how many slots are reported from this one on.
fn window(rt: &impl Abort, hearing: &Hearing<Number>, first: u64) -> usize {
    let told = hearing
        .learned_from(first)
        .expect(rt, "room for what is told");
    told.len()
}

// Returns how long the run after this many slots is, and how many slots are reported from that one on.
const RUNS: &[(u64, usize, usize)] = &[
    (0, 2, 3),
    (1, 1, 3),
    (2, 0, 2),
    (3, 1, 1),
    (4, 0, 1),
    (5, 0, 0),
    (u64::MAX, 0, 0),
];

fn are_told(rt: &impl Abort, hearing: &Hearing<Number>) {
    for (slot, length, from) in RUNS {
        check_eq!(rt; run(rt, hearing, *slot), *length, slot);
        check_eq!(rt; window(rt, hearing, *slot), *from, slot);
    }
}

fn ends(rt: &impl Abort, alloc: Global, learner: &Learner<Number>) {
    let mut hearing = Hearing::of(alloc, learner);
    tell_all(rt, &mut hearing);
    are_told(rt, &hearing);
}

#[test]
fn a_run_ends_at_a_gap(rt: HostRuntime) {
    let learner = learner(&rt, rt.alloc());
    ends(&rt, rt.alloc(), &learner);
}
