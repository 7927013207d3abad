// An actor that is lost in its present boot by a packet of a round, and which is restarted.
use crate::carrying::{at, have_log};
use crate::check::Check;
use crate::counting::{ALL, Asked, Counting, NONE_FAILS, Script, Sum, fault_at, goes, serves};
use crate::crashing::restart_second;
use crate::hearing::{Heard, Told};
use crate::round_acts::{Acts, OneRound, Suspects};
use crate::trial::{Trial, tried_by_rounds};
use std::alloc::Global;
use std::process::Abort;
use test_checks::{check, check_eq};

// In how many slots node 2 has voted: in four of the session, and in that of its loss.
const VOTES: u64 = 5;

// Node 2 takes 7 in the round to which the vote of node 1 for its loss comes. It votes for that, too, by which it is lost. It goes down, and nothing
// is said or posted; but the vote, which the round tried before, is made.
fn is_lost_in_round(rt: &impl Abort, actors: &mut [Counting<'_>]) {
    let mut suspects = Suspects::of(1, 2);
    check_eq!(rt; at(rt, actors, 1).run_rounds(&OneRound, &mut suspects), 0);
    let mut acts = Acts::of(2, &[7]);
    let second = at(rt, actors, 2);
    check_eq!(rt; second.open_slots(), 0);
    check_eq!(rt; second.run_rounds(&OneRound, &mut acts), 73);
    check_eq!(rt; acts.counts(), (1, 0));
    check_eq!(rt; (second.pending_entries(), second.has_posted()), (0, false));
    check_eq!(rt; second.open_slots(), VOTES);
    check_eq!(rt; fault_at(rt, actors, 2, Asked::Turn), 71);
}

// It reports its next boot.
const GOING_ON: Script = &[ALL, (2, Asked::Tick), ALL];

// The act of the lost boot is in no log.
const SIX: &[Told] = &[
    ('b', 1, 1, 0),
    ('b', 2, 1, 0),
    ('i', 2, 1, 1),
    ('i', 2, 1, 2),
    ('l', 2, 1, 0),
    ('b', 2, 2, 0),
];

fn runs(rt: &impl Abort, alloc: Global, actors: &mut Vec<Counting<'_>>, heard: &mut Heard<Sum>) {
    serves(rt, actors.as_mut_slice(), heard);
    is_lost_in_round(rt, actors.as_mut_slice());
    check!(rt; restart_second(alloc, actors));
    check_eq!(rt; at(rt, actors.as_mut_slice(), 2).open_slots(), VOTES);
    goes(rt, actors.as_mut_slice(), heard, GOING_ON);
    have_log(rt, actors.as_mut_slice(), SIX);
    check!(rt; heard.faults.is_empty());
}

/// An actor that is lost in a round has made what the round tried before, and goes on in its next boot.
pub fn loses_round(rt: &impl Abort, alloc: Global, actors: &mut Vec<Counting<'_>>) {
    let mut heard = Heard::nothing(alloc);
    runs(rt, alloc, actors, &mut heard);
    drop(heard);
}

#[test]
fn what_a_round_tried_before_its_node_was_lost_is_made(rt: HostRuntime) {
    tried_by_rounds(&rt, rt.alloc(), &NONE_FAILS, Trial::LosesRound);
}
