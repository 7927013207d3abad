// Three, five and seven nodes that go by the real rules of time, over schedules that are drawn from seeds: after the last disturbance one of
// them comes to lead, for good.
use crate::check::Check;
use crate::cluster::Found;
use crate::schedules::{LONG_HISTORY, draw_calm, draw_cluster, draw_long, draw_slow};
use crate::voter::majority_of;
use paxos_packets::Members;
use std::alloc::Global;
use std::panic::Expect;
use std::process::Abort;
use test_checks::check;

// Within how many microseconds after the last disturbance one node leads: 12,000 beats. A takeover and the votes for what it proposes take 3,000
// beats together at the most, and where commits are slow a dozen commits more, which are 500 beats. A patience is longer than that after two
// ballots in vain, and mostly while a ballot is prepared, so few are cut short.
const BOUND: u64 = 24_000_000;

// How long a schedule may go on after the last disturbance: the bound, and what follows it.
const LONGEST: u64 = 60_000_000;

// Each of these seeds leads to one leader, with slow commits or without. A test of three nodes has a thousand of them, one of more has fewer: it
// may take a minute on a busy machine.
fn settles(rt: &impl Abort, alloc: Global, count: u8, is_slow: bool, first: u64, last: u64) {
    let members = Members::new(count).expect(rt, "three to seven members");
    for seed in first..last {
        let mut cluster = if is_slow {
            draw_slow(alloc, members, seed)
        } else {
            draw_cluster(alloc, members, seed)
        };
        let found = cluster.play(alloc, LONGEST);
        drop(cluster);
        check!(rt; found.settled <= BOUND, (seed, found));
        check!(rt; found.leaders == 1 && found.is_level, (seed, found));
    }
}

#[test]
fn one_node_leads_for_good_from_schedule_0(rt: HostRuntime) {
    settles(&rt, rt.alloc(), 3, false, 0, 1000);
}

#[test]
fn one_node_leads_for_good_from_schedule_1000(rt: HostRuntime) {
    settles(&rt, rt.alloc(), 3, false, 1000, 2000);
}

#[test]
fn one_node_leads_for_good_from_schedule_2000(rt: HostRuntime) {
    settles(&rt, rt.alloc(), 3, false, 2000, 3000);
}

#[test]
fn one_node_leads_for_good_from_schedule_3000(rt: HostRuntime) {
    settles(&rt, rt.alloc(), 3, false, 3000, 4000);
}

#[test]
fn one_node_leads_for_good_from_schedule_4000(rt: HostRuntime) {
    settles(&rt, rt.alloc(), 3, false, 4000, 5000);
}

#[test]
fn one_node_leads_for_good_from_schedule_5000(rt: HostRuntime) {
    settles(&rt, rt.alloc(), 3, false, 5000, 6000);
}

#[test]
fn one_node_leads_for_good_from_schedule_6000(rt: HostRuntime) {
    settles(&rt, rt.alloc(), 3, false, 6000, 7000);
}

#[test]
fn one_node_leads_for_good_from_schedule_7000(rt: HostRuntime) {
    settles(&rt, rt.alloc(), 3, false, 7000, 8000);
}

#[test]
fn one_node_leads_for_good_from_schedule_8000(rt: HostRuntime) {
    settles(&rt, rt.alloc(), 3, false, 8000, 9000);
}

#[test]
fn one_node_leads_for_good_from_schedule_9000(rt: HostRuntime) {
    settles(&rt, rt.alloc(), 3, false, 9000, 10000);
}

#[test]
fn one_node_leads_for_good_with_slow_commits_from_schedule_0(rt: HostRuntime) {
    settles(&rt, rt.alloc(), 3, true, 0, 1000);
}

#[test]
fn one_node_leads_for_good_with_slow_commits_from_schedule_1000(rt: HostRuntime) {
    settles(&rt, rt.alloc(), 3, true, 1000, 2000);
}

#[test]
fn one_node_leads_for_good_with_slow_commits_from_schedule_2000(rt: HostRuntime) {
    settles(&rt, rt.alloc(), 3, true, 2000, 3000);
}

#[test]
fn one_node_leads_for_good_with_slow_commits_from_schedule_3000(rt: HostRuntime) {
    settles(&rt, rt.alloc(), 3, true, 3000, 4000);
}

#[test]
fn one_node_leads_for_good_with_slow_commits_from_schedule_4000(rt: HostRuntime) {
    settles(&rt, rt.alloc(), 3, true, 4000, 5000);
}

#[test]
fn one_of_five_nodes_leads_for_good_from_schedule_0(rt: HostRuntime) {
    settles(&rt, rt.alloc(), 5, false, 0, 300);
}

#[test]
fn one_of_five_nodes_leads_for_good_from_schedule_300(rt: HostRuntime) {
    settles(&rt, rt.alloc(), 5, false, 300, 600);
}

#[test]
fn one_of_five_nodes_leads_for_good_with_slow_commits_from_schedule_0(rt: HostRuntime) {
    settles(&rt, rt.alloc(), 5, true, 0, 300);
}

#[test]
fn one_of_five_nodes_leads_for_good_with_slow_commits_from_schedule_300(rt: HostRuntime) {
    settles(&rt, rt.alloc(), 5, true, 300, 600);
}

#[test]
fn one_of_seven_nodes_leads_for_good_from_schedule_0(rt: HostRuntime) {
    settles(&rt, rt.alloc(), 7, false, 0, 150);
}

#[test]
fn one_of_seven_nodes_leads_for_good_from_schedule_150(rt: HostRuntime) {
    settles(&rt, rt.alloc(), 7, false, 150, 300);
}

#[test]
fn one_of_seven_nodes_leads_for_good_with_slow_commits_from_schedule_0(rt: HostRuntime) {
    settles(&rt, rt.alloc(), 7, true, 0, 150);
}

#[test]
fn one_of_seven_nodes_leads_for_good_with_slow_commits_from_schedule_150(rt: HostRuntime) {
    settles(&rt, rt.alloc(), 7, true, 150, 300);
}

// How long a takeover takes at the least, of as many entries as take 20 microseconds each where nothing else runs.
const SECONDS: [u64; 3] = [10, 30, 100];

// After how many ballots one mostly leads that way: each is waited for, but old promises refuse some, after a takeover in vain.
const FEW_BALLOTS: u64 = 8;

// The same where the count says nothing, since a machine is far slower than others: each node doubles its patience, from one second until
// it is longer than a takeover. That is eight times at each of three nodes at the most, and of the ballots between two of these some are cut short.
const MANY_BALLOTS: u64 = 64;

// One play of this many may take more ballots, up to twice as many. Then two nodes take over at a time, and again and again each ends the other's
// ballot: a node that takes over hears nothing, and the Prepare of another waits behind what is in its box already.
const PLAYS_A_LONG_ONE: u64 = 10;

// How many times as long as the shortest takeover a play may take.
const LONG_PLAY: u64 = 60;

// Plays the schedule of a seed where a takeover takes this long, and a node counts all entries of it or none.
fn play_long(alloc: Global, members: Members, seed: u64, seconds: u64, is_counted: bool) -> Found {
    let takeover = seconds.saturating_mul(1_000_000);
    let entries = if is_counted {
        u32::try_from(takeover / 20 / u64::from(LONG_HISTORY)).unwrap_or(u32::MAX)
    } else {
        0
    };
    let mut cluster = draw_long(alloc, members, seed, takeover, entries);
    let found = cluster.play(alloc, takeover.saturating_mul(LONG_PLAY));
    drop(cluster);
    found
}

// One node leads for good, mostly after at most this many ballots.
fn leads_after(rt: &impl Abort, alloc: Global, is_counted: bool, most: u64) {
    let members = Members::new(3).expect(rt, "three members");
    let mut plays: u64 = 0;
    let mut long: u64 = 0;
    for seconds in SECONDS {
        for seed in 0..10u64 {
            let found = play_long(alloc, members, seed, seconds, is_counted);
            check!(rt; found.leaders == 1 && found.is_level, (seed, seconds, found));
            check!(rt; found.ballots <= most.saturating_mul(2), (seed, seconds, found));
            plays = plays.saturating_add(1);
            long = long.saturating_add(u64::from(found.ballots > most));
        }
    }
    check!(rt; long.saturating_mul(PLAYS_A_LONG_ONE) <= plays, (plays, long));
}

#[test]
fn one_node_leads_after_few_ballots_where_a_takeover_takes_10_seconds_and_more(rt: HostRuntime) {
    leads_after(&rt, rt.alloc(), true, FEW_BALLOTS);
}

#[test]
fn one_node_leads_where_a_takeover_is_far_longer_than_its_count_says(rt: HostRuntime) {
    leads_after(&rt, rt.alloc(), false, MANY_BALLOTS);
}

// Within how many microseconds after the Prepare of a node that then stands still another one begins a ballot, where logs are short.
const SOON: u64 = 2_000_000;

// As many nodes as leave a majority of the others stand still, each after its Prepare; another one begins a ballot soon.
fn begins_soon(rt: &impl Abort, alloc: Global, count: u8) {
    let members = Members::new(count).expect(rt, "three to seven members");
    for seed in 0..20u64 {
        let mut cluster = draw_calm(alloc, members, seed, [0; 7], 0);
        let mut owner = cluster.play_to_ballot(SOON);
        for _ in majority_of(count)..count {
            let Some(node) = owner else {
                break;
            };
            cluster.halt(node);
            owner = cluster.play_to_ballot(SOON);
        }
        drop(cluster);
        check!(rt; owner.is_some(), (count, seed));
    }
}

#[test]
fn a_ballot_is_begun_soon_after_nodes_stand_still_that_prepared_one(rt: HostRuntime) {
    for count in [3, 5, 7] {
        begins_soon(&rt, rt.alloc(), count);
    }
}
