// Clients act as fast as they can at three, five and seven nodes that go by the real rules of time, and nothing disturbs them: what commits
// cost is all that slows them down, few packets are sent again, and one node leads throughout.
use crate::check::Check;
use crate::cluster::Found;
use crate::schedules::{Each, commits_of, draw_calm};
use paxos_packets::Members;
use std::alloc::Global;
use std::panic::Expect;
use std::process::Abort;
use test_checks::check;

// How many acts come first, one at a time at each node: they show how long a commit takes.
const FIRST: u8 = 8;

// How many commits the start and these acts take at the most over many schedules, beside two for each node's start and for each act. The ballot
// takes three; what is sent again before it is known how long a commit takes costs a few more.
const COMMITS_MORE: u64 = 8;

// How long the nodes take to start, and the rounds of the first acts.
const STARTING: u64 = 50_000;

// How many acts come then. With those before and the starts of seven nodes they have room in the log.
const ACTS: u8 = 48;

// How many microseconds either may take at the most.
const LONGEST: u64 = 60_000_000;

// How many acts each node has under way, and how many quarters of a commit an act takes over many schedules. Of one act at a time it is two
// commits, one after the other: the leader's, and that of the node whose vote makes a majority. Of many it is far less than one, since all that
// come in a round share its commit. A commit takes 1.09 times as long as it mostly does, and now and then a packet waits for one that is under way.
const LOADS: &[(Each<u8>, u64)] = &[
    ([1, 0, 0, 0, 0, 0, 0], 12),
    ([0, 1, 0, 0, 0, 0, 0], 12),
    ([1, 1, 1, 0, 0, 0, 0], 8),
    ([40, 0, 0, 0, 0, 0, 0], 1),
    ([12, 12, 12, 0, 0, 0, 0], 1),
    ([24, 4, 4, 0, 0, 0, 0], 1),
];

// The same for more than three nodes.
const LOADS_OF_MORE: &[(Each<u8>, u64)] = &[
    ([1, 0, 0, 0, 0, 0, 0], 12),
    ([0, 0, 0, 0, 1, 0, 0], 12),
    ([1, 1, 1, 1, 1, 1, 1], 8),
    ([40, 0, 0, 0, 0, 0, 0], 1),
    ([8, 8, 8, 8, 8, 8, 8], 1),
];

// How long the rounds of an act take at three nodes that commit nothing, and how much longer with each further node, whose packets come too.
const ROUNDS: u64 = 1_000;

const ROUNDS_MORE: u64 = 200;

// How long a node may stand still.
const STILL: u64 = 500_000;

// What the acts of a schedule took.
#[derive(Clone, Copy, Debug, PartialEq, Eq)]
struct Took {
    micros: u64,
    // How many Accepts were sent, and how many of these again.
    sent: u64,
    again: u64,
}

const NOTHING: Took = Took {
    micros: 0,
    sent: 0,
    again: 0,
};

impl Took {
    // What it took beside what it had taken before.
    fn since(self, before: Took) -> Took {
        Took {
            micros: self.micros.saturating_sub(before.micros),
            sent: self.sent.saturating_sub(before.sent),
            again: self.again.saturating_sub(before.again),
        }
    }

    // What both took.
    fn and(self, other: Took) -> Took {
        Took {
            micros: self.micros.saturating_add(other.micros),
            sent: self.sent.saturating_add(other.sent),
            again: self.again.saturating_add(other.again),
        }
    }

    // Whether at most this many of these Accepts were sent again.
    fn repeats_at_most(self, some: u64, of: u64) -> bool {
        self.again.saturating_mul(of) <= self.sent.saturating_mul(some)
    }
}

fn took_of(found: Found) -> Took {
    Took {
        micros: found.ended,
        sent: found.accepts.sent,
        again: found.accepts.again,
    }
}

// Plays a schedule: what was found after the first acts, and after all.
fn play(
    alloc: Global,
    members: Members,
    seed: u64,
    commits: Each<u64>,
    under_way: Each<u8>,
) -> [Found; 2] {
    let mut cluster = draw_calm(alloc, members, seed, commits, FIRST);
    let first = cluster.play_acts(LONGEST);
    cluster.act_on(ACTS, under_way);
    let last = cluster.play_acts(first.ended.saturating_add(LONGEST));
    drop(cluster);
    [first, last]
}

// How many microseconds the acts take at the most at this many nodes, if each takes this many quarters of a commit.
fn bound_of(count: u8, commit: u64, quarters: u64) -> u64 {
    let more = ROUNDS_MORE.saturating_mul(u64::from(count.saturating_sub(3)));
    (commit.saturating_mul(quarters) / 4)
        .saturating_add(ROUNDS)
        .saturating_add(more)
        .saturating_mul(u64::from(ACTS))
}

// Node 1 leads throughout, and all acts are done in time. Returns what the first took, and what those after them did.
fn acts(
    rt: &impl Abort,
    alloc: Global,
    count: u8,
    seed: u64,
    commits: Each<u64>,
    under_way: Each<u8>,
    bound: u64,
) -> [Took; 2] {
    let members = Members::new(count).expect(rt, "three to seven members");
    let found = play(alloc, members, seed, commits, under_way);
    for found in found {
        check!(rt; found.is_level && found.leaders == 1 && found.ballots == 1, (seed, found));
    }
    let first = took_of(found[0]);
    let took = took_of(found[1]).since(first);
    check!(rt; took.micros <= bound, (seed, took));
    [first, took]
}

// Clients act at this many nodes in each of these schedules, where a commit takes this long at each node.
fn acts_at(rt: &impl Abort, alloc: Global, count: u8, commit: u64, seeds: u64) {
    let loads = if count == 3 { LOADS } else { LOADS_OF_MORE };
    for load in loads {
        let (under_way, quarters) = *load;
        let bound = bound_of(count, commit, quarters);
        let mut first = NOTHING;
        let mut all = NOTHING;
        for seed in 0..seeds {
            let most = bound.saturating_mul(2).saturating_add(STILL);
            let [began, took] = acts(rt, alloc, count, seed, [commit; 7], under_way, most);
            check!(rt; took.repeats_at_most(1, 2), (seed, took));
            first = first.and(began);
            all = all.and(took);
        }
        let entries = u64::from(count.saturating_add(FIRST));
        let start = commit
            .saturating_mul(entries.saturating_mul(2).saturating_add(COMMITS_MORE))
            .saturating_add(STARTING);
        check!(rt; first.micros <= start.saturating_mul(seeds), (*load, first));
        check!(rt; all.micros <= bound.saturating_mul(seeds), (*load, all));
        check!(rt; all.repeats_at_most(1, 10), (*load, all));
    }
}

#[test]
fn clients_act_where_a_commit_takes_a_tenth_of_a_millisecond(rt: HostRuntime) {
    acts_at(&rt, rt.alloc(), 3, 100, 100);
}

#[test]
fn clients_act_where_a_commit_takes_3_milliseconds(rt: HostRuntime) {
    acts_at(&rt, rt.alloc(), 3, 3_000, 100);
}

#[test]
fn clients_act_where_a_commit_takes_10_milliseconds(rt: HostRuntime) {
    acts_at(&rt, rt.alloc(), 3, 10_000, 100);
}

#[test]
fn clients_act_where_a_commit_takes_50_milliseconds(rt: HostRuntime) {
    acts_at(&rt, rt.alloc(), 3, 50_000, 100);
}

#[test]
fn clients_act_at_five_nodes_where_a_commit_takes_a_tenth_of_a_millisecond(rt: HostRuntime) {
    acts_at(&rt, rt.alloc(), 5, 100, 30);
}

#[test]
fn clients_act_at_five_nodes_where_a_commit_takes_10_milliseconds(rt: HostRuntime) {
    acts_at(&rt, rt.alloc(), 5, 10_000, 30);
}

#[test]
fn clients_act_at_seven_nodes_where_a_commit_takes_a_tenth_of_a_millisecond(rt: HostRuntime) {
    acts_at(&rt, rt.alloc(), 7, 100, 30);
}

#[test]
fn clients_act_at_seven_nodes_where_a_commit_takes_10_milliseconds(rt: HostRuntime) {
    acts_at(&rt, rt.alloc(), 7, 10_000, 30);
}

// Clients act in each of these schedules, where commits take longer at one node than at another: the slowest sets the pace. A leader goes by
// its own commits, so it sends more again if both others are slower than it is.
fn acts_at_each(rt: &impl Abort, alloc: Global, first: u64, last: u64) {
    for seed in first..last {
        let commits = commits_of(seed, 3);
        let [own, second, third, _, _, _, _] = commits;
        for load in LOADS {
            let (under_way, quarters) = *load;
            let bound = bound_of(3, own.max(second).max(third), quarters);
            let most = bound.saturating_mul(2).saturating_add(STILL);
            let [_, took] = acts(rt, alloc, 3, seed, commits, under_way, most);
            if own >= second.min(third) {
                check!(rt; took.repeats_at_most(1, 2), (seed, took));
            }
        }
    }
}

#[test]
fn clients_act_where_commits_take_longer_at_some_nodes(rt: HostRuntime) {
    acts_at_each(&rt, rt.alloc(), 0, 50);
}

#[test]
fn clients_act_where_commits_take_longer_at_some_nodes_under_50_schedules_more(rt: HostRuntime) {
    acts_at_each(&rt, rt.alloc(), 50, 100);
}
