// Schedules that are drawn from seeds.
use crate::cluster::{Clients, Cluster, Schedule};
use crate::draws::Draws;
use crate::timed::{Costs, Node};
use crate::voter::{NO_BALLOT, Voter, bit, majority_of};
use paxos_packets::{Ballot, Members};
use std::alloc::Global;

// How long a commit takes at a node where they are slow.
const COMMITS: [u64; 4] = [100, 3_000, 10_000, 50_000];

// How many acts a node has under way where clients act as fast as they can.
const UNDER_WAY: [u8; 4] = [1, 4, 12, 30];

// How long a takeover takes at the most, in this schedule.
const TAKEOVERS: [u64; 5] = [1_000, 50_000, 300_000, 1_000_000, 3_000_000];

// What holds for each node of a schedule, by place; there are at most seven.
pub type Each<T> = [T; 7];

// How many microseconds an entry of the history takes: where nothing else runs it is 20, and each is waited for as if it were 62.
const ENTRIES: [u64; 4] = [10, 20, 60, 200];

// How many slots a long history has.
pub const LONG_HISTORY: u8 = 4;

// How long the votes for the entries of a long history take that a slot of it stands for: they come one by one, so no other is waited for.
const LONG_VOTE: u64 = 100_000;

// A promise of an earlier boot, or none.
fn draw_promise(draws: &mut Draws, count: u8) -> Ballot {
    if draws.is_one_in(3) {
        return NO_BALLOT;
    }
    let rounds = if draws.is_one_in(2) { 4 } else { 1000 };
    let node = draws.pick(count).saturating_add(1);
    Ballot {
        round: draws.below(rounds).saturating_add(1),
        node,
    }
}

// What the nodes have promised: the owner of a ballot has promised it, or a greater one.
fn draw_promises(draws: &mut Draws, count: u8) -> Each<Ballot> {
    let mut drawn = [NO_BALLOT; 7];
    for promise in drawn.iter_mut().take(usize::from(count)) {
        *promise = draw_promise(draws, count);
    }
    let mut promises = drawn;
    for (node, promise) in (1u8..8).zip(promises.iter_mut()) {
        for other in drawn {
            if other.node == node {
                *promise = (*promise).max(other);
            }
        }
    }
    promises
}

// The places of some nodes, as bits, that leave a majority of the others.
fn draw_minority(draws: &mut Draws, count: u8) -> u64 {
    let mut places: u64 = 0;
    for _ in majority_of(count)..count {
        places |= bit(draws.pick(count));
    }
    places
}

// Which slots each node has voted for, of this number: for each slot a majority has.
fn draw_votes(draws: &mut Draws, count: u8, slots: u8) -> Each<u64> {
    let mut votes: Each<u64> = [0; 7];
    for slot in 0..slots {
        let left_out = draw_minority(draws, count);
        for (place, voted) in (0u8..7).zip(votes.iter_mut()) {
            if left_out & bit(place) == 0 {
                *voted |= bit(slot);
            }
        }
    }
    votes
}

// A node with what it has promised and voted for, that starts within two seconds.
fn draw_node(
    alloc: Global,
    draws: &mut Draws,
    members: Members,
    voter: Voter,
    commit: u64,
) -> Node {
    let at = draws.below(3).saturating_mul(draws.below(1_000_000));
    Node::new(alloc, members, voter, commit, at, true)
}

// What a node has that filled slots of a history: whoever voted has promised a ballot.
fn voter_of(alloc: Global, me: u8, count: u8, history: u8, promised: Ballot, votes: u64) -> Voter {
    let promised = if votes == 0 {
        promised
    } else {
        promised.max(Ballot { round: 1, node: 1 })
    };
    Voter::new(me, count, history, promised, votes, 0, Vec::new(alloc))
}

// How many packets stand for one: a power of two, up to 128.
fn draw_weight(draws: &mut Draws) -> usize {
    let weights: [usize; 8] = [1, 2, 4, 8, 16, 32, 64, 128];
    let drawn = usize::try_from(draws.below(8)).unwrap_or(0);
    weights.get(drawn).copied().unwrap_or(1)
}

// How many entries a slot stands for, if all of these take so long together and each takes one of the times above.
fn draw_entries(draws: &mut Draws, slots: u64, takeover: u64) -> u32 {
    let drawn = usize::try_from(draws.below(4)).unwrap_or(0);
    let micros = ENTRIES.get(drawn).copied().unwrap_or(20);
    u32::try_from(takeover / micros / slots.max(1)).unwrap_or(u32::MAX)
}

// The schedule of a seed, in which a commit takes 0.2 to 3.2 milliseconds and is not timed.
pub fn draw_cluster(alloc: Global, members: Members, seed: u64) -> Cluster {
    draw_with(alloc, members, Draws::new(seed), [0; 7], [0; 7])
}

// One of these times.
fn draw_commit(draws: &mut Draws) -> u64 {
    let drawn = usize::try_from(draws.below(4)).unwrap_or(0);
    COMMITS.get(drawn).copied().unwrap_or(100)
}

// How long a commit takes at each node: each time drawn by itself.
fn draw_commits(draws: &mut Draws, count: u8) -> Each<u64> {
    let mut commits: Each<u64> = [0; 7];
    for commit in commits.iter_mut().take(usize::from(count)) {
        *commit = draw_commit(draws);
    }
    commits
}

fn draw_under_way(draws: &mut Draws) -> u8 {
    let drawn = usize::try_from(draws.below(4)).unwrap_or(0);
    UNDER_WAY.get(drawn).copied().unwrap_or(1)
}

// How many acts each node has under way: each number drawn by itself.
fn draw_loads(draws: &mut Draws, count: u8) -> Each<u8> {
    let mut under_way: Each<u8> = [0; 7];
    for acts in under_way.iter_mut().take(usize::from(count)) {
        *acts = draw_under_way(draws);
    }
    under_way
}

// The schedule of a seed with slow commits, in every other one as slow at each node. In every other one clients act as fast as they can.
pub fn draw_slow(alloc: Global, members: Members, seed: u64) -> Cluster {
    let mut draws = Draws::new(seed);
    let count = members.count();
    let commits = if draws.is_one_in(2) {
        [draw_commit(&mut draws); 7]
    } else {
        draw_commits(&mut draws, count)
    };
    let under_way = if draws.is_one_in(2) {
        [0; 7]
    } else {
        draw_loads(&mut draws, count)
    };
    draw_with(alloc, members, draws, commits, under_way)
}

fn draw_nodes(
    alloc: Global,
    draws: &mut Draws,
    members: Members,
    history: u8,
    commits: Each<u64>,
    promises: Each<Ballot>,
) -> Vec<Node> {
    let count = members.count();
    let mut nodes = Vec::new(alloc);
    let votes = draw_votes(draws, count, history);
    for (((me, voted), promised), commit) in (1u8..count.saturating_add(1))
        .zip(votes)
        .zip(promises)
        .zip(commits)
    {
        let voter = voter_of(alloc, me, count, history, promised, voted);
        let node = draw_node(alloc, draws, members, voter, commit);
        let _is_put = nodes.push(node).is_ok();
    }
    nodes
}

fn draw_with(
    alloc: Global,
    members: Members,
    drawn: Draws,
    commits: Each<u64>,
    under_way: Each<u8>,
) -> Cluster {
    let mut draws = drawn;
    let promises = draw_promises(&mut draws, members.count());
    let slots = draws.below(8).saturating_add(1);
    let history = u8::try_from(slots).unwrap_or(1);
    let nodes = draw_nodes(alloc, &mut draws, members, history, commits, promises);
    let takeover = TAKEOVERS
        .get(usize::try_from(draws.below(5)).unwrap_or(0))
        .copied()
        .unwrap_or(0);
    let calm = draws.below(3).saturating_mul(draws.below(4_000_000));
    let schedule = Schedule {
        costs: Costs {
            takeover,
            vote: takeover / slots.max(1),
            entries: draw_entries(&mut draws, slots, takeover),
        },
        weight: draw_weight(&mut draws),
        loss: draws
            .below(2)
            .saturating_mul(draws.below(40).saturating_add(2)),
        calm,
        rounds_a_stall: 64,
    };
    let clients = Clients {
        acts: 30,
        load: draws.below(3).saturating_mul(draws.below(1000)),
        under_way,
    };
    Cluster::new(nodes, members, draws, schedule, clients)
}

// A node without a history, that starts within ten milliseconds.
fn draw_new(alloc: Global, draws: &mut Draws, members: Members, me: u8, commit: u64) -> Node {
    let voter = Voter::new(me, members.count(), 0, NO_BALLOT, 0, 0, Vec::new(alloc));
    Node::new(alloc, members, voter, commit, draws.below(10_000), true)
}

// The schedule of a seed without a history and without a disturbance, for nodes at which a commit takes so long. Clients do this number of
// acts, at each node one at a time.
pub fn draw_calm(
    alloc: Global,
    members: Members,
    seed: u64,
    commits: Each<u64>,
    acts: u8,
) -> Cluster {
    let mut draws = Draws::new(seed);
    let mut nodes = Vec::new(alloc);
    for (me, commit) in (1u8..members.count().saturating_add(1)).zip(commits) {
        let node = draw_new(alloc, &mut draws, members, me, commit);
        let _is_put = nodes.push(node).is_ok();
    }
    let schedule = Schedule {
        costs: Costs {
            takeover: 1_000,
            vote: 1_000,
            entries: 1,
        },
        weight: 1,
        loss: 0,
        calm: 0,
        rounds_a_stall: 4096,
    };
    let clients = Clients {
        acts,
        load: 0,
        under_way: [1; 7],
    };
    Cluster::new(nodes, members, draws, schedule, clients)
}

// The schedule of a seed with a long history, for which all nodes have voted, and without a disturbance. A takeover takes this long at the
// least, and twice as long at the most. A slot of the history stands for so many entries, by what a node counts of a takeover.
pub fn draw_long(
    alloc: Global,
    members: Members,
    seed: u64,
    takeover: u64,
    entries: u32,
) -> Cluster {
    let mut draws = Draws::new(seed);
    let count = members.count();
    let promises = draw_promises(&mut draws, count);
    let votes = bit(LONG_HISTORY).saturating_sub(1);
    let mut nodes = Vec::new(alloc);
    for (me, promised) in (1u8..count.saturating_add(1)).zip(promises) {
        let voter = voter_of(alloc, me, count, LONG_HISTORY, promised, votes);
        let node = draw_node(alloc, &mut draws, members, voter, 0);
        let _is_put = nodes.push(node).is_ok();
    }
    let schedule = Schedule {
        costs: Costs {
            takeover: takeover.saturating_mul(2),
            vote: LONG_VOTE,
            entries,
        },
        weight: 1,
        loss: 0,
        calm: 0,
        rounds_a_stall: 64,
    };
    let clients = Clients {
        acts: 0,
        load: 0,
        under_way: [0; 7],
    };
    Cluster::new(nodes, members, draws, schedule, clients)
}

// Times of commits for the nodes of a calm schedule, each drawn by itself from this seed.
pub fn commits_of(seed: u64, count: u8) -> Each<u64> {
    draw_commits(&mut Draws::new(seed), count)
}
