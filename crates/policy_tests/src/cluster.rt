// Three to seven nodes that play a schedule: how long each round takes, when a node stands still or starts anew, which packets are lost, and when
// clients act. Times are in microseconds.
mod posting;

use crate::draws::Draws;
use crate::looks::packets_together;
use crate::timed::{Costs, EVENTS_A_ROUND, Node};
use crate::voter::{Accepts, Log, Role, Voter, empty_log, majority_of};
use paxos_packets::{Ballot, Members};
use std::alloc::Global;

// For how long nothing may change once one node leads, beside two takeovers: its own, and the votes for what it proposes. That is longer than
// the longest patience: a node whose entries wait, and whose own ballot was refused, begins another one until then.
const STRETCH: u64 = 12_000_000;

// How long before the end of that clients act last.
const BEFORE_THE_END: u64 = 8_000_000;

// What was found of a schedule.
#[derive(Clone, Copy, Debug, PartialEq, Eq)]
pub struct Found {
    // After how many microseconds without a disturbance the last ballot was begun, or a node has ceased to lead.
    pub settled: u64,
    // How many nodes lead, whose ballot a majority has promised.
    pub leaders: u8,
    // Whether all entries are applied at each node.
    pub is_level: bool,
    // How many ballots were begun.
    pub ballots: u64,
    // When the play ended, and what the nodes had sent then, each since its last start.
    pub ended: u64,
    pub accepts: Accepts,
}

// What stays the same in a schedule.
#[derive(Clone, Copy)]
pub struct Schedule {
    pub costs: Costs,
    // How many packets stand for one.
    pub weight: usize,
    // Each how many packets one is lost before it is calm; 0 for none.
    pub loss: u64,
    // From when on it is calm.
    pub calm: u64,
    // One round of this many takes long.
    pub rounds_a_stall: u64,
}

// What clients do.
#[derive(Clone, Copy)]
pub struct Clients {
    // How many acts are left.
    pub acts: u8,
    // In how many rounds of a million one acts.
    pub load: u64,
    // How many acts each node has under way, if clients act at it as fast as they can; else 0.
    pub under_way: [u8; 7],
}

#[derive(Drop)]
pub struct Cluster {
    nodes: Vec<Node>,
    members: Members,
    log: Log,
    draws: Draws,
    schedule: Schedule,
    clients: Clients,
    // How many packets wait at the most, and how many a box holds.
    most: usize,
    together: usize,
    now: u64,
    disturbed: u64,
    // When a ballot was begun, or a node ceased to lead; and how many ballots were begun.
    changed: u64,
    ballots: u64,
}

// The place of a node.
fn place(node: u8) -> usize {
    usize::from(node).wrapping_sub(1)
}

impl Cluster {
    // Nodes before the first round, all of the members.
    pub fn new(
        nodes: Vec<Node>,
        members: Members,
        draws: Draws,
        schedule: Schedule,
        clients: Clients,
    ) -> Cluster {
        Cluster {
            nodes,
            members,
            log: empty_log(),
            draws,
            most: 4096 / schedule.weight.max(1),
            together: packets_together(schedule.weight),
            schedule,
            clients,
            now: 0,
            disturbed: 0,
            changed: 0,
            ballots: 0,
        }
    }

    // The node that goes on next, and when it does.
    fn next(&self) -> (u8, u64) {
        let mut next = (1, u64::MAX);
        for (node, with) in (1u8..8).zip(self.nodes.iter()) {
            let at = with.at.max(with.still);
            if at < next.1 {
                next = (node, at);
            }
        }
        next
    }

    // Something was put where the node looks for it.
    fn wake(&mut self, node: u8) {
        let soon = self
            .now
            .saturating_add(10)
            .saturating_add(self.draws.below(60));
        let late = if self.draws.is_one_in(64) {
            self.draws.micros_to(17)
        } else {
            0
        };
        if let Some(node) = self.nodes.get_mut(place(node))
            && node.is_resting
        {
            node.is_resting = false;
            node.at = node.at.min(soon.saturating_add(late));
        }
    }

    // Whether a node lacks an entry: an Ask brings nothing otherwise, and is left out.
    fn asks(&self) -> bool {
        let first = match self.nodes.first() {
            Some(node) => node.voter.applied,
            None => 0,
        };
        self.nodes.iter().any(|node| node.voter.applied != first)
    }

    // Whether a node leads.
    fn leads(&self, node: u8) -> bool {
        self.nodes
            .get(place(node))
            .is_some_and(|node| node.voter.role == Role::Leading)
    }

    // Since when nothing has changed.
    fn since(&self) -> u64 {
        self.changed.max(self.schedule.calm)
    }

    // When the schedule ends, if nothing changes until then.
    fn end(&self) -> u64 {
        self.since()
            .saturating_add(STRETCH)
            .saturating_add(self.schedule.costs.takeover.saturating_mul(2))
    }

    // Whether a client acts at a node now and then.
    fn draw_act(&mut self) -> bool {
        self.clients.acts > 0
            && self.clients.load > 0
            && self.now.saturating_add(BEFORE_THE_END) < self.end()
            && self.draws.below(1_000_000) < self.clients.load
    }

    // Whether a client acts at a node because fewer acts than may be are under way.
    fn acts_at_once(&self, me: u8) -> bool {
        let most = self.clients.under_way.get(place(me)).copied().unwrap_or(0);
        self.clients.acts > 0
            && self
                .nodes
                .get(place(me))
                .is_some_and(|node| node.voter.pending() < most)
    }

    // A client acts at a node, if the node lets it. How long that took.
    fn act(&mut self, me: u8) -> Option<u64> {
        let node = self.nodes.get_mut(place(me))?;
        if !node.may_act() {
            return None;
        }
        self.clients.acts = self.clients.acts.saturating_sub(1);
        Some(node.act(&mut self.draws, &mut self.log))
    }

    // What clients do in a round of a node: how long it takes, if they do anything.
    fn make_acts(&mut self, me: u8) -> Option<u64> {
        let mut cost = None;
        if self.draw_act() {
            cost = self.act(me);
        }
        for _ in 0..EVENTS_A_ROUND {
            if !self.acts_at_once(me) {
                break;
            }
            let Some(micros) = self.act(me) else {
                break;
            };
            cost = Some(cost.unwrap_or(0).saturating_add(micros));
        }
        cost
    }

    // What time brings as a round of a node begins: how long it takes, if anything comes.
    fn make_due(&mut self, me: u8) -> Option<u64> {
        let asks = self.asks();
        let node = self.nodes.get_mut(place(me))?;
        node.begin(self.now, self.schedule.weight, self.schedule.costs.entries);
        let (cost, starts) = node.make_events(&mut self.draws, &mut self.log, asks);
        if starts {
            self.changed = self.now;
            self.ballots = self.ballots.saturating_add(1);
        }
        cost
    }

    // A node's own events in a round that begins: how long they take, if there are any.
    fn make_own(&mut self, me: u8) -> Option<u64> {
        let due = self.make_due(me);
        let acts = self.make_acts(me);
        if due.is_none() && acts.is_none() {
            return None;
        }
        Some(due.unwrap_or(0).saturating_add(acts.unwrap_or(0)))
    }

    // What a node does next before the posts of its round, amid it or as it begins: its own events, or else a packet, or else its commit. How long
    // that takes, if there is anything.
    fn work(&mut self, me: u8, is_amid: bool) -> Option<u64> {
        if !is_amid && let Some(micros) = self.make_own(me) {
            return Some(micros);
        }
        if let Some(micros) = self.treat(me) {
            return Some(micros);
        }
        self.nodes.get_mut(place(me))?.commit(&mut self.draws)
    }

    // Goes on with the round of a node: its own events, then the packets that it finds, one by one, then one commit for all of these, and then its
    // posts. Each of these comes once the time is over that the one before takes.
    fn round(&mut self, me: u8) {
        let led = self.leads(me);
        let is_amid = self.is_amid(me);
        match self.work(me, is_amid) {
            Some(micros) => self.put_off(me, micros),
            None => self.end_round(me, is_amid),
        }
        if led && !self.leads(me) {
            self.changed = self.now;
        }
    }

    // Whether a node is amid a round.
    fn is_amid(&self, me: u8) -> bool {
        self.nodes.get(place(me)).is_some_and(|node| node.is_amid)
    }

    // The node goes on with its round this much later.
    fn put_off(&mut self, me: u8, micros: u64) {
        if let Some(node) = self.nodes.get_mut(place(me)) {
            node.is_amid = true;
            node.is_resting = false;
            node.at = self.now.saturating_add(micros);
        }
    }

    // Treats the next packet of a node's round: how long it takes, if there is one.
    fn treat(&mut self, me: u8) -> Option<u64> {
        let node = self.nodes.get_mut(place(me))?;
        node.treat(
            &mut self.draws,
            &mut self.log,
            self.schedule.costs,
            self.together,
        )
    }

    // How long a round takes in which nothing happens.
    fn draw_round(&mut self) -> u64 {
        if self.draws.is_one_in(self.schedule.rounds_a_stall) {
            self.draws.micros_to(18)
        } else {
            self.draws.below(60).saturating_add(1)
        }
    }

    // The round of a node ends with its posts. Then it rests, if it is not busy and posted nothing.
    fn end_round(&mut self, me: u8, is_busy: bool) {
        if let Some(node) = self.nodes.get_mut(place(me)) {
            node.sort(self.most);
        }
        let is_idle = !self.post_all(me) && !is_busy;
        let cost = self.draw_round();
        if let Some(node) = self.nodes.get_mut(place(me)) {
            node.is_resting = false;
            node.is_amid = false;
            if is_idle {
                node.rest(&mut self.draws, self.now, cost);
            } else {
                node.at = self.now.saturating_add(cost);
            }
        }
    }

    // A node stands still, or starts anew, before it is calm.
    fn disturb(&mut self, alloc: Global) {
        let (now, calm, members) = (self.now, self.schedule.calm, self.members);
        self.disturbed = now.saturating_add(self.draws.below(3_000_000).saturating_add(1));
        let anew = self.draws.is_one_in(6);
        let is_first = self.draws.is_one_in(2);
        let most = if self.draws.is_one_in(4) {
            12_000_000
        } else {
            1_500_000
        };
        let still = now.saturating_add(self.draws.below(most)).min(calm);
        let at = self.draws.pick(members.count());
        let Some(node) = self.nodes.get_mut(usize::from(at)) else {
            return;
        };
        if !anew {
            node.still = node.still.max(still);
            return;
        }
        let voter = &node.voter;
        if voter.role == Role::Leading {
            self.changed = now;
        }
        let voter = Voter::new(
            voter.me,
            voter.count,
            voter.history,
            voter.promised,
            voter.votes,
            voter.taken,
            Vec::new(alloc),
        );
        *node = Node::new(alloc, members, voter, node.commit, now, is_first);
    }

    // Plays the schedule until nothing has changed for long, or until this long after the last disturbance.
    pub fn play(&mut self, alloc: Global, longest: u64) -> Found {
        for _ in 0..u64::MAX {
            let (node, at) = self.next();
            if self.disturbed < at && self.disturbed < self.schedule.calm {
                self.now = self.now.max(self.disturbed);
                self.disturb(alloc);
                continue;
            }
            self.now = self.now.max(at);
            if self.now > self.end() || self.now > self.schedule.calm.saturating_add(longest) {
                break;
            }
            self.round(node);
        }
        self.found()
    }

    // Plays until a ballot is begun, for this long at the most. Returns whose it is.
    pub fn play_to_ballot(&mut self, longest: u64) -> Option<u8> {
        let (ballots, end) = (self.ballots, self.now.saturating_add(longest));
        for _ in 0..u64::MAX {
            let (node, at) = self.next();
            if at > end {
                return None;
            }
            self.now = self.now.max(at);
            self.round(node);
            if self.ballots != ballots {
                return Some(node);
            }
        }
        None
    }

    // Plays until the node has ended its round, in which it posts what waits. Then it stands still for good.
    pub fn halt(&mut self, node: u8) {
        for _ in 0..u64::MAX {
            let (next, at) = self.next();
            self.now = self.now.max(at);
            self.round(next);
            if next == node && !self.is_amid(node) {
                break;
            }
        }
        if let Some(node) = self.nodes.get_mut(place(node)) {
            node.still = u64::MAX;
        }
    }

    // From now on clients do this many acts more, this many at a time at each node.
    pub fn act_on(&mut self, acts: u8, under_way: [u8; 7]) {
        self.clients.acts = acts;
        self.clients.under_way = under_way;
    }

    // Plays the schedule until all acts are done, and their entries applied at each node, or for this long.
    pub fn play_acts(&mut self, longest: u64) -> Found {
        for _ in 0..u64::MAX {
            let (node, at) = self.next();
            self.now = self.now.max(at);
            if self.now > longest || self.clients.acts == 0 && self.found().is_level {
                break;
            }
            self.round(node);
        }
        self.found()
    }

    // Whether a majority has promised this ballot.
    fn is_promised(&self, ballot: Ballot) -> bool {
        let mut count: u8 = 0;
        for node in &self.nodes {
            if node.voter.promised == ballot {
                count = count.saturating_add(1);
            }
        }
        count >= majority_of(self.members.count())
    }

    fn found(&self) -> Found {
        let mut leaders: u8 = 0;
        let mut is_level = !self.asks();
        let mut accepts = Accepts { sent: 0, again: 0 };
        for node in &self.nodes {
            accepts.sent = accepts.sent.saturating_add(node.voter.accepts.sent);
            accepts.again = accepts.again.saturating_add(node.voter.accepts.again);
            if node.voter.role == Role::Leading && self.is_promised(node.voter.ballot) {
                leaders = leaders.saturating_add(1);
            }
            is_level = is_level && !node.voter.is_pending();
        }
        Found {
            settled: self.changed.saturating_sub(self.schedule.calm),
            leaders,
            is_level,
            ballots: self.ballots,
            ended: self.now,
            accepts,
        }
    }
}
