// A node of a simulated cluster with its time: its ticks, when its beats are due, and the packets that wait. Times are in microseconds.
use crate::draws::Draws;
use crate::looks::{Came, Looks, no_packets};
use crate::voter::{Cost, Log, NO_BALLOT, Packet, Role, Says, Voter};
use paxos_packets::{Ballot, Members};
use serve_policy::{Admission, Commits, Draining, Due, Sign, Ticks, Turn};
use std::alloc::Global;
use std::collections::VecDeque;
use std::mem;

// How long a beat is, and how much earlier it counts as ended.
const BEAT: u64 = 2000;

const NEAR: u64 = 500;

// How many beats are due at once at the most, and while nothing is pending.
const BEATS_AT_ONCE: u64 = 5;

// After how many rounds each a node that does not rest looks at the clock.
const ROUNDS_A_LOOK: u64 = 64;

// How many events a round has at the most.
pub const EVENTS_A_ROUND: u8 = 64;

// One commit of this many takes ten times as long as the others.
const COMMITS_A_STALL: u64 = 100;

// How long the events of this schedule take that take long.
#[derive(Clone, Copy)]
pub struct Costs {
    // A takeover takes half as long at the least.
    pub takeover: u64,
    // A vote for an old entry likewise.
    pub vote: u64,
    // How many entries a slot of the history stands for, by what a node counts of a takeover.
    pub entries: u32,
}

// A node. What is kept by node has it at its number.
#[derive(Drop)]
pub struct Node {
    pub voter: Voter,
    ticks: Ticks,
    waits: [VecDeque<Packet>; 8],
    // The packets of each other that it may fetch, where it looks for some, and those that the last look found and that are not treated yet.
    pub boxes: [VecDeque<Packet>; 8],
    looks: Looks,
    batch: VecDeque<Packet>,
    // The packets that came in this round, and to whom some were posted.
    came: Vec<Came>,
    posted: [bool; 8],
    // How long its log was after the round that was counted last, and what it had promised.
    log: u8,
    promised: Ballot,
    draining: [Draining; 8],
    may_tick: bool,
    admission: Admission,
    // How long a commit takes here, 0 if rounds are not timed; and how long its rounds have shown that one takes.
    pub commit: u64,
    commits: Commits,
    // How many rounds it has begun, when the last one, how many commits that one had, and whether the node is amid it: its own events are made,
    // and packets, its commit and posts are left. And whether something that its events changed is to be committed.
    rounds: u64,
    began: u64,
    made: u32,
    pub is_amid: bool,
    must_commit: bool,
    // Since when no beat is counted, how many were by the clock, how many the ticks have counted since, and how many are due.
    last: u64,
    beat: u64,
    counted: u64,
    due: u64,
    // When it goes on, whether it rests until then, and until when it stands still.
    pub at: u64,
    pub is_resting: bool,
    pub still: u64,
}

impl Node {
    // A node that starts at this time, in the first boot of its run or a later one.
    pub fn new(
        alloc: Global,
        members: Members,
        voter: Voter,
        commit: u64,
        at: u64,
        is_first: bool,
    ) -> Node {
        Node {
            ticks: Ticks::new(voter.me, members, is_first),
            voter,
            waits: no_packets(alloc),
            boxes: no_packets(alloc),
            looks: Looks::new(),
            batch: VecDeque::new(alloc),
            came: Vec::new(alloc),
            posted: [false; 8],
            log: 0,
            promised: NO_BALLOT,
            draining: [Draining::new(); 8],
            may_tick: true,
            admission: Admission::new(),
            commit,
            commits: Commits::new(),
            rounds: 0,
            began: at,
            made: 0,
            is_amid: false,
            must_commit: false,
            last: 0,
            beat: 0,
            counted: 0,
            due: 0,
            at,
            is_resting: false,
            still: 0,
        }
    }

    // A turn, after which the log had this length.
    fn turn(&self, from: Option<u8>, sign: Sign, log: u8) -> Turn {
        Turn {
            from,
            sign,
            applied: u64::from(log).saturating_mul(64),
            is_pending: self.voter.is_pending(),
            beats: self.due,
        }
    }

    // A turn without a packet.
    fn quiet_turn(&self) -> Turn {
        self.turn(None, Sign::Nothing, self.voter.applied)
    }

    // A turn is counted.
    fn count(&mut self, turn: Turn) {
        if self.ticks.count(turn) {
            self.counted = self.counted.saturating_add(self.due);
            self.due = 0;
        }
    }

    // How many beats make some due.
    fn wanted(&self, beat: u64) -> u64 {
        if self.voter.is_pending() {
            1
        } else {
            BEATS_AT_ONCE - beat % BEATS_AT_ONCE
        }
    }

    // From now on the last beat that was counted is this number of beats later.
    fn go_on(&mut self, beats: u64) {
        self.last = self.last.saturating_add(beats.saturating_mul(BEAT));
        self.beat = self.beat.saturating_add(beats);
    }

    // It looks at the clock. Time in which it stood still is not counted.
    fn look(&mut self, now: u64) {
        self.go_on(self.counted);
        self.counted = 0;
        let ended = now.saturating_sub(self.last).saturating_add(NEAR) / BEAT;
        if ended >= self.wanted(self.beat) {
            self.go_on(ended.saturating_sub(BEATS_AT_ONCE));
            self.due = ended.min(BEATS_AT_ONCE);
        }
    }

    // It notes how long the commits of the last round took, if rounds are timed.
    fn note_commits(&mut self, now: u64) {
        let took = if self.commit > 0 {
            now.saturating_sub(self.began)
        } else {
            0
        };
        self.commits
            .note(u32::try_from(took).unwrap_or(u32::MAX), self.made);
        self.made = 0;
        self.began = now;
    }

    // How long a commit takes that it makes now.
    fn draw_commit(&mut self, draws: &mut Draws) -> u64 {
        self.made = self.made.saturating_add(1);
        if self.commit == 0 {
            return draws.below(3000).saturating_add(200);
        }
        let micros = (self.commit / 2).saturating_add(draws.below(self.commit.saturating_add(1)));
        if draws.is_one_in(COMMITS_A_STALL) {
            micros.saturating_mul(10)
        } else {
            micros
        }
    }

    // The acts of the last round are over.
    fn begin_acts(&mut self) {
        let leads = self.voter.role == Role::Leading;
        let pending = usize::from(self.voter.pending());
        self.admission.begin(leads, pending);
    }

    // Whether a packet of the last round reported an entry that the log has gained in it.
    fn is_news(&self, packet: Packet) -> bool {
        let Says::Learned { slot } = packet.says else {
            return false;
        };
        self.log <= slot && slot < self.voter.applied
    }

    // How many packets of the last round did.
    fn told(&self) -> u8 {
        let mut told: u8 = 0;
        for came in &self.came {
            if self.is_news(came.packet) {
                told = told.saturating_add(1);
            }
        }
        told
    }

    // A packet of the last round is counted, after which the log had this length. Of several that prepare the ballot that the node has promised
    // in the round the first one brought the promise.
    fn count_packet(&mut self, came: Came, log: u8, entries: u32) {
        let sign = self.voter.sign_of(came.packet, self.promised, entries);
        if matches!(sign, Sign::Prepared { .. }) {
            self.promised = self.voter.promised;
        }
        let turn = self.turn(Some(came.from), sign, log);
        self.count(turn);
    }

    // The packets of the last round are counted one by one, as turns. The log grew by one slot at each that reported one of those that it has
    // gained, and else at the first one.
    fn count_packets(&mut self, entries: u32) {
        let applied = self.voter.applied;
        let mut log = applied.saturating_sub(self.told()).max(self.log);
        for at in 0..self.came.len() {
            let Some(came) = self.came.get(at).copied() else {
                break;
            };
            if self.is_news(came.packet) {
                log = log.saturating_add(1);
            }
            self.count_packet(came, log.min(applied), entries);
        }
    }

    // The last round is counted as the feed of a served node does: a round in which no packet came is a turn without a packet.
    fn count_round(&mut self, entries: u32) {
        if self.came.is_empty() {
            let turn = self.quiet_turn();
            self.count(turn);
        } else {
            self.count_packets(entries);
        }
        self.came.clear();
        self.log = self.voter.applied;
        self.promised = self.voter.promised;
    }

    // Whether a tick may come, by what waits for the others and was posted to them.
    fn watch(&mut self, weight: usize) {
        let beat = self.ticks.beats();
        let commit = self.commits.beats();
        let mut drains = false;
        for ((draining, waits), posted) in self
            .draining
            .iter_mut()
            .zip(self.waits.iter())
            .zip(self.posted)
        {
            let waiting = waits.len().saturating_mul(weight);
            drains = draining.holds(beat, waiting, posted, commit) || drains;
        }
        self.may_tick = !drains;
        self.posted = [false; 8];
    }

    // A round begins: the last one is counted. A packet stands for so many, and a slot of the history for so many entries.
    pub fn begin(&mut self, now: u64, weight: usize, entries: u32) {
        self.note_commits(now);
        self.begin_acts();
        self.rounds = self.rounds.saturating_add(1);
        if self.due == 0 && self.rounds % ROUNDS_A_LOOK == 0 {
            self.look(now);
        }
        self.count_round(entries);
        self.watch(weight);
        self.looks.begin(self.voter.count);
    }

    // What time has brought; how long it took, if it brought anything; and whether a ballot was begun.
    pub fn make_events(
        &mut self,
        draws: &mut Draws,
        log: &mut Log,
        asks: bool,
    ) -> (Option<u64>, bool) {
        let mut cost: Option<u64> = None;
        let mut starts = false;
        for _ in 0..EVENTS_A_ROUND {
            match self.ticks.next(self.may_tick, self.commits.beats()) {
                None => break,
                Some(Due::Start) => {
                    starts = true;
                    self.voter.start();
                    let micros = self.draw_cost(draws, Cost::Commit, 40);
                    cost = Some(cost.unwrap_or(0).saturating_add(micros));
                },
                Some(Due::Tick) => {
                    self.voter.tick(asks);
                    let pushed = self.voter.push_to(log);
                    let micros = self.draw_cost(draws, pushed, 40);
                    cost = Some(cost.unwrap_or(0).saturating_add(micros));
                },
                Some(Due::Suspect(_)) => {},
            }
        }
        (cost, starts)
    }

    // Whether the rules have room for an act of a client.
    pub fn may_act(&self) -> bool {
        self.admission.has_room()
    }

    // A client acts. How long it took.
    pub fn act(&mut self, draws: &mut Draws, log: &mut Log) -> u64 {
        self.admission.give();
        let cost = self.voter.take(log);
        self.draw_cost(draws, cost, 95)
    }

    // How long an event takes before the commit of its round: not much more than this.
    fn draw_cost(&mut self, draws: &mut Draws, cost: Cost, little: u64) -> u64 {
        self.must_commit = self.must_commit || cost != Cost::Little;
        draws.below(little).saturating_add(5)
    }

    // Commits together what the events of the round changed: how long that takes, if they changed something.
    pub fn commit(&mut self, draws: &mut Draws) -> Option<u64> {
        if !self.must_commit {
            return None;
        }
        self.must_commit = false;
        Some(self.draw_commit(draws))
    }

    // What the node sent waits for the others, at most a limited number of packets for each.
    pub fn sort(&mut self, most: usize) {
        let (me, count) = (self.voter.me, self.voter.count);
        for (to, packet) in self.voter.posts.drain(..) {
            for (node, waits) in (0u8..8).zip(self.waits.iter_mut()) {
                if node == to || to == 0 && node != 0 && node != me && node <= count {
                    if waits.len() >= most {
                        let _oldest = waits.pop_front();
                    }
                    let _is_put = waits.push_back(packet).is_ok();
                }
            }
        }
    }

    // How many packets wait for the node.
    pub fn waiting_for(&self, to: u8) -> usize {
        match self.waits.get(usize::from(to)) {
            Some(waits) => waits.len(),
            None => 0,
        }
    }

    // Takes the oldest packet that waits for the node, which is posted now together with so many after it. A Forward gives way to a later one
    // among those, which has its entries that are still pending.
    pub fn take(&mut self, to: u8, more: usize) -> Option<Packet> {
        if let Some(posted) = self.posted.get_mut(usize::from(to)) {
            *posted = true;
        }
        let waits = self.waits.get_mut(usize::from(to))?;
        let packet = waits.pop_front()?;
        if is_forward(&packet) && waits.iter().take(more).any(is_forward) {
            return None;
        }
        Some(packet)
    }

    // Whether packets of the node came in this round.
    pub fn heard_of(&self, from: u8) -> bool {
        self.came.iter().any(|came| came.from == from)
    }

    // Takes the packets out of the box into which it looks now.
    fn look_into_box(&mut self) {
        if let Some(packets) = self.boxes.get_mut(usize::from(self.looks.now)) {
            mem::swap(packets, &mut self.batch);
        }
    }

    // Fetches the next packet of the round, of those that the last look found or of those that another one finds. It looks into each node's box
    // until nothing is in it, or so many packets of that node came.
    fn fetch(&mut self, most: usize) -> Option<Packet> {
        for _ in 0..self.looks.left {
            if self.batch.is_empty() && self.looks.came < most {
                self.look_into_box();
            }
            if let Some(packet) = self.batch.pop_front() {
                return Some(packet);
            }
            self.looks.go_on(self.voter.count);
        }
        None
    }

    // Treats the next packet of the round, if there is one: how long it took before the round's commit.
    pub fn treat(
        &mut self,
        draws: &mut Draws,
        log: &mut Log,
        costs: Costs,
        most: usize,
    ) -> Option<u64> {
        let packet = self.fetch(most)?;
        let from = self.looks.now;
        self.looks.came = self.looks.came.saturating_add(1);
        let _is_put = self.came.push(Came { from, packet }).is_ok();
        let cost = self.voter.treat(log, from, packet);
        let micros = self.draw_cost(draws, cost, 60);
        let more: u64 = match cost {
            Cost::Little | Cost::Commit => 0,
            Cost::Vote => self.draw_votes(draws, costs.vote),
            Cost::Takeover => draw_half(draws, costs.takeover),
        };
        Some(micros.saturating_add(more))
    }

    // How long the votes take for which a slot of the history stands, with the commits of the rounds in which they come.
    fn draw_votes(&mut self, draws: &mut Draws, vote: u64) -> u64 {
        let micros = draw_half(draws, vote);
        let commits = micros / self.commit.max(1);
        self.made = self
            .made
            .saturating_add(u32::try_from(commits).unwrap_or(u32::MAX));
        micros
    }

    // Turns without a packet, while beats are due: mostly as many as end them. Otherwise it rests until some are.
    pub fn rest(&mut self, draws: &mut Draws, now: u64, cost: u64) {
        if self.due == 0 {
            self.look(now);
            self.at = now.saturating_add(cost);
        }
        if self.due > 0 {
            self.pass_turns(draws);
            self.at = now.saturating_add(cost).saturating_add(64);
            return;
        }
        let beats = self.wanted(self.beat);
        let late = if draws.is_one_in(16) {
            draws.micros_to(15)
        } else {
            draws.below(100)
        };
        let due = self.last.saturating_add(beats.saturating_mul(BEAT));
        self.at = due.max(now).saturating_add(late).saturating_add(1);
        self.is_resting = true;
    }

    fn pass_turns(&mut self, draws: &mut Draws) {
        let turns = if draws.is_one_in(8) {
            draws.below(64).saturating_add(1)
        } else {
            64
        };
        let turn = self.quiet_turn();
        for _ in 0..turns {
            if self.due == 0 {
                return;
            }
            self.count(turn);
        }
    }
}

// A time up to this one, and at least half of it.
fn draw_half(draws: &mut Draws, micros: u64) -> u64 {
    (micros / 2).saturating_add(draws.below((micros / 2).saturating_add(1)))
}

fn is_forward(packet: &Packet) -> bool {
    matches!(packet.says, Says::Forward { .. })
}
