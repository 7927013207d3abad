// A node of a cluster whose log has at most 64 slots, without its time: what it promised, voted for, learned and applied, and what it sends.
mod signs;

use paxos_packets::Ballot;

// What a slot has, by the greatest ballot that proposed it: an entry of a node, with its number there; node 0 has none.
#[derive(Clone, Copy)]
pub struct Place {
    ballot: Ballot,
    node: u8,
    number: u8,
}

// The slots of the log, slot 0 first. A ballot never proposes another entry in a slot that is chosen, so one table serves all nodes.
pub type Log = [Place; 64];

pub const NO_BALLOT: Ballot = Ballot { round: 0, node: 0 };

// A log without entries.
pub fn empty_log() -> Log {
    [Place {
        ballot: NO_BALLOT,
        node: 0,
        number: 0,
    }; 64]
}

// What a packet says. A set of slots is a word, slot 0 its lowest bit.
#[derive(Clone, Copy)]
pub enum Says {
    Prepare { first: u8 },
    Promise { votes: u64 },
    Accept { slot: u8 },
    Accepted { slot: u8 },
    Nack { promised: Ballot },
    // A node's entries with these numbers are pending there.
    Forward { node: u8, first: u8, last: u8 },
    Learned { slot: u8 },
    Ask { slot: u8 },
}

// A packet, in a ballot if it has one.
#[derive(Clone, Copy)]
pub struct Packet {
    pub ballot: Ballot,
    pub says: Says,
}

#[derive(Clone, Copy, PartialEq, Eq)]
pub enum Role {
    Idle,
    Preparing,
    Leading,
}

// What an event cost beside its own time.
#[derive(Clone, Copy, PartialEq, Eq)]
pub enum Cost {
    Little,
    // A promise was committed, or a vote that the node did not have.
    Commit,
    // It voted for an old entry.
    Vote,
    // It began to lead.
    Takeover,
}

// To whom a packet goes: a node, or 0 for all others.
pub type Post = (u8, Packet);

// How many Accepts a node has sent to all others, and how many of these it had sent before.
#[derive(Clone, Copy, Debug, PartialEq, Eq)]
pub struct Accepts {
    pub sent: u64,
    pub again: u64,
}

// A node. Of the votes that it heard it keeps those of each node's greatest ballot.
#[derive(Drop)]
pub struct Voter {
    pub me: u8,
    // How many nodes there are.
    pub count: u8,
    // How many slots the runs before have filled.
    pub history: u8,
    pub promised: Ballot,
    pub votes: u64,
    pub role: Role,
    pub ballot: Ballot,
    seen: u64,
    // Of its own ballot the nodes that have promised it, and how many these are with itself.
    counted: u64,
    promises: u8,
    reports: u64,
    proposed: u64,
    next: u8,
    covered: [u8; 8],
    heard: [(Ballot, u64); 8],
    learned: u64,
    pub applied: u8,
    pub taken: u8,
    done: u8,
    pub accepts: Accepts,
    pub posts: Vec<Post>,
}

// The slot's bit.
pub fn bit(slot: u8) -> u64 {
    if slot < 64 { 1 << slot } else { 0 }
}

// How many of this many nodes are a majority.
pub fn majority_of(count: u8) -> u8 {
    (count / 2).saturating_add(1)
}

impl Voter {
    // A node that starts, with what it has promised and voted for; its own start is pending.
    pub fn new(
        me: u8,
        count: u8,
        history: u8,
        promised: Ballot,
        votes: u64,
        taken: u8,
        posts: Vec<Post>,
    ) -> Voter {
        Voter {
            me,
            count,
            history,
            promised,
            votes,
            role: Role::Idle,
            ballot: NO_BALLOT,
            seen: promised.round,
            counted: 0,
            promises: 0,
            reports: 0,
            proposed: 0,
            next: 0,
            covered: [0; 8],
            heard: [(NO_BALLOT, 0); 8],
            learned: 0,
            applied: 0,
            taken: taken.saturating_add(1),
            done: taken,
            accepts: Accepts { sent: 0, again: 0 },
            posts,
        }
    }

    // Whether its own entries are pending.
    pub fn is_pending(&self) -> bool {
        self.done < self.taken
    }

    // How many are.
    pub fn pending(&self) -> u8 {
        self.taken.saturating_sub(self.done)
    }

    // Sends a packet. Room for it is lacking only if memory runs out.
    fn send(&mut self, to: u8, ballot: Ballot, says: Says) {
        let _is_sent = self.posts.push((to, Packet { ballot, says })).is_ok();
    }

    // It begins a ballot.
    pub fn start(&mut self) {
        self.seen = self.seen.max(self.promised.round).saturating_add(1);
        self.ballot = Ballot {
            round: self.seen,
            node: self.me,
        };
        self.promised = self.ballot;
        self.role = Role::Preparing;
        self.counted = 0;
        self.promises = 1;
        self.reports = self.votes;
        self.send(
            0,
            self.ballot,
            Says::Prepare {
                first: self.applied,
            },
        );
    }

    // What is not answered is sent again, and it asks for what it lacks.
    pub fn tick(&mut self, asks: bool) {
        match self.role {
            Role::Idle => {},
            Role::Preparing => self.send(
                0,
                self.ballot,
                Says::Prepare {
                    first: self.applied,
                },
            ),
            Role::Leading => self.accept_again(),
        }
        self.push();
        if asks {
            self.send(0, NO_BALLOT, Says::Ask { slot: self.applied });
        }
    }

    fn accept_again(&mut self) {
        for slot in self.applied..self.next {
            if self.proposed & !self.learned & bit(slot) != 0 {
                self.accepts.again = self.accepts.again.saturating_add(1);
                self.accept(slot);
            }
        }
    }

    // It asks for votes.
    fn accept(&mut self, slot: u8) {
        self.accepts.sent = self.accepts.sent.saturating_add(1);
        self.send(0, self.ballot, Says::Accept { slot });
    }

    // A client acts.
    pub fn take(&mut self, log: &mut Log) -> Cost {
        self.taken = self.taken.saturating_add(1);
        self.push_to(log)
    }

    // Its pending entries go to the node that it takes for the leader.
    fn push(&mut self) {
        let leader = self.promised.node;
        if self.is_pending() && leader != 0 && leader != self.me {
            let says = Says::Forward {
                node: self.me,
                first: self.done.saturating_add(1),
                last: self.taken,
            };
            self.send(leader, NO_BALLOT, says);
        }
    }

    // The same, or a leader proposes them.
    pub fn push_to(&mut self, log: &mut Log) -> Cost {
        if self.role != Role::Leading {
            self.push();
            return Cost::Little;
        }
        self.propose_each(log, self.me, self.done.saturating_add(1), self.taken)
    }

    // A leader proposes those of these entries that it has not proposed yet, and commits its votes for them at once.
    fn propose_each(&mut self, log: &mut Log, node: u8, first: u8, last: u8) -> Cost {
        let covered = self.covered.get(usize::from(node)).copied().unwrap_or(last);
        let mut cost = Cost::Little;
        for number in first.max(covered.saturating_add(1))..last.saturating_add(1) {
            if self.next < 64 {
                self.propose_entry(log, node, number);
                cost = Cost::Commit;
            }
        }
        cost
    }

    fn propose_entry(&mut self, log: &mut Log, node: u8, number: u8) {
        if let Some(covered) = self.covered.get_mut(usize::from(node)) {
            *covered = number;
        }
        let slot = self.next;
        if let Some(place) = log.get_mut(usize::from(slot))
            && !self.ballot.is_below(&place.ballot)
        {
            *place = Place {
                ballot: self.ballot,
                node,
                number,
            };
        }
        self.next = slot.saturating_add(1);
        self.propose(slot);
    }

    fn propose(&mut self, slot: u8) {
        self.proposed |= bit(slot);
        self.votes |= bit(slot);
        self.accept(slot);
        self.hear(self.me, self.ballot, bit(slot));
        self.send(0, self.ballot, Says::Accepted { slot });
    }

    // It leads: what was voted for is proposed again, then what is pending.
    fn lead(&mut self, log: &mut Log) {
        self.role = Role::Leading;
        self.proposed = 0;
        self.next = self.applied;
        for slot in self.applied..64 {
            if self.reports & bit(slot) != 0 {
                self.next = slot.saturating_add(1);
            }
        }
        self.covered = [0; 8];
        for place in log.iter().take(usize::from(self.next)) {
            if let Some(covered) = self.covered.get_mut(usize::from(place.node)) {
                *covered = (*covered).max(place.number);
            }
        }
        for slot in self.applied..self.next {
            self.propose(slot);
        }
        self.push_to(log);
    }

    // A vote of the node was heard, or none but its ballot.
    fn hear(&mut self, from: u8, ballot: Ballot, slots: u64) {
        let Some(heard) = self.heard.get_mut(usize::from(from)) else {
            return;
        };
        if heard.0.is_below(&ballot) {
            *heard = (ballot, 0);
        }
        if heard.0 == ballot {
            heard.1 |= slots;
        }
        self.learn(ballot);
    }

    // What a majority has voted for in this ballot is learned.
    fn learn(&mut self, ballot: Ballot) {
        // The slots that at least one node has voted for, at least two, three and four.
        let mut one: u64 = 0;
        let mut two: u64 = 0;
        let mut three: u64 = 0;
        let mut four: u64 = 0;
        for (of, slots) in self.heard {
            if of == ballot {
                four |= three & slots;
                three |= two & slots;
                two |= one & slots;
                one |= slots;
            }
        }
        self.learned |= match majority_of(self.count) {
            2 => two,
            3 => three,
            _ => four,
        };
    }

    // What is learned is applied, slot by slot.
    fn apply(&mut self, log: &Log) {
        for place in log.iter().skip(usize::from(self.applied)) {
            if self.learned & bit(self.applied) == 0 {
                return;
            }
            self.applied = self.applied.saturating_add(1);
            if place.node == self.me {
                self.done = self.done.max(place.number);
            }
            if let Some(covered) = self.covered.get_mut(usize::from(place.node)) {
                *covered = (*covered).max(place.number);
            }
        }
    }

    // It promises the ballot; a lower one of its own has ended.
    fn promise(&mut self, ballot: Ballot) {
        self.promised = self.promised.max(ballot);
        if self.ballot.is_below(&ballot) {
            self.role = Role::Idle;
        }
    }

    // Whether the packet comes too late to tell anything: it is an Accepted of a slot that is applied.
    fn is_late(&self, packet: Packet) -> bool {
        let Says::Accepted { slot } = packet.says else {
            return false;
        };
        slot < self.applied
    }

    // A packet of the node comes. One that comes too late is passed over.
    pub fn treat(&mut self, log: &mut Log, from: u8, packet: Packet) -> Cost {
        if self.is_late(packet) {
            return Cost::Little;
        }
        let ballot = packet.ballot;
        self.seen = self.seen.max(ballot.round);
        let cost = match packet.says {
            Says::Prepare { first } => self.on_prepare(from, ballot, first),
            Says::Promise { votes } => self.on_promise(log, from, ballot, votes),
            Says::Accept { slot } => self.on_accept(from, ballot, slot),
            Says::Accepted { slot } => {
                self.hear(from, ballot, bit(slot));
                Cost::Little
            },
            Says::Nack { promised } => self.on_nack(ballot, promised),
            Says::Forward { node, first, last } => self.on_forward(log, node, first, last),
            Says::Learned { slot } => {
                self.learned |= bit(slot);
                Cost::Little
            },
            Says::Ask { slot } => self.on_ask(from, slot),
        };
        self.apply(log);
        cost
    }

    fn on_prepare(&mut self, from: u8, ballot: Ballot, first: u8) -> Cost {
        if !self.promised.is_below(&ballot) {
            let promised = self.promised;
            self.send(from, ballot, Says::Nack { promised });
            return Cost::Little;
        }
        self.promise(ballot);
        let below = bit(first).saturating_sub(1);
        let votes = self.votes & !below;
        self.send(from, ballot, Says::Promise { votes });
        Cost::Commit
    }

    fn on_promise(&mut self, log: &mut Log, from: u8, ballot: Ballot, votes: u64) -> Cost {
        if self.role != Role::Preparing || self.ballot != ballot || self.counted & bit(from) != 0 {
            return Cost::Little;
        }
        self.counted |= bit(from);
        self.promises = self.promises.saturating_add(1);
        self.reports |= votes;
        if self.promises < majority_of(self.count) {
            return Cost::Little;
        }
        self.lead(log);
        Cost::Takeover
    }

    fn on_accept(&mut self, from: u8, ballot: Ballot, slot: u8) -> Cost {
        if ballot.is_below(&self.promised) {
            let promised = self.promised;
            self.send(from, ballot, Says::Nack { promised });
            return Cost::Little;
        }
        self.promise(ballot);
        let cost = self.cost_of_vote(ballot, slot);
        self.votes |= bit(slot);
        self.hear(self.me, ballot, bit(slot));
        self.send(0, ballot, Says::Accepted { slot });
        cost
    }

    // What a vote costs: little if it is repeated. A slot of the history stands for many entries.
    fn cost_of_vote(&self, ballot: Ballot, slot: u8) -> Cost {
        let is_old = slot < self.history && self.votes & bit(slot) != 0;
        let is_repeated = match self.heard.get(usize::from(self.me)) {
            Some(heard) => heard.0 == ballot && heard.1 & bit(slot) != 0,
            None => false,
        };
        if is_repeated {
            Cost::Little
        } else if is_old {
            Cost::Vote
        } else {
            Cost::Commit
        }
    }

    fn on_nack(&mut self, ballot: Ballot, promised: Ballot) -> Cost {
        self.seen = self.seen.max(promised.round);
        if self.ballot == ballot && ballot.is_below(&promised) {
            self.role = Role::Idle;
        }
        Cost::Little
    }

    fn on_forward(&mut self, log: &mut Log, node: u8, first: u8, last: u8) -> Cost {
        if self.role != Role::Leading {
            return Cost::Little;
        }
        self.propose_each(log, node, first, last)
    }

    fn on_ask(&mut self, from: u8, slot: u8) -> Cost {
        if self.learned & bit(slot) != 0 {
            self.send(from, NO_BALLOT, Says::Learned { slot });
        }
        Cost::Little
    }
}
