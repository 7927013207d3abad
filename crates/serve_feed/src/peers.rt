// How the other members get on, and whether acts or ticks are held back for one of them.
use crate::signs::offered_by;
use actor_run::{Hearing, RoundSeen};
use node_actor::Heard;
use paxos_packets::Members;
use serve_policy::{Backpressure, Debt, Draining, Gaining, Telling};

// What a node knows of another member's progress.
#[derive(Clone, Copy)]
struct Peer {
    backpressure: Backpressure,
    debt: Debt,
    draining: Draining,
    gaining: Gaining,
    telling: Telling,
}

impl Peer {
    // Returns a member that keeps up.
    const fn new() -> Peer {
        Peer {
            backpressure: Backpressure::new(),
            debt: Debt::new(),
            draining: Draining::new(),
            gaining: Gaining::new(),
            telling: Telling::new(),
        }
    }

    // Returns whether acts are held back for the member, since it falls behind or gains.
    fn holds_acts(&mut self, beat: u64, waiting: usize) -> bool {
        self.backpressure.holds(beat, waiting) || self.gaining.holds(beat)
    }
}

// What a node knows of the other members' progress, and whether it holds back acts or ticks for one of them.
#[derive(Drop)]
pub(crate) struct Peers {
    // How many members there are; member 1 comes first in each list.
    count: u8,
    peers: [Peer; 7],
    // How many packets waited for each member after the last round, and at which beat that was judged.
    waiting: [u16; 7],
    judged: u64,
    holds_acts: bool,
    holds_ticks: bool,
    // Whether one is owed entries.
    is_owed: bool,
}

impl Peers {
    // Returns the peers of a node of which every member keeps up.
    pub fn new(members: Members) -> Peers {
        Peers {
            count: members.count().min(7),
            peers: [Peer::new(); 7],
            waiting: [0; 7],
            judged: u64::MAX,
            holds_acts: false,
            holds_ticks: false,
            is_owed: false,
        }
    }

    // Returns whether packets wait for any member.
    pub fn has_waiting(&self) -> bool {
        self.waiting != [0; 7]
    }

    // Returns how many packets wait for the member for which most do.
    pub fn most_waiting(&self) -> usize {
        let mut most = 0;
        for count in self.waiting {
            most = most.max(count);
        }
        usize::from(most)
    }

    // Returns whether acts are held back.
    pub fn holds_acts(&self) -> bool {
        self.holds_acts
    }

    // Returns whether ticks are held back.
    pub fn holds_ticks(&self) -> bool {
        self.holds_ticks
    }

    // Returns whether a member is owed entries.
    pub fn is_owed(&self) -> bool {
        self.is_owed
    }

    // Notes that the node ticks.
    pub fn tick(&mut self) {
        for place in 0..self.count.min(7) {
            self.peers[usize::from(place)].telling.tick();
        }
    }

    // Returns whether a member may tell the entry after a log of this length.
    pub fn may_tell(&self, log: u64) -> bool {
        for place in 0..self.count.min(7) {
            if self.peers[usize::from(place)].telling.may_tell(log) {
                return true;
            }
        }
        false
    }

    // Judges each member by what a round at this beat has shown, if a commit takes `commit` beats. Returns whether the number of packets that
    // wait for a member has changed.
    pub fn watch(&mut self, beat: u64, commit: u8, seen: &RoundSeen<'_>) -> bool {
        for hearing in seen.came {
            self.hear(beat, *hearing, seen);
        }
        let has_changed = seen.waiting != self.waiting;
        if has_changed || beat != self.judged {
            self.waiting = seen.waiting;
            self.judged = beat;
            self.judge(beat, commit, seen);
        }
        has_changed
    }

    // Notes what a packet of a member shows.
    fn hear(&mut self, beat: u64, hearing: Hearing, seen: &RoundSeen<'_>) {
        let place = usize::from(hearing.from).wrapping_sub(1);
        if place >= 7 {
            return;
        }
        let peer = &mut self.peers[place];
        peer.telling.hears(seen.applied, offered_by(hearing.heard));
        if let Heard::Ask(first) = hearing.heard {
            peer.debt.asks(beat, first, seen.applied, seen.floor);
            peer.gaining.asks(beat, first, seen.applied, seen.floor);
        }
    }

    // Judges each member: acts are held back for one that falls behind or gains, ticks for one that packets wait for, and a cut for one that
    // is owed entries.
    fn judge(&mut self, beat: u64, commit: u8, seen: &RoundSeen<'_>) {
        let mut holds_acts = false;
        let mut holds_ticks = false;
        let mut is_owed = false;
        for place in 0..self.count.min(7) {
            let at = usize::from(place);
            let waiting = usize::from(self.waiting[at]);
            let is_posted = seen.posted.contains(place + 1);
            let peer = &mut self.peers[at];
            holds_acts = peer.holds_acts(beat, waiting) || holds_acts;
            holds_ticks = peer.draining.holds(beat, waiting, is_posted, commit) || holds_ticks;
            peer.debt.wait(beat, waiting, seen.applied);
            is_owed = peer.debt.is_owed(beat) || is_owed;
        }
        self.holds_acts = holds_acts;
        self.holds_ticks = holds_ticks;
        self.is_owed = is_owed;
    }
}
