// When a node ticks, begins a ballot and suspects another, by its turns, beats and packets.
ghost use Rattle.std.specs.Prelude.{◌≡◌, ◌<◌, ◌≤◌, ◌*◌, ◌^◌, max};
ghost use Rattle.serve_policy.specs.Ticks.{first_counts, counting, moving, showing, resting, hearing, treating, is_moving, gained_in};
ghost use Rattle.serve_policy.specs.Ticks.{working, answering, refusing, has_answered, doubled};
ghost use Rattle.serve_policy.specs.Ticks.{may_begin_again, has_worked, next_due, starting, ticking, is_tick_due, is_time_over, asks_on, is_overdue, between_ticks, share, patience, capped};
ghost use Rattle.serve_policy.specs.Ticks.{suspecting, silent_peer, is_silent};

use crate::clock::BEATS_A_TICK;
use crate::turn::{Sign, Turn};
use arrayvec::ArrayVec;
use paxos_packets::Members;
use std::marker::Model;

/// How many turns without a packet end the beats that are due.
const TURNS_A_BEAT: u64 = 64;

/// How many commits the time from one tick to the next has, beside [`BEATS_A_TICK`]: what is sent again sooner is answered already.
const COMMITS_A_TICK: u64 = 4;

/// How many times as long it is to the next tick while the log grows: what is not lost need not be sent again.
const TIMES_GROWING: u64 = 10;

/// For how many beats and commits after a tick the next one is held back at most.
const BEATS_HELD: u64 = 512;

const COMMITS_HELD: u64 = 40;

/// For how many beats without a move a node with pending entries waits: the first number, plus the second times the node's number.
const BEATS_TO_START: u64 = 416;

const BEATS_APART: u64 = 96;

/// For how many commits it waits at the least, beside the second number.
const COMMITS_TO_START: u64 = 16;

/// How many ballots of its own without an applied entry a node counts.
const MOST_TRIES: u64 = 8;

/// How often the wait doubles, at most, while no other node prepares a ballot.
const MOST_DOUBLINGS: u64 = 3;

/// How many slots another node takes over in a beat, at least: it takes some 20 microseconds for each if nothing else runs.
const SLOTS_A_BEAT: u64 = 32;

/// After how many beats without a packet from another node that node is suspected.
const BEATS_TO_SUSPECT: u64 = 20_480;

/// How many entries an answer to an Ask has at the most.
const FULL_ANSWER: u64 = 64;

/// What is due at a node.
#[derive(Clone, Copy, Debug, PartialEq, Eq)]
pub enum Due {
    /// A tick.
    Tick,
    /// A ballot of its own.
    Start,
    /// The other node with this number is taken to be lost.
    Suspect(u8),
}

/// What a node counts: its turns without a packet, its beats, what its turns moved, its ballots, and at which beat each other node was heard
/// last. A clause sees these numbers.
#[derive(Drop)]
pub struct Ticks {
    me: u8,
    peers: ArrayVec<u8, 7>,
    is_owed: bool,
    quiet: u64,
    beats: u64,
    ticked: u64,
    applied: u64,
    grown: u64,
    gained: u64,
    moved: u64,
    tries: u64,
    prepared: Option<u32>,
    is_own: bool,
    worked: [bool; 8],
    answered: [bool; 8],
    heard: [u64; 8],
}

impl Model for Ticks {
    ghost use Rattle.serve_policy.specs.Ticks.{Counts};

    ghost Value = { Counts };

    ghost view = { λ t. record {
      me = t.me;
      peers = t.peers.items;
      is_owed = t.is_owed;
      quiet = t.quiet;
      beats = t.beats;
      ticked = t.ticked;
      applied = t.applied;
      grown = t.grown;
      gained = t.gained;
      moved = t.moved;
      tries = t.tries;
      prepared = t.prepared;
      is_own = t.is_own;
      worked = t.worked;
      answered = t.answered;
      heard = t.heard;
    } };
}

impl Ticks {
    /// Returns the counts before the first turn of a boot: in the first boot of a run a ballot is due at node 1, else nothing is. Does not
    /// allocate.
    pub fn new(node: u8, members: Members, is_first: bool) -> Ticks
        ensures { result ≡ first_counts node members is_first }
    {
        Ticks {
            me: node,
            peers: members.others(node),
            is_owed: is_first && node == 1,
            quiet: 0,
            beats: 0,
            ticked: 0,
            applied: 0,
            grown: 0,
            gained: 0,
            moved: 0,
            tries: 0,
            prepared: None,
            is_own: false,
            worked: [false; 8],
            answered: [false; 8],
            heard: [0; 8],
        }
    }

    /// Returns the number of beats that have ended.
    pub fn beats(&self) -> u64
        ensures { result ≡ self.now.beats }
    {
        self.beats
    }

    /// Counts a turn. Returns whether it ended the beats that were due. Takes constant time.
    pub fn count(&mut self, turn: Turn) -> bool
        ensures { (result, self.new) ≡ counting turn self.old }
    {
        self.move_on(turn);
        self.show(turn.from, turn.sign);
        match turn.from {
            Some(peer) => {
                self.hear(peer);
                false
            }
            None => self.rest(turn.beats),
        }
    }

    // Notes how far the turn brought the log.
    fn move_on(&mut self, turn: Turn)
        ensures { self.new ≡ moving turn self.old }
    {
        self.gained = self.gained_in(turn);
        if self.is_moving(turn) {
            self.moved = self.beats;
        }
        if turn.applied != self.applied {
            self.grown = self.beats;
            self.tries = 0;
        }
        self.applied = turn.applied;
    }

    // Returns how many entries were applied since the last tick because another node reported one.
    fn gained_in(&self, turn: Turn) -> u64
        ensures { result ≡ gained_in turn self.now }
    {
        if !turn.sign.is_told() {
            return self.gained;
        }
        let gained = self
            .gained
            .saturating_add(turn.applied.saturating_sub(self.applied));
        capped(FULL_ANSWER, gained)
    }

    // Returns whether something moved in the turn.
    fn is_moving(&self, turn: Turn) -> bool
        ensures { result ≡ is_moving turn self.now }
    {
        !turn.is_pending || turn.applied != self.applied || turn.sign.is_at_work()
    }

    // Notes what the packet that came from this node showed.
    fn show(&mut self, from: Option<u8>, sign: Sign)
        ensures { self.new ≡ showing from sign self.old }
    {
        match sign {
            Sign::Nothing => {}
            Sign::Prepared { owner, slots } => self.work(owner, Some(slots)),
            Sign::AtWork { owner } => {
                self.work(owner, None);
                self.answer(from, owner);
            }
            Sign::Refused { owner } => self.refuse(from, owner),
            Sign::Told => {}
        }
    }

    // Notes that a ballot of this owner is at work, and how many slots are to be taken over if it is only prepared.
    fn work(&mut self, owner: u8, prepared: Option<u32>)
        ensures { self.new ≡ working owner prepared self.old }
    {
        self.prepared = prepared;
        self.is_own = owner == self.me;
        if owner < 8 {
            self.worked[usize::from(owner)] = true;
        }
    }

    // Notes that a node answers a ballot of this owner.
    fn answer(&mut self, from: Option<u8>, owner: u8)
        ensures { self.new ≡ answering from owner self.old }
    {
        let Some(peer) = from else {
            return;
        };
        if owner == self.me && peer < 8 {
            self.answered[usize::from(peer)] = true;
        }
    }

    // Notes that a node refuses the ballot under way, since one of this owner is promised there.
    fn refuse(&mut self, from: Option<u8>, owner: u8)
        ensures { self.new ≡ refusing from owner self.old }
    {
        let Some(peer) = from else {
            return;
        };
        self.is_owed = self.is_owed || self.may_begin_again(peer, owner);
    }

    // Returns whether the ballot that was refused so is begun again at once.
    fn may_begin_again(&self, peer: u8, owner: u8) -> bool
        ensures { result ≡ may_begin_again peer owner self.now }
    {
        self.tries < MOST_TRIES && !self.has_worked(owner) && !self.has_answered(peer)
    }

    // Returns whether a ballot of this owner was at work.
    fn has_worked(&self, owner: u8) -> bool
        ensures { result ≡ has_worked owner self.now }
    {
        owner < 8 && self.worked[usize::from(owner)]
    }

    // Returns whether this node answered the ballot that was begun last.
    fn has_answered(&self, peer: u8) -> bool
        ensures { result ≡ has_answered peer self.now }
    {
        peer < 8 && self.answered[usize::from(peer)]
    }

    // Counts a turn that treated no packet. Returns whether the beats that were due have ended.
    fn rest(&mut self, due: u64) -> bool
        ensures { (result, self.new) ≡ resting due self.old }
    {
        if due == 0 {
            return false;
        }
        if self.quiet < TURNS_A_BEAT - 1 {
            self.quiet += 1;
            return false;
        }
        self.quiet = 0;
        self.beats = self.beats.saturating_add(due);
        true
    }

    // Notes that a packet of the node came, or that it was suspected.
    fn hear(&mut self, peer: u8)
        ensures { self.new ≡ hearing peer self.old }
    {
        if peer < 8 {
            self.heard[usize::from(peer)] = self.beats;
        }
    }

    /// Returns what is due next, which is then no longer due: a ballot that is due at once, a tick if the node may tick or did not for
    /// long, a ballot if nothing moved for long while entries are pending, and the other nodes that were silent for long, by ascending
    /// number. A commit takes `commit` beats ([`Commits::beats`](crate::Commits::beats)): ticks, and the patience with another's ballot, go
    /// by it. Takes constant time.
    pub fn next(&mut self, may_tick: bool, commit: u8) -> Option<Due>
        ensures { (result, self.new) ≡ next_due may_tick commit self.old }
    {
        if self.is_owed {
            self.start();
            return Some(Due::Start);
        }
        if may_tick && self.is_tick_due(commit) || self.asks_on() || self.is_overdue(commit) {
            self.ticked = self.beats;
            self.gained = 0;
            return Some(Due::Tick);
        }
        if self.beats.saturating_sub(self.moved) >= self.patience(commit) {
            self.start();
            return Some(Due::Start);
        }
        self.suspect()
    }

    // Begins a ballot.
    fn start(&mut self)
        ensures { self.new ≡ starting self.old }
    {
        self.is_owed = false;
        self.moved = self.beats;
        self.tries = capped(MOST_TRIES, self.tries.saturating_add(1));
        self.prepared = None;
        self.is_own = true;
        self.answered = [false; 8];
    }

    // Returns whether a tick is due.
    fn is_tick_due(&self, commit: u8) -> bool
        ensures { result ≡ is_tick_due commit self.now }
    {
        self.gained >= FULL_ANSWER || self.is_time_over(commit)
    }

    // Returns whether the time from the last tick to the next one is over.
    fn is_time_over(&self, commit: u8) -> bool
        ensures { result ≡ is_time_over commit self.now }
    {
        let since = self.beats.saturating_sub(self.ticked);
        let idle = self.beats.saturating_sub(self.grown);
        let wanted = between_ticks(commit);
        since >= TIMES_GROWING * wanted || since >= wanted && idle >= wanted
    }

    // Returns whether the node asks for more entries at once, though another node takes packets: it got all of an answer, and does not lead,
    // so a tick sends little besides.
    fn asks_on(&self) -> bool
        ensures { result ≡ asks_on self.now }
    {
        self.gained >= FULL_ANSWER && !self.is_own
    }

    // Returns whether the last tick is so long ago that none is held back.
    fn is_overdue(&self, commit: u8) -> bool
        ensures { result ≡ is_overdue commit self.now }
    {
        self.beats.saturating_sub(self.ticked) >= BEATS_HELD + COMMITS_HELD * u64::from(commit)
    }

    // Returns for how many beats in which nothing moves it waits.
    fn patience(&self, commit: u8) -> u64
        ensures { result ≡ patience commit self.now }
    {
        let share = self.share(commit);
        match self.prepared {
            None => doubled(self.tries.min(MOST_DOUBLINGS), share),
            Some(slots) => doubled(self.tries, share + u64::from(slots) / SLOTS_A_BEAT),
        }
    }

    // Returns the node's share of patience.
    fn share(&self, commit: u8) -> u64
        ensures is { result ≡ share commit self.now }
        ensures few { result ≤ 28560 }
    {
        least_patience(commit) + BEATS_APART * u64::from(self.me)
    }

    // Suspects the first other node that was silent for long.
    fn suspect(&mut self) -> Option<Due>
        ensures { (result, self.new) ≡ suspecting (silent_peer self.old) self.old }
    {
        let Some(peer) = self.silent() else {
            return None;
        };
        self.hear(peer);
        Some(Due::Suspect(peer))
    }

    // The first other node that was silent for long.
    fn silent(&self) -> Option<u8>
        ensures { result ≡ silent_peer self.now }
    {
        for peer in self.peers.as_slice() {
            if self.is_silent(*peer) {
                return Some(*peer);
            }
        }
        None
    }

    // Whether no packet came of the node for long.
    fn is_silent(&self, peer: u8) -> bool
        ensures { result ≡ is_silent self.now peer }
    {
        peer < 8 && self.beats.saturating_sub(self.heard[usize::from(peer)]) >= BEATS_TO_SUSPECT
    }
}

// Returns the number, but at most `most`.
fn capped(most: u64, number: u64) -> u64
    ensures { result ≡ capped most number }
{
    if number < most { number } else { most }
}

// Returns how many beats there are between two ticks of a node whose log does not grow.
fn between_ticks(commit: u8) -> u64
    ensures is { result ≡ between_ticks commit }
    ensures few { result ≤ 1025 }
{
    BEATS_A_TICK + COMMITS_A_TICK * u64::from(commit)
}

// Returns what all nodes' shares of patience have in common.
fn least_patience(commit: u8) -> u64
    ensures is { result ≡ max 416 (16 * commit) }
    ensures few { result ≤ 4080 }
{
    BEATS_TO_START.max(COMMITS_TO_START * u64::from(commit))
}

// Returns twice as much, this number of times, at most eight.
fn doubled(times: u64, wait: u64) -> u64
    requires { wait < 2 ^ 32 }
    ensures { result ≡ doubled times wait }
{
    match times {
        0 => wait,
        1 => 2 * wait,
        2 => 4 * wait,
        3 => 8 * wait,
        4 => 16 * wait,
        5 => 32 * wait,
        6 => 64 * wait,
        7 => 128 * wait,
        _ => 256 * wait,
    }
}
