// What the feed notes of the last round: time, commits, how the other members get on, and how long the node's log is.
ghost use Rattle.std.specs.Prelude.{◌≡◌};

use crate::feed::ClientFeed;
use crate::signs::{entries_above, is_news, offered_in, quiet_turn, turn_of};
use crate::waking::say_waits;
use actor_run::{Hearing, RoundSeen};
use serve_policy::{Sign, Turn, is_long};

impl ClientFeed<'_> {
    // Counts time by what the last round brought: its packets one by one, as turns. A round in which none came is a turn without a packet.
    pub(super) fn count_time(&mut self, seen: &RoundSeen<'_>)
        ensures node { self.new.node ≡ self.old.node }
        ensures sources { self.new.lanes.sources ≡ self.old.lanes.sources }
    {
        if seen.came.is_empty() {
            self.count_turn(quiet_turn(seen, self.pace.due()));
        } else {
            self.count_packets(seen);
        }
        self.boot.log = seen.applied;
        self.boot.promised = seen.promised;
        self.pace
            .set_quick(seen.pending > 0 || self.boot.peers.holds_acts());
    }

    // Counts the packets of a round. Its log grew by one entry at each that reported one of those that it has gained, and else at the first one.
    fn count_packets(&mut self, seen: &RoundSeen<'_>)
        ensures node { self.new.node ≡ self.old.node }
        ensures sources { self.new.lanes.sources ≡ self.old.lanes.sources }
    {
        let before = self.boot.log;
        let told = self.told_in(seen);
        let mut log = seen.applied.saturating_sub(told).max(before);
        for hearing in seen.came {
            if is_news(hearing.heard, before, seen.applied) {
                log = log.saturating_add(1);
            }
            self.count_packet(*hearing, log.min(seen.applied), seen);
        }
    }

    // Returns how many packets of a round reported an entry that the log has gained in it.
    fn told_in(&self, seen: &RoundSeen<'_>) -> u64 {
        let mut told = 0u64;
        for hearing in seen.came {
            if is_news(hearing.heard, self.boot.log, seen.applied) {
                told = told.saturating_add(1);
            }
        }
        told
    }

    // Counts a packet of a round, after which the log had this length. Of several that prepare the ballot that the node has promised in the round
    // the first one brought the promise.
    fn count_packet(&mut self, hearing: Hearing, log: u64, seen: &RoundSeen<'_>)
        ensures node { self.new.node ≡ self.old.node }
        ensures sources { self.new.lanes.sources ≡ self.old.lanes.sources }
    {
        let turn = turn_of(hearing, log, seen, self.boot.promised, self.pace.due());
        if matches!(turn.sign, Sign::Prepared { .. }) {
            self.boot.promised = seen.promised;
        }
        self.count_turn(turn);
    }

    // Counts a packet, or a round without one.
    fn count_turn(&mut self, turn: Turn)
        ensures node { self.new.node ≡ self.old.node }
        ensures sources { self.new.lanes.sources ≡ self.old.lanes.sources }
    {
        if self.boot.ticks.count(turn) {
            self.pace.counted();
            self.round.may_be_due = true;
        }
        if matches!(turn.sign, Sign::Refused { .. } | Sign::Told) {
            self.round.may_be_due = true;
        }
    }

    // Notes how long commits take and how the other members get on, and says in the node's lobby for which of them its packets wait.
    pub(super) fn watch(&mut self, seen: &RoundSeen<'_>)
        ensures node { self.new.node ≡ self.old.node }
        ensures sources { self.new.lanes.sources ≡ self.old.lanes.sources }
    {
        self.note_commits(seen);
        let beat = self.boot.ticks.beats();
        if self.boot.peers.watch(beat, self.boot.commits.beats(), seen) {
            say_waits(self.lobby, self.members, &seen.waiting);
        }
    }

    // Notes how long the commits of the last round took. One with a cut says nothing of others.
    fn note_commits(&mut self, seen: &RoundSeen<'_>)
        ensures node { self.new.node ≡ self.old.node }
        ensures sources { self.new.lanes.sources ≡ self.old.lanes.sources }
    {
        let commits = seen.commits.wrapping_sub(self.round.commits);
        self.round.commits = seen.commits;
        if self.round.is_cut {
            return;
        }
        self.boot
            .commits
            .note(self.pace.took(), u32::try_from(commits).unwrap_or(0));
    }

    // Judges whether the node's log is cut in this round, and whether the node is behind for good.
    pub(super) fn watch_log(&mut self, seen: &RoundSeen<'_>)
        ensures node { self.new.node ≡ self.old.node }
        ensures sources { self.new.lanes.sources ≡ self.old.lanes.sources }
    {
        let peers = &self.boot.peers;
        let is_wanted = is_long(entries_above(seen), peers.most_waiting(), peers.is_owed());
        self.round.is_cutting = self.pace.wants_cut(is_wanted);
        self.round.is_cut = false;
        self.boot.behind.see(seen.applied, offered_in(seen.came));
        if self.is_behind_for_good(seen.applied) {
            self.pace.gives_up();
        }
    }

    // Returns whether the node is behind for good with a log of this length. The members are asked only if it might be.
    fn is_behind_for_good(&self, log: u64) -> bool {
        let behind = &self.boot.behind;
        behind.is_for_good(false) && behind.is_for_good(self.boot.peers.may_tell(log))
    }
}
