//! A ballot that begins.

ghost use Rattle.std.specs.Prelude.{◌≡◌, ◌≤◌, suc, false, [], true, OnOk};
ghost use Rattle.paxos_proposer.specs.Proposer.{is_spent, new_ballot, round_of};
ghost use Rattle.paxos_planning.specs.Node.{log_length};
ghost use Rattle.paxos_planning.specs.Drafting.{next_own, with_prepared, committing};
ghost use Rattle.paxos_planning.specs.Starting.{begin, starts};

use crate::draft::Draft;
use paxos_packets::{Ballot, Body, Floor, Kind, Memory, Votes};

// The greatest round.
const LAST_ROUND: u64 = (1 << 48) - 1;

impl<'a, B: Body> Draft<'a, B> {
    /// Returns whether a round is left above all that it saw and promised.
    pub fn starts(&self) -> bool
        ensures { result ≡ starts self.now.of.me self.now.plan.node }
    {
        round_of(self.promised()) < LAST_ROUND && self.next_ballot().is_some()
    }

    /// Begins a ballot above all that it saw and promised.
    pub fn start(&mut self) -> Result<(), Memory>
        requires votes { self.old.plan.change.votes ≡ [] }
        requires starts { starts self.old.of.me self.old.plan.node ≡ true }
        ensures of { self.new.of ≡ self.old.of }
        ensures plan { OnOk result (self.new.plan ≡ begin self.old.of.members self.old.of.me
            (new_ballot self.old.of.me self.old.plan.node.rows.promised self.old.plan.node.proposer)
            (suc (log_length self.old.plan.node)) self.old.plan) }
    {
        self.saw(round_of(self.promised()))?;
        let Some(ballot) = self.next_ballot() else {
            unreachable!()
        };
        let first = self.applied() + 1;
        let votes = self.votes_from(first)?;
        self.prepare(first, self.floor(), votes)?;
        self.commit_promise(ballot);
        self.send_to_others(&Kind::Prepare { ballot, first })?;
        Ok(())
    }

    // Returns the ballot that it would begin, if a round is left.
    fn next_ballot(&self) -> Option<Ballot>
        ensures { result ≡ next_own self.now.of.me self.now.plan.node.proposer }
    {
        match self.proposing.next_ballot() {
            Ok(ballot) => Some(ballot),
            Err(_) => None,
        }
    }

    // Begins its next ballot, in which it reports its floor and these votes.
    fn prepare(&mut self, first: u64, floor: Floor, votes: Votes<B>) -> Result<(), Memory>
        requires first { 1 ≤ first }
        requires round { is_spent self.old.plan.node.proposer ≡ false }
        ensures of { self.new.of ≡ self.old.of }
        ensures plan { OnOk result (self.new.plan ≡ with_prepared self.old.of.me first floor votes self.old.plan) }
    {
        let Ok(()) = self.proposing.start(first, floor, votes) else {
            return Err(Memory);
        };
        Ok(())
    }

    // Commits the promise.
    fn commit_promise(&mut self, ballot: Ballot)
        ensures of { self.new.of ≡ self.old.of }
        ensures plan { self.new.plan ≡ committing ballot self.old.plan }
    {
        self.change.promised = Some(ballot);
    }
}

// Returns the round of a promise, or 0 if there is no promise.
fn round_of(promised: Option<Ballot>) -> u64
    ensures { result ≡ round_of promised }
{
    match promised {
        Some(promised) => promised.round,
        None => 0,
    }
}
