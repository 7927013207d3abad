//! Laws of the definitions. Each is the contract of a function that does nothing.

ghost use Rattle.std.specs.Prelude.{◌≡◌, ◌≤◌, ℕ, Option};
ghost use Rattle.paxos_packets.specs.declared.ballot.Ballot.{Ballot};
ghost use Rattle.paxos_proposer.specs.Proposer.{round_of, new_ballot, own_ballot, rounds_spent, is_spent};
ghost use Rattle.paxos_proposer.specs.Role.{ProposerState};

/// A proposer that saw the round of its member's promise need not look at that promise again: the next ballot is the same.
pub fn seen_promises_add_nothing<B>()
    ensures ballot { (me : ℕ) (promise : Option Ballot) (p : ProposerState B) → round_of promise ≤ p.seen
        → new_ballot me promise p ≡ own_ballot me p }
    ensures rounds { (me : ℕ) (promise : Option Ballot) (p : ProposerState B) → round_of promise ≤ p.seen
        → rounds_spent me promise p ≡ is_spent p }
{}
