//! Laws of the definitions. Each is the contract of a function that does nothing.

ghost use Rattle.std.specs.Prelude.{◌≡◌, ◌⊎◌, ℕ, Bool, true, false, ◌==◌, Some, List, if◌then◌else◌};
ghost use Rattle.paxos_packets.specs.Ballot.{below};
ghost use Rattle.paxos_packets.specs.Members.{IsMajority, IsMember};
ghost use Rattle.paxos_packets.specs.Body.{IsEquality};
ghost use Rattle.paxos_packets.specs.Entry.{same_entry};
ghost use Rattle.paxos_packets.specs.Packet.{same_packet};
ghost use Rattle.paxos_packets.specs.Vote.{same_vote, IsAscending, put_back, put_vote, vote_in};
ghost use Rattle.paxos_packets.specs.declared.ballot.Ballot.{Ballot};
ghost use Rattle.paxos_packets.specs.declared.vote.Vote.{Vote};

/// Ballots are totally ordered: of two different ones exactly one is below the other.
pub fn ballots_are_ordered()
    ensures irreflexive { (a : Ballot) → below a a ≡ false }
    ensures transitive { (a b c : Ballot) → below a b ≡ true → below b c ≡ true → below a c ≡ true }
    ensures total { (a b : Ballot) → (below a b ≡ true) ⊎ ((a ≡ b) ⊎ (below b a ≡ true)) }
{}

/// Two majorities of the same members share a member (Lamport 2001, section 2.1).
pub fn majorities_meet()
    ensures { (members : ℕ) (p q : ℕ → Bool) → IsMajority members p → IsMajority members q
        → ((node : ℕ) × IsMember members node × (p node ≡ true) × (q node ≡ true)) }
{}

/// A vote that is put is found in its slot, and no other slot changes; the slots still ascend.
pub fn votes_are_put<B>()
    ensures found { (v : Vote B) (vs : List (Vote B)) (slot : ℕ)
        → vote_in slot (put_vote v vs) ≡ (if v.slot == slot then Some v else vote_in slot vs) }
    ensures ascending { (v : Vote B) (vs : List (Vote B)) → IsAscending vs → IsAscending (put_vote v vs) }
{}

/// What a slot had before a vote was put there, put back, gives the votes of before.
pub fn votes_are_put_back<B>()
    ensures { (v : Vote B) (vs : List (Vote B)) → IsAscending vs → put_back v.slot (vote_in v.slot vs) (put_vote v vs) ≡ vs }
{}

/// If the test of bodies is equality, so are those of entries, votes and packets.
pub fn values_are_told_apart<B>()
    ensures entries { (same : B → B → Bool) → IsEquality same → IsEquality (same_entry same) }
    ensures votes { (same : B → B → Bool) → IsEquality same → IsEquality (same_vote same) }
    ensures packets { (same : B → B → Bool) → IsEquality same → IsEquality (same_packet same) }
{}
