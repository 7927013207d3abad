//! Laws of the acceptor's rules. Each is the contract of a function that does nothing.

ghost use Rattle.std.specs.Prelude.{◌≡◌, true, false, Option, Some, None, List, [], ◌∷◌};
ghost use Rattle.paxos_packets.specs.Ballot.{below};
ghost use Rattle.paxos_packets.specs.declared.ballot.Ballot.{Ballot};
ghost use Rattle.paxos_packets.specs.declared.packet.Kind.{Kind};
ghost use Rattle.paxos_packets.specs.declared.rows.Rows.{Rows};
ghost use Rattle.paxos_packets.specs.declared.vote.Vote.{Vote};
ghost use Rattle.paxos_acceptor.specs.Acceptor.{adopted, judged, refused, with_snapshot};
ghost use Rattle.paxos_packets.specs.Rows.{no_change, promise_change, vote_change, snapshot_change};
ghost use Rattle.paxos_packets.specs.Snapshot.{Snapshot};
ghost use Rattle.paxos_acceptor.specs.Ahead.{both, put_all_back, replaced_by, taken_back};
ghost use Rattle.paxos_acceptor.specs.Examples.{ballot_of, first_change, noted_twice, rows_after, rows_before, second_change, vote_for};
ghost use Rattle.paxos_acceptor.specs.declared.ahead.Replaced.TheVariants.{Nothing, Held};
ghost use Rattle.paxos_packets.specs.Vote.{IsAscending, put_votes};
ghost use Rattle.paxos_packets.specs.declared.rows.Change.{Change};
ghost use Rattle.paxos_acceptor.specs.Acceptor.{voted, prepared, with_promise, with_vote};

/// No packet lowers a promise: once its change is adopted, the promise is not below the one of before.
pub fn promises_rise<B>()
    ensures { (rows : Rows B) (kind : Kind B) (old : Ballot) → rows.promised ≡ Some old
        → ((new : Ballot) × ((adopted rows (judged rows kind).change).promised ≡ Some new) × (below new old ≡ false)) }
{}

/// A member that has promised a ballot refuses each lower one, for a promise and for a vote (Lamport 2001, section 2.2, P1a).
pub fn promises_are_kept<B>()
    ensures prepare { (rows : Rows B) (ballot promised : Ballot) (first : _) → rows.promised ≡ Some promised
        → below ballot promised ≡ true → prepared rows ballot first ≡ refused rows ballot }
    ensures accept { (rows : Rows B) (vote : Vote B) (promised : Ballot) → rows.promised ≡ Some promised
        → below vote.ballot promised ≡ true → voted rows vote ≡ refused rows vote.ballot }
{}

/// What each of the four changes makes of the rows.
pub fn changes_are_adopted<B>()
    ensures nothing { (rows : Rows B) → adopted rows no_change ≡ rows }
    ensures promise { (rows : Rows B) (ballot : Ballot) → adopted rows (promise_change ballot) ≡ with_promise ballot rows }
    ensures vote { (rows : Rows B) (vote : Vote B) → adopted rows (vote_change vote) ≡ with_vote vote rows }
    ensures snapshot { (rows : Rows B) (snapshot : Snapshot) → adopted rows (snapshot_change snapshot) ≡ with_snapshot snapshot rows }
{}

/// Changes add up, if the later one has no snapshot: the rows after two are those after their sum, in which later votes replace earlier ones,
/// and a later promise the earlier one.
pub fn changes_add_up<B>()
    ensures votes { (new old held : List (Vote B)) → IsAscending old → put_votes (put_votes new old) held ≡ put_votes new (put_votes old held) }
    ensures changes { (rows : Rows B) (a b : Change B) → IsAscending a.votes → b.snapshot ≡ None
        → adopted rows (both a b) ≡ adopted (adopted rows a) b }
{}

/// What votes replaced, put back, gives the votes of before.
pub fn votes_go_back<B>()
    ensures { (votes held : List (Vote B)) → IsAscending votes → IsAscending held
        → put_all_back (replaced_by votes held) (put_votes votes held) ≡ held }
{}

/// Two changes that are planned one after the other, computed.
pub fn noted_examples()
    // the later vote of a slot stays, and the later promise
    ensures sum { noted_twice.change ≡ record { promised = Some (ballot_of 3); snapshot = None; votes = vote_for 2 3 ∷ vote_for 3 3 ∷ [] } }
    ensures other_order { (both second_change first_change).votes ≡ vote_for 2 2 ∷ vote_for 3 3 ∷ [] }

    // slot 2 had nothing, then the first vote, and slot 3 one of before
    ensures replaced { noted_twice.replaced ≡ Nothing 2 ∷ Held (vote_for 2 2) ∷ Held (vote_for 3 1) ∷ [] }
    ensures after { rows_after.votes ≡ vote_for 1 1 ∷ vote_for 2 3 ∷ vote_for 3 3 ∷ [] }

    // the sum leads from the rows of before to those after both, and what was replaced back
    ensures adds { adopted rows_before noted_twice.change ≡ rows_after }
    ensures back { taken_back noted_twice rows_after ≡ rows_before }
{}
