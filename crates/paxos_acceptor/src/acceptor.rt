// The acceptor's rules: what it commits and sends for a packet, and how it adopts a change.
ghost use Rattle.std.specs.Prelude.{◌≡◌, ◌≤◌, true, false, None, length, IfOk, IsErr, OnOk, OnErr, option_copied};
ghost use Rattle.paxos_packets.specs.Vote.{votes_from};
ghost use Rattle.std.specs.List.{list_all};
ghost use Rattle.paxos_acceptor.specs.Acceptor.{adopted, judged, may_promise, may_accept, refused, prepared, voted, cast_or_shown, given_by};
ghost use Rattle.paxos_acceptor.specs.Acceptor.{has_all, has_promise, has_vote};
ghost use Rattle.paxos_acceptor.specs.Ahead.{IsAhead, none_noted, put_all_back, put_had, taken_back};
ghost use Rattle.paxos_packets.specs.declared.rows.Rows as held_rows;
ghost use Rattle.paxos_packets.specs.Rows.{kept_votes};
ghost use Rattle.paxos_packets.specs.Snapshot.{floor_in};
ghost use Rattle.std.specs.Option.{option_or};

use crate::ahead::{Ahead, Replaced};
use crate::fault::Memory;
use crate::verdict::{Answer, Verdict};
use paxos_packets::{
    Ballot, Body, Change, Floor, KeptVotes, Kind, Packet, Rows, Snapshot, Vote, Votes,
};
use std::alloc::Global;
use std::marker::Model;

/// One member's rows, and what they allow it to promise and to vote for.
#[derive(Debug)]
pub struct Acceptor<B> {
    alloc: Global,
    boot: u64,
    promised: Option<Ballot>,
    snapshot: Option<Snapshot>,
    votes: KeptVotes<B>,
    failed: bool,
}

impl<B: Drop> Drop for Acceptor<B> {
    fn drop(self) {
        let Acceptor {
            alloc: _,
            boot: _,
            promised: _,
            snapshot: _snapshot,
            votes: _votes,
            failed: _,
        } = self;
    }
}

impl<B> Model for Acceptor<B> {
    ghost use Rattle.paxos_acceptor.specs.Acceptor.{State};

    ghost Value = { State B };

    ghost view = { λ a. record {
      rows = record { boot = a.boot; promised = a.promised; snapshot = a.snapshot; votes = a.votes.votes };
      room = a.votes.room;
      failed = a.failed;
    } };
}

impl<B> Acceptor<B> {
    /// Returns that its rows are not ahead of what is committed. Does not allocate.
    pub fn nothing_ahead(&self) -> Ahead<B>
        ensures noted { result ≡ none_noted self.now.rows.promised }
        ensures ahead { IsAhead self.now.rows result self.now.rows }
    {
        Ahead::none(self.alloc, self.promised)
    }

    /// Returns the acceptor with these rows. Does not allocate; the other calls will, from `alloc`.
    pub fn of(alloc: Global, rows: Rows<B>) -> Acceptor<B>
        ensures rows { result.rows ≡ rows }
        ensures failed { result.failed ≡ false }
    {
        let Rows {
            boot,
            promised,
            snapshot,
            votes,
        } = rows;
        Acceptor {
            alloc,
            boot,
            promised,
            snapshot,
            votes: KeptVotes::of(votes),
            failed: false,
        }
    }

    /// Returns what the member has committed. Does not allocate.
    pub fn into_rows(self) -> Rows<B>
        ensures { result ≡ self.rows }
    {
        let Acceptor {
            alloc: _,
            boot,
            promised,
            snapshot,
            votes,
            failed: _,
        } = self;
        Rows {
            boot,
            promised,
            snapshot,
            votes: votes.into_votes(),
        }
    }

    /// Returns how often the member was started.
    pub fn boot(&self) -> u64
        ensures { result ≡ self.now.rows.boot }
    {
        self.boot
    }

    /// Returns the greatest ballot that the member has promised, if any.
    pub fn promised(&self) -> Option<Ballot>
        ensures { result ≡ self.now.rows.promised }
    {
        self.promised
    }

    /// Returns what stands for the member's log up to the floor, if any.
    pub fn snapshot(&self) -> Option<&Snapshot>
        ensures { option_copied result ≡ self.now.rows.snapshot }
    {
        self.snapshot.as_ref()
    }

    /// Returns the floor, up to which the snapshot gives the member's log.
    pub fn floor(&self) -> Floor
        ensures { result ≡ floor_in self.now.rows.snapshot }
    {
        match &self.snapshot {
            Some(snapshot) => Floor::at(snapshot.floor()),
            None => Floor::none(),
        }
    }

    /// Returns the snapshot, if it gives the slot with this number: if that is not above its floor.
    pub fn gives(&self, slot: u64) -> Option<&Snapshot>
        ensures { option_copied result ≡ given_by self.now.rows.snapshot slot }
    {
        match &self.snapshot {
            Some(snapshot) if slot <= snapshot.floor().get() => Some(snapshot),
            _ => None,
        }
    }

    /// Returns the votes that the member has cast above its floor, by ascending slot.
    pub fn votes(&self) -> &[Vote<B>]
        ensures { result.now ≡ self.now.rows.votes }
    {
        self.votes.as_slice()
    }

    /// Returns whether `adopt` has failed with `Memory`, so that the rows lack what is committed.
    pub fn is_failed(&self) -> bool
        ensures { result ≡ self.now.failed }
    {
        self.failed
    }

    // Returns the refusal of a Prepare or an Accept that the promise forbids.
    fn refuse(&self, ballot: Ballot) -> Verdict<B>
        ensures { result ≡ refused self.now.rows ballot }
    {
        Verdict {
            change: Change::none(self.alloc),
            answer: Answer::ToSender {
                kind: Kind::Nack {
                    ballot,
                    promised: self.promised.unwrap_or(ballot),
                },
            },
        }
    }
}

impl<B: Body> Acceptor<B> {
    /// Returns what to commit for the packet, and what to answer once it is committed (Lamport 2001, section 2.2, phases 1 (b) and 2 (b)).
    ///
    /// A Prepare above the promise, or without one, gives its promise, the floor, and the votes from its slot on that are above the floor;
    /// only these are copied. An Accept that is not below the promise gives its vote, or the snapshot, if its slot is not above the floor:
    /// then nothing is to be committed. Any other Prepare or Accept gives a Nack, and any other packet gives nothing. Nothing
    /// changes until `adopt`. Returns `Memory` if memory for the copies runs out, and always once the acceptor is failed.
    pub fn plan(&self, packet: &Packet<B>) -> Result<Verdict<B>, Memory>
        ensures verdict { IfOk result (λ verdict. verdict ≡ judged self.now.rows packet.now.kind) }
        ensures failed { self.now.failed ≡ true → IsErr result }
    {
        if self.failed {
            return Err(Memory);
        }
        match &packet.kind {
            Kind::Prepare { ballot, first } => self.plan_prepare(*ballot, *first),
            Kind::Accept { vote } => self.plan_accept(vote),
            Kind::Promise { .. }
            | Kind::Accepted { .. }
            | Kind::Nack { .. }
            | Kind::Forward { .. }
            | Kind::Learned { .. }
            | Kind::Ask { .. }
            | Kind::Snapshot { .. } => Ok(Verdict {
                change: Change::none(self.alloc),
                answer: Answer::Nothing,
            }),
        }
    }

    /// Returns whether the rows have all of the change, so that adopting it leaves them as they are: it has no snapshot, promises nothing or
    /// what is promised, and each of its votes is the one in its slot. Does not allocate. Looks up each vote's slot, in a number of steps logarithmic in the
    /// number of votes; compares entries only if slot and ballot are the same.
    pub fn has_all(&self, change: &Change<B>) -> bool
        ensures is { result ≡ has_all B.same self.now.rows change.now }
        ensures same { result ≡ true → adopted self.now.rows change.now ≡ self.now.rows }
    {
        let _ = self.votes.as_slice(); // for the proof
        change.snapshot.is_none()
            && has_promise(self.promised, change.promised)
            && self.has_votes(change.votes.as_slice())
    }

    // Returns whether each of these votes is the one in its slot.
    fn has_votes(&self, votes: &[Vote<B>]) -> bool
        ensures { result ≡ list_all (has_vote B.same self.now.rows.votes) votes.now }
    {
        for vote in votes {
            if !self.has_vote(vote) {
                return false;
            }
        }
        true
    }

    // Returns whether the vote is the one in its slot.
    fn has_vote(&self, vote: &Vote<B>) -> bool
        ensures { result ≡ has_vote B.same self.now.rows.votes vote.now }
    {
        match self.votes.find(vote.slot) {
            Some(held) => held.same(vote),
            None => false,
        }
    }

    /// Copies the member's votes from the slot with this number on, and no other.
    pub fn votes_from(&self, first: u64) -> Result<Votes<B>, Memory>
        ensures { IfOk result (λ votes. votes ≡ votes_from first self.now.rows.votes) }
    {
        Ok(self.votes.copy_from(self.alloc, first)?)
    }

    /// Takes over what was committed: the promise, the snapshot, with which the votes up to its floor are forgotten, and each vote in its
    /// slot. On `Memory` the rows stay as they were and the acceptor is
    /// failed: make it anew, by `of`, from the rows that are committed. A failed acceptor returns `Memory`.
    pub fn adopt(&mut self, change: Change<B>) -> Result<(), Memory>
        ensures rows { OnOk result (self.new.rows ≡ adopted self.old.rows change) }
        ensures stands { OnOk result (self.new.failed ≡ false) }
        ensures err_rows { OnErr result (self.new.rows ≡ self.old.rows) }
        ensures err_failed { OnErr result (self.new.failed ≡ true) }
        ensures failed { self.old.failed ≡ true → IsErr result }
    {
        if self.make_room(change.votes.as_slice().len()).is_err() {
            self.failed = true;
            return Err(Memory);
        }
        self.adopt_in_room(change);
        Ok(())
    }

    /// Reserves memory for this many more votes. The rows stay as they were, with `Memory` too. A failed acceptor returns `Memory`.
    pub fn make_room(&mut self, votes: usize) -> Result<(), Memory>
        ensures ok { OnOk result (votes ≤ self.new.room) }
        ensures stands { OnOk result (self.new.failed ≡ false) }
        ensures rows { self.new.rows ≡ self.old.rows }
        ensures failed { self.new.failed ≡ self.old.failed }
    {
        if self.is_failed() {
            return Err(Memory);
        }
        self.votes.make_room(votes)?;
        Ok(())
    }

    /// Adopts the change as `adopt` does, given room for its votes, and that the acceptor has not failed. Does not allocate, and copies
    /// nothing.
    pub fn adopt_in_room(&mut self, change: Change<B>)
        requires room { length change.votes ≤ self.old.room }
        requires stands { self.old.failed ≡ false }
        ensures rows { self.new.rows ≡ adopted self.old.rows change }
        ensures failed { self.new.failed ≡ self.old.failed }
    {
        let Change {
            promised,
            snapshot,
            votes,
        } = change;
        self.rest_on(snapshot);
        self.votes.put_all_in_room(votes);
        if promised.is_some() {
            self.promised = promised;
        }
    }

    /// Notes a change without a snapshot that is to be adopted before it is committed: the rows are ahead then by what was noted, and this
    /// change. On `Memory` nothing is noted.
    pub fn note(&self, change: &Change<B>, ahead: &mut Ahead<B>) -> Result<(), Memory>
        requires { change.now.snapshot ≡ None }
        ensures ok { (kept : held_rows.Rows B) → IsAhead kept ahead.old self.now.rows
            → OnOk result (IsAhead kept ahead.new (adopted self.now.rows change.now)) }
        ensures err { OnErr result (ahead.new ≡ ahead.old) }
    {
        if self.has_all(change) {
            return Ok(());
        }
        ahead.add(&self.votes, change)
    }

    /// Goes back to the rows before all changes that were noted. Returns the sum of these. Does not allocate.
    pub fn take_back(&mut self, ahead: Ahead<B>) -> Change<B>
        ensures rows { self.new.rows ≡ taken_back ahead self.old.rows }
        ensures failed { self.new.failed ≡ self.old.failed }
        ensures change { result ≡ ahead.change }
    {
        let (change, promised, replaced) = ahead.into_parts();
        put_all_back(&mut self.votes, replaced);
        self.promised = promised;
        change
    }

    // Takes over a new snapshot, if there is one, and forgets the votes up to its floor.
    fn rest_on(&mut self, snapshot: Option<Snapshot>)
        ensures boot { self.new.rows.boot ≡ self.old.rows.boot }
        ensures promised { self.new.rows.promised ≡ self.old.rows.promised }
        ensures snapshot { self.new.rows.snapshot ≡ option_or snapshot self.old.rows.snapshot }
        ensures votes { self.new.rows.votes ≡ kept_votes snapshot self.old.rows.votes }
        ensures room { self.old.room ≤ self.new.room }
        ensures failed { self.new.failed ≡ self.old.failed }
    {
        if let Some(snapshot) = snapshot {
            self.votes.forget(snapshot.floor());
            self.snapshot = Some(snapshot);
        }
    }

    // Plans the answer to a Prepare.
    fn plan_prepare(&self, ballot: Ballot, first: u64) -> Result<Verdict<B>, Memory>
        ensures { IfOk result (λ verdict. verdict ≡ prepared self.now.rows ballot first) }
    {
        if !may_promise(self.promised, ballot) {
            return Ok(self.refuse(ballot));
        }
        let floor = self.floor();
        let votes = self
            .votes
            .copy_from(self.alloc, first.max(floor.get() + 1))?;
        let mut change = Change::none(self.alloc);
        change.promised = Some(ballot);
        Ok(Verdict {
            change,
            answer: Answer::ToSender {
                kind: Kind::Promise {
                    ballot,
                    floor,
                    votes,
                },
            },
        })
    }

    // Plans the answer to an Accept.
    fn plan_accept(&self, vote: &Vote<B>) -> Result<Verdict<B>, Memory>
        ensures { IfOk result (λ verdict. verdict ≡ voted self.now.rows vote.now) }
    {
        if !may_accept(self.promised, vote.ballot) {
            return Ok(self.refuse(vote.ballot));
        }
        self.cast_or_show(vote)
    }

    // Plans a vote that the promise allows, or the snapshot instead.
    fn cast_or_show(&self, vote: &Vote<B>) -> Result<Verdict<B>, Memory>
        ensures { IfOk result (λ verdict. verdict ≡ cast_or_shown (given_by self.now.rows.snapshot vote.now.slot) vote.now) }
    {
        if let Some(snapshot) = self.gives(vote.slot.get()) {
            return Ok(Verdict {
                change: Change::none(self.alloc),
                answer: Answer::ToSender {
                    kind: Kind::Snapshot {
                        snapshot: snapshot.share()?,
                    },
                },
            });
        }
        let mut change = Change::none(self.alloc);
        change.promised = Some(vote.ballot);
        change.votes.put(vote.copy(self.alloc)?)?;
        Ok(Verdict {
            change,
            answer: Answer::ToOthers {
                kind: Kind::Accepted {
                    vote: vote.copy(self.alloc)?,
                },
            },
        })
    }
}

// Returns whether a ballot may be promised: no promise was made, or it is below the ballot.
fn may_promise(promised: Option<Ballot>, ballot: Ballot) -> bool
    ensures { result ≡ may_promise promised ballot }
{
    match promised {
        Some(promised) => promised.is_below(&ballot),
        None => true,
    }
}

// Returns whether a vote in the ballot may be cast: no promise was made, or the ballot is not below it.
fn may_accept(promised: Option<Ballot>, ballot: Ballot) -> bool
    ensures { result ≡ may_accept promised ballot }
{
    match promised {
        Some(promised) => !ballot.is_below(&promised),
        None => true,
    }
}

// Returns whether a change promises nothing else: it promises nothing, or the ballot that is promised.
fn has_promise(held: Option<Ballot>, new: Option<Ballot>) -> bool
    ensures { result ≡ has_promise held new }
{
    match (held, new) {
        (_, None) => true,
        (Some(held), Some(new)) => held == new,
        (None, Some(_)) => false,
    }
}

// Puts back what votes replaced, the last one first.
fn put_all_back<B: Drop>(votes: &mut KeptVotes<B>, mut replaced: Vec<Replaced<B>>)
    ensures { votes.new.votes ≡ put_all_back replaced.items votes.old.votes }
{
    while let Some(had) = replaced.pop() {
        put_back(votes, had);
    }
}

// Puts back what a vote replaced.
fn put_back<B: Drop>(votes: &mut KeptVotes<B>, had: Replaced<B>)
    ensures { votes.new.votes ≡ put_had had votes.old.votes }
{
    match had {
        Replaced::Nothing { slot } => votes.put_back(slot, None),
        Replaced::Held { vote } => votes.put_back(vote.slot, Some(vote)),
    }
}
