//! What a packet brings about at its addressee.

ghost use Rattle.std.specs.Prelude.{◌≡◌, ◌+◌, ◌∷◌, [], ◌++◌, map, OnOk, IfOk};
ghost use Rattle.paxos_packets.specs.Snapshot.{floor_in};
ghost use Rattle.paxos_acceptor.specs.Acceptor.{given_by};
ghost use Rattle.paxos_learner.specs.Learner.{learned_within};
ghost use Rattle.paxos_proposer.specs.Promises.{promised, called_by};
ghost use Rattle.paxos_proposer.specs.Proposer.{nacked};
ghost use Rattle.paxos_planning.specs.Drafting.{in_role, seeing, told_to};
ghost use Rattle.paxos_planning.specs.Plan.{send};
ghost use Rattle.paxos_planning.specs.Replies.{refuse, on_prepare, on_accept, cast_or_show, on_promise, on_forward, on_ask, show, told_from};
ghost use Rattle.paxos_planning.specs.Replies.{on_packet, round_in, round_of_votes};

use crate::draft::Draft;
use paxos_learner::LearnedEntry;
use paxos_packets::{
    Ballot, Body, Entries, Entry, Floor, Kind, Memory, Packet, Snapshot, Vote, Votes,
};

impl<'a, B: Body> Draft<'a, B> {
    /// Plans what the packet brings about, given that nothing happened before it.
    pub fn on_packet(&mut self, sender: u8, kind: &Kind<B>) -> Result<(), Memory>
        requires votes { self.old.plan.change.votes ≡ [] }
        requires role { self.old.plan.node.proposer.role ≡ self.old.of.state.proposer.role }
        ensures of { self.new.of ≡ self.old.of }
        ensures plan { OnOk result (self.new.plan ≡ on_packet B.same self.old.of.members self.old.of.me sender kind.now
            (seeing (round_in kind.now) self.old.plan)) }
    {
        self.saw(round_in(kind))?;
        self.answer(sender, kind)?;
        Ok(())
    }

    // Plans what the packet brings about once its rounds were seen.
    fn answer(&mut self, sender: u8, kind: &Kind<B>) -> Result<(), Memory>
        requires votes { self.old.plan.change.votes ≡ [] }
        requires role { self.old.plan.node.proposer.role ≡ self.old.of.state.proposer.role }
        ensures of { self.new.of ≡ self.old.of }
        ensures plan { OnOk result (self.new.plan ≡ on_packet B.same self.old.of.members self.old.of.me sender kind.now self.old.plan) }
    {
        match kind {
            Kind::Prepare { ballot, first } => self.on_prepare(sender, *ballot, *first),
            Kind::Promise {
                ballot,
                floor,
                votes,
            } => self.on_promise(sender, *ballot, *floor, votes),
            Kind::Accept { vote } => self.on_accept(sender, vote),
            Kind::Accepted { vote } => self.count(sender, vote),
            Kind::Nack { ballot, promised } => self.on_nack(*ballot, *promised),
            Kind::Forward { entries } => self.on_forward(entries.as_slice()),
            Kind::Learned { slot, entry } => self.hear_learned(*slot, entry),
            Kind::Ask { first } => self.on_ask(sender, *first),
            Kind::Snapshot { .. } => Ok(()),
        }
    }

    // Reports what it learned from the slot on, after its snapshot if that gives the slot.
    fn on_ask(&mut self, sender: u8, first: u64) -> Result<(), Memory>
        ensures of { self.new.of ≡ self.old.of }
        ensures plan { OnOk result (self.new.plan ≡ on_ask self.old.of.me sender first self.old.plan) }
    {
        let Some(snapshot) = self.gives(first) else {
            return self.tell_from(sender, first);
        };
        self.show(snapshot, sender)?;
        self.tell_from(sender, snapshot.floor().get() + 1)
    }

    // Sends its snapshot to the member.
    fn show(&mut self, snapshot: &Snapshot, to: u8) -> Result<(), Memory>
        ensures of { self.new.of ≡ self.old.of }
        ensures plan { OnOk result (self.new.plan ≡ show self.old.of.me to snapshot.now self.old.plan) }
    {
        let Ok(snapshot) = snapshot.share() else {
            return Err(Memory);
        };
        self.send_to(Kind::Snapshot { snapshot }, to)
    }

    // Reports what it learned in the slot and the 63 after it.
    #[tactic(auto, using(crate::proofs::Planning::told_alike))]
    fn tell_from(&mut self, sender: u8, first: u64) -> Result<(), Memory>
        ensures of { self.new.of ≡ self.old.of }
        ensures plan { OnOk result (self.new.plan
            ≡ send (told_from self.old.of.me sender first self.old.plan.node.learner.learned) self.old.plan) }
    {
        let told = self.learned_from(first)?;
        self.tell(told, sender)?;
        Ok(())
    }

    // Refuses the ballot, which its promise forbids.
    fn refuse(&mut self, sender: u8, ballot: Ballot) -> Result<(), Memory>
        ensures of { self.new.of ≡ self.old.of }
        ensures plan { OnOk result (self.new.plan ≡ refuse self.old.of.me sender ballot self.old.plan) }
    {
        let promised = self.promised().unwrap_or(ballot);
        self.send_to(Kind::Nack { ballot, promised }, sender)?;
        Ok(())
    }

    // Plans the answer to a request for a promise of the ballot, given that it voted for nothing before in this event.
    pub(crate) fn on_prepare(
        &mut self,
        sender: u8,
        ballot: Ballot,
        first: u64,
    ) -> Result<(), Memory>
        requires { self.old.plan.change.votes ≡ [] }
        ensures of { self.new.of ≡ self.old.of }
        ensures plan { OnOk result (self.new.plan ≡ on_prepare self.old.of.me sender ballot first self.old.plan) }
    {
        if !self.may_promise(ballot) {
            self.refuse(sender, ballot)?;
            return Ok(());
        }
        let floor = self.floor();
        let votes = self.votes_from(first.max(floor.get() + 1))?;
        self.promise(ballot)?;
        self.send_to(
            Kind::Promise {
                ballot,
                floor,
                votes,
            },
            sender,
        )?;
        Ok(())
    }

    // Plans the answer to a request for a vote.
    pub(crate) fn on_accept(&mut self, sender: u8, vote: &Vote<B>) -> Result<(), Memory>
        ensures of { self.new.of ≡ self.old.of }
        ensures plan { OnOk result (self.new.plan
            ≡ on_accept B.same self.old.of.members self.old.of.me sender vote.now self.old.plan) }
    {
        if !self.may_accept(vote.ballot) {
            self.refuse(sender, vote.ballot)?;
            return Ok(());
        }
        self.cast_or_show(sender, vote)?;
        Ok(())
    }

    // Casts the vote, or sends its snapshot if that gives the slot.
    fn cast_or_show(&mut self, sender: u8, vote: &Vote<B>) -> Result<(), Memory>
        ensures of { self.new.of ≡ self.old.of }
        ensures plan { OnOk result (self.new.plan ≡ cast_or_show B.same self.old.of.members self.old.of.me sender
            (given_by self.old.plan.node.rows.snapshot vote.now.slot) vote.now self.old.plan) }
    {
        let Some(snapshot) = self.gives(vote.slot.get()) else {
            return self.cast(vote);
        };
        self.show(snapshot, sender)
    }

    // Counts a promise. With a majority the node leads, and proposes what the reports call for, and then what is pending.
    #[tactic(auto, using(crate::proofs::Standing::no_front))]
    pub(crate) fn on_promise(
        &mut self,
        sender: u8,
        ballot: Ballot,
        floor: Floor,
        votes: &Votes<B>,
    ) -> Result<(), Memory>
        requires { self.old.plan.node.proposer.role ≡ self.old.of.state.proposer.role }
        ensures of { self.new.of ≡ self.old.of }
        ensures plan { OnOk result (self.new.plan
            ≡ on_promise B.same self.old.of.members self.old.of.me sender ballot floor votes.now self.old.plan) }
    {
        let Some(entries) = self.hear_promise(sender, ballot, floor, votes)? else {
            return Ok(());
        };
        self.propose_all(entries.as_slice())?;
        self.push(0)?;
        Ok(())
    }

    // Takes entries that are forwarded to a leader.
    pub(crate) fn on_forward(&mut self, entries: &[Entry<B>]) -> Result<(), Memory>
        ensures of { self.new.of ≡ self.old.of }
        ensures plan { OnOk result (self.new.plan
            ≡ on_forward B.same self.old.of.members self.old.of.me entries.now self.old.plan) }
    {
        if !self.is_leading() {
            return Ok(());
        }
        self.propose_each(entries)?;
        Ok(())
    }

    // Notes that a ballot of this round came.
    pub(crate) fn saw(&mut self, round: u64) -> Result<(), Memory>
        ensures of { self.new.of ≡ self.old.of }
        ensures plan { OnOk result (self.new.plan ≡ seeing round self.old.plan) }
    {
        let Ok(()) = self.proposing.saw(round) else {
            return Err(Memory);
        };
        Ok(())
    }

    // Counts a member's promise. Returns the entries that it calls for, if it makes the node lead.
    fn hear_promise(
        &mut self,
        sender: u8,
        ballot: Ballot,
        floor: Floor,
        votes: &Votes<B>,
    ) -> Result<Option<Entries<B>>, Memory>
        requires { self.old.plan.node.proposer.role ≡ self.old.of.state.proposer.role }
        ensures of { self.new.of ≡ self.old.of }
        ensures plan { OnOk result (self.new.plan ≡ in_role (promised self.old.of.members sender ballot floor votes.now
            (floor_in self.old.plan.node.rows.snapshot) self.old.plan.node.proposer.role) self.old.plan) }
        ensures called { IfOk result (λ called. called ≡ called_by self.old.of.members sender ballot floor votes.now
            (floor_in self.old.plan.node.rows.snapshot) self.old.plan.node.proposer.role) }
    {
        let own = self.floor();
        let Ok(copy) = votes.copy(self.alloc) else {
            return Err(Memory);
        };
        let Ok(called) = self.proposing.on_promise(sender, ballot, floor, copy, own) else {
            return Err(Memory);
        };
        Ok(called)
    }

    // Notes that a ballot is refused for a promise of another.
    fn on_nack(&mut self, ballot: Ballot, promised: Ballot) -> Result<(), Memory>
        ensures of { self.new.of ≡ self.old.of }
        ensures plan { OnOk result (self.new.plan ≡ in_role (nacked ballot promised self.old.plan.node.proposer.role) self.old.plan) }
    {
        let Ok(()) = self.proposing.on_nack(ballot, promised) else {
            return Err(Memory);
        };
        Ok(())
    }

    // Copies what would be learned in the slot with this number and the 63 after it.
    fn learned_from(&self, first: u64) -> Result<Vec<LearnedEntry<B>>, Memory>
        ensures learned { IfOk result (λ told. told.items ≡ learned_within first (first + 64) self.now.plan.node.learner.learned) }
    {
        let Ok(told) = self.hearing.learned_from(first) else {
            return Err(Memory);
        };
        Ok(told)
    }

    // Reports this to the member.
    fn tell(&mut self, told: Vec<LearnedEntry<B>>, to: u8) -> Result<(), Memory>
        ensures of { self.new.of ≡ self.old.of }
        ensures plan { OnOk result (self.new.plan ≡ send (map (told_to self.old.of.me to) told.items) self.old.plan) }
    {
        put_told(&mut self.packets, self.node.me(), told, to)
    }
}

// Returns the greatest round of the ballots in a packet.
fn round_in<B>(kind: &Kind<B>) -> u64
    ensures { result ≡ round_in kind.now }
{
    match kind {
        Kind::Prepare { ballot, .. } => ballot.round,
        Kind::Promise { ballot, votes, .. } => ballot.round.max(round_of_votes(votes.as_slice())),
        Kind::Accept { vote } => vote.ballot.round,
        Kind::Accepted { vote } => vote.ballot.round,
        Kind::Nack { ballot, promised } => ballot.round.max(promised.round),
        Kind::Forward { .. } | Kind::Learned { .. } | Kind::Ask { .. } | Kind::Snapshot { .. } => 0,
    }
}

fn round_of_votes<B>(votes: &[Vote<B>]) -> u64
    ensures { result ≡ round_of_votes votes.now }
{
    let mut round = 0;
    for vote in votes {
        round = vote.ballot.round.max(round);
    }
    round
}

// Appends packets that report what was learned to the member.
fn put_told<B: Drop>(
    packets: &mut Vec<Packet<B>>,
    me: u8,
    told: Vec<LearnedEntry<B>>,
    to: u8,
) -> Result<(), Memory>
    ensures ok { OnOk result (packets.new.items ≡ packets.old.items ++ map (told_to me to) told.items) }
{
    for one in told {
        put_one(packets, me, one, to)?;
    }
    Ok(())
}

fn put_one<B: Drop>(
    packets: &mut Vec<Packet<B>>,
    me: u8,
    told: LearnedEntry<B>,
    to: u8,
) -> Result<(), Memory>
    ensures ok { OnOk result (packets.new.items ≡ packets.old.items ++ told_to me to told ∷ []) }
{
    let Ok(()) = packets.reserve(1) else {
        return Err(Memory);
    };
    let LearnedEntry { slot, entry } = told;
    packets.push_reserved(Packet {
        sender: me,
        addressee: to,
        kind: Kind::Learned { slot, entry },
    });
    Ok(())
}
