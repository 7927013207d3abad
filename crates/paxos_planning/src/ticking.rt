//! What is sent again, and what is asked for.

ghost use Rattle.std.specs.Prelude.{◌≡◌, ◌++◌, map, filter, not, OnOk};
ghost use Rattle.std.specs.List.{flat_map};
ghost use Rattle.paxos_packets.specs.Packet.{packet};
ghost use Rattle.paxos_packets.specs.declared.packet.Kind.TheVariants.{Prepare, Accept};
ghost use Rattle.paxos_learner.specs.Learner.{is_known};
ghost use Rattle.paxos_proposer.specs.Proposer.{ballot_of};
ghost use Rattle.paxos_proposer.specs.Proposing.{first_asked, promises_of, proposals_of};
ghost use Rattle.paxos_proposer.specs.Reports.{is_counted};
ghost use Rattle.paxos_proposer.specs.State.{role_in};
ghost use Rattle.paxos_planning.specs.Ticking.{again, accepts_again, ask, on_tick};
ghost use Rattle.paxos_planning.specs.Drafting.{prepares_again, asked_again};
ghost use Rattle.paxos_planning.specs.Plan.{send};

use crate::draft::{Draft, put_to_each};
use crate::parts::Parts;
use paxos_learner::Learner;
use paxos_packets::{Ballot, Body, Kind, Memory, Packet, Slot, Vote};
use paxos_proposer::Proposer;
use std::alloc::Global;

impl<'a, B: Body> Draft<'a, B> {
    /// Plans what happens as time passes: sends again what waits for an answer, and asks the others for the slots that it lacks.
    #[tactic(auto, using(crate::proofs::Standing::no_front))]
    pub fn on_tick(&mut self) -> Result<(), Memory>
        requires role { self.old.plan.node.proposer.role ≡ self.old.of.state.proposer.role }
        requires learner { self.old.plan.node.learner ≡ self.old.of.state.learner }
        ensures of { self.new.of ≡ self.old.of }
        ensures plan { OnOk result (self.new.plan ≡ on_tick B.same self.old.of.members self.old.of.me self.old.plan) }
    {
        self.again()?;
        self.push(0)?;
        self.ask()?;
        Ok(())
    }

    // Sends again what waits for an answer.
    fn again(&mut self) -> Result<(), Memory>
        requires role { self.old.plan.node.proposer.role ≡ self.old.of.state.proposer.role }
        requires learner { self.old.plan.node.learner ≡ self.old.of.state.learner }
        ensures of { self.new.of ≡ self.old.of }
        ensures plan { OnOk result (self.new.plan ≡ send (again self.old.of.members self.old.of.me
            self.old.plan.node.proposer.role self.old.plan.node.learner) self.old.plan) }
    {
        let Some(first) = self.preparing() else {
            self.accept_again()?;
            return Ok(());
        };
        let Some(ballot) = self.ballot() else {
            unreachable!()
        };
        self.prepare_again(ballot, first)?;
        Ok(())
    }

    // Asks the others for the slots that it lacks.
    fn ask(&mut self) -> Result<(), Memory>
        ensures of { self.new.of ≡ self.old.of }
        ensures plan { OnOk result (self.new.plan ≡ ask self.old.of.members self.old.of.me self.old.plan) }
    {
        let first = self.applied() + 1;
        self.send_to_others(&Kind::Ask { first })?;
        Ok(())
    }

    // Returns the slot from which on a ballot that is being prepared asks for votes.
    fn preparing(&self) -> Option<u64>
        ensures { result ≡ first_asked self.now.of.state.proposer.role }
    {
        self.node.proposer().preparing()
    }

    // Returns the ballot under way.
    fn ballot(&self) -> Option<Ballot>
        ensures { result ≡ ballot_of self.now.of.state.proposer.role }
    {
        self.node.proposer().ballot()
    }

    // Asks those members again for a promise whose promise was not counted.
    fn prepare_again(&mut self, ballot: Ballot, first: u64) -> Result<(), Memory>
        ensures of { self.new.of ≡ self.old.of }
        ensures plan { OnOk result (self.new.plan ≡ send (prepares_again self.old.of.members self.old.of.me ballot first
            (promises_of self.old.of.state.proposer.role)) self.old.plan) }
    {
        put_prepares_again(&mut self.packets, &self.node, ballot, first)
    }

    // Asks the others again for the votes that it proposed, except in slots of which it is known what they hold.
    fn accept_again(&mut self) -> Result<(), Memory>
        ensures of { self.new.of ≡ self.old.of }
        ensures plan { OnOk result (self.new.plan ≡ send (accepts_again self.old.of.members self.old.of.me
            self.old.of.state.learner (proposals_of self.old.of.state.proposer.role)) self.old.plan) }
    {
        put_accepts_again(self.alloc, &mut self.packets, &self.node)
    }
}

fn put_prepares_again<B: Body>(
    packets: &mut Vec<Packet<B>>,
    node: &Parts<'_, B>,
    ballot: Ballot,
    first: u64,
) -> Result<(), Memory>
    ensures ok { OnOk result (packets.new.items ≡ packets.old.items
        ++ prepares_again node.now.members node.now.me ballot first (promises_of node.now.state.proposer.role)) }
{
    let me = node.me();
    let others = node.members().others(me);
    put_prepares(
        packets,
        me,
        node.proposer(),
        ballot,
        first,
        others.as_slice(),
    )
}

fn put_accepts_again<B: Body>(
    alloc: Global,
    packets: &mut Vec<Packet<B>>,
    node: &Parts<'_, B>,
) -> Result<(), Memory>
    ensures ok { OnOk result (packets.new.items ≡ packets.old.items
        ++ accepts_again node.now.members node.now.me node.now.state.learner (proposals_of node.now.state.proposer.role)) }
{
    let me = node.me();
    let others = node.members().others(me);
    node.begins();
    let votes = node.proposer().proposed_after(node.applied());
    put_accepts(alloc, packets, me, node.learner(), votes, others.as_slice())?;
    Ok(())
}

// Appends requests for a promise to those of the others whose promise was not counted.
fn put_prepares<B: Body>(
    packets: &mut Vec<Packet<B>>,
    me: u8,
    proposer: &Proposer<B>,
    ballot: Ballot,
    first: u64,
    others: &[u8],
) -> Result<(), Memory>
    ensures ok { OnOk result (packets.new.items ≡ packets.old.items ++ map (packet me (Prepare ballot first))
        (filter (λ k. not (is_counted (promises_of (role_in proposer.now)) k)) others.now)) }
{
    for other in others {
        if proposer.is_counted(*other) {
            continue;
        }
        let Ok(()) = packets.reserve(1) else {
            return Err(Memory);
        };
        packets.push_reserved(Packet {
            sender: me,
            addressee: *other,
            kind: Kind::Prepare { ballot, first },
        });
    }
    Ok(())
}

// Appends requests for these votes to the others, except in slots of which it is known what they hold.
fn put_accepts<B: Body>(
    alloc: Global,
    packets: &mut Vec<Packet<B>>,
    me: u8,
    learner: &Learner<B>,
    votes: &[Vote<B>],
    others: &[u8],
) -> Result<(), Memory>
    ensures ok { OnOk result (packets.new.items ≡ packets.old.items
        ++ flat_map (asked_again me others.now learner.now.state.learner) votes.now) }
{
    for vote in votes {
        put_accept(alloc, packets, me, learner, vote, others)?;
    }
    Ok(())
}

// Appends requests for the vote to the others, unless it is known what its slot holds.
fn put_accept<B: Body>(
    alloc: Global,
    packets: &mut Vec<Packet<B>>,
    me: u8,
    learner: &Learner<B>,
    vote: &Vote<B>,
    others: &[u8],
) -> Result<(), Memory>
    ensures ok { OnOk result (packets.new.items ≡ packets.old.items ++ asked_again me others.now learner.now.state.learner vote.now) }
{
    if is_known(learner, vote.slot) {
        return Ok(());
    }
    let Ok(copy) = vote.copy(alloc) else {
        return Err(Memory);
    };
    put_to_each(alloc, packets, me, others, &Kind::Accept { vote: copy })
}

#[tactic(auto, using(paxos_learner::proofs::Ahead::learned_is))]
fn is_known<B>(learner: &Learner<B>, slot: Slot) -> bool
    ensures { result ≡ is_known slot learner.now.state.learner }
{
    learner.is_closed(slot) || learner.learned(slot).is_some()
}
