//! Which nodes take part in a rescue, and whether there is one (docs/CONSENSUS.md, "No dead end").

ghost use Rattle.std.specs.Prelude.{◌≡◌, ◌<◌, ◌≤◌, ◌+◌, if◌then◌else◌, List, None, ◌++◌, map, IfOk, IfSome, IsOkUnless, OnOk, is_some};
ghost use Rattle.std.specs.Prelude.{option_copied, nat_lt};
ghost use Rattle.std.specs.List.{list_any};
ghost use Rattle.paxos_node.specs.declared.event.Event as occurred;
ghost use Rattle.paxos_node.specs.Events.{last_number};
ghost use Rattle.paxos_packets.specs.Members.{is_majority};
ghost use Rattle.paxos_packets.specs.Rows.{last_boot};
ghost use Rattle.paxos_packets.specs.Snapshot.{floor_in};
ghost use Rattle.paxos_packets.specs.Vote.{IsAscending};
ghost use Rattle.paxos_proposer.specs.Proposer.{round_of};
ghost use Rattle.replica_machine.specs.Log.{machine_from};
ghost use Rattle.cluster_world.specs.Helpers.{helper_at, helpers_of, seat_at};
ghost use Rattle.cluster_world.specs.Rescue.{any_member, is_crowded, round_held, last_rescue_round, last_rescue_slot};
ghost use Rattle.cluster_world.specs.Rescue.{rescue_refused, HasRoom, Refuses, MayBeRescued, Rescues};
ghost use Rattle.cluster_world.specs.declared.fault.RescueFault.TheVariants as fault;
ghost use Rattle.cluster_world.specs.StandsAt.{StandsAt};
ghost use Rattle.cluster_world.specs.World as worlds;
ghost use Rattle.cluster_world.specs.Saving.{played_of};
ghost use Rattle.cluster_world.specs.World.{node_at};
ghost use Rattle.world_rescue.specs.Course.{act, seat_of, course};
ghost use Rattle.world_rescue.specs.Parts.{crew_of};

use crate::fault::RescueFault;
use crate::laws;
use crate::world::World;
use paxos_node::{Event, Node};
use paxos_packets::{Ballot, Memory};
use replica_machine::Machine;
use std::alloc::Global;
use world_rescue::Crew;

// The greatest round and the greatest slot that a node that is up may hold at a rescue.
const LAST_ROUND: u64 = (1 << 48) - 8;

const LAST_SLOT: u64 = (1 << 40) - 4097;

impl<M: Machine> World<M> {
    /// Returns events that bring the node to apply the act `body` of its transport with this number: once they were run from this world on,
    /// the node's log ends with that act's Item, of the boot in which the node is then, and the Item takes effect. They restart the node at
    /// most once: if it has to apply a Lost of its present boot, or to rest on a snapshot in which that boot stands. They take no other node
    /// down. That holds if the number is not 0, the node has taken fewer than 2^48 - 1 acts in its boot, and its boot is below 2^48 - 1; no
    /// other premise is made.
    ///
    /// Returns `NoMajority` if no majority is up, `NodeDown` if the node is down or not a member, `NoRoom` if a node that is up holds a round
    /// above 2^48 - 8, or a vote in a slot or a floor above 2^40 - 4,097, in this order, and `Memory` last, only if memory runs out: the
    /// events lack no round and no slot then. Looks at what the nodes that are up have beyond this node's log; only if the node has to
    /// restart the log after its floor is in the events.
    pub fn rescue(
        &self,
        node: u8,
        number: u32,
        body: M::Body,
    ) -> Result<Vec<Event<M::Body>>, RescueFault>
        ensures refused { (first : M.Content) (es : List (occurred.Event M.Body)) →
            StandsAt M.Body.same M.content M.saved M.loaded (machine_from M.steps first) self.now es →
            Refuses (rescue_refused self.now.members (played_of M.saved (machine_from M.steps first) M.Body.same self.now.members es) node) result }
        ensures rescued { (first : M.Content) (es : List (occurred.Event M.Body)) →
            StandsAt M.Body.same M.content M.saved M.loaded (machine_from M.steps first) self.now es →
            MayBeRescued (node_at (played_of M.saved (machine_from M.steps first) M.Body.same self.now.members es).nodes node) number →
            IfOk result (λ events. Rescues M.Body.same self.now.members (played_of M.saved (machine_from M.steps first) M.Body.same self.now.members es) node number body events.items) }
    {
        laws::no_dead_end::<M::Body>();
        laws::rescues_have_room::<M::Body>();
        self.count();
        let done = self.rescue_by(node, number, &body);
        drop(body);
        done
    }

    // Returns the events, or why there are none, by what the nodes hold.
    fn rescue_by(
        &self,
        node: u8,
        number: u32,
        body: &M::Body,
    ) -> Result<Vec<Event<M::Body>>, RescueFault>
        ensures refused { (w : worlds.World M.Body) → self.now.nodes ≡ w.nodes →
            (rescue_refused self.now.members w node ≡ None → HasRoom (crew_of self.now.members (seat_at self.now.nodes node)
            (helpers_of self.now.nodes node self.now.members))) → Refuses (rescue_refused self.now.members w node) result }
        ensures course { (node_at self.now.nodes node).rows.boot < last_boot → (node_at self.now.nodes node).taken < last_number →
            IfOk result (λ events. events.items ≡ course M.Body.same (crew_of self.now.members (seat_at self.now.nodes node)
            (helpers_of self.now.nodes node self.now.members)) (act number body.now)) }
    {
        if !self.has_majority() {
            return Err(RescueFault::NoMajority);
        }
        let Some(own) = self.running(node) else {
            return Err(RescueFault::NodeDown);
        };
        if self.is_crowded() {
            return Err(RescueFault::NoRoom);
        }
        self.events_for(own, node, number, body)
    }

    // Returns how many members there are.
    fn count(&self) -> u8
        ensures count { result ≡ self.now.members }
        ensures least { 3 ≤ self.now.members }
        ensures most { self.now.members ≤ 7 }
    {
        self.members.count()
    }

    // Returns the node, if it is up.
    fn running(&self, node: u8) -> Option<&Node<M::Body>>
        ensures up { is_some result ≡ (node_at self.now.nodes node).up }
        ensures me { IfSome (option_copied result) (λ held. held.me ≡ node) }
        ensures state { IfSome (option_copied result) (λ held. held.state ≡ node_at self.now.nodes node) }
    {
        let Some(member) = self.member(node) else {
            return None;
        };
        member.running()
    }

    // Returns whether the node is up.
    fn is_running(&self, node: u8) -> bool
        ensures { result ≡ (node_at self.now.nodes node).up }
    {
        self.running(node).is_some()
    }

    // Returns whether a majority is up.
    fn has_majority(&self) -> bool
        ensures { result ≡ is_majority self.now.members (λ k. (node_at self.now.nodes k).up) }
    {
        let members = self.count();
        let mut count: u8 = 0;
        for below in 0..members {
            count = self.count_with(count, below + 1);
        }
        members < 2 * count
    }

    // Returns this count, with the node if it is up.
    fn count_with(&self, count: u8, node: u8) -> u8
        requires { count < 255 }
        ensures { result ≡ (if (node_at self.now.nodes node).up then 1 else 0) + count }
    {
        if self.is_running(node) {
            return count + 1;
        }
        count
    }

    // Returns whether a node that is up holds a round or a slot past the limits.
    fn is_crowded(&self) -> bool
        ensures { result ≡ any_member self.now.members (λ k. is_crowded (node_at self.now.nodes k)) }
    {
        let mut crowded = false;
        for below in 0..self.count() {
            crowded |= self.is_crowded_at(below + 1);
        }
        crowded
    }

    // Returns whether the node is up and holds a round or a slot past the limits.
    fn is_crowded_at(&self, node: u8) -> bool
        ensures { result ≡ is_crowded (node_at self.now.nodes node) }
    {
        self.ascends(node);
        let Some(held) = self.running(node) else {
            return false;
        };
        is_late(held) || has_late_vote(held) || has_late_floor(held)
    }

    // The votes that a node has cast ascend.
    fn ascends(&self, node: u8)
        ensures { IsAscending (node_at self.now.nodes node).rows.votes }
    {
        self.leads();
    }

    // Returns the other nodes that are up.
    fn helpers(&self, node: u8) -> Result<Vec<&Node<M::Body>>, Memory>
        ensures { IfOk result (λ list. map (λ h. seat_of h.now) list.items ≡ helpers_of self.now.nodes node self.now.members) }
    {
        let mut helpers = Vec::new(self.alloc());
        for below in 0..self.count() {
            self.add_helper(&mut helpers, node, below + 1)?;
        }
        Ok(helpers)
    }

    // Appends the node `other`, if it is another one than `node` and up.
    fn add_helper<'a>(
        &'a self,
        helpers: &mut Vec<&'a Node<M::Body>>,
        node: u8,
        other: u8,
    ) -> Result<(), Memory>
        ensures { OnOk result (map (λ h. seat_of h.now) helpers.new.items
            ≡ map (λ h. seat_of h.now) helpers.old.items ++ helper_at self.now.nodes node other) }
    {
        if other == node {
            return Ok(());
        }
        let Some(helper) = self.running(other) else {
            return Ok(());
        };
        let Ok(()) = helpers.push(helper) else {
            return Err(Memory);
        };
        Ok(())
    }

    // Returns where its memory comes from.
    fn alloc(&self) -> Global {
        *self.made.allocator()
    }

    // Returns the events by which the node applies the act.
    fn events_for(
        &self,
        own: &Node<M::Body>,
        node: u8,
        number: u32,
        body: &M::Body,
    ) -> Result<Vec<Event<M::Body>>, RescueFault>
        ensures course { own.now.state.rows.boot < last_boot → own.now.state.taken < last_number → IfOk result (λ events. events.items
            ≡ course M.Body.same (crew_of self.now.members (seat_of own.now) (helpers_of self.now.nodes node self.now.members)) (act number body.now)) }
        ensures room { HasRoom (crew_of self.now.members (seat_of own.now) (helpers_of self.now.nodes node self.now.members)) →
            IsOkUnless result fault.Memory }
    {
        let helpers = self.helpers(node)?;
        let mut events = Vec::new(self.alloc());
        Crew::of(self.alloc(), self.members, own, &helpers).course(&mut events, number, body)?;
        Ok(events)
    }
}

// Returns whether the node holds a round past the limit.
fn is_late<B>(node: &Node<B>) -> bool
    ensures { result ≡ nat_lt last_rescue_round (round_held node.now.state) }
{
    let Ok(ballot) = node.next_ballot() else {
        return true;
    };
    let seen = ballot.round - 1;
    LAST_ROUND < seen.max(round_of(node.promised()))
}

// Returns the round of a promise.
fn round_of(promised: Option<Ballot>) -> u64
    ensures { result ≡ round_of promised }
{
    match promised {
        Some(promised) => promised.round,
        None => 0,
    }
}

// Returns whether the node's floor is past the limit.
fn has_late_floor<B>(node: &Node<B>) -> bool
    ensures { result ≡ nat_lt last_rescue_slot (floor_in node.now.state.rows.snapshot) }
{
    LAST_SLOT < node.floor().get()
}

// Returns whether the node's last vote, and so any of them, is in a slot past the limit.
fn has_late_vote<B>(node: &Node<B>) -> bool
    requires { IsAscending node.now.state.rows.votes }
    ensures { result ≡ list_any (λ v. nat_lt last_rescue_slot v.slot) node.now.state.rows.votes }
{
    let Some(last) = node.votes().last() else {
        return false;
    };
    LAST_SLOT < last.slot.get()
}
