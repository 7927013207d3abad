//! The world of a cluster: how it begins, and what it shows of logs, sayings and packets.

ghost use Rattle.std.specs.Prelude.{◌≡◌, ◌-◌, ◌<◌, ◌≤◌, ◌+◌, ◌^◌, ◌++◌, ◌∷◌, [], List, false, Some, None, IfOk, OnOk, OnErr, length, map, slice_get, nat_le, option_copied, IfSome, if◌then◌else◌, vec_len, vec_capacity};
ghost use Rattle.replica_follower.specs.Following.{Follows};
ghost use Rattle.paxos_node.specs.Applying.{base};
ghost use Rattle.paxos_node.specs.declared.event.Event as occurred;
ghost use Rattle.replica_machine.specs.Log.{machine_from};
ghost use Rattle.replica_machine.specs.Roll.{HasStandings};
ghost use Rattle.cluster_world.specs.Founding.{AreFounded, AreAlike, AllFollow, NoneGivenUp};
ghost use Rattle.cluster_world.specs.StandsAt.{StandsAt, HaveContent, LoadsFirst, HasLog, machine_at};
ghost use Rattle.cluster_world.specs.Members.{MemberState, node_or_absent, machine_or_none};
ghost use Rattle.cluster_world.specs.Told.{WereHanded};
ghost use Rattle.cluster_world.specs.World.{node_at, handed};
ghost use Rattle.cluster_world.specs.Saving.{played_of};
ghost use Rattle.cluster_world.specs.Headline.{log_in, floor_in};

use crate::fault::Memory;
use crate::handings::{Handings, all_tell};
use crate::member::Member;
use paxos_packets::{Entry, Members, Packet, Transport};
use replica_machine::{Machine, Roll, SaveFault};
use std::alloc::Global;
use std::marker::Model;
use world_packets::SentPackets;

/// A whole cluster under any schedule: all nodes with their machines, and every packet that they ever sent.
pub struct World<M: Machine> {
    pub(crate) members: Members,
    pub(crate) list: Vec<Member<M>>,
    pub(crate) sent: SentPackets<M::Body>,
    pub(crate) made: Vec<Entry<M::Body>>,
    // The octets of the empty log with the first machine, of which a restart without a snapshot makes a machine; none if that machine had failed.
    pub(crate) first: Vec<u8>,
}

impl<M: Machine> Drop for World<M> {
    fn drop(self) {
        let World {
            members: _,
            list: _list,
            sent: _sent,
            made: _made,
            first: _first,
        } = self;
    }
}

impl<M: Machine> Model for World<M> {
    ghost use Rattle.std.specs.Prelude.{List};
    ghost use Rattle.paxos_node.specs.declared.event.Event as occurred;
    ghost use Rattle.cluster_world.specs.Members.{AreMembers, held_of};
    ghost use Rattle.cluster_world.specs.StandsAt.{Held, ShowsAt};

    ghost Value = { Held M.Body M M.Say };

    ghost view = { λ w. held_of w.members w.list.items w.sent.packets w.made.items w.first.items };

    // Some events lead to it.
    ghost invariant = { λ w. AreMembers w.members w.list.items × ((es : List (occurred.Event M.Body))
        × ShowsAt M.Body.same (held_of w.members w.list.items w.sent.packets w.made.items w.first.items) es) };
}

impl<M: Machine> World<M> {
    /// Returns the first world of these members: all nodes are up in their first boot, and nothing was sent. Node 1 gets the first machine,
    /// and so on; all have one content. A machine that has failed is given up at the first entry for it.
    ///
    /// Saves the first machine: a restart of a node without a snapshot makes a machine of its octets, which has the first content again. If no
    /// machine is made of them, or if the first machine has failed, such a restart gives the machine of its node up.
    pub fn new(alloc: Global, members: Members, machines: Vec<M>) -> Result<World<M>, Memory>
        requires count { vec_len machines ≡ members }
        requires alike { AreAlike M.content machines.items }
        ensures members { IfOk result (λ w. w.members ≡ members) }
        ensures alive { IfOk result (λ w. NoneGivenUp w.machines) }
        ensures stands { (first : M.Content) → HaveContent M.content first machines.items →
            IfOk result (λ w. StandsAt M.Body.same M.content M.saved M.loaded (machine_from M.steps first) w []) }
    {
        let _ = members.count();
        let mut list = Vec::new(alloc);
        let mut made = Vec::new(alloc);
        found_all(alloc, members, machines, &mut list, &mut made)?;
        let first = octets_of(alloc, &list)?;
        Ok(World {
            members,
            list,
            sent: SentPackets::new(alloc),
            made,
            first,
        })
    }

    /// Returns the members of the cluster. Does not allocate.
    pub fn members(&self) -> Members
        ensures { result ≡ self.now.members }
    {
        self.members
    }

    /// Returns the entries of the node's log above its floor, the lowest slot first; empty if it is down or not a member. Does not allocate.
    pub fn log(&self, node: u8) -> &[Entry<M::Body>]
        ensures { result.now ≡ log_in self.now node }
    {
        match self.member(node) {
            Some(member) => member.log(),
            None => &[],
        }
    }

    /// Returns the floor of the node's log: how many of its entries the snapshot stands for that the node rests on; 0 without one, or if it is
    /// not a member. Does not allocate.
    pub fn floor(&self, node: u8) -> u64
        ensures value { result ≡ floor_in self.now node }
        ensures within { result < 2 ^ 40 }
    {
        match self.member(node) {
            Some(member) => member.floor(),
            None => 0,
        }
    }

    /// Returns where each node stands at the floor of the node's log. Does not allocate.
    pub fn standings(&self, node: u8) -> Roll
        ensures { HasStandings (base (node_at self.now.nodes node).rows) result }
    {
        match self.member(node) {
            Some(member) => member.standings(),
            None => Roll::new(),
        }
    }

    /// Returns what the transport was handed, oldest first; empty if it was handed nothing. Does not allocate.
    pub fn said(&self, transport: Transport) -> &[M::Say]
        ensures { (first : M.Content) (es : List (occurred.Event M.Body)) →
            StandsAt M.Body.same M.content M.saved M.loaded (machine_from M.steps first) self.now es →
            result.now ≡ handed (machine_from M.steps first) transport (played_of M.saved (machine_from M.steps first) M.Body.same self.now.members es) }
    {
        match self.member(transport.node) {
            Some(member) => member.said(transport),
            None => &[],
        }
    }

    /// Returns the transports that were handed something, by node, boot and number, each with what it was handed, oldest first. Does not
    /// allocate.
    pub fn handed(&self) -> Handings<'_, M>
        ensures { (first : M.Content) (es : List (occurred.Event M.Body)) →
            StandsAt M.Body.same M.content M.saved M.loaded (machine_from M.steps first) self.now es →
            WereHanded (machine_from M.steps first) (played_of M.saved (machine_from M.steps first) M.Body.same self.now.members es) result }
    {
        let _ = self.members.count();
        all_tell(&self.list);
        Handings::of(&self.list)
    }

    /// Returns whether the node is up; a node that is not a member is down. Does not allocate.
    pub fn is_up(&self, node: u8) -> bool
        ensures { (first : M.Content) (es : List (occurred.Event M.Body)) →
            StandsAt M.Body.same M.content M.saved M.loaded (machine_from M.steps first) self.now es →
            result ≡ (node_at (played_of M.saved (machine_from M.steps first) M.Body.same self.now.members es).nodes node).up }
    {
        match self.member(node) {
            Some(member) => member.is_up(),
            None => false,
        }
    }

    /// Returns how many packets were ever sent. Does not allocate.
    pub fn sent(&self) -> usize
        ensures { (first : M.Content) (es : List (occurred.Event M.Body)) →
            StandsAt M.Body.same M.content M.saved M.loaded (machine_from M.steps first) self.now es →
            result ≡ length (played_of M.saved (machine_from M.steps first) M.Body.same self.now.members es).sent }
    {
        self.sent.as_slice().len()
    }

    /// Returns the packet with this number, from 1 on, in the order in which they were sent. Does not allocate.
    pub fn packet(&self, number: usize) -> Option<&Packet<M::Body>>
        ensures { (first : M.Content) (es : List (occurred.Event M.Body)) →
            StandsAt M.Body.same M.content M.saved M.loaded (machine_from M.steps first) self.now es →
            option_copied result ≡ (if nat_le 1 number then slice_get (played_of M.saved (machine_from M.steps first) M.Body.same self.now.members es).sent (number - 1) else None) }
    {
        if number == 0 {
            return None;
        }
        self.sent.as_slice().get(number - 1)
    }

    // Returns the member with this number.
    pub(crate) fn member(&self, node: u8) -> Option<&Member<M>>
        ensures node { node_at self.now.nodes node ≡ node_or_absent (option_copied result) }
        ensures machine { machine_at self.now.machines node ≡ machine_or_none (option_copied result) }
        ensures log { IfSome (option_copied result) (λ s. HasLog s.node s.machine) }
        ensures down { IfSome (option_copied result) (λ s. s.node.up ≡ false → s.node.applied ≡ []) }
        ensures me { IfSome (option_copied result) (λ s. s.me ≡ node) }
    {
        if node == 0 {
            return None;
        }
        match self.list.get((node - 1) as usize) {
            Some(member) => Some(member),
            None => None,
        }
    }
}

// Returns the octets of the first member's machine, which has applied nothing yet; none if it had failed.
fn octets_of<M: Machine>(alloc: Global, list: &[Member<M>]) -> Result<Vec<u8>, Memory>
    ensures { (first : M.Content) (s : MemberState M.Body M M.Say) → slice_get list.now 0 ≡ Some s →
        s.machine.given_up ≡ false → s.machine.log.applied ≡ [] →
        Follows M.content (machine_from M.steps first) [] s.machine →
        IfOk result (λ octets. LoadsFirst M.loaded first octets.items) }
{
    let Some(member) = list.first() else {
        return Ok(Vec::new(alloc));
    };
    match member.saved() {
        Ok(octets) => Ok(octets),
        Err(SaveFault::Failed) => Ok(Vec::new(alloc)),
        Err(SaveFault::Memory) => Err(Memory),
    }
}

// Returns the members with their machines, each of which starts for the first time.
fn found_all<M: Machine>(
    alloc: Global,
    members: Members,
    machines: Vec<M>,
    list: &mut Vec<Member<M>>,
    made: &mut Vec<Entry<M::Body>>,
) -> Result<(), Memory>
    requires count { vec_len machines ≡ members }
    requires none { list.old.items ≡ [] }
    requires nothing { made.old.items ≡ [] }
    ensures count { OnOk result (length list.new.items ≡ members) }
    ensures founded { OnOk result (AreFounded members list.new.items made.new.items) }
    ensures follows { (first : M.Content) → HaveContent M.content first machines.items →
        OnOk result (AllFollow M.content (machine_from M.steps first) list.new.items) }
{
    let Ok(()) = list.reserve(machines.len()) else {
        return Err(Memory);
    };
    let Ok(()) = made.reserve(machines.len()) else {
        return Err(Memory);
    };
    let _ = members.count();
    for machine in machines {
        found(alloc, members, machine, list, made)?;
    }
    Ok(())
}

// Appends one more member, which starts for the first time.
fn found<M: Machine>(
    alloc: Global,
    members: Members,
    machine: M,
    list: &mut Vec<Member<M>>,
    made: &mut Vec<Entry<M::Body>>,
) -> Result<(), Memory>
    requires few { vec_len list.old < 7 }
    requires list_room { vec_len list.old < vec_capacity list.old }
    requires made_room { vec_len made.old < vec_capacity made.old }
    requires founded { AreFounded members list.old.items made.old.items }
    ensures count { OnOk result (length list.new.items ≡ length list.old.items + 1) }
    ensures made_count { OnOk result (vec_len made.new ≡ vec_len made.old + 1) }
    ensures list_room { OnOk result (vec_capacity list.new ≡ vec_capacity list.old) }
    ensures made_room { OnOk result (vec_capacity made.new ≡ vec_capacity made.old) }
    ensures founded { OnOk result (AreFounded members list.new.items made.new.items) }
    ensures follows { (first : M.Content) → M.content machine ≡ first →
        AllFollow M.content (machine_from M.steps first) list.old.items →
        OnOk result (AllFollow M.content (machine_from M.steps first) list.new.items) }
{
    let me = list.len() as u8 + 1;
    let Ok(member) = Member::first(alloc, me, members, machine) else {
        return Err(Memory);
    };
    list.push_reserved(member);
    made.push_reserved(Entry::Boot { node: me, boot: 1 });
    Ok(())
}
