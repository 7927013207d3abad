//! One member of a world: its node, and the machine that stands where the node stands.

ghost use Rattle.std.specs.Prelude.{◌≡◌, suc, ◌≤◌, ◌<◌, ◌+◌, ◌^◌, ◌++◌, [], ◌∷◌, List, length, true, false, Option, Some, None, ℕ, IfOk, OnOk, OnErr, vec_len, vec_capacity, option_copied, is_some, IfSome};
ghost use Rattle.paxos_packets.specs.declared.entry.Entry as log_entries;
ghost use Rattle.paxos_packets.specs.declared.entry.Entry.TheVariants.{Boot};
ghost use Rattle.paxos_packets.specs.declared.transport.Transport as transports;
ghost use Rattle.paxos_packets.specs.Rows.{last_boot, raised, first_rows};
ghost use Rattle.paxos_packets.specs.Snapshot.{Snapshot, floor_in};
ghost use Rattle.paxos_node.specs.declared.event.Event.TheVariants.{Cut, Restart};
ghost use Rattle.paxos_node.specs.Adopting.{adopted, Fits};
ghost use Rattle.paxos_node.specs.Applying.{base, down, started};
ghost use Rattle.paxos_node.specs.Events.{owner, outcome_of, made_by};
ghost use Rattle.paxos_node.specs.Plans.{plans};
ghost use Rattle.paxos_planning.specs.Drafting.{listed};
ghost use Rattle.paxos_planning.specs.Node.{told_length};
ghost use Rattle.replica_machine.specs.Given.{AreGiven};
ghost use Rattle.replica_machine.specs.Log.{machine_from, length_in, IsLogOf};
ghost use Rattle.replica_machine.specs.Roll.{HasStandings};
ghost use Rattle.replica_machine.specs.Snapshot.{kept_of, loaded_log};
ghost use Rattle.replica_follower.specs.Following.{handed_to, Follows};
ghost use Rattle.replica_follower.specs.Handed.{said_in, tellings, TellAll};
ghost use Rattle.world_nodes.specs.Nodes.{node_of, HasRoomIn, IsAtRest};
ghost use Rattle.cluster_world.specs.Members.{Unmoved, Goes, Rests, GoesOn, TakesOver, RestartsAt, StaysThere, IsGivenUp};
ghost use Rattle.cluster_world.specs.MemberSnapshots.{octets_at, own_cut, its_event, may_happen, is_carried, base_of, above_of, Brings, Cuts, LoadsSaved, StillFollows};
ghost use Rattle.cluster_world.specs.StandsAt.{HasLog};

use crate::cutting::cut;
use crate::going_on::{go_on, octets_at};
use paxos_node::{Event, Node, Outcome, roll_at};
use paxos_packets::{Body, Entry, Members, Memory, Transport};
use replica_follower::{Follower, Tellings};
use replica_machine::{Machine, Roll, SaveFault};
use std::alloc::Global;
use std::marker::Model;
use world_nodes::WorldNode;
use world_packets::SentPackets;

// The greatest boot.
const LAST_BOOT: u64 = (1 << 48) - 1;

/// A member of the cluster: its node, and the machine that stands where the node stands.
pub struct Member<M: Machine> {
    me: u8,
    node: WorldNode<M::Body>,
    follower: Follower<M>,
}

impl<M: Machine> Drop for Member<M> {
    fn drop(self) {
        let Member {
            me: _,
            node: _node,
            follower: _follower,
        } = self;
    }
}

impl<M: Machine> Model for Member<M> {
    ghost use Rattle.std.specs.Prelude.{◌≡◌};
    ghost use Rattle.world_nodes.specs.Nodes.{node_of};
    ghost use Rattle.cluster_world.specs.Members.{MemberState};

    ghost Value = { MemberState M.Body M M.Say };

    ghost view = { λ m. record { me = m.me; members = m.node.members; node = node_of m.node; machine = m.follower } };

    ghost invariant = { λ m. (m.node.me ≡ m.me) × (m.follower.node ≡ m.me) };
}

impl<M: Machine> Member<M> {
    /// Returns the member with this number, whose node starts for the first time, and its machine.
    pub fn first(alloc: Global, me: u8, members: Members, machine: M) -> Result<Member<M>, Memory>
        ensures me { IfOk result (λ member. member.me ≡ me) }
        ensures members { IfOk result (λ member. member.members ≡ members) }
        ensures node { IfOk result (λ member. member.node ≡ started me first_rows) }
        ensures machine { IfOk result (λ member. member.machine.node ≡ me) }
        ensures log { IfOk result (λ member. member.machine.log.applied ≡ []) }
        ensures told { IfOk result (λ member. member.machine.told ≡ []) }
        ensures given_up { IfOk result (λ member. member.machine.given_up ≡ false) }
        ensures follows { (first : M.Content) → M.content machine ≡ first → IfOk result (λ member.
            Follows M.content (machine_from M.steps first) [] member.machine) }
    {
        let node = WorldNode::first(alloc, me, members)?;
        Ok(Member {
            me,
            node,
            follower: Follower::new(alloc, me, machine),
        })
    }

    /// Returns whether its node is up. Does not allocate.
    pub fn is_up(&self) -> bool
        ensures { result ≡ self.now.node.up }
    {
        self.node.is_up()
    }

    /// Returns its node, if that is up. Does not allocate.
    pub fn running(&self) -> Option<&Node<M::Body>>
        ensures up { is_some result ≡ self.now.node.up }
        ensures me { IfSome (option_copied result) (λ node. node.me ≡ self.now.me) }
        ensures state { IfSome (option_copied result) (λ node. node.state ≡ self.now.node) }
    {
        self.node.running()
    }

    /// Returns the entries of its node's log above the floor. Does not allocate.
    pub fn log(&self) -> &[Entry<M::Body>]
        requires up { HasLog self.now.node self.now.machine }
        requires down { self.now.node.up ≡ false → self.now.node.applied ≡ [] }
        ensures { result.now ≡ self.now.node.applied }
    {
        if !self.node.is_up() {
            return &[];
        }
        self.follower.log()
    }

    /// Returns the floor of its node's log: how many of its entries the node's snapshot stands for. Does not allocate.
    pub fn floor(&self) -> u64
        ensures value { result ≡ floor_in self.now.node.rows.snapshot }
        ensures within { result < 2 ^ 40 }
    {
        match self.node.snapshot() {
            Some(snapshot) => snapshot.floor().get(),
            None => 0,
        }
    }

    /// Returns where each node stands at the floor of its node's log. Does not allocate.
    pub fn standings(&self) -> Roll
        ensures { HasStandings (base self.now.node.rows) result }
    {
        roll_at(self.node.snapshot())
    }

    /// Returns the octets of its machine's log, as `AppliedLog::save` does.
    pub fn saved(&self) -> Result<Vec<u8>, SaveFault>
        ensures back { (first : M.Content) (under : List (log_entries.Entry M.Body))
            → IsLogOf M.steps M.content first under self.now.machine.log → M.is_sound first
            → AreGiven (under ++ self.now.machine.log.applied) → length_in self.now.machine.log < 2 ^ 40
            → IfOk result (λ octets. loaded_log M.loaded octets.items ≡ Some (kept_of M.content self.now.machine.log)) }
        ensures only { (first : M.Content) (under : List (log_entries.Entry M.Body))
            → IsLogOf M.steps M.content first under self.now.machine.log
            → AreGiven (under ++ self.now.machine.log.applied) → length_in self.now.machine.log < 2 ^ 40
            → IfOk result (λ octets. IfSome (loaded_log M.loaded octets.items) (λ kept. kept ≡ kept_of M.content self.now.machine.log)) }
    {
        self.follower.saved()
    }

    /// Returns what the transport of its node was handed. Does not allocate.
    pub fn said(&self, transport: Transport) -> &[M::Say]
        ensures { result.now ≡ said_in transport self.now.machine.told }
    {
        self.follower.said(transport)
    }

    /// Returns the transports of its node that were handed something. Does not allocate.
    pub fn handed(&self) -> Tellings<'_, M::Say>
        ensures are { result ≡ tellings self.now.machine.told }
        ensures all { TellAll self.now.machine.told result }
    {
        self.follower.handed()
    }

    /// Returns whether the event may happen at its node; whether a cut does, which its node plans by what its machine saves, only `happen`
    /// knows. Does not allocate.
    #[tactic(auto, unfolding(paxos_packets::specs::Rows::last_boot))]
    pub fn may(&self, event: &Event<M::Body>) -> bool
        ensures { result ≡ may_happen event.now self.now.node }
    {
        match event {
            Event::Take { transport, .. } => self.node.is_up() && 0 < *transport,
            Event::Tick { .. } => self.node.is_up(),
            Event::Start { .. } => self.node.is_up(),
            Event::Suspect { .. } => self.node.is_up(),
            Event::Deliver { .. } => self.node.is_up(),
            Event::Cut { .. } => self.node.is_up(),
            Event::Crash { .. } => self.node.is_up(),
            Event::Restart { .. } => !self.node.is_up() && self.node.boot() < LAST_BOOT,
        }
    }

    // Its node's log has fewer entries than there are slots.
    fn fits_slots(&self)
        ensures { told_length self.now.node < 2 ^ 40 }
    {
        let _ = self.node.applied();
    }

    // Takes its node down.
    fn crash(&mut self)
        ensures me { self.new.me ≡ self.old.me }
        ensures members { self.new.members ≡ self.old.members }
        ensures node { self.new.node ≡ down self.old.node.rows }
        ensures machine { self.new.machine ≡ self.old.machine }
    {
        self.node.crash();
    }

    // Starts its node, which is down, in the next boot, and makes its machine anew from the octets of its node's snapshot, or from these
    // without one. On `Memory` the node is as it was.
    fn restart(&mut self, octets: &[u8], made: &mut Vec<Entry<M::Body>>) -> Result<(), Memory>
        requires down { self.old.node.up ≡ false }
        requires boots { self.old.node.rows.boot < last_boot }
        ensures me { self.new.me ≡ self.old.me }
        ensures members { self.new.members ≡ self.old.members }
        ensures machine { self.new.machine.node ≡ self.old.machine.node }
        ensures node { OnOk result (self.new.node ≡ started self.old.me (raised self.old.node.rows)) }
        ensures made { OnOk result (made.new.items ≡ made.old.items ++ Boot self.old.me (suc self.old.node.rows.boot) ∷ []) }
        ensures log { OnOk result (self.new.machine.log.applied ≡ []) }
        ensures told { self.new.machine.told ≡ self.old.machine.told }
        ensures follows { (first : M.Content) (under : List (log_entries.Entry M.Body))
            → RestartsAt M.loaded (machine_from M.steps first) octets.now under self.old
            → Follows M.content (machine_from M.steps first) under self.old.machine
            → Follows M.content (machine_from M.steps first) under self.new.machine }
        ensures renewed { OnOk result (self.new.machine.given_up ≡ true →
            loaded_log M.loaded (octets_at octets.now self.old.node.rows.snapshot) ≡ None) }
        ensures err_node { OnErr result (self.new.node ≡ self.old.node) }
        ensures err_made { OnErr result (made.new.items ≡ made.old.items) }
    {
        let Ok(()) = made.reserve(1) else {
            return Err(Memory);
        };
        self.follower.renew(octets_at(&self.node, octets))?;
        self.node.restart()?;
        made.push_reserved(Entry::Boot {
            node: self.me,
            boot: self.node.boot(),
        });
        Ok(())
    }
}

impl<M: Machine> Member<M> {
    // Does the event, which is no cut, at its node, which is up, and lets its machine go on with it.
    fn do_event(
        &mut self,
        sent: &mut SentPackets<M::Body>,
        made: &mut Vec<Entry<M::Body>>,
        event: &Event<M::Body>,
    ) -> Result<(), Memory>
        requires carried { is_carried event.now ≡ true }
        requires own { owner event.now ≡ self.old.me }
        requires may { may_happen event.now self.old.node ≡ true }
        requires rests { IsAtRest self.old.node }
        requires agrees { is_carried event.now ≡ true → (outcome_of M.Body.same self.old.members event.now self.old.node).disagrees ≡ false }
        requires log { HasLog self.old.node self.old.machine }
        ensures me { self.new.me ≡ self.old.me }
        ensures members { self.new.members ≡ self.old.members }
        ensures machine { self.new.machine.node ≡ self.old.machine.node }
        ensures ok { OnOk result (Goes M.Body.same (its_event M.saved M.content self.old.machine event.now) self.old self.new
            sent.old.packets sent.new.packets made.old.items made.new.items) }
        ensures err { OnErr result (Unmoved self.old self.new sent.old.packets sent.new.packets made.old.items made.new.items) }
        ensures given_up { self.old.machine.given_up ≡ true → StaysThere self.old.node self.new.node →
            IsGivenUp self.old.machine.log.applied self.new.machine }
        ensures happens { (first : M.Content) (under over : List (log_entries.Entry M.Body)) →
            TakesOver M.Body.same M.loaded (machine_from M.steps first) event.now over self.old →
            Follows M.content (machine_from M.steps first) under self.old.machine →
            OnOk result (GoesOn M.Body.same M.content (machine_from M.steps first) (its_event M.saved M.content self.old.machine event.now)
            under over self.old self.new) }
        ensures rests { (first : M.Content) (under : List (log_entries.Entry M.Body)) →
            Follows M.content (machine_from M.steps first) under self.old.machine →
            OnErr result (Rests M.content (machine_from M.steps first) under self.old self.new) }
    {
        do_event_at(&mut self.node, &mut self.follower, sent, made, event)
    }

    // Lets its node, which is up, rest on what its machine saves.
    fn cut(&mut self) -> Result<(), Memory>
        requires up { self.old.node.up ≡ true }
        requires rests { IsAtRest self.old.node }
        requires log { HasLog self.old.node self.old.machine }
        ensures me { self.new.me ≡ self.old.me }
        ensures members { self.new.members ≡ self.old.members }
        ensures machine { self.new.machine.node ≡ self.old.machine.node }
        ensures alive { OnOk result (self.old.machine.given_up ≡ false) }
        ensures ok { OnOk result (Cuts M.Body.same self.old.me self.old.members (own_cut M.saved M.content self.old.machine.log)
            self.old.node self.new.node self.old.machine self.new.machine) }
        ensures follows { (first : M.Content) (under : List (log_entries.Entry M.Body))
            → Follows M.content (machine_from M.steps first) under self.old.machine
            → OnOk result (StillFollows M.content (machine_from M.steps first) (own_cut M.saved M.content self.old.machine.log) under
            self.old.node self.new.machine) }
        ensures loads { (first : M.Content) (under : List (log_entries.Entry M.Body))
            → Follows M.content (machine_from M.steps first) under self.old.machine
            → AreGiven (under ++ self.old.node.applied) → length (under ++ self.old.node.applied) < 2 ^ 40
            → OnOk result (LoadsSaved M.saved M.loaded (machine_from M.steps first) (under ++ self.old.node.applied)) }
        ensures err_node { OnErr result (self.new.node ≡ self.old.node) }
        ensures err_machine { OnErr result (self.new.machine ≡ self.old.machine) }
    {
        cut(&mut self.node, &mut self.follower)
    }

    /// Does the event, which is this member's and may happen: whole or not at all. A cut has what the machine's log is saved as, whatever it
    /// carries; nothing happens if its node has nothing to cut. A restart makes the machine anew from the octets of the node's snapshot, or
    /// from these without one; if memory runs out then, the machine of the node, which is still down, may be a new one.
    pub fn happen(
        &mut self,
        octets: &[u8],
        sent: &mut SentPackets<M::Body>,
        made: &mut Vec<Entry<M::Body>>,
        event: &Event<M::Body>,
    ) -> Result<(), Memory>
        requires own { owner event.now ≡ self.old.me }
        requires may { may_happen event.now self.old.node ≡ true }
        requires rests { IsAtRest self.old.node }
        requires agrees { is_carried event.now ≡ true → (outcome_of M.Body.same self.old.members event.now self.old.node).disagrees ≡ false }
        requires log { HasLog self.old.node self.old.machine }
        ensures me { self.new.me ≡ self.old.me }
        ensures members { self.new.members ≡ self.old.members }
        ensures machine { self.new.machine.node ≡ self.old.machine.node }
        ensures ok { OnOk result (Goes M.Body.same (its_event M.saved M.content self.old.machine event.now) self.old self.new
            sent.old.packets sent.new.packets made.old.items made.new.items) }
        ensures alive { OnOk result ((node : ℕ) (snapshot : Option Snapshot) → event.now ≡ Cut node snapshot → self.old.machine.given_up ≡ false) }
        ensures within { told_length self.old.node < 2 ^ 40 }
        ensures loads { (first : M.Content) (under : List (log_entries.Entry M.Body)) →
            Follows M.content (machine_from M.steps first) under self.old.machine →
            AreGiven (under ++ self.old.node.applied) → length (under ++ self.old.node.applied) < 2 ^ 40 →
            OnOk result ((node : ℕ) (snapshot : Option Snapshot) → event.now ≡ Cut node snapshot →
            LoadsSaved M.saved M.loaded (machine_from M.steps first) (under ++ self.old.node.applied)) }
        ensures err { OnErr result (Unmoved self.old self.new sent.old.packets sent.new.packets made.old.items made.new.items) }
        ensures given_up { self.old.machine.given_up ≡ true → StaysThere self.old.node self.new.node →
            IsGivenUp self.old.machine.log.applied self.new.machine }
        ensures renewed { OnOk result ((node : ℕ) → event.now ≡ Restart node → self.new.machine.given_up ≡ true →
            loaded_log M.loaded (octets_at octets.now self.old.node.rows.snapshot) ≡ None) }
        ensures happens { (first : M.Content) (under over : List (log_entries.Entry M.Body)) →
            RestartsAt M.loaded (machine_from M.steps first) octets.now under self.old →
            TakesOver M.Body.same M.loaded (machine_from M.steps first) event.now over self.old →
            Follows M.content (machine_from M.steps first) under self.old.machine →
            OnOk result (GoesOn M.Body.same M.content (machine_from M.steps first) (its_event M.saved M.content self.old.machine event.now)
            under over self.old self.new) }
        ensures rests { (first : M.Content) (under : List (log_entries.Entry M.Body)) →
            RestartsAt M.loaded (machine_from M.steps first) octets.now under self.old →
            Follows M.content (machine_from M.steps first) under self.old.machine →
            OnErr result (Rests M.content (machine_from M.steps first) under self.old self.new) }
    {
        self.fits_slots();
        match event {
            Event::Crash { .. } => {
                self.crash();
                Ok(())
            }
            Event::Restart { .. } => self.restart(octets, made),
            Event::Cut { .. } => self.cut(),
            Event::Take { .. } => self.do_event(sent, made, event),
            Event::Tick { .. } => self.do_event(sent, made, event),
            Event::Start { .. } => self.do_event(sent, made, event),
            Event::Suspect { .. } => self.do_event(sent, made, event),
            Event::Deliver { .. } => self.do_event(sent, made, event),
        }
    }
}

// Copies the entry, if any.
fn copy_of<B: Body>(source: Option<&Entry<B>>, alloc: Global) -> Result<Option<Entry<B>>, Memory>
    ensures { IfOk result (λ copy. copy ≡ option_copied source.entry) }
{
    match source {
        Some(entry) => Ok(Some(entry.copy(alloc)?)),
        None => Ok(None),
    }
}

// Reserves all memory that adopting the outcome needs, and copies the entry that it makes.
fn prepare<B: Body>(
    node: &mut WorldNode<B>,
    sent: &mut SentPackets<B>,
    made: &mut Vec<Entry<B>>,
    outcome: &Outcome<B>,
) -> Result<Option<Entry<B>>, Memory>
    requires up { (node_of node.old).up ≡ true }
    ensures room { OnOk result (HasRoomIn outcome.now node.new.status) }
    ensures sent_room { OnOk result (length outcome.now.packets ≤ sent.new.room) }
    ensures made_room { OnOk result (vec_len made.new + 1 ≤ vec_capacity made.new) }
    ensures added { IfOk result (λ added. added ≡ outcome.now.moves.added) }
    ensures node { node_of node.new ≡ node_of node.old }
    ensures me { node.new.me ≡ node.old.me }
    ensures members { node.new.members ≡ node.old.members }
    ensures packets { sent.new.packets ≡ sent.old.packets }
    ensures entries { made.new.items ≡ made.old.items }
{
    let Ok(()) = node.make_room(outcome) else {
        return Err(Memory);
    };
    let Ok(()) = sent.make_room(outcome.packets.as_slice().len()) else {
        return Err(Memory);
    };
    let Ok(()) = made.reserve(1) else {
        return Err(Memory);
    };
    copy_of(outcome.added(), *made.allocator())
}

// Appends the entry, if any.
fn put<B: Drop>(made: &mut Vec<Entry<B>>, entry: Option<Entry<B>>)
    requires { vec_len made.old + 1 ≤ vec_capacity made.old }
    ensures { made.new.items ≡ made.old.items ++ listed entry }
{
    if let Some(entry) = entry {
        made.push_reserved(entry);
    }
}

// Adopts what was planned at the node, sends its packets, and notes what it makes. Does not allocate.
fn commit<B: Body>(
    node: &mut WorldNode<B>,
    sent: &mut SentPackets<B>,
    made: &mut Vec<Entry<B>>,
    outcome: Outcome<B>,
    added: Option<Entry<B>>,
)
    requires room { HasRoomIn outcome node.old.status }
    requires fits { Fits node.old.me node.old.members outcome (node_of node.old) }
    requires sent_room { length outcome.packets ≤ sent.old.room }
    requires made_room { vec_len made.old + 1 ≤ vec_capacity made.old }
    ensures node { node_of node.new ≡ adopted node.old.me node.old.members outcome (node_of node.old) }
    ensures me { node.new.me ≡ node.old.me }
    ensures members { node.new.members ≡ node.old.members }
    ensures packets { sent.new.packets ≡ sent.old.packets ++ outcome.packets }
    ensures entries { made.new.items ≡ made.old.items ++ listed added }
{
    let (packets, applied) = node.adopt_in_room(outcome);
    drop(applied);
    sent.push_all_in_room(packets.into_vec());
    put(made, added);
}

// Adopts what was planned at the node, which is up, and lets its machine go on with it: whole or not at all.
fn carry_out<M: Machine>(
    node: &mut WorldNode<M::Body>,
    follower: &mut Follower<M>,
    sent: &mut SentPackets<M::Body>,
    made: &mut Vec<Entry<M::Body>>,
    outcome: Outcome<M::Body>,
) -> Result<(), Memory>
    requires up { (node_of node.old).up ≡ true }
    requires fits { Fits node.old.me node.old.members outcome (node_of node.old) }
    requires log { follower.old.log.applied ≡ (node_of node.old).applied }
    ensures me { node.new.me ≡ node.old.me }
    ensures members { node.new.members ≡ node.old.members }
    ensures machine { follower.new.node ≡ follower.old.node }
    ensures node { OnOk result (node_of node.new ≡ adopted node.old.me node.old.members outcome (node_of node.old)) }
    ensures packets { OnOk result (sent.new.packets ≡ sent.old.packets ++ outcome.packets) }
    ensures made { OnOk result (made.new.items ≡ made.old.items ++ listed outcome.moves.added) }
    ensures log { OnOk result (follower.new.log.applied ≡ above_of outcome.change.snapshot (node_of node.old).applied ++ outcome.applied) }
    ensures err_node { OnErr result (node_of node.new ≡ node_of node.old) }
    ensures err_packets { OnErr result (sent.new.packets ≡ sent.old.packets) }
    ensures err_made { OnErr result (made.new.items ≡ made.old.items) }
    ensures err_log { OnErr result (follower.new.log.applied ≡ follower.old.log.applied) }
    ensures given_up { outcome.change.snapshot ≡ None → follower.old.given_up ≡ true → IsGivenUp follower.old.log.applied follower.new }
    ensures err_given_up { OnErr result (follower.old.given_up ≡ true → IsGivenUp follower.old.log.applied follower.new) }
    ensures follows { (first : M.Content) (under over : List (log_entries.Entry M.Body))
        → Follows M.content (machine_from M.steps first) under follower.old
        → Brings M.loaded (machine_from M.steps first) over outcome.change.snapshot
        → OnOk result (Follows M.content (machine_from M.steps first) (base_of outcome.change.snapshot under over) follower.new) }
    ensures err_follows { (first : M.Content) (under : List (log_entries.Entry M.Body))
        → Follows M.content (machine_from M.steps first) under follower.old
        → OnErr result (Follows M.content (machine_from M.steps first) under follower.new) }
    ensures handed { (first : M.Content) (under over : List (log_entries.Entry M.Body))
        → Follows M.content (machine_from M.steps first) under follower.old
        → Brings M.loaded (machine_from M.steps first) over outcome.change.snapshot
        → OnOk result ((t : transports.Transport) → said_in t follower.new.told ≡ said_in t follower.old.told
        ++ handed_to (machine_from M.steps first) t follower.old.node (node_of node.old).rows.boot
        (base_of outcome.change.snapshot under over ++ above_of outcome.change.snapshot (node_of node.old).applied) outcome.applied) }
    ensures err_handed { OnErr result ((t : transports.Transport) → said_in t follower.new.told ≡ said_in t follower.old.told) }
{
    let added = prepare(node, sent, made, &outcome)?;
    go_on(follower, node.boot(), &outcome)?;
    commit(node, sent, made, outcome, added);
    Ok(())
}

// Does the event at the node, which is up, and lets its machine go on with it: whole or not at all.
fn do_event_at<M: Machine>(
    node: &mut WorldNode<M::Body>,
    follower: &mut Follower<M>,
    sent: &mut SentPackets<M::Body>,
    made: &mut Vec<Entry<M::Body>>,
    event: &Event<M::Body>,
) -> Result<(), Memory>
    requires plans { plans node.old.me event.now (node_of node.old) ≡ true }
    requires rests { IsAtRest (node_of node.old) }
    requires agrees { (outcome_of M.Body.same node.old.members event.now (node_of node.old)).disagrees ≡ false }
    requires log { follower.old.log.applied ≡ (node_of node.old).applied }
    ensures me { node.new.me ≡ node.old.me }
    ensures members { node.new.members ≡ node.old.members }
    ensures machine { follower.new.node ≡ follower.old.node }
    ensures node { OnOk result (node_of node.new ≡ (outcome_of M.Body.same node.old.members event.now (node_of node.old)).node) }
    ensures packets { OnOk result
        (sent.new.packets ≡ sent.old.packets ++ (outcome_of M.Body.same node.old.members event.now (node_of node.old)).packets) }
    ensures made { OnOk result (made.new.items ≡ made.old.items ++ made_by M.Body.same event.now (node_of node.old)) }
    ensures log { let o = outcome_of M.Body.same node.old.members event.now (node_of node.old) in
        OnOk result (follower.new.log.applied ≡ above_of o.change.snapshot (node_of node.old).applied ++ o.applied) }
    ensures err_node { OnErr result (node_of node.new ≡ node_of node.old) }
    ensures err_packets { OnErr result (sent.new.packets ≡ sent.old.packets) }
    ensures err_made { OnErr result (made.new.items ≡ made.old.items) }
    ensures err_log { OnErr result (follower.new.log.applied ≡ follower.old.log.applied) }
    ensures given_up { (outcome_of M.Body.same node.old.members event.now (node_of node.old)).change.snapshot ≡ None →
        follower.old.given_up ≡ true → IsGivenUp follower.old.log.applied follower.new }
    ensures err_given_up { OnErr result (follower.old.given_up ≡ true → IsGivenUp follower.old.log.applied follower.new) }
    ensures follows { let o = outcome_of M.Body.same node.old.members event.now (node_of node.old) in
        (first : M.Content) (under over : List (log_entries.Entry M.Body))
        → Follows M.content (machine_from M.steps first) under follower.old
        → Brings M.loaded (machine_from M.steps first) over o.change.snapshot
        → OnOk result (Follows M.content (machine_from M.steps first) (base_of o.change.snapshot under over) follower.new) }
    ensures err_follows { (first : M.Content) (under : List (log_entries.Entry M.Body))
        → Follows M.content (machine_from M.steps first) under follower.old
        → OnErr result (Follows M.content (machine_from M.steps first) under follower.new) }
    ensures handed { let o = outcome_of M.Body.same node.old.members event.now (node_of node.old) in
        (first : M.Content) (under over : List (log_entries.Entry M.Body))
        → Follows M.content (machine_from M.steps first) under follower.old
        → Brings M.loaded (machine_from M.steps first) over o.change.snapshot
        → OnOk result ((t : transports.Transport) → said_in t follower.new.told ≡ said_in t follower.old.told
        ++ handed_to (machine_from M.steps first) t follower.old.node (node_of node.old).rows.boot
        (base_of o.change.snapshot under over ++ above_of o.change.snapshot (node_of node.old).applied) o.applied) }
    ensures err_handed { OnErr result ((t : transports.Transport) → said_in t follower.new.told ≡ said_in t follower.old.told) }
{
    match node.plan(event)? {
        Some(outcome) => carry_out(node, follower, sent, made, outcome),
        None => Ok(()),
    }
}
