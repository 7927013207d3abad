//! How events happen in a world, one after the other, each whole or not at all.

ghost use Rattle.std.specs.Prelude.{◌≡◌, ◌<◌, ◌≤◌, ◌++◌, ◌∷◌, [], List, Option, true, false, take, length, OnOk, OnErr, IfErr};
ghost use Rattle.paxos_node.specs.declared.event.Event as occurred;
ghost use Rattle.paxos_packets.specs.Snapshot.{Snapshot};
ghost use Rattle.paxos_node.specs.Events.{owner};
ghost use Rattle.replica_machine.specs.Log.{machine_from};
ghost use Rattle.world_nodes.specs.Nodes.{IsAtRest};
ghost use Rattle.cluster_world.specs.Members.{AreMembers, nodes_of, held_of, GivenUpStay, AreLater, Renews};
ghost use Rattle.cluster_world.specs.Headline.{Agree, LogsAgree, WholeLogsAgree, AnswersAreSaid, MachinesFollow, TookEffectOnce, LossesWereCalledFor, NoneDisagrees};
ghost use Rattle.cluster_world.specs.MemberSnapshots.{may_happen, with_octets};
ghost use Rattle.cluster_world.specs.Saving.{played_of};
ghost use Rattle.cluster_world.specs.StandsAt.{ShowsAt, StandsAt};
ghost use Rattle.cluster_world.specs.World.{node_at, played, was_sent};

use crate::fault::Memory;
use crate::member::Member;
use crate::world::World;
use paxos_node::Event;
use paxos_packets::{Body, Entry, Members};
use replica_machine::Machine;
use world_packets::SentPackets;

impl<M: Machine> World<M> {
    /// Lets the events happen, in order. `Memory` comes with the index of the event for which memory ran out; the events before it were
    /// run, and it was not. An event that is not possible changes nothing: of a node that is down or not a member, for a transport with
    /// number 0, of a packet unlike all that were sent, or a restart of a node that is up. Nor does an event that a node refuses.
    ///
    /// A cut carries what the machine of its node saves of the node's log, whatever the event carries; it changes nothing if the node has
    /// applied nothing above its floor.
    ///
    /// A machine that fails, or goes on and then lacks memory for what it says, is given up: `Memory` comes at each event in which its node
    /// would apply an entry or cut, and all else goes on. A restart of the node makes its machine anew, which is given up then only if no
    /// machine is made of the octets of the node's snapshot, or of those that the world keeps; and so does a snapshot that the node takes over,
    /// from whose octets a machine is made: else `Memory` comes.
    ///
    /// An event takes time in what it reads, commits, sends and applies, at most times a logarithm.
    pub fn run(&mut self, events: &[Event<M::Body>]) -> Result<(), (usize, Memory)>
        ensures members { self.new.members ≡ self.old.members }
        ensures ok { (first : M.Content) (es : List (occurred.Event M.Body)) →
            StandsAt M.Body.same M.content M.saved M.loaded (machine_from M.steps first) self.old es →
            OnOk result (StandsAt M.Body.same M.content M.saved M.loaded (machine_from M.steps first) self.new (es ++ events.now)) }
        ensures err { (first : M.Content) (es : List (occurred.Event M.Body)) →
            StandsAt M.Body.same M.content M.saved M.loaded (machine_from M.steps first) self.old es →
            IfErr result (λ f. (f.0 < length events.now)
            × StandsAt M.Body.same M.content M.saved M.loaded (machine_from M.steps first) self.new (es ++ take f.0 events.now)) }
        ensures given_up { GivenUpStay self.old self.new }
        ensures first { self.new.first ≡ self.old.first }
        ensures renewed { (e : occurred.Event M.Body) → events.now ≡ e ∷ [] → OnOk result (Renews M.loaded e self.old self.new) }
        ensures agreement { Agree self.new }
        ensures log_agreement { LogsAgree self.old self.new }
        ensures prefixes { WholeLogsAgree M.Body.same self.old self.new }
        ensures answers { (first : M.Content) (es : List (occurred.Event M.Body)) →
            StandsAt M.Body.same M.content M.saved M.loaded (machine_from M.steps first) self.new es →
            AnswersAreSaid (machine_from M.steps first) self.new
            (played_of M.saved (machine_from M.steps first) M.Body.same self.new.members es) }
        ensures machines { (first : M.Content) (es : List (occurred.Event M.Body)) →
            StandsAt M.Body.same M.content M.saved M.loaded (machine_from M.steps first) self.new es →
            MachinesFollow M.content (machine_from M.steps first) self.new
            (played_of M.saved (machine_from M.steps first) M.Body.same self.new.members es) }
        ensures at_most_once { (es : List (occurred.Event M.Body)) → ShowsAt M.Body.same self.new es →
            TookEffectOnce self.new (played M.Body.same self.new.members es) }
        ensures losses { (es : List (occurred.Event M.Body)) → ShowsAt M.Body.same self.new es → LossesWereCalledFor M.Body.same self.new es }
        ensures no_disagreement { NoneDisagrees M.Body.same self.new }
    {
        self.leads();
        self.run_all(events)
    }

    // Some events lead to it.
    pub(crate) fn leads(&self)
        ensures many { 3 ≤ self.now.members }
        ensures few { self.now.members ≤ 7 }
        ensures leads { (es : List (occurred.Event M.Body)) × ShowsAt M.Body.same self.now es }
    {
        let _ = self.members.count();
    }

    // Runs the events, as `run` does, but for the laws.
    fn run_all(&mut self, events: &[Event<M::Body>]) -> Result<(), (usize, Memory)>
        ensures members { self.new.members ≡ self.old.members }
        ensures shows { (es : List (occurred.Event M.Body)) → ShowsAt M.Body.same self.old es →
            (more : List (occurred.Event M.Body)) × ShowsAt M.Body.same self.new (es ++ more) }
        ensures later { AreLater self.old self.new }
        ensures ok { (first : M.Content) (es : List (occurred.Event M.Body)) →
            StandsAt M.Body.same M.content M.saved M.loaded (machine_from M.steps first) self.old es →
            OnOk result (StandsAt M.Body.same M.content M.saved M.loaded (machine_from M.steps first) self.new (es ++ events.now)) }
        ensures err { (first : M.Content) (es : List (occurred.Event M.Body)) →
            StandsAt M.Body.same M.content M.saved M.loaded (machine_from M.steps first) self.old es →
            IfErr result (λ f. (f.0 < length events.now)
            × StandsAt M.Body.same M.content M.saved M.loaded (machine_from M.steps first) self.new (es ++ take f.0 events.now)) }
        ensures given_up { GivenUpStay self.old self.new }
        ensures first { self.new.first ≡ self.old.first }
        ensures renewed { (e : occurred.Event M.Body) → events.now ≡ e ∷ [] → OnOk result (Renews M.loaded e self.old self.new) }
    {
        for index in 0..events.len() {
            let Ok(()) = self.step(&events[index]) else {
                return Err((index, Memory));
            };
        }
        Ok(())
    }

    // Lets one event happen, whole or not at all.
    fn step(&mut self, event: &Event<M::Body>) -> Result<(), paxos_packets::Memory>
        ensures members { self.new.members ≡ self.old.members }
        ensures shows_ok { (es : List (occurred.Event M.Body)) → ShowsAt M.Body.same self.old es →
            OnOk result ((cut : Option Snapshot) × ShowsAt M.Body.same self.new (es ++ with_octets cut event.now ∷ [])) }
        ensures shows_err { (es : List (occurred.Event M.Body)) → ShowsAt M.Body.same self.old es → OnErr result (ShowsAt M.Body.same self.new es) }
        ensures later { AreLater self.old self.new }
        ensures ok { (first : M.Content) (es : List (occurred.Event M.Body)) →
            StandsAt M.Body.same M.content M.saved M.loaded (machine_from M.steps first) self.old es →
            OnOk result (StandsAt M.Body.same M.content M.saved M.loaded (machine_from M.steps first) self.new (es ++ event.now ∷ [])) }
        ensures err { (first : M.Content) (es : List (occurred.Event M.Body)) →
            StandsAt M.Body.same M.content M.saved M.loaded (machine_from M.steps first) self.old es →
            OnErr result (StandsAt M.Body.same M.content M.saved M.loaded (machine_from M.steps first) self.new es) }
        ensures given_up { GivenUpStay self.old self.new }
        ensures first { self.new.first ≡ self.old.first }
        ensures renewed { OnOk result (Renews M.loaded event.now self.old self.new) }
    {
        let _ = self.members.count();
        happen_in(
            self.members,
            &self.first,
            &mut self.list,
            &mut self.sent,
            &mut self.made,
            event,
        )
    }
}

// Returns whether the packet was sent that the event delivers, if it delivers one.
fn was_sent<B: Body>(event: &Event<B>, sent: &SentPackets<B>) -> bool
    ensures { result ≡ was_sent B.same event.now sent.now.packets }
{
    match event.packet() {
        Some(packet) => sent.was_sent(packet),
        None => true,
    }
}

// Lets the event happen if it is possible: whole or not at all.
fn happen_in<M: Machine>(
    members: Members,
    octets: &[u8],
    list: &mut Vec<Member<M>>,
    sent: &mut SentPackets<M::Body>,
    made: &mut Vec<Entry<M::Body>>,
    event: &Event<M::Body>,
) -> Result<(), paxos_packets::Memory>
    requires many { 3 ≤ members }
    requires few { members ≤ 7 }
    requires seated { AreMembers members list.old.items }
    requires leads { (es : List (occurred.Event M.Body))
        × ShowsAt M.Body.same (held_of members list.old.items sent.old.packets made.old.items octets.now) es }
    ensures seated { AreMembers members list.new.items }
    ensures shows_ok { (es : List (occurred.Event M.Body)) →
        ShowsAt M.Body.same (held_of members list.old.items sent.old.packets made.old.items octets.now) es →
        OnOk result ((cut : Option Snapshot)
        × ShowsAt M.Body.same (held_of members list.new.items sent.new.packets made.new.items octets.now) (es ++ with_octets cut event.now ∷ [])) }
    ensures shows_err { (es : List (occurred.Event M.Body)) →
        ShowsAt M.Body.same (held_of members list.old.items sent.old.packets made.old.items octets.now) es →
        OnErr result (ShowsAt M.Body.same (held_of members list.new.items sent.new.packets made.new.items octets.now) es) }
    ensures ok { (first : M.Content) (es : List (occurred.Event M.Body)) → StandsAt M.Body.same M.content M.saved M.loaded (machine_from M.steps first)
        (held_of members list.old.items sent.old.packets made.old.items octets.now) es
        → OnOk result (StandsAt M.Body.same M.content M.saved M.loaded (machine_from M.steps first)
        (held_of members list.new.items sent.new.packets made.new.items octets.now) (es ++ event.now ∷ [])) }
    ensures err { (first : M.Content) (es : List (occurred.Event M.Body)) → StandsAt M.Body.same M.content M.saved M.loaded (machine_from M.steps first)
        (held_of members list.old.items sent.old.packets made.old.items octets.now) es
        → OnErr result (StandsAt M.Body.same M.content M.saved M.loaded (machine_from M.steps first)
        (held_of members list.new.items sent.new.packets made.new.items octets.now) es) }
    ensures later { AreLater (held_of members list.old.items sent.old.packets made.old.items octets.now)
        (held_of members list.new.items sent.new.packets made.new.items octets.now) }
    ensures given_up { GivenUpStay (held_of members list.old.items sent.old.packets made.old.items octets.now)
        (held_of members list.new.items sent.new.packets made.new.items octets.now) }
    ensures renewed { OnOk result (Renews M.loaded event.now (held_of members list.old.items sent.old.packets made.old.items octets.now)
        (held_of members list.new.items sent.new.packets made.new.items octets.now)) }
{
    if !was_sent(event, sent) {
        return Ok(());
    }
    if !may_happen(list, event) {
        return Ok(());
    }
    let place = (event.node() - 1) as usize;
    list[place].happen(octets, sent, made, event)
}

// Returns whether the event may happen at its node, by what its member sees; none may at a node that is not a member.
fn may_happen<M: Machine>(list: &[Member<M>], event: &Event<M::Body>) -> bool
    ensures { result ≡ may_happen event.now (node_at (nodes_of list.now) (owner event.now)) }
{
    let node = event.node();
    if node == 0 {
        return false;
    }
    match list.get((node - 1) as usize) {
        Some(member) => member.may(event),
        None => false,
    }
}
