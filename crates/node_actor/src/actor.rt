// The actor: how it takes events, turns and rounds, what it shows, and how it crashes or leaves.
ghost use Rattle.std.specs.Prelude.{◌≡◌, ◌<◌, ◌≤◌, ◌++◌, ℕ, List, [], length, nat_lt, true, false, Some, None, Err, OnOk, All};
ghost use Rattle.paxos_packets.specs.Snapshot.{floor_in};
ghost use Rattle.paxos_node.specs.Snapshots.{may_cut};
ghost use Rattle.replica_machine.specs.Given.{AreGiven};
ghost use Rattle.cluster_world.specs.MemberSnapshots.{own_cut, LoadsSaved};
ghost use Rattle.actor_parts.specs.Snapshots.{is_no_log};
ghost use Rattle.node_actor.specs.Snapshots.{HasUnder};
ghost use Rattle.paxos_packets.specs.declared.entry.Entry.{Entry};
ghost use Rattle.paxos_node.specs.declared.event.Event.TheVariants.{Take, Tick, Start, Suspect};
ghost use Rattle.paxos_proposer.specs.Proposer.{is_leading};
ghost use Rattle.replica_machine.specs.Log.{IsLogOf, machine_from};
ghost use Rattle.actor_parts.specs.declared.fault.ActorFault.TheVariants.{Failed};
ghost use Rattle.actor_parts.specs.Parts.{IsPrefixOf, IsSound, open_slots};
ghost use Rattle.node_actor.specs.Posts.{LeftOf};
ghost use Rattle.actor_outboxes.specs.Outboxes.{waiting};
ghost use Rattle.mail_table.specs.Seats.{Owns};
ghost use Rattle.node_actor.specs.Actor.{acting, IsSeated};
ghost use Rattle.node_actor.specs.Calls.{Acts, Cuts, Rests, is_own, take_event};
ghost use Rattle.node_actor.specs.Rounds.{RoundOf};
ghost use Rattle.node_actor.specs.Turns.{Turns};
ghost use Rattle.node_actor.specs.Views.{View, seen, StandsFor};
ghost use Rattle.paxos_planning.specs.Node.{told_length};

use crate::event::{make_cut, make_event, pass};
use crate::heard::Heard;
use crate::hearing::Hearing;
use crate::post::Post;
use crate::rounding::round;
use crate::turning::{LastTurn, turn};
use actor_parts::{ActorFault, Parts};
use mail_table::{Mail, NodeSeat};
use paxos_node::Event;
use paxos_packets::{Ballot, Entry, NodeSet};
use replica_machine::{AppliedLog, Machine};
use std::marker::Model;
use store_keeper::Keeper;

/// One node as it really runs: the node, its store, the machine that follows its log, the packets that wait to be posted, and its seat at
/// the table. Each event is committed before anything of it is seen.
///
/// The calls that take an event return what the machine says, at what the event applies, to the transports of this node in its present
/// boot. They require the table of the actor's seat. None of them waits.
///
/// `from`, `heard`, `posted` and `came` tell of the last turn or round: `from` and `heard` of a turn alone, `came` of a round alone. Before the
/// first one there is nothing to tell, and no other call changes what they return, nor does one of an actor that a fault has ended.
pub struct Actor<M: Machine, K: Keeper<M::Body>> {
    parts: Parts<M, K>,
    seat: NodeSeat<M::Body>,
    // From which member the next turn or round fetches first.
    first: u8,
    last: LastTurn,
}

impl<M: Machine, K: Keeper<M::Body> + Drop> Drop for Actor<M, K> {
    fn drop(self) {
        let Actor {
            parts: _parts,
            seat: _seat,
            first: _,
            last: _last,
        } = self;
    }
}

impl<M: Machine, K: Keeper<M::Body>> Model for Actor<M, K> {
    ghost use Rattle.paxos_packets.specs.Members.{IsMember};
    ghost use Rattle.actor_parts.specs.Parts.{IsSound};
    ghost use Rattle.node_actor.specs.Actor.{Acting, acting, acting_since, IsSeated};

    ghost Value = { Acting M.Body M K };

    ghost view = { λ a. acting_since a.last a.parts a.seat };

    ghost invariant = { λ a. IsSound M.Body.same K.holds K.is_failed a.parts × IsSeated M.Body.same (acting a.parts a.seat)
        × IsMember a.parts.node.members a.first };
}

impl<M: Machine, K: Keeper<M::Body>> Actor<M, K> {
    // Creates the actor of these parts, at this seat.
    pub(crate) fn of(parts: Parts<M, K>, seat: NodeSeat<M::Body>) -> Actor<M, K>
        requires sound { IsSound M.Body.same K.holds K.is_failed parts }
        requires seated { IsSeated M.Body.same (acting parts seat) }
        ensures { result ≡ acting parts seat }
    {
        let last = LastTurn::none(parts.allocator());
        Actor {
            parts,
            seat,
            first: 1,
            last,
        }
    }

    /// Makes an event of this node: a Take of a transport other than 0, Tick, Start or Suspect. The caller keeps the event.
    pub fn event(
        &mut self,
        mail: &Mail<M::Body>,
        event: &Event<M::Body>,
    ) -> Result<Vec<M::Say>, ActorFault<M::Say>>
        requires owned { Owns mail.now self.old.seat }
        requires own { is_own self.old.node.me event.now ≡ true }
        ensures still_owned { Owns mail.now self.new.seat }
        ensures me { self.new.node.me ≡ self.old.node.me }
        ensures members { self.new.node.members ≡ self.old.node.members }
        ensures last { self.new.last ≡ self.old.last }
        ensures acts { (view : View M.Body) → StandsFor self.old view →
            Acts M.Body.same M.steps M.content M.loaded K.holds K.finds K.failures (Some event.now)
            self.old self.new view result }
    {
        make_event(mail, &mut self.seat, &mut self.parts, event)
    }

    /// Takes an act of the node's transport with this number; with number 0 nothing happens.
    pub fn take(
        &mut self,
        mail: &Mail<M::Body>,
        number: u32,
        body: M::Body,
    ) -> Result<Vec<M::Say>, ActorFault<M::Say>>
        requires owned { Owns mail.now self.old.seat }
        ensures still_owned { Owns mail.now self.new.seat }
        ensures me { self.new.node.me ≡ self.old.node.me }
        ensures members { self.new.node.members ≡ self.old.node.members }
        ensures last { self.new.last ≡ self.old.last }
        ensures acts { (view : View M.Body) → StandsFor self.old view →
            Acts M.Body.same M.steps M.content M.loaded K.holds K.finds K.failures (take_event self.old.node.me number body)
            self.old self.new view result }
        ensures rests { number ≡ 0 → Rests self.old self.new result }
    {
        if number == 0 {
            return pass(&self.seat, &self.parts);
        }
        let own = Event::Take {
            node: self.me(),
            transport: number,
            body,
        };
        self.event(mail, &own)
    }

    /// Takes a turn: for each peer for which packets are due, tries once to post the oldest; then tries to fetch from one peer after
    /// another, until a try wins. The packet that came, if one did, reaches the node; without one, with one for another node, or with one
    /// that is from no other member, nothing more happens. If the node takes a snapshot, a machine that is made of it follows the log from
    /// then on; `Disagree` if no log is made of it. The boxes of the table hold one packet each. Each turn begins to fetch after the peer whose
    /// packet came last, or one peer further on.
    pub fn turn(&mut self, mail: &Mail<M::Body>) -> Result<Vec<M::Say>, ActorFault<M::Say>>
        requires owned { Owns mail.now self.old.seat }
        requires single { mail.now.most ≡ 1 }
        ensures still_owned { Owns mail.now self.new.seat }
        ensures me { self.new.node.me ≡ self.old.node.me }
        ensures members { self.new.node.members ≡ self.old.node.members }
        ensures spoiled { self.old.spoiled ≡ true → (self.new ≡ self.old) × (result ≡ Err Failed) }
        ensures turns { (view : View M.Body) → StandsFor self.old view → self.old.spoiled ≡ false →
            Turns M.Body.same M.steps M.content M.loaded K.holds K.finds K.failures self.old self.new view result }
    {
        if self.parts.is_spoiled() {
            return Err(ActorFault::Failed);
        }
        turn(
            mail,
            &mut self.seat,
            &mut self.parts,
            &mut self.first,
            &mut self.last,
        )
    }

    /// Takes a round: makes the given events of this node, at most 64, in their order, and then the packets of the other members, each an event
    /// of the node, in turn: all that one look into a member's box finds, and of further looks until one finds nothing or 64 packets of the
    /// member came. What that sends waits, of its Forwards the last one alone; then there is one try for each peer for which packets wait, to
    /// post up to as many together as a box holds. What the machine says is appended to `says`, in order.
    ///
    /// Passed over, as if it were lost, is a packet for another node, one that is from no other member, and an Accepted of a slot that the node
    /// has applied. An own event for which no round is left is dropped. The first one for which there is no room, and the own ones after it, are
    /// returned, to be made in a later round. After any other fault nothing is posted: `LostHere`, without sayings, if the node is down by an
    /// event, which is made and the last one; `Disagree`, `Worn` and `Memory` if an event cannot be made, after those before it were; a fault
    /// of the store if a commit failed, of whose events nothing is said, posted or shown; and `Memory`, too, if the machine fails.
    pub fn round(
        &mut self,
        mail: &Mail<M::Body>,
        events: Vec<Event<M::Body>>,
        says: &mut Vec<M::Say>,
    ) -> Result<Vec<Event<M::Body>>, ActorFault<M::Say>>
        requires owned { Owns mail.now self.old.seat }
        requires own { All (λ e. is_own self.old.node.me e ≡ true) events.items }
        requires few { length events.items ≤ 64 }
        ensures still_owned { Owns mail.now self.new.seat }
        ensures me { self.new.node.me ≡ self.old.node.me }
        ensures members { self.new.node.members ≡ self.old.node.members }
        ensures rounds { (view : View M.Body) → StandsFor self.old view → (said : List M.Say) × (says.new.items ≡ says.old.items ++ said)
            × RoundOf M.Body.same M.steps M.content M.loaded K.holds K.finds K.failures events.items self.old self.new view said result }
    {
        round(
            mail,
            &mut self.seat,
            &mut self.parts,
            &mut self.first,
            &mut self.last,
            events,
            says,
        )
    }

    /// Lets time pass at the node.
    pub fn tick(&mut self, mail: &Mail<M::Body>) -> Result<Vec<M::Say>, ActorFault<M::Say>>
        requires owned { Owns mail.now self.old.seat }
        ensures still_owned { Owns mail.now self.new.seat }
        ensures me { self.new.node.me ≡ self.old.node.me }
        ensures members { self.new.node.members ≡ self.old.node.members }
        ensures last { self.new.last ≡ self.old.last }
        ensures acts { (view : View M.Body) → StandsFor self.old view →
            Acts M.Body.same M.steps M.content M.loaded K.holds K.finds K.failures (Some (Tick self.old.node.me))
            self.old self.new view result }
    {
        let own = Event::Tick { node: self.me() };
        self.event(mail, &own)
    }

    /// Makes the node begin a ballot.
    pub fn start(&mut self, mail: &Mail<M::Body>) -> Result<Vec<M::Say>, ActorFault<M::Say>>
        requires owned { Owns mail.now self.old.seat }
        ensures still_owned { Owns mail.now self.new.seat }
        ensures me { self.new.node.me ≡ self.old.node.me }
        ensures members { self.new.node.members ≡ self.old.node.members }
        ensures last { self.new.last ≡ self.old.last }
        ensures acts { (view : View M.Body) → StandsFor self.old view →
            Acts M.Body.same M.steps M.content M.loaded K.holds K.finds K.failures (Some (Start self.old.node.me))
            self.old self.new view result }
    {
        let own = Event::Start { node: self.me() };
        self.event(mail, &own)
    }

    /// Makes the node take another to be lost.
    pub fn suspect(
        &mut self,
        mail: &Mail<M::Body>,
        node: u8,
    ) -> Result<Vec<M::Say>, ActorFault<M::Say>>
        requires owned { Owns mail.now self.old.seat }
        ensures still_owned { Owns mail.now self.new.seat }
        ensures me { self.new.node.me ≡ self.old.node.me }
        ensures members { self.new.node.members ≡ self.old.node.members }
        ensures last { self.new.last ≡ self.old.last }
        ensures acts { (view : View M.Body) → StandsFor self.old view →
            Acts M.Body.same M.steps M.content M.loaded K.holds K.finds K.failures (Some (Suspect self.old.node.me node))
            self.old self.new view result }
    {
        let own = Event::Suspect {
            node: self.me(),
            other: node,
        };
        self.event(mail, &own)
    }

    /// Lets the node rest on what its machine's log is saved as, if entries are applied above the floor: they are forgotten, and with them the
    /// votes up to there, and the log stands for the same one. Otherwise nothing happens. `Memory` comes too if the machine has failed.
    ///
    /// Takes the time of the machine's `save`, two copies of its octets, and a pass over the votes and entries that are forgotten.
    pub fn cut(&mut self, mail: &Mail<M::Body>) -> Result<Vec<M::Say>, ActorFault<M::Say>>
        requires owned { Owns mail.now self.old.seat }
        ensures still_owned { Owns mail.now self.new.seat }
        ensures me { self.new.node.me ≡ self.old.node.me }
        ensures members { self.new.node.members ≡ self.old.node.members }
        ensures last { self.new.last ≡ self.old.last }
        ensures cuts { (view : View M.Body) → StandsFor self.old view →
            Cuts M.Body.same M.steps M.content M.loaded K.holds K.finds K.failures (own_cut M.saved M.content self.old.log)
            self.old self.new view result }
        ensures rests { self.old.node.state.applied ≡ [] → Rests self.old self.new result }
        ensures whole { (first : M.Content) (under : List (Entry M.Body)) → self.old.spoiled ≡ false
            → HasUnder M.steps M.content first under self.old
            → may_cut (own_cut M.saved M.content self.old.log) self.old.node.state ≡ nat_lt 0 (length self.old.node.state.applied) }
        ensures brings { (first : M.Content) (under : List (Entry M.Body)) → IsLogOf M.steps M.content first under self.old.log
            → AreGiven (under ++ self.old.log.applied) → OnOk result (0 < length self.old.log.applied
            → LoadsSaved M.saved M.loaded (machine_from M.steps first) (under ++ self.old.log.applied)) }
        ensures loads { (first : M.Content) (under : List (Entry M.Body)) → IsLogOf M.steps M.content first under self.old.log
            → M.is_sound first → AreGiven (under ++ self.old.log.applied) → OnOk result (0 < length self.old.log.applied
            → is_no_log M.loaded (own_cut M.saved M.content self.old.log) ≡ false) }
    {
        self.parts.fits_slots(); // for the proof
        make_cut(mail, &mut self.seat, &mut self.parts)
    }

    /// Returns the number of its node.
    pub fn me(&self) -> u8
        ensures { result ≡ self.now.node.me }
    {
        self.parts.me()
    }

    /// Returns the present boot of its node.
    pub fn boot(&self) -> u64
        ensures { result ≡ self.now.node.state.rows.boot }
    {
        self.parts.boot()
    }

    /// Returns the length of its node's log; 0 once the node is down.
    pub fn applied(&self) -> u64
        ensures { result ≡ told_length self.now.node.state }
    {
        self.parts.applied()
    }

    /// Returns the floor, up to which its node's snapshot gives the log.
    pub fn floor(&self) -> u64
        ensures { result ≡ floor_in self.now.node.state.rows.snapshot }
    {
        self.parts.floor()
    }

    /// Returns whether entries of its node wait for a slot.
    pub fn has_pending(&self) -> bool
        ensures { result ≡ nat_lt 0 (length self.now.node.state.pending) }
    {
        self.parts.has_pending()
    }

    /// Returns how many entries of its node wait for a slot. Takes constant time.
    pub fn pending_entries(&self) -> usize
        ensures { result ≡ length self.now.node.state.pending }
    {
        self.parts.pending_entries()
    }

    /// Returns whether its node leads.
    pub fn is_leading(&self) -> bool
        ensures { result ≡ is_leading self.now.node.state.proposer.role }
    {
        self.parts.is_leading()
    }

    /// Returns the greatest ballot that its node has promised, if any.
    pub fn promised(&self) -> Option<Ballot>
        ensures { result ≡ self.now.node.state.rows.promised }
    {
        self.parts.promised()
    }

    /// Returns how many slots there are after its node's log up to the last one that the node voted in: as many as a ballot takes over that
    /// the node promises, if its owner's log is as long. Takes constant time.
    pub fn open_slots(&self) -> u64
        ensures { result ≡ open_slots self.now.node.state }
    {
        self.parts.open_slots()
    }

    /// Returns how many commits the node has made in its store in this boot.
    pub fn commits(&self) -> u64 {
        self.parts.commits()
    }

    /// Returns how many packets wait to be posted to this node.
    pub fn waiting_for(&self, peer: u8) -> usize
        ensures { result ≡ length (waiting peer self.now.waiting) }
    {
        self.parts.waiting_for(peer)
    }

    /// Returns the peer from which the last turn fetched a packet, if it fetched one.
    pub fn from(&self) -> Option<u8>
        ensures { result ≡ self.now.last.from }
    {
        self.last.from
    }

    /// Returns what the packet showed that the last turn fetched, if it fetched one.
    pub fn heard(&self) -> Option<Heard>
        ensures { result ≡ self.now.last.heard }
    {
        self.last.heard
    }

    /// Returns from which members the packets of the last round came, and what each showed, in order.
    pub fn came(&self) -> &[Hearing]
        ensures { result.now ≡ self.now.last.came }
    {
        self.last.came.as_slice()
    }

    /// Returns no sayings. Does not allocate.
    pub fn silence(&self) -> Vec<M::Say>
        ensures { result.items ≡ [] }
    {
        self.parts.silence()
    }

    /// Does nothing. Its contract says that the actor stands for what its seat knows.
    pub fn stands(&self)
        ensures { StandsFor self.now self.now.seat }
    {
        let _ = &self.seat; // for the proof
    }

    /// Returns the peers to which the last turn or round posted.
    pub fn posted(&self) -> NodeSet
        ensures { result ≡ self.now.last.posted }
    {
        self.last.posted
    }

    /// Returns the entries of the node's log above the floor, in the order of their slots; none once the node is down. If running out of memory
    /// ended the actor, the last entries may be missing. Does not allocate.
    pub fn log(&self) -> &[Entry<M::Body>]
        ensures whole { (view : View M.Body) → StandsFor self.now view → self.now.spoiled ≡ false → result.now ≡ (seen view).node.applied }
        ensures front { (view : View M.Body) → StandsFor self.now view → IsPrefixOf result.now (seen view).node.applied }
        ensures down { self.now.node.state.up ≡ false → result.now ≡ [] }
    {
        self.parts.log()
    }

    /// Takes the node down. Its rows, and what a failed commit was to leave, are left for `restart`. Does not allocate.
    pub fn crash(self) -> (Post<M::Body>, K)
        ensures left { (view : View M.Body) → StandsFor self view → LeftOf M.Body.same result.0 view }
        ensures me { result.0.me ≡ self.node.me }
        ensures members { result.0.members ≡ self.node.members }
        ensures failed { result.0.failed ≡ self.failed }
        ensures seat { result.0.seat ≡ self.seat }
        ensures keeper { result.1 ≡ self.keeper }
    {
        let Actor {
            parts,
            seat,
            first: _,
            last: _last,
        } = self;
        let (me, members) = (parts.me(), parts.members());
        let (rows, failed, keeper) = parts.leave_rows();
        (Post::of(me, members, Some(rows), failed, seat), keeper)
    }
}

impl<M: Machine, K: Keeper<M::Body> + Drop> Actor<M, K> {
    /// Returns the seat, and the log of the node, which the machine has followed. The log is whole if the actor is not spoiled. Does not
    /// allocate.
    pub fn leave(self) -> (NodeSeat<M::Body>, AppliedLog<M>)
        ensures seat { result.0 ≡ self.seat }
        ensures log { (view : View M.Body) → StandsFor self view → self.spoiled ≡ false → result.1.applied ≡ (seen view).node.applied }
        ensures floor { (view : View M.Body) → StandsFor self view → self.spoiled ≡ false → result.1.floor ≡ floor_in (seen view).node.rows.snapshot }
        ensures machine { (first : M.Content) (under : List (Entry M.Body))
            → IsLogOf M.steps M.content first under self.log
            → IsLogOf M.steps M.content first under result.1 }
    {
        let Actor {
            parts,
            seat,
            first: _,
            last: _last,
        } = self;
        (seat, parts.leave())
    }
}
