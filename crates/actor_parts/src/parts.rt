//! The parts of an actor, and what is done to each.
ghost use Rattle.std.specs.Prelude.{◌≡◌, ◌<◌, ◌++◌, [], length, nat_lt, true, false, Some, Ok, Err, OnOk, OnErr, IfOk, IfErr, IfNone, IfSome, is_err};
ghost use Rattle.std.specs.Prelude.{◌^◌, ◌+◌, ◌≤◌, ◌∷◌, All, List, IsErrOf, is_some, if◌then◌else◌};
ghost use Rattle.paxos_acceptor.specs.Acceptor as accepting;
ghost use Rattle.paxos_node.specs.declared.fault.NodeFault.TheVariants as node_fault;
ghost use Rattle.paxos_node.specs.Adopting.{Planned, Fits};
ghost use Rattle.paxos_node.specs.Events.{outcome_of, is_round_refused, is_full_refused};
ghost use Rattle.paxos_node.specs.Held.{HasRoom};
ghost use Rattle.paxos_node.specs.Plans.{plans, unchanged, Answers};
ghost use Rattle.paxos_proposer.specs.Proposer.{is_leading};
ghost use Rattle.actor_outboxes.specs.Outboxes.{HasLimits, IsPeer, ManyTaken, TakenFor, WaitFirst, WaitsFirst, most_waiting, waiting};
ghost use Rattle.actor_parts.specs.Parts.{Parted, IsPrefixOf, first_parts, is_late, open_slots};
ghost use Rattle.actor_parts.specs.declared.tried.FailedCommit.TheVariants as failures;
ghost use Rattle.actor_parts.specs.Steps.{IsAtEnd, Applied, Falls, OnlyNode, OnlyKeeper, OnlyLog, OnlyWaiting, Adopts};
ghost use Rattle.actor_parts.specs.Snapshots.{base_log, is_no_log, unboxed, IsMadeOf};
ghost use Rattle.paxos_node.specs.Snapshots.{may_cut};
ghost use Rattle.paxos_node.specs.declared.event.Event.TheVariants.{Cut};
ghost use Rattle.paxos_packets.specs.Snapshot.{floor_in, snapshot_of};
ghost use Rattle.paxos_packets.specs.declared.entry.Entry as log_entries;
ghost use Rattle.paxos_planning.specs.Node.{log_length, told_length};
ghost use Rattle.replica_machine.specs.Given.{AreGiven};
ghost use Rattle.replica_machine.specs.Log.{IsLogOf, length_in};
ghost use Rattle.replica_machine.specs.Snapshot.{kept_octets, kept_of, loaded_log};

use crate::following::apply_all;
use crate::loading::load_log;
use crate::storing::commit;
use crate::tried::FailedCommit;
use actor_outboxes::Outboxes;
use paxos_node::{Event, Node, NodeFault, Outcome};
use paxos_packets::{Ballot, Entries, Entry, Kind, Members, Memory, Packet, Rows};
use replica_machine::{AppliedLog, Failed, LoadFault, Machine, SaveFault};
use std::alloc::Global;
use std::marker::Model;
use store_keeper::{Keeper, KeeperFault};

/// What an actor is made of: a node, its store, the packets that wait to go out, and the machine that follows its log. What holds of an
/// actor need not hold between the steps of an event, so the calls require it.
pub struct Parts<M: Machine, K> {
    pub(crate) alloc: Global,
    pub(crate) node: Node<M::Body>,
    pub(crate) keeper: K,
    // How many commits were made.
    pub(crate) commits: u64,
    pub(crate) outboxes: Outboxes<M::Body>,
    log: AppliedLog<M>,
    // What a failed commit was to leave.
    pub(crate) failed: Option<FailedCommit<M::Body>>,
    pub(crate) spoiled: bool,
}

impl<M: Machine, K: Drop> Drop for Parts<M, K> {
    fn drop(self) {
        let Parts {
            alloc: _,
            node: _node,
            keeper: _keeper,
            commits: _,
            outboxes: _outboxes,
            log: _log,
            failed: _failed,
            spoiled: _,
        } = self;
    }
}

impl<M: Machine, K> Model for Parts<M, K> {
    ghost use Rattle.actor_parts.specs.Parts.{Parted};

    ghost Value = { Parted M.Body M K };

    ghost view = { λ p.
        record { node = p.node; keeper = p.keeper; waiting = p.outboxes; log = p.log; failed = p.failed; spoiled = p.spoiled } };
}

impl<M: Machine, K: Keeper<M::Body>> Parts<M, K> {
    /// Creates the parts of an actor that has just begun, with this log.
    pub fn of(
        alloc: Global,
        node: Node<M::Body>,
        outboxes: Outboxes<M::Body>,
        keeper: K,
        log: AppliedLog<M>,
    ) -> Parts<M, K>
        ensures { result ≡ first_parts node keeper outboxes log }
    {
        Parts {
            alloc,
            node,
            keeper,
            commits: 0,
            outboxes,
            log,
            failed: None,
            spoiled: false,
        }
    }

    /// Returns whether a fault has ended the actor.
    pub fn is_spoiled(&self) -> bool
        ensures { result ≡ self.now.spoiled }
    {
        self.spoiled
    }

    /// Returns its node's number.
    pub fn me(&self) -> u8
        ensures { result ≡ self.now.waiting.me }
    {
        self.outboxes.me()
    }

    /// Returns the members.
    pub fn members(&self) -> Members
        ensures { result ≡ self.now.waiting.members }
    {
        self.outboxes.members()
    }

    /// Returns the present boot of its node.
    pub fn boot(&self) -> u64
        ensures { result ≡ self.now.node.state.rows.boot }
    {
        self.node.boot()
    }

    /// Returns whether its node is up.
    pub fn is_up(&self) -> bool
        ensures { result ≡ self.now.node.state.up }
    {
        self.node.is_up()
    }

    /// Returns the length of its node's log; 0 once the node is down.
    pub fn applied(&self) -> u64
        ensures { result ≡ told_length self.now.node.state }
    {
        if self.node.is_up() {
            self.node.applied()
        } else {
            0
        }
    }

    /// Returns the floor, up to which the node's snapshot gives its log.
    pub fn floor(&self) -> u64
        ensures { result ≡ floor_in self.now.node.state.rows.snapshot }
    {
        self.node.floor().get()
    }

    /// Returns whether the log has entries above its floor.
    pub fn has_applied(&self) -> bool
        ensures { result ≡ nat_lt 0 (length self.now.log.applied) }
    {
        !self.log.applied().is_empty()
    }

    /// Returns whether entries of its node wait for a slot.
    pub fn has_pending(&self) -> bool
        ensures { result ≡ nat_lt 0 (length self.now.node.state.pending) }
    {
        self.node.has_pending()
    }

    /// Returns how many entries of its node wait for a slot. Takes constant time.
    pub fn pending_entries(&self) -> usize
        ensures { result ≡ length self.now.node.state.pending }
    {
        self.node.pending().len()
    }

    /// Returns whether its node leads.
    pub fn is_leading(&self) -> bool
        ensures { result ≡ is_leading self.now.node.state.proposer.role }
    {
        self.node.is_leading()
    }

    /// Returns the greatest ballot that its node has promised, if any.
    pub fn promised(&self) -> Option<Ballot>
        ensures { result ≡ self.now.node.state.rows.promised }
    {
        self.node.promised()
    }

    /// Returns how many slots there are after its node's log up to the last one that the node voted in. Takes constant time.
    pub fn open_slots(&self) -> u64
        ensures { result ≡ open_slots self.now.node.state }
    {
        let applied = self.node.applied();
        match self.node.votes().last() {
            Some(vote) => vote.slot.get().saturating_sub(applied),
            None => 0,
        }
    }

    /// Returns how many commits were made.
    pub fn commits(&self) -> u64 {
        self.commits
    }

    /// Returns how many packets wait to be posted to this node.
    pub fn waiting_for(&self, peer: u8) -> usize
        ensures { result ≡ length (waiting peer self.now.waiting) }
    {
        self.outboxes.waiting_for(peer)
    }

    /// Does nothing. Its contract says that no more packets wait for a member than may.
    pub fn limits(&self)
        ensures { HasLimits self.now.waiting }
    {
        self.outboxes.limits(); // for the proof
    }

    /// Does nothing. Its contract says that the node's log is shorter than there are slots.
    pub fn fits_slots(&self)
        ensures { log_length self.now.node.state < 2 ^ 40 }
    {
        let _ = self.node.applied(); // for the proof
    }

    /// Returns the allocator.
    pub fn allocator(&self) -> Global {
        self.alloc
    }

    /// Returns no sayings.
    pub fn silence(&self) -> Vec<M::Say>
        ensures { result.items ≡ [] }
    {
        Vec::new(self.alloc)
    }

    /// Marks the actor as ended by a fault.
    pub fn spoil(&mut self)
        ensures { self.new ≡ record self.old { spoiled = true } }
    {
        self.spoiled = true;
    }

    /// Marks the actor as ended by the failed commit of this outcome, which is kept.
    pub fn spoil_at(&mut self, outcome: Outcome<M::Body>)
        ensures { self.new ≡ record self.old { failed = Some (failures.One outcome); spoiled = true } }
    {
        self.failed = Some(FailedCommit::One { outcome });
        self.spoiled = true;
    }

    /// Plans what the event makes of the node.
    pub fn plan(&self, event: &Event<M::Body>) -> Result<Outcome<M::Body>, NodeFault>
        requires { plans self.now.node.me event.now self.now.node.state ≡ true }
        ensures planned { Answers (is_round_refused event.now self.now.node.state) (is_full_refused M.Body.same event.now self.now.node.state)
            (outcome_of M.Body.same self.now.node.members event.now self.now.node.state).disagrees
            (λ outcome. Planned M.Body.same self.now.node.members event.now self.now.node.state outcome) result }
        ensures fits { IfOk result (λ outcome. Fits self.now.node.me self.now.node.members outcome self.now.node.state) }
        ensures memory { result ≡ Err node_fault.Memory
            → (outcome_of M.Body.same self.now.node.members event.now self.now.node.state).disagrees ≡ false }
    {
        self.node.plan(event)
    }

    /// Returns the octets of the log, as `AppliedLog::save` does.
    pub fn save(&self) -> Result<Vec<u8>, SaveFault>
        ensures octets { IfOk result (λ octets. octets.items ≡ kept_octets M.saved (kept_of M.content self.now.log)) }
        ensures back { (first : M.Content) (under : List (log_entries.Entry M.Body))
            → IsLogOf M.steps M.content first under self.now.log → M.is_sound first
            → AreGiven (under ++ self.now.log.applied) → length_in self.now.log < 2 ^ 40
            → IfOk result (λ octets. loaded_log M.loaded octets.items ≡ Some (kept_of M.content self.now.log)) }
        ensures only { (first : M.Content) (under : List (log_entries.Entry M.Body))
            → IsLogOf M.steps M.content first under self.now.log → AreGiven (under ++ self.now.log.applied)
            → length_in self.now.log < 2 ^ 40
            → IfOk result (λ octets. IfSome (loaded_log M.loaded octets.items) (λ kept. kept ≡ kept_of M.content self.now.log)) }
    {
        self.log.save()
    }

    /// Plans that the node, which is up, rests on these octets; `None` if they are no snapshot of its log, or if no entry is applied above
    /// the floor.
    pub fn plan_cut(&self, octets: &[u8]) -> Result<Option<Outcome<M::Body>>, Memory>
        requires up { self.now.node.state.up ≡ true }
        ensures planned { IfOk result (λ plan. IfSome plan (λ outcome. Planned M.Body.same self.now.node.members
            (Cut self.now.node.me (snapshot_of octets.now)) self.now.node.state outcome)) }
        ensures exactly { IfOk result (λ plan. is_some plan ≡ may_cut (snapshot_of octets.now) self.now.node.state) }
        ensures rests { IfOk result (λ plan. IfSome plan (λ outcome. outcome.change.snapshot ≡ snapshot_of octets.now)) }
        ensures fits { IfOk result (λ plan. IfSome plan (λ outcome.
            Fits self.now.node.me self.now.node.members outcome self.now.node.state)) }
    {
        let Ok(outcome) = self.node.plan_cut(octets) else {
            return Err(Memory);
        };
        if outcome.change.snapshot.is_none() {
            return Ok(None);
        }
        Ok(Some(outcome))
    }

    /// Returns the log that is made of the snapshot which the outcome commits, if it commits one.
    pub fn load(&self, outcome: &Outcome<M::Body>) -> Result<Option<Box<AppliedLog<M>>>, LoadFault>
        ensures made { IfOk result (λ made. IsMadeOf M.content M.loaded outcome.now.change.snapshot (unboxed made)) }
        ensures damaged { IsErrOf result LoadFault.Damaged → is_no_log M.loaded outcome.now.change.snapshot ≡ true }
    {
        load_log(self.alloc, &outcome.change.snapshot)
    }

    /// Lets the machine go on where the node does that has committed this outcome: from the log that is made of the snapshot which the node
    /// takes; else from the one that there is, which is cut if the node rests on a snapshot of it.
    pub fn go_from(&mut self, outcome: &Outcome<M::Body>, made: Option<Box<AppliedLog<M>>>)
        ensures log { self.new.log ≡ base_log (unboxed made) outcome.now.change.snapshot self.old.log }
        ensures rest { OnlyLog self.old self.new }
    {
        if let Some(made) = made {
            self.log = Box::into_inner(made);
            return;
        }
        if outcome.change.snapshot.is_some() {
            self.log.cut();
        }
    }

    /// Allocates all memory that adopting the outcome needs.
    pub fn make_room(&mut self, outcome: &Outcome<M::Body>) -> Result<(), NodeFault>
        ensures ok { OnOk result (HasRoom outcome.now self.new.node) }
        ensures state { self.new.node.state ≡ self.old.node.state }
        ensures me { self.new.node.me ≡ self.old.node.me }
        ensures members { self.new.node.members ≡ self.old.node.members }
        ensures rest { OnlyNode self.old self.new }
    {
        self.node.make_room(outcome)
    }

    /// Commits what the outcome adds to the node's rows, given that the keeper holds these. Commits nothing if they have all of it.
    pub fn commit(&mut self, outcome: &Outcome<M::Body>) -> Result<(), KeeperFault>
        ensures ok { OnOk result (K.holds self.old.keeper self.old.node.state.rows
            → K.holds self.new.keeper (accepting.adopted self.old.node.state.rows outcome.now.change)) }
        ensures falls { K.holds self.old.keeper self.old.node.state.rows → IfErr result (λ fault.
            Falls K.finds K.failures outcome.now.change self.old.node.state.rows self.old.keeper self.new.keeper fault) }
        ensures whole { K.is_failed self.old.keeper ≡ false → K.is_failed self.new.keeper ≡ is_err result }
        ensures counts { K.failures self.old.keeper ≤ K.failures self.new.keeper }
        ensures rest { OnlyKeeper self.old self.new }
    {
        commit(
            &mut self.keeper,
            &mut self.commits,
            &self.node,
            &outcome.change,
        )
    }

    // Makes the node adopt the outcome, whose packets wait then. Returns the entries that it applied.
    pub(crate) fn adopt(&mut self, outcome: Outcome<M::Body>) -> Entries<M::Body>
        requires room { HasRoom outcome self.old.node }
        requires fits { Fits self.old.node.me self.old.node.members outcome self.old.node.state }
        ensures adopts { Adopts outcome self.old self.new }
        ensures applied { result ≡ outcome.applied }
    {
        let (packets, applied) = self.node.adopt_in_room(outcome);
        self.outboxes.put_all(packets.into_vec());
        applied
    }

    // Makes the machine follow these entries. Returns what it says at them to the node's transports of this boot.
    pub(crate) fn apply(
        &mut self,
        boot: u64,
        entries: Entries<M::Body>,
    ) -> Result<Vec<M::Say>, Failed>
        requires alive { self.old.log.failed ≡ false }
        requires end { IsAtEnd self.old.log }
        ensures ok { IfOk result (λ says. Applied M.steps M.content self.old.waiting.me boot entries
            self.old.log self.new.log says.items) }
        ensures end { IsAtEnd self.new.log }
        ensures err { OnErr result (IsPrefixOf self.new.log.applied (self.old.log.applied ++ entries)) }
        ensures rest { OnlyLog self.old self.new }
    {
        apply_all(
            self.alloc,
            &mut self.log,
            self.outboxes.me(),
            boot,
            entries.into_vec(),
        )
    }

    /// Takes the oldest packet that waits for this node, if any does.
    pub fn take_for(&mut self, peer: u8) -> Option<Packet<M::Body>>
        ensures none { IfNone result ((self.new ≡ self.old) × (waiting peer self.old.waiting ≡ [])) }
        ensures some { IfSome result (λ p. TakenFor peer p self.old.waiting self.new.waiting) }
        ensures rest { OnlyWaiting self.old self.new }
    {
        self.outboxes.take_for(peer)
    }

    /// Takes the oldest packets that wait for this node, if any do, to go together, as `Outboxes::take_many` does.
    pub fn take_many(
        &mut self,
        peer: u8,
        most: usize,
    ) -> Option<(Packet<M::Body>, Vec<Packet<M::Body>>)>
        requires some { 1 ≤ most }
        ensures none { IfNone result ((self.new ≡ self.old) × (waiting peer self.old.waiting ≡ [])) }
        ensures some { IfSome result (λ t. ManyTaken peer most (t.0 ∷ t.1.items) self.old.waiting self.new.waiting) }
        ensures rest { OnlyWaiting self.old self.new }
    {
        self.outboxes.take_many(self.alloc, peer, most)
    }

    /// Puts packets before those that wait for their addressee, in order.
    pub fn put_back_all(&mut self, peer: u8, first: Packet<M::Body>, rest: Vec<Packet<M::Body>>)
        requires peer { IsPeer self.old.waiting.me self.old.waiting.members peer }
        requires addressed { All (λ p. p.addressee ≡ peer) (first ∷ rest.items) }
        requires room { 1 + length rest.items + length (waiting peer self.old.waiting) ≤ most_waiting }
        ensures first { WaitFirst peer (first ∷ rest.items) self.old.waiting self.new.waiting }
        ensures rest { OnlyWaiting self.old self.new }
    {
        self.outboxes.put_back_all(peer, first, rest);
    }

    /// Returns whether the packet comes too late to tell its node anything: it is an Accepted of a slot that the node has applied.
    pub fn is_late(&self, packet: &Packet<M::Body>) -> bool
        ensures { result ≡ is_late packet.now self.now.node.state }
    {
        match &packet.kind {
            Kind::Accepted { vote } => vote.slot.get() <= self.node.applied(),
            Kind::Prepare { .. }
            | Kind::Promise { .. }
            | Kind::Accept { .. }
            | Kind::Nack { .. }
            | Kind::Forward { .. }
            | Kind::Learned { .. }
            | Kind::Ask { .. }
            | Kind::Snapshot { .. } => false,
        }
    }

    /// Puts a packet before those that wait for its addressee.
    pub fn put_back(&mut self, packet: Packet<M::Body>)
        requires peer { IsPeer self.old.waiting.me self.old.waiting.members packet.addressee }
        requires room { length (waiting packet.addressee self.old.waiting) < most_waiting }
        ensures first { WaitsFirst packet self.old.waiting self.new.waiting }
        ensures rest { OnlyWaiting self.old self.new }
    {
        self.outboxes.put_back(packet);
    }

    /// Returns the entries of the log above the floor; none once the node is down.
    pub fn log(&self) -> &[Entry<M::Body>]
        ensures { result.now ≡ (if self.now.node.state.up then self.now.log.applied else []) }
    {
        if self.node.is_up() {
            self.log.applied()
        } else {
            &self.log.applied()[..0]
        }
    }

    /// Returns what is left of the node: its rows, what a failed commit was to leave, and the store.
    pub fn leave_rows(self) -> (Rows<M::Body>, Option<FailedCommit<M::Body>>, K)
        ensures rows { result.0 ≡ self.node.state.rows }
        ensures failed { result.1 ≡ self.failed }
        ensures keeper { result.2 ≡ self.keeper }
    {
        let Parts {
            alloc: _,
            node,
            keeper,
            commits: _,
            outboxes: _outboxes,
            log: _log,
            failed,
            spoiled: _,
        } = self;
        (node.into_rows(), failed, keeper)
    }
}

impl<M: Machine, K: Keeper<M::Body> + Drop> Parts<M, K> {
    /// Returns the log, and the machine that has followed it.
    pub fn leave(self) -> AppliedLog<M>
        ensures { result ≡ self.log }
    {
        let Parts {
            alloc: _,
            node,
            keeper,
            commits: _,
            outboxes,
            log,
            failed,
            spoiled: _,
        } = self;
        drop(node);
        drop(keeper);
        drop(outboxes);
        drop(failed);
        log
    }
}
