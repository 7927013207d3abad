//! How a node goes on by events before they are committed, and what becomes of them then.
ghost use Rattle.std.specs.Prelude.{◌≡◌, ◌≤◌, ◌++◌, ◌∷◌, [], true, false, Some, None, OnOk, OnErr, IfOk, IfErr, is_err, IsTrue, List, MatchResult};
ghost use Rattle.std.specs.Prelude.{vec_len, vec_capacity, ◌<◌};
ghost use Rattle.paxos_acceptor.specs.Ahead.{IsAhead, none_noted, taken_back};
ghost use Rattle.paxos_acceptor.specs.Acceptor.{adopted};
ghost use Rattle.paxos_node.specs.Adopting.{Fits, Planned};
ghost use Rattle.paxos_node.specs.Applying.{down};
ghost use Rattle.paxos_node.specs.Events.{outcome_of, is_full_refused, is_round_refused};
ghost use Rattle.paxos_node.specs.Held.{HasRoom};
ghost use Rattle.paxos_node.specs.Plans.{plans};
ghost use Rattle.paxos_packets.specs.declared.rows.Rows as held_rows;
ghost use Rattle.actor_outboxes.specs.Outboxes.{WaitBehind};
ghost use Rattle.actor_parts.specs.Steps.{Falls, IsAtEnd, OnlyKeeper, OnlyNode, OnlyWaiting};
ghost use Rattle.actor_parts.specs.Tried.{IsReady, TakesAll, Tries};
ghost use Rattle.actor_parts.specs.Parts.{Parted};
ghost use Rattle.actor_parts.specs.declared.tried.Tried as trying;
ghost use Rattle.actor_parts.specs.declared.tried.FailedCommit.TheVariants as failures;

use crate::parts::Parts;
use crate::storing::commit_all;
use crate::tried::{FailedCommit, Staged, Tried, TriedEvents};
use paxos_acceptor::Ahead;
use paxos_node::{Event, Outcome, Packets};
use paxos_packets::Memory;
use replica_machine::Machine;
use store_keeper::{Keeper, KeeperFault};

impl<M: Machine, K: Keeper<M::Body>> Parts<M, K> {
    /// Returns that no event was tried. Does not allocate.
    pub fn nothing_tried(&self) -> Staged<M::Body>
        ensures tried { result.tried ≡ [] }
        ensures noted { result.ahead ≡ none_noted self.now.node.state.rows.promised }
        ensures ahead { IsAhead self.now.node.state.rows result.ahead self.now.node.state.rows }
    {
        Staged {
            ahead: self.node.nothing_ahead(),
            tried: Vec::new(self.alloc),
        }
    }

    /// Tries an event of the node: lets the node go on by it, and keeps what it changes to be committed, and what it sends and applies. Returns
    /// the event, and changes nothing, if it is refused or disagrees, commits a snapshot or takes the node down, or if memory runs out: such an
    /// event is carried out alone.
    pub fn try_event(
        &mut self,
        event: Event<M::Body>,
        staged: &mut Staged<M::Body>,
    ) -> Result<(), Event<M::Body>>
        requires own { plans self.old.node.me event self.old.node.state ≡ true }
        ensures ok { OnOk result (Tries M.Body.same self.old.node.me self.old.node.members event self.old self.new staged.old staged.new) }
        ensures err { IfErr result (λ back. (back ≡ event) × (staged.new ≡ staged.old) × (self.new.node.state ≡ self.old.node.state)) }
        ensures me { self.new.node.me ≡ self.old.node.me }
        ensures members { self.new.node.members ≡ self.old.node.members }
        ensures rest { OnlyNode self.old self.new }
    {
        let Ok(()) = staged.tried.reserve(1) else {
            return Err(event);
        };
        let Ok(outcome) = self.plan_ahead(&event, &mut staged.ahead) else {
            return Err(event);
        };
        let log = outcome.log();
        let (packets, applied) = self.node.adopt_in_room(outcome);
        staged.tried.push_reserved(Tried {
            event,
            log,
            packets,
            applied,
        });
        Ok(())
    }

    // Plans the event, and does all that may be refused before the node goes on by it.
    fn plan_ahead(
        &mut self,
        event: &Event<M::Body>,
        ahead: &mut Ahead<M::Body>,
    ) -> Result<Outcome<M::Body>, Memory>
        requires own { plans self.old.node.me event.now self.old.node.state ≡ true }
        ensures planned { IfOk result (λ outcome. Planned M.Body.same self.old.node.members event.now self.old.node.state outcome) }
        ensures fits { IfOk result (λ outcome. Fits self.new.node.me self.new.node.members outcome self.new.node.state) }
        ensures taken { OnOk result ((is_round_refused event.now self.old.node.state ≡ false)
            × (is_full_refused M.Body.same event.now self.old.node.state ≡ false)) }
        ensures room { IfOk result (λ outcome. HasRoom outcome self.new.node) }
        ensures up { IfOk result (λ outcome. outcome.is_down ≡ false) }
        ensures snapshot { IfOk result (λ outcome. outcome.change.snapshot ≡ None) }
        ensures noted { IfOk result (λ outcome. (kept : held_rows.Rows M.Body) → IsAhead kept ahead.old self.old.node.state.rows
            → IsAhead kept ahead.new (adopted self.old.node.state.rows outcome.change)) }
        ensures err { OnErr result (ahead.new ≡ ahead.old) }
        ensures state { self.new.node.state ≡ self.old.node.state }
        ensures me { self.new.node.me ≡ self.old.node.me }
        ensures members { self.new.node.members ≡ self.old.node.members }
        ensures rest { OnlyNode self.old self.new }
    {
        let Ok(outcome) = self.node.plan(event) else {
            return Err(Memory);
        };
        if outcome.is_down || outcome.change.snapshot.is_some() {
            drop(outcome);
            return Err(Memory);
        }
        let Ok(()) = self.make_room_for(&outcome, ahead) else {
            drop(outcome);
            return Err(Memory);
        };
        Ok(outcome)
    }

    // Reserves memory for the outcome, and notes its change.
    fn make_room_for(
        &mut self,
        outcome: &Outcome<M::Body>,
        ahead: &mut Ahead<M::Body>,
    ) -> Result<(), Memory>
        requires snapshot { outcome.now.change.snapshot ≡ None }
        ensures room { OnOk result (HasRoom outcome.now self.new.node) }
        ensures noted { (kept : held_rows.Rows M.Body) → IsAhead kept ahead.old self.old.node.state.rows
            → OnOk result (IsAhead kept ahead.new (adopted self.old.node.state.rows outcome.now.change)) }
        ensures err { OnErr result (ahead.new ≡ ahead.old) }
        ensures state { self.new.node.state ≡ self.old.node.state }
        ensures me { self.new.node.me ≡ self.old.node.me }
        ensures members { self.new.node.members ≡ self.old.node.members }
        ensures rest { OnlyNode self.old self.new }
    {
        let Ok(()) = self.node.make_room(outcome) else {
            return Err(Memory);
        };
        self.node.note(&outcome.change, ahead)
    }

    /// Commits what the tried events change, in one commit, given that the keeper holds the rows of before; commits nothing if they have all of
    /// it.
    pub fn commit_all(&mut self, staged: &Staged<M::Body>) -> Result<(), KeeperFault>
        ensures ok { (kept : held_rows.Rows M.Body) → IsAhead kept staged.now.ahead self.old.node.state.rows → K.holds self.old.keeper kept
            → OnOk result (K.holds self.new.keeper self.old.node.state.rows) }
        ensures falls { (kept : held_rows.Rows M.Body) → IsAhead kept staged.now.ahead self.old.node.state.rows → K.holds self.old.keeper kept
            → IfErr result (λ fault. Falls K.finds K.failures staged.now.ahead.change kept self.old.keeper self.new.keeper fault) }
        ensures whole { K.is_failed self.old.keeper ≡ false → K.is_failed self.new.keeper ≡ is_err result }
        ensures counts { K.failures self.old.keeper ≤ K.failures self.new.keeper }
        ensures rest { OnlyKeeper self.old self.new }
    {
        commit_all(&mut self.keeper, &mut self.commits, &staged.ahead)
    }

    /// Files the packets of the tried events, which are committed, and makes the machine follow what these apply. Appends what it says to the
    /// node's transports of this boot. `Memory` if memory runs out, after some of it; the packets of all of them are filed.
    pub fn take_over_all(
        &mut self,
        staged: Staged<M::Body>,
        says: &mut Vec<M::Say>,
    ) -> Result<(), Memory>
        requires alive { self.old.log.failed ≡ false }
        requires end { IsAtEnd self.old.log }
        ensures takes { TakesAll M.steps M.content self.old.node.state.rows.boot staged.tried self.old self.new says.old.items says.new.items result }
        ensures node { self.new.node ≡ self.old.node }
        ensures keeper { self.new.keeper ≡ self.old.keeper }
        ensures failed { self.new.failed ≡ self.old.failed }
        ensures spoiled { self.new.spoiled ≡ self.old.spoiled }
        ensures me { self.new.waiting.me ≡ self.old.waiting.me }
        ensures members { self.new.waiting.members ≡ self.old.waiting.members }
    {
        self.limits(); // for the proof
        let (ahead, tried) = staged.into_parts();
        drop(ahead);
        let boot = self.boot();
        let mut done = Ok(());
        for one in tried {
            done = self.take_over_one(boot, one, done, says);
        }
        done
    }

    // Files the packets of one event, and makes the machine follow what it applies, if memory lasted so far. Appends what it says.
    fn take_over_one(
        &mut self,
        boot: u64,
        one: Tried<M::Body>,
        so_far: Result<(), Memory>,
        says: &mut Vec<M::Say>,
    ) -> Result<(), Memory>
        requires ready { IsReady M.steps M.content self.old so_far }
        ensures ready { IsReady M.steps M.content self.new result }
        ensures takes { (before : List (trying.Tried M.Body)) (first : Parted M.Body M K) (was : List M.Say)
            → self.old.waiting.me ≡ first.waiting.me → self.old.waiting.members ≡ first.waiting.members
            → TakesAll M.steps M.content boot before first self.old was says.old.items so_far
            → TakesAll M.steps M.content boot (before ++ one ∷ []) first self.new was says.new.items result }
        ensures node { self.new.node ≡ self.old.node }
        ensures keeper { self.new.keeper ≡ self.old.keeper }
        ensures failed { self.new.failed ≡ self.old.failed }
        ensures spoiled { self.new.spoiled ≡ self.old.spoiled }
        ensures me { self.new.waiting.me ≡ self.old.waiting.me }
        ensures members { self.new.waiting.members ≡ self.old.waiting.members }
    {
        let Tried {
            event,
            log: _,
            packets,
            applied,
        } = one;
        drop(event);
        self.file(packets);
        let Ok(()) = so_far else {
            drop(applied);
            return Err(Memory);
        };
        let Ok(mut more) = self.apply(boot, applied) else {
            return Err(Memory);
        };
        let Ok(()) = says.append(&mut more) else {
            return Err(Memory);
        };
        Ok(())
    }

    // Puts packets after those that wait for their addressees.
    fn file(&mut self, packets: Packets<M::Body>)
        ensures waits { WaitBehind packets self.old.waiting self.new.waiting }
        ensures rest { OnlyWaiting self.old self.new }
    {
        self.outboxes.put_all(packets.into_vec());
    }

    /// Marks the actor as ended by the failed commit of these events, which are kept with their change. Its node is down, over the rows of
    /// before them. Does not allocate.
    pub fn spoil_all(&mut self, staged: Staged<M::Body>)
        ensures failed { self.new.failed ≡ Some (failures.Round staged.ahead.change staged.tried) }
        ensures spoiled { self.new.spoiled ≡ true }
        ensures state { self.new.node.state ≡ down (taken_back staged.ahead self.old.node.state.rows) }
        ensures me { self.new.node.me ≡ self.old.node.me }
        ensures members { self.new.node.members ≡ self.old.node.members }
        ensures keeper { self.new.keeper ≡ self.old.keeper }
        ensures waiting { self.new.waiting ≡ self.old.waiting }
        ensures log { self.new.log ≡ self.old.log }
    {
        let (ahead, tried) = staged.into_parts();
        let change = self.node.go_back(ahead);
        self.failed = Some(FailedCommit::Round {
            change,
            tried: TriedEvents::of(tried),
        });
        self.spoiled = true;
    }
}
