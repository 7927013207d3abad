//! The crew of a rescue, and the course of events by which its node applies an act.

ghost use Rattle.std.specs.Prelude.{◌≡◌, ◌<◌, ◌≤◌, ◌^◌, ℕ, suc, option_copied, true, ◌++◌, ◌∷◌, [], filter, map, IfOk, OnOk, IsOkUnless};
ghost use Rattle.paxos_node.specs.Applying.{standing_of};
ghost use Rattle.paxos_node.specs.Events.{last_number};
ghost use Rattle.paxos_packets.specs.Rows.{last_boot};
ghost use Rattle.paxos_packets.specs.Snapshot.{floor_in};
ghost use Rattle.paxos_packets.specs.declared.ballot.Ballot as ballots;
ghost use Rattle.paxos_packets.specs.declared.entry.Entry as entries;
ghost use Rattle.paxos_packets.specs.declared.entry.Entry.TheVariants.{Item};
ghost use Rattle.paxos_planning.specs.Node.{NodeState};
ghost use Rattle.paxos_proposer.specs.Proposals.{behind};
ghost use Rattle.paxos_proposer.specs.Proposer.{own_ballot, round_end};
ghost use Rattle.paxos_proposer.specs.Proposing.{proposals_of};
ghost use Rattle.paxos_proposer.specs.State.{begun, saw, role_in};
ghost use Rattle.replica_machine.specs.declared.roll.Standing.{Standing};
ghost use Rattle.replica_machine.specs.Roll.{HasStandings, is_wanted_by};
ghost use Rattle.world_rescue.specs.Course.{act, seat_of, look, seen_then, lead, led, pass, propose_new, take, course};
ghost use Rattle.world_rescue.specs.Course.{level_course, fetch_again, own_again, floor_again};
ghost use Rattle.world_rescue.specs.Level.{IsLevelOf, seat_by, crew_by, with_own};
ghost use Rattle.world_rescue.specs.Parts.{crew_of, goes_on_from, comes_back_from};
ghost use Rattle.world_rescue.specs.Reaching.{reached};
ghost use Rattle.world_rescue.specs.Room.{has_slots, IsUpTo, LeavesRoom};
ghost use Rattle.world_rescue.specs.declared.fault.CourseFault.TheVariants as fault;

use crate::bid::{Bid, lead, propose_new};
use crate::falling::{falls, wanted};
use crate::fault::CourseFault;
use crate::reaching::{Level, fetch, highest, next, reach};
use crate::visits::{ask_all_in_vain, happen, pass};
use paxos_node::{Event, Node};
use paxos_packets::{Ballot, Body, Entries, Entry, Floor, Members, Memory, Snapshot, Vote};
use paxos_proposer::Proposer;
use replica_machine::Roll;
use std::alloc::Global;
use std::marker::Model;

/// The nodes that take part in a rescue: the one that is rescued, and others that make a majority with it. All are up.
#[derive(Drop)]
pub struct Crew<'a, B> {
    alloc: Global,
    members: Members,
    own: &'a Node<B>,
    helpers: &'a [&'a Node<B>],
}

impl<'a, B> Model for Crew<'a, B> {
    ghost use Rattle.std.specs.Prelude.{map};
    ghost use Rattle.world_rescue.specs.Course as courses;

    ghost Value = { courses.Crew B };

    ghost view = { λ c. record {
      members = c.members;
      own = courses.seat_of c.own.now;
      helpers = map (λ h. courses.seat_of h.now) c.helpers.now;
    } };
}

impl<'a, B: Body> Crew<'a, B> {
    /// Returns the crew of these nodes. Does not allocate; `course` will, from `alloc`.
    pub fn of(
        alloc: Global,
        members: Members,
        own: &'a Node<B>,
        helpers: &'a [&'a Node<B>],
    ) -> Crew<'a, B>
        ensures { result ≡ crew_of members (seat_of own.now) (map (λ h. seat_of h.now) helpers.now) }
    {
        Crew {
            alloc,
            members,
            own,
            helpers,
        }
    }

    /// Appends the events by which the node applies the act `body` of its transport with this number, if a boot and an act are left to it.
    ///
    /// Fails with `NoRoom` if no round is left for one of its ballots, or no slot for an entry, which does not happen where the rounds and
    /// slots that the crew holds leave room, and with `Memory`. After a fault some of the events may be appended. It copies nothing of the
    /// node's log, unless the node has to go down or to rest on a helper's snapshot.
    pub fn course(
        &self,
        events: &mut Vec<Event<B>>,
        number: u32,
        body: &B,
    ) -> Result<(), CourseFault>
        ensures course { self.now.own.node.rows.boot < last_boot → self.now.own.node.taken < last_number →
            OnOk result (events.new.items ≡ events.old.items ++ course B.same self.now (act number body.now)) }
        ensures room { (round slot most : ℕ) → IsUpTo round slot most (reached self.now) → LeavesRoom round slot most → IsOkUnless result fault.Memory }
    {
        let mut roll = self.own.roll().copy();
        let level = reach(self.alloc, events, &mut roll, self.own, self.helpers)?;
        let done = self.level_course(events, &level, &mut roll, number, body);
        drop(level);
        done
    }

    // The rest, once the node is level: the roll goes on over what the node applies.
    fn level_course(
        &self,
        events: &mut Vec<Event<B>>,
        level: &Level<'_, B>,
        roll: &mut Roll,
        number: u32,
        body: &B,
    ) -> Result<(), CourseFault>
        ensures course { (x : NodeState B) → IsLevelOf self.now.own.node.rows.votes level.now x → HasStandings (standing_of x) roll.old →
            x.rows.boot < 2 ^ 48 → x.taken < last_number →
            OnOk result (events.new.items ≡ events.old.items ++ level_course B.same (with_own self.now x) (act number body.now)) }
        ensures room { (round slot most : ℕ) → IsUpTo round slot most (crew_by self.now level.now) → level.now.log ≤ slot → LeavesRoom round slot most →
            IsOkUnless result fault.Memory }
    {
        let mut proposer = self.proposer(level.seen);
        self.look(events, level, &mut proposer)?;
        let ballot = self.first_pass(events, level, &mut proposer)?;
        let applied = level.log.get();
        let cast = proposer.proposed_after(applied);
        if falls(roll, self.own.me(), level.boot, cast) {
            return self.comes_back(events, level, ballot, cast, number, body);
        }
        let log = applied + cast.len() as u64;
        self.goes_on(events, level, &mut proposer, roll, log, number, body)
    }

    // The node leads, and what it proposes after its log is voted for. Returns the ballot in which it leads.
    fn first_pass(
        &self,
        events: &mut Vec<Event<B>>,
        level: &Level<'_, B>,
        proposer: &mut Proposer<B>,
    ) -> Result<Ballot, CourseFault>
        requires me { proposer.old.state.me ≡ self.now.own.number }
        requires members { proposer.old.state.members ≡ self.now.members }
        ensures events { OnOk result (events.new.items ≡ events.old.items
            ++ (lead (own_ballot self.now.own.number proposer.old.state.proposer) (suc level.now.log) [] self.now.helpers
            ++ pass self.now.own.number self.now.helpers (behind level.now.log (proposals_of (role_in proposer.new))))) }
        ensures role { OnOk result (role_in proposer.new ≡ led B.same self.now.members level.now.log level.now.pending
            (own_ballot self.now.own.number proposer.old.state.proposer) (suc level.now.log) [] (seat_by self.now.own level.now) self.now.helpers) }
        ensures ballot { IfOk result (λ ballot. ballot ≡ own_ballot self.now.own.number proposer.old.state.proposer) }
        ensures room { suc proposer.old.state.proposer.seen < round_end →
            has_slots (led B.same self.now.members level.now.log level.now.pending (own_ballot self.now.own.number proposer.old.state.proposer)
            (suc level.now.log) [] (seat_by self.now.own level.now) self.now.helpers) ≡ true → IsOkUnless result fault.Memory }
    {
        let applied = level.log.get();
        let bid = Bid {
            applied,
            first: applied + 1,
            floor: floor_at(level.snapshot),
            cast: &[],
            pending: level.pending.as_slice(),
        };
        let ballot = lead(self.alloc, events, proposer, self.own, self.helpers, &bid)?;
        self.pass(events, proposer.proposed_after(applied))?;
        Ok(ballot)
    }

    // Begins a ballot that need not be promised, so that the node sees the rounds that the helpers promised.
    fn look(
        &self,
        events: &mut Vec<Event<B>>,
        level: &Level<'_, B>,
        proposer: &mut Proposer<B>,
    ) -> Result<(), CourseFault>
        requires me { proposer.old.state.me ≡ self.now.own.number }
        ensures events { OnOk result (events.new.items ≡ events.old.items
            ++ look (own_ballot self.now.own.number proposer.old.state.proposer) (suc level.now.log) self.now.helpers) }
        ensures seen { OnOk result (proposer.new.state
            ≡ saw (seen_then (own_ballot self.now.own.number proposer.old.state.proposer) self.now.helpers) proposer.old.state) }
        ensures room { suc proposer.old.state.proposer.seen < round_end → IsOkUnless result fault.Memory }
    {
        let Ok(ballot) = proposer.next_ballot() else {
            return Err(CourseFault::NoRoom);
        };
        happen(
            events,
            Event::Start {
                node: self.own.me(),
            },
        )?;
        let seen = ask_all_in_vain(events, self.helpers, ballot, level.log.get() + 1)?;
        proposer.saw(seen);
        Ok(())
    }

    // Has each helper cast each of these votes, and brings them to the node.
    fn pass(&self, events: &mut Vec<Event<B>>, votes: &[Vote<B>]) -> Result<(), CourseFault>
        ensures events { OnOk result (events.new.items ≡ events.old.items ++ pass self.now.own.number self.now.helpers votes.now) }
        ensures memory { IsOkUnless result fault.Memory }
    {
        Ok(pass(self.alloc, events, self.own.me(), votes, self.helpers)?)
    }

    // The rest if the node stays up: it takes the act, and proposes what is still pending, the act last, after this many entries.
    fn goes_on(
        &self,
        events: &mut Vec<Event<B>>,
        level: &Level<'_, B>,
        proposer: &mut Proposer<B>,
        roll: &Roll,
        log: u64,
        number: u32,
        body: &B,
    ) -> Result<(), CourseFault>
        ensures course { (stands : ℕ → Standing) → HasStandings stands roll.now → level.now.taken < last_number →
            OnOk result (events.new.items ≡ events.old.items
            ++ goes_on_from B.same (crew_by self.now level.now) (act number body.now) stands log (role_in proposer.old)) }
        ensures room { (stands : ℕ → Standing) → HasStandings stands roll.now → ((e : entries.Entry B) → has_slots (propose_new B.same log
            (filter (is_wanted_by stands) level.now.pending ++ e ∷ []) (role_in proposer.old)) ≡ true) → IsOkUnless result fault.Memory }
    {
        self.take(events, number, body)?;
        let mut pending = wanted(self.alloc, roll, level.pending.as_slice())?;
        self.wait(&mut pending, level.boot, next(level.taken), number, body)?;
        propose_new(self.alloc, proposer, log, pending.as_slice())?;
        self.pass(events, proposer.proposed_after(log))
    }

    // The rest if the node goes down, once these votes were cast: it begins its next boot, rests on a helper's snapshot that gives more than its
    // own, takes the act, leads, and learns the log anew.
    fn comes_back(
        &self,
        events: &mut Vec<Event<B>>,
        level: &Level<'_, B>,
        ballot: Ballot,
        cast: &[Vote<B>],
        number: u32,
        body: &B,
    ) -> Result<(), CourseFault>
        ensures course { level.now.boot < 2 ^ 48 → OnOk result (events.new.items
            ≡ events.old.items ++ comes_back_from B.same (crew_by self.now level.now) (act number body.now) ballot cast.now) }
        ensures room { suc ballot.round < round_end → ((b : ballots.Ballot) (d e : entries.Entry B) → has_slots (led B.same self.now.members
            (floor_again (crew_by self.now level.now)) (d ∷ e ∷ []) b (suc (floor_again (crew_by self.now level.now))) cast.now
            (own_again (crew_by self.now level.now)) self.now.helpers) ≡ true) → IsOkUnless result fault.Memory }
    {
        let node = self.own.me();
        happen(events, Event::Restart { node })?;
        let floor = self.fetch_again(events, level)?;
        self.take(events, number, body)?;
        let boot = next(level.boot);
        let mut pending = Entries::new(self.alloc);
        let Ok(()) = pending.push(Entry::Boot { node, boot }) else {
            return Err(CourseFault::Memory);
        };
        self.wait(&mut pending, boot, 1, number, body)?;
        let mut proposer = self.proposer(ballot.round);
        let applied = floor.get();
        let bid = Bid {
            applied,
            first: applied + 1,
            floor,
            cast,
            pending: pending.as_slice(),
        };
        lead(
            self.alloc,
            events,
            &mut proposer,
            self.own,
            self.helpers,
            &bid,
        )?;
        self.pass(events, proposer.proposed_after(applied))
    }

    // Has the node, which began its next boot, rest on a helper's snapshot whose floor is above its own, if there is one. Returns its floor then.
    fn fetch_again(&self, events: &mut Vec<Event<B>>, level: &Level<'_, B>) -> Result<Floor, Memory>
        ensures events { OnOk result (events.new.items ≡ events.old.items ++ fetch_again (crew_by self.now level.now)) }
        ensures floor { IfOk result (λ floor. floor ≡ floor_again (crew_by self.now level.now)) }
    {
        let floor = floor_at(level.snapshot);
        let Some(source) = highest(floor.get(), self.helpers) else {
            return Ok(floor);
        };
        fetch(events, self.own.me(), floor.get() + 1, &source)?;
        Ok(source.floor())
    }

    // Returns a proposer of the node that saw this round.
    fn proposer(&self, seen: u64) -> Proposer<B>
        ensures { result.state ≡ saw seen (begun self.now.own.number self.now.members) }
    {
        let mut proposer = Proposer::new(self.alloc, self.own.me(), self.members);
        proposer.saw(seen);
        proposer
    }

    // Appends that the node takes the act.
    fn take(&self, events: &mut Vec<Event<B>>, number: u32, body: &B) -> Result<(), Memory>
        ensures { OnOk result (events.new.items ≡ events.old.items ++ take self.now.own.number (act number body.now) ∷ []) }
    {
        let body = body.copy(self.alloc)?;
        happen(
            events,
            Event::Take {
                node: self.own.me(),
                transport: number,
                body,
            },
        )
    }

    // Appends the act's Item, with this number in this boot.
    fn wait(
        &self,
        pending: &mut Entries<B>,
        boot: u64,
        seq: u64,
        number: u32,
        body: &B,
    ) -> Result<(), Memory>
        ensures { OnOk result (pending.new ≡ pending.old ++ Item self.now.own.number boot seq number body.now ∷ []) }
    {
        let body = body.copy(self.alloc)?;
        let item = Entry::Item {
            node: self.own.me(),
            boot,
            seq,
            transport: number,
            body,
        };
        let Ok(()) = pending.push(item) else {
            return Err(Memory);
        };
        Ok(())
    }
}

// Returns the floor of the snapshot.
fn floor_at(snapshot: Option<&Snapshot>) -> Floor
    ensures { result ≡ floor_in (option_copied snapshot.entry) }
{
    let Some(snapshot) = snapshot else {
        return Floor::none();
    };
    Floor::at(snapshot.floor())
}
