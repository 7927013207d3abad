//! What an event makes of a node.

ghost use Rattle.std.specs.Prelude.{◌≡◌, ◌<◌, true, false, not, ◌&&◌, is_some, Some, None, Ok, Err, IfOk, if◌then◌else◌};
ghost use Rattle.paxos_node.specs.declared.fault.NodeFault.TheVariants.{Disagree as Other, Memory as NoMemory};
ghost use Rattle.paxos_node.specs.Adopting.{Fits, Settled, Planned};
ghost use Rattle.paxos_node.specs.Applying.{standing_of, settle};
ghost use Rattle.paxos_planning.specs.Node.{log_length};
ghost use Rattle.paxos_planning.specs.Drafting.{with_pending_entry, seeing, listed};
ghost use Rattle.paxos_node.specs.Outcome.{with_added, added_in};
ghost use Rattle.paxos_node.specs.Events.{owner, possible, on_event, on_take, on_suspect, deliver, outcome_of, has_room, takes, new_lost, is_pending};
ghost use Rattle.paxos_planning.specs.Ticking.{on_tick};
ghost use Rattle.paxos_planning.specs.Starting.{on_start, starts};
ghost use Rattle.paxos_node.specs.Events.{is_round_refused, is_full_refused, made_by, taken_by, suspected_by};
ghost use Rattle.paxos_node.specs.Plans.{is_planned, plans, unchanged, finds_other, delivers_other, takes_other, suspects_other, is_memory};
ghost use Rattle.paxos_node.specs.Plans.{Answers, Answered};
ghost use Rattle.paxos_planning.specs.Proposals.{push};
ghost use Rattle.paxos_planning.specs.Replies.{round_in};
ghost use Rattle.paxos_planning.specs.Plan.{begun};
ghost use Rattle.replica_machine.specs.Roll.{live_in};

use crate::event::Event;
use crate::fault::NodeFault;
use crate::node::Node;
use crate::outcome::Outcome;
use paxos_packets::{Body, Entry, Kind, Packet};
use paxos_planning::Wanted;

// The greatest number of an act, and how many entries may be pending.
const LAST_NUMBER: u64 = (1 << 48) - 1;

const MOST_PENDING: usize = 1024;

impl<B: Body> Node<B> {
    /// Returns what the event makes of the node, which itself stays as it is: `Rounds` or `Full` if it changes nothing because no round or
    /// no room is left, `Disagree` if another entry was learned in a slot. An event that is not possible at this node, a crash and a
    /// restart change nothing. Looks at no entry of the log, and copies what it sends, commits, proposes and applies. Returns `Memory` in
    /// the place of none of these: if memory runs out it looks once more, by reference, whether the event disagrees. That takes as many
    /// steps as what it would propose squared.
    pub fn plan(&self, event: &Event<B>) -> Result<Outcome<B>, NodeFault>
        ensures planned { plans self.now.me event.now self.now.state ≡ true →
            Answers (is_round_refused event.now self.now.state) (is_full_refused B.same event.now self.now.state)
            (outcome_of B.same self.now.members event.now self.now.state).disagrees
            (λ outcome. Planned B.same self.now.members event.now self.now.state outcome) result }
        ensures nothing { plans self.now.me event.now self.now.state ≡ false → result ≡ Ok (unchanged (log_length self.now.state)) }
        ensures fits { IfOk result (λ outcome. Fits self.now.me self.now.members outcome self.now.state) }
        ensures made { plans self.now.me event.now self.now.state ≡ true →
            IfOk result (λ outcome. listed outcome.moves.added ≡ made_by B.same event.now self.now.state) }
        ensures memory { plans self.now.me event.now self.now.state ≡ true →
            result ≡ Err NoMemory → (outcome_of B.same self.now.members event.now self.now.state).disagrees ≡ false }
    {
        if !self.plans(event) {
            return Ok(self.nothing());
        }
        let planned = self.plan_own(event);
        let other = self.finds_other(&planned, event);
        unless_other(planned, other)
    }

    // Returns whether memory for the plan ran out, and the event disagrees with what was learned.
    fn finds_other(&self, planned: &Result<Outcome<B>, NodeFault>, event: &Event<B>) -> bool
        requires { self.now.state.up ≡ true }
        ensures { result ≡ is_memory planned.now && finds_other B.same self.now.members self.now.me event.now self.now.state }
    {
        ran_out(planned) && self.is_other(event)
    }

    // Returns whether the event disagrees with what was learned. Does not allocate.
    fn is_other(&self, event: &Event<B>) -> bool
        requires { self.now.state.up ≡ true }
        ensures { result ≡ finds_other B.same self.now.members self.now.me event.now self.now.state }
    {
        match event {
            Event::Deliver { packet } => self.delivers_other(packet.sender, &packet.kind),
            Event::Take {
                transport,
                body,
                ..
            } => self.takes_other(*transport, body),
            Event::Tick { .. } => self.parts().proposes_other(self.pending()),
            Event::Suspect { other, .. } => self.suspects_other(*other),
            Event::Start { .. } | Event::Cut { .. } | Event::Crash { .. } | Event::Restart { .. } =>
                false,
        }
    }

    // Returns whether the packet brings another entry, or a snapshot that is none.
    fn delivers_other(&self, sender: u8, kind: &Kind<B>) -> bool
        requires { self.now.state.up ≡ true }
        ensures { result ≡ delivers_other B.same self.now.members self.now.me sender kind.now self.now.state }
    {
        match kind {
            Kind::Snapshot { snapshot } => self.is_damaged(snapshot),
            _ => self.parts().brings_other(sender, kind),
        }
    }

    // Returns whether a vote disagrees that is cast if the act becomes pending.
    fn takes_other(&self, transport: u32, body: &B) -> bool
        requires { self.now.state.up ≡ true }
        ensures { result ≡ takes_other B.same self.now.members self.now.me transport body.now self.now.state }
    {
        if !self.takes() {
            return false;
        }
        let item = Wanted::Item {
            node: self.me(),
            boot: self.boot(),
            seq: self.taken() + 1,
            transport,
            body,
        };
        self.parts().proposes_other_then(self.pending(), &item)
    }

    // Returns whether a vote disagrees that is cast if the other's Lost becomes pending.
    fn suspects_other(&self, other: u8) -> bool
        requires { self.now.state.up ≡ true }
        ensures { result ≡ suspects_other B.same self.now.members self.now.me
            (new_lost B.same self.now.me other self.now.state) self.now.state }
    {
        let Some(lost) = self.new_lost(other) else {
            return false;
        };
        if !self.has_room() {
            return false;
        }
        self.parts()
            .proposes_other_then(self.pending(), &Wanted::Held(&lost))
    }

    // Plans an event of this node that is possible.
    fn plan_own(&self, event: &Event<B>) -> Result<Outcome<B>, NodeFault>
        requires up { self.now.state.up ≡ true }
        requires own { owner event.now ≡ self.now.me }
        requires planned { is_planned event.now ≡ true }
        requires possible { possible event.now self.now.state ≡ true }
        ensures answered { Answered self.now.me self.now.members self.now.state (is_round_refused event.now self.now.state)
            (is_full_refused B.same event.now self.now.state) (on_event B.same self.now.members event.now (begun self.now.state)) result }
        ensures made { IfOk result (λ outcome. listed outcome.moves.added ≡ made_by B.same event.now self.now.state) }
    {
        match event {
            Event::Take {
                transport,
                body,
                ..
            } => self.plan_take(*transport, body),
            Event::Tick { .. } => self.plan_tick(),
            Event::Start { .. } => self.plan_start(),
            Event::Suspect { other, .. } => self.plan_suspect(*other),
            Event::Deliver { packet } => self.plan_packet(packet),
            Event::Cut { snapshot, .. } => self.plan_own_cut(snapshot),
            Event::Crash { .. } => unreachable!(),
            Event::Restart { .. } => unreachable!(),
        }
    }

    // Returns whether it plans the event: it is the node's, and possible.
    fn plans(&self, event: &Event<B>) -> bool
        ensures { result ≡ plans self.now.me event.now self.now.state }
    {
        event.node() == self.me() && self.is_possible(event)
    }

    // Returns whether the event is possible at a node that is up.
    fn is_possible(&self, event: &Event<B>) -> bool
        ensures { result ≡ is_planned event.now && possible event.now self.now.state }
    {
        match event {
            Event::Take { transport, .. } => self.is_up() && 0 < *transport,
            Event::Tick { .. } => self.is_up(),
            Event::Start { .. } => self.is_up(),
            Event::Suspect { .. } => self.is_up(),
            Event::Deliver { .. } => self.is_up(),
            Event::Cut { snapshot, .. } => self.is_up() && self.may_cut(snapshot.as_ref()),
            Event::Crash { .. } => false,
            Event::Restart { .. } => false,
        }
    }

    // Returns the outcome that changes nothing.
    fn nothing(&self) -> Outcome<B>
        ensures value { result ≡ unchanged (log_length self.now.state) }
        ensures fits { Fits self.now.me self.now.members result self.now.state }
    {
        self.begins();
        Outcome::nothing(self.alloc(), self.applied())
    }

    // Returns whether one more entry may be pending.
    fn has_room(&self) -> bool
        ensures { result ≡ has_room self.now.state }
    {
        self.pending().len() < MOST_PENDING
    }

    // Plans that the act becomes pending as the node's next Item.
    fn plan_take(&self, transport: u32, body: &B) -> Result<Outcome<B>, NodeFault>
        requires { self.now.state.up ≡ true }
        ensures answered { Answered self.now.me self.now.members self.now.state false (not (takes self.now.state))
            (on_take B.same self.now.members self.now.me transport body.now (begun self.now.state)) result }
        ensures made { IfOk result (λ outcome. listed outcome.moves.added ≡ taken_by self.now.me transport body.now self.now.state) }
    {
        if !self.takes() {
            return Err(NodeFault::Full);
        }
        let Ok(copy) = body.copy(self.alloc()) else {
            return Err(NodeFault::Memory);
        };
        self.plan_with(Entry::Item {
            node: self.me(),
            boot: self.boot(),
            seq: self.taken() + 1,
            transport,
            body: copy,
        })
    }

    // Returns whether it takes one more act.
    #[tactic(auto, unfolding(crate::specs::Events::last_number))]
    fn takes(&self) -> bool
        ensures { result ≡ takes self.now.state }
    {
        self.has_room() && self.taken() < LAST_NUMBER
    }

    // Plans that the entry becomes pending, and is pushed with what is pending.
    fn plan_with(&self, entry: Entry<B>) -> Result<Outcome<B>, NodeFault>
        requires { self.now.state.up ≡ true }
        ensures answered { Answered self.now.me self.now.members self.now.state false false
            (push B.same self.now.members self.now.me (begun (with_pending_entry (Some entry) self.now.state))) result }
        ensures added { IfOk result (λ outcome. outcome.moves.added ≡ Some entry) }
    {
        let planned = self.plan_pending(&entry);
        added_to(planned, entry)
    }

    // Plans this but for the entry itself, which the outcome lacks.
    fn plan_pending(&self, entry: &Entry<B>) -> Result<Outcome<B>, NodeFault>
        requires { self.now.state.up ≡ true }
        ensures { Answers false false
            (settle self.now.me (push B.same self.now.members self.now.me (begun (with_pending_entry (Some entry.now) self.now.state)))).disagrees
            (λ outcome. Settled self.now.me self.now.members self.now.state
            (push B.same self.now.members self.now.me (begun (with_pending_entry (Some entry.now) self.now.state)))
            (with_added (Some entry.now) outcome)) result }
    {
        let mut draft = self.draft(Some(entry));
        let front = draft.front(self.front());
        let done = draft.push(front);
        self.settle(draft, done, front)
    }

    // Plans a tick: sends again what waits for an answer, pushes what is pending, and asks the others for what it lacks.
    fn plan_tick(&self) -> Result<Outcome<B>, NodeFault>
        requires { self.now.state.up ≡ true }
        ensures answered { Answered self.now.me self.now.members self.now.state false false
            (on_tick B.same self.now.members self.now.me (begun self.now.state)) result }
        ensures added { IfOk result (λ outcome. outcome.moves.added ≡ None) }
    {
        let mut draft = self.draft(None);
        let done = draft.on_tick();
        self.finish(draft, done)
    }

    // Plans a ballot above all that it saw.
    fn plan_start(&self) -> Result<Outcome<B>, NodeFault>
        requires { self.now.state.up ≡ true }
        ensures answered { Answered self.now.me self.now.members self.now.state (not (starts self.now.me self.now.state)) false
            (on_start self.now.members self.now.me (begun self.now.state)) result }
        ensures added { IfOk result (λ outcome. outcome.moves.added ≡ None) }
    {
        let mut draft = self.draft(None);
        if !draft.starts() {
            drop(draft);
            return Err(NodeFault::Rounds);
        }
        let done = draft.start();
        self.finish(draft, done)
    }

    // Plans that the Lost of the other's live boot becomes pending, unless it is.
    fn plan_suspect(&self, other: u8) -> Result<Outcome<B>, NodeFault>
        requires { self.now.state.up ≡ true }
        ensures answered { Answered self.now.me self.now.members self.now.state false
            (is_some (new_lost B.same self.now.me other self.now.state) && not (has_room self.now.state))
            (on_suspect B.same self.now.members self.now.me other (begun self.now.state)) result }
        ensures made { IfOk result (λ outcome. listed outcome.moves.added
            ≡ suspected_by (new_lost B.same self.now.me other self.now.state) self.now.state) }
    {
        let Some(lost) = self.new_lost(other) else {
            return self.finish(self.draft(None), Ok(()));
        };
        if !self.has_room() {
            return Err(NodeFault::Full);
        }
        self.plan_with(lost)
    }

    // Returns the Lost of the other's live boot, unless it is pending.
    fn new_lost(&self, other: u8) -> Option<Entry<B>>
        ensures { result ≡ new_lost B.same self.now.me other self.now.state }
    {
        if other == self.me() {
            return None;
        }
        let Some(boot) = self.live_boot(other) else {
            return None;
        };
        let lost = Entry::Lost { node: other, boot };
        if is_pending(self.pending(), &lost) {
            return None;
        }
        Some(lost)
    }

    // Returns the other's live boot.
    fn live_boot(&self, other: u8) -> Option<u64>
        ensures { result ≡ live_in (standing_of self.now.state other) }
    {
        self.roll().live(other)
    }

    // Plans what the packet does.
    fn plan_packet(&self, packet: &Packet<B>) -> Result<Outcome<B>, NodeFault>
        requires { self.now.state.up ≡ true }
        ensures answered { Answered self.now.me self.now.members self.now.state false false
            (deliver B.same self.now.members self.now.me packet.now.sender packet.now.kind
            (seeing (round_in packet.now.kind) (begun self.now.state))) result }
        ensures added { IfOk result (λ outcome. outcome.moves.added ≡ None) }
    {
        if let Some(snapshot) = self.new_snapshot(&packet.kind) {
            return self.plan_snapshot(snapshot);
        }
        let mut draft = self.draft(None);
        let done = draft.on_packet(packet.sender, &packet.kind);
        self.finish(draft, done)
    }
}

// Returns whether memory for the plan ran out.
fn ran_out<T>(planned: &Result<T, NodeFault>) -> bool
    ensures { result ≡ is_memory planned.now }
{
    match planned {
        Err(NodeFault::Memory) => true,
        Ok(_) | Err(NodeFault::Rounds | NodeFault::Full | NodeFault::Disagree) => false,
    }
}

// Returns what was planned, or `Disagree` if another entry was learned.
fn unless_other<T: Drop>(planned: Result<T, NodeFault>, other: bool) -> Result<T, NodeFault>
    ensures { result ≡ (if other then Err Other else planned) }
{
    if other {
        drop(planned);
        return Err(NodeFault::Disagree);
    }
    planned
}

// Returns the outcome by which the entry becomes pending.
fn added_to<B: Drop>(
    planned: Result<Outcome<B>, NodeFault>,
    entry: Entry<B>,
) -> Result<Outcome<B>, NodeFault>
    ensures value { result ≡ added_in entry planned }
    ensures added { IfOk result (λ outcome. outcome.moves.added ≡ Some entry) }
{
    let mut outcome = planned?;
    outcome.moves.added = Some(entry);
    Ok(outcome)
}

// Returns whether an equal entry is pending.
fn is_pending<B: Body>(pending: &[Entry<B>], wanted: &Entry<B>) -> bool
    ensures { result ≡ is_pending B.same pending.now wanted.now }
{
    for entry in pending {
        if entry.same(wanted) {
            return true;
        }
    }
    false
}
