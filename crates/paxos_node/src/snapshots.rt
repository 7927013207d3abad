//! How a node rests on a snapshot: one of its own log, or one that came in a packet.

ghost use Rattle.std.specs.Prelude.{◌≡◌, ◌≤◌, ◌-◌, suc, true, false, Some, None, [], ◌∷◌, IfOk, IsOkUnless, option_copied, filter, vec_len, vec_capacity, if◌then◌else◌};
ghost use Rattle.paxos_packets.specs.Snapshot.{snapshot_of};
ghost use Rattle.paxos_planning.specs.Drafting.{seeing};
ghost use Rattle.paxos_proposer.specs.declared.moves.Move.TheVariants.{Raised};
ghost use Rattle.paxos_learner.specs.Learner.{forgot, run_from, KeepsRoom};
ghost use Rattle.replica_machine.specs.Roll.{HasStandings, is_wanted_by};
ghost use Rattle.paxos_planning.specs.Node.{log_length};
ghost use Rattle.paxos_planning.specs.Plan.{begun};
ghost use Rattle.paxos_node.specs.declared.event.Event.TheVariants.{Cut};
ghost use Rattle.paxos_node.specs.declared.fault.NodeFault.TheVariants.{Memory as NoMemory};
ghost use Rattle.paxos_node.specs.Adopting.{Fits, Planned, Settled};
ghost use Rattle.paxos_node.specs.Applying.{stands_at, stands_by};
ghost use Rattle.paxos_node.specs.Plans.{Answered, plans, unchanged};
ghost use Rattle.paxos_node.specs.Snapshots.{boot_in, has_boot, is_damaged, is_head_of, is_new, may_cut, on_cut, on_snapshot, rest_on, new_snapshot};

use crate::event::Event;
use crate::fault::NodeFault;
use crate::node::Node;
use crate::outcome::Outcome;
use crate::settling::{first_of, log_behind, until_lost};
use paxos_learner::{Learner, News};
use paxos_packets::{Body, Entries, Entry, Floor, Kind, Memory, Slot, Snapshot};
use paxos_proposer::Move;
use replica_machine::{Head, Roll, Standing};
use std::alloc::Global;

impl<B: Body> Node<B> {
    /// Returns what it makes of the node to rest on these octets, which are a snapshot of its log; nothing if they are none, or if nothing
    /// is applied above the floor. Copies the octets once, and looks at their head alone.
    pub fn plan_cut(&self, octets: &[u8]) -> Result<Outcome<B>, NodeFault>
        ensures planned { plans self.now.me (Cut self.now.me (snapshot_of octets.now)) self.now.state ≡ true → IfOk result
            (λ outcome. Planned B.same self.now.members (Cut self.now.me (snapshot_of octets.now)) self.now.state outcome) }
        ensures nothing { plans self.now.me (Cut self.now.me (snapshot_of octets.now)) self.now.state ≡ false → IfOk result
            (λ outcome. outcome ≡ unchanged (log_length self.now.state)) }
        ensures fits { IfOk result (λ outcome. Fits self.now.me self.now.members outcome self.now.state) }
        ensures memory { IsOkUnless result NoMemory }
    {
        let mut copy = Vec::new(self.alloc());
        let Ok(()) = copy.extend_from_slice(octets) else {
            return Err(NodeFault::Memory);
        };
        let Ok(snapshot) = Snapshot::of(copy) else {
            return Err(NodeFault::Memory);
        };
        self.plan(&Event::Cut {
            node: self.me(),
            snapshot,
        })
    }

    // Returns whether it cuts: it has applied entries above its floor, and this is a snapshot of its log.
    pub(crate) fn may_cut(&self, snapshot: Option<&Snapshot>) -> bool
        ensures { result ≡ may_cut (option_copied snapshot.entry) self.now.state }
    {
        let Some(snapshot) = snapshot else {
            return false;
        };
        self.has_applied()
            && snapshot.floor().get() == self.applied()
            && self.is_head(Head::read(snapshot.octets()))
    }

    // Returns whether the head is that of its log.
    fn is_head(&self, head: Option<Head>) -> bool
        ensures { result ≡ is_head_of self.now.state head }
    {
        let Some(head) = head else {
            return false;
        };
        head.floor == self.applied() && head.standings == self.roll().seven()
    }

    // Returns whether the snapshot gives more than its log, and its octets begin with no head.
    pub(crate) fn is_damaged(&self, snapshot: &Snapshot) -> bool
        ensures { result ≡ is_damaged snapshot.now self.now.state }
    {
        if snapshot.floor().get() <= self.applied() {
            return false;
        }
        Head::read(snapshot.octets()).is_none()
    }

    // Returns whether the head has its boot, or a later one.
    fn has_boot(&self, head: &Head) -> bool
        ensures { result ≡ has_boot self.now.me self.now.state head.now }
    {
        self.boot() <= boot_in(stands_by(head, self.me()))
    }

    // Plans a cut.
    pub(crate) fn plan_own_cut(&self, snapshot: &Option<Snapshot>) -> Result<Outcome<B>, NodeFault>
        requires up { self.now.state.up ≡ true }
        requires cuts { may_cut snapshot.now self.now.state ≡ true }
        ensures answered { Answered self.now.me self.now.members self.now.state false false (on_cut snapshot.now (begun self.now.state)) result }
        ensures added { IfOk result (λ outcome. outcome.moves.added ≡ None) }
    {
        match snapshot {
            Some(snapshot) => self.plan_rest(snapshot, false),
            None => unreachable!(),
        }
    }

    // Returns the snapshot of a packet, if it is new.
    pub(crate) fn new_snapshot<'a>(&self, kind: &'a Kind<B>) -> Option<&'a Snapshot>
        ensures { option_copied result ≡ new_snapshot self.now.me kind.now self.now.state }
    {
        match kind {
            Kind::Snapshot { snapshot } if self.is_new(snapshot) => Some(snapshot),
            _ => None,
        }
    }

    // Returns whether another's snapshot is new: it gives more than its log, and does not have its present boot.
    fn is_new(&self, snapshot: &Snapshot) -> bool
        ensures { result ≡ is_new self.now.me snapshot.now self.now.state }
    {
        if snapshot.floor().get() <= self.applied() {
            return false;
        }
        match Head::read(snapshot.octets()) {
            Some(head) => !self.has_boot(&head),
            None => true,
        }
    }

    // Plans what another's new snapshot does: it is taken, unless its octets begin with no head.
    pub(crate) fn plan_snapshot(&self, snapshot: &Snapshot) -> Result<Outcome<B>, NodeFault>
        requires up { self.now.state.up ≡ true }
        requires new { is_new self.now.me snapshot.now self.now.state ≡ true }
        ensures answered { Answered self.now.me self.now.members self.now.state false false
            (on_snapshot self.now.me snapshot.now (seeing 0 (begun self.now.state))) result }
        ensures added { IfOk result (λ outcome. outcome.moves.added ≡ None) }
    {
        if self.is_damaged(snapshot) {
            return Err(NodeFault::Disagree);
        }
        self.plan_rest(snapshot, true)
    }

    // Plans that it rests on the snapshot, which came in a packet or not.
    fn plan_rest(&self, snapshot: &Snapshot, over: bool) -> Result<Outcome<B>, NodeFault>
        requires up { self.now.state.up ≡ true }
        requires more { log_length self.now.state ≤ snapshot.now.floor }
        ensures planned { IfOk result
            (λ outcome. Settled self.now.me self.now.members self.now.state (rest_on over snapshot.now (begun self.now.state)) outcome) }
        ensures added { IfOk result (λ outcome. outcome.moves.added ≡ None) }
        ensures memory { IsOkUnless result NoMemory }
    {
        let Ok(held) = snapshot.share() else {
            return Err(NodeFault::Memory);
        };
        let Ok(moves) = raised(self.alloc(), snapshot.floor()) else {
            return Err(NodeFault::Memory);
        };
        let Ok(run) = self.run_after(Floor::at(snapshot.floor())) else {
            return Err(NodeFault::Memory);
        };
        let news = Vec::new(self.alloc());
        Ok(self.rested(held, over, moves, news, run))
    }

    // Returns what it makes of the node to rest on the snapshot, given what is to be applied then.
    fn rested(
        &self,
        snapshot: Snapshot,
        over: bool,
        moves: Vec<Move<B>>,
        news: Vec<News<B>>,
        run: Entries<B>,
    ) -> Outcome<B>
        requires up { self.now.state.up ≡ true }
        requires more { log_length self.now.state ≤ snapshot.floor }
        requires moves { moves.items ≡ Raised snapshot.floor ∷ [] }
        requires news { news.items ≡ [] }
        requires run { run ≡ run_from (suc snapshot.floor) self.now.state.learner.learned }
        ensures settled { Settled self.now.me self.now.members self.now.state (rest_on over snapshot (begun self.now.state)) result }
        ensures added { result.moves.added ≡ None }
    {
        self.begins();
        self.learner().ascends();
        let floor = snapshot.floor().get();
        let standing = standing_at(&snapshot, self.me());
        let (count, is_down) = until_lost(standing, self.me(), self.boot(), run.as_slice());
        let applied = first_of(run, count);
        let log = log_behind(floor, applied.as_slice(), is_down);
        Outcome::resting(
            self.alloc(),
            snapshot,
            over,
            moves,
            news,
            applied,
            is_down,
            log,
        )
    }
}

// Returns the move of a leader to above this floor.
fn raised<B: Drop>(alloc: Global, floor: Slot) -> Result<Vec<Move<B>>, Memory>
    ensures { IfOk result (λ moves. moves.items ≡ Raised floor ∷ []) }
{
    let mut moves = Vec::new(alloc);
    let Ok(()) = moves.push(Move::Raised {
        floor: Floor::at(floor),
    }) else {
        return Err(Memory);
    };
    Ok(moves)
}

// Lets a learner, a roll and what is pending rest on the snapshot: what its log settles is no longer pending if it came in a packet.
pub(crate) fn rest<B: Drop>(
    learner: &mut Learner<B>,
    roll: &mut Roll,
    pending: &mut Vec<Entry<B>>,
    snapshot: &Snapshot,
    over: bool,
)
    requires { learner.old.state.learner.floor ≤ snapshot.now.floor }
    ensures learner { learner.new.state ≡ forgot snapshot.now.floor learner.old.state }
    ensures votes { learner.old.room.votes ≤ learner.new.room.votes }
    ensures places { KeepsRoom learner.old learner.new }
    ensures roll { HasStandings (stands_at (Some snapshot.now)) roll.new }
    ensures pending { pending.new.items ≡ (if over then filter (is_wanted_by (stands_at (Some snapshot.now))) pending.old.items else pending.old.items) }
    ensures room { vec_capacity pending.old - vec_len pending.old ≤ vec_capacity pending.new - vec_len pending.new }
{
    learner.forget(Floor::at(snapshot.floor()));
    *roll = roll_at(Some(snapshot));
    if !over {
        return;
    }
    pending.retain(|entry| roll.wants(entry));
}

/// Returns where each node stands at the snapshot, by its head. Without a snapshot, or if its octets begin with no head, none is
/// known. Reads the head alone and does not allocate.
pub fn roll_at(snapshot: Option<&Snapshot>) -> Roll
    ensures { HasStandings (stands_at (option_copied snapshot.entry)) result }
{
    let Some(snapshot) = snapshot else {
        return Roll::new();
    };
    let Some(head) = Head::read(snapshot.octets()) else {
        return Roll::new();
    };
    Roll::of(head.standings)
}

// Returns where the node stands at the snapshot.
fn standing_at(snapshot: &Snapshot, node: u8) -> Standing
    ensures { result ≡ stands_at (Some snapshot.now) node }
{
    roll_at(Some(snapshot)).standing(node)
}

// Returns where the node stands by the head.
fn stands_by(head: &Head, node: u8) -> Standing
    ensures { result ≡ stands_by (Some head.now) node }
{
    Roll::of(head.standings).standing(node)
}

/// Returns the greatest boot of a node with this standing, or 0 for none. Does not allocate.
pub fn boot_in(standing: Standing) -> u64
    ensures { result ≡ boot_in standing }
{
    match standing {
        Standing::Unknown => 0,
        Standing::Live { boot, .. } => boot,
        Standing::Gone { boot } => boot,
    }
}
