//! The node: how it begins with its rows, and what it shows.

ghost use Rattle.std.specs.Prelude.{◌≡◌, ◌↔◌, ◌<◌, ◌+◌, ◌^◌, suc, vec_len, vec_capacity, true, false, nat_lt, length, Some, IsOk, IfOk, IfErr, IsOkUnless, Err, None, OnErr, OnOk, option_copied, if◌then◌else◌};
ghost use Rattle.paxos_node.specs.declared.fault.NodeFault.TheVariants.{Memory, Rounds};
ghost use Rattle.paxos_packets.specs.Snapshot.{floor_in};
ghost use Rattle.paxos_packets.specs.Vote.{votes_from};
ghost use Rattle.paxos_acceptor.specs.Acceptor as accepting;
ghost use Rattle.paxos_acceptor.specs.Ahead.{none_noted, IsAhead};
ghost use Rattle.paxos_packets.specs.declared.rows.Rows as held_rows;
ghost use Rattle.paxos_node.specs.Adopting.{adopted};
ghost use Rattle.paxos_planning.specs.Node.{log_length};
ghost use Rattle.paxos_planning.specs.Parts.{learner_of};
ghost use Rattle.paxos_node.specs.Applying.{standing_of, started};
ghost use Rattle.paxos_learner.specs.Learned.{Begins};
ghost use Rattle.paxos_learner.specs.Learner.{run_from};
ghost use Rattle.paxos_proposer.specs.Proposer.{round_of, is_leading, own_ballot, is_spent};
ghost use Rattle.paxos_planning.specs.Drafting.{known, with_pending_entry};
ghost use Rattle.paxos_planning.specs.Front.{IsFront};
ghost use Rattle.paxos_planning.specs.Plan.{begun};
ghost use Rattle.replica_machine.specs.Roll.{HasStandings};

use crate::fault::NodeFault;
use crate::snapshots::roll_at;
use paxos_acceptor::{Acceptor, Ahead};
use paxos_learner::{Hearing, Learner};
use paxos_packets::{
    Ballot, Body, Change, Entries, Entry, Floor, Members, Rows, Snapshot, Vote, Votes,
};
use paxos_planning::{Draft, Parts};
use paxos_proposer::Proposer;
use replica_machine::Roll;
use std::alloc::Global;
use std::marker::Model;

/// One node of the cluster: acceptor, proposer and learner, with the log that it applies and the entries that wait for a slot.
pub struct Node<B> {
    pub(crate) alloc: Global,
    pub(crate) me: u8,
    pub(crate) members: Members,
    pub(crate) acceptor: Acceptor<B>,
    pub(crate) is_up: bool,
    pub(crate) proposer: Proposer<B>,
    pub(crate) learner: Learner<B>,
    // How many of the first entries that the learner learned above its floor are applied, and the standing of each node after them.
    pub(crate) applied: usize,
    pub(crate) roll: Roll,
    pub(crate) pending: Vec<Entry<B>>,
    // How many of the first pending entries are known to stand: an equal entry is among what this node proposed as a leader.
    pub(crate) front: usize,
    pub(crate) taken: u64,
    // Whether `adopt` has failed with `Memory`.
    pub(crate) failed: bool,
}

impl<B: Drop> Drop for Node<B> {
    fn drop(self) {
        let Node {
            alloc: _,
            me: _,
            members: _,
            acceptor: _acceptor,
            is_up: _,
            proposer: _proposer,
            learner: _learner,
            applied: _,
            roll: _roll,
            pending: _pending,
            front: _,
            taken: _,
            failed: _,
        } = self;
    }
}

impl<B> Model for Node<B> {
    ghost use Rattle.std.specs.Prelude.{◌≡◌, ◌+◌, ◌-◌, ◌<◌, ◌^◌, false, length, vec_len, vec_capacity};
    ghost use Rattle.paxos_packets.specs.Snapshot.{floor_in};
    ghost use Rattle.paxos_learner.specs.Learned.{Begins};
    ghost use Rattle.replica_machine.specs.Roll.{HasStandings, standings_from};
    ghost use Rattle.paxos_node.specs.Applying.{base};
    ghost use Rattle.paxos_planning.specs.Parts.{first_learned};
    ghost use Rattle.paxos_planning.specs.Front.{IsFront};
    ghost use Rattle.paxos_node.specs.Held.{Held};

    ghost Value = { Held B };

    ghost view = { λ n. record {
      me = n.me;
      members = n.members;
      state = record {
        rows = n.acceptor.rows;
        up = n.is_up;
        proposer = n.proposer.state.proposer;
        learner = n.learner.state.learner;
        applied = first_learned n.applied n.learner.state.learner.learned;
        pending = n.pending.items;
        taken = n.taken;
      };
      room = record {
        votes = n.acceptor.room;
        proposer = n.proposer.room;
        learner = n.learner.room;
        pending = vec_capacity n.pending - vec_len n.pending;
      };
      failed = n.failed;
    } };

    ghost invariant = { λ n. (n.proposer.state.me ≡ n.me) × (n.proposer.state.members ≡ n.members) × (n.learner.state.members ≡ n.members)
        × (n.learner.state.learner.floor ≡ floor_in n.acceptor.rows.snapshot)
        × (length (first_learned n.applied n.learner.state.learner.learned) ≡ n.applied)
        × HasStandings (standings_from (base n.acceptor.rows) (first_learned n.applied n.learner.state.learner.learned)) n.roll
        × Begins (floor_in n.acceptor.rows.snapshot) (first_learned n.applied n.learner.state.learner.learned) n.learner.state.learner.learned
        × (floor_in n.acceptor.rows.snapshot + n.applied < 2 ^ 40)
        × IsFront n.front (floor_in n.acceptor.rows.snapshot + n.applied) n.proposer.state.proposer.role n.pending.items
        × (n.acceptor.failed ≡ false) };
}

impl<B> Node<B> {
    /// Returns its number.
    pub fn me(&self) -> u8
        ensures { result ≡ self.now.me }
    {
        self.me
    }

    // Returns where its memory comes from.
    pub(crate) fn alloc(&self) -> Global {
        self.alloc
    }

    /// Returns the standing of each node after its log.
    pub fn roll(&self) -> &Roll
        ensures { HasStandings (standing_of self.now.state) result.now }
    {
        &self.roll
    }

    // What it learned above its floor begins with its log there.
    pub(crate) fn begins(&self)
        ensures floor { self.now.state.learner.floor ≡ floor_in self.now.state.rows.snapshot }
        ensures begins { Begins (floor_in self.now.state.rows.snapshot) self.now.state.applied self.now.state.learner.learned }
    {
        let _ = &self.learner;
    }

    /// Returns how many acts it took in its boot.
    pub fn taken(&self) -> u64
        ensures { result ≡ self.now.state.taken }
    {
        self.taken
    }

    /// Returns the entries that wait for a slot.
    pub fn pending(&self) -> &[Entry<B>]
        ensures { result.now ≡ self.now.state.pending }
    {
        self.pending.as_slice()
    }

    // Returns how many of the first pending entries are known to stand.
    pub(crate) fn front(&self) -> usize
        ensures { IsFront result (log_length self.now.state) self.now.state.proposer.role self.now.state.pending }
    {
        self.front
    }

    // Returns its parts, given that it is up.
    pub(crate) fn parts(&self) -> Parts<'_, B>
        requires { self.now.state.up ≡ true }
        ensures me { result.me ≡ self.now.me }
        ensures members { result.members ≡ self.now.members }
        ensures state { result.state ≡ self.now.state }
    {
        Parts::of(
            self.me,
            self.members,
            &self.acceptor,
            &self.proposer,
            &self.learner,
            self.applied,
            self.pending.as_slice(),
            self.taken,
        )
    }

    // Begins the plan of an event in which nothing happened yet, and this entry becomes pending.
    pub(crate) fn draft<'a>(&'a self, added: Option<&'a Entry<B>>) -> Draft<'a, B>
        requires { self.now.state.up ≡ true }
        ensures of { result.of ≡ known self.now.me self.now.members self.now.state (option_copied added.entry) }
        ensures plan { result.plan ≡ begun (with_pending_entry (option_copied added.entry) self.now.state) }
    {
        Draft::of(self.alloc, self.parts(), added)
    }

    /// Returns whether the node is up.
    pub fn is_up(&self) -> bool
        ensures { result ≡ self.now.state.up }
    {
        self.is_up
    }

    /// Returns the length of its log: how many entries it has applied, with those that its snapshot stands for.
    pub fn applied(&self) -> u64
        ensures length { result ≡ log_length self.now.state }
        ensures within { result < 2 ^ 40 }
    {
        self.acceptor.floor().get() + self.applied as u64
    }

    // Returns whether it has applied entries above its floor.
    pub(crate) fn has_applied(&self) -> bool
        ensures { result ≡ nat_lt 0 (length self.now.state.applied) }
    {
        0 < self.applied
    }

    // Returns its learner.
    pub(crate) fn learner(&self) -> &Learner<B>
        ensures { result.now.state ≡ learner_of self.now.members self.now.state }
    {
        &self.learner
    }

    /// Returns the snapshot that it rests on, if any.
    pub fn snapshot(&self) -> Option<&Snapshot>
        ensures { option_copied result ≡ self.now.state.rows.snapshot }
    {
        self.acceptor.snapshot()
    }

    /// Returns whether entries of its own wait for a slot.
    pub fn has_pending(&self) -> bool
        ensures { result ≡ nat_lt 0 (length self.now.state.pending) }
    {
        0 < self.pending.len()
    }

    /// Returns whether it leads: whether a majority has promised its ballot under way.
    pub fn is_leading(&self) -> bool
        ensures { result ≡ is_leading self.now.state.proposer.role }
    {
        self.proposer.is_leading()
    }

    /// Returns how often the node was started.
    pub fn boot(&self) -> u64
        ensures { result ≡ self.now.state.rows.boot }
    {
        self.acceptor.boot()
    }

    /// Returns the greatest ballot that the node has promised, if any.
    pub fn promised(&self) -> Option<Ballot>
        ensures { result ≡ self.now.state.rows.promised }
    {
        self.acceptor.promised()
    }

    /// Returns the floor, up to which the node's snapshot gives its log.
    pub fn floor(&self) -> Floor
        ensures { result ≡ floor_in self.now.state.rows.snapshot }
    {
        self.acceptor.floor()
    }

    /// Returns the ballot that a Start would begin, whose round is one above the greatest that it saw, or `Rounds` if no round is left.
    pub fn next_ballot(&self) -> Result<Ballot, NodeFault>
        ensures ok { IfOk result (λ ballot. ballot ≡ own_ballot self.now.me self.now.state.proposer) }
        ensures rounds { (result ≡ Err Rounds) ↔ (is_spent self.now.state.proposer ≡ true) }
        ensures otherwise { is_spent self.now.state.proposer ≡ false → IsOk result }
    {
        match self.proposer.next_ballot() {
            Ok(ballot) => Ok(ballot),
            Err(_) => Err(NodeFault::Rounds),
        }
    }

    /// Returns the votes that the node has cast, by ascending slot.
    pub fn votes(&self) -> &[Vote<B>]
        ensures { result.now ≡ self.now.state.rows.votes }
    {
        self.acceptor.votes()
    }
}

impl<B: Drop> Node<B> {
    /// Returns what the node has committed. Does not allocate.
    pub fn into_rows(self) -> Rows<B>
        ensures { result ≡ self.state.rows }
    {
        let Node {
            alloc: _,
            me: _,
            members: _,
            acceptor,
            is_up: _,
            proposer: _proposer,
            learner: _learner,
            applied: _,
            roll: _roll,
            pending: _pending,
            front: _,
            taken: _,
            failed: _,
        } = self;
        acceptor.into_rows()
    }

    /// Returns the node with this number, of these members, that begins with these rows.
    pub fn of(alloc: Global, me: u8, members: Members, rows: Rows<B>) -> Result<Node<B>, NodeFault>
        ensures me { IfOk result (λ node. node.me ≡ me) }
        ensures members { IfOk result (λ node. node.members ≡ members) }
        ensures state { IfOk result (λ node. node.state ≡ started me rows) }
        ensures failed { IfOk result (λ node. node.failed ≡ false) }
        ensures memory { IsOkUnless result Memory }
    {
        let Ok(node) = Node::begin(alloc, me, members, rows) else {
            return Err(NodeFault::Memory);
        };
        Ok(node)
    }

    /// Returns the node as `of` does; if memory for it runs out, gives the rows back.
    #[tactic(auto, using(paxos_planning::proofs::Standing::no_front))]
    pub fn begin(alloc: Global, me: u8, members: Members, rows: Rows<B>) -> Result<Node<B>, Rows<B>>
        ensures me { IfOk result (λ node. node.me ≡ me) }
        ensures members { IfOk result (λ node. node.members ≡ members) }
        ensures state { IfOk result (λ node. node.state ≡ started me rows) }
        ensures failed { IfOk result (λ node. node.failed ≡ false) }
        ensures rows { IfErr result (λ kept. kept ≡ rows) }
    {
        let boot = rows.boot;
        let mut pending = Vec::new(alloc);
        if pending.reserve(1).is_err() {
            return Err(rows);
        }
        pending.push_reserved(Entry::Boot { node: me, boot });
        let mut proposer = Proposer::new(alloc, me, members);
        proposer.saw(round_of(rows.promised));
        let acceptor = Acceptor::of(alloc, rows);
        let floor = acceptor.floor();
        let _number = floor.get();
        let roll = roll_at(acceptor.snapshot());
        Ok(Node {
            alloc,
            me,
            members,
            acceptor,
            is_up: true,
            proposer,
            learner: Learner::new(alloc, members, floor),
            applied: 0,
            roll,
            pending,
            front: 0,
            taken: 0,
            failed: false,
        })
    }
}

impl<B: Body> Node<B> {
    /// Returns whether the rows have all of the change, so that committing it leaves them as they are. Does not allocate. Looks up each vote's
    /// slot, in a number of steps logarithmic in the number of votes; compares entries only if slot and ballot are the same.
    pub fn has_all(&self, change: &Change<B>) -> bool
        ensures is { result ≡ accepting.has_all B.same self.now.state.rows change.now }
        ensures same { result ≡ true → accepting.adopted self.now.state.rows change.now ≡ self.now.state.rows }
    {
        self.acceptor.has_all(change)
    }

    /// Returns that its rows are not ahead of what is committed. Does not allocate.
    pub fn nothing_ahead(&self) -> Ahead<B>
        ensures noted { result ≡ none_noted self.now.state.rows.promised }
        ensures ahead { IsAhead self.now.state.rows result self.now.state.rows }
    {
        self.acceptor.nothing_ahead()
    }

    /// Notes a change without a snapshot by which the node is to go on before it is committed, as `Acceptor::note` does. On `Memory` nothing is
    /// noted.
    pub fn note(
        &self,
        change: &Change<B>,
        ahead: &mut Ahead<B>,
    ) -> Result<(), paxos_packets::Memory>
        requires { change.now.snapshot ≡ None }
        ensures ok { (kept : held_rows.Rows B) → IsAhead kept ahead.old self.now.state.rows
            → OnOk result (IsAhead kept ahead.new (accepting.adopted self.now.state.rows change.now)) }
        ensures err { OnErr result (ahead.new ≡ ahead.old) }
    {
        match self.acceptor.note(change, ahead) {
            Ok(()) => Ok(()),
            Err(_) => Err(paxos_packets::Memory),
        }
    }

    /// Returns copies of the votes that the node has cast from the slot with this number on, or `Memory`. It copies no other vote, and looks
    /// at only a logarithmic number of others.
    pub fn votes_from(&self, first: u64) -> Result<Votes<B>, paxos_packets::Memory>
        ensures { IfOk result (λ votes. votes ≡ votes_from first self.now.state.rows.votes) }
    {
        match self.acceptor.votes_from(first) {
            Ok(votes) => Ok(votes),
            Err(_) => Err(paxos_packets::Memory),
        }
    }

    /// Returns copies of the entries that the node has learned in the slots after this one, up to the first slot in which it has learned
    /// none, or `Memory`. It copies no other entry.
    pub fn run_after(&self, slot: Floor) -> Result<Entries<B>, paxos_packets::Memory>
        ensures { IfOk result (λ run. run ≡ run_from (suc slot) self.now.state.learner.learned) }
    {
        let hearing = Hearing::of(self.alloc, &self.learner);
        match hearing.run_after(slot.get()) {
            Ok(run) => Ok(run),
            Err(_) => Err(paxos_packets::Memory),
        }
    }
}

// Returns the round of a promise.
fn round_of(promised: Option<Ballot>) -> u64
    ensures { result ≡ round_of promised }
{
    match promised {
        Some(promised) => promised.round,
        None => 0,
    }
}
