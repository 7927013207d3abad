// A member's node, up or down: how it crashes, restarts, plans an event and adopts an outcome.
ghost use Rattle.std.specs.Prelude.{◌≡◌, ◌<◌, ◌^◌, length, true, false, IfOk, OnOk, OnErr, IfSome, IfNone, is_some, option_copied};
ghost use Rattle.paxos_packets.specs.Rows.{last_boot, raised, first_rows};
ghost use Rattle.paxos_node.specs.Adopting.{adopted, Fits, Planned};
ghost use Rattle.paxos_node.specs.Applying.{down, started};
ghost use Rattle.paxos_node.specs.Events.{outcome_of, made_by};
ghost use Rattle.paxos_node.specs.Held.{HasRoom};
ghost use Rattle.paxos_node.specs.Plans.{plans};
ghost use Rattle.paxos_node.specs.declared.event.Event.TheVariants.{Cut};
ghost use Rattle.paxos_node.specs.Snapshots.{may_cut};
ghost use Rattle.paxos_packets.specs.Snapshot.{snapshot_of};
ghost use Rattle.paxos_planning.specs.Node.{told_length};
ghost use Rattle.paxos_planning.specs.Plan.{begun};
ghost use Rattle.world_nodes.specs.Nodes.{node_in, node_of, went_down, made_in, IsOfMember, HasRoomIn, IsAtRest};

use paxos_node::{Event, Node, NodeFault, Outcome, Packets};
use paxos_packets::{Body, Entries, Members, Memory, Rows, Snapshot};
use std::alloc::Global;
use std::marker::Model;
use std::mem;

/// A node that runs, or the rows that a node that is down has committed.
#[derive(Drop)]
pub enum NodeStatus<B> {
    Up(Node<B>),
    Down(Rows<B>),
}

/// A member of the cluster, and its node.
pub struct WorldNode<B> {
    alloc: Global,
    me: u8,
    members: Members,
    status: NodeStatus<B>,
}

impl<B: Drop> Drop for WorldNode<B> {
    fn drop(self) {
        let WorldNode {
            alloc: _,
            me: _,
            members: _,
            status: _place,
        } = self;
    }
}

impl<B> Model for WorldNode<B> {
    ghost use Rattle.world_nodes.specs.Nodes.{MemberNode, IsOfMember};

    ghost Value = { MemberNode B };

    ghost view = { λ s. record { me = s.me; members = s.members; status = s.status } };

    ghost invariant = { λ s. IsOfMember s.me s.members s.status };
}

impl<B> WorldNode<B> {
    /// Returns whether its node is up. Does not allocate.
    pub fn is_up(&self) -> bool
        ensures { result ≡ (node_of self.now).up }
    {
        match &self.status {
            NodeStatus::Up(_) => true,
            NodeStatus::Down(_) => false,
        }
    }

    /// Returns its node, if that is up. Does not allocate.
    pub fn running(&self) -> Option<&Node<B>>
        ensures up { is_some result ≡ (node_of self.now).up }
        ensures me { IfSome (option_copied result) (λ node. node.me ≡ self.now.me) }
        ensures state { IfSome (option_copied result) (λ node. node.state ≡ node_of self.now) }
    {
        match &self.status {
            NodeStatus::Up(node) => Some(node),
            NodeStatus::Down(_) => None,
        }
    }

    /// Returns the length of its node's log, or 0 if that is down. Does not allocate.
    pub fn applied(&self) -> u64
        ensures length { result ≡ told_length (node_of self.now) }
        ensures within { result < 2 ^ 40 }
    {
        match &self.status {
            NodeStatus::Up(node) => node.applied(),
            NodeStatus::Down(_) => 0,
        }
    }

    /// Returns the snapshot that its node rests on, if any, also if that is down. Does not allocate.
    pub fn snapshot(&self) -> Option<&Snapshot>
        ensures { option_copied result ≡ (node_of self.now).rows.snapshot }
    {
        match &self.status {
            NodeStatus::Up(node) => node.snapshot(),
            NodeStatus::Down(rows) => rows.snapshot.as_ref(),
        }
    }

    /// Returns how often its node was started. Does not allocate.
    pub fn boot(&self) -> u64
        ensures { result ≡ (node_of self.now).rows.boot }
    {
        match &self.status {
            NodeStatus::Up(node) => node.boot(),
            NodeStatus::Down(rows) => rows.boot,
        }
    }
}

impl<B: Drop> WorldNode<B> {
    /// Returns the member with this number, whose node starts for the first time.
    pub fn first(alloc: Global, me: u8, members: Members) -> Result<WorldNode<B>, Memory>
        ensures me { IfOk result (λ node. node.me ≡ me) }
        ensures members { IfOk result (λ node. node.members ≡ members) }
        ensures node { IfOk result (λ node. node_of node ≡ started me first_rows) }
    {
        match Node::of(alloc, me, members, Rows::first(alloc)) {
            Ok(node) => Ok(WorldNode {
                alloc,
                me,
                members,
                status: NodeStatus::Up(node),
            }),
            Err(_) => Err(Memory),
        }
    }

    /// Takes its node down, which keeps what it has committed. Does not allocate.
    pub fn crash(&mut self)
        ensures node { node_of self.new ≡ down (node_of self.old).rows }
        ensures me { self.new.me ≡ self.old.me }
        ensures members { self.new.members ≡ self.old.members }
    {
        go_down(self.alloc, &mut self.status);
    }

    /// Starts its node, which is down, in the next boot, with what it has committed. On `Memory` it is as it was.
    pub fn restart(&mut self) -> Result<(), Memory>
        requires down { (node_of self.old).up ≡ false }
        requires boots { (node_of self.old).rows.boot < last_boot }
        ensures ok { OnOk result (node_of self.new ≡ started self.old.me (raised (node_of self.old).rows)) }
        ensures err { OnErr result (node_of self.new ≡ node_of self.old) }
        ensures me { self.new.me ≡ self.old.me }
        ensures members { self.new.members ≡ self.old.members }
    {
        start_again(self.alloc, self.me, self.members, &mut self.status)
    }
}

impl<B: Body> WorldNode<B> {
    /// Returns what the event makes of its node, which itself stays as it is, or `None` if the event is refused and changes nothing.
    pub fn plan(&self, event: &Event<B>) -> Result<Option<Outcome<B>>, Memory>
        requires plans { plans self.now.me event.now (node_of self.now) ≡ true }
        requires rests { IsAtRest (node_of self.now) }
        requires agrees { (outcome_of B.same self.now.members event.now (node_of self.now)).disagrees ≡ false }
        ensures planned { IfOk result (λ plan. IfSome plan (λ outcome. Planned B.same self.now.members event.now (node_of self.now) outcome)) }
        ensures refused { IfOk result (λ plan. IfNone plan
            (outcome_of B.same self.now.members event.now (node_of self.now) ≡ begun (node_of self.now))) }
        ensures made { IfOk result (λ plan. made_in plan ≡ made_by B.same event.now (node_of self.now)) }
        ensures fits { IfOk result (λ plan. IfSome plan (λ outcome. Fits self.now.me self.now.members outcome (node_of self.now))) }
    {
        match &self.status {
            NodeStatus::Up(node) => plan(node, event),
            NodeStatus::Down(_) => unreachable!(),
        }
    }

    /// Returns what it makes of its node to rest on these octets, which are a snapshot of its log, or `None` if they are none, or if nothing
    /// is applied above the floor.
    pub fn plan_cut(&self, octets: &[u8]) -> Result<Option<Outcome<B>>, Memory>
        requires up { (node_of self.now).up ≡ true }
        ensures planned { IfOk result (λ plan. IfSome plan
            (λ outcome. Planned B.same self.now.members (Cut self.now.me (snapshot_of octets.now)) (node_of self.now) outcome)) }
        ensures refused { IfOk result (λ plan. is_some plan ≡ may_cut (snapshot_of octets.now) (node_of self.now)) }
        ensures fits { IfOk result (λ plan. IfSome plan (λ outcome. Fits self.now.me self.now.members outcome (node_of self.now))) }
    {
        match &self.status {
            NodeStatus::Up(node) => plan_cut(node, octets),
            NodeStatus::Down(_) => unreachable!(),
        }
    }

    /// Reserves all memory that adopting the outcome needs. The node stays as it was, with `Memory` too.
    pub fn make_room(&mut self, outcome: &Outcome<B>) -> Result<(), Memory>
        requires up { (node_of self.old).up ≡ true }
        ensures ok { OnOk result (HasRoomIn outcome.now self.new.status) }
        ensures node { node_of self.new ≡ node_of self.old }
        ensures me { self.new.me ≡ self.old.me }
        ensures members { self.new.members ≡ self.old.members }
    {
        match &mut self.status {
            NodeStatus::Up(node) => make_room(node, outcome),
            NodeStatus::Down(_) => unreachable!(),
        }
    }

    /// Makes its node what was planned, given room for it; returns the packets that it sends and the entries that it applied. Does not
    /// allocate.
    pub fn adopt_in_room(&mut self, outcome: Outcome<B>) -> (Packets<B>, Entries<B>)
        requires room { HasRoomIn outcome self.old.status }
        requires fits { Fits self.old.me self.old.members outcome (node_of self.old) }
        ensures node { node_of self.new ≡ adopted self.old.me self.old.members outcome (node_of self.old) }
        ensures me { self.new.me ≡ self.old.me }
        ensures members { self.new.members ≡ self.old.members }
        ensures packets { result.0 ≡ outcome.packets }
        ensures applied { result.1 ≡ outcome.applied }
    {
        let NodeStatus::Up(node) = &mut self.status else {
            unreachable!()
        };
        let adopted = node.adopt_in_room(outcome);
        if node.is_up() {
            return adopted;
        }
        go_down(self.alloc, &mut self.status);
        adopted
    }
}

// Returns what the event makes of the node, or `None` if it is refused and changes nothing.
fn plan<B: Body>(node: &Node<B>, event: &Event<B>) -> Result<Option<Outcome<B>>, Memory>
    requires plans { plans node.now.me event.now node.now.state ≡ true }
    requires rests { IsAtRest node.now.state }
    requires agrees { (outcome_of B.same node.now.members event.now node.now.state).disagrees ≡ false }
    ensures planned { IfOk result (λ plan. IfSome plan (λ outcome. Planned B.same node.now.members event.now node.now.state outcome)) }
    ensures refused { IfOk result (λ plan. IfNone plan (outcome_of B.same node.now.members event.now node.now.state ≡ begun node.now.state)) }
    ensures made { IfOk result (λ plan. made_in plan ≡ made_by B.same event.now node.now.state) }
    ensures fits { IfOk result (λ plan. IfSome plan (λ outcome. Fits node.now.me node.now.members outcome node.now.state)) }
{
    match node.plan(event) {
        Ok(outcome) => Ok(Some(outcome)),
        Err(NodeFault::Rounds) => Ok(None),
        Err(NodeFault::Full) => Ok(None),
        Err(NodeFault::Disagree) => unreachable!(),
        Err(NodeFault::Memory) => Err(Memory),
    }
}

// Returns what it makes of the node to rest on these octets, or `None` if they are no snapshot of its log.
fn plan_cut<B: Body>(node: &Node<B>, octets: &[u8]) -> Result<Option<Outcome<B>>, Memory>
    requires { node.now.state.up ≡ true }
    ensures planned { IfOk result (λ plan. IfSome plan
        (λ outcome. Planned B.same node.now.members (Cut node.now.me (snapshot_of octets.now)) node.now.state outcome)) }
    ensures refused { IfOk result (λ plan. is_some plan ≡ may_cut (snapshot_of octets.now) node.now.state) }
    ensures fits { IfOk result (λ plan. IfSome plan (λ outcome. Fits node.now.me node.now.members outcome node.now.state)) }
{
    let Ok(outcome) = node.plan_cut(octets) else {
        return Err(Memory);
    };
    if outcome.change.snapshot.is_none() {
        return Ok(None);
    }
    Ok(Some(outcome))
}

// Reserves all memory that adopting the outcome at the node needs.
fn make_room<B: Body>(node: &mut Node<B>, outcome: &Outcome<B>) -> Result<(), Memory>
    ensures ok { OnOk result (HasRoom outcome.now node.new) }
    ensures state { node.new.state ≡ node.old.state }
    ensures me { node.new.me ≡ node.old.me }
    ensures members { node.new.members ≡ node.old.members }
{
    match node.make_room(outcome) {
        Ok(()) => Ok(()),
        Err(_) => Err(Memory),
    }
}

// Returns what the node has committed, and leaves it down, without rows.
fn take_rows<B: Drop>(alloc: Global, status: &mut NodeStatus<B>) -> Rows<B>
    ensures { result ≡ (node_in status.old).rows }
{
    let nothing = NodeStatus::Down(Rows::first(alloc));
    match mem::replace(status, nothing) {
        NodeStatus::Up(node) => node.into_rows(),
        NodeStatus::Down(rows) => rows,
    }
}

// Takes the node down.
fn go_down<B: Drop>(alloc: Global, status: &mut NodeStatus<B>)
    ensures { status.new ≡ went_down status.old }
{
    let rows = take_rows(alloc, status);
    *status = NodeStatus::Down(rows);
}

// Starts the node from its rows in the next boot.
#[tactic(auto, unfolding(paxos_packets::specs::Rows::last_boot))]
fn start_again<B: Drop>(
    alloc: Global,
    me: u8,
    members: Members,
    status: &mut NodeStatus<B>,
) -> Result<(), Memory>
    requires boots { (node_in status.old).rows.boot < last_boot }
    ensures ok { OnOk result (node_in status.new ≡ started me (raised (node_in status.old).rows)) }
    ensures of_member { OnOk result (IsOfMember me members status.new) }
    ensures err { OnErr result (status.new ≡ went_down status.old) }
{
    let mut rows = take_rows(alloc, status);
    rows.boot += 1;
    match Node::begin(alloc, me, members, rows) {
        Ok(node) => {
            *status = NodeStatus::Up(node);
            Ok(())
        }
        Err(mut rows) => {
            rows.boot -= 1;
            *status = NodeStatus::Down(rows);
            Err(Memory)
        }
    }
}
