// Nodes in one process, and the packets that are under way between them, in the order in which they were sent.
use crate::closing::push;
use crate::standing::NODES;
use paxos_node::{Event, Node, NodeFault, Packets};
use paxos_packets::{Body, Entries, Entry, Members, Packet, Rows};
use replica_machine::Standing;
use std::alloc::{AllocError, Global};
use std::collections::VecDeque;

// A node, and how many acts it has applied.
#[derive(Drop)]
struct Member<B> {
    node: Node<B>,
    acts: u64,
}

/// Nodes, and the packets that are under way.
pub struct Nodes<B> {
    members: Vec<Member<B>>,
    sent: VecDeque<Packet<B>>,
}

impl<B: Drop> Drop for Nodes<B> {
    fn drop(self) {
        let Nodes {
            members: _members,
            sent: _sent,
        } = self;
    }
}

/// Why an event did not happen.
#[derive(Clone, Copy, Drop)]
pub enum Missed {
    /// No node has this number.
    Nobody,
    /// The node did not plan it, or did not adopt what was planned.
    Node(NodeFault),
    /// Memory for the packets ran out.
    Memory,
}

/// What is done with nodes.
pub trait Passes<B: Body> {
    /// What comes of it.
    type End;

    /// Goes over the nodes.
    fn pass(&mut self, nodes: &mut Nodes<B>) -> Self::End;
}

// The nodes begin.

fn node_of<B: Drop>(alloc: Global, number: u8, members: Members) -> Result<Node<B>, NodeFault> {
    Node::of(alloc, number, members, Rows::first(alloc))
}

// Adds nodes 1 to `count`. Returns whether there was memory for them.
fn put_members<B: Drop>(alloc: Global, members: &mut Vec<Member<B>>, count: Members) -> bool {
    for number in 1..=count.count() {
        let Ok(node) = node_of(alloc, number, count) else {
            return false;
        };
        if !push(members, Member { node, acts: 0 }) {
            return false;
        }
    }
    true
}

/// Lends three nodes, each in its first boot, to what is done with them. Returns what comes of it; `None` if memory runs out.
pub fn with_nodes<B: Body, P: Passes<B>>(alloc: Global, passes: &mut P) -> Option<P::End> {
    let count = Members::new(NODES)?;
    let mut nodes = Nodes {
        members: Vec::new(alloc),
        sent: VecDeque::new(alloc),
    };
    let end = if put_members(alloc, &mut nodes.members, count) {
        Some(passes.pass(&mut nodes))
    } else {
        None
    };
    drop(nodes);
    end
}

// One event, and the packets that it sends.

// Plans and adopts the event.
fn turn<B: Body>(
    node: &mut Node<B>,
    event: &Event<B>,
) -> Result<(Packets<B>, Entries<B>), NodeFault> {
    let outcome = node.plan(event)?;
    node.adopt(outcome)
}

fn acts_in<B>(entries: &[Entry<B>]) -> u64 {
    let mut acts = 0u64;
    for entry in entries {
        if is_act(entry) {
            acts = acts.saturating_add(1);
        }
    }
    acts
}

fn is_act<B>(entry: &Entry<B>) -> bool {
    match entry {
        Entry::Item { .. } => true,
        Entry::Noop | Entry::Boot { .. } | Entry::Lost { .. } => false,
    }
}

// Lets the event happen at the member, and counts what it applies.
fn step<B: Body>(member: &mut Member<B>, event: &Event<B>) -> Result<Packets<B>, NodeFault> {
    let (packets, applied) = turn(&mut member.node, event)?;
    member.acts = member.acts.saturating_add(acts_in(applied.as_slice()));
    drop(applied);
    Ok(packets)
}

// Adds the packets to those under way. Returns whether there was memory for them.
fn send<B: Drop>(sent: &mut VecDeque<Packet<B>>, packets: Packets<B>) -> bool {
    for packet in packets.into_vec() {
        if let Err(left) = sent.push_back(packet) {
            drop(left);
            return false;
        }
    }
    true
}

fn place_of(number: u8) -> usize {
    usize::from(number.saturating_sub(1))
}

// Lets the event happen at the node with this number, and adds what it sends to the packets under way.
fn happen<B: Body>(nodes: &mut Nodes<B>, number: u8, event: &Event<B>) -> Result<(), Missed> {
    let Some(member) = nodes.members.get_mut(place_of(number)) else {
        return Err(Missed::Nobody);
    };
    let packets = match step(member, event) {
        Ok(packets) => packets,
        Err(fault) => return Err(Missed::Node(fault)),
    };
    if send(&mut nodes.sent, packets) {
        Ok(())
    } else {
        Err(Missed::Memory)
    }
}

// A cut.

// Appends where a node stands.
fn put_standing(octets: &mut Vec<u8>, standing: Standing) -> Result<(), AllocError> {
    let (boot, is_live, taken) = match standing {
        Standing::Unknown => (0, 0, 0),
        Standing::Live { boot, taken } => (boot, 1, taken),
        Standing::Gone { boot } => (boot, 0, 0),
    };
    octets.extend_from_slice(&u64::to_be_bytes(boot))?;
    octets.extend_from_slice(&[is_live])?;
    octets.extend_from_slice(&u64::to_be_bytes(taken))
}

// The head of the node's log (docs/PROTOCOL.md, "Snapshots"); the octets of no machine follow.
fn head_of<B>(alloc: Global, node: &Node<B>) -> Result<Vec<u8>, AllocError> {
    let mut octets = Vec::from_slice(alloc, &u64::to_be_bytes(node.applied()))?;
    for standing in &node.roll().seven() {
        put_standing(&mut octets, *standing)?;
    }
    Ok(octets)
}

// Lets the node rest on a snapshot of these octets.
fn rest_on<B: Body>(node: &mut Node<B>, octets: &[u8]) -> Result<(), NodeFault> {
    let outcome = node.plan_cut(octets)?;
    let (packets, applied) = node.adopt(outcome)?;
    drop(packets);
    drop(applied);
    Ok(())
}

fn cut<B: Body>(alloc: Global, node: &mut Node<B>) -> Result<(), Missed> {
    let Ok(octets) = head_of(alloc, node) else {
        return Err(Missed::Memory);
    };
    let done = rest_on(node, &octets);
    drop(octets);
    match done {
        Ok(()) => Ok(()),
        Err(fault) => Err(Missed::Node(fault)),
    }
}

impl<B: Body> Nodes<B> {
    // Lets the event happen at the node with this number, and drops it.
    fn event(&mut self, number: u8, event: Event<B>) -> Result<(), Missed> {
        let done = happen(self, number, &event);
        drop(event);
        done
    }

    /// Lets the node begin a ballot.
    pub fn start(&mut self, node: u8) -> Result<(), Missed> {
        self.event(node, Event::Start { node })
    }

    /// Lets time pass at the node.
    pub fn tick(&mut self, node: u8) -> Result<(), Missed> {
        self.event(node, Event::Tick { node })
    }

    /// Lets the node take an act of its transport 1 with this body.
    pub fn take(&mut self, node: u8, body: B) -> Result<(), Missed> {
        self.event(
            node,
            Event::Take {
                node,
                transport: 1,
                body,
            },
        )
    }

    /// Lets the node cut its log. Its snapshot has the head of the log alone.
    pub fn cut(&mut self, node: u8) -> Result<(), Missed> {
        let alloc = *self.members.allocator();
        match self.members.get_mut(place_of(node)) {
            Some(member) => cut(alloc, &mut member.node),
            None => Err(Missed::Nobody),
        }
    }

    /// Returns the floor of the node, 0 if there is none with this number.
    pub fn floor(&self, node: u8) -> u64 {
        match self.members.get(place_of(node)) {
            Some(member) => member.node.floor().get(),
            None => 0,
        }
    }

    /// Delivers the oldest packet that is under way. Returns whether there was one.
    pub fn deliver(&mut self) -> Result<bool, Missed> {
        let Some(packet) = self.sent.pop_front() else {
            return Ok(false);
        };
        self.event(packet.addressee, Event::Deliver { packet })?;
        Ok(true)
    }

    /// Returns whether entries of the node wait for a slot.
    pub fn has_pending(&self, node: u8) -> bool {
        match self.members.get(place_of(node)) {
            Some(member) => member.node.has_pending(),
            None => false,
        }
    }

    /// Returns whether each node has applied this many acts.
    pub fn have_applied(&self, acts: u64) -> bool {
        for member in self.members.as_slice() {
            if member.acts != acts {
                return false;
            }
        }
        true
    }
}
