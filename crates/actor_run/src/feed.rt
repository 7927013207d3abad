// The trait of feeds, which give a run its events and take its sayings, and what a feed sees of the node.
ghost use Rattle.std.specs.Prelude.{ℕ, List, ◌++◌};
ghost use Rattle.std.specs.Option.{option_to_list};
ghost use Rattle.paxos_node.specs.declared.event.Event.{Event};

use node_actor::Heard;
use paxos_node::Event;
use paxos_packets::{Ballot, NodeSet};

/// What a feed is given when it is asked for an event.
#[derive(Clone, Copy)]
pub struct Seen {
    /// The peer from which the last turn fetched a packet, if it fetched one.
    pub from: Option<u8>,
    /// What that packet showed.
    pub heard: Option<Heard>,
    /// The length of the node's log; 0 if the node is down.
    pub applied: u64,
    /// The floor, up to which the node's snapshot gives its log.
    pub floor: u64,
    /// Whether entries are pending.
    pub pending: bool,
    /// How many are.
    pub pending_entries: usize,
    /// The peers to which the last turn posted.
    pub posted: NodeSet,
    /// How many packets wait for each member, member 1 first.
    pub waiting: [u16; 7],
    /// How many commits the node has made in this boot.
    pub commits: u64,
    /// Whether the node leads.
    pub leads: bool,
    /// The greatest ballot that the node has promised, if any.
    pub promised: Option<Ballot>,
    /// How many slots there are after the node's log up to the last one that it voted in.
    pub open_slots: u64,
}

/// Where the events of a node come from, and its sayings go.
pub trait Feed<B, Y> {
    // It has given these events so far, and got these sayings, oldest first. A feed that claims nothing says so of all lists.
    ghost saw: { Self → List (Event B) → List Y → Type 0 };

    /// Returns the next event, if there is one: a Take, Tick, Start, Suspect or Cut of the node; any other is passed over. A Cut need carry
    /// nothing: the actor cuts to what its log is saved as.
    fn next(&mut self, seen: Seen) -> Option<Event<B>>
        ensures { (given : List (Event B)) (got : List Y) → saw self.old given got → saw self.new (given ++ option_to_list result) got };

    /// Takes what the node says to its transports, in order.
    fn hand(&mut self, says: Vec<Y>)
        ensures { (given : List (Event B)) (got : List Y) → saw self.old given got → saw self.new given (got ++ says.items) };
}
