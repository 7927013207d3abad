// The trait of feeds of rounds, and what they see of the node.
ghost use Rattle.std.specs.Prelude.{ℕ, List, ◌++◌};
ghost use Rattle.std.specs.Option.{option_to_list};
ghost use Rattle.paxos_node.specs.declared.event.Event.{Event};

use node_actor::Hearing;
use paxos_node::Event;
use paxos_packets::{Ballot, NodeSet};

/// What a feed is given when it is asked for an event of the next round.
#[derive(Clone, Copy)]
pub struct RoundSeen<'a> {
    /// From whom the packets of the last round came, and what each showed, in order.
    pub came: &'a [Hearing],
    /// The length of the node's log; 0 if the node is down.
    pub applied: u64,
    /// The floor, up to which the node's snapshot gives its log.
    pub floor: u64,
    /// How many entries are pending.
    pub pending: usize,
    /// The peers to which the last round posted.
    pub posted: NodeSet,
    /// How many packets wait for each member, member 1 first.
    pub waiting: [u16; 7],
    /// How many commits the node has made in this boot.
    pub commits: u64,
    /// Whether the node leads.
    pub leads: bool,
    /// The greatest ballot that the node has promised, if any.
    pub promised: Option<Ballot>,
    /// How many slots there are after the node's log up to the last one that it voted in.
    pub open_slots: u64,
}

/// Where the events of a node that goes by rounds come from, and its sayings go.
pub trait RoundFeed<B, Y> {
    // It has given these events so far, and got these sayings, oldest first. A feed that claims nothing says so of all lists.
    ghost saw: { Self → List (Event B) → List Y → Type 0 };

    /// Returns the next event of the round to come, if there is one: a Take, Tick, Start, Suspect or Cut of the node; any other is passed over.
    /// It is asked up to 64 times before a round. A Cut is made at once, and need carry nothing; none of the other events is made before the last
    /// time.
    fn next(&mut self, seen: &RoundSeen<'_>) -> Option<Event<B>>
        ensures { (given : List (Event B)) (got : List Y) → saw self.old given got → saw self.new (given ++ option_to_list result) got };

    /// Takes what the node says to its transports in a round, in order.
    fn hand(&mut self, says: Vec<Y>)
        ensures { (given : List (Event B)) (got : List Y) → saw self.old given got → saw self.new given (got ++ says.items) };
}
