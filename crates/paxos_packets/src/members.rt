//! Members of a cluster, sets of nodes, and majorities.

ghost use Rattle.std.specs.Prelude.{◌≡◌, ℕ, ◌<◌, ◌≤◌, [], ◌∷◌, ◌++◌, length, ◌&&◌, ◌||◌, ◌==◌, ◌↔◌, nat_lt, Bool};
ghost use Rattle.std.specs.Prelude.{false, IsTrue, IsSome, IfSome};
ghost use Rattle.paxos_packets.specs.Members.{IsMajority, is_majority, is_member, others, is_in, no_nodes, set_with};

use arrayvec::ArrayVec;
use std::marker::Model;

/// A set of nodes, of those with numbers from 0 to 7.
#[derive(Clone, Copy, Debug, PartialEq, Eq, Hash)]
pub struct NodeSet {
    has: [bool; 8],
}

impl Model for NodeSet {
    ghost use Rattle.std.specs.Prelude.{List, Bool, ℕ, ◌≤◌, take};

    ghost Value = { List Bool };

    ghost view = { λ s. s.has };

    ghost inverse = { λ has. record { has = has } };
}

impl NodeSet {
    /// Returns the empty set. Does not allocate.
    pub fn new() -> NodeSet
        ensures value { result ≡ no_nodes }
        ensures meaning { (node : ℕ) → is_in result node ≡ false }
    {
        NodeSet { has: [false; 8] }
    }

    /// Adds the node to the set; a number above 7 is no node's, and changes nothing.
    pub fn insert(&mut self, node: u8)
        ensures value { self.new ≡ set_with self.old node }
        ensures meaning { (other : ℕ) → is_in self.new other ≡ (is_in self.old other || ((other == node) && nat_lt other 8)) }
    {
        if node < 8 {
            self.has[node as usize] = true;
        }
    }

    /// Returns the set with the node; a number above 7 is no node's.
    pub fn with(self, node: u8) -> NodeSet
        ensures { result ≡ set_with self node }
    {
        let mut has = self.has;
        if node < 8 {
            has[node as usize] = true;
        }
        NodeSet { has }
    }

    /// Returns whether the node is in the set.
    pub fn contains(self, node: u8) -> bool
        ensures { result ≡ is_in self node }
    {
        node < 8 && self.has[node as usize]
    }
}

/// The members of a cluster: the nodes 1 to `count`, 3 to 7 of them.
#[derive(Clone, Copy, Debug, PartialEq, Eq, Hash)]
pub struct Members {
    count: u8,
}

impl Model for Members {
    ghost Value = { ℕ };

    ghost view = { λ m. m.count };

    ghost invariant = { λ m. (3 ≤ m.count) × (m.count ≤ 7) };

    ghost inverse = { λ n. record { count = n } };
}

impl Members {
    /// Returns the members 1 to `count`, or `None` if `count` is not 3 to 7. Does not allocate.
    pub fn new(count: u8) -> Option<Members>
        ensures valid { IsSome result ↔ ((3 ≤ count) × (count ≤ 7)) }
        ensures value { IfSome result (λ m. m ≡ count) }
    {
        if (3..=7).contains(&count) {
            Some(Members { count })
        } else {
            None
        }
    }

    /// Returns how many members there are.
    pub fn count(self) -> u8
        ensures value { result ≡ self }
        ensures least { 3 ≤ result }
        ensures most { result ≤ 7 }
    {
        let Members { count } = self;
        count
    }

    /// Returns whether this is the number of a member.
    pub fn contains(self, node: u8) -> bool
        ensures { result ≡ is_member self node }
    {
        1 <= node && node <= self.count
    }

    /// Returns whether the set has more than half of the members. Nodes that are not members do not count.
    pub fn majority(self, set: NodeSet) -> bool
        ensures value { result ≡ is_majority self (is_in set) }
        ensures meaning { IsTrue result ↔ IsMajority self (is_in set) }
    {
        let mut count: u8 = 0;
        for below in 0..self.count {
            if set.contains(below + 1) {
                count += 1;
            }
        }
        self.count < 2 * count
    }

    /// Returns the members other than this node, by ascending number. Does not allocate.
    pub fn others(self, node: u8) -> ArrayVec<u8, 7>
        ensures { result.items ≡ others node self }
    {
        let count = self.count();
        let mut nodes = ArrayVec::new();
        for below in 0..count {
            let other = below + 1;
            if other != node {
                nodes.push(other);
            }
        }
        nodes
    }
}
