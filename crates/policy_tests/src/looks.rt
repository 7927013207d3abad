// Where a round of a node looks for packets, and how many a box holds.
use crate::voter::Packet;
use std::alloc::Global;
use std::collections::VecDeque;

// How many packets a box holds, and how many of one node a round treats before it looks no further into that node's box.
const PACKETS_OF_ONE: usize = 64;

// The same where a packet stands for so many: at least one.
pub fn packets_together(weight: usize) -> usize {
    (PACKETS_OF_ONE / weight.max(1)).max(1)
}

// A packet that came, and from whom.
#[derive(Clone, Copy)]
pub struct Came {
    pub from: u8,
    pub packet: Packet,
}

// Where a round looks.
#[derive(Clone, Copy)]
pub struct Looks {
    // The node into whose box it looks first, and the one into whose box it looks now.
    first: u8,
    pub now: u8,
    // How many nodes are left, that one among them, and how many packets of that one came.
    pub left: u8,
    pub came: usize,
}

impl Looks {
    // Before the first round.
    pub fn new() -> Looks {
        Looks {
            first: 0,
            now: 0,
            left: 0,
            came: 0,
        }
    }

    // A round of one of so many nodes begins. It looks first into the box of the node after the one that was first in the last round.
    pub fn begin(&mut self, count: u8) {
        let count = count.max(1);
        self.first = self.first % count + 1;
        self.now = self.first;
        self.left = count;
        self.came = 0;
    }

    // It looks into the next node's box.
    pub fn go_on(&mut self, count: u8) {
        let count = count.max(1);
        self.now = self.now % count + 1;
        self.left = self.left.saturating_sub(1);
        self.came = 0;
    }
}

// No packets for or from any node.
pub fn no_packets(alloc: Global) -> [VecDeque<Packet>; 8] {
    [
        VecDeque::new(alloc),
        VecDeque::new(alloc),
        VecDeque::new(alloc),
        VecDeque::new(alloc),
        VecDeque::new(alloc),
        VecDeque::new(alloc),
        VecDeque::new(alloc),
        VecDeque::new(alloc),
    ]
}
