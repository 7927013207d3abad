// Finds the next packet that a flush delivers.
ghost use Rattle.std.specs.Prelude.{◌≡◌, [], length, IfOk, OnOk, OnErr, ◌<◌};
ghost use Rattle.script_program.specs.Waiting.{first_due, with_sent, mark_at, with_delivered};

use crate::player::queue::{Queue, empty_queues, first_in_any, put_place};
use paxos_packets::{Members, Memory, NodeSet};
use std::alloc::Global;
use std::marker::Model;

// A packet that was sent: its two ends, and whether it was delivered.
#[derive(Clone, Copy)]
pub(crate) struct Sent {
    pub(crate) sender: u8,
    pub(crate) addressee: u8,
    pub(crate) is_delivered: bool,
}

// The packets that were sent in a cluster: the ends of each, and whether it was delivered.
//
// For each ordered pair of members it keeps the places of the packets between them, so that the next one between given nodes is
// found without a look at those of others.
pub(crate) struct Waiting {
    members: Members,
    sent: Vec<Sent>,
    queues: Vec<Queue>,
}

impl Drop for Waiting {
    fn drop(self) {
        let Waiting {
            members: _,
            sent: _sent,
            queues: _queues,
        } = self;
    }
}

impl Model for Waiting {
    ghost use Rattle.script_program.specs.Waiting.{Packets};
    ghost use Rattle.script_program.specs.Queue.{AreQueues};

    ghost Value = { Packets };

    ghost view = { λ w. record { members = w.members; sent = w.sent.items } };

    ghost invariant = { λ w. AreQueues w.members w.sent.items w.queues.items };
}

impl Waiting {
    // Starts without a packet, in a cluster of these members.
    pub(crate) fn new(alloc: Global, members: Members) -> Result<Waiting, Memory>
        ensures members { IfOk result (λ w. w.members ≡ members) }
        ensures sent { IfOk result (λ w. w.sent ≡ []) }
    {
        let queues = empty_queues(alloc)?;
        Ok(Waiting {
            members,
            sent: Vec::new(alloc),
            queues,
        })
    }

    // Adds a packet that was not delivered. If memory runs out, nothing has changed.
    pub(crate) fn send(&mut self, sender: u8, addressee: u8) -> Result<(), Memory>
        ensures ok { OnOk result (self.new ≡ with_sent sender addressee self.old) }
        ensures err { OnErr result (self.new ≡ self.old) }
    {
        let packet = Sent {
            sender,
            addressee,
            is_delivered: false,
        };
        self.sent.reserve(1)?;
        put_place(&mut self.queues, self.members, packet, self.sent.len())?;
        self.sent.push(packet)?;
        Ok(())
    }

    // Returns how many packets were sent.
    pub(crate) fn count(&self) -> usize
        ensures { result ≡ length self.now.sent }
    {
        self.sent.len()
    }

    // Marks the packet at this place, counted from 0, as delivered; does nothing if it was not sent yet. Takes constant time, and
    // does not allocate.
    pub(crate) fn deliver(&mut self, place: usize)
        ensures { self.new ≡ with_delivered place self.old }
    {
        mark(&mut self.sent, place);
    }

    // Returns the place, counted from 0, of the first packet that was not delivered and whose ends are both members in the set, or
    // `None`.
    //
    // Skips each delivered packet once over all calls; beyond that it takes constant time. Does not allocate.
    pub(crate) fn first_due(&mut self, among: NodeSet) -> Option<usize>
        ensures value { result ≡ first_due among self.old }
        ensures same { self.new ≡ self.old }
    {
        first_in_any(&mut self.queues, &self.sent, self.members, among)
    }
}

fn mark(sent: &mut Vec<Sent>, place: usize)
    ensures { sent.new.items ≡ mark_at place sent.old.items }
{
    if place < sent.len() {
        sent[place].is_delivered = true;
    }
}
