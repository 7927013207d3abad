// What a round of an actor heard.
ghost use Rattle.std.specs.Prelude.{◌≡◌, ◌++◌, ◌∷◌, [], OnOk, OnErr};

use crate::heard::Heard;
use paxos_packets::Memory;
use std::alloc::Global;
use std::marker::Model;

/// From which member a packet of a round came, and what it showed.
#[derive(Clone, Copy, Debug, PartialEq, Eq)]
pub struct Hearing {
    /// The member.
    pub from: u8,
    /// What the packet showed.
    pub heard: Heard,
}

// What the packets of a round showed, in the order in which they came.
#[derive(Drop)]
pub(crate) struct Hearings {
    list: Vec<Hearing>,
}

impl Model for Hearings {
    ghost use Rattle.std.specs.Prelude.{List};
    ghost use Rattle.node_actor.specs.declared.hearing.Hearing.{Hearing};

    ghost Value = { List Hearing };

    ghost view = { λ h. h.list.items };
}

impl Hearings {
    // Returns those of a round in which nothing came. Does not allocate.
    pub(crate) fn new(alloc: Global) -> Hearings
        ensures { result ≡ [] }
    {
        Hearings {
            list: Vec::new(alloc),
        }
    }

    // Adds one at the end. `Memory` if memory runs out, which changes nothing.
    pub(crate) fn push(&mut self, hearing: Hearing) -> Result<(), Memory>
        ensures ok { OnOk result (self.new ≡ self.old ++ hearing ∷ []) }
        ensures err { OnErr result (self.new ≡ self.old) }
    {
        let pushed = self.list.push(hearing);
        if pushed.is_err() {
            return Err(Memory);
        }
        Ok(())
    }

    // Forgets them.
    pub(crate) fn clear(&mut self)
        ensures { self.new ≡ [] }
    {
        self.list.clear();
    }

    // Returns them as a slice.
    pub(crate) fn as_slice(&self) -> &[Hearing]
        ensures { result.now ≡ self.now }
    {
        self.list.as_slice()
    }
}
