//! Entries to be proposed, compared with others before they are made.

ghost use Rattle.std.specs.Prelude.{◌≡◌};
ghost use Rattle.paxos_packets.specs.Entry.{same_entry};
ghost use Rattle.paxos_packets.specs.declared.entry.Entry.TheVariants.{Noop};
ghost use Rattle.paxos_planning.specs.Walking.{entry_of, called_entry};

use paxos_packets::{Body, Entry};

/// An entry by reference: one that is held, or a Noop or an Item that is not made yet.
#[derive(Clone, Copy)]
pub enum Wanted<'a, B> {
    Held(&'a Entry<B>),
    Noop,
    Item {
        node: u8,
        boot: u64,
        seq: u64,
        transport: u32,
        body: &'a B,
    },
}

impl<'a, B: Body> Wanted<'a, B> {
    // Returns whether it is equal to this entry.
    pub(crate) fn equals(&self, entry: &Entry<B>) -> bool
        ensures { result ≡ same_entry B.same entry.now (entry_of self.now) }
    {
        match self {
            Wanted::Held(held) => entry.same(held),
            Wanted::Noop => is_noop(entry),
            Wanted::Item {
                node,
                boot,
                seq,
                transport,
                body,
            } => match entry {
                Entry::Item {
                    node: n,
                    boot: b,
                    seq: s,
                    transport: t,
                    body: x,
                } => n == node && b == boot && s == seq && t == transport && x.same(body),
                Entry::Noop => false,
                Entry::Boot { .. } => false,
                Entry::Lost { .. } => false,
            },
        }
    }

    // Returns whether it is equal to the entry that a promise calls for, which is a Noop if none was reported.
    pub(crate) fn equals_called(&self, called: Option<&Entry<B>>) -> bool
        ensures { result ≡ same_entry B.same (called_entry called.entry) (entry_of self.now) }
    {
        match called {
            Some(entry) => self.equals(entry),
            None => match self {
                Wanted::Held(held) => is_noop(held),
                Wanted::Noop => true,
                Wanted::Item { .. } => false,
            },
        }
    }
}

// Returns whether it is a Noop.
fn is_noop<B: Body>(entry: &Entry<B>) -> bool
    ensures from { result ≡ same_entry B.same entry.now Noop }
    ensures to { result ≡ same_entry B.same Noop entry.now }
{
    match entry {
        Entry::Noop => true,
        Entry::Boot { .. } => false,
        Entry::Lost { .. } => false,
        Entry::Item { .. } => false,
    }
}
