// The numbers of packets, by which sent ones are found.
ghost use Rattle.std.specs.Prelude.{◌≡◌, slice_get};
ghost use Rattle.world_packets.specs.Numbers.{plain, no_entry, entry_numbers, forward_numbers, numbers_of};

use paxos_packets::{Ballot, Entry, Kind, Packet};

/// The numbers of an entry; 0 for those that it does not have.
#[derive(Clone, Copy, PartialEq, Eq, Hash)]
pub struct EntryNumbers {
    pub node: u8,
    pub boot: u64,
    pub seq: u64,
}

/// The numbers of a packet: what is in it except bodies and lists. What a kind of packet does not have is 0, so that kinds differ by what
/// they have, except a vote that is asked for and one that was cast.
#[derive(Clone, Copy, PartialEq, Eq, Hash)]
pub struct Numbers {
    pub sender: u8,
    pub addressee: u8,
    pub ballot: Ballot,
    /// The ballot that a Nack reports as promised.
    pub promised: Ballot,
    /// The slot of a vote, or of what was learned.
    pub slot: u64,
    /// Whether it reports that its vote was cast.
    pub is_cast: bool,
    /// The first slot that is asked for.
    pub from: u64,
    /// The floor of a Promise or a Snapshot.
    pub floor: u64,
    /// How many entries are forwarded, and the numbers of the first and of the last one.
    pub count: usize,
    pub first: EntryNumbers,
    pub last: EntryNumbers,
}

/// The key under which the index of a packet is found: its numbers, and how many different packets with these were sent before it.
#[derive(Clone, Copy, PartialEq, Eq, Hash)]
pub struct Key {
    pub numbers: Numbers,
    pub ordinal: usize,
}

// Returns the numbers that every packet has.
fn plain(sender: u8, addressee: u8) -> Numbers
    ensures { result ≡ plain sender addressee }
{
    let nobody = Ballot { round: 0, node: 0 };
    let nothing = no_entry();
    Numbers {
        sender,
        addressee,
        ballot: nobody,
        promised: nobody,
        slot: 0,
        is_cast: false,
        from: 0,
        floor: 0,
        count: 0,
        first: nothing,
        last: nothing,
    }
}

// Returns the numbers of the entry at this index, if there is one.
fn entry_numbers<B>(entries: &[Entry<B>], index: usize) -> EntryNumbers
    ensures { result ≡ entry_numbers (slice_get entries.now index) }
{
    match entries.get(index) {
        Some(Entry::Boot { node, boot }) => EntryNumbers {
            node: *node,
            boot: *boot,
            seq: 0,
        },
        Some(Entry::Lost { node, boot }) => EntryNumbers {
            node: *node,
            boot: *boot,
            seq: 0,
        },
        Some(
            Entry::Item {
                node,
                boot,
                seq,
                ..
            },
        ) => EntryNumbers {
            node: *node,
            boot: *boot,
            seq: *seq,
        },
        Some(Entry::Noop) => no_entry(),
        None => no_entry(),
    }
}

// Returns the numbers of no entry.
fn no_entry() -> EntryNumbers
    ensures { result ≡ no_entry }
{
    EntryNumbers {
        node: 0,
        boot: 0,
        seq: 0,
    }
}

impl Numbers {
    /// Returns the packet's numbers.
    pub fn of<B>(packet: &Packet<B>) -> Numbers
        ensures { result ≡ numbers_of packet.now }
    {
        let plain = plain(packet.sender, packet.addressee);
        match &packet.kind {
            Kind::Prepare { ballot, first } => Numbers {
                ballot: *ballot,
                from: *first,
                ..plain
            },
            Kind::Promise { ballot, floor, .. } => Numbers {
                ballot: *ballot,
                floor: floor.get(),
                ..plain
            },
            Kind::Accept { vote } => Numbers {
                ballot: vote.ballot,
                slot: vote.slot.get(),
                ..plain
            },
            Kind::Accepted { vote } => Numbers {
                ballot: vote.ballot,
                slot: vote.slot.get(),
                is_cast: true,
                ..plain
            },
            Kind::Nack { ballot, promised } => Numbers {
                ballot: *ballot,
                promised: *promised,
                ..plain
            },
            Kind::Forward { entries } => with_entries(plain, entries.as_slice()),
            Kind::Learned { slot, .. } => Numbers {
                slot: slot.get(),
                ..plain
            },
            Kind::Ask { first } => Numbers {
                from: *first,
                ..plain
            },
            Kind::Snapshot { snapshot } => Numbers {
                floor: snapshot.floor().get(),
                ..plain
            },
        }
    }
}

// Returns the numbers with those of forwarded entries.
fn with_entries<B>(numbers: Numbers, entries: &[Entry<B>]) -> Numbers
    ensures { result ≡ forward_numbers entries.now numbers }
{
    Numbers {
        count: entries.len(),
        first: entry_numbers(entries, 0),
        last: entry_numbers(entries, entries.len().saturating_sub(1)),
        ..numbers
    }
}
