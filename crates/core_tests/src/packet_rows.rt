// Packets and entries as rows, and those of one session through three nodes.
use paxos_packets::{Ballot, Body, Entries, Entry, Floor, Kind, Packet, Slot, Vote, Votes};
use std::alloc::Global;
use std::panic::Expect;
use std::process::Abort;
use test_machines::Number;

// An entry.
#[derive(Clone, Copy, Debug)]
pub enum Held {
    // A node's Boot, in this boot.
    Boot(u8, u64),
    // The loss of a node in this boot.
    Lost(u8, u64),
    // An Item of a node in its boot: its number there, its transport, and its body.
    Item(u8, u64, u64, u32, u32),
}

// The kind of a packet.
#[derive(Clone, Copy, Debug)]
pub enum Says {
    Prepare,
    Promise,
    Accept,
    Accepted,
    Forward,
}

// A packet: its kind, its sender and its addressee, its ballot by round and node, its slot (or the first that is asked for), and its entries.
pub type Mail = (Says, u8, u8, (u64, u8), u64, &'static [Held]);

pub const FIRST: Held = Held::Boot(1, 1);

pub const SECOND: Held = Held::Boot(2, 1);

pub const FIVE: Held = Held::Item(2, 1, 1, 1, 5);

pub const SIX: Held = Held::Item(2, 1, 2, 1, 6);

// The log of each node after the session.
pub const LOG: &[Held] = &[FIRST, SECOND, FIVE, SIX];

// The packets of the session, in the order in which they are sent.
pub const PACKETS: &[Mail] = &[
    // node 1 begins a ballot
    (Says::Prepare, 1, 2, (1, 1), 1, &[]),
    (Says::Prepare, 1, 3, (1, 1), 1, &[]),
    // both promise it
    (Says::Promise, 2, 1, (1, 1), 0, &[]),
    (Says::Promise, 3, 1, (1, 1), 0, &[]),
    // the first promise makes a majority, and node 1 proposes its Boot
    (Says::Accept, 1, 2, (1, 1), 1, &[FIRST]),
    (Says::Accept, 1, 3, (1, 1), 1, &[FIRST]),
    (Says::Accepted, 1, 2, (1, 1), 1, &[FIRST]),
    (Says::Accepted, 1, 3, (1, 1), 1, &[FIRST]),
    (Says::Accepted, 2, 1, (1, 1), 1, &[FIRST]),
    (Says::Accepted, 2, 3, (1, 1), 1, &[FIRST]),
    (Says::Accepted, 3, 1, (1, 1), 1, &[FIRST]),
    (Says::Accepted, 3, 2, (1, 1), 1, &[FIRST]),
    // node 2 takes 5, then 6, and forwards all that is pending
    (Says::Forward, 2, 1, (0, 0), 0, &[SECOND, FIVE]),
    (Says::Forward, 2, 1, (0, 0), 0, &[SECOND, FIVE, SIX]),
    // of the first node 1 proposes both entries, of the second what is left
    (Says::Accept, 1, 2, (1, 1), 2, &[SECOND]),
    (Says::Accept, 1, 3, (1, 1), 2, &[SECOND]),
    (Says::Accepted, 1, 2, (1, 1), 2, &[SECOND]),
    (Says::Accepted, 1, 3, (1, 1), 2, &[SECOND]),
    (Says::Accept, 1, 2, (1, 1), 3, &[FIVE]),
    (Says::Accept, 1, 3, (1, 1), 3, &[FIVE]),
    (Says::Accepted, 1, 2, (1, 1), 3, &[FIVE]),
    (Says::Accepted, 1, 3, (1, 1), 3, &[FIVE]),
    (Says::Accept, 1, 2, (1, 1), 4, &[SIX]),
    (Says::Accept, 1, 3, (1, 1), 4, &[SIX]),
    (Says::Accepted, 1, 2, (1, 1), 4, &[SIX]),
    (Says::Accepted, 1, 3, (1, 1), 4, &[SIX]),
    // the others vote, slot by slot
    (Says::Accepted, 2, 1, (1, 1), 2, &[SECOND]),
    (Says::Accepted, 2, 3, (1, 1), 2, &[SECOND]),
    (Says::Accepted, 3, 1, (1, 1), 2, &[SECOND]),
    (Says::Accepted, 3, 2, (1, 1), 2, &[SECOND]),
    (Says::Accepted, 2, 1, (1, 1), 3, &[FIVE]),
    (Says::Accepted, 2, 3, (1, 1), 3, &[FIVE]),
    (Says::Accepted, 3, 1, (1, 1), 3, &[FIVE]),
    (Says::Accepted, 3, 2, (1, 1), 3, &[FIVE]),
    (Says::Accepted, 2, 1, (1, 1), 4, &[SIX]),
    (Says::Accepted, 2, 3, (1, 1), 4, &[SIX]),
    (Says::Accepted, 3, 1, (1, 1), 4, &[SIX]),
    (Says::Accepted, 3, 2, (1, 1), 4, &[SIX]),
];

// Returns the entry of a row.
pub fn entry_of(held: &Held) -> Entry<Number> {
    match *held {
        Held::Boot(node, boot) => Entry::Boot { node, boot },
        Held::Lost(node, boot) => Entry::Lost { node, boot },
        Held::Item(node, boot, seq, transport, body) => Entry::Item {
            node,
            boot,
            seq,
            transport,
            body: Number::new(body),
        },
    }
}

// The entries of rows.
fn entries_of(rt: &impl Abort, alloc: Global, rows: &[Held]) -> Entries<Number> {
    let mut entries = Entries::new(alloc);
    for held in rows {
        entries
            .push(entry_of(held))
            .expect(rt, "memory for an entry");
    }
    entries
}

// The vote for the one entry of a row.
fn vote_of(rt: &impl Abort, mail: &Mail) -> Vote<Number> {
    let (_, _, _, (round, node), slot, held) = *mail;
    let slot = Slot::new(slot).expect(rt, "a slot");
    let held = held.first().expect(rt, "an entry");
    Vote {
        slot,
        ballot: Ballot { round, node },
        entry: entry_of(held),
    }
}

// Returns what a packet says.
fn kind_of(rt: &impl Abort, alloc: Global, mail: &Mail) -> Kind<Number> {
    let (says, _, _, (round, node), first, held) = *mail;
    let ballot = Ballot { round, node };
    match says {
        Says::Prepare => Kind::Prepare { ballot, first },
        Says::Promise => Kind::Promise {
            ballot,
            floor: Floor::none(),
            votes: Votes::new(alloc),
        },
        Says::Accept => Kind::Accept {
            vote: vote_of(rt, mail),
        },
        Says::Accepted => Kind::Accepted {
            vote: vote_of(rt, mail),
        },
        Says::Forward => Kind::Forward {
            entries: entries_of(rt, alloc, held),
        },
    }
}

// The packet of a row.
pub fn packet_of(rt: &impl Abort, alloc: Global, mail: &Mail) -> Packet<Number> {
    Packet {
        sender: mail.1,
        addressee: mail.2,
        kind: kind_of(rt, alloc, mail),
    }
}

// Whether the packet is that of a row.
pub fn is_mail(rt: &impl Abort, alloc: Global, packet: &Packet<Number>, mail: &Mail) -> bool {
    let wanted = packet_of(rt, alloc, mail);
    let is_so = packet.same(&wanted);
    drop(wanted);
    is_so
}

// Whether the entry is that of a row.
fn is_held(entry: &Entry<Number>, held: &Held) -> bool {
    let wanted = entry_of(held);
    let is_so = entry.same(&wanted);
    drop(wanted);
    is_so
}

// Whether a log holds the entries of these rows, in order.
pub fn is_log(log: &[Entry<Number>], rows: &[Held]) -> bool {
    if log.len() != rows.len() {
        return false;
    }
    for place in 0..rows.len() {
        if !is_held(&log[place], &rows[place]) {
            return false;
        }
    }
    true
}
