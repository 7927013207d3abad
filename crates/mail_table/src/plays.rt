//! The rule of the table, and what each step on it means.
ghost use Rattle.mail_table.specs.Boxes.{KeptIn, rising, behind_first, first_alone, Claims, Delivers, Fetches, Clears, Advances, Renews, SeeksEmpty, SeeksFull};

use crate::batch::Batch;
use crate::part::View;
use crate::size::Size;
use atomic_table::{Join, Play, Seat, Split, Table, TableRule};
use paxos_packets::Body;
use std::alloc::Global;
use std::marker::{Brand, PhantomData};

/// The rule of the table: each box is in one of four states and holds a batch of at most so many packets, packets come out in the order in
/// which they went in, each once, and some world that events lead to has just the nodes that all seats know.
pub struct InOrder;

impl<B: Body> TableRule<Option<Batch<B>>, View<B>, Size> for InOrder {
    ghost holds = { KeptIn B.same };

    ghost first = { λ size. rising 0 size.nodes };
}

// A table of boxes, and a seat at one.
pub(crate) type Boxes<B> = Table<Option<Batch<B>>, View<B>, Size, InOrder, Global>;

pub(crate) type Token<B> = Seat<Option<Batch<B>>, View<B>>;

// The eight kinds of step that the protocol has, and no others: claim, deliver, fetch, clear, advance, renew, deal, collect.

// A box is claimed by its sender, or the try is lost.
pub(crate) struct Claim;

impl<B> Play<Option<Batch<B>>, View<B>> for Claim {
    ghost then = { Claims };
}

// A batch goes into the claimed box.
pub(crate) struct Deliver;

impl<B> Play<Option<Batch<B>>, View<B>> for Deliver {
    ghost then = { Delivers };
}

// How many packets a box holds at most. Each call of `empty_out` picks it.
pub(crate) trait Holding {
    ghost use Rattle.std.specs.Prelude.{ℕ};

    ghost most: { ℕ };
}

impl Holding for Brand {
    ghost most = { 0 };
}

// The batch is taken out of a full box by its addressee, or the try is lost.
pub(crate) struct Fetch<J> {
    of: PhantomData<J>,
}

impl<B, J: Holding> Play<Option<Batch<B>>, View<B>> for Fetch<J> {
    ghost then = { Fetches J.most };
}

// The box is empty again.
pub(crate) struct Clear;

impl<B> Play<Option<Batch<B>>, View<B>> for Clear {
    ghost then = { Clears };
}

// What an event makes of a node. Each call of `advance_as` picks it.
pub(crate) trait Telling<B> {
    ghost use Rattle.std.specs.Prelude.{List};
    ghost use Rattle.paxos_packets.specs.declared.packet.Packet.{Packet};
    ghost use Rattle.paxos_planning.specs.Node.{NodeState};

    ghost node: { NodeState B };

    ghost packets: { List (Packet B) };
}

impl<B> Telling<B> for Brand {
    ghost use Rattle.std.specs.Prelude.{[]};
    ghost use Rattle.cluster_world.specs.World.{absent};

    ghost node = { absent };

    ghost packets = { [] };
}

// A node takes a step of the core.
pub(crate) struct Advance<J> {
    of: PhantomData<J>,
}

impl<B, J: Telling<B>> Play<Option<Batch<B>>, View<B>> for Advance<J> {
    ghost then = { Advances J.node J.packets };
}

// The rows that a node begins with. Each call of `renew_as` picks them.
pub(crate) trait Beginning<B> {
    ghost use Rattle.paxos_packets.specs.declared.rows.Rows.{Rows};

    ghost rows: { Rows B };
}

impl<B> Beginning<B> for Brand {
    ghost use Rattle.paxos_packets.specs.Rows.{first_rows};

    ghost rows = { first_rows };
}

// A node is opened, or begins anew.
pub(crate) struct Renew<J> {
    of: PhantomData<J>,
}

impl<B, J: Beginning<B>> Play<Option<Batch<B>>, View<B>> for Renew<J> {
    ghost then = { Renews J.rows };
}

// The founder hands out the first part of its view.
pub(crate) struct Deal;

impl<B> Split<View<B>> for Deal {
    ghost left = { behind_first };

    ghost right = { first_alone };
}

// The gatherer takes in another's view.
pub(crate) struct Collect;

impl<B> Join<View<B>> for Collect {
    ghost use Rattle.std.specs.Prelude.{[], ◌++◌};

    ghost both = { λ v w. v ++ w };

    ghost spent = { [] };
}

// The two loads, before a claim and before a fetch. They are no steps of the protocol: each leaves every word and every slot as it was, and of
// the views it changes at most that of its seat, whose try is lost then (`laws::loads`).

// The box is found to be empty, or its sender's try is lost.
pub(crate) struct SeekEmpty;

impl<B> Play<Option<Batch<B>>, View<B>> for SeekEmpty {
    ghost then = { SeeksEmpty };
}

// The box is found to be full, or its addressee's try is lost.
pub(crate) struct SeekFull;

impl<B> Play<Option<Batch<B>>, View<B>> for SeekFull {
    ghost then = { SeeksFull };
}
