// A cluster's table, named by a type, so that what crosses to a thread and back belongs to that table by its type alone; and the seats of
// its nodes before and after they run.
ghost use Rattle.std.specs.Prelude.{◌≡◌};
ghost use Rattle.mail_table.specs.Seats.{Mailed, Owns};
ghost use Rattle.paxos_node.specs.declared.view.Opened.TheVariants.{Never};

use node_actor::{Body, Mail, Members, NodeSeat};
use realm_machine::Act;
use std::marker::{Brand, PhantomData};

/// A cluster that runs, known by its table.
pub(crate) trait Cluster {
    ghost table: { Mailed };
}

impl Cluster for Brand {
    ghost table = { record { office = record { number = 0; log_name = 0; cells_name = 0 }; table = 0; members = 0; most = 0 } };
}

/// The seat of a node that was never opened, the table that owns it, and the members of the cluster.
#[derive(Drop)]
pub(crate) struct FreshSeat<'a, B: Body> {
    pub mail: &'a Mail<B>,
    pub members: Members,
    pub seat: NodeSeat<B>,
    ghost owned: { Owns mail.now seat },
    ghost unopened: { seat.part.seen.opened ≡ Never },
    ghost table: { members ≡ mail.now.members },
}

impl<B: Body> FreshSeat<'_, B> {
    /// Returns the number of the node.
    pub fn node(&self) -> u8
        ensures { result ≡ self.now.seat.part.me }
    {
        self.seat.node()
    }
}

/// The seat of a node of the cluster whose gate was shut.
#[derive(Drop)]
pub(crate) struct Left<C: Cluster> {
    pub seat: NodeSeat<Act>,
    pub of: PhantomData<C>,
    ghost owned: { Owns C.table seat },
}
