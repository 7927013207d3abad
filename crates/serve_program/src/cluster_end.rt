//! What the nodes of a cluster leave at its end.
ghost use Rattle.std.specs.Prelude.{◌≡◌, All, IfSome};
ghost use Rattle.mail_table.specs.Seats.{Owns};
ghost use Rattle.serve_program.specs.ClusterEnd.{AgreesAtEnd};

use mail_table::{Mail, NodeSeat};
use realm_machine::Act;
use std::snapshot::Snapshot;

/// What the nodes of a cluster knew at its end, if all of them were still running.
#[derive(Drop)]
pub struct ClusterEnd {
    /// How long each node's log was, node 1 first; 0 for a node that is no member.
    pub lengths: [u64; 7],
    /// The nodes' seats as clauses see them; it has no bytes.
    pub seats: Snapshot<Vec<NodeSeat<Act>>>,
}

/// Gathers the seats of a cluster's nodes, and frees its table. Returns nothing if the seat of a node is missing.
pub(crate) fn gather_seats(mail: Mail<Act>, seats: Vec<NodeSeat<Act>>) -> Option<ClusterEnd>
    requires { All (λ s. Owns mail s) seats.items }
    ensures { IfSome result (AgreesAtEnd mail.members) }
{
    let known = Snapshot::of(&seats);
    match mail.gather(seats) {
        Ok(lengths) => Some(ClusterEnd {
            lengths,
            seats: known,
        }),
        Err(left) => {
            drop(left);
            None
        }
    }
}
