// How a node begins a boot: from its post to the node, its outboxes and its seat.
ghost use Rattle.std.specs.Prelude.{◌≡◌, IfOk, IfErr};
ghost use Rattle.mail_table.specs.Seats.{Owns};
ghost use Rattle.paxos_packets.specs.Rows.{last_boot};
ghost use Rattle.std.specs.Prelude.{◌≤◌, None, Some};
ghost use Rattle.node_actor.specs.Posts.{IsLeft, renewed};
ghost use Rattle.node_actor.specs.Beginning.{Begins, IsNodeOf, Leaves, MayBegin, seat_before};
ghost use Rattle.node_actor.specs.Preparing.{Refuses};
ghost use Rattle.node_actor.specs.Snapshots.{IsFirstLog};

use crate::post::Post;
use crate::preparing::{Ready, prepare};
use crate::resuming::take_seat;
use actor_outboxes::Outboxes;
use actor_parts::ActorFault;
use mail_table::{Mail, NodeSeat};
use paxos_node::Node;
use paxos_packets::Body;
use replica_machine::{AppliedLog, Machine};
use std::alloc::Global;
use store_keeper::Keeper;

// A node that has just begun: the node, its outboxes, in which nothing waits, and its seat at the table.
#[derive(Drop)]
pub(crate) struct Begun<B: Body> {
    pub(crate) node: Node<B>,
    pub(crate) outboxes: Outboxes<B>,
    pub(crate) seat: NodeSeat<B>,
}

// Begins a boot of the node from what is left of it, with its store opened again. Opens the node if it was never opened; otherwise goes on
// from its rows, or from those that a failed commit was to leave, whose events' steps it takes first. Returns also the log with which it begins:
// that of the snapshot in its rows, or the empty one with this machine.
//
// After a fault the post is handed back, and serves again. `KeeperFault::Damaged` if the store has other rows, or no log is made of their
// snapshot; no boot is begun then. Never otherwise if it returns what was written. `Worn` if the node's word cannot count more events; no boot is
// begun then, either.
pub(crate) fn begin<M: Machine, K: Keeper<M::Body>>(
    alloc: Global,
    mail: &Mail<M::Body>,
    post: Post<M::Body>,
    machine: M,
    keeper: &mut K,
) -> Result<(Begun<M::Body>, AppliedLog<M>), (ActorFault<M::Say>, Post<M::Body>)>
    requires owned { Owns mail.now post.seat }
    ensures ok { IfOk result (λ it.
        Begins M.Body.same K.holds K.is_faithful K.is_failed post keeper.old keeper.new it.0.node it.0.outboxes it.0.seat) }
    ensures log { IfOk result (λ it. IsFirstLog M.content M.loaded machine it.0.node.state.rows.snapshot it.1) }
    ensures refuses { IfErr result (λ e. Refuses M.Body.same M.loaded K.holds K.finds K.is_faithful K.failures post keeper.old keeper.new e.0) }
    ensures leaves { IfErr result (λ e. Leaves M.Body.same K.holds K.is_faithful post keeper.old keeper.new e.1 e.0) }
    ensures owned { IfOk result (λ it. Owns mail.now it.0.seat) }
    ensures still_owned { IfErr result (λ e. Owns mail.now e.1.seat) }
    ensures left { IsLeft M.Body.same post }
{
    match prepare(alloc, &post, machine, keeper) {
        Err(fault) => Err((fault, post)),
        Ok((ready, log)) => match sit(alloc, mail, post, ready) {
            Err(post) => {
                drop(log);
                Err((ActorFault::Memory, post))
            },
            Ok(begun) => Ok((begun, log)),
        },
    }
}

// Returns the node and its seat, after the boot. If memory runs out, returns the post, which is one of the new boot.
fn sit<B: Body>(
    alloc: Global,
    mail: &Mail<B>,
    post: Post<B>,
    ready: Ready<B>,
) -> Result<Begun<B>, Post<B>>
    requires owned { Owns mail.now post.seat }
    requires may { MayBegin post ready.rows ready.meant }
    requires within { ready.rows.boot ≤ last_boot }
    ensures node { IfOk result (λ begun. IsNodeOf post.me post.members ready.rows begun.node) }
    ensures outboxes { IfOk result (λ begun. begun.outboxes ≡ ready.outboxes) }
    ensures seat { IfOk result (λ begun. begun.seat ≡ renewed ready.rows (seat_before B.same ready.meant post.failed post.seat)) }
    ensures owned { IfOk result (λ begun. Owns mail.now begun.seat) }
    ensures left { IfErr result (λ left. left ≡ record {
      me = post.me;
      members = post.members;
      rows = Some ready.rows;
      failed = None;
      seat = renewed ready.rows (seat_before B.same ready.meant post.failed post.seat);
    }) }
    ensures still_owned { IfErr result (λ left. Owns mail.now left.seat) }
{
    let me = post.me();
    let members = post.members();
    let Ready {
        rows,
        outboxes,
        meant,
    } = ready;
    let seat = take_seat(mail, post, meant, &rows);
    match Node::begin(alloc, me, members, rows) {
        Ok(node) => Ok(Begun {
            node,
            outboxes,
            seat,
        }),
        Err(rows) => Err(Post::of(me, members, Some(rows), None, seat)),
    }
}
