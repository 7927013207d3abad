// How the seat of a post goes on: by the steps of events whose commit failed, and by a renewal.
ghost use Rattle.std.specs.Prelude.{◌≡◌, ◌<◌, ◌≤◌, ◌+◌, ◌^◌, Some, true};
ghost use Rattle.paxos_packets.specs.Rows.{last_boot};
ghost use Rattle.actor_parts.specs.declared.tried.FailedCommit as meanings;
ghost use Rattle.mail_table.specs.Covered.{MayRenew};
ghost use Rattle.mail_table.specs.Seats.{Owns};
ghost use Rattle.node_actor.specs.Posts.{renewed, IsLeft, MayYet};
ghost use Rattle.node_actor.specs.Preparing.{count_in};
ghost use Rattle.node_actor.specs.Beginning.{MayBegin, seat_before};

use crate::flushing::step_all;
use crate::post::Post;
use actor_parts::FailedCommit;
use mail_table::{Mail, NodeSeat};
use paxos_packets::{Body, Rows};

// Returns the seat of the post, whose node has begun with these rows; before that it has taken the steps of the events whose commit
// failed, if `meant`.
pub(crate) fn take_seat<B: Body>(
    mail: &Mail<B>,
    post: Post<B>,
    meant: bool,
    rows: &Rows<B>,
) -> NodeSeat<B>
    requires owned { Owns mail.now post.seat }
    requires may { MayBegin post rows.now meant }
    requires within { rows.now.boot ≤ last_boot }
    ensures seat { result ≡ renewed rows.now (seat_before B.same meant post.failed post.seat) }
    ensures owned { Owns mail.now result }
    ensures left { IsLeft B.same post }
{
    let (failed, mut seat) = post.into_parts();
    if meant {
        make_steps(mail, &mut seat, &failed);
    }
    drop(failed);
    make_anew(mail, &mut seat, rows);
    seat
}

// Takes the steps of the events whose commit failed.
fn make_steps<B: Body>(mail: &Mail<B>, seat: &mut NodeSeat<B>, failed: &Option<FailedCommit<B>>)
    requires owned { Owns mail.now seat.old }
    requires may { (m : meanings.FailedCommit B) → failed.now ≡ Some m → MayYet B.same mail.now.members seat.old.part m }
    requires counts { seat.old.part.events + count_in failed.now < 2 ^ 62 }
    ensures steps { seat.new ≡ seat_before B.same true failed.now seat.old }
    ensures owned { Owns mail.now seat.new }
{
    match failed {
        None => {},
        Some(FailedCommit::One { outcome }) => {
            let Ok(()) = mail.advance(seat, outcome) else {
                unreachable!();
            };
        }
        Some(FailedCommit::Round { tried, .. }) => step_all(mail, seat, tried.as_slice()),
    }
}

// Begins the seat's node with these rows.
fn make_anew<B: Body>(mail: &Mail<B>, seat: &mut NodeSeat<B>, rows: &Rows<B>)
    requires owned { Owns mail.now seat.old }
    requires may { MayRenew seat.old.part.seen.opened seat.old.part.seen.node rows.now }
    requires counts { seat.old.part.events < 2 ^ 62 }
    ensures seat { seat.new ≡ renewed rows.now seat.old }
    ensures owned { Owns mail.now seat.new }
{
    let Ok(()) = mail.renew(seat, rows) else {
        unreachable!();
    };
}
