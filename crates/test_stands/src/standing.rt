// A table with an actor at each seat, lent to what is done with them.
ghost use Rattle.std.specs.Prelude.{◌≡◌, All, false};
ghost use Rattle.test_stands.specs.Fresh.{IsFresh};

use crate::closing::push;
use crate::seated_actor::{SeatedActor, again, open_actor};
use mail_table::{Mail, NodeSeat, Office, found, found_for_batches};
use node_actor::{Keeper, Machine, Members};
use std::alloc::Global;

/// The number of nodes that a table has here.
pub const NODES: u8 = 3;

/// Where the machine and the store of each node come from.
pub trait Source<M: Machine, K: Keeper<M::Body>> {
    /// Returns a machine in its first content.
    fn machine(&self, alloc: Global) -> M
        ensures { M.has_failed result ≡ false };

    /// Returns the store of the node with this number.
    fn keeper(&self, alloc: Global, node: u8) -> K;
}

/// What is done with the actors of a table.
pub trait Plays<M: Machine, K: Keeper<M::Body>> {
    /// What comes of it.
    type End;

    /// Goes over the actors, that of the last node first.
    fn play(&mut self, actors: &mut Vec<SeatedActor<'_, M, K>>) -> Self::End;
}

// Opens actors at these seats, that of the last node first, and appends them to `actors`. Returns whether each was opened.
fn open_all<'a, M: Machine, K: Keeper<M::Body> + Drop, S: Source<M, K>>(
    alloc: Global,
    mail: &'a Mail<M::Body>,
    seats: &mut Vec<NodeSeat<M::Body>>,
    members: Members,
    source: &S,
    actors: &mut Vec<SeatedActor<'a, M, K>>,
) -> bool
    requires fresh { All (IsFresh mail.now) seats.old.items }
    requires members { members ≡ mail.now.members }
{
    for _ in 0..members.count() {
        let Some(seat) = seats.pop() else {
            return false;
        };
        let (machine, keeper) = (source.machine(alloc), source.keeper(alloc, seat.node()));
        let Some(actor) = again(open_actor(alloc, mail, seat, members, machine, keeper)) else {
            return false;
        };
        if !push(actors, actor) {
            return false;
        }
    }
    true
}

// Returns what comes of it at this table; `None` if an actor could not be opened.
fn played<M: Machine, K: Keeper<M::Body> + Drop, S: Source<M, K>, P: Plays<M, K>>(
    alloc: Global,
    mail: &Mail<M::Body>,
    seats: &mut Vec<NodeSeat<M::Body>>,
    members: Members,
    source: &S,
    plays: &mut P,
) -> Option<P::End>
    requires fresh { All (IsFresh mail.now) seats.old.items }
    requires members { members ≡ mail.now.members }
{
    let mut actors = Vec::new(alloc);
    let end = if open_all(alloc, mail, seats, members, source, &mut actors) {
        Some(plays.play(&mut actors))
    } else {
        None
    };
    drop(actors);
    end
}

// Returns what comes of it at this table, which is dropped; `None` if an actor could not be opened.
fn played_at<M: Machine, K: Keeper<M::Body> + Drop, S: Source<M, K>, P: Plays<M, K>>(
    alloc: Global,
    mail: Mail<M::Body>,
    seats: Vec<NodeSeat<M::Body>>,
    members: Members,
    source: &S,
    plays: &mut P,
) -> Option<P::End>
    requires fresh { All (IsFresh mail) seats.items }
    requires members { members ≡ mail.members }
{
    let mut seats = seats;
    let end = played(alloc, &mail, &mut seats, members, source, plays);
    drop(seats);
    drop(mail);
    end
}

/// Does what `with_actors` does at a table for batches, where each turn is a round.
pub fn with_actors_by_rounds<
    M: Machine,
    K: Keeper<M::Body> + Drop,
    S: Source<M, K>,
    P: Plays<M, K>,
>(alloc: Global, source: &S, plays: &mut P) -> Option<P::End> {
    let members = Members::new(NODES)?;
    let mut office = Office::new();
    let Ok((mail, seats)) = found_for_batches::<M::Body>(alloc, &mut office, members) else {
        return None;
    };
    played_at(alloc, mail, seats, members, source, plays)
}

/// Founds a table of three nodes, opens an actor at each seat, with a machine and a store of this source, and lends them to what is done
/// with them. Returns what comes of it; `None` if an actor could not be opened.
pub fn with_actors<M: Machine, K: Keeper<M::Body> + Drop, S: Source<M, K>, P: Plays<M, K>>(
    alloc: Global,
    source: &S,
    plays: &mut P,
) -> Option<P::End> {
    let members = Members::new(NODES)?;
    let mut office = Office::new();
    let Ok((mail, seats)) = found::<M::Body>(alloc, &mut office, members) else {
        return None;
    };
    played_at(alloc, mail, seats, members, source, plays)
}
