// The lives of a node on its thread: it is opened over its store and run until its gate is shut. If it is lost in its boot, or behind the
// others for good, it begins its next one over the same store.
ghost use Rattle.std.specs.Prelude.{◌≡◌, [], true, false, IfOk, IfErr, OnOk};
ghost use Rattle.actor_parts.specs.Fault as actor;
ghost use Rattle.mail_table.specs.Seats.{Owns};
ghost use Rattle.node_actor.specs.Views.{StandsFor};
ghost use Rattle.serve_program.specs.declared.fault.NodeFault.TheVariants.{Lost};
ghost use Rattle.serve_program.specs.Fault.{number_of, is_fatal, IsEnding};

use crate::cluster::FreshSeat;
use crate::fault::NodeFault;
use crate::source::{Boots, Cause, Source};
use actor_run::{Gate, run_rounds};
use node_actor::{Actor, ActorFault, Body, Keeper, Machine, Mail, NodeSeat, Post};
use std::alloc::Global;

// Returns the fault, and drops the rest of the node.
fn fault_of<B: Body, Y: Drop, K: Drop>(left: (ActorFault<Y>, Post<B>, K)) -> NodeFault
    ensures { number_of result ≡ actor.number_of left.0 }
{
    let (fault, post, keeper) = left;
    drop(post);
    drop(keeper);
    NodeFault::from(fault)
}

// Opens the actor of a node that was never opened, with this machine.
fn open_with<M: Machine, K: Keeper<M::Body> + Drop>(
    alloc: Global,
    fresh: FreshSeat<'_, M::Body>,
    machine: M,
    keeper: K,
) -> Result<Actor<M, K>, NodeFault>
    requires { M.has_failed machine ≡ false }
    ensures owned { IfOk result (λ actor. Owns fresh.entry.mail.now actor.seat) }
    ensures stands { IfOk result (λ actor. StandsFor actor actor.seat) }
    ensures ending { IfErr result IsEnding }
{
    let FreshSeat {
        mail,
        members,
        seat,
    } = fresh;
    let me = seat.node();
    if me < 1 || members.count() < me {
        return Err(NodeFault::NoMember);
    }
    match Actor::open(alloc, mail, seat, me, members, machine, keeper) {
        Ok(actor) => Ok(actor),
        Err(left) => Err(fault_of(left)),
    }
}

// Opens the actor of a node that was never opened.
fn open_actor<M: Machine, K: Keeper<M::Body> + Drop, S: Source<M>>(
    alloc: Global,
    fresh: FreshSeat<'_, M::Body>,
    source: &S,
    keeper: K,
) -> Result<Actor<M, K>, NodeFault>
    ensures owned { IfOk result (λ actor. Owns fresh.entry.mail.now actor.seat) }
    ensures stands { IfOk result (λ actor. StandsFor actor actor.seat) }
    ensures ending { IfErr result IsEnding }
{
    match source.make_machine(alloc) {
        Ok(machine) => open_with(alloc, fresh, machine, keeper),
        Err(_) => Err(NodeFault::Memory),
    }
}

// Crashes the actor, and restarts it with a machine in its first content.
fn restart_with<M: Machine, K: Keeper<M::Body> + Drop>(
    alloc: Global,
    mail: &Mail<M::Body>,
    actor: Actor<M, K>,
    machine: M,
) -> Result<Actor<M, K>, NodeFault>
    requires owned { Owns mail.now actor.seat }
    requires machine { M.has_failed machine ≡ false }
    ensures owned { IfOk result (λ actor. Owns mail.now actor.seat) }
    ensures stands { IfOk result (λ actor. StandsFor actor actor.seat) }
    ensures ending { IfErr result IsEnding }
{
    let (post, keeper) = actor.crash();
    match Actor::restart(alloc, mail, post, machine, keeper) {
        Ok(actor) => Ok(actor),
        Err(left) => Err(fault_of(left)),
    }
}

// Crashes the actor, and restarts it.
fn restart_actor<M: Machine, K: Keeper<M::Body> + Drop, S: Source<M>>(
    alloc: Global,
    mail: &Mail<M::Body>,
    actor: Actor<M, K>,
    source: &S,
) -> Result<Actor<M, K>, NodeFault>
    requires owned { Owns mail.now actor.seat }
    ensures owned { IfOk result (λ actor. Owns mail.now actor.seat) }
    ensures stands { IfOk result (λ actor. StandsFor actor actor.seat) }
    ensures ending { IfErr result IsEnding }
{
    match source.make_machine(alloc) {
        Ok(machine) => restart_with(alloc, mail, actor, machine),
        Err(_) => {
            drop(actor);
            Err(NodeFault::Memory)
        }
    }
}

// Returns the fault that ends a node, or nothing if the node was only lost.
fn judge_end(fault: NodeFault) -> Result<(), NodeFault>
    requires { is_fatal fault ≡ true }
    ensures lost { OnOk result (fault ≡ Lost) }
    ensures ending { IfErr result IsEnding }
{
    match fault {
        NodeFault::Lost => Ok(()),
        fault => Err(fault),
    }
}

// Runs the actor by rounds until its gate lets no further one pass, or until it is lost in its boot. Returns why the node begins another boot, if it
// does. Any other fault is returned.
fn run_boot<M: Machine, K: Keeper<M::Body>, G: Gate, F: Boots<M::Body, M::Say>>(
    alloc: Global,
    mail: &Mail<M::Body>,
    actor: &mut Actor<M, K>,
    gate: &G,
    feed: &mut F,
) -> Result<Option<Cause>, NodeFault>
    requires owned { Owns mail.now actor.old.seat }
    requires stands { StandsFor actor.old actor.old.seat }
    requires told { F.saw feed.old [] [] }
    ensures owned { Owns mail.now actor.new.seat }
    ensures ending { IfErr result IsEnding }
{
    match run_rounds(alloc, mail, actor, gate, feed) {
        Ok(()) => Ok(feed.is_behind().then_some(Cause::Behind)),
        Err(fault) => match judge_end(NodeFault::from(fault)) {
            Ok(()) => Ok(Some(Cause::Lost)),
            Err(fault) => Err(fault),
        },
    }
}

// Returns the seat of an actor whose gate is shut.
fn leave<M: Machine, K: Keeper<M::Body> + Drop>(actor: Actor<M, K>) -> NodeSeat<M::Body>
    ensures { result ≡ actor.seat }
{
    let (seat, log) = actor.leave();
    drop(log);
    seat
}

/// Opens the node at this seat over its store, with a machine from the source, and runs it until its gate is shut; returns its seat. A node
/// that is lost, or behind for good, is crashed and restarted over the same store, which has not failed, with a new machine. The feed notes
/// each boot.
///
/// Any other fault ends the node and is returned: `NoMember` for a seat of no member, `Memory` if the source has none, the actor's or the
/// store's. It is never `Lost`, nor `Rounds` or `Full`, which end no run. Seat, machine and store are dropped then.
pub(crate) fn run_lives<M, K, S, G, F>(
    alloc: Global,
    fresh: FreshSeat<'_, M::Body>,
    source: &S,
    keeper: K,
    gate: &G,
    feed: &mut F,
) -> Result<NodeSeat<M::Body>, NodeFault>
where
    M: Machine,
    K: Keeper<M::Body> + Drop,
    S: Source<M>,
    G: Gate,
    F: Boots<M::Body, M::Say>,
    ensures owned { IfOk result (λ seat. Owns fresh.entry.mail.now seat) }
    ensures ending { IfErr result IsEnding }
{
    let mail = fresh.mail;
    let mut actor = open_actor::<M, K, S>(alloc, fresh, source, keeper)?;
    feed.up(actor.me(), actor.boot());
    for _ in 0..u64::MAX {
        let cause = match run_boot(alloc, mail, &mut actor, gate, feed) {
            Ok(Some(cause)) => cause,
            Ok(None) => return Ok(leave(actor)),
            Err(fault) => {
                drop(actor);
                return Err(fault);
            }
        };
        actor = restart_actor(alloc, mail, actor, source)?;
        feed.up_again(actor.me(), actor.boot(), cause);
    }
    Ok(leave(actor))
}
