// What actors answer, and turns in rotation.
use crate::check::Check;
use crate::hearing::{Heard, Told, told};
use node_actor::{Entry, Keeper, Machine};
use std::process::Abort;
use test_checks::{check, check_eq};
use test_stands::{Answer, SeatedActor, count_of, told_of};

// How often each node turns at most.
const MOST_ROUNDS: u32 = 1_000;

fn put_all<Y: Drop>(rt: &impl Abort, says: &mut Vec<Y>, more: Option<Vec<Y>>) {
    let Some(more) = more else {
        return;
    };
    for say in more {
        says.push(say).expect(rt, "room for what is said");
    }
}

fn hear_fault<Y: Drop>(
    rt: &impl Abort,
    heard: &mut Heard<Y>,
    fault: (u8, u8),
    says: Option<Vec<Y>>,
) {
    put_all(rt, &mut heard.lost, says);
    heard.faults.push(fault).expect(rt, "room for a fault");
}

/// Keeps what a call of a node answered.
pub fn hear<Y: Drop>(rt: &impl Abort, heard: &mut Heard<Y>, node: u8, done: Answer<Y>) {
    let (says, number) = told_of(done);
    if number == 0 {
        put_all(rt, &mut heard.says, says);
    } else {
        hear_fault(rt, heard, (node, number), says);
    }
}

/// Returns the number of a call's fault, 0 if it has none.
pub fn number<Y: Drop>(done: Answer<Y>) -> u8 {
    match count_of(done) {
        Ok(_) => 0,
        Err(number) => number,
    }
}

/// The actor of a node among those of the last node, the one before, and so on.
pub fn at<'t, 'a, M: Machine, K: Keeper<M::Body>>(
    rt: &impl Abort,
    actors: &'t mut [SeatedActor<'a, M, K>],
    node: u8,
) -> &'t mut SeatedActor<'a, M, K> {
    let place = actors.len().saturating_sub(usize::from(node));
    actors.get_mut(place).expect(rt, "a node")
}

// A turn of one node; whether a packet moved.
fn turn<M: Machine, K: Keeper<M::Body>>(
    rt: &impl Abort,
    actor: &mut SeatedActor<'_, M, K>,
    heard: &mut Heard<M::Say>,
    node: u8,
) -> bool {
    let done = actor.turn();
    let moved = done.is_ok() && actor.has_moved();
    hear(rt, heard, node, done);
    moved
}

// A turn of each node, of node 1 first; whether a packet moved.
fn round<M: Machine, K: Keeper<M::Body>>(
    rt: &impl Abort,
    actors: &mut [SeatedActor<'_, M, K>],
    heard: &mut Heard<M::Say>,
) -> bool {
    let mut moved = false;
    for node in 1..=3 {
        moved = turn(rt, at(rt, actors, node), heard, node) || moved;
    }
    moved
}

/// All nodes turn, one after another, until no packet is left that can go.
pub fn all_turns<M: Machine, K: Keeper<M::Body>>(
    rt: &impl Abort,
    actors: &mut [SeatedActor<'_, M, K>],
    heard: &mut Heard<M::Say>,
) {
    for _ in 0..MOST_ROUNDS {
        if !round(rt, actors, heard) {
            return;
        }
    }
    panic!(rt; "packets without end")
}

// Whether these are the entries.
fn are_told<B>(log: &[Entry<B>], wants: &[Told]) -> bool {
    for (entry, want) in log.iter().zip(wants) {
        if told(entry) != *want {
            return false;
        }
    }
    log.len() == wants.len()
}

/// Asserts what the log of a node is.
pub fn has_log<M: Machine, K: Keeper<M::Body>>(
    rt: &impl Abort,
    actor: &SeatedActor<'_, M, K>,
    wants: &[Told],
) {
    check!(rt; are_told(actor.log(), wants));
}

/// Asserts what the logs of all three nodes are.
pub fn have_log<M: Machine, K: Keeper<M::Body>>(
    rt: &impl Abort,
    actors: &[SeatedActor<'_, M, K>],
    wants: &[Told],
) {
    check_eq!(rt; actors.len(), 3);
    for actor in actors {
        has_log(rt, actor, wants);
    }
}
