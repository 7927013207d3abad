// What calls of actors answer.
use crate::check::Check;
use node_actor::{ActorFault, Entry};
use std::alloc::Global;
use std::panic::Expect;
use std::process::Abort;
use test_checks::check;

/// What a call of an actor returns.
pub type Answer<Y> = Result<Vec<Y>, ActorFault<Y>>;

/// What calls answered: what was said, what was said as its node was lost, and the numbers of nodes and of their faults.
#[derive(Drop)]
pub struct Heard<Y> {
    pub alloc: Global,
    pub says: Vec<Y>,
    pub lost: Vec<Y>,
    pub faults: Vec<(u8, u8)>,
}

impl<Y> Heard<Y> {
    pub fn nothing(alloc: Global) -> Heard<Y> {
        Heard {
            alloc,
            says: Vec::new(alloc),
            lost: Vec::new(alloc),
            faults: Vec::new(alloc),
        }
    }
}

// Takes what a call of a node answered out of the answer.
fn take_out<Y>(rt: &impl Abort, heard: &mut Heard<Y>, node: u8, done: &mut Answer<Y>) {
    let fault = match done {
        Ok(says) => return heard.says.append(says).expect(rt, "room for what is said"),
        Err(fault) => fault,
    };
    heard
        .faults
        .push((node, fault.number()))
        .expect(rt, "room for a fault");
    if let ActorFault::LostHere(says) = fault {
        heard.lost.append(says).expect(rt, "room for what is said");
    }
}

/// Keeps what a call of a node answered.
pub fn hear<Y: Drop>(rt: &impl Abort, heard: &mut Heard<Y>, node: u8, done: Answer<Y>) {
    let mut done = done;
    take_out(rt, heard, node, &mut done);
    drop(done);
}

/// Returns the number of a call's fault, 0 if it has none.
pub fn number<Y: Drop>(done: Answer<Y>) -> u8 {
    let number = match &done {
        Ok(_) => 0,
        Err(fault) => fault.number(),
    };
    drop(done);
    number
}

/// An entry without its body: the letter of its kind, its node, its boot, and its number.
pub type Told = (char, u8, u64, u64);

/// What is shown of an entry.
pub fn told<B>(entry: &Entry<B>) -> Told {
    match entry {
        Entry::Noop => ('n', 0, 0, 0),
        Entry::Boot { node, boot } => ('b', *node, *boot, 0),
        Entry::Item {
            node,
            boot,
            seq,
            ..
        } => ('i', *node, *boot, *seq),
        Entry::Lost { node, boot } => ('l', *node, *boot, 0),
    }
}

/// Asserts what a log is.
pub fn is_log<B>(rt: &impl Abort, log: &[Entry<B>], wants: &[Told]) {
    check!(rt; log.len() == wants.len());
    for (entry, want) in log.iter().zip(wants) {
        check!(rt; told(entry) == *want);
    }
}
