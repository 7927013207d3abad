// A crate above hands over what it has no more use for, which costs it nothing.
use crate::seated_actor::{Left, SeatedActor};
use node_actor::{Keeper, Machine};
use replica_machine::AppliedLog;

/// Drops an actor.
pub fn close<M: Machine, K: Keeper<M::Body> + Drop>(actor: SeatedActor<'_, M, K>) {
    drop(actor);
}

// Removes the last two, and returns the last one first.
fn popped<T: Drop>(list: &mut Vec<T>) -> Option<(T, T)> {
    let last = list.pop()?;
    let Some(before) = list.pop() else {
        drop(last);
        return None;
    };
    Some((last, before))
}

// Pushes both back, the last one last. Returns `false` if there is no second one, or if memory runs out; what is not pushed is dropped.
fn pushed<T: Drop>(list: &mut Vec<T>, last: T, before: Option<T>) -> bool {
    let Some(before) = before else {
        drop(last);
        return false;
    };
    if push(list, before) {
        push(list, last)
    } else {
        drop(last);
        false
    }
}

/// Removes the actors of nodes 1 and 2, which are a table's last, and returns them; `None` if there are not two.
pub fn pop_two<'a, M: Machine, K: Keeper<M::Body> + Drop>(
    actors: &mut Vec<SeatedActor<'a, M, K>>,
) -> Option<(SeatedActor<'a, M, K>, SeatedActor<'a, M, K>)> {
    popped(actors)
}

/// Pushes both back, `one` last. Returns `false` if there is no second one, or if memory runs out; what is not pushed is dropped.
pub fn push_two<'a, M: Machine, K: Keeper<M::Body> + Drop>(
    actors: &mut Vec<SeatedActor<'a, M, K>>,
    one: SeatedActor<'a, M, K>,
    two: Option<SeatedActor<'a, M, K>>,
) -> bool {
    pushed(actors, one, two)
}

// Appends an item. Returns whether there was memory for it.
pub(crate) fn push<T: Drop>(list: &mut Vec<T>, last: T) -> bool {
    match list.push(last) {
        Ok(()) => true,
        Err(left) => {
            drop(left);
            false
        }
    }
}

/// Drops what is left of an actor.
pub fn close_left<M: Machine>(left: Left<'_, M>) {
    drop(left);
}

/// Drops a log.
pub fn close_log<M: Machine>(log: AppliedLog<M>) {
    drop(log);
}
