// Empties a client's ring once nothing more is put into it.
ghost use Rattle.std.specs.Prelude.{◌≡◌, ◌+◌, ◌≤◌, ◌++◌, [], length, IfOk, IfErr, OnErr, vec_len, vec_capacity};
ghost use Rattle.rtrb.specs.Ring.{all_sent, known_items, received, IsFinishedOf, SameConsumer};

use crate::fault::ListenFault;
use crate::items::FromClient;
use rtrb::{Consumer, Finished};
use std::alloc::Global;

/// Takes what is left in a client's ring once its reader has finished, oldest first. What was taken out of the ring before, followed by this,
/// is what the reader put, in order, each item once; the ring is empty then.
///
/// `Memory`, with the `Finished` handed back, if memory for the items ran out: nothing was taken, and it may be tried again.
pub fn drain(
    alloc: Global,
    consumer: &mut Consumer<FromClient>,
    finished: Finished<FromClient>,
) -> Result<Vec<FromClient>, (ListenFault, Finished<FromClient>)>
    requires { IsFinishedOf finished consumer.old }
    ensures order { IfOk result (λ left. received consumer.old ++ left.items ≡ all_sent finished) }
    ensures taken { IfOk result (λ left. received consumer.new ≡ received consumer.old ++ left.items) }
    ensures fault { IfErr result (λ refused. refused.0 ≡ ListenFault.Memory) }
    ensures handed_back { IfErr result (λ refused. IsFinishedOf refused.1 consumer.new × (all_sent refused.1 ≡ all_sent finished)) }
    ensures kept { OnErr result (received consumer.new ≡ received consumer.old) }
    ensures ring { SameConsumer consumer.old consumer.new }
{
    match take_all(alloc, consumer, finished) {
        Ok(left) => Ok(left),
        Err(finished) => Err((ListenFault::Memory, finished)),
    }
}

// Takes what is left of items of any type.
fn take_all<T: Drop>(
    alloc: Global,
    consumer: &mut Consumer<T>,
    finished: Finished<T>,
) -> Result<Vec<T>, Finished<T>>
    requires { IsFinishedOf finished consumer.old }
    ensures order { IfOk result (λ left. received consumer.old ++ left.items ≡ all_sent finished) }
    ensures taken { IfOk result (λ left. received consumer.new ≡ received consumer.old ++ left.items) }
    ensures handed_back { IfErr result (λ back. IsFinishedOf back consumer.new × (all_sent back ≡ all_sent finished)) }
    ensures kept { OnErr result (received consumer.new ≡ received consumer.old) }
    ensures ring { SameConsumer consumer.old consumer.new }
{
    let mut finished = finished;
    let mut left = Vec::new(alloc);
    let count = consumer.slots_after(&mut finished);
    let Ok(()) = left.reserve(count) else {
        return Err(finished);
    };
    take_known(consumer, &mut left, count);
    Ok(left)
}

// Takes all items that are known to be in the ring.
fn take_known<T: Drop>(consumer: &mut Consumer<T>, left: &mut Vec<T>, count: usize)
    requires known { length (known_items consumer.old) ≡ count }
    requires room { vec_len left.old + count ≤ vec_capacity left.old }
    ensures taken { left.new.items ≡ left.old.items ++ known_items consumer.old }
    ensures received { received consumer.new ≡ received consumer.old ++ known_items consumer.old }
    ensures ring { SameConsumer consumer.old consumer.new }
{
    for _ in 0..count {
        left.push_reserved(consumer.pop_known());
    }
}
