// From a ring to one client's stream: writes the frames of the items at hand, and waits for more, until `Close`.
ghost use Rattle.std.specs.Prelude.{◌≡◌, ◌<◌, ◌≤◌, ◌+◌, ◌^◌, ◌++◌, ◌⊎◌, ℕ, List, [], length, Option, Ok, true, IsErrOf, IfErr};
ghost use Rattle.std.specs.Io.KnownBytes.{Appends, Keeps};
ghost use Rattle.rtrb.specs.Ring.{received, known_items, SameConsumer};
ghost use Rattle.client_listener.specs.Writing.{Takes, Sent};
ghost use Rattle.client_listener.specs.WritingSteps.{Underway, Steps, Clears};

use crate::fault::ListenFault;
use crate::items::ToClient;
use crate::outbox::Outbox;
use crate::patience::Patience;
use crate::turns::{MOST_TURNS, spend};
use rtrb::{Consumer, Protocol};
use std::alloc::Global;
use std::io::{ErrorKind, Write};
use std::time::Clock;

/// Writes what a node hands to a client's transport, as [`take_transport`] does.
pub fn write_transport<W: Write, P: Protocol<ToClient>>(
    clock: &impl Clock,
    alloc: Global,
    consumer: Consumer<ToClient, Global, P>,
    writer: &mut W,
    limit: u32,
    turns: u64,
) -> Result<(), ListenFault>
    ensures { Sent P.allows limit (length (known_items consumer)) result (received consumer)
        (W.contents writer.old) (W.contents writer.new) }
{
    let mut consumer = consumer;
    let mut turns = turns;
    take_transport(clock, alloc, &mut consumer, writer, limit, &mut turns)
}

/// Takes items out of a ring and writes their frames, to a client that takes payloads of up to `limit` octets.
///
/// `Ok` once it took `Close`. `Wide` at a message or PONG that is longer than the client takes, `Memory`, and `Turns` once the
/// turns are spent and the ring is empty: what was taken before is written then. `Write` if a write failed: what was written is then a prefix
/// of the frames of what was taken. Nothing is taken after any of these.
///
/// The frames of all items at hand are written and flushed together, and an item is taken only while at most 64 KiB wait. A turn is one try
/// that finds the ring empty; `turns` counts them down, and of more than 2^32 only 2^32 are left. At a vain try the writer is
/// flushed, and from the fourth in a row on the thread gives way or sleeps, for 1 ms at the most. What is allocated
/// does not grow with the number of items. (WAMP specification, "RawSocket Transport".)
pub fn take_transport<W: Write, P: Protocol<ToClient>>(
    clock: &impl Clock,
    alloc: Global,
    consumer: &mut Consumer<ToClient, Global, P>,
    writer: &mut W,
    limit: u32,
    turns: &mut u64,
) -> Result<(), ListenFault>
    ensures takes { Takes P.allows limit (length (known_items consumer.old)) result (received consumer.old) (received consumer.new)
        (W.contents writer.old) (W.contents writer.new) }
    ensures empty { IsErrOf result ListenFault.Turns
        → (known_items consumer.new ≡ []) ⊎ (2 ^ 63 ≤ length (received consumer.new)) }
    ensures spent { IsErrOf result ListenFault.Turns → turns.new ≡ 0 }
    ensures ring { SameConsumer consumer.old consumer.new }
{
    *turns = (*turns).min(MOST_TURNS);
    let mut outbox = Outbox::new(alloc, limit);
    let mut patience = Patience::new();
    // The items themselves have no end; this number of steps is never reached.
    for _step in 0..u64::MAX {
        match take_some(clock, &mut outbox, consumer, writer, &mut patience, turns) {
            Ok(true) => {}
            Ok(false) => return Ok(()),
            Err(fault) => return Err(fault),
        }
    }
    *turns = 0;
    Err(ListenFault::Turns)
}

// Takes the items at hand and writes their frames, or waits for some. Returns whether the transport stays open.
fn take_some<W: Write, P: Protocol<ToClient>>(
    clock: &impl Clock,
    outbox: &mut Outbox,
    consumer: &mut Consumer<ToClient, Global, P>,
    writer: &mut W,
    patience: &mut Patience,
    turns: &mut u64,
) -> Result<bool, ListenFault>
    ensures steps { (known : ℕ) (before : List ToClient) (old : Option (List ℕ)) → outbox.old.octets ≡ []
        → Underway P.allows outbox.old.limit known before (received consumer.old) (length (known_items consumer.old)) old
        (W.contents writer.old)
        → Steps P.allows outbox.old.limit known result before (received consumer.new) (length (known_items consumer.new)) old
        (W.contents writer.new) outbox.new.octets }
    ensures progress { result ≡ Ok true → outbox.old.octets ≡ []
        → turns.new + length (received consumer.old) < turns.old + length (received consumer.new) }
    ensures empty { IsErrOf result ListenFault.Turns → outbox.old.octets ≡ [] → known_items consumer.new ≡ [] }
    ensures spent { IsErrOf result ListenFault.Turns → turns.new ≡ 0 }
    ensures limit { outbox.new.limit ≡ outbox.old.limit }
    ensures ring { SameConsumer consumer.old consumer.new }
{
    let gathered = outbox.gather(consumer);
    let is_vain = outbox.len() == 0;
    let Ok(()) = write_all(outbox, writer) else {
        return Err(ListenFault::Write);
    };
    match gathered {
        Ok(true) => {}
        Ok(false) => return Ok(false),
        Err(fault) => return Err(fault),
    }
    if !is_vain {
        *patience = Patience::new();
        return Ok(true);
    }
    if !spend(turns) {
        return Err(ListenFault::Turns);
    }
    patience.wait(clock);
    Ok(true)
}

// Writes all that waits, and flushes the writer, also if nothing waits. `Write` if the writer failed; what it took before no longer waits.
fn write_all<W: Write>(outbox: &mut Outbox, writer: &mut W) -> Result<(), ListenFault>
    ensures clears { Clears result outbox.old.octets outbox.new.octets (W.contents writer.old) (W.contents writer.new) }
    ensures limit { outbox.new.limit ≡ outbox.old.limit }
{
    for _try in 0..u64::MAX {
        if outbox.len() == 0 {
            return flush(writer);
        }
        if !write_once(outbox, writer) {
            return Err(ListenFault::Write);
        }
    }
    Err(ListenFault::Write)
}

// Writes once. Returns whether more may be written: the writer took some octets, or was interrupted.
fn write_once<W: Write>(outbox: &mut Outbox, writer: &mut W) -> bool
    ensures wrote { (written : List ℕ) × (outbox.old.octets ≡ written ++ outbox.new.octets)
        × Appends (W.contents writer.old) (W.contents writer.new) written }
    ensures limit { outbox.new.limit ≡ outbox.old.limit }
{
    let waiting = outbox.len();
    match outbox.write_some(writer) {
        Ok(()) => outbox.len() < waiting,
        Err(error) => error.kind() == ErrorKind::Interrupted,
    }
}

// Flushes the writer.
fn flush<W: Write>(writer: &mut W) -> Result<(), ListenFault>
    ensures keeps { Keeps (W.contents writer.old) (W.contents writer.new) }
    ensures fault { IfErr result (λ fault. fault ≡ ListenFault.Write) }
{
    match writer.flush() {
        Ok(()) => Ok(()),
        Err(_) => Err(ListenFault::Write),
    }
}
