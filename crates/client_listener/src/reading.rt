// From one client's stream into a ring: reads after the handshake, puts an item for each frame, and waits for room.
ghost use Rattle.std.specs.Prelude.{◌≡◌, ◌<◌, ◌≤◌, List, [], ℕ, Option, Ok, true, IsErrOf, IfSome, MatchBool};
ghost use Rattle.std.specs.Io.KnownBytes.{Consumes};
ghost use Rattle.std.specs.declared.alloc.Global.{Global};
ghost use Rattle.rtrb.specs.Ring.{sent, known_free, all_sent, IsPair, IsFinishedOf, SameProducer, ProducerLooked};
ghost use Rattle.rtrb.specs.declared.consumer.Consumer.{Consumer};
ghost use Rattle.rtrb.specs.declared.AnyItems.{AnyItems};
ghost use Rattle.client_listener.specs.Reading.{turns_of, Puts, Finishes};
ghost use Rattle.client_listener.specs.ReadingSteps.{is_cut_short, Underway, PutsAll, TurnsOn, Stops, Hangs};

use crate::fault::ListenFault;
use crate::inlet::Inlet;
use crate::intake::Intake;
use crate::items::FromClient;
use crate::patience::Patience;
use crate::turns::{MOST_TURNS, spend};
use rtrb::{Finished, Producer};
use std::alloc::Global;
use std::io::Read;
use std::time::Clock;

/// Puts what a client sends after its handshake into a ring, as [`put_transport`] does. Returns the outcome, and what shows all that was put,
/// or `None` if the ring's other end was dropped.
pub fn read_transport<R: Read>(
    clock: &impl Clock,
    alloc: Global,
    reader: &mut R,
    producer: Producer<FromClient>,
    turns: u64,
) -> (Result<(), ListenFault>, Option<Finished<FromClient>>)
    ensures puts { Finishes (turns_of turns) (known_free producer) result.0 (R.remaining reader.old) (R.remaining reader.new)
        (sent producer) result.1 }
    ensures ring { IfSome result.1 (λ finished. (consumer : Consumer FromClient Global AnyItems)
        → IsPair producer consumer → IsFinishedOf finished consumer) }
{
    let mut producer = producer;
    let mut turns = turns;
    let outcome = put_transport(clock, alloc, reader, &mut producer, &mut turns);
    (outcome, producer.finish())
}

/// Puts what a client sends after its handshake into a ring: `Connect`, an item for each frame (none for a PONG), and `Hung`.
///
/// `Ok` at the reader's end alone; `Frame` for what is no frame, and `Read` for a read that failed: all is put then, `Hung`
/// last. `Memory`, and `Turns` once the turns are spent: what was put is then a prefix of that. If the ring is full and its other end was
/// dropped, all turns are spent at once.
///
/// A turn is one read of up to 16 KiB, or one try that finds the ring full; `turns` counts them down, and of more than 2^32
/// only 2^32 are left. So after `Turns` as many octets were read as there were turns, or the ring has been full. After a vain try the reader is
/// asked to read no octets, and from the fourth on the thread gives way or sleeps, for 1 ms at the most. What is allocated does not grow with
/// the length of the stream. (WAMP specification, "RawSocket Transport".)
pub fn put_transport<R: Read>(
    clock: &impl Clock,
    alloc: Global,
    reader: &mut R,
    producer: &mut Producer<FromClient>,
    turns: &mut u64,
) -> Result<(), ListenFault>
    ensures puts { Puts (turns_of turns.old) (known_free producer.old) result (R.remaining reader.old) (R.remaining reader.new)
        (sent producer.old) (sent producer.new) }
    ensures spent { IsErrOf result ListenFault.Turns → turns.new ≡ 0 }
    ensures ring { SameProducer producer.old producer.new }
{
    *turns = (*turns).min(MOST_TURNS);
    let mut intake = Intake::new(alloc)?;
    let outcome = put_stream(clock, &mut intake, reader, producer, turns);
    if is_cut_short(&outcome) {
        return outcome;
    }
    hang(clock, &intake.inlet, reader, producer, turns)?;
    outcome
}

// Returns whether nothing more is put after this outcome.
fn is_cut_short(outcome: &Result<(), ListenFault>) -> bool
    ensures { result ≡ is_cut_short outcome.now }
{
    matches!(outcome, Err(ListenFault::Turns | ListenFault::Memory))
}

// Puts an item for each frame, up to the end of the stream.
fn put_stream<R: Read>(
    clock: &impl Clock,
    intake: &mut Intake,
    reader: &mut R,
    producer: &mut Producer<FromClient>,
    turns: &mut u64,
) -> Result<(), ListenFault>
    ensures puts { (most free : ℕ) (start : Option (List ℕ)) (before : List FromClient)
        → Underway most free start before (R.remaining reader.old) (sent producer.old) (known_free producer.old) turns.old intake.old
        → Stops most free start before result (R.remaining reader.new) (sent producer.new) (known_free producer.new) turns.new }
    ensures ring { SameProducer producer.old producer.new }
{
    'turns: loop {
        match turn(clock, intake, reader, producer, turns) {
            Ok(true) => {}
            Ok(false) => return Ok(()),
            Err(fault) => return Err(fault),
        }
    }
}

// Puts what is there to be put, and reads once. Returns whether more may come.
fn turn<R: Read>(
    clock: &impl Clock,
    intake: &mut Intake,
    reader: &mut R,
    producer: &mut Producer<FromClient>,
    turns: &mut u64,
) -> Result<bool, ListenFault>
    ensures turns { (most free : ℕ) (start : Option (List ℕ)) (before : List FromClient)
        → Underway most free start before (R.remaining reader.old) (sent producer.old) (known_free producer.old) turns.old intake.old
        → TurnsOn most free start before result (R.remaining reader.new) (sent producer.new) (known_free producer.new) turns.new intake.new }
    ensures spends { result ≡ Ok true → turns.new < turns.old }
    ensures ring { SameProducer producer.old producer.new }
{
    put_all(clock, intake, reader, producer, turns)?;
    if !spend(turns) {
        return Err(ListenFault::Turns);
    }
    intake.fill(reader)
}

// Puts the items of all whole frames, as soon as the ring has room for them.
fn put_all<R: Read>(
    clock: &impl Clock,
    intake: &mut Intake,
    reader: &mut R,
    producer: &mut Producer<FromClient>,
    turns: &mut u64,
) -> Result<(), ListenFault>
    ensures puts { (most free : ℕ) (start : Option (List ℕ)) (before : List FromClient)
        → Underway most free start before (R.remaining reader.old) (sent producer.old) (known_free producer.old) turns.old intake.old
        → PutsAll most free start before result (R.remaining reader.new) (sent producer.new) (known_free producer.new) turns.new intake.new }
    ensures spends { turns.new ≤ turns.old }
    ensures ring { SameProducer producer.old producer.new }
{
    let mut patience = Patience::new();
    'tries: loop {
        match intake.put(producer) {
            Ok(true) => return Ok(()),
            Ok(false) => {}
            Err(fault) => return Err(fault),
        }
        if !wait(clock, reader, producer, &mut patience, turns) {
            return Err(ListenFault::Turns);
        }
    }
}

// Puts `Hung`, as soon as the ring has room for it.
fn hang<R: Read>(
    clock: &impl Clock,
    inlet: &Inlet,
    reader: &mut R,
    producer: &mut Producer<FromClient>,
    turns: &mut u64,
) -> Result<(), ListenFault>
    ensures hangs { Hangs result (sent producer.old) (sent producer.new) (known_free producer.old) turns.new }
    ensures reads { Consumes (R.remaining reader.old) (R.remaining reader.new) [] }
    ensures ring { SameProducer producer.old producer.new }
{
    let mut patience = Patience::new();
    'tries: loop {
        if inlet.hang(producer) {
            return Ok(());
        }
        if !wait(clock, reader, producer, &mut patience, turns) {
            return Err(ListenFault::Turns);
        }
    }
}

// Waits after a try that found the ring full. Returns whether a turn was left for it; none is if nobody makes room any more. The reader is
// asked for no octets, so that it notices each vain try; what it returns shows at the next read.
fn wait<R: Read>(
    clock: &impl Clock,
    reader: &mut R,
    producer: &mut Producer<FromClient>,
    patience: &mut Patience,
    turns: &mut u64,
) -> bool
    ensures spends { MatchBool result (turns.new < turns.old) (turns.new ≡ 0) }
    ensures reads { Consumes (R.remaining reader.old) (R.remaining reader.new) [] }
    ensures looked { ProducerLooked producer.old producer.new }
{
    if producer.is_abandoned() {
        *turns = 0;
    }
    if !spend(turns) {
        return false;
    }
    let _answer = reader.read(&mut []);
    patience.wait(clock);
    true
}
