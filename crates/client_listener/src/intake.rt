// An inlet with the buffer and the parser of a thread that reads one client.
ghost use Rattle.std.specs.Prelude.{◌≡◌, [], List, ℕ, Ok, false, IfOk, IfErr};
ghost use Rattle.rtrb.specs.Ring.{sent, known_free, SameProducer};
ghost use Rattle.client_listener.specs.Inlet.{Inflow, PutsOn, KeepsRoom};
ghost use Rattle.client_listener.specs.ReadingSteps.{Holds, Fills};

use crate::fault::ListenFault;
use crate::inlet::Inlet;
use crate::items::FromClient;
use bytes::BytesMut;
use rtrb::Producer;
use std::alloc::Global;
use std::io::Read;
use std::marker::Model;
use wamp_messages::Parser;

// The most octets of one read. The room of a read is cleared before it, so more of it would cost each small message.
const CHUNK: usize = 1 << 14;

// What a client's octets are read into, and put into a ring by. A clause sees what the inlet holds.
#[derive(Drop)]
pub(crate) struct Intake {
    pub(crate) inlet: Inlet,
    // What one read gave, kept for its room.
    chunk: BytesMut,
    // What messages are read by, kept for its room.
    parser: Parser,
}

impl Model for Intake {
    ghost use Rattle.std.specs.Coded.{codes};
    ghost use Rattle.std.specs.Prelude.{◌<◌, ◌+◌, length};
    ghost use Rattle.wamp_values.specs.Payload.{coded_data};
    ghost use Rattle.client_listener.specs.Pending.{Pending};

    ghost Value = { Pending };

    ghost coded = { Prim.hlevel (codes, coded_data) };

    ghost view = { λ intake. intake.inlet };

    ghost invariant = { λ intake. 0 < length intake.chunk.items + intake.chunk.spare };
}

impl Intake {
    pub fn new(alloc: Global) -> Result<Intake, ListenFault>
        ensures ok { IfOk result (λ intake. (before : List FromClient) → Inflow [] before before intake) }
        ensures err { IfErr result (λ fault. fault ≡ ListenFault.Memory) }
    {
        Ok(Intake {
            inlet: Inlet::new(alloc),
            chunk: BytesMut::with_capacity(alloc, CHUNK)?,
            parser: Parser::new(alloc),
        })
    }

    // Reads once. Returns whether the reader gave octets; it ended if not.
    pub fn fill<R: Read>(&mut self, reader: &mut R) -> Result<bool, ListenFault>
        ensures { Fills result (R.remaining reader.old) (R.remaining reader.new) self.old self.new }
    {
        self.chunk.clear();
        match self.chunk.read_from(reader) {
            Ok(0) => Ok(false),
            Ok(_) => hold(&mut self.inlet, self.chunk.as_slice()),
            Err(_) => Err(ListenFault::Read),
        }
    }

    // Puts the items of all whole frames, as far as the ring has room.
    pub fn put(&mut self, producer: &mut Producer<FromClient>) -> Result<bool, ListenFault>
        ensures puts { (read : List ℕ) (before : List FromClient)
            → Inflow read before (sent producer.old) self.old → PutsOn result read before (sent producer.new) self.new }
        ensures full { result ≡ Ok false → known_free producer.new ≡ 0 }
        ensures room { KeepsRoom producer.old producer.new }
        ensures ring { SameProducer producer.old producer.new }
    {
        self.inlet.put(&mut self.parser, producer)
    }
}

// Hands what was read to an inlet.
fn hold(inlet: &mut Inlet, octets: &[u8]) -> Result<bool, ListenFault>
    ensures { Holds result octets.now inlet.old inlet.new }
{
    match inlet.feed(octets) {
        Ok(()) => Ok(true),
        Err(_) => Err(ListenFault::Memory),
    }
}
