// One lane: how sayings go to its client, whether the client keeps up, and how the connection ends.
ghost use Rattle.std.specs.Prelude.{◌≡◌, ◌∷◌, ◌++◌, [], MatchBool};
ghost use Rattle.rtrb.specs.Ring.{sent, known_free, SameProducer};
ghost use Rattle.serve_feed.specs.Hears.{Hears, Stays, Ends};

use client_listener::ToClient;
use rtrb::Producer;
use serve_connections::{Lobby, NodeConnection};
use serve_policy::Reader;

// A connection at its node, but for the requests that come of it.
#[derive(Drop)]
pub(crate) struct Lane {
    // The number of its transport.
    number: u32,
    // Whether the node has ended it.
    is_ended: bool,
    // Whether its porter is to be told of sayings.
    is_told: bool,
    reader: Reader,
    sayings: Producer<ToClient>,
    connection: NodeConnection,
}

impl Lane {
    // Returns the lane of a connection that came.
    pub fn new(number: u32, sayings: Producer<ToClient>, connection: NodeConnection) -> Lane
        ensures { result.number ≡ number }
    {
        Lane {
            number,
            is_ended: false,
            is_told: false,
            reader: Reader::new(),
            sayings,
            connection,
        }
    }

    // Returns the number of its transport.
    pub fn number(&self) -> u32
        ensures { result ≡ self.now.number }
    {
        self.number
    }

    // Returns whether the node has ended it.
    pub fn is_ended(&self) -> bool {
        self.is_ended
    }

    // Puts a saying after the others. If there is no room the connection ends, and the result is false.
    pub fn say(&mut self, lobby: &Lobby, saying: ToClient) -> bool
        ensures hears { Hears (saying ∷ []) self.old self.new }
    {
        if self.is_ended {
            drop(saying);
            return true;
        }
        if !push(&mut self.sayings, saying) {
            self.end(lobby);
            return false;
        }
        if !self.reader.put() {
            return true;
        }
        let room = self.sayings.slots();
        if self.reader.judge(room) {
            self.connection.mark_slow(lobby);
        }
        true
    }

    // Ignores the client until it has caught up, if the node has waited for it in vain.
    pub fn ignore_slow(&mut self, lobby: &Lobby)
        ensures stays { Stays self.old self.new }
    {
        if self.connection.clear_slow(lobby) {
            self.reader.ignore();
        }
    }

    // Marks that its porter is to be told of sayings. Returns whether it was marked before.
    pub fn tell(&mut self) -> bool
        ensures stays { Stays self.old self.new }
    {
        let was = self.is_told;
        self.is_told = true;
        was
    }

    // Tells its porter that there are sayings to write.
    pub fn announce_sayings(&mut self)
        ensures stays { Stays self.old self.new }
    {
        self.is_told = false;
        self.connection.announce_sayings();
    }

    // Tells its porter, which may wait for room, that there is some.
    pub fn announce_room(&self) {
        self.connection.announce_room();
    }

    // Takes the client out of those that the node waits for.
    pub fn forget_slow(&self, lobby: &Lobby) {
        self.connection.clear_slow(lobby);
    }

    // Ends the connection at once.
    pub fn end(&mut self, lobby: &Lobby)
        ensures ends { Ends self.old self.new }
    {
        self.is_ended = true;
        self.forget_slow(lobby);
        self.connection.hang_up();
    }
}

// Puts an item into a ring, which drops it if there is no room. Returns whether there was.
fn push<T: Drop>(ring: &mut Producer<T>, item: T) -> bool
    ensures ring { SameProducer ring.old ring.new }
    ensures puts { MatchBool result (sent ring.new ≡ sent ring.old ++ item ∷ []) ((sent ring.new ≡ sent ring.old) × (known_free ring.new ≡ 0)) }
{
    match ring.push(item) {
        Ok(()) => true,
        Err(refused) => {
            drop(refused);
            false
        },
    }
}
