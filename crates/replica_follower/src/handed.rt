//! A table of what transports were handed, with room for sayings to come.

ghost use Rattle.std.specs.Prelude.{◌≡◌, ◌+◌, ◌<◌, ◌≤◌, zero, [], ◌∷◌, ◌++◌, IsSome, OnOk, if◌then◌else◌};
ghost use Rattle.paxos_packets.specs.Transport.{same_transport};
ghost use Rattle.std.specs.Map.{lookup};
ghost use Rattle.replica_follower.specs.Handed.{said_in, room_in, tellings, TellAll, HasRoom};

use crate::tellings::Tellings;
use paxos_packets::{Memory, Transport};
use std::alloc::Global;
use std::collections::BTreeMap;
use std::marker::Model;

/// What a transport was handed, oldest first.
#[derive(Drop)]
pub struct Told<Y> {
    says: Vec<Y>,
    // How many further sayings room was made for.
    coming: usize,
}

impl<Y> Told<Y> {
    // Returns nothing handed.
    fn new(alloc: Global) -> Told<Y>
        ensures says { result.says.items ≡ [] }
        ensures coming { result.coming ≡ 0 }
    {
        Told {
            says: Vec::new(alloc),
            coming: 0,
        }
    }

    // Returns what it was handed.
    pub(crate) fn says(&self) -> &[Y]
        ensures { result.now ≡ self.now.says.items }
    {
        self.says.as_slice()
    }

    // Reserves memory for one more saying.
    fn expect(&mut self) -> Result<(), Memory>
        requires { HasRoom self.old }
        ensures says { self.new.says.items ≡ self.old.says.items }
        ensures coming { OnOk result (self.new.coming ≡ self.old.coming + 1) }
        ensures room { HasRoom self.new }
    {
        self.says.reserve(self.coming + 1)?;
        self.coming += 1;
        Ok(())
    }

    // Hands it one more saying, given the room that was made.
    fn put(&mut self, say: Y)
        requires room { HasRoom self.old }
        requires coming { 0 < self.old.coming }
        ensures says { self.new.says.items ≡ self.old.says.items ++ say ∷ [] }
        ensures coming { self.old.coming ≡ self.new.coming + 1 }
        ensures room { HasRoom self.new }
    {
        self.says.push_reserved(say);
        self.coming -= 1;
    }
}

// What each transport was handed, by boot and number.
#[derive(Drop)]
pub struct Handed<Y> {
    alloc: Global,
    told: BTreeMap<Transport, Told<Y>>,
}

impl<Y> Model for Handed<Y> {
    ghost use Rattle.std.specs.Prelude.{◌≡◌, List, Some};
    ghost use Rattle.replica_follower.specs.Handed.{HasRoom};
    ghost use Rattle.std.specs.Map.{lookup};
    ghost use Rattle.paxos_packets.specs.declared.transport.Transport.{Transport};
    ghost use Rattle.paxos_packets.specs.Transport.{same_transport};
    ghost use Rattle.replica_follower.specs.declared.handed.Told.{Told};

    ghost Value = { List (Transport × Told Y) };

    ghost view = { λ h. h.told.entries };

    ghost invariant = { λ h. (t : Transport) (u : Told Y) → lookup (same_transport t) h.told.entries ≡ Some u
        → HasRoom u };
}

impl<Y> Handed<Y> {
    // Returns nothing handed to any transport. Does not allocate; `expect` will, from `alloc`.
    pub fn new(alloc: Global) -> Handed<Y>
        ensures { result ≡ [] }
    {
        Handed {
            alloc,
            told: BTreeMap::new(alloc),
        }
    }

    // Returns what the transport was handed. Does not allocate, and takes a number of steps logarithmic in the number of transports.
    pub fn said(&self, transport: Transport) -> &[Y]
        ensures { result.now ≡ said_in transport self.now }
    {
        match self.told.get(&transport) {
            Some(told) => told.says.as_slice(),
            None => nothing(),
        }
    }

    // Returns the transports that were handed something.
    pub fn tellings(&self) -> Tellings<'_, Y>
        ensures are { result ≡ tellings self.now }
        ensures all { TellAll self.now result }
    {
        Tellings::of(&self.told)
    }
}

// Returns no saying.
fn nothing<'a, Y>() -> &'a [Y]
    ensures { result.now ≡ [] }
{
    &[]
}

impl<Y: Drop> Handed<Y> {
    // Reserves memory for one more saying to the transport. Takes a number of steps logarithmic in the number of transports.
    pub fn expect(&mut self, transport: Transport) -> Result<(), Memory>
        ensures said { (t : Transport) → said_in t self.new ≡ said_in t self.old }
        ensures room { OnOk result ((t : Transport) → room_in t self.new ≡ room_in t self.old + (if same_transport transport t then 1 else 0)) }
    {
        self.list(transport)?;
        let Some(told) = self.told.get_mut(&transport) else {
            unreachable!()
        };
        told.expect()
    }

    // Makes an entry in the table for the transport, unless it has one.
    fn list(&mut self, transport: Transport) -> Result<(), Memory>
        ensures said { (t : Transport) → said_in t self.new ≡ said_in t self.old }
        ensures room { (t : Transport) → room_in t self.new ≡ room_in t self.old }
        ensures listed { OnOk result (IsSome (lookup (same_transport transport) self.new)) }
    {
        if self.told.contains_key(&transport) {
            return Ok(());
        }
        self.told.insert(transport, Told::new(self.alloc))?;
        Ok(())
    }

    // Hands it to the transport, given the room that was made. Does not allocate, and takes a number of steps logarithmic in the number of
    // transports.
    pub fn put(&mut self, transport: Transport, say: Y)
        requires { 0 < room_in transport self.old }
        ensures said { (t : Transport) → said_in t self.new ≡ said_in t self.old ++ (if same_transport transport t then say ∷ [] else []) }
        ensures room { (t : Transport) → room_in t self.old ≡ room_in t self.new + (if same_transport transport t then 1 else 0) }
    {
        let Some(told) = self.told.get_mut(&transport) else {
            unreachable!()
        };
        told.put(say);
    }
}
