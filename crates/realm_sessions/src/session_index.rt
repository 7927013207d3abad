//! Finds sessions by their ids.
ghost use Rattle.std.specs.Prelude.{◌≡◌, ◌==◌, ℕ, [], None, Some, OnOk, OnErr, IsOkUnless, if◌then◌else◌};
ghost use Rattle.realm_sessions.specs.declared.fault.RealmFault.TheVariants as fault;
ghost use Rattle.realm_sessions.specs.Links.{is_session};
ghost use Rattle.realm_sessions.specs.Connected.{place_with};

use crate::fault::RealmFault;
use crate::links::Session;
use realm_lists::PlaceTable;
use std::alloc::Global;
use std::marker::Model;
use wamp_ids::Id;

// The places of sessions.
pub struct SessionIndex {
    places: PlaceTable<u64>,
}

impl Drop for SessionIndex {
    fn drop(self) {
        let SessionIndex { places: _places } = self;
    }
}

impl Model for SessionIndex {
    ghost use Rattle.std.specs.Prelude.{ℕ, List};

    ghost Value = { List (ℕ × ℕ) };

    ghost view = { λ a. a.places };
}

impl SessionIndex {
    // Creates it with no session.
    pub fn new(alloc: Global) -> SessionIndex
        ensures { result ≡ [] }
    {
        SessionIndex {
            places: PlaceTable::new(alloc),
        }
    }

    // Returns the place of the session of this id.
    pub fn find(&self, id: Id) -> Option<u64>
        ensures { result ≡ place_with self.now id }
    {
        self.places.get(id.get())
    }

    // Sets the place of the session of this id.
    pub fn put(&mut self, id: Id, place: u64) -> Result<(), RealmFault>
        ensures ok { OnOk result ((other : ℕ) → place_with self.new other
            ≡ (if id == other then Some place else place_with self.old other)) }
        ensures err { OnErr result (self.new ≡ self.old) }
        ensures fault { IsOkUnless result fault.Memory }
    {
        Ok(self.places.put(id.get(), place)?)
    }

    // Removes the place of this session, if there is a session.
    pub fn remove(&mut self, session: &Option<Session>)
        ensures { (other : ℕ) → place_with self.new other
            ≡ (if is_session other session.now then None else place_with self.old other) }
    {
        let Some(session) = session else {
            return;
        };
        self.places.remove(session.id.get());
    }
}
