//! The members of one subscription, apart from the one that is stored inline.
ghost use Rattle.std.specs.Prelude.{◌≡◌, false, [], OnOk, OnErr, IfOk, IsOkUnless};
ghost use Rattle.realm_sessions.specs.declared.fault.RealmFault.TheVariants as fault;
ghost use Rattle.realm_sessions.specs.Members.{has_member, has_members, joined, others};

use realm_lists::{OrderedList, PlaceIndex};
use realm_sessions::RealmFault;
use std::alloc::Global;
use std::marker::Model;
use wamp_ids::Id;

// The members of a subscription that joined while it had others, in the order of joining, each once.
//
// Cost: each call takes a number of steps that is logarithmic in the number of members, `to_vec` one for each.
pub struct Later {
    rows: OrderedList<Id>,
    places: PlaceIndex<u64>,
}

impl Drop for Later {
    fn drop(self) {
        let Later {
            rows: _rows,
            places: _places,
        } = self;
    }
}

impl Model for Later {
    ghost use Rattle.std.specs.Prelude.{List, ℕ};
    ghost use Rattle.realm_lists.specs.OrderedList.{members};
    ghost use Rattle.realm_lists.specs.Finding.{IsIndex};
    ghost use Rattle.realm_subscriptions.specs.Subscribers.{is_session, place_of};

    ghost Value = { List ℕ };

    ghost view = { λ a. members a.rows };

    ghost invariant = { λ a. IsIndex is_session (place_of a.places) a.rows };
}

impl Later {
    // Creates it with no member. Does not allocate.
    pub fn new(alloc: Global) -> Later
        ensures { result ≡ [] }
    {
        Later {
            rows: OrderedList::new(alloc),
            places: PlaceIndex::new(alloc),
        }
    }

    // Returns their ids, in the order of joining. The only fault is `Memory`.
    pub fn to_vec(&self, alloc: Global) -> Result<Vec<Id>, RealmFault>
        ensures list { IfOk result (λ list. list.items ≡ self.now) }
        ensures fault { IsOkUnless result fault.Memory }
    {
        Ok(self.rows.to_vec(alloc)?)
    }

    // Returns whether the session is one of them. Does not allocate.
    pub fn has(&self, session: Id) -> bool
        ensures { result ≡ has_member session self.now }
    {
        self.places.get(session.get()).is_some()
    }

    // Returns whether there is a member. Does not allocate.
    pub fn has_some(&self) -> bool
        ensures { result ≡ has_members self.now }
    {
        self.rows.len() > 0
    }

    // Adds the session, which must not be one of them, as the last one. The only fault is `Memory`; nothing has changed then.
    pub fn join(&mut self, session: Id) -> Result<(), RealmFault>
        requires { has_member session self.old ≡ false }
        ensures ok { OnOk result (self.new ≡ joined session self.old) }
        ensures err { OnErr result (self.new ≡ self.old) }
        ensures fault { IsOkUnless result fault.Memory }
    {
        let Some(place) = self.rows.next_place() else {
            return Err(RealmFault::Memory);
        };
        let number = session.get();
        self.places.put(number, place)?;
        let Ok(()) = self.rows.push(place, session) else {
            self.places.remove(number);
            return Err(RealmFault::Memory);
        };
        Ok(())
    }

    // Removes the session, if it is one of them. Does not allocate.
    pub fn leave(&mut self, session: Id)
        ensures { self.new ≡ others session self.old }
    {
        let number = session.get();
        let Some(place) = self.places.get(number) else {
            return;
        };
        let _ = self.rows.remove(place);
        self.places.remove(number);
    }
}
