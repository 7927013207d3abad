//! The connected transports in the order in which they came, with the indexes that find them.
ghost use Rattle.std.specs.Prelude.{◌≡◌, ◌+◌, ◌<◌, ◌^◌, false, None, Some, [], ◌∷◌, ◌++◌, length, find, option_map, IfOk, OnOk};
ghost use Rattle.std.specs.Prelude.{OnErr, IsOkUnless};
ghost use Rattle.realm_sessions.specs.declared.fault.RealmFault.TheVariants as fault;
ghost use Rattle.realm_sessions.specs.Links.{is_of, has_id, is_connected, is_taken, by_transport, session_count, set_session};
ghost use Rattle.realm_sessions.specs.Links.{without_transport, set_invocation, of_origin};
ghost use Rattle.realm_sessions.specs.Connected.{less_one};

use crate::fault::RealmFault;
use crate::links::{Link, Session};
use crate::session_index::SessionIndex;
use paxos_packets::Transport;
use realm_lists::{OrderedList, PlaceTable};
use std::alloc::Global;
use std::marker::Model;
use wamp_ids::Id;

// The connected transports. Each is at a place; one index leads from its transport to the place, another from its session's id, if it has
// one. The sessions are counted.
pub struct Connected {
    alloc: Global,
    rows: OrderedList<Link>,
    transports: PlaceTable<Transport>,
    ids: SessionIndex,
    count: u64,
}

impl Drop for Connected {
    fn drop(self) {
        let Connected {
            alloc: _,
            rows: _rows,
            transports: _transports,
            ids: _ids,
            count: _,
        } = self;
    }
}

impl Model for Connected {
    ghost use Rattle.std.specs.Prelude.{List};
    ghost use Rattle.realm_lists.specs.OrderedList.{members};
    ghost use Rattle.realm_sessions.specs.declared.links.Link.{Link};

    ghost Value = { List Link };

    ghost use Rattle.realm_sessions.specs.Connected.{AreIndexed};

    ghost view = { λ a. members a.rows };

    ghost invariant = { λ a. AreIndexed a.rows a.transports a.ids a.count };
}

impl Connected {
    // Creates it with no transport connected.
    pub fn new(alloc: Global) -> Connected
        ensures { result ≡ [] }
    {
        Connected {
            alloc,
            rows: OrderedList::new(alloc),
            transports: PlaceTable::new(alloc),
            ids: SessionIndex::new(alloc),
            count: 0,
        }
    }

    // Returns how many transports are connected.
    pub fn len(&self) -> usize
        ensures { result ≡ length self.now }
    {
        self.rows.len()
    }

    // Returns how many sessions are open.
    pub fn session_count(&self) -> u64
        ensures { result ≡ session_count self.now }
    {
        self.count
    }

    // Returns the transport's link, if it is connected.
    pub fn link_of(&self, transport: Transport) -> Option<&Link>
        ensures { option_map (λ link. link.now) result ≡ find (is_of transport) self.now }
    {
        let Some(place) = self.transports.get(transport) else {
            return None;
        };
        self.rows.get(place)
    }

    // Returns the link of the session of this id.
    pub fn link_with(&self, id: Id) -> Option<&Link>
        ensures { option_map (λ link. link.now) result ≡ find (has_id id) self.now }
    {
        let Some(place) = self.ids.find(id) else {
            return None;
        };
        self.rows.get(place)
    }

    // Returns the links in order.
    pub fn to_vec(&self) -> Result<Vec<Link>, RealmFault>
        ensures list { IfOk result (λ list. list.items ≡ self.now) }
        ensures fault { IsOkUnless result fault.Memory }
    {
        Ok(self.rows.to_vec(self.alloc)?)
    }

    // Returns the transports that this node took.
    pub fn of_origin(&self, node: u8) -> Result<Vec<Transport>, RealmFault>
        ensures found { IfOk result (λ found. found.items ≡ of_origin self.now node) }
        ensures fault { IsOkUnless result fault.Memory }
    {
        let mut found = Vec::new(self.alloc);
        for (_place, link) in self.rows.iter() {
            if link.transport.node == node {
                found.push(link.transport)?;
            }
        }
        Ok(found)
    }

    // Adds the transport as the last one, without a session.
    pub fn push(&mut self, transport: Transport) -> Result<(), RealmFault>
        requires { is_connected self.old transport ≡ false }
        ensures ok { OnOk result (self.new ≡ self.old ++ record { transport = transport; session = None } ∷ []) }
        ensures err { OnErr result (self.new ≡ self.old) }
        ensures fault { IsOkUnless result fault.Memory }
    {
        let Some(place) = self.rows.next_place() else {
            return Err(RealmFault::Memory);
        };
        self.transports.put(transport, place)?;
        let link = Link {
            transport,
            session: None,
        };
        let Ok(()) = self.rows.push(place, link) else {
            self.transports.remove(transport);
            return Err(RealmFault::Memory);
        };
        Ok(())
    }

    // Gives the session to the transport, which has none.
    pub fn open(&mut self, transport: Transport, session: Session) -> Result<(), RealmFault>
        requires there { by_transport self.old transport ≡ Some None }
        requires new { is_taken self.old session.id ≡ false }
        requires few { session_count self.old + 1 < 2 ^ 64 }
        ensures ok { OnOk result (self.new ≡ set_session self.old transport (Some session)) }
        ensures err { OnErr result (self.new ≡ self.old) }
        ensures fault { IsOkUnless result fault.Memory }
    {
        let id = session.id;
        let Some(place) = self.transports.get(transport) else {
            return Ok(());
        };
        let Some(link) = self.rows.get(place) else {
            return Ok(());
        };
        let link = link.with_session(Some(session));
        self.ids.put(id, place)?;
        self.rows.set(place, link);
        self.count += 1;
        Ok(())
    }

    // Ends the transport's session, if it has one.
    pub fn close(&mut self, transport: Transport)
        ensures { self.new ≡ set_session self.old transport None }
    {
        let Some(place) = self.transports.get(transport) else {
            return;
        };
        let Some(link) = self.rows.get(place) else {
            return;
        };
        let gone = link.session;
        let link = link.with_session(None);
        self.rows.set(place, link);
        self.ids.remove(&gone);
        self.count = less_one(self.count, &gone);
    }

    // Removes the transport, if it is connected.
    pub fn remove(&mut self, transport: Transport)
        ensures { self.new ≡ without_transport self.old transport }
    {
        let Some(place) = self.transports.get(transport) else {
            return;
        };
        let Some(gone) = self.rows.remove(place) else {
            return;
        };
        self.transports.remove(transport);
        self.ids.remove(&gone.session);
        self.count = less_one(self.count, &gone.session);
    }

    // Makes this invocation the last one of the session of this id.
    pub fn invoke(&mut self, id: Id, invocation: Id)
        ensures { self.new ≡ set_invocation self.old id invocation }
    {
        let Some(place) = self.ids.find(id) else {
            return;
        };
        let Some(link) = self.rows.get(place) else {
            return;
        };
        let link = link.with_invocation(invocation);
        self.rows.set(place, link);
    }
}

// Returns the count without this session.
fn less_one(count: u64, session: &Option<Session>) -> u64
    ensures { result ≡ less_one count session.now }
{
    if session.is_some() {
        count.saturating_sub(1)
    } else {
        count
    }
}
