//! A realm's sessions: how transports come and go, sessions open and close, and invocations get their ids.
ghost use Rattle.std.specs.Prelude.{◌≡◌, ◌+◌, ◌<◌, ◌^◌, nat_lt, not, [], Some, None, false, IfSome, OnOk, OnErr, IfOk, IsOkUnless};
ghost use Rattle.realm_sessions.specs.declared.fault.RealmFault.TheVariants as fault;
ghost use Rattle.realm_sessions.specs.Fault.{Answers};
ghost use Rattle.realm_sessions.specs.Links.{by_transport, transport_of, announces, of_origin};
ghost use Rattle.realm_sessions.specs.Links.{connect, set_session, without_transport, has_number, is_connected, is_taken};
ghost use Rattle.realm_sessions.specs.Links.{session_count, new_session_id, session_with, due_invocation};
ghost use Rattle.realm_sessions.specs.Sessions.{with_list, open_session, next_invocation};

use crate::connected::Connected;
use crate::fault::RealmFault;
use crate::links::{Link, Session, free_invocation, invocation_after};
use paxos_packets::Transport;
use std::alloc::Global;
use std::marker::Model;
use wamp_ids::Id;

/// The connected transports of a realm in the order in which they came, and their sessions, of which at most `limit` are open at a time.
///
/// Cost: each call takes a number of steps that is logarithmic in the number of transports, and `open` as many again for each id that it
/// finds taken. `of_origin` and `to_vec` take a step for each transport.
pub struct Sessions {
    limit: u32,
    held: Connected,
}

impl Drop for Sessions {
    fn drop(self) {
        let Sessions {
            limit: _,
            held: _held,
        } = self;
    }
}

impl Model for Sessions {
    ghost use Rattle.realm_sessions.specs.Sessions.{Sessions};

    ghost Value = { Sessions };

    ghost view = { λ a. record { limit = a.limit; list = a.held } };
}

impl Sessions {
    /// Creates it with no transport connected, for at most `limit` open sessions at a time. Does not allocate.
    pub fn new(alloc: Global, limit: u32) -> Sessions
        ensures { result ≡ record { limit = limit; list = [] } }
    {
        Sessions {
            limit,
            held: Connected::new(alloc),
        }
    }

    // Returns the sessions of these links, under this limit.
    pub(crate) fn holding(limit: u32, held: Connected) -> Sessions
        ensures { result ≡ record { limit = limit; list = held } }
    {
        Sessions { limit, held }
    }

    /// Adds the transport as the last one, without a session, unless it is connected. The only fault is `Memory`; nothing has
    /// changed then.
    pub fn connect(&mut self, transport: Transport) -> Result<(), RealmFault>
        ensures ok { OnOk result (self.new ≡ with_list self.old (connect self.old.list transport)) }
        ensures err { OnErr result (self.new ≡ self.old) }
        ensures fault { IsOkUnless result fault.Memory }
    {
        if self.is_connected(transport) {
            return Ok(());
        }
        self.held.push(transport)
    }

    /// Opens a session at a connected transport that has none, and returns its id: the draw, or the next one upwards that no session has.
    /// The faults are `Limit`, exactly if `limit` sessions are open (`laws`), and then `Memory`; nothing has changed then.
    pub fn open(
        &mut self,
        transport: Transport,
        draw: Id,
        canceling: bool,
    ) -> Result<Id, RealmFault>
        requires { by_transport self.old.list transport ≡ Some None }
        ensures answer { Answers result (open_session self.old transport draw canceling).answer }
        ensures ok { OnOk result (self.new ≡ (open_session self.old transport draw canceling).sessions) }
        ensures err { OnErr result (self.new ≡ self.old) }
    {
        if self.has_all() {
            return Err(RealmFault::Limit);
        }
        let Some(id) = new_id(&self.held, draw) else {
            return Err(RealmFault::Limit);
        };
        let session = Session {
            id,
            canceling,
            last_invocation: None,
        };
        self.held.open(transport, session)?;
        Ok(id)
    }

    // Returns whether as many sessions are open as may be; if not, the count may rise by one.
    fn has_all(&self) -> bool
        ensures all { result ≡ not (nat_lt (session_count self.now.list) self.now.limit) }
        ensures few { result ≡ false → session_count self.now.list + 1 < 2 ^ 64 }
    {
        !(self.held.session_count() < u64::from(self.limit))
    }

    // Returns whether the transport is connected.
    fn is_connected(&self, transport: Transport) -> bool
        ensures { result ≡ is_connected self.now.list transport }
    {
        self.held.link_of(transport).is_some()
    }

    /// Ends the transport's session, if it has one; the transport stays. Does not allocate.
    pub fn close(&mut self, transport: Transport)
        ensures { self.new ≡ with_list self.old (set_session self.old.list transport None) }
    {
        self.held.close(transport);
    }

    /// Removes the transport, if it is connected. Does not allocate.
    pub fn remove(&mut self, transport: Transport)
        ensures { self.new ≡ with_list self.old (without_transport self.old.list transport) }
    {
        self.held.remove(transport);
    }

    /// Returns the id of the session's next invocation, and makes it the session's last one. It is the first after the last that is not
    /// `taken`; ids begin at 1 and wrap around (WAMP specification, "IDs"). `None` without that session, and otherwise only if all 2^53 are
    /// taken (`laws`); nothing has changed then. Goes over `taken` once, and once more for each id that it finds taken. Does not allocate.
    pub fn next_invocation(&mut self, id: Id, taken: &[Id]) -> Option<Id>
        ensures answer { result ≡ (next_invocation self.old id taken.now).answer }
        ensures sessions { self.new ≡ (next_invocation self.old id taken.now).sessions }
        ensures free { IfSome result (λ invocation. has_number taken.now invocation ≡ false) }
    {
        let session = session_with(&self.held, id)?;
        let invocation = free_invocation(taken, session.last_invocation)?;
        self.held.invoke(id, invocation);
        Some(invocation)
    }

    /// Returns the id after the session's last invocation, which its next one has unless it is taken (`laws`). `None` without that session.
    /// Does not allocate.
    pub fn due_invocation(&self, id: Id) -> Option<Id>
        ensures { result ≡ due_invocation self.now.list id }
    {
        let session = session_with(&self.held, id)?;
        Some(invocation_after(session.last_invocation))
    }

    /// Returns the connected transports and their sessions, in the order in which they came. The only fault is `Memory`.
    pub fn to_vec(&self) -> Result<Vec<Link>, RealmFault>
        ensures list { IfOk result (λ list. list.items ≡ self.now.list) }
        ensures fault { IsOkUnless result fault.Memory }
    {
        self.held.to_vec()
    }

    /// Returns the id of the transport's session, `Some(None)` if it is connected without one, and `None` if it is not connected. Does not
    /// allocate.
    pub fn by_transport(&self, transport: Transport) -> Option<Option<Id>>
        ensures { result ≡ by_transport self.now.list transport }
    {
        let link = self.held.link_of(transport)?;
        Some(link.session.map(|session| session.id))
    }

    /// Returns the transport of the session of this id. Does not allocate.
    pub fn by_id(&self, id: Id) -> Option<Transport>
        ensures { result ≡ transport_of self.now.list id }
    {
        let link = self.held.link_with(id)?;
        Some(link.transport)
    }

    /// Returns whether the session of this id announced call canceling as a callee. Does not allocate.
    pub fn announces(&self, id: Id) -> bool
        ensures { result ≡ announces self.now.list id }
    {
        match self.held.link_with(id) {
            Some(link) => match link.session {
                Some(session) => session.canceling,
                None => false,
            },
            None => false,
        }
    }

    /// Returns the transports that this node took, in the order in which they came. The only fault is `Memory`.
    pub fn of_origin(&self, node: u8) -> Result<Vec<Transport>, RealmFault>
        ensures found { IfOk result (λ found. found.items ≡ of_origin self.now.list node) }
        ensures fault { IsOkUnless result fault.Memory }
    {
        self.held.of_origin(node)
    }
}

// Returns whether a session has this id.
fn is_taken(held: &Connected, id: Id) -> bool
    ensures { result ≡ is_taken held.now id }
{
    held.link_with(id).is_some()
}

// Returns the id for a new session: the draw, or the next one upwards that no session has. Takes one more look-up for each id that is
// taken.
fn new_id(held: &Connected, draw: Id) -> Option<Id>
    ensures first { result ≡ new_session_id held.now draw }
    ensures free { IfSome result (λ id. is_taken held.now id ≡ false) }
{
    let mut id = draw;
    for _turn in 0..held.len() {
        if !is_taken(held, id) {
            return Some(id);
        }
        id = id.next();
    }
    if is_taken(held, id) { None } else { Some(id) }
}

// Returns the session of this id.
fn session_with(held: &Connected, id: Id) -> Option<Session>
    ensures { result ≡ session_with held.now id }
{
    match held.link_with(id) {
        Some(link) => link.session,
        None => None,
    }
}
