//! Transports with their sessions, and the ids of invocations to a session.
ghost use Rattle.std.specs.Prelude.{◌≡◌, false, IfSome};
ghost use Rattle.realm_sessions.specs.Links.{has_id, has_number, invocation_after, free_invocation, invoked};

use paxos_packets::Transport;
use wamp_ids::Id;

/// An open session.
#[derive(Clone, Copy, Debug, PartialEq, Eq)]
pub struct Session {
    pub id: Id,
    /// Whether the client announced call canceling as a callee.
    pub canceling: bool,
    /// The id of the last invocation that was sent to it, if any was.
    pub last_invocation: Option<Id>,
}

/// A connected transport, and its session if it has one.
#[derive(Clone, Copy, Debug, PartialEq, Eq)]
pub struct Link {
    pub transport: Transport,
    pub session: Option<Session>,
}

impl Link {
    // Returns whether its session has this id.
    pub fn has_id(&self, id: Id) -> bool
        ensures { result ≡ has_id id self.now }
    {
        match self.session {
            Some(session) => session.id == id,
            None => false,
        }
    }

    // Returns the link with this session in place of its own, or with none.
    pub fn with_session(&self, session: Option<Session>) -> Link
        ensures { result ≡ record { transport = self.now.transport; session = session } }
    {
        Link {
            transport: self.transport,
            session,
        }
    }

    // Returns the link with this invocation as its session's last one.
    pub fn with_invocation(&self, invocation: Id) -> Link
        ensures { result ≡ record { transport = self.now.transport; session = invoked invocation self.now.session } }
    {
        let Some(session) = self.session else {
            return *self;
        };
        self.with_session(Some(Session {
            id: session.id,
            canceling: session.canceling,
            last_invocation: Some(invocation),
        }))
    }
}

// Returns whether the id is among these.
fn has_number(ids: &[Id], id: Id) -> bool
    ensures { result ≡ has_number ids.now id }
{
    ids.iter().any(|other| *other == id)
}

// Returns the first id after the last invocation's that is not taken. Goes over `taken` once more for each id that is taken.
pub fn free_invocation(taken: &[Id], last: Option<Id>) -> Option<Id>
    ensures first { result ≡ free_invocation taken.now last }
    ensures free { IfSome result (λ id. has_number taken.now id ≡ false) }
{
    let mut id = invocation_after(last);
    for _other in taken {
        if !has_number(taken, id) {
            return Some(id);
        }
        id = id.next();
    }
    if has_number(taken, id) {
        None
    } else {
        Some(id)
    }
}

// Returns the id after the last invocation's.
pub fn invocation_after(last: Option<Id>) -> Id
    ensures { result ≡ invocation_after last }
{
    match last {
        Some(last) => last.next(),
        None => Id::new(1).unwrap(),
    }
}
