//! Sessions out of a list of links.
ghost use Rattle.std.specs.Prelude.{◌≡◌, false, Some, None, [], ◌∷◌, ◌++◌, OnOk, IsOkUnless};
ghost use Rattle.realm_sessions.specs.declared.fault.RealmFault.TheVariants as fault;
ghost use Rattle.std.specs.List.{list_any};
ghost use Rattle.realm_sessions.specs.Apart.{is_refused, put_all};
ghost use Rattle.realm_sessions.specs.Links.{is_taken, by_transport, set_session};
ghost use Rattle.realm_sessions.specs.Restoring.{Restores, Becomes, is_numbered, is_misnumbered, clash, sessions_of};

use crate::connected::Connected;
use crate::fault::{RealmFault, RestoreFault};
use crate::links::{Link, Session};
use crate::sessions::Sessions;
use paxos_packets::Transport;
use std::alloc::Global;
use wamp_ids::Id;

impl Sessions {
    /// Makes the sessions of these links, in their order, under this limit. More sessions than that may be open.
    ///
    /// Fails with `Damaged` if a link's transport is none (nodes are 1 to 7, boots 1 to 2^48 - 1, numbers 1 and above), or if two links
    /// have one transport or one session; and with `Memory`.
    ///
    /// Cost: for each link the look-ups of its transport and of its session.
    pub fn of(alloc: Global, limit: u32, links: &[Link]) -> Result<Sessions, RestoreFault>
        ensures { Restores result (sessions_of limit links.now) }
    {
        let mut held = Connected::new(alloc);
        put_links(&mut held, links)?;
        Ok(Sessions::holding(limit, held))
    }

    /// Returns whether a session has this id. Does not allocate.
    pub fn has(&self, id: Id) -> bool
        ensures { result ≡ is_taken self.now.list id }
    {
        self.by_id(id).is_some()
    }
}

// Adds these links after those that are held, unless the transport of one is none, or it clashes with one before it.
fn put_links(held: &mut Connected, links: &[Link]) -> Result<(), RestoreFault>
    ensures { Becomes result held.new (put_all is_misnumbered clash held.old links.now) }
{
    for link in links {
        if is_refused(held, link) {
            return Err(RestoreFault::Damaged);
        }
        add_link(held, link)?;
    }
    Ok(())
}

// Returns whether the link may not be added.
fn is_refused(held: &Connected, link: &Link) -> bool
    ensures { result ≡ is_refused is_misnumbered clash held.now link.now }
{
    !is_numbered(&link.transport) || clashes(held, link)
}

// Returns whether a link that is held is of the same transport or of the same session.
fn clashes(held: &Connected, link: &Link) -> bool
    ensures { result ≡ list_any (λ member. clash member link.now) held.now }
{
    if held.link_of(link.transport).is_some() {
        return true;
    }
    match link.session {
        Some(session) => held.link_with(session.id).is_some(),
        None => false,
    }
}

// Returns whether the transport's numbers are in their ranges.
fn is_numbered(transport: &Transport) -> bool
    ensures { result ≡ is_numbered transport.now }
{
    (1 <= transport.node && transport.node <= 7)
        && ((1 <= transport.boot && transport.boot <= 281_474_976_710_655) && 1 <= transport.number)
}

// Adds the link, which clashes with none that is held.
fn add_link(held: &mut Connected, link: &Link) -> Result<(), RealmFault>
    requires { is_refused is_misnumbered clash held.old link.now ≡ false }
    ensures ok { OnOk result (held.new ≡ held.old ++ link.now ∷ []) }
    ensures fault { IsOkUnless result fault.Memory }
{
    held.push(link.transport)?;
    match link.session {
        Some(session) => add_session(held, link.transport, session),
        None => Ok(()),
    }
}

// Gives the session to a transport that has none.
fn add_session(
    held: &mut Connected,
    transport: Transport,
    session: Session,
) -> Result<(), RealmFault>
    requires there { by_transport held.old transport ≡ Some None }
    requires new { is_taken held.old session.id ≡ false }
    ensures ok { OnOk result (held.new ≡ set_session held.old transport (Some session)) }
    ensures fault { IsOkUnless result fault.Memory }
{
    // more sessions cannot be counted
    if held.session_count() == u64::MAX {
        return Err(RealmFault::Memory);
    }
    held.open(transport, session)
}
