//! What a realm is made of, and a realm out of it.
ghost use Rattle.std.specs.Prelude.{◌≡◌};
ghost use Rattle.std.specs.List.{list_any};
ghost use Rattle.realm_sessions.specs.Restoring.{Restores, Becomes};
ghost use Rattle.realm_machine.specs.Parts.{is_nobody, is_called_of_nobody, is_joined_by_nobody, is_of_nobody};
ghost use Rattle.realm_machine.specs.Parts.{name_nobody, content_of, realm_with};

use crate::config::{Config, Limits};
use crate::content::Content;
use crate::realm::Realm;
use realm_calls::{Calls, Open};
use realm_registrations::{RegistrationParts, Registrations};
use realm_sessions::{Link, RestoreFault, Sessions};
use realm_subscriptions::{SubscriptionParts, Subscriptions};
use std::alloc::Global;
use std::marker::Model;
use wamp_ids::{Id, Text};

/// A realm's name and limits, and what it holds.
#[derive(Drop)]
pub struct Parts<'a> {
    pub name: &'a str,
    pub limits: Limits,
    pub sessions: &'a Sessions,
    pub registrations: &'a Registrations,
    pub subscriptions: &'a Subscriptions,
    pub calls: &'a Calls,
}

/// What a realm is to hold, in lists.
pub struct Lists {
    /// The connected transports in the order in which they came.
    pub links: Vec<Link>,
    /// The registrations by ascending id.
    pub registrations: Vec<RegistrationParts>,
    /// The greatest id of a registration that was handed out, 0 before the first.
    pub last_registration: u64,
    /// The subscriptions by ascending id.
    pub subscriptions: Vec<SubscriptionParts>,
    /// The greatest id of a subscription that was handed out, 0 before the first.
    pub last_subscription: u64,
    /// The open calls in order of opening.
    pub calls: Vec<Open>,
}

impl Drop for Lists {
    fn drop(self) {
        let Lists {
            links: _links,
            registrations: _registrations,
            last_registration: _,
            subscriptions: _subscriptions,
            last_subscription: _,
            calls: _calls,
        } = self;
    }
}

impl Model for Lists {
    ghost use Rattle.realm_machine.specs.Parts.{Lists};

    ghost Value = { Lists };

    ghost view = { λ a. record {
      links = a.links.items;
      registrations = a.registrations.items;
      last_registration = a.last_registration;
      subscriptions = a.subscriptions.items;
      last_subscription = a.last_subscription;
      calls = a.calls.items;
    } };
}

impl<'a> Model for Parts<'a> {
    ghost use Rattle.realm_machine.specs.Machine.{Live};

    ghost Value = { Live };

    ghost view = { λ a. record {
      config = record { name = a.name.now; limits = a.limits };
      content = record {
        sessions = a.sessions.now;
        registrations = a.registrations.now;
        subscriptions = a.subscriptions.now;
        calls = a.calls.now;
      };
    } };
}

impl<'a> Parts<'a> {
    // Returns the parts of a realm of this configuration that holds this.
    pub(crate) fn of(config: &'a Config, content: &'a Content) -> Parts<'a>
        ensures { result ≡ record { config = config.now; content = content.now } }
    {
        Parts {
            name: config.name.as_str(),
            limits: config.limits,
            sessions: &content.sessions,
            registrations: &content.registrations,
            subscriptions: &content.subscriptions,
            calls: &content.calls,
        }
    }
}

impl Realm {
    /// Makes the realm of this name, of these limits and with these lists. It may hold more than its limits allow.
    ///
    /// Fails with `Damaged` if no realm holds this: if a part refuses its list (`Sessions::of`, `Registrations::of`, `Subscriptions::of`,
    /// `Calls::of`), or if a callee, a member or a caller is no session of the realm; and with `Memory`.
    ///
    /// Cost: the look-ups that the parts take, and one for each callee, member and caller.
    pub fn of_parts(
        alloc: Global,
        name: &str,
        limits: Limits,
        lists: &Lists,
    ) -> Result<Realm, RestoreFault>
        ensures { Restores result (realm_with (record { name = name.now; limits = limits }) lists.now) }
    {
        let config = Config {
            name: Text::new(alloc, name)?,
            limits,
        };
        let mut content = Content::new(alloc, limits);
        let done = content.fill(limits, lists);
        match done.and(Ok((config, content))) {
            Ok((config, content)) => Ok(Realm {
                config,
                content: Some(content),
            }),
            Err(fault) => Err(fault),
        }
    }
}

impl Content {
    // Takes these lists in place of what it holds.
    fn fill(&mut self, limits: Limits, lists: &Lists) -> Result<(), RestoreFault>
        ensures { Becomes result self.new (content_of limits lists.now) }
    {
        self.sessions = Sessions::of(self.alloc, limits.sessions, &lists.links)?;
        if name_nobody(&self.sessions, lists) {
            return Err(RestoreFault::Damaged);
        }
        self.registrations = Registrations::of(
            self.alloc,
            limits.registrations,
            &lists.registrations,
            lists.last_registration,
        )?;
        self.subscriptions = Subscriptions::of(
            self.alloc,
            limits.subscriptions,
            &lists.subscriptions,
            lists.last_subscription,
        )?;
        self.calls = Calls::of(self.alloc, limits.calls, &lists.calls)?;
        Ok(())
    }
}

// Returns whether one of the lists names somebody who is no session.
fn name_nobody(sessions: &Sessions, lists: &Lists) -> bool
    requires { sessions.now.list ≡ lists.now.links }
    ensures { result ≡ name_nobody lists.now }
{
    call_nobody(sessions, &lists.registrations)
        || tell_nobody(sessions, &lists.subscriptions)
        || are_of_nobody(sessions, &lists.calls)
}

fn call_nobody(sessions: &Sessions, list: &[RegistrationParts]) -> bool
    ensures { result ≡ list_any (is_called_of_nobody sessions.now.list) list.now }
{
    list.iter()
        .any(|parts| has_nobody(sessions, &parts.callees))
}

fn tell_nobody(sessions: &Sessions, list: &[SubscriptionParts]) -> bool
    ensures { result ≡ list_any (is_joined_by_nobody sessions.now.list) list.now }
{
    list.iter()
        .any(|parts| has_nobody(sessions, &parts.members))
}

fn are_of_nobody(sessions: &Sessions, list: &[Open]) -> bool
    ensures { result ≡ list_any (is_of_nobody sessions.now.list) list.now }
{
    list.iter().any(|call| !sessions.has(call.caller) || !sessions.has(call.callee))
}

// Returns whether one of the ids is no session's.
fn has_nobody(sessions: &Sessions, ids: &[Id]) -> bool
    ensures { result ≡ list_any (is_nobody sessions.now.list) ids.now }
{
    ids.iter().any(|id| !sessions.has(*id))
}
