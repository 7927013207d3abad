//! Who gets an event.
ghost use Rattle.std.specs.Prelude.{◌≡◌, ◌++◌, [], ◌∷◌, ℕ, List, Option, map, filter, OnOk, IfOk, IsOkUnless};
ghost use Rattle.std.specs.List.{flat_map};
ghost use Rattle.wamp_patterns.specs.Ranking.{matching};
ghost use Rattle.realm_subscriptions.specs.declared.receiving.Receiver.{Receiver};
ghost use Rattle.realm_sessions.specs.declared.fault.RealmFault.TheVariants as fault;
ghost use Rattle.realm_subscriptions.specs.Receiving.{is_for, receiver};

use crate::subscription::Subscription;
use realm_groups::{Group, Groups};
use realm_sessions::RealmFault;
use std::alloc::Global;
use wamp_ids::{Id, Match, Uri};

/// A receiver of an event: a member of a subscription, and how that matched the event's URI.
#[derive(Clone, Copy, Debug, PartialEq, Eq)]
pub struct Receiver {
    pub subscription: Id,
    pub matching: Match,
    pub member: Id,
}

// A group that has receivers of events.
pub(crate) trait Receiving: Group {
    ghost receivers: { Option ℕ → Self → List Receiver };

    // Appends its receivers to those found. The only fault is `Memory`.
    fn add_receivers(
        &self,
        alloc: Global,
        found: &mut Vec<Receiver>,
        except: &Option<Id>,
    ) -> Result<(), RealmFault>
        ensures ok { OnOk result (found.new.items ≡ found.old.items ++ receivers except.now self.now) }
        ensures fault { IsOkUnless result fault.Memory };
}

impl Receiving for Subscription {
    ghost use Rattle.realm_subscriptions.specs.Receiving.{receivers_of};

    ghost receivers = { receivers_of };

    fn add_receivers(
        &self,
        alloc: Global,
        found: &mut Vec<Receiver>,
        except: &Option<Id>,
    ) -> Result<(), RealmFault> {
        if let Some(member) = self.members.only() {
            return add_member(found, self, member, except);
        }
        let members = self.members.to_vec(alloc)?;
        add_members(found, self, &members, except)
    }
}

// Returns the receivers among the groups whose patterns match the URI.
pub(crate) fn receivers_in<G: Receiving>(
    alloc: Global,
    groups: &Groups<G>,
    uri: &Uri<'_>,
    except: &Option<Id>,
) -> Result<Vec<Receiver>, RealmFault>
    ensures found { IfOk result (λ found. found.items
        ≡ flat_map (G.receivers except.now) (matching G.pattern_of groups.now.list uri.now)) }
    ensures fault { IsOkUnless result fault.Memory }
{
    let Ok(list) = groups.all(uri) else {
        return Err(RealmFault::Memory);
    };
    receivers_among(alloc, &list, except)
}

// Returns the receivers of these groups, one after the other.
fn receivers_among<G: Receiving>(
    alloc: Global,
    list: &[&G],
    except: &Option<Id>,
) -> Result<Vec<Receiver>, RealmFault>
    ensures found { IfOk result (λ found. found.items ≡ flat_map (G.receivers except.now) (map (λ group. group.now) list.now)) }
    ensures fault { IsOkUnless result fault.Memory }
{
    let mut found = Vec::new(alloc);
    for group in list {
        group.add_receivers(alloc, &mut found, except)?;
    }
    Ok(found)
}

// Appends those of these members that get the event.
fn add_members(
    found: &mut Vec<Receiver>,
    subscription: &Subscription,
    members: &[Id],
    except: &Option<Id>,
) -> Result<(), RealmFault>
    ensures ok { OnOk result (found.new.items
        ≡ found.old.items ++ map (receiver subscription.now) (filter (is_for except.now) members.now)) }
    ensures fault { IsOkUnless result fault.Memory }
{
    for member in members {
        add_member(found, subscription, *member, except)?;
    }
    Ok(())
}

// Appends this member, if the event is for it.
fn add_member(
    found: &mut Vec<Receiver>,
    subscription: &Subscription,
    member: Id,
    except: &Option<Id>,
) -> Result<(), RealmFault>
    ensures ok { OnOk result (found.new.items
        ≡ found.old.items ++ map (receiver subscription.now) (filter (is_for except.now) (member ∷ []))) }
    ensures fault { IsOkUnless result fault.Memory }
{
    if is_for(except, member) {
        found.push(Receiver {
            subscription: subscription.id,
            matching: subscription.pattern.matching(),
            member,
        })?;
    }
    Ok(())
}

// Returns whether the event is for this member.
fn is_for(except: &Option<Id>, member: Id) -> bool
    ensures { result ≡ is_for except.now member }
{
    match except {
        Some(session) => !(member == *session),
        None => true,
    }
}
