//! A realm as octets: its lists. Each `back` says that what was written is read again, whatever follows; each `only`, that nothing
//! else is read of it, also where a number of it is out of its range.
ghost use Rattle.std.specs.Prelude.{◌≡◌, ◌++◌, map, MatchResult, IsErr, OnOk, IsOkUnless};
ghost use Rattle.replica_machine.specs.declared.fault.SaveFault.TheVariants as fault;
ghost use Rattle.realm_snapshot.specs.Writing.{list_octets, link_octets, registration_octets, subscription_octets, call_octets};
ghost use Rattle.realm_snapshot.specs.Writing.{config_octets, limits_octets, saved};
ghost use Rattle.realm_machine.specs.Parts.{lists_of};
ghost use Rattle.realm_snapshot.specs.Reading.{list_reading, link_reading, registration_reading, subscription_reading, call_reading};
ghost use Rattle.realm_snapshot.specs.Reading.{config_reading, limits_reading, made_reading};
ghost use Rattle.realm_snapshot.specs.Snapshot.{AreNumbered, Backs, ReadsNoOther};

use crate::writing_parts::{
    Puts, put_call, put_count, put_four, put_link, put_name, put_number, put_one,
};
use realm_calls::{Calls, Open};
use realm_machine::{Limits, Parts};
use realm_registrations::Registrations;
use realm_sessions::{Link, RealmFault, Sessions};
use realm_subscriptions::Subscriptions;
use replica_machine::SaveFault;
use std::alloc::Global;

// Puts a realm.
pub(crate) fn put_realm(
    alloc: Global,
    parts: &Parts<'_>,
    out: &mut Vec<u8>,
) -> Result<(), SaveFault>
    ensures ok { OnOk result (out.new.items ≡ out.old.items ++ saved parts.now) }
    ensures back { OnOk result (AreNumbered parts.now.content.sessions.list
        → Backs made_reading (saved parts.now) (record { config = parts.now.config; lists = lists_of parts.now.content })) }
    ensures only { OnOk result (ReadsNoOther made_reading (saved parts.now)
        (record { config = parts.now.config; lists = lists_of parts.now.content })) }
    ensures fault { IsOkUnless result fault.Memory }
{
    put_config(parts.name, &parts.limits, out)?;
    put_number(parts.registrations.last(), out)?;
    put_number(parts.subscriptions.last(), out)?;
    put_sessions(parts.sessions, out)?;
    put_registered(alloc, parts.registrations, out)?;
    put_subscribed(alloc, parts.subscriptions, out)?;
    put_open(parts.calls, out)
}

// Puts the version and what the realm is made with.
fn put_config(name: &str, limits: &Limits, out: &mut Vec<u8>) -> Result<(), SaveFault>
    ensures ok { OnOk result (out.new.items ≡ out.old.items ++ config_octets (record { name = name.now; limits = limits.now })) }
    ensures back { OnOk result (Backs config_reading (config_octets (record { name = name.now; limits = limits.now }))
        (record { name = name.now; limits = limits.now })) }
    ensures fault { IsOkUnless result fault.Memory }
{
    put_one(1, out)?;
    put_name(name, out)?;
    put_limits(limits, out)
}

fn put_limits(limits: &Limits, out: &mut Vec<u8>) -> Result<(), SaveFault>
    ensures ok { OnOk result (out.new.items ≡ out.old.items ++ limits_octets limits.now) }
    ensures back { OnOk result (Backs limits_reading (limits_octets limits.now) limits.now) }
    ensures fault { IsOkUnless result fault.Memory }
{
    put_four(limits.sessions, out)?;
    put_four(limits.registrations, out)?;
    put_four(limits.subscriptions, out)?;
    put_four(limits.calls, out)
}

fn put_sessions(sessions: &Sessions, out: &mut Vec<u8>) -> Result<(), SaveFault>
    ensures ok { OnOk result (out.new.items ≡ out.old.items ++ list_octets link_octets sessions.now.list) }
    ensures back { OnOk result (AreNumbered sessions.now.list
        → Backs (list_reading link_reading) (list_octets link_octets sessions.now.list) sessions.now.list) }
    ensures only { OnOk result (ReadsNoOther (list_reading link_reading)
        (list_octets link_octets sessions.now.list) sessions.now.list) }
    ensures fault { IsOkUnless result fault.Memory }
{
    match sessions.to_vec() {
        Ok(list) => put_links(&list, out),
        Err(_) => Err(SaveFault::Memory),
    }
}

fn put_links(links: &[Link], out: &mut Vec<u8>) -> Result<(), SaveFault>
    ensures ok { OnOk result (out.new.items ≡ out.old.items ++ list_octets link_octets links.now) }
    ensures back { OnOk result (AreNumbered links.now
        → Backs (list_reading link_reading) (list_octets link_octets links.now) links.now) }
    ensures only { OnOk result (ReadsNoOther (list_reading link_reading) (list_octets link_octets links.now) links.now) }
    ensures fault { IsOkUnless result fault.Memory }
{
    put_count(links.len(), out)?;
    for link in links {
        put_link(link, out)?;
    }
    Ok(())
}

fn put_registered(
    alloc: Global,
    registrations: &Registrations,
    out: &mut Vec<u8>,
) -> Result<(), SaveFault>
    ensures ok { OnOk result (out.new.items ≡ out.old.items ++ list_octets registration_octets registrations.now.list) }
    ensures back { OnOk result (Backs (list_reading registration_reading)
        (list_octets registration_octets registrations.now.list) registrations.now.list) }
    ensures fault { IsOkUnless result fault.Memory }
{
    put_groups(alloc, registrations.to_vec(), out)
}

fn put_subscribed(
    alloc: Global,
    subscriptions: &Subscriptions,
    out: &mut Vec<u8>,
) -> Result<(), SaveFault>
    ensures ok { OnOk result (out.new.items ≡ out.old.items ++ list_octets subscription_octets subscriptions.now.list) }
    ensures back { OnOk result (Backs (list_reading subscription_reading)
        (list_octets subscription_octets subscriptions.now.list) subscriptions.now.list) }
    ensures fault { IsOkUnless result fault.Memory }
{
    put_groups(alloc, subscriptions.to_vec(), out)
}

// Puts the groups that were listed, unless there was no memory to list them.
fn put_groups<G: Puts>(
    alloc: Global,
    listed: Result<Vec<&G>, RealmFault>,
    out: &mut Vec<u8>,
) -> Result<(), SaveFault>
    ensures ok { MatchResult listed.entry (λ list. OnOk result (out.new.items ≡ out.old.items
        ++ list_octets G.octets (map (λ group. group.now) list.items))) (λ _. IsErr result) }
    ensures back { MatchResult listed.entry (λ list. OnOk result (Backs (list_reading G.reading)
        (list_octets G.octets (map (λ group. group.now) list.items)) (map (λ group. group.now) list.items))) (λ _. IsErr result) }
    ensures fault { IsOkUnless result fault.Memory }
{
    match listed {
        Ok(list) => put_each(alloc, &list, out),
        Err(_) => Err(SaveFault::Memory),
    }
}

fn put_each<G: Puts>(alloc: Global, list: &[&G], out: &mut Vec<u8>) -> Result<(), SaveFault>
    ensures ok { OnOk result (out.new.items ≡ out.old.items
        ++ list_octets G.octets (map (λ group. group.now) list.now)) }
    ensures back { OnOk result (Backs (list_reading G.reading)
        (list_octets G.octets (map (λ group. group.now) list.now)) (map (λ group. group.now) list.now)) }
    ensures fault { IsOkUnless result fault.Memory }
{
    put_count(list.len(), out)?;
    for group in list {
        group.put(alloc, out)?;
    }
    Ok(())
}

fn put_open(calls: &Calls, out: &mut Vec<u8>) -> Result<(), SaveFault>
    ensures ok { OnOk result (out.new.items ≡ out.old.items ++ list_octets call_octets calls.now.list) }
    ensures back { OnOk result (Backs (list_reading call_reading) (list_octets call_octets calls.now.list) calls.now.list) }
    ensures fault { IsOkUnless result fault.Memory }
{
    match calls.to_vec() {
        Ok(list) => put_calls(&list, out),
        Err(_) => Err(SaveFault::Memory),
    }
}

fn put_calls(calls: &[Open], out: &mut Vec<u8>) -> Result<(), SaveFault>
    ensures ok { OnOk result (out.new.items ≡ out.old.items ++ list_octets call_octets calls.now) }
    ensures back { OnOk result (Backs (list_reading call_reading) (list_octets call_octets calls.now) calls.now) }
    ensures fault { IsOkUnless result fault.Memory }
{
    put_count(calls.len(), out)?;
    for call in calls {
        put_call(call, out)?;
    }
    Ok(())
}
