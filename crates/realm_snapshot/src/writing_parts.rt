//! What a realm holds as octets, one by one. Each `back` says that what was written is read again, whatever follows;
//! each `only`, that nothing else is read of it, also where a number of it is out of its range.
ghost use Rattle.std.specs.Prelude.{◌≡◌, ◌<◌, ◌^◌, ◌++◌, ℕ, List, None, Some, true, OnOk, IsOkUnless};
ghost use Rattle.command_codec.specs.Number.{Reading, number_reading};
ghost use Rattle.realm_sessions.specs.Restoring.{is_numbered};
ghost use Rattle.replica_machine.specs.declared.fault.SaveFault.TheVariants as fault;
ghost use Rattle.realm_snapshot.specs.Writing.{one_octet, two_octets, four_octets, eight_octets, flag_octets, option_octets};
ghost use Rattle.realm_snapshot.specs.Writing.{name_octets, text_octets, list_octets, transport_octets, session_octets};
ghost use Rattle.realm_snapshot.specs.Writing.{link_octets, call_octets};
ghost use Rattle.realm_snapshot.specs.Forms.{count_form, limit_form};
ghost use Rattle.realm_snapshot.specs.Reading.{id_reading, option_reading, name_reading, pattern_reading, list_reading, session_reading};
ghost use Rattle.realm_snapshot.specs.Reading.{transport_reading, link_reading, call_reading};
ghost use Rattle.realm_snapshot.specs.Snapshot.{Backs, ReadsNoOther};

use crate::forms::{invoke_number, match_number};
use paxos_packets::Transport;
use realm_calls::Open;
use realm_registrations::Registration;
use realm_sessions::{Link, Session};
use realm_subscriptions::Subscription;
use replica_machine::SaveFault;
use std::alloc::Global;
use wamp_ids::{Id, Pattern};

// ---- numbers and texts

pub(crate) fn put_one(number: u8, out: &mut Vec<u8>) -> Result<(), SaveFault>
    ensures ok { OnOk result (out.new.items ≡ out.old.items ++ one_octet number) }
    ensures fits { number < 2 ^ 8 }
    ensures fault { IsOkUnless result fault.Memory }
{
    out.extend_from_slice(&number.to_be_bytes())?;
    Ok(())
}

#[tactic(auto, unfolding(crate::specs::Writing::four_octets))]
pub(crate) fn put_four(number: u32, out: &mut Vec<u8>) -> Result<(), SaveFault>
    ensures ok { OnOk result (out.new.items ≡ out.old.items ++ four_octets number) }
    ensures back { Backs (number_reading limit_form) (four_octets number) number }
    ensures fits { number < 2 ^ 32 }
    ensures fault { IsOkUnless result fault.Memory }
{
    out.extend_from_slice(&number.to_be_bytes())?;
    Ok(())
}

#[tactic(auto, unfolding(crate::specs::Writing::eight_octets))]
pub(crate) fn put_number(number: u64, out: &mut Vec<u8>) -> Result<(), SaveFault>
    ensures ok { OnOk result (out.new.items ≡ out.old.items ++ eight_octets number) }
    ensures fits { number < 2 ^ 64 }
    ensures fault { IsOkUnless result fault.Memory }
{
    out.extend_from_slice(&number.to_be_bytes())?;
    Ok(())
}

// Puts how many there are of something.
pub(crate) fn put_count(count: usize, out: &mut Vec<u8>) -> Result<(), SaveFault>
    ensures ok { OnOk result (out.new.items ≡ out.old.items ++ eight_octets count) }
    ensures back { Backs (number_reading count_form) (eight_octets count) count }
    ensures fault { IsOkUnless result fault.Memory }
{
    put_number(count as u64, out)
}

fn put_id(id: Id, out: &mut Vec<u8>) -> Result<(), SaveFault>
    ensures ok { OnOk result (out.new.items ≡ out.old.items ++ eight_octets id) }
    ensures back { Backs id_reading (eight_octets id) id }
    ensures fault { IsOkUnless result fault.Memory }
{
    put_number(id.get(), out)
}

// Puts the id, or 0 for none.
fn put_option(id: &Option<Id>, out: &mut Vec<u8>) -> Result<(), SaveFault>
    ensures ok { OnOk result (out.new.items ≡ out.old.items ++ option_octets id.now) }
    ensures back { Backs option_reading (option_octets id.now) id.now }
    ensures fault { IsOkUnless result fault.Memory }
{
    match id {
        Some(id) => put_id(*id, out),
        None => put_number(0, out),
    }
}

fn put_flag(flag: bool, out: &mut Vec<u8>) -> Result<(), SaveFault>
    ensures ok { OnOk result (out.new.items ≡ out.old.items ++ flag_octets flag) }
    ensures fault { IsOkUnless result fault.Memory }
{
    if flag {
        return put_one(1, out);
    }
    put_one(0, out)
}

// Puts the realm's name, after the number of its octets.
pub(crate) fn put_name(name: &str, out: &mut Vec<u8>) -> Result<(), SaveFault>
    ensures ok { OnOk result (out.new.items ≡ out.old.items ++ name_octets name.now) }
    ensures back { OnOk result (Backs name_reading (name_octets name.now) name.now) }
    ensures fault { IsOkUnless result fault.Memory }
{
    put_count(name.len(), out)?;
    out.extend_from_slice(name.as_bytes())?;
    Ok(())
}

// Puts the pattern's text, after the number of its octets, of which it has at most 1,024.
fn put_text(pattern: &Pattern<'_>, out: &mut Vec<u8>) -> Result<(), SaveFault>
    ensures ok { OnOk result (out.new.items ≡ out.old.items ++ text_octets pattern.now.text) }
    ensures back { OnOk result (Backs (pattern_reading pattern.now.matching) (text_octets pattern.now.text) pattern.now) }
    ensures fault { IsOkUnless result fault.Memory }
{
    let text = pattern.as_str();
    put_two(text.len() as u16, out)?;
    out.extend_from_slice(text.as_bytes())?;
    Ok(())
}

#[tactic(auto, unfolding(crate::specs::Writing::two_octets))]
fn put_two(number: u16, out: &mut Vec<u8>) -> Result<(), SaveFault>
    ensures ok { OnOk result (out.new.items ≡ out.old.items ++ two_octets number) }
    ensures fault { IsOkUnless result fault.Memory }
{
    out.extend_from_slice(&number.to_be_bytes())?;
    Ok(())
}

fn put_ids(ids: &[Id], out: &mut Vec<u8>) -> Result<(), SaveFault>
    ensures ok { OnOk result (out.new.items ≡ out.old.items ++ list_octets eight_octets ids.now) }
    ensures back { OnOk result (Backs (list_reading id_reading) (list_octets eight_octets ids.now) ids.now) }
    ensures fault { IsOkUnless result fault.Memory }
{
    put_count(ids.len(), out)?;
    for id in ids {
        put_id(*id, out)?;
    }
    Ok(())
}

// ---- what a realm holds

pub(crate) fn put_link(link: &Link, out: &mut Vec<u8>) -> Result<(), SaveFault>
    ensures ok { OnOk result (out.new.items ≡ out.old.items ++ link_octets link.now) }
    ensures back { OnOk result (is_numbered link.now.transport ≡ true → Backs link_reading (link_octets link.now) link.now) }
    ensures only { OnOk result (ReadsNoOther link_reading (link_octets link.now) link.now) }
    ensures fault { IsOkUnless result fault.Memory }
{
    put_transport(&link.transport, out)?;
    put_session(&link.session, out)
}

fn put_transport(transport: &Transport, out: &mut Vec<u8>) -> Result<(), SaveFault>
    ensures ok { OnOk result (out.new.items ≡ out.old.items ++ transport_octets transport.now) }
    ensures back { OnOk result (is_numbered transport.now ≡ true
        → Backs transport_reading (transport_octets transport.now) transport.now) }
    ensures only { OnOk result (ReadsNoOther transport_reading (transport_octets transport.now) transport.now) }
    ensures fault { IsOkUnless result fault.Memory }
{
    put_one(transport.node, out)?;
    put_number(transport.boot, out)?;
    put_four(transport.number, out)
}

fn put_session(session: &Option<Session>, out: &mut Vec<u8>) -> Result<(), SaveFault>
    ensures ok { OnOk result (out.new.items ≡ out.old.items ++ session_octets session.now) }
    ensures back { OnOk result (Backs session_reading (session_octets session.now) session.now) }
    ensures fault { IsOkUnless result fault.Memory }
{
    match session {
        Some(session) => put_joined(session, out),
        None => put_no_session(out),
    }
}

fn put_joined(session: &Session, out: &mut Vec<u8>) -> Result<(), SaveFault>
    ensures ok { OnOk result (out.new.items ≡ out.old.items ++ session_octets (Some session.now)) }
    ensures back { OnOk result (Backs session_reading (session_octets (Some session.now)) (Some session.now)) }
    ensures fault { IsOkUnless result fault.Memory }
{
    put_id(session.id, out)?;
    put_flag(session.canceling, out)?;
    put_option(&session.last_invocation, out)
}

fn put_no_session(out: &mut Vec<u8>) -> Result<(), SaveFault>
    ensures ok { OnOk result (out.new.items ≡ out.old.items ++ session_octets None) }
    ensures fault { IsOkUnless result fault.Memory }
{
    put_number(0, out)?;
    put_one(0, out)?;
    put_number(0, out)
}

// A group of a realm as octets.
pub(crate) trait Puts {
    ghost octets: { Self → List ℕ };

    ghost reading: { List ℕ → Reading Self };

    // Puts the group.
    fn put(&self, alloc: Global, out: &mut Vec<u8>) -> Result<(), SaveFault>
        ensures ok { OnOk result (out.new.items ≡ out.old.items ++ octets self.now) }
        ensures back { OnOk result (Backs reading (octets self.now) self.now) }
        ensures fault { IsOkUnless result fault.Memory };
}

// Its callees are in the order of their turns.
impl Puts for Registration {
    ghost use Rattle.realm_snapshot.specs.Writing.{registration_octets};
    ghost use Rattle.realm_snapshot.specs.Reading.{registration_reading};

    ghost octets = { registration_octets };

    ghost reading = { registration_reading };

    fn put(&self, alloc: Global, out: &mut Vec<u8>) -> Result<(), SaveFault> {
        put_id(self.id, out)?;
        put_one(match_number(self.pattern.matching()), out)?;
        put_one(invoke_number(self.invoke), out)?;
        put_text(&self.pattern, out)?;
        let Ok(callees) = self.callees.to_vec(alloc) else {
            return Err(SaveFault::Memory);
        };
        put_ids(&callees, out)
    }
}

// Its members are in the order of joining.
impl Puts for Subscription {
    ghost use Rattle.realm_snapshot.specs.Writing.{subscription_octets};
    ghost use Rattle.realm_snapshot.specs.Reading.{subscription_reading};

    ghost octets = { subscription_octets };

    ghost reading = { subscription_reading };

    fn put(&self, alloc: Global, out: &mut Vec<u8>) -> Result<(), SaveFault> {
        put_id(self.id, out)?;
        put_one(match_number(self.pattern.matching()), out)?;
        put_text(&self.pattern, out)?;
        let Ok(members) = self.members.to_vec(alloc) else {
            return Err(SaveFault::Memory);
        };
        put_ids(&members, out)
    }
}

pub(crate) fn put_call(call: &Open, out: &mut Vec<u8>) -> Result<(), SaveFault>
    ensures ok { OnOk result (out.new.items ≡ out.old.items ++ call_octets call.now) }
    ensures back { OnOk result (Backs call_reading (call_octets call.now) call.now) }
    ensures fault { IsOkUnless result fault.Memory }
{
    put_id(call.caller, out)?;
    put_id(call.request, out)?;
    put_id(call.callee, out)?;
    put_id(call.invocation, out)?;
    put_flag(call.progress, out)
}
