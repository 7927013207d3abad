//! What a realm holds, out of octets.
ghost use Rattle.std.specs.Prelude.{◌≡◌, ◌≢◌, List, ℕ, Ok, Err, IfOk, IfErr};
ghost use Rattle.command_codec.specs.Number.{Reading};
ghost use Rattle.realm_snapshot.specs.Fault.{Takes};
ghost use Rattle.realm_snapshot.specs.Reading.{elements_reading, list_reading, transport_reading, session_of, session_reading};

use crate::cursor::Cursor;
use crate::forms::{BOOT, NODE, TRANSPORT};
use command_codec::CodecFault;
use paxos_packets::Transport;
use realm_calls::Open;
use realm_registrations::RegistrationParts;
use realm_sessions::{Link, Session};
use realm_subscriptions::SubscriptionParts;
use std::alloc::Global;
use wamp_ids::Id;

// What reads an element of a list.
pub(crate) trait Reads<T> {
    ghost reading: { List ℕ → Reading T };

    // Takes the element at the head of what is left.
    fn take(alloc: Global, cursor: &mut Cursor<'_>) -> Result<T, CodecFault>
        ensures { Takes result (reading cursor.old) cursor.new };
}

// Takes a list, after the number of its elements.
pub(crate) fn take_list<T: Drop, R: Reads<T>>(
    alloc: Global,
    cursor: &mut Cursor<'_>,
) -> Result<Vec<T>, CodecFault>
    ensures taken { IfOk result (λ list. list_reading R.reading cursor.old ≡ Ok (list.items, cursor.new)) }
    ensures fault { IfErr result (λ fault. fault ≢ CodecFault.Memory → list_reading R.reading cursor.old ≡ Err fault) }
{
    let count = cursor.count()?;
    take_elements::<T, R>(alloc, count, cursor)
}

// Takes this many elements.
fn take_elements<T: Drop, R: Reads<T>>(
    alloc: Global,
    count: u64,
    cursor: &mut Cursor<'_>,
) -> Result<Vec<T>, CodecFault>
    ensures taken { IfOk result (λ list. elements_reading R.reading count cursor.old ≡ Ok (list.items, cursor.new)) }
    ensures fault { IfErr result (λ fault. fault ≢ CodecFault.Memory → elements_reading R.reading count cursor.old ≡ Err fault) }
{
    let mut list = Vec::new(alloc);
    for _turn in 0..count {
        let element = R::take(alloc, cursor)?;
        list.push(element)?;
    }
    Ok(list)
}

pub(crate) struct IdReader;

impl Reads<Id> for IdReader {
    ghost use Rattle.realm_snapshot.specs.Reading.{id_reading};

    ghost reading = { id_reading };

    fn take(_alloc: Global, cursor: &mut Cursor<'_>) -> Result<Id, CodecFault> {
        cursor.id()
    }
}

pub(crate) struct LinkReader;

impl Reads<Link> for LinkReader {
    ghost use Rattle.realm_snapshot.specs.Reading.{link_reading};

    ghost reading = { link_reading };

    fn take(_alloc: Global, cursor: &mut Cursor<'_>) -> Result<Link, CodecFault> {
        let transport = take_transport(cursor)?;
        let session = take_session(cursor)?;
        Ok(Link { transport, session })
    }
}

fn take_transport(cursor: &mut Cursor<'_>) -> Result<Transport, CodecFault>
    ensures { Takes result (transport_reading cursor.old) cursor.new }
{
    let node = cursor.number(NODE)?;
    let boot = cursor.number(BOOT)?;
    let number = cursor.number(TRANSPORT)?;
    Ok(Transport {
        node: node as u8,
        boot,
        number: number as u32,
    })
}

fn take_session(cursor: &mut Cursor<'_>) -> Result<Option<Session>, CodecFault>
    ensures { Takes result (session_reading cursor.old) cursor.new }
{
    let id = cursor.option()?;
    let canceling = cursor.flag()?;
    let last = cursor.option()?;
    session_of(id, canceling, last)
}

// Returns the session of these, or that there is none, if there is nothing else of one either.
fn session_of(
    id: Option<Id>,
    canceling: bool,
    last_invocation: Option<Id>,
) -> Result<Option<Session>, CodecFault>
    ensures { (rest : List ℕ) → Takes result (session_of id canceling last_invocation rest) rest }
{
    let Some(id) = id else {
        if canceling || last_invocation.is_some() {
            return Err(CodecFault::Range);
        }
        return Ok(None);
    };
    Ok(Some(Session {
        id,
        canceling,
        last_invocation,
    }))
}

pub(crate) struct RegistrationReader;

impl Reads<RegistrationParts> for RegistrationReader {
    ghost use Rattle.realm_snapshot.specs.Reading.{registration_reading};

    ghost reading = { registration_reading };

    fn take(alloc: Global, cursor: &mut Cursor<'_>) -> Result<RegistrationParts, CodecFault> {
        let id = cursor.id()?;
        let matching = cursor.matching()?;
        let invoke = cursor.invoke()?;
        let pattern = cursor.pattern(alloc, matching)?;
        let callees = take_list::<Id, IdReader>(alloc, cursor)?;
        Ok(RegistrationParts {
            id,
            pattern,
            invoke,
            callees,
        })
    }
}

pub(crate) struct SubscriptionReader;

impl Reads<SubscriptionParts> for SubscriptionReader {
    ghost use Rattle.realm_snapshot.specs.Reading.{subscription_reading};

    ghost reading = { subscription_reading };

    fn take(alloc: Global, cursor: &mut Cursor<'_>) -> Result<SubscriptionParts, CodecFault> {
        let id = cursor.id()?;
        let matching = cursor.matching()?;
        let pattern = cursor.pattern(alloc, matching)?;
        let members = take_list::<Id, IdReader>(alloc, cursor)?;
        Ok(SubscriptionParts {
            id,
            pattern,
            members,
        })
    }
}

pub(crate) struct CallReader;

impl Reads<Open> for CallReader {
    ghost use Rattle.realm_snapshot.specs.Reading.{call_reading};

    ghost reading = { call_reading };

    fn take(_alloc: Global, cursor: &mut Cursor<'_>) -> Result<Open, CodecFault> {
        let caller = cursor.id()?;
        let request = cursor.id()?;
        let callee = cursor.id()?;
        let invocation = cursor.id()?;
        let progress = cursor.flag()?;
        Ok(Open {
            caller,
            request,
            callee,
            invocation,
            progress,
        })
    }
}
