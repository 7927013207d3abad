//! What a realm is made of, out of octets.
ghost use Rattle.std.specs.Prelude.{◌≡◌, ◌≢◌, Ok, Err, IfOk, IfErr, OnOk};
ghost use Rattle.command_codec.specs.Entry.{whole};
ghost use Rattle.command_codec.specs.Number.{number_reading};
ghost use Rattle.realm_snapshot.specs.Forms.{limit_form};
ghost use Rattle.realm_snapshot.specs.Fault.{Takes};
ghost use Rattle.realm_snapshot.specs.Reading.{limits_reading, config_reading, lists_reading, made_reading};

use crate::cursor::Cursor;
use crate::forms::{ID_OR_NONE, LIMIT, VERSION};
use crate::reading_parts::{
    CallReader, LinkReader, RegistrationReader, SubscriptionReader, take_list,
};
use command_codec::CodecFault;
use realm_calls::Open;
use realm_machine::{Limits, Lists};
use realm_registrations::RegistrationParts;
use realm_sessions::Link;
use realm_subscriptions::SubscriptionParts;
use std::alloc::Global;
use std::marker::Model;

// What a realm is made with, and what it is to hold.
pub(crate) struct Made {
    pub(crate) name: String,
    pub(crate) limits: Limits,
    pub(crate) lists: Lists,
}

impl Drop for Made {
    fn drop(self) {
        let Made {
            name: _name,
            limits: _,
            lists: _lists,
        } = self;
    }
}

impl Model for Made {
    ghost use Rattle.std.specs.Prelude.{string_bytes};
    ghost use Rattle.realm_snapshot.specs.Reading.{Made};

    ghost Value = { Made };

    ghost view = { λ a. record { config = record { name = string_bytes a.name; limits = a.limits }; lists = a.lists } };
}

// Returns what these octets say, no more and no less.
pub(crate) fn read(alloc: Global, octets: &[u8]) -> Result<Made, CodecFault>
    ensures taken { IfOk result (λ made. whole (made_reading octets.now) ≡ Ok made) }
    ensures fault { IfErr result (λ fault. fault ≢ CodecFault.Memory → whole (made_reading octets.now) ≡ Err fault) }
{
    let mut made = nothing(alloc);
    let mut cursor = Cursor::new(octets);
    let done = take_whole(alloc, &mut made, &mut cursor);
    drop(cursor);
    done.and(Ok(made))
}

// Returns what is filled in.
fn nothing(alloc: Global) -> Made {
    Made {
        name: String::new(alloc),
        limits: Limits {
            sessions: 0,
            registrations: 0,
            subscriptions: 0,
            calls: 0,
        },
        lists: Lists {
            links: Vec::new(alloc),
            registrations: Vec::new(alloc),
            last_registration: 0,
            subscriptions: Vec::new(alloc),
            last_subscription: 0,
            calls: Vec::new(alloc),
        },
    }
}

// Fills in what the octets say, after which none is left.
fn take_whole(alloc: Global, made: &mut Made, cursor: &mut Cursor<'_>) -> Result<(), CodecFault>
    ensures taken { OnOk result (whole (made_reading cursor.old) ≡ Ok made.new) }
    ensures fault { IfErr result (λ fault. fault ≢ CodecFault.Memory → whole (made_reading cursor.old) ≡ Err fault) }
{
    take_made(alloc, made, cursor)?;
    if !cursor.is_at_end() {
        return Err(CodecFault::Rest);
    }
    Ok(())
}

// Fills in what the octets at the head say.
fn take_made(alloc: Global, made: &mut Made, cursor: &mut Cursor<'_>) -> Result<(), CodecFault>
    ensures taken { OnOk result (made_reading cursor.old ≡ Ok (made.new, cursor.new)) }
    ensures fault { IfErr result (λ fault. fault ≢ CodecFault.Memory → made_reading cursor.old ≡ Err fault) }
{
    take_config(alloc, made, cursor)?;
    take_lists(alloc, &mut made.lists, cursor)
}

// Fills in the name and the limits.
fn take_config(alloc: Global, made: &mut Made, cursor: &mut Cursor<'_>) -> Result<(), CodecFault>
    ensures taken { OnOk result (config_reading cursor.old ≡ Ok (made.new.config, cursor.new)) }
    ensures fault { IfErr result (λ fault. fault ≢ CodecFault.Memory → config_reading cursor.old ≡ Err fault) }
{
    let _version = cursor.number(VERSION)?;
    made.name = cursor.name(alloc)?;
    made.limits = take_limits(cursor)?;
    Ok(())
}

fn take_limits(cursor: &mut Cursor<'_>) -> Result<Limits, CodecFault>
    ensures { Takes result (limits_reading cursor.old) cursor.new }
{
    let sessions = take_limit(cursor)?;
    let registrations = take_limit(cursor)?;
    let subscriptions = take_limit(cursor)?;
    let calls = take_limit(cursor)?;
    Ok(Limits {
        sessions,
        registrations,
        subscriptions,
        calls,
    })
}

fn take_limit(cursor: &mut Cursor<'_>) -> Result<u32, CodecFault>
    ensures { Takes result (number_reading limit_form cursor.old) cursor.new }
{
    let number = cursor.number(LIMIT)?;
    Ok(number as u32)
}

// Fills in the lists.
fn take_lists(alloc: Global, lists: &mut Lists, cursor: &mut Cursor<'_>) -> Result<(), CodecFault>
    ensures taken { OnOk result (lists_reading cursor.old ≡ Ok (lists.new, cursor.new)) }
    ensures fault { IfErr result (λ fault. fault ≢ CodecFault.Memory → lists_reading cursor.old ≡ Err fault) }
{
    lists.last_registration = cursor.number(ID_OR_NONE)?;
    lists.last_subscription = cursor.number(ID_OR_NONE)?;
    lists.links = take_list::<Link, LinkReader>(alloc, cursor)?;
    lists.registrations = take_list::<RegistrationParts, RegistrationReader>(alloc, cursor)?;
    lists.subscriptions = take_list::<SubscriptionParts, SubscriptionReader>(alloc, cursor)?;
    lists.calls = take_list::<Open, CallReader>(alloc, cursor)?;
    Ok(())
}
