// The messages of registrations.
ghost use Rattle.std.specs.Prelude.{◌≡◌, option_map, OnOk};
ghost use Rattle.wamp_values.specs.Tokens.{data_tokens, Appends};
ghost use Rattle.wamp_message_layouts.specs.Elements.{elements};
ghost use Rattle.wamp_message_layouts.specs.Layouts.{seen_asked};
ghost use Rattle.wamp_messages.specs.Message.{IsId};
ghost use Rattle.wamp_messages.specs.Register.{register_in, register_read, register_value, register_options, unfit_register};
ghost use Rattle.wamp_messages.specs.Register.{told_match, shared_options, invoke_and_match, registered_in, registered_value, unregister_in, unregister_value};
ghost use Rattle.wamp_messages.specs.Register.{unregistered_in, unregistered_value};

use crate::shared::{begin_with_id, end_with_text, put_id, put_ids};
use crate::subscribe::put_match_options;
use json::Writer;
use serde_json::Value;
use std::alloc::AllocError;
use std::vec::IntoIter;
use wamp_ids::{Id, Invoke, Match};
use wamp_message_layouts::{
    UriRequest, id_dictionary_text, one_id, open, put_text_option, two_ids,
};
use wamp_message_types::{
    Message, Read, Register, Registered, UnfitKind, Unregister, Unregistered, codes,
};
use wamp_values::{invoke_in, match_in};

// Reads the elements after the code of REGISTER.
pub(crate) fn read_register(rest: IntoIter<Value>) -> Read
    ensures { result ≡ register_in (elements rest) }
{
    match id_dictionary_text(rest) {
        Ok(uri_request) => register_of(uri_request),
        Err(fault) => Read::Bad(fault),
    }
}

fn register_of(uri_request: UriRequest) -> Read
    ensures { result ≡ register_read (seen_asked uri_request) }
{
    let UriRequest {
        request,
        options,
        uri,
        args,
    } = uri_request;
    let modes = (match_in(&options), invoke_in(&options));
    drop((options, args));
    let (Some(matching), Some(invoke)) = modes else {
        drop(uri);
        return unfit(request);
    };
    Read::Good(Message::Register(Register {
        request,
        matching,
        invoke,
        procedure: uri,
    }))
}

pub(crate) fn put_register(register: &Register, out: &mut Writer) -> Result<(), AllocError>
    ensures tokens { Appends result out.old out.new (data_tokens (register_value register.now)) }
    ensures parts { OnOk result (IsId register.now.request) }
{
    begin_with_id(codes::REGISTER, register.request, out)?;
    put_register_options(register.invoke, register.matching, out)?;
    end_with_text(&register.procedure, out)
}

// Reads the elements after the code of REGISTERED.
pub(crate) fn read_registered(rest: IntoIter<Value>) -> Read
    ensures { result ≡ registered_in (elements rest) }
{
    match two_ids(rest) {
        Ok(ids) => Read::Good(Message::Registered(Registered {
            request: ids.first,
            registration: ids.second,
        })),
        Err(fault) => Read::Bad(fault),
    }
}

pub(crate) fn put_registered(registered: Registered, out: &mut Writer) -> Result<(), AllocError>
    ensures tokens { Appends result out.old out.new (data_tokens (registered_value registered)) }
    ensures parts { OnOk result (IsId registered.request × IsId registered.registration) }
{
    put_ids(
        codes::REGISTERED,
        registered.request,
        registered.registration,
        out,
    )
}

// Reads the elements after the code of UNREGISTER.
pub(crate) fn read_unregister(rest: IntoIter<Value>) -> Read
    ensures { result ≡ unregister_in (elements rest) }
{
    match two_ids(rest) {
        Ok(ids) => Read::Good(Message::Unregister(Unregister {
            request: ids.first,
            registration: ids.second,
        })),
        Err(fault) => Read::Bad(fault),
    }
}

pub(crate) fn put_unregister(unregister: Unregister, out: &mut Writer) -> Result<(), AllocError>
    ensures tokens { Appends result out.old out.new (data_tokens (unregister_value unregister)) }
    ensures parts { OnOk result (IsId unregister.request × IsId unregister.registration) }
{
    put_ids(
        codes::UNREGISTER,
        unregister.request,
        unregister.registration,
        out,
    )
}

// Reads the elements after the code of UNREGISTERED.
pub(crate) fn read_unregistered(rest: IntoIter<Value>) -> Read
    ensures { result ≡ unregistered_in (elements rest) }
{
    match one_id(rest) {
        Ok(request) => Read::Good(Message::Unregistered(Unregistered { request })),
        Err(fault) => Read::Bad(fault),
    }
}

pub(crate) fn put_unregistered(
    unregistered: Unregistered,
    out: &mut Writer,
) -> Result<(), AllocError>
    ensures tokens { Appends result out.old out.new (data_tokens (unregistered_value unregistered)) }
    ensures parts { OnOk result (IsId unregistered.request) }
{
    put_id(codes::UNREGISTERED, unregistered.request, out)
}

fn unfit(request: Id) -> Read
    ensures { result ≡ unfit_register request }
{
    Read::Unfit {
        kind: UnfitKind::Register,
        request,
        quiet: false,
    }
}

fn put_register_options(invoke: Invoke, matching: Match, out: &mut Writer) -> Result<(), AllocError>
    ensures { Appends result out.old out.new (data_tokens (register_options invoke matching)) }
{
    match invoke {
        Invoke::Single => put_match_options(matching, out),
        Invoke::First => put_shared_options("first", matching, out),
        Invoke::Last => put_shared_options("last", matching, out),
        Invoke::RoundRobin => put_shared_options("roundrobin", matching, out),
    }
}

// Writes the options of a shared registration.
fn put_shared_options(invoke: &str, matching: Match, out: &mut Writer) -> Result<(), AllocError>
    ensures { Appends result out.old out.new (data_tokens (shared_options invoke.now matching)) }
{
    match told_match(matching) {
        Some(matching) => put_invoke_and_match(invoke, matching, out),
        None => put_text_option("invoke", invoke, out),
    }
}

// Returns the name of a match that is written: of each but the exact one.
fn told_match(matching: Match) -> Option<&'static str>
    ensures { option_map (λ name. name.now) result ≡ told_match matching }
{
    match matching {
        Match::Exact => None,
        Match::Prefix => Some("prefix"),
        Match::Wildcard => Some("wildcard"),
    }
}

fn put_invoke_and_match(invoke: &str, matching: &str, out: &mut Writer) -> Result<(), AllocError>
    ensures { Appends result out.old out.new (data_tokens (invoke_and_match invoke.now matching.now)) }
{
    open("invoke", out)?;
    out.string(invoke)?;
    out.key("match")?;
    out.string(matching)?;
    out.end_object()
}
