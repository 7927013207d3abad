// Readers of layouts: each takes an array's elements, and returns the parts that its messages are made of, or the array's fault.
ghost use Rattle.std.specs.Prelude.{◌≡◌, Some, None};
ghost use Rattle.serde_json.specs.Data.{no_items, item};
ghost use Rattle.serde_json.specs.View.{view};
ghost use Rattle.wamp_message_layouts.specs.Elements.{elements};
ghost use Rattle.wamp_message_layouts.specs.Layouts as layout;
ghost use Rattle.wamp_message_layouts.specs.Layouts.{taken, checked, seen_named, seen_numbered, seen_request};
ghost use Rattle.wamp_message_layouts.specs.Layouts.{two_ids_of, named_of, numbered_of, reason_of, asked_of, one_id_of, stopped_of};

use crate::elements::{exactly_one, exactly_three, exactly_two, id_in, is_whole};
use serde_json::Value;
use std::vec::IntoIter;
use wamp_ids::{Id, Mode, Text};
use wamp_message_types::MessageFault;
use wamp_values::{Args, mode_named};

/// Two ids.
#[derive(Clone, Copy, Drop)]
pub struct TwoIds {
    pub first: Id,
    pub second: Id,
}

/// A name, and details.
#[derive(Drop)]
pub struct NamedDetails {
    pub name: Text,
    pub details: Value,
}

/// An id, and details or options.
#[derive(Drop)]
pub struct NumberedDetails {
    pub id: Id,
    pub details: Value,
}

/// A request, and how it is stopped.
#[derive(Clone, Copy, Drop)]
pub struct Stopped {
    pub request: Id,
    pub mode: Mode,
}

/// A request, options or details, and the arguments that answer it; `None` if some number is not kept exactly.
#[derive(Drop)]
pub struct Answered {
    pub request: Id,
    pub details: Value,
    pub args: Option<Args>,
}

/// Why the sender leaves.
#[derive(Drop)]
pub struct Reason {
    pub reason: Text,
    /// `Nothing` if the layout has no place for arguments.
    pub args: Args,
}

/// A request with options about a URI, or about a pattern.
#[derive(Drop)]
pub struct UriRequest {
    pub request: Id,
    pub options: Value,
    pub uri: Text,
    /// The arguments after them; `None` if the layout has no place for any, or if some number is not kept exactly.
    pub args: Option<Args>,
}

/// Two ids, details, and the arguments.
#[derive(Drop)]
pub struct KeyedDetails {
    pub first: Id,
    pub second: Id,
    pub details: Value,
    pub args: Args,
}

/// Reads two ids.
#[tactic(auto, using(crate::proofs::Lengths::two_ids_length))]
pub fn two_ids(rest: IntoIter<Value>) -> Result<TwoIds, MessageFault>
    ensures { result ≡ taken layout.two_ids two_ids_of (elements rest) }
{
    let Some((first, second)) = exactly_two(rest) else {
        return Err(MessageFault::Length);
    };
    let ids = two_ids_with(&first, &second);
    drop((first, second));
    ids
}

fn two_ids_with(first: &Value, second: &Value) -> Result<TwoIds, MessageFault>
    ensures { result ≡ checked layout.two_ids.kinds
        (two_ids_of (item (view first.now) (item (view second.now) no_items)) None)
        (item (view first.now) (item (view second.now) no_items)) }
{
    if !is_whole(first) || !is_whole(second) {
        return Err(MessageFault::Shape);
    }
    let Some(first) = id_in(first) else {
        return Err(MessageFault::IdRange);
    };
    match id_in(second) {
        Some(second) => Ok(TwoIds { first, second }),
        None => Err(MessageFault::IdRange),
    }
}

/// Reads one id.
#[tactic(auto, using(crate::proofs::Lengths::one_id_length))]
pub fn one_id(rest: IntoIter<Value>) -> Result<Id, MessageFault>
    ensures { result ≡ taken layout.one_id one_id_of (elements rest) }
{
    let Some(id) = exactly_one(rest) else {
        return Err(MessageFault::Length);
    };
    let done = one_id_with(&id);
    drop(id);
    done
}

fn one_id_with(id: &Value) -> Result<Id, MessageFault>
    ensures { result ≡ checked layout.one_id.kinds
        (one_id_of (item (view id.now) no_items) None) (item (view id.now) no_items) }
{
    if !is_whole(id) {
        return Err(MessageFault::Shape);
    }
    match id_in(id) {
        Some(id) => Ok(id),
        None => Err(MessageFault::IdRange),
    }
}

/// Reads a text and a dictionary.
#[tactic(auto, using(crate::proofs::Lengths::text_dictionary_length))]
pub fn text_dictionary(rest: IntoIter<Value>) -> Result<NamedDetails, MessageFault>
    ensures { seen_named result ≡ taken layout.text_dictionary named_of (elements rest) }
{
    let Some((name, details)) = exactly_two(rest) else {
        return Err(MessageFault::Length);
    };
    named_with(name, details)
}

fn named_with(name: Value, details: Value) -> Result<NamedDetails, MessageFault>
    ensures { seen_named result ≡ checked layout.text_dictionary.kinds
        (named_of (item (view name) (item (view details) no_items)) None)
        (item (view name) (item (view details) no_items)) }
{
    let Value::String(name) = name else {
        drop((name, details));
        return Err(MessageFault::Shape);
    };
    if !details.is_object() {
        drop(name);
        drop(details);
        return Err(MessageFault::Shape);
    }
    Ok(NamedDetails {
        name: Text::from(name),
        details,
    })
}

/// Reads an id and a dictionary.
#[tactic(auto, using(crate::proofs::Lengths::id_dictionary_length))]
pub fn id_dictionary(rest: IntoIter<Value>) -> Result<NumberedDetails, MessageFault>
    ensures { seen_numbered result ≡ taken layout.id_dictionary numbered_of (elements rest) }
{
    let Some((id, details)) = exactly_two(rest) else {
        return Err(MessageFault::Length);
    };
    let numbered = numbered_with(&id, details);
    drop(id);
    numbered
}

fn numbered_with(id: &Value, details: Value) -> Result<NumberedDetails, MessageFault>
    ensures { seen_numbered result ≡ checked layout.id_dictionary.kinds
        (numbered_of (item (view id.now) (item (view details) no_items)) None)
        (item (view id.now) (item (view details) no_items)) }
{
    if !is_whole(id) || !details.is_object() {
        drop(details);
        return Err(MessageFault::Shape);
    }
    let Some(id) = id_in(id) else {
        drop(details);
        return Err(MessageFault::IdRange);
    };
    Ok(NumberedDetails { id, details })
}

/// Reads an id and a dictionary that names a mode.
#[tactic(auto, using(crate::proofs::Lengths::id_mode_length))]
pub fn id_mode(rest: IntoIter<Value>) -> Result<Stopped, MessageFault>
    ensures { result ≡ taken layout.id_mode stopped_of (elements rest) }
{
    let Some((request, options)) = exactly_two(rest) else {
        return Err(MessageFault::Length);
    };
    let stopped = stopped_with(&request, &options);
    drop((request, options));
    stopped
}

fn stopped_with(request: &Value, options: &Value) -> Result<Stopped, MessageFault>
    ensures { result ≡ checked layout.id_mode.kinds
        (stopped_of (item (view request.now) (item (view options.now) no_items)) None)
        (item (view request.now) (item (view options.now) no_items)) }
{
    if !is_whole(request) || !options.is_object() {
        return Err(MessageFault::Shape);
    }
    let Some(mode) = mode_named(options) else {
        return Err(MessageFault::Shape);
    };
    match id_in(request) {
        Some(request) => Ok(Stopped { request, mode }),
        None => Err(MessageFault::IdRange),
    }
}

/// Reads a dictionary and a text: why the sender leaves.
#[tactic(auto, using(crate::proofs::Lengths::dictionary_text_length))]
pub fn dictionary_text(rest: IntoIter<Value>) -> Result<Reason, MessageFault>
    ensures { result ≡ taken layout.dictionary_text reason_of (elements rest) }
{
    let Some((details, reason)) = exactly_two(rest) else {
        return Err(MessageFault::Length);
    };
    let given = reason_with(&details, reason, Args::Nothing);
    drop(details);
    given
}

pub(crate) fn reason_with(
    details: &Value,
    reason: Value,
    args: Args,
) -> Result<Reason, MessageFault>
    ensures { result ≡ checked layout.dictionary_text.kinds
        (reason_of (item (view details.now) (item (view reason) no_items)) (Some args))
        (item (view details.now) (item (view reason) no_items)) }
{
    if !details.is_object() {
        drop((reason, args));
        return Err(MessageFault::Shape);
    }
    let Value::String(reason) = reason else {
        drop((reason, args));
        return Err(MessageFault::Shape);
    };
    Ok(Reason {
        reason: Text::from(reason),
        args,
    })
}

/// Reads an id, a dictionary and a text.
#[tactic(auto, using(crate::proofs::Lengths::id_dictionary_text_length))]
pub fn id_dictionary_text(rest: IntoIter<Value>) -> Result<UriRequest, MessageFault>
    ensures { seen_request result ≡ taken layout.id_dictionary_text asked_of (elements rest) }
{
    let Some((request, options, uri)) = exactly_three(rest) else {
        return Err(MessageFault::Length);
    };
    let uri_request = request_with(&request, options, uri, None);
    drop(request);
    uri_request
}

#[inline(always)]
pub(crate) fn request_with(
    request: &Value,
    options: Value,
    uri: Value,
    args: Option<Args>,
) -> Result<UriRequest, MessageFault>
    ensures { seen_request result ≡ checked layout.id_dictionary_text.kinds
        (asked_of (item (view request.now) (item (view options) (item (view uri) no_items))) args)
        (item (view request.now) (item (view options) (item (view uri) no_items))) }
{
    if !is_whole(request) || !options.is_object() {
        drop((options, uri, args));
        return Err(MessageFault::Shape);
    }
    let Value::String(uri) = uri else {
        drop((options, uri, args));
        return Err(MessageFault::Shape);
    };
    let Some(request) = id_in(request) else {
        drop((options, uri, args));
        return Err(MessageFault::IdRange);
    };
    Ok(UriRequest {
        request,
        options,
        uri: Text::from(uri),
        args,
    })
}
