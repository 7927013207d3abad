// Readers of layouts that end with Arguments and ArgumentsKw.
ghost use Rattle.std.specs.Prelude.{◌≡◌, ◌&&◌, true, false, Some};
ghost use Rattle.serde_json.specs.Data.{no_items, item};
ghost use Rattle.serde_json.specs.View.{view};
ghost use Rattle.wamp_message_layouts.specs.Elements.{elements, is_dictionary};
ghost use Rattle.wamp_message_layouts.specs.Keys.{are_typed};
ghost use Rattle.wamp_message_layouts.specs.Layouts as layout;
ghost use Rattle.wamp_message_layouts.specs.Layouts.{taken, checked, checked_with, args_taken, seen_request, seen_answer, seen_keyed};
ghost use Rattle.wamp_message_layouts.specs.Layouts.{answer_of, reason_of, asked_of, keyed_of};

use crate::elements::{Given, arguments, id_in, is_whole, three, two};
use crate::keys::{Key, are_typed};
use crate::layouts::{Answered, KeyedDetails, Reason, UriRequest, reason_with, request_with};
use serde_json::Value;
use std::vec::IntoIter;
use wamp_message_types::MessageFault;
use wamp_values::Args;

/// Reads an id, a dictionary with these keys, and arguments. A number among these that is not kept exactly is accepted if `may_be_inexact`
/// is set; otherwise it counts as a wrong type.
pub fn id_keys_args(
    mut rest: IntoIter<Value>,
    keys: &[Key],
    may_be_inexact: bool,
) -> Result<Answered, MessageFault>
    ensures { seen_answer result
        ≡ taken (layout.id_keys_args keys.now may_be_inexact) answer_of (elements rest) }
{
    let Some((request, details)) = two(&mut rest) else {
        return Err(MessageFault::Length);
    };
    let answered = answer_given(&request, details, keys, arguments(rest), may_be_inexact);
    drop(request);
    answered
}

fn answer_given(
    request: &Value,
    details: Value,
    keys: &[Key],
    given: Given,
    may_be_inexact: bool,
) -> Result<Answered, MessageFault>
    ensures { seen_answer result ≡ checked_with (layout.id_keys_args keys.now may_be_inexact).kinds
        (answer_of (item (view request.now) (item (view details) no_items)))
        (item (view request.now) (item (view details) no_items))
        (args_taken may_be_inexact given) }
{
    match given {
        Given::TooMany => {
            drop(details);
            Err(MessageFault::Length)
        }
        Given::Misshapen => {
            drop(details);
            Err(MessageFault::Shape)
        }
        Given::Inexact => if may_be_inexact {
            answer_with(request, details, keys, None)
        } else {
            drop(details);
            Err(MessageFault::Shape)
        },
        Given::Fit(args) => answer_with(request, details, keys, Some(args)),
    }
}

fn answer_with(
    request: &Value,
    details: Value,
    keys: &[Key],
    args: Option<Args>,
) -> Result<Answered, MessageFault>
    ensures { seen_answer result ≡ checked (layout.id_keys_args keys.now true).kinds
        (answer_of (item (view request.now) (item (view details) no_items)) args)
        (item (view request.now) (item (view details) no_items)) }
{
    if !is_whole(request) || !is_keyed(&details, keys) {
        drop((details, args));
        return Err(MessageFault::Shape);
    }
    let Some(request) = id_in(request) else {
        drop((details, args));
        return Err(MessageFault::IdRange);
    };
    Ok(Answered {
        request,
        details,
        args,
    })
}

// Returns whether this is a dictionary with these keys.
fn is_keyed(details: &Value, keys: &[Key]) -> bool
    ensures { result ≡ (is_dictionary (view details.now) && are_typed keys.now (view details.now)) }
{
    details.is_object() && are_typed(keys, details)
}

/// Reads a dictionary, a text, and arguments.
#[tactic(auto, using(crate::proofs::Lengths::dictionary_text_args_length))]
pub fn dictionary_text_args(mut rest: IntoIter<Value>) -> Result<Reason, MessageFault>
    ensures { result ≡ taken layout.dictionary_text_args reason_of (elements rest) }
{
    let Some((details, reason)) = two(&mut rest) else {
        return Err(MessageFault::Length);
    };
    let given = reason_given(&details, reason, arguments(rest));
    drop(details);
    given
}

fn reason_given(details: &Value, reason: Value, given: Given) -> Result<Reason, MessageFault>
    ensures { result ≡ checked_with layout.dictionary_text.kinds
        (reason_of (item (view details.now) (item (view reason) no_items)))
        (item (view details.now) (item (view reason) no_items)) (args_taken false given) }
{
    match given {
        Given::TooMany => {
            drop(reason);
            Err(MessageFault::Length)
        }
        Given::Misshapen => {
            drop(reason);
            Err(MessageFault::Shape)
        }
        Given::Inexact => {
            drop(reason);
            Err(MessageFault::Shape)
        }
        Given::Fit(args) => reason_with(details, reason, args),
    }
}

/// Reads an id, a dictionary, a text, and arguments.
#[tactic(auto, using(crate::proofs::Lengths::id_dictionary_text_args_length))]
pub fn id_dictionary_text_args(mut rest: IntoIter<Value>) -> Result<UriRequest, MessageFault>
    ensures { seen_request result ≡ taken layout.id_dictionary_text_args asked_of (elements rest) }
{
    let Some((request, options, uri)) = three(&mut rest) else {
        return Err(MessageFault::Length);
    };
    let uri_request = request_given(&request, options, uri, arguments(rest));
    drop(request);
    uri_request
}

#[inline(always)]
fn request_given(
    request: &Value,
    options: Value,
    uri: Value,
    given: Given,
) -> Result<UriRequest, MessageFault>
    ensures { seen_request result ≡ checked_with layout.id_dictionary_text.kinds
        (asked_of (item (view request.now) (item (view options) (item (view uri) no_items))))
        (item (view request.now) (item (view options) (item (view uri) no_items)))
        (args_taken true given) }
{
    match given {
        Given::TooMany => {
            drop((options, uri));
            Err(MessageFault::Length)
        }
        Given::Misshapen => {
            drop((options, uri));
            Err(MessageFault::Shape)
        }
        Given::Inexact => request_with(request, options, uri, None),
        Given::Fit(args) => request_with(request, options, uri, Some(args)),
    }
}

/// Reads two ids, a dictionary with these keys, and arguments.
#[tactic(auto, using(crate::proofs::Lengths::two_ids_keys_args_length))]
pub fn two_ids_keys_args(
    mut rest: IntoIter<Value>,
    keys: &[Key],
) -> Result<KeyedDetails, MessageFault>
    ensures { seen_keyed result
        ≡ taken (layout.two_ids_keys_args keys.now) keyed_of (elements rest) }
{
    let Some((first, second, details)) = three(&mut rest) else {
        return Err(MessageFault::Length);
    };
    let keyed = keyed_given(&first, &second, details, keys, arguments(rest));
    drop((first, second));
    keyed
}

fn keyed_given(
    first: &Value,
    second: &Value,
    details: Value,
    keys: &[Key],
    given: Given,
) -> Result<KeyedDetails, MessageFault>
    ensures { seen_keyed result ≡ checked_with (layout.two_ids_keys_args keys.now).kinds
        (keyed_of (item (view first.now) (item (view second.now) (item (view details) no_items))))
        (item (view first.now) (item (view second.now) (item (view details) no_items)))
        (args_taken false given) }
{
    match given {
        Given::TooMany => {
            drop(details);
            Err(MessageFault::Length)
        }
        Given::Misshapen => {
            drop(details);
            Err(MessageFault::Shape)
        }
        Given::Inexact => {
            drop(details);
            Err(MessageFault::Shape)
        }
        Given::Fit(args) => keyed_with(first, second, details, keys, args),
    }
}

fn keyed_with(
    first: &Value,
    second: &Value,
    details: Value,
    keys: &[Key],
    args: Args,
) -> Result<KeyedDetails, MessageFault>
    ensures { seen_keyed result ≡ checked (layout.two_ids_keys_args keys.now).kinds
        (keyed_of (item (view first.now) (item (view second.now) (item (view details) no_items)))
        (Some args))
        (item (view first.now) (item (view second.now) (item (view details) no_items))) }
{
    if !is_whole(first) || !is_whole(second) || !is_keyed(&details, keys) {
        drop((details, args));
        return Err(MessageFault::Shape);
    }
    let (Some(first), Some(second)) = (id_in(first), id_in(second)) else {
        drop((details, args));
        return Err(MessageFault::IdRange);
    };
    Ok(KeyedDetails {
        first,
        second,
        details,
        args,
    })
}
