// The messages of subscriptions.
ghost use Rattle.std.specs.Prelude.{◌≡◌, OnOk};
ghost use Rattle.wamp_values.specs.Tokens.{data_tokens, Appends};
ghost use Rattle.wamp_message_layouts.specs.Elements.{elements};
ghost use Rattle.wamp_message_layouts.specs.Layouts.{seen_asked};
ghost use Rattle.wamp_messages.specs.Message.{IsId};
ghost use Rattle.wamp_messages.specs.Subscribe.{subscribe_in, subscribe_read, subscribe_value, match_options};
ghost use Rattle.wamp_messages.specs.Subscribe.{subscribed_in, subscribed_value, unsubscribe_in, unsubscribe_value};
ghost use Rattle.wamp_messages.specs.Subscribe.{unsubscribed_in, unsubscribed_value};

use crate::shared::{begin_with_id, end_with_text, put_id, put_ids};
use json::Writer;
use serde_json::Value;
use std::alloc::AllocError;
use std::vec::IntoIter;
use wamp_ids::Match;
use wamp_message_layouts::{
    UriRequest, id_dictionary_text, one_id, put_nothing, put_text_option, two_ids,
};
use wamp_message_types::{
    Message, Read, Subscribe, Subscribed, UnfitKind, Unsubscribe, Unsubscribed, codes,
};
use wamp_values::match_in;

// Reads the elements after the code of SUBSCRIBE.
pub(crate) fn read_subscribe(rest: IntoIter<Value>) -> Read
    ensures { result ≡ subscribe_in (elements rest) }
{
    match id_dictionary_text(rest) {
        Ok(uri_request) => subscribe_of(uri_request),
        Err(fault) => Read::Bad(fault),
    }
}

fn subscribe_of(uri_request: UriRequest) -> Read
    ensures { result ≡ subscribe_read (seen_asked uri_request) }
{
    let UriRequest {
        request,
        options,
        uri,
        args,
    } = uri_request;
    let matching = match_in(&options);
    drop((options, args));
    let Some(matching) = matching else {
        drop(uri);
        return Read::Unfit {
            kind: UnfitKind::Subscribe,
            request,
            quiet: false,
        };
    };
    Read::Good(Message::Subscribe(Subscribe {
        request,
        matching,
        topic: uri,
    }))
}

pub(crate) fn put_subscribe(subscribe: &Subscribe, out: &mut Writer) -> Result<(), AllocError>
    ensures tokens { Appends result out.old out.new (data_tokens (subscribe_value subscribe.now)) }
    ensures parts { OnOk result (IsId subscribe.now.request) }
{
    begin_with_id(codes::SUBSCRIBE, subscribe.request, out)?;
    put_match_options(subscribe.matching, out)?;
    end_with_text(&subscribe.topic, out)
}

// Reads the elements after the code of SUBSCRIBED.
pub(crate) fn read_subscribed(rest: IntoIter<Value>) -> Read
    ensures { result ≡ subscribed_in (elements rest) }
{
    match two_ids(rest) {
        Ok(ids) => Read::Good(Message::Subscribed(Subscribed {
            request: ids.first,
            subscription: ids.second,
        })),
        Err(fault) => Read::Bad(fault),
    }
}

pub(crate) fn put_subscribed(subscribed: Subscribed, out: &mut Writer) -> Result<(), AllocError>
    ensures tokens { Appends result out.old out.new (data_tokens (subscribed_value subscribed)) }
    ensures parts { OnOk result (IsId subscribed.request × IsId subscribed.subscription) }
{
    put_ids(
        codes::SUBSCRIBED,
        subscribed.request,
        subscribed.subscription,
        out,
    )
}

// Reads the elements after the code of UNSUBSCRIBE.
pub(crate) fn read_unsubscribe(rest: IntoIter<Value>) -> Read
    ensures { result ≡ unsubscribe_in (elements rest) }
{
    match two_ids(rest) {
        Ok(ids) => Read::Good(Message::Unsubscribe(Unsubscribe {
            request: ids.first,
            subscription: ids.second,
        })),
        Err(fault) => Read::Bad(fault),
    }
}

pub(crate) fn put_unsubscribe(unsubscribe: Unsubscribe, out: &mut Writer) -> Result<(), AllocError>
    ensures tokens { Appends result out.old out.new (data_tokens (unsubscribe_value unsubscribe)) }
    ensures parts { OnOk result (IsId unsubscribe.request × IsId unsubscribe.subscription) }
{
    put_ids(
        codes::UNSUBSCRIBE,
        unsubscribe.request,
        unsubscribe.subscription,
        out,
    )
}

// Reads the elements after the code of UNSUBSCRIBED.
pub(crate) fn read_unsubscribed(rest: IntoIter<Value>) -> Read
    ensures { result ≡ unsubscribed_in (elements rest) }
{
    match one_id(rest) {
        Ok(request) => Read::Good(Message::Unsubscribed(Unsubscribed { request })),
        Err(fault) => Read::Bad(fault),
    }
}

pub(crate) fn put_unsubscribed(
    unsubscribed: Unsubscribed,
    out: &mut Writer,
) -> Result<(), AllocError>
    ensures tokens { Appends result out.old out.new (data_tokens (unsubscribed_value unsubscribed)) }
    ensures parts { OnOk result (IsId unsubscribed.request) }
{
    put_id(codes::UNSUBSCRIBED, unsubscribed.request, out)
}

pub(crate) fn put_match_options(matching: Match, out: &mut Writer) -> Result<(), AllocError>
    ensures { Appends result out.old out.new (data_tokens (match_options matching)) }
{
    match matching {
        Match::Exact => put_nothing(out),
        Match::Prefix => put_text_option("match", "prefix", out),
        Match::Wildcard => put_text_option("match", "wildcard", out),
    }
}
