// The messages of publications and events.
ghost use Rattle.std.specs.Prelude.{◌≡◌, true, false, codes, OnOk};
ghost use Rattle.wamp_values.specs.Args.{IsArgs};
ghost use Rattle.wamp_values.specs.Tokens.{data_tokens, Appends};
ghost use Rattle.wamp_message_layouts.specs.Elements.{elements};
ghost use Rattle.wamp_message_layouts.specs.Layouts.{seen_asked, seen_details};
ghost use Rattle.wamp_message_layouts.specs.Parts.{dictionary_of};
ghost use Rattle.wamp_message_types.specs.declared.read_result.Read.TheVariants.{Unfit};
ghost use Rattle.wamp_message_types.specs.declared.read_result.UnfitKind.TheVariants as unfit;
ghost use Rattle.wamp_messages.specs.Message.{IsId};
ghost use Rattle.wamp_messages.specs.Flags.{flagged_in, flagged_read};
ghost use Rattle.wamp_messages.specs.Publish.{publish_in, publish_with, publish_read, publish_value, publish_options, published_in, published_value};
ghost use Rattle.wamp_messages.specs.Publish.{event_in, event_read, event_value, event_told};

use crate::flags::{Flags, flag_of};
use crate::shared::{begin_with_id, begin_with_ids, end_with_args, put_ids};
use json::Writer;
use serde_json::Value;
use std::alloc::AllocError;
use std::vec::IntoIter;
use wamp_ids::{Id, Text};
use wamp_message_layouts::{
    Key, KeyedDetails, UriRequest, end, id_dictionary_text_args, open, put_flag_option,
    put_nothing, put_text, take_text, two_ids, two_ids_keys_args,
};
use wamp_message_types::{Event, Message, Publish, Published, Read, UnfitKind, codes};
use wamp_values::{Args, flag_in};

// The key of EVENT.
const EVENT_KEYS: &[Key] = &[Key::Topic];

// Reads the elements after the code of PUBLISH.
pub(crate) fn read_publish(rest: IntoIter<Value>) -> Read
    ensures { result ≡ publish_in (elements rest) }
{
    match id_dictionary_text_args(rest) {
        Ok(uri_request) => publish_of(uri_request),
        Err(fault) => Read::Bad(fault),
    }
}

fn publish_of(uri_request: UriRequest) -> Read
    ensures { result ≡ publish_read (seen_asked uri_request) }
{
    let UriRequest {
        request,
        options,
        uri,
        args,
    } = uri_request;
    let acknowledge = flag_in(&options, "acknowledge", false);
    let exclude_me = flag_in(&options, "exclude_me", true);
    drop(options);
    publish_with(request, acknowledge, exclude_me, uri, args)
}

#[inline(always)]
fn publish_with(
    request: Id,
    acknowledge: Option<bool>,
    exclude_me: Option<bool>,
    topic: Text,
    args: Option<Args>,
) -> Read
    ensures { result ≡ publish_with request acknowledge exclude_me topic args }
{
    let quiet = !acknowledge.unwrap_or(false);
    let flags = (acknowledge, exclude_me);
    let (Some(acknowledge), Some(exclude_me)) = flags else {
        drop(topic);
        drop(args);
        return unfit(request, quiet);
    };
    let Some(args) = args else {
        drop(topic);
        return unfit(request, quiet);
    };
    Read::Good(Message::Publish(Publish {
        request,
        acknowledge,
        exclude_me,
        topic,
        args,
    }))
}

#[inline(always)]
fn unfit(request: Id, quiet: bool) -> Read
    ensures { result ≡ Unfit unfit.Publish request quiet }
{
    Read::Unfit {
        kind: UnfitKind::Publish,
        request,
        quiet,
    }
}

// Reads the elements after the code of PUBLISH if its options were read before: `flags` has them, and an empty object is in their place.
#[inline(always)]
pub(crate) fn read_flagged(rest: IntoIter<Value>, flags: Flags) -> Read
    ensures { result ≡ flagged_in flags (elements rest) }
{
    match id_dictionary_text_args(rest) {
        Ok(uri_request) => flagged_of(uri_request, flags),
        Err(fault) => Read::Bad(fault),
    }
}

#[inline(always)]
fn flagged_of(uri_request: UriRequest, flags: Flags) -> Read
    ensures { result ≡ flagged_read flags (seen_asked uri_request) }
{
    let UriRequest {
        request,
        options,
        uri,
        args,
    } = uri_request;
    drop(options);
    let acknowledge = flag_of(flags.acknowledge, false);
    let exclude_me = flag_of(flags.exclude_me, true);
    publish_with(request, acknowledge, exclude_me, uri, args)
}

pub(crate) fn put_publish(publish: &Publish, out: &mut Writer) -> Result<(), AllocError>
    ensures tokens { Appends result out.old out.new (data_tokens (publish_value publish.now)) }
    ensures parts { OnOk result (IsId publish.now.request × IsArgs publish.now.args) }
{
    begin_with_id(codes::PUBLISH, publish.request, out)?;
    put_publish_options(publish.acknowledge, publish.exclude_me, out)?;
    end_with_args(&publish.topic, &publish.args, out)
}

// Reads the elements after the code of PUBLISHED.
pub(crate) fn read_published(rest: IntoIter<Value>) -> Read
    ensures { result ≡ published_in (elements rest) }
{
    match two_ids(rest) {
        Ok(ids) => Read::Good(Message::Published(Published {
            request: ids.first,
            publication: ids.second,
        })),
        Err(fault) => Read::Bad(fault),
    }
}

pub(crate) fn put_published(published: Published, out: &mut Writer) -> Result<(), AllocError>
    ensures tokens { Appends result out.old out.new (data_tokens (published_value published)) }
    ensures parts { OnOk result (IsId published.request × IsId published.publication) }
{
    put_ids(
        codes::PUBLISHED,
        published.request,
        published.publication,
        out,
    )
}

// Reads the elements after the code of EVENT.
pub(crate) fn read_event(rest: IntoIter<Value>) -> Read
    ensures { result ≡ event_in (elements rest) }
{
    match two_ids_keys_args(rest, EVENT_KEYS) {
        Ok(keyed) => event_of(keyed),
        Err(fault) => Read::Bad(fault),
    }
}

fn event_of(keyed: KeyedDetails) -> Read
    ensures { result ≡ event_read (seen_details keyed) }
{
    let KeyedDetails {
        first,
        second,
        details,
        args,
    } = keyed;
    let mut details = details;
    let topic = take_text(&mut details, Key::Topic);
    drop(details);
    Read::Good(Message::Event(Event {
        subscription: first,
        publication: second,
        topic,
        args,
    }))
}

pub(crate) fn put_event(event: &Event, out: &mut Writer) -> Result<(), AllocError>
    ensures tokens { Appends result out.old out.new (data_tokens (event_value event.now)) }
    ensures parts { OnOk result
        (IsId event.now.subscription × (IsId event.now.publication × IsArgs event.now.args)) }
{
    begin_with_ids(codes::EVENT, event.subscription, event.publication, out)?;
    put_topic(&event.topic, out)?;
    end(&event.args, out)
}

fn put_topic(topic: &Option<Text>, out: &mut Writer) -> Result<(), AllocError>
    ensures { Appends result out.old out.new (data_tokens (dictionary_of (event_told topic.now))) }
{
    out.begin_object()?;
    put_text(Key::Topic, topic, out)?;
    out.end_object()
}

fn put_publish_options(
    acknowledge: bool,
    exclude_me: bool,
    out: &mut Writer,
) -> Result<(), AllocError>
    ensures { Appends result out.old out.new
        (data_tokens (publish_options acknowledge exclude_me)) }
{
    match (acknowledge, exclude_me) {
        (false, true) => put_nothing(out),
        (true, true) => put_flag_option("acknowledge", true, out),
        (false, false) => put_flag_option("exclude_me", false, out),
        (true, false) => put_both_options(out),
    }
}

fn put_both_options(out: &mut Writer) -> Result<(), AllocError>
    ensures { Appends result out.old out.new (data_tokens (publish_options true false)) }
{
    open("acknowledge", out)?;
    out.boolean(true)?;
    out.key("exclude_me")?;
    out.boolean(false)?;
    out.end_object()
}
