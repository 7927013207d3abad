// The messages that open and end a session.
ghost use Rattle.std.specs.Prelude.{◌≡◌, ◌∷◌, [], true, codes, OnOk};
ghost use Rattle.json.specs.Token.{key, begin_object};
ghost use Rattle.wamp_values.specs.Args.{IsArgs};
ghost use Rattle.wamp_values.specs.Tokens.{data_tokens, Appends};
ghost use Rattle.wamp_message_layouts.specs.Elements.{elements};
ghost use Rattle.wamp_messages.specs.Message.{IsId};
ghost use Rattle.wamp_messages.specs.Session.{hello_in, hello_value, hello_details, callee, welcome_in, welcome_value};
ghost use Rattle.wamp_messages.specs.Session.{welcome_details, broker, dealer, abort_in, abort_value, goodbye_in, goodbye_value};

use crate::shared::{begin_with_id, end_with_args, end_with_text};
use json::Writer;
use serde_json::Value;
use std::alloc::AllocError;
use std::vec::IntoIter;
use wamp_message_layouts::{
    Reason, begin, close_two, dictionary_text, dictionary_text_args, id_dictionary, open,
    open_within, put_feature, put_nothing, text_dictionary,
};
use wamp_message_types::{Abort, Goodbye, Hello, Message, Read, Welcome, codes};
use wamp_values::is_canceling;

// Reads the elements after the code of HELLO.
pub(crate) fn read_hello(rest: IntoIter<Value>) -> Read
    ensures { result ≡ hello_in (elements rest) }
{
    match text_dictionary(rest) {
        Ok(named) => Read::Good(Message::Hello(Hello {
            realm: named.name,
            canceling: is_canceling(&named.details),
        })),
        Err(fault) => Read::Bad(fault),
    }
}

pub(crate) fn put_hello(hello: &Hello, out: &mut Writer) -> Result<(), AllocError>
    ensures { Appends result out.old out.new (data_tokens (hello_value hello.now)) }
{
    begin(codes::HELLO, out)?;
    out.string(hello.realm.as_str())?;
    put_hello_details(hello.canceling, out)?;
    out.end_array()
}

// Reads the elements after the code of WELCOME.
pub(crate) fn read_welcome(rest: IntoIter<Value>) -> Read
    ensures { result ≡ welcome_in (elements rest) }
{
    match id_dictionary(rest) {
        Ok(numbered) => Read::Good(Message::Welcome(Welcome {
            session: numbered.id,
        })),
        Err(fault) => Read::Bad(fault),
    }
}

pub(crate) fn put_welcome(welcome: Welcome, out: &mut Writer) -> Result<(), AllocError>
    ensures tokens { Appends result out.old out.new (data_tokens (welcome_value welcome)) }
    ensures parts { OnOk result (IsId welcome.session) }
{
    begin_with_id(codes::WELCOME, welcome.session, out)?;
    put_welcome_details(out)?;
    out.end_array()
}

// Reads the elements after the code of ABORT.
pub(crate) fn read_abort(rest: IntoIter<Value>) -> Read
    ensures { result ≡ abort_in (elements rest) }
{
    match dictionary_text_args(rest) {
        Ok(taken) => Read::Good(Message::Abort(Abort {
            reason: taken.reason,
            args: taken.args,
        })),
        Err(fault) => Read::Bad(fault),
    }
}

pub(crate) fn put_abort(abort: &Abort, out: &mut Writer) -> Result<(), AllocError>
    ensures tokens { Appends result out.old out.new (data_tokens (abort_value abort.now)) }
    ensures parts { OnOk result (IsArgs abort.now.args) }
{
    begin(codes::ABORT, out)?;
    put_nothing(out)?;
    end_with_args(&abort.reason, &abort.args, out)
}

// Reads the elements after the code of GOODBYE.
pub(crate) fn read_goodbye(rest: IntoIter<Value>) -> Read
    ensures { result ≡ goodbye_in (elements rest) }
{
    match dictionary_text(rest) {
        Ok(Reason { reason, args }) => {
            drop(args);
            Read::Good(Message::Goodbye(Goodbye { reason }))
        }
        Err(fault) => Read::Bad(fault),
    }
}

pub(crate) fn put_goodbye(goodbye: &Goodbye, out: &mut Writer) -> Result<(), AllocError>
    ensures { Appends result out.old out.new (data_tokens (goodbye_value goodbye.now)) }
{
    begin(codes::GOODBYE, out)?;
    put_nothing(out)?;
    end_with_text(&goodbye.reason, out)
}

fn put_hello_details(canceling: bool, out: &mut Writer) -> Result<(), AllocError>
    ensures { Appends result out.old out.new (data_tokens (hello_details canceling)) }
{
    if canceling {
        put_canceling(out)
    } else {
        put_nothing(out)
    }
}

fn put_canceling(out: &mut Writer) -> Result<(), AllocError>
    ensures { Appends result out.old out.new (data_tokens (hello_details true)) }
{
    open("roles", out)?;
    open("callee", out)?;
    put_callee(out)?;
    close_two(out)
}

fn put_callee(out: &mut Writer) -> Result<(), AllocError>
    ensures { Appends result out.old out.new (data_tokens callee) }
{
    open_within("features", out)?;
    put_feature("call_canceling", out)?;
    close_two(out)
}

fn put_welcome_details(out: &mut Writer) -> Result<(), AllocError>
    ensures { Appends result out.old out.new (data_tokens welcome_details) }
{
    open_within("roles", out)?;
    put_broker(out)?;
    put_dealer(out)?;
    close_two(out)
}

// Writes a role up to its first feature.
fn open_role(name: &str, out: &mut Writer) -> Result<(), AllocError>
    ensures { Appends result out.old out.new
        (key name.now ∷ begin_object ∷ key (codes "features") ∷ begin_object ∷ []) }
{
    out.key(name)?;
    open_within("features", out)
}

fn put_broker(out: &mut Writer) -> Result<(), AllocError>
    ensures { Appends result out.old out.new (key (codes "broker") ∷ data_tokens broker) }
{
    open_role("broker", out)?;
    put_feature("pattern_based_subscription", out)?;
    put_feature("publisher_exclusion", out)?;
    close_two(out)
}

fn put_dealer(out: &mut Writer) -> Result<(), AllocError>
    ensures { Appends result out.old out.new (key (codes "dealer") ∷ data_tokens dealer) }
{
    open_role("dealer", out)?;
    put_feature("call_canceling", out)?;
    put_feature("caller_identification", out)?;
    put_feature("pattern_based_registration", out)?;
    put_feature("progressive_call_results", out)?;
    put_feature("shared_registration", out)?;
    close_two(out)
}
