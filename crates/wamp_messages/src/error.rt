// The message that refuses a request.
ghost use Rattle.std.specs.Prelude.{◌≡◌, OnOk};
ghost use Rattle.wamp_values.specs.Args.{IsArgs};
ghost use Rattle.wamp_values.specs.Tokens.{data_tokens, Appends};
ghost use Rattle.wamp_message_layouts.specs.Elements.{elements};
ghost use Rattle.wamp_messages.specs.Message.{IsId};
ghost use Rattle.wamp_messages.specs.Error.{error_in, error_read, error_value};

use crate::shared::end_with_args;
use json::Writer;
use serde_json::Value;
use std::alloc::AllocError;
use std::vec::IntoIter;
use wamp_message_layouts::{Refusal, begin, put_nothing, refused};
use wamp_message_types::{Error, Message, Read, RequestKind, UnfitKind, codes};

// Reads the elements after the code of ERROR.
pub(crate) fn read_error(rest: IntoIter<Value>) -> Read
    ensures { result ≡ error_in (elements rest) }
{
    match refused(rest) {
        Ok(refusal) => error_of(refusal),
        Err(fault) => Read::Bad(fault),
    }
}

// Without exactly kept arguments it is unfit; only the answer to an invocation comes here without.
fn error_of(refusal: Refusal) -> Read
    ensures { result ≡ error_read refusal }
{
    let Refusal {
        kind,
        request,
        error,
        args,
    } = refusal;
    match args {
        Some(args) => Read::Good(Message::Error(Error {
            kind,
            request,
            error,
            args,
        })),
        None => Read::Unfit {
            kind: UnfitKind::Yield,
            request,
            quiet: false,
        },
    }
}

pub(crate) fn put_error(error: &Error, out: &mut Writer) -> Result<(), AllocError>
    ensures tokens { Appends result out.old out.new (data_tokens (error_value error.now)) }
    ensures parts { OnOk result (IsId error.now.request × IsArgs error.now.args) }
{
    begin(codes::ERROR, out)?;
    out.u64(error.kind.code())?;
    out.u64(error.request.get())?;
    put_nothing(out)?;
    end_with_args(&error.error, &error.args, out)
}
