// The reader of the layout of ERROR, which refuses a request.
ghost use Rattle.std.specs.Prelude.{◌≡◌};
ghost use Rattle.serde_json.specs.Data.{no_items, item};
ghost use Rattle.serde_json.specs.View.{view};
ghost use Rattle.wamp_message_layouts.specs.Elements.{elements, kind_in};
ghost use Rattle.wamp_message_layouts.specs.Layouts as layout;
ghost use Rattle.wamp_message_layouts.specs.Layouts.{taken, checked, checked_with, args_taken, refusal_of, answers_invocation};

use crate::elements::{Given, arguments, four, id_in, is_whole, kind_in};
use serde_json::Value;
use std::vec::IntoIter;
use wamp_ids::{Id, Text};
use wamp_message_types::{MessageFault, RequestKind};
use wamp_values::Args;

/// The refusal of a request.
#[derive(Drop)]
pub struct Refusal {
    pub kind: RequestKind,
    pub request: Id,
    pub error: Text,
    /// `None` if some number is not kept exactly, in the answer to an invocation.
    pub args: Option<Args>,
}

/// Reads the kind of a request, its id, a dictionary, a text, and arguments.
#[tactic(auto, using(crate::proofs::Lengths::refusal_length))]
pub fn refused(mut rest: IntoIter<Value>) -> Result<Refusal, MessageFault>
    ensures { result ≡ taken (layout.refusal (elements rest)) refusal_of (elements rest) }
{
    let Some((kind, request, details, error)) = four(&mut rest) else {
        return Err(MessageFault::Length);
    };
    let refusal = refusal_given(&kind, &request, &details, error, arguments(rest));
    drop((kind, request, details));
    refusal
}

fn refusal_given(
    kind: &Value,
    request: &Value,
    details: &Value,
    error: Value,
    given: Given,
) -> Result<Refusal, MessageFault>
    ensures { result ≡ checked_with (layout.refusal no_items).kinds
        (refusal_of (item (view kind.now)
        (item (view request.now) (item (view details.now) (item (view error) no_items)))))
        (item (view kind.now)
        (item (view request.now) (item (view details.now) (item (view error) no_items))))
        (args_taken (answers_invocation (kind_in (view kind.now))) given) }
{
    match given {
        Given::TooMany => {
            drop(error);
            Err(MessageFault::Length)
        }
        Given::Misshapen => {
            drop(error);
            Err(MessageFault::Shape)
        }
        Given::Inexact => if answers_invocation(kind) {
            refusal_with(kind, request, details, error, None)
        } else {
            drop(error);
            Err(MessageFault::Shape)
        },
        Given::Fit(args) => refusal_with(kind, request, details, error, Some(args)),
    }
}

fn answers_invocation(kind: &Value) -> bool
    ensures { result ≡ answers_invocation (kind_in (view kind.now)) }
{
    match kind_in(kind) {
        Some(kind) => kind.is_invocation(),
        None => false,
    }
}

fn refusal_with(
    kind: &Value,
    request: &Value,
    details: &Value,
    error: Value,
    args: Option<Args>,
) -> Result<Refusal, MessageFault>
    ensures { result ≡ checked (layout.refusal no_items).kinds
        (refusal_of (item (view kind.now)
        (item (view request.now) (item (view details.now) (item (view error) no_items)))) args)
        (item (view kind.now)
        (item (view request.now) (item (view details.now) (item (view error) no_items)))) }
{
    let Some(kind) = kind_in(kind) else {
        drop((error, args));
        return Err(MessageFault::Shape);
    };
    if !is_whole(request) || !details.is_object() {
        drop((error, args));
        return Err(MessageFault::Shape);
    }
    let Value::String(error) = error else {
        drop((error, args));
        return Err(MessageFault::Shape);
    };
    let Some(request) = id_in(request) else {
        drop((error, args));
        return Err(MessageFault::IdRange);
    };
    Ok(Refusal {
        kind,
        request,
        error: Text::from(error),
        args,
    })
}
