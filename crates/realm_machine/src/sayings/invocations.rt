//! What the realm says to callees and callers about invocations.
ghost use Rattle.std.specs.Prelude.{◌≡◌, ◌++◌, IfOk, OnOk};
ghost use Rattle.realm_machine.specs.Sayings.Invocations.{caller_for, procedure_for, invocation, result_of, interrupt, interrupted};
ghost use Rattle.realm_machine.specs.Sayings.Invocations.{told_canceled, failure};

use crate::memory::Memory;
use crate::sayings::{CANCELED, Say, add_message, add_refusal};
use paxos_packets::Transport;
use realm_calls::{Cancelled, Open};
use realm_registrations::Chosen;
use realm_sessions::Sessions;
use std::alloc::Global;
use wamp_ids::{Id, Match, Mode, Text};
use wamp_message_types::{Call, CallResult, Error, Interrupt, Invocation, Message, RequestKind};
use wamp_values::Args;

// Returns the INTERRUPT for a call.
pub fn interrupt(call: &Open, mode: Mode) -> Message
    ensures { result ≡ interrupt call.now mode }
{
    Message::Interrupt(Interrupt {
        request: call.invocation,
        mode,
    })
}

// Returns the ERROR that tells a caller that its call failed.
pub fn failure(alloc: Global, request: Id, error: &str, args: &Args) -> Result<Message, Memory>
    ensures { IfOk result (λ message. message ≡ failure error.now args.now request) }
{
    let error = Text::new(alloc, error)?;
    let Ok(args) = args.copy() else {
        drop(error);
        return Err(Memory);
    };
    Ok(Message::Error(Error {
        kind: RequestKind::Call,
        request,
        error,
        args,
    }))
}

// Returns the RESULT for a caller: a progressive one, or the one that ends the call.
pub fn result_of(request: Id, progress: bool, args: &Args) -> Result<Message, Memory>
    ensures { IfOk result (λ message. message ≡ result_of progress args.now request) }
{
    Ok(Message::CallResult(CallResult {
        request,
        progress,
        args: args.copy()?,
    }))
}

// Returns the INVOCATION for the callee that was chosen.
pub fn invocation(id: Id, caller: Id, chosen: &Chosen, call: &Call) -> Result<Message, Memory>
    ensures { IfOk result (λ message. message ≡ invocation id caller chosen.now call.now) }
{
    let procedure = procedure_for(chosen.matching, &call.procedure)?;
    let Ok(args) = call.args.copy() else {
        drop(procedure);
        return Err(Memory);
    };
    Ok(Message::Invocation(Invocation {
        request: id,
        registration: chosen.registration,
        caller: caller_for(call.disclose_me, caller),
        procedure,
        receive_progress: call.receive_progress,
        args,
    }))
}

// Returns the caller that the INVOCATION names: the one that called, if it asks for that.
fn caller_for(disclose_me: bool, caller: Id) -> Option<Id>
    ensures { result ≡ caller_for disclose_me caller }
{
    if disclose_me { Some(caller) } else { None }
}

// Returns the procedure that the INVOCATION names: the one that was called, unless the match is exact.
fn procedure_for(matching: Match, procedure: &Text) -> Result<Option<Text>, Memory>
    ensures { IfOk result (λ told. told ≡ procedure_for matching procedure.now) }
{
    match matching {
        Match::Exact => Ok(None),
        Match::Prefix | Match::Wildcard => Ok(Some(procedure.copy()?)),
    }
}

// Adds the callee's INTERRUPT, if one is due.
pub fn add_interrupt(says: &mut Vec<Say>, sessions: &Sessions, it: &Cancelled) -> Result<(), Memory>
    ensures { OnOk result (says.new.items ≡ says.old.items ++ interrupted sessions.now.list it.now.call it.now.interrupt) }
{
    let Some(mode) = it.interrupt else {
        return Ok(());
    };
    match sessions.by_id(it.call.callee) {
        Some(transport) => add_message(says, transport, interrupt(&it.call, mode)),
        None => Ok(()),
    }
}

// Adds the caller's ERROR, if its call ended.
pub fn add_told_canceled(
    alloc: Global,
    says: &mut Vec<Say>,
    transport: Transport,
    it: &Cancelled,
) -> Result<(), Memory>
    ensures { OnOk result (says.new.items ≡ says.old.items ++ told_canceled transport it.now) }
{
    if it.is_ended {
        add_refusal(
            alloc,
            says,
            transport,
            RequestKind::Call,
            it.call.request,
            CANCELED,
        )
    } else {
        Ok(())
    }
}
