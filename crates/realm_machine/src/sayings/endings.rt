//! What the realm says as sessions and transports end.
ghost use Rattle.std.specs.Prelude.{◌≡◌, ◌∷◌, ◌++◌, [], IfOk, OnOk};
ghost use Rattle.std.specs.List.{flat_map};
ghost use Rattle.realm_machine.specs.Sayings.{say, shut, abort};
ghost use Rattle.realm_machine.specs.Sayings.Endings.{end_for_caller, end_for_callee, told_shutdown, farewell};

use crate::memory::Memory;
use crate::sayings::invocations::interrupt;
use crate::sayings::{
    CANCELED, SYSTEM_SHUTDOWN, Say, abort, add_close, add_goodbye, add_message, add_refusal,
};
use paxos_packets::Transport;
use realm_calls::Open;
use realm_sessions::Sessions;
use std::alloc::Global;
use wamp_ids::{Id, Mode};
use wamp_message_types::RequestKind;

// Sends the transport an ABORT with this reason, and closes it.
pub fn add_end(
    alloc: Global,
    says: &mut Vec<Say>,
    transport: Transport,
    reason: &str,
) -> Result<(), Memory>
    ensures { OnOk result
        (says.new.items ≡ says.old.items ++ (say transport (abort reason.now) ∷ (shut transport ∷ []))) }
{
    let message = abort(alloc, reason)?;
    add_message(says, transport, message)?;
    add_close(says, transport)
}

// Adds what is said to a transport of a node that is gone. `session` is what `Sessions::by_transport` returned for it: nothing is said to a
// transport that is not connected.
pub fn add_farewell(
    alloc: Global,
    says: &mut Vec<Say>,
    transport: Transport,
    session: &Option<Option<Id>>,
) -> Result<(), Memory>
    ensures { OnOk result (says.new.items ≡ says.old.items ++ farewell transport session.now) }
{
    let Some(session) = session else {
        return Ok(());
    };
    add_shutdown(alloc, says, transport, session)?;
    add_close(says, transport)
}

// Sends a GOODBYE to a session that ends with its node.
fn add_shutdown(
    alloc: Global,
    says: &mut Vec<Say>,
    transport: Transport,
    session: &Option<Id>,
) -> Result<(), Memory>
    ensures { OnOk result (says.new.items ≡ says.old.items ++ told_shutdown transport session.now) }
{
    match session {
        Some(_) => add_goodbye(alloc, says, transport, SYSTEM_SHUTDOWN),
        None => Ok(()),
    }
}

// Returns the ERRORs for the callers of calls that ended. Cost: a look-up for each call.
pub fn end_for_callers(
    alloc: Global,
    sessions: &Sessions,
    ended: &[Open],
) -> Result<Vec<Say>, Memory>
    ensures { IfOk result (λ says. says.items ≡ flat_map (end_for_caller sessions.now.list) ended.now) }
{
    let mut says = Vec::new(alloc);
    for call in ended {
        add_end_for_caller(alloc, &mut says, sessions, call)?;
    }
    Ok(says)
}

fn add_end_for_caller(
    alloc: Global,
    says: &mut Vec<Say>,
    sessions: &Sessions,
    call: &Open,
) -> Result<(), Memory>
    ensures { OnOk result (says.new.items ≡ says.old.items ++ end_for_caller sessions.now.list call.now) }
{
    match sessions.by_id(call.caller) {
        Some(transport) => {
            add_refusal(
                alloc,
                says,
                transport,
                RequestKind::Call,
                call.request,
                CANCELED,
            )
        }
        None => Ok(()),
    }
}

// Returns the INTERRUPTs for the callees of calls that ended, if they announced canceling. Cost: look-ups for each call.
pub fn end_for_callees(
    alloc: Global,
    sessions: &Sessions,
    ended: &[Open],
) -> Result<Vec<Say>, Memory>
    ensures { IfOk result (λ says. says.items ≡ flat_map (end_for_callee sessions.now.list) ended.now) }
{
    let mut says = Vec::new(alloc);
    for call in ended {
        add_end_for_callee(&mut says, sessions, call)?;
    }
    Ok(says)
}

fn add_end_for_callee(says: &mut Vec<Say>, sessions: &Sessions, call: &Open) -> Result<(), Memory>
    ensures { OnOk result (says.new.items ≡ says.old.items ++ end_for_callee sessions.now.list call.now) }
{
    if !sessions.announces(call.callee) {
        return Ok(());
    }
    match sessions.by_id(call.callee) {
        Some(transport) => add_message(says, transport, interrupt(call, Mode::KillNoWait)),
        None => Ok(()),
    }
}
