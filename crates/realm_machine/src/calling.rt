//! How a client calls a procedure, cancels a call, and answers an invocation.
ghost use Rattle.std.specs.Prelude.{◌≡◌, ◌++◌, false, IfOk};
ghost use Rattle.realm_calls.specs.Calls.{has, peek, open_of};
ghost use Rattle.realm_sessions.specs.Sessions.{next_invocation};
ghost use Rattle.realm_machine.specs.Sayings.{to_session};
ghost use Rattle.realm_machine.specs.Sayings.Invocations.{result_of, interrupted, told_canceled};
ghost use Rattle.realm_machine.specs.Content.{Does};
ghost use Rattle.realm_machine.specs.Calling.{refuse_call, invoke, on_call, on_cancel, progressed, on_yield, on_failure, unfit_yield};

use crate::content::Content;
use crate::memory::Memory;
use crate::requester::Requester;
use crate::sayings::{
    INVALID_ARGUMENT, INVALID_URI, LIMIT, NO_SUCH_PROCEDURE, Say, add_interrupt, add_told_canceled,
    failure, invocation, result_of,
};
use paxos_packets::Transport;
use realm_calls::{Cancelled, Open};
use realm_registrations::Chosen;
use realm_sessions::laws::invocation_ids_are_found;
use wamp_ids::{Id, Uri};
use wamp_message_types::{Call, Cancel, RequestKind, Yield};
use wamp_values::Args;

impl Content {
    // Opens a call, and invokes the callee that serves the procedure.
    pub fn on_call(&mut self, requester: Requester, call: &Call) -> Result<Vec<Say>, Memory>
        ensures { Does result self.new (on_call self.old requester call.now) }
    {
        if self.calls.has(requester.session, call.request) {
            return self.violation(requester.transport);
        }
        let Ok(procedure) = Uri::of(call.procedure.as_str()) else {
            return self.refuse_call(requester, call, INVALID_URI);
        };
        if procedure.is_reserved() {
            return self.refuse_call(requester, call, NO_SUCH_PROCEDURE);
        }
        let Some(chosen) = self.registrations.choose(&procedure) else {
            return self.refuse_call(requester, call, NO_SUCH_PROCEDURE);
        };
        if self.calls.is_full(requester.session) {
            return self.refuse_call(requester, call, LIMIT);
        }
        self.invoke(requester, call, &chosen)
    }

    // Opens the call under the callee's next invocation id, and sends the callee the INVOCATION.
    fn invoke(
        &mut self,
        requester: Requester,
        call: &Call,
        chosen: &Chosen,
    ) -> Result<Vec<Say>, Memory>
        requires { has self.old.calls.list requester.session call.now.request ≡ false }
        ensures { Does result self.new (invoke self.old requester call.now chosen.now
            (next_invocation self.old.sessions chosen.now.callee (open_of self.old.calls.list chosen.now.callee))) }
    {
        let passed = self.passed_over(chosen.callee)?;
        // for the proof
        invocation_ids_are_found();
        let Some(id) = self.sessions.next_invocation(chosen.callee, &passed) else {
            return self.refuse_call(requester, call, LIMIT);
        };
        self.calls.open(
            requester.session,
            call.request,
            chosen.callee,
            id,
            call.receive_progress,
        )?;
        self.registrations.turn(chosen.registration);
        let place = self.sessions.by_id(chosen.callee);
        let message = invocation(id, requester.session, chosen, call)?;
        self.say_to(&place, message)
    }

    // Returns the open invocations that the callee's next id has to pass over: none if the id after its last one is not open.
    fn passed_over(&self, callee: Id) -> Result<Vec<Id>, Memory>
        ensures { IfOk result (λ passed. next_invocation self.now.sessions callee passed.items
            ≡ next_invocation self.now.sessions callee (open_of self.now.calls.list callee)) }
    {
        // for the proof
        invocation_ids_are_found();
        let Some(due) = self.sessions.due_invocation(callee) else {
            return Ok(self.calls.open_of(callee)?);
        };
        if self.calls.is_invoked(callee, due) {
            return Ok(self.calls.open_of(callee)?);
        }
        Ok(Vec::new(self.alloc))
    }

    // Refuses the CALL with this error.
    fn refuse_call(
        &self,
        requester: Requester,
        call: &Call,
        error: &str,
    ) -> Result<Vec<Say>, Memory>
        ensures { Does result self.now (refuse_call self.now requester call.now error.now) }
    {
        self.refuse(requester.transport, RequestKind::Call, call.request, error)
    }

    // Cancels a call of the client; an unknown request is ignored.
    pub fn on_cancel(&mut self, requester: Requester, cancel: &Cancel) -> Result<Vec<Say>, Memory>
        ensures { Does result self.new (on_cancel self.old requester cancel.now) }
    {
        let Some(call) = self.calls.call_of(requester.session, cancel.request) else {
            return Ok(Vec::new(self.alloc));
        };
        let announces = self.sessions.announces(call.callee);
        let Ok(cancelled) = self
            .calls
            .cancel(requester.session, cancel.request, cancel.mode, announces)
        else {
            return Ok(Vec::new(self.alloc));
        };
        self.say_canceled(requester.transport, &cancelled)
    }

    // Returns what is said to the callee and to the caller of a call that was canceled.
    fn say_canceled(&self, transport: Transport, it: &Cancelled) -> Result<Vec<Say>, Memory>
        ensures { IfOk result (λ says. says.items
            ≡ interrupted self.now.sessions.list it.now.call it.now.interrupt ++ told_canceled transport it.now) }
    {
        let mut says = Vec::new(self.alloc);
        add_interrupt(&mut says, &self.sessions, it)?;
        add_told_canceled(self.alloc, &mut says, transport, it)?;
        Ok(says)
    }

    // Ends the call that a callee answers, and sends its caller the RESULT; with `progress` the call stays open. An unknown invocation is
    // ignored.
    pub fn on_yield(&mut self, requester: Requester, answer: &Yield) -> Result<Vec<Say>, Memory>
        ensures { Does result self.new (on_yield self.old requester answer.now) }
    {
        if answer.progress {
            return self.progressed(requester, answer);
        }
        let Ok(call) = self.calls.answer(requester.session, answer.request) else {
            return Ok(Vec::new(self.alloc));
        };
        self.say_result(&call, false, &answer.args)
    }

    // Sends the caller a progressive result, if it takes them.
    fn progressed(&self, requester: Requester, answer: &Yield) -> Result<Vec<Say>, Memory>
        ensures { Does result self.now (progressed self.now answer.now.args
            (peek self.now.calls.list requester.session answer.now.request)) }
    {
        let Some(call) = self.calls.peek(requester.session, answer.request) else {
            return Ok(Vec::new(self.alloc));
        };
        if !call.progress {
            return Ok(Vec::new(self.alloc));
        }
        self.say_result(call, true, &answer.args)
    }

    // Sends the call's caller the RESULT.
    fn say_result(&self, call: &Open, progress: bool, args: &Args) -> Result<Vec<Say>, Memory>
        ensures { IfOk result (λ says. says.items
            ≡ to_session self.now.sessions.list call.now.caller (result_of progress args.now call.now.request)) }
    {
        let place = self.sessions.by_id(call.caller);
        let message = result_of(call.request, progress, args)?;
        self.say_to(&place, message)
    }

    // Ends the call whose callee says that it failed, and sends its caller the ERROR; an unknown invocation is ignored.
    pub fn on_failure(
        &mut self,
        requester: Requester,
        request: Id,
        error: &str,
        args: &Args,
    ) -> Result<Vec<Say>, Memory>
        ensures { Does result self.new (on_failure self.old requester request error.now args.now) }
    {
        let Ok(call) = self.calls.answer(requester.session, request) else {
            return Ok(Vec::new(self.alloc));
        };
        let place = self.sessions.by_id(call.caller);
        let message = failure(self.alloc, call.request, error, args)?;
        self.say_to(&place, message)
    }

    // Ends the call of a callee's unfit answer as if the callee had refused it with `INVALID_ARGUMENT`.
    pub fn unfit_yield(&mut self, requester: Requester, request: Id) -> Result<Vec<Say>, Memory>
        ensures { Does result self.new (unfit_yield self.old requester request) }
    {
        self.on_failure(requester, request, INVALID_ARGUMENT, &Args::Nothing)
    }
}
