//! How a client leaves or is made to leave, and how the transports of a node go.
ghost use Rattle.std.specs.Prelude.{Some, Option};
ghost use Rattle.realm_sessions.specs.Links.{of_origin};
ghost use Rattle.realm_machine.specs.Content.{Does};
ghost use Rattle.realm_machine.specs.Leaving.{end_calls_to, end_calls_by, end_session, leave};
ghost use Rattle.realm_machine.specs.Leaving.{leave_session};
ghost use Rattle.realm_machine.specs.Leaving.{remove, stop, violation, aborted, goodbye, one_gone, all_gone, gone};

use crate::content::Content;
use crate::memory::Memory;
use crate::sayings::{
    GOODBYE_AND_OUT, PROTOCOL_VIOLATION, Say, add_close, add_end, add_farewell, add_goodbye,
    end_for_callees, end_for_callers,
};
use paxos_packets::Transport;
use wamp_ids::Id;

impl Content {
    // Ends the calls to the session by others, and sends their callers an ERROR.
    fn end_calls_to(&mut self, session: Id) -> Result<Vec<Say>, Memory>
        ensures { Does result self.new (end_calls_to self.old session) }
    {
        let ended = self.calls.leave_callee(session)?;
        end_for_callers(self.alloc, &self.sessions, &ended)
    }

    // Ends the session's calls to others, and interrupts the callees that announced canceling; its calls to itself end silently.
    fn end_calls_by(&mut self, session: Id) -> Result<Vec<Say>, Memory>
        ensures { Does result self.new (end_calls_by self.old session) }
    {
        let ended = self.calls.leave_caller(session)?;
        end_for_callees(self.alloc, &self.sessions, &ended)
    }

    // Ends the transport's session with its calls, registrations and subscriptions; the transport stays.
    pub fn leave(&mut self, transport: Transport) -> Result<Vec<Say>, Memory>
        ensures { Does result self.new (leave self.old transport) }
    {
        let Some(Some(session)) = self.sessions.by_transport(transport) else {
            return Ok(Vec::new(self.alloc));
        };
        self.leave_session(transport, session)
    }

    fn leave_session(&mut self, transport: Transport, session: Id) -> Result<Vec<Say>, Memory>
        ensures { Does result self.new (leave_session self.old transport (Some (Some session))) }
    {
        self.sessions.close(transport);
        self.end_session(session)
    }

    // Ends the session's calls, then its registrations and its subscriptions.
    fn end_session(&mut self, session: Id) -> Result<Vec<Say>, Memory>
        ensures { Does result self.new (end_session self.old session) }
    {
        let mut says = self.end_calls_to(session)?;
        let mut interrupts = self.end_calls_by(session)?;
        let done = says.append(&mut interrupts);
        drop(interrupts);
        self.registrations.leave(session);
        self.subscriptions.leave(session);
        done?;
        Ok(says)
    }

    // Removes the transport, after its session has left.
    pub fn remove(&mut self, transport: Transport) -> Result<Vec<Say>, Memory>
        ensures { Does result self.new (remove self.old transport) }
    {
        let says = self.leave(transport)?;
        self.sessions.remove(transport);
        Ok(says)
    }

    // Removes the transport, sends it an ABORT with this reason, and closes it.
    pub fn stop(&mut self, transport: Transport, reason: &str) -> Result<Vec<Say>, Memory>
        ensures { Does result self.new (stop self.old transport reason.now) }
    {
        let mut says = self.remove(transport)?;
        add_end(self.alloc, &mut says, transport, reason)?;
        Ok(says)
    }

    // Stops a client that broke the protocol.
    pub fn violation(&mut self, transport: Transport) -> Result<Vec<Say>, Memory>
        ensures { Does result self.new (violation self.old transport) }
    {
        self.stop(transport, PROTOCOL_VIOLATION)
    }

    // Removes the transport of a client that aborted, and closes it.
    pub fn aborted(&mut self, transport: Transport) -> Result<Vec<Say>, Memory>
        ensures { Does result self.new (aborted self.old transport) }
    {
        let mut says = self.remove(transport)?;
        add_close(&mut says, transport)?;
        Ok(says)
    }

    // Ends the session at the request of its client, and answers with a GOODBYE.
    pub fn goodbye(&mut self, transport: Transport) -> Result<Vec<Say>, Memory>
        ensures { Does result self.new (goodbye self.old transport) }
    {
        let mut says = self.leave(transport)?;
        add_goodbye(self.alloc, &mut says, transport, GOODBYE_AND_OUT)?;
        Ok(says)
    }

    // Removes one transport of a node that is gone.
    fn one_gone(&mut self, transport: Transport) -> Result<Vec<Say>, Memory>
        ensures { Does result self.new (one_gone self.old transport) }
    {
        let session = self.sessions.by_transport(transport);
        let mut says = self.remove(transport)?;
        let alloc = self.alloc;
        add_farewell(alloc, &mut says, transport, &session)?;
        Ok(says)
    }

    // Removes the transports that the node took, one after the other.
    pub fn gone(&mut self, node: u8) -> Result<Vec<Say>, Memory>
        ensures { Does result self.new (gone self.old node) }
    {
        let transports = self.sessions.of_origin(node)?;
        self.all_gone(&transports)
    }

    fn all_gone(&mut self, transports: &[Transport]) -> Result<Vec<Say>, Memory>
        ensures { Does result self.new (all_gone transports.now self.old) }
    {
        let mut says = Vec::new(self.alloc);
        for transport in transports {
            let mut more = self.one_gone(*transport)?;
            says.append(&mut more)?;
        }
        Ok(says)
    }
}
