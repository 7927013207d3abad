//! How a client opens a session.
ghost use Rattle.std.specs.Prelude.{◌≡◌, Some, None};
ghost use Rattle.realm_sessions.specs.Links.{by_transport};
ghost use Rattle.realm_machine.specs.Content.{Does};
ghost use Rattle.realm_machine.specs.Opening.{open_at};

use crate::config::Config;
use crate::content::Content;
use crate::memory::Memory;
use crate::sayings::{LIMIT, NO_SUCH_REALM, Say};
use paxos_packets::Transport;
use realm_sessions::RealmFault;
use wamp_ids::Id;
use wamp_message_types::{Hello, Message, Welcome};

impl Content {
    // Opens a session for a client at a connected transport that has none.
    pub fn open_at(
        &mut self,
        config: &Config,
        transport: Transport,
        draw: Id,
        hello: &Hello,
    ) -> Result<Vec<Say>, Memory>
        requires { by_transport self.old.sessions.list transport ≡ Some None }
        ensures { Does result self.new (open_at config.now self.old transport draw hello.now) }
    {
        if !config.is_named(&hello.realm) {
            return self.stop(transport, NO_SUCH_REALM);
        }
        match self.sessions.open(transport, draw, hello.canceling) {
            Ok(session) => self.reply(transport, Message::Welcome(Welcome { session })),
            Err(RealmFault::Memory) => Err(Memory),
            Err(_) => self.stop(transport, LIMIT),
        }
    }
}
