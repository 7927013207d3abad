// From the octets of one client to acts in its realm, and to the replies.
ghost use Rattle.std.specs.Prelude.{◌≡◌, ◌<◌, ◌++◌, ℕ, List, [], IfOk, OnOk, IfErr, option_map};
ghost use Rattle.wamp_ids.specs.Id.{id_after};
ghost use Rattle.wamp_rawsocket.specs.Splitter.{passed};
ghost use Rattle.stream_program.specs.Stream.{silent, ends};
ghost use Rattle.stream_program.specs.Replies.{Answers};
ghost use Rattle.stream_program.specs.Service.{IsFirst, Takes, Performs, due, held_len};

use crate::fault::RunFault;
use crate::progress::Progress;
use crate::replies::{CLIENT, Replies};
use client_listener::ListenFault;
use realm_machine::{Act, Limits, Realm, Shared};
use std::alloc::Global;
use wamp_ids::Id;
use wamp_messages::{Parser, Read, read_by};
use wamp_rawsocket::{FrameKind, FrameRef, Splitter};

// What serves one client: the realm, the frames that the client sends, and the replies to it.
#[derive(Drop)]
pub(crate) struct Service {
    alloc: Global,
    parser: Parser,
    realm: Realm,
    splitter: Splitter,
    draw: Id,
    pub replies: Replies,
}

impl Service {
    // Makes what serves a client that takes payloads of up to `limit` octets, with a new realm of this name.
    pub fn new(alloc: Global, realm: &str, limit: u32) -> Result<Service, RunFault>
        ensures first { IfOk result (IsFirst realm.now limit) }
        ensures memory { IfErr result (λ fault. fault ≡ RunFault.Memory) }
    {
        let name = String::from_str(alloc, realm)?;
        let draw = Id::new(1).unwrap();
        Ok(Service {
            alloc,
            parser: Parser::new(alloc),
            realm: Realm::new(alloc, name, Limits::SERVED),
            splitter: Splitter::new(alloc),
            draw,
            replies: Replies::new(alloc, limit),
        })
    }

    // Takes the client's next octets; they are refused only if memory runs out.
    pub fn feed(&mut self, octets: &[u8]) -> Result<(), RunFault>
        ensures ok { OnOk result (self.new ≡ record self.old {
          splitter = option_map (λ held. held ++ octets.now) self.old.splitter;
        }) }
        ensures err { IfErr result (λ fault. fault ≡ RunFault.Memory) }
    {
        match self.splitter.feed(octets) {
            Ok(()) => Ok(()),
            Err(_) => Err(RunFault::Memory),
        }
    }

    // Gives the realm what happens at the client's transport, and puts what it says to the client after the replies.
    pub fn act(&mut self, act: &Act) -> Result<Progress, RunFault>
        ensures { Performs result self.old act.now self.old.draw self.new }
    {
        let says = self.realm.act(CLIENT, act)?;
        self.replies.tell(says.as_slice())
    }

    // Answers the next frame, if a whole one is held.
    pub fn answer_next(&mut self) -> Result<Progress, RunFault>
        ensures answers { (more : List ℕ) → Answers result (due self.old more) (due self.new more)
            self.old.replies.octets self.new.replies.octets }
        ensures waits { result ≡ Ok Progress.Waiting → due self.new [] ≡ ends silent }
        ensures shrinks { result ≡ Ok Progress.Onward → held_len self.new.splitter < held_len self.old.splitter }
    {
        let Some(frame) = front(&self.splitter)? else {
            return Ok(Progress::Waiting);
        };
        match frame.kind {
            FrameKind::Message => {
                let read = read_by(&mut self.parser, frame.payload)?;
                let shared = Shared::new(self.alloc, read)?;
                self.splitter.pass();
                self.answer_message(shared)
            }
            FrameKind::Ping => {
                let put = self.replies.put(FrameKind::Pong, frame.payload);
                self.splitter.pass();
                put
            }
            FrameKind::Pong => {
                self.splitter.pass();
                Ok(Progress::Onward)
            }
        }
    }

    // Answers what a message was read as, with the present draw; the next message has the next one.
    fn answer_message(&mut self, read: Shared<Read>) -> Result<Progress, RunFault>
        ensures { Performs result self.old (Act.Said self.old.draw read) (id_after self.old.draw) self.new }
    {
        let draw = self.draw;
        self.draw = draw.next();
        self.act(&Act::Said { draw, read })
    }
}

// Returns the next whole frame without copying it. `None` if no whole one is held.
fn front(splitter: &Splitter) -> Result<Option<FrameRef<'_>>, RunFault>
    ensures { Takes result splitter.now (option_map passed splitter.now) }
{
    match splitter.peek() {
        Ok(front) => Ok(front),
        Err(_) => Err(RunFault::from(ListenFault::Frame)),
    }
}
