//! The sender of a request, and the draw for it.
use paxos_packets::Transport;
use wamp_ids::Id;

// A client with a session that sends a request, and the draw for the id that the request may ask for.
#[derive(Clone, Copy, Debug)]
pub struct Requester {
    pub transport: Transport,
    pub session: Id,
    pub draw: Id,
}
