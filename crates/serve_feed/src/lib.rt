//! What the thread of a node in a served cluster runs on: a gate that rests while nothing happens, and a feed of what the node's clients do and
//! of what time brings (docs/THREADS.md). The rules of pacing are `serve_policy`'s.
//!
//! **No wake-up is lost.** A thread that puts something where a node looks for it wakes the node afterwards: the porter after a push; a peer after
//! a round in which it posted to the node, or took packets of the node, so that a box is free again, if the node has said that packets wait for
//! that peer. The node says so a round before it rests, so the peer sees it, or the round finds the box free. A wake-up that comes while the node
//! does not rest ends its next rest at once. So before the node rests, a round after its last rest has found every box empty and has left nothing
//! to post but what its boxes have no room for, and every ring that was stirred was looked into. Whatever came since brings its own wake-up.
//!
//! **Wake-ups cause no further wake-ups.** A round that moves no packet wakes nobody, and one that does wakes each node once at most. So there are
//! at most two wake-ups for each batch that moves, one each way, and two idle rounds for each wake-up. Rounds count towards a tick only while beats
//! are due by the clock, so idle rounds, however many, bring no tick.
//!
//! **No node falls far behind.** A majority goes on as fast as it can. What waits for a slower node is lost once the outbox for it is full; then
//! the node learns what it lacks tick by tick, and its clients wait. So acts are held back while more than 64 packets wait for a node, for at most
//! 40 beats: a node that does not run holds nobody up for longer.
#![tactic(auto)]

mod feed;
mod held;
mod home;
mod lane;
mod lanes;
mod look;
mod pace;
mod peers;
mod signs;
mod sources;
mod waking;

pub use actor_run::{Gate, RoundFeed, RoundSeen};
pub use feed::ClientFeed;
pub use held::Held;
pub use home::Home;
pub use pace::{Pace, Paced};
pub use paxos_packets::Members;
pub use serve_connections::{Arrival, Consumer, Lobby};
