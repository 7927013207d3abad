//! One node's machine as it follows its node's log, boot by boot, and what the transports of that node are handed
//! (Lamport, Paxos Made Simple, 2001, section 3: the state machine of one server).
#![tactic(auto)]

mod follower;
mod handed;
mod picking;
mod telling;
mod tellings;

pub use follower::Follower;
pub use handed::Told;
pub use paxos_packets::{Memory, Transport};
pub use replica_machine::{Entry, Machine};
pub use tellings::Tellings;
