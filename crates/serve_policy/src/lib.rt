//! The rules by which a node of a served cluster paces itself: when it ticks, begins a ballot and suspects another node, when it holds acts or
//! ticks back, how many acts it gives, how long its commits take, when it cuts its log, when it is behind for good, how long it waits for slow
//! clients, and what it draws. Each rule is a definition in `specs/`.
//!
//! The rules see the node's turns and measured times alone: nothing here reads a clock, waits or allocates. Time is counted in *beats* of 2 ms.
#![tactic(auto)]

mod admission;
mod backpressure;
mod behind;
mod clock;
mod commits;
mod cutting;
mod debt;
mod draining;
mod draws;
mod gaining;
mod reader;
mod telling;
mod ticks;
mod turn;

pub use admission::{Admission, looks_aside};
pub use backpressure::Backpressure;
pub use behind::Behind;
pub use clock::{BEAT_MICROS, BEATS_A_TICK, Passed, beats_due, left_of_waits, left_to_wait};
pub use commits::Commits;
pub use cutting::{is_long, rest_after};
pub use debt::Debt;
pub use draining::Draining;
pub use draws::Draws;
pub use gaining::Gaining;
pub use paxos_packets::Members;
pub use reader::Reader;
pub use telling::Telling;
pub use ticks::{Due, Ticks};
pub use turn::{Sign, Turn};
pub use wamp_ids::Id;
