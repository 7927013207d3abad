//! Tests of a node whose store stops at each of its calls, in the midst of a session of three nodes, and which comes back on what the crash
//! left: a store over SQLite on disks in memory that fail after k calls, and a keeper in memory whose kth commit fails. A crate with tests
//! is proved twice, so they are here.
#![tactic(auto)]

#[cfg(test)]
mod alone;
#[cfg(test)]
mod check;
#[cfg(test)]
mod commits;
#[cfg(test)]
mod disks;
#[cfg(test)]
mod kept;
#[cfg(test)]
mod session;
#[cfg(test)]
mod store_actors;
#[cfg(test)]
mod sweep;
