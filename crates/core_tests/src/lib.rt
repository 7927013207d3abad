//! Tests of the consensus core below its actors: packets, those ever sent and those that wait in outboxes, the acceptor and
//! the keeper of its rows in memory, the proposer and the learner, what is planned on both, one node, the machines that follow a log, entries
//! as octets, and whole clusters under schedules. All over the crates' public surfaces. A crate with tests is proved twice, so they are here.
#![tactic(auto)]

#[cfg(test)]
mod acceptor;
#[cfg(test)]
mod check;
#[cfg(test)]
mod codec;
#[cfg(test)]
mod cut_worlds;
#[cfg(test)]
mod cuts;
#[cfg(test)]
mod follower;
#[cfg(test)]
mod given_up;
#[cfg(test)]
mod handings;
#[cfg(test)]
mod hearing;
#[cfg(test)]
mod impossible;
#[cfg(test)]
mod keeper;
#[cfg(test)]
mod learner;
#[cfg(test)]
mod log;
#[cfg(test)]
mod machine;
#[cfg(test)]
mod next_boot;
#[cfg(test)]
mod nodes;
#[cfg(test)]
mod outboxes;
#[cfg(test)]
mod packet_rows;
#[cfg(test)]
mod packets;
#[cfg(test)]
mod planning;
#[cfg(test)]
mod proposer;
#[cfg(test)]
mod proposing;
#[cfg(test)]
mod random_worlds;
#[cfg(test)]
mod rescue;
#[cfg(test)]
mod rescue_floors;
#[cfg(test)]
mod schedule;
#[cfg(test)]
mod sent;
#[cfg(test)]
mod session;
#[cfg(test)]
mod snapshots;
#[cfg(test)]
mod unsound;
#[cfg(test)]
mod votes;
#[cfg(test)]
mod worlds;
