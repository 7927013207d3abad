//! Tests of the rules by which a served node counts time, over public calls: rows worked out by hand, and three to seven nodes that go by these
//! rules under drawn delays.
#![tactic(auto)]

#[cfg(test)]
mod acting;
#[cfg(test)]
mod check;
#[cfg(test)]
mod cluster;
#[cfg(test)]
mod commits;
#[cfg(test)]
mod counting;
#[cfg(test)]
mod cutting;
#[cfg(test)]
mod draws;
#[cfg(test)]
mod electing;
#[cfg(test)]
mod holding;
#[cfg(test)]
mod looks;
#[cfg(test)]
mod pacing;
#[cfg(test)]
mod schedules;
#[cfg(test)]
mod timed;
#[cfg(test)]
mod voter;
