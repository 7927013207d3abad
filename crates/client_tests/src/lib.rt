//! Tests of what a client meets, from ids to messages and frames, of acts as octets, and of the realm and its parts, over the crates' public
//! surfaces. A crate with tests is proved twice, so they are here.
#![tactic(auto)]

#[cfg(test)]
mod calling;
#[cfg(test)]
mod calls;
#[cfg(test)]
mod check;
#[cfg(test)]
mod drawn_patterns;
#[cfg(test)]
mod draws;
#[cfg(test)]
mod entries;
#[cfg(test)]
mod frames;
#[cfg(test)]
mod ids;
#[cfg(test)]
mod kept_log;
#[cfg(test)]
mod limits;
#[cfg(test)]
mod messages;
#[cfg(test)]
mod pattern_tables;
#[cfg(test)]
mod patterns;
#[cfg(test)]
mod progressing;
#[cfg(test)]
mod random_acts;
#[cfg(test)]
mod realm;
#[cfg(test)]
mod registrations;
#[cfg(test)]
mod sessions;
#[cfg(test)]
mod snapshots;
#[cfg(test)]
mod subscriptions;
#[cfg(test)]
mod values;
