//! Tests of the mail table between nodes; of actors over their public calls, of three of them at a table, with a machine that adds up and
//! with failing keepers; and of runs of actors, each beside its table: full outboxes, sessions with a realm whose logs are gathered, and three
//! nodes on threads of their own; with cuts, and snapshots that are taken. A crate with tests is proved twice, so they are here.
#![tactic(auto)]

#[cfg(test)]
mod actors;
#[cfg(test)]
mod batches;
#[cfg(test)]
mod carrying;
#[cfg(test)]
mod check;
#[cfg(test)]
mod counting;
#[cfg(test)]
mod crashing;
#[cfg(test)]
mod cutting;
#[cfg(test)]
mod hearing;
#[cfg(test)]
mod mail_tables;
#[cfg(test)]
mod mail_threads;
#[cfg(test)]
mod outboxes;
#[cfg(test)]
mod posting;
#[cfg(test)]
mod posting_together;
#[cfg(test)]
mod realms;
#[cfg(test)]
mod refusing;
#[cfg(test)]
mod rotating;
#[cfg(test)]
mod round_acts;
#[cfg(test)]
mod round_failing;
#[cfg(test)]
mod round_leading;
#[cfg(test)]
mod round_losing;
#[cfg(test)]
mod round_telling;
#[cfg(test)]
mod rounds;
#[cfg(test)]
mod sessions;
#[cfg(test)]
mod signs;
#[cfg(test)]
mod snapshots;
#[cfg(test)]
mod telling;
#[cfg(test)]
mod threads;
#[cfg(test)]
mod trial;
#[cfg(test)]
mod voting_twice;
