//! Tests of the program's calls over the public surface of `cluster_program`: the command line, scripts, a served cluster, the texts of its
//! folder and its input; and of the acceptor's store over SQLite, by its public calls. A crate with tests is proved twice, so they are here.
#![tactic(auto)]

#[cfg(test)]
mod check;
#[cfg(test)]
mod clusters;
#[cfg(test)]
mod commands;
#[cfg(test)]
mod damages;
#[cfg(test)]
mod folder;
#[cfg(test)]
mod order;
#[cfg(test)]
mod player;
#[cfg(test)]
mod script;
#[cfg(test)]
mod script_cuts;
#[cfg(test)]
mod script_flushes;
#[cfg(test)]
mod script_lines;
#[cfg(test)]
mod serve;
#[cfg(test)]
mod sql;
#[cfg(test)]
mod store_acts;
#[cfg(test)]
mod store_versions;
