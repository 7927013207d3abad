//! Tests of what is between a client's socket and a node's thread, of what that thread uses in a served cluster, and of one client
//! over a reader and a writer, over public calls, in memory and over loopback sockets. A crate with tests is proved twice, so they are here.
#![tactic(auto)]

#[cfg(test)]
mod check;
#[cfg(test)]
mod clients;
#[cfg(test)]
mod draining;
#[cfg(test)]
mod feeding;
#[cfg(test)]
mod floors;
#[cfg(test)]
mod greeting;
#[cfg(test)]
mod house;
#[cfg(test)]
mod lanes;
#[cfg(test)]
mod narrow;
#[cfg(test)]
mod one_client;
#[cfg(test)]
mod reading;
#[cfg(test)]
mod rounds;
#[cfg(test)]
mod steps;
#[cfg(test)]
mod streams;
#[cfg(test)]
mod threads;
#[cfg(test)]
mod turns;
#[cfg(test)]
mod writing;
