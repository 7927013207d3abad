//! The clients' TCP connections of a node: one thread, the porter, serves all of them, and each has two rings to and from the node's thread.
#![tactic(auto)]

mod allowance;
mod backlog;
mod bell;
mod buffers;
mod door;
mod due;
mod incoming;
mod lines;
mod lobby;
mod node_connection;
mod outgoing;
mod porter;
mod porter_connection;
mod requests;
mod shared;

pub use client_listener::{FromClient, Inlet, ListenFault, Parser, ToClient};
pub use door::{Door, run_porter};
pub use lobby::{Lobby, MOST_CONNECTIONS};
pub use node_connection::{Arrival, NodeConnection, SAYINGS_WAITING};
pub use requests::{Found, REQUESTS_WAITING, RequestReceiver, RequestSender, open_requests};
pub use rtrb::{Consumer, Producer};
