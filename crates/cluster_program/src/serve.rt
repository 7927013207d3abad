// The run of a served cluster, with the program's faults.
ghost use Rattle.std.specs.Prelude.{◌≡◌, false, IfErr};
ghost use Rattle.cluster_program.specs.Fault.{ends_nothing};

use crate::fault::of_serve;
use program_order::Members;
use serve_program::{ClusterConfig, Gate};
use std::io::{Eprint, Read, Write};
use std::net::{Net, TcpListener, TcpStream};
use std::sync::Wait;
use std::thread::Threads;
use std::time::Clock;
use stream_program::RunFault;

/// Runs a cluster of these members, in the realm of this name, each node on a thread of its own under this gate, and serves clients: node I
/// at port `port + I - 1` of 127.0.0.1, with draws by this key. Rows are kept in `dir/node-I.db`, or in memory if there is no folder. Writes
/// where each node listens before clients are served.
///
/// Returns when the reader ends; a line `status` from it is answered by a line of each node on standard error. Fails with `Store` and the number
/// of a node's fault (61 if its database does not open, 77 if the folder has the database of a node above the members, 78 if it is of another
/// cluster), with `Memory`, or with `Transport`: 83 if a port cannot be listened on, 84 if a write failed.
/// A node that is lost in its boot, or too far behind, is not a fault: it begins its next boot, without its clients. So the number is never 73, nor
/// 51 or 74, which end no node. Threads that wait for a connection, for a client or for the reader are left. (docs/ARCHITECTURE.md, "Threads".)
pub fn serve_run<R, I, W, G>(
    rt: &R,
    host: &HostRuntime,
    reader: I,
    writer: &mut W,
    members: Members,
    port: u16,
    key: u64,
    dir: Option<&str>,
    realm: &str,
    gate: &G,
) -> Result<(), RunFault>
where
    R: Net<Listener = TcpListener, Stream = TcpStream>
        + Threads
        + Wait
        + Clock
        + Eprint
        + Clone
        + Drop
        + Send
        + Sync
        + 'static,
    I: Read + Drop + Send + 'static,
    W: Write,
    G: Gate + Sync,
    ensures { IfErr result (λ fault. ends_nothing fault ≡ false) }
{
    let config = ClusterConfig {
        members,
        port,
        key,
        dir,
        realm,
    };
    match serve_program::serve_run(rt, host, reader, writer, config, gate) {
        Ok(end) => {
            drop(end);
            Ok(())
        }
        Err(fault) => Err(of_serve(fault)),
    }
}
