// The file `cluster` of a folder, by which a start over another cluster's folder is refused.
ghost use Rattle.std.specs.Prelude.{IfErr};
ghost use Rattle.serve_program.specs.Fault.{IsEnding};

use crate::fault::NodeFault;
use node_actor::{KeeperFault, Members};
use serve_folder::{Judgement, cluster_text, judge};
use std::alloc::{AllocError, Global};
use std::fs::File;
use std::io::{Eprint, ErrorKind, Write};
use std::{fs, io};

// The two paths of the file: that of the finished one, and that of one that is being written.
#[derive(Drop)]
struct Paths {
    file: String,
    fresh: String,
}

impl Paths {
    fn of(alloc: Global, folder: &str) -> Result<Paths, AllocError> {
        let Ok(file) = format!(in alloc; "{folder}/cluster") else {
            return Err(AllocError);
        };
        let Ok(fresh) = format!(in alloc; "{folder}/cluster.new") else {
            return Err(AllocError);
        };
        Ok(Paths { file, fresh })
    }
}

// Writes the file: another one is written and synced, and gets its name; then the folder is synced.
fn make_file(host: &HostRuntime, folder: &str, paths: &Paths, text: &[u8]) -> io::Result<()> {
    let mut file = File::create(host, paths.fresh.as_str())?;
    file.write_all(text)?;
    file.sync_all()?;
    drop(file);
    fs::rename(host, paths.fresh.as_str(), paths.file.as_str())?;
    File::open(host, folder)?.sync_all()
}

// Says that the file could not be read or written, and returns the fault.
fn unusable<R: Eprint>(rt: &R, file: &str, error: io::Error) -> NodeFault
    ensures { IsEnding result }
{
    if error.kind() == ErrorKind::OutOfMemory {
        return NodeFault::Memory;
    }
    let _ = eprintln!(rt; "{file}: {error}");
    NodeFault::Store(KeeperFault::Store)
}

// Says of which cluster the folder is, and returns the fault; nothing if it is of these members and this realm.
fn refuse<R: Eprint>(
    rt: &R,
    file: &str,
    judgement: Judgement<'_>,
    members: Members,
    realm: &str,
) -> Result<(), NodeFault>
    ensures { IfErr result IsEnding }
{
    let count = members.count();
    match judgement {
        Judgement::Same => return Ok(()),
        Judgement::Other {
            members: other,
            realm: name,
        } => {
            let nodes = other.count();
            let _ = eprintln!(rt;
                "{file} is of --nodes {nodes} --realm {name}, and not of --nodes {count} --realm {realm}: give them as when the folder was made, or another folder"
            );
        }
        Judgement::Unknown => {
            let _ = eprintln!(rt;
                "{file} is not what this program writes, so the folder is not known to be of --nodes {count} --realm {realm}: start the program that wrote it"
            );
        }
    }
    Err(NodeFault::OtherCluster)
}

/// Refuses a folder that is of a cluster of other members or of another realm, by a line on standard error that names both: nothing is opened or
/// changed then. A folder that has no file `cluster` gets it.
pub(crate) fn claim_folder<R: Eprint>(
    rt: &R,
    host: &HostRuntime,
    folder: &str,
    members: Members,
    realm: &str,
) -> Result<(), NodeFault>
    ensures { IfErr result IsEnding }
{
    let alloc = host.alloc();
    let Ok(paths) = Paths::of(alloc, folder) else {
        return Err(NodeFault::Memory);
    };
    match fs::read(host, paths.file.as_str()) {
        Ok(octets) => match judge(alloc, octets.as_slice(), members, realm) {
            Ok(judgement) => refuse(rt, paths.file.as_str(), judgement, members, realm),
            Err(_) => Err(NodeFault::Memory),
        },
        Err(error) if error.kind() == ErrorKind::NotFound => {
            let Ok(text) = cluster_text(alloc, members, realm) else {
                return Err(NodeFault::Memory);
            };
            match make_file(host, folder, &paths, text.as_slice()) {
                Ok(()) => Ok(()),
                Err(error) => Err(unusable(rt, paths.file.as_str(), error)),
            }
        }
        Err(error) => Err(unusable(rt, paths.file.as_str(), error)),
    }
}
