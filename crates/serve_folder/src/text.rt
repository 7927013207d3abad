// The text of the file `cluster`.
ghost use Rattle.std.specs.Prelude.{◌≡◌, IfOk};
ghost use Rattle.serve_folder.specs.Folder.{text_of};

use paxos_packets::Members;
use std::alloc::{AllocError, Global};

// What stands before the number of nodes, a digit, and what stands between it and the realm's name.
pub(crate) const BEFORE_NODES: &[u8] = b"format 1\nnodes ";

pub(crate) const BEFORE_REALM: &[u8] = b"\nrealm ";

/// Returns the text of the file `cluster` in a folder of these members and the realm of this name.
pub fn cluster_text(alloc: Global, members: Members, realm: &str) -> Result<Vec<u8>, AllocError>
    ensures { IfOk result (λ text. text.items ≡ text_of members realm.now) }
{
    let mut text = Vec::new(alloc);
    text.extend_from_slice(BEFORE_NODES)?;
    text.push(b'0' + members.count())?;
    text.extend_from_slice(BEFORE_REALM)?;
    text.extend_from_slice(realm.as_bytes())?;
    text.push(b'\n')?;
    Ok(text)
}
