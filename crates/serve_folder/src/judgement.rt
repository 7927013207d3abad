// Whether a folder is of the cluster that is to be served from it.
ghost use Rattle.std.specs.Prelude.{◌≡◌, IfOk, bytes_eq};
ghost use Rattle.serve_folder.specs.Folder.{text_of, Judges};

use crate::text::{BEFORE_NODES, BEFORE_REALM, cluster_text};
use paxos_packets::Members;
use std::alloc::{AllocError, Global};

/// What the file `cluster` of a folder says of a cluster.
#[derive(Drop)]
pub enum Judgement<'a> {
    /// The folder is of this cluster.
    Same,
    /// The folder is of a cluster of these members, with the realm of this name.
    Other { members: Members, realm: &'a str },
    /// The file has another format, or is damaged.
    Unknown,
}

/// Judges a folder whose file `cluster` has these octets, for a cluster of these members and the realm of this name. Takes time and memory for
/// the text.
pub fn judge<'a>(
    alloc: Global,
    octets: &'a [u8],
    members: Members,
    realm: &str,
) -> Result<Judgement<'a>, AllocError>
    ensures { IfOk result (Judges octets.now members realm.now) }
{
    if is_text_of(alloc, octets, members, realm)? {
        return Ok(Judgement::Same);
    }
    let Some(other) = members_in(octets) else {
        return Ok(Judgement::Unknown);
    };
    let Some(name) = realm_in(octets) else {
        return Ok(Judgement::Unknown);
    };
    if is_text_of(alloc, octets, other, name)? {
        return Ok(Judgement::Other {
            members: other,
            realm: name,
        });
    }
    Ok(Judgement::Unknown)
}

// Returns whether this is the text of a folder of these members and this realm.
fn is_text_of(
    alloc: Global,
    octets: &[u8],
    members: Members,
    realm: &str,
) -> Result<bool, AllocError>
    ensures { IfOk result (λ is. is ≡ bytes_eq octets.now (text_of members realm.now)) }
{
    let text = cluster_text(alloc, members, realm)?;
    Ok(octets == text.as_slice())
}

// Returns the members that stand where a text has its members.
fn members_in(octets: &[u8]) -> Option<Members> {
    let digit = *octets.get(BEFORE_NODES.len())?;
    Members::new(digit.checked_sub(b'0')?)
}

// Returns the name that stands where a text has that of its realm.
fn realm_in(octets: &[u8]) -> Option<&str> {
    let (_feed, line) = octets.split_last()?;
    let begin = BEFORE_NODES.len() + 1 + BEFORE_REALM.len();
    let (_before, name) = line.split_at_checked(begin)?;
    str::from_utf8(name).ok()
}
