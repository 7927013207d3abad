// Rows of the file `cluster` of a folder, judged for a cluster of three nodes in the realm `a`.
use crate::check::Check;
use serve_folder::{Judgement, Members, cluster_text, judge};
use std::alloc::{AllocError, Global};
use std::process::Abort;
use test_checks::check_eq;

// What a file has, and what it says: that the folder is of this cluster, of another one, or nothing.
const FILES: &[(&str, &str)] = &[
    ("format 1\nnodes 3\nrealm a\n", "same"),
    ("format 1\nnodes 5\nrealm a\n", "5 a"),
    ("format 1\nnodes 7\nrealm \n", "7 "),
    ("format 1\nnodes 3\nrealm a\n\n", "3 a\n"),
    ("format 1\nnodes 3\nrealm ä\nrealm a\n", "3 ä\nrealm a"),
    ("format 1\nnodes 3\nrealm a", "nothing"),
    ("format 1\nnodes 2\nrealm a\n", "nothing"),
    ("format 1\nnodes 8\nrealm a\n", "nothing"),
    ("format 1\nnodes 13\nrealm a\n", "nothing"),
    ("format 2\nnodes 3\nrealm a\n", "nothing"),
    ("format 1\r\nnodes 3\r\nrealm a\r\n", "nothing"),
    ("format 1\nnodes 3\n", "nothing"),
    ("format 1\nnodes ", "nothing"),
    ("", "nothing"),
];

fn told(alloc: Global, judgement: Judgement<'_>) -> Result<String, AllocError> {
    match judgement {
        Judgement::Same => String::from_str(alloc, "same"),
        Judgement::Other { members, realm } => format!(in alloc; "{} {realm}", members.count()),
        Judgement::Unknown => String::from_str(alloc, "nothing"),
    }
}

fn judged(rt: &impl Abort, alloc: Global, octets: &[u8], members: Members) -> String {
    let said = match judge(alloc, octets, members, "a") {
        Ok(judgement) => told(alloc, judgement),
        Err(error) => Err(error),
    };
    said.expect(rt, "memory for the texts")
}

fn is_said(rt: &impl Abort, said: &str, wanted: &str, file: &str) {
    check_eq!(rt; said, wanted, file);
}

#[test]
fn folders_are_judged(rt: HostRuntime) {
    let members = Members::new(3).expect(&rt, "three members");
    for (file, wanted) in FILES {
        let said = judged(&rt, rt.alloc(), file.as_bytes(), members);
        is_said(&rt, said.as_str(), wanted, file);
    }
    let octets = b"format 1\nnodes 4\nrealm \xFF\n".as_slice();
    let said = judged(&rt, rt.alloc(), octets, members);
    is_said(&rt, said.as_str(), "nothing", "a name that is no text");
}

#[test]
fn a_text_is_written(rt: HostRuntime) {
    let members = Members::new(7).expect(&rt, "seven members");
    let text = cluster_text(rt.alloc(), members, "b c").expect(&rt, "memory for the text");
    check_eq!(&rt; text.as_slice(), b"format 1\nnodes 7\nrealm b c\n".as_slice());
}
