// A node that begins with its rows, and the numbers of a node's faults.
use crate::check::Check;
use crate::snapshots::snapshot_of;
use paxos_node::{Node, NodeFault};
use paxos_packets::{Ballot, Members, Rows, Votes};
use std::alloc::Global;
use std::process::Abort;
use test_checks::{check, check_eq};
use test_machines::Number;

const PROMISED: Ballot = Ballot { round: 4, node: 2 };

// A node that promised a ballot, with the snapshot of these octets, if they are one.
fn node_of(rt: &impl Abort, alloc: Global, octets: &[u8]) -> Node<Number> {
    let members = Members::new(3).expect(rt, "3 members");
    let rows = Rows {
        boot: 3,
        promised: Some(PROMISED),
        snapshot: snapshot_of(rt, alloc, octets),
        votes: Votes::new(alloc),
    };
    Node::of(alloc, 1, members, rows).expect(rt, "room for a node")
}

// It has begun, and its log is this long.
fn is_begun(rt: &impl Abort, node: &Node<Number>, length: u64) {
    check!(rt; node.is_up());
    check!(rt; node.has_pending());
    check_eq!(rt; node.applied(), length);
    check_eq!(rt; node.boot(), 3);
    check!(rt; node.promised() == Some(PROMISED));
    check!(rt; node.votes().is_empty());
}

// The floor of the snapshot in its rows, or 0 without one.
fn floor_in(node: Node<Number>) -> u64 {
    let rows = node.into_rows();
    let floor = match &rows.snapshot {
        Some(snapshot) => snapshot.floor().get(),
        None => 0,
    };
    drop(rows);
    floor
}

#[test]
fn a_node_has_the_floor_of_its_rows(rt: HostRuntime) {
    let node = node_of(&rt, rt.alloc(), &[0, 0, 0, 0, 0, 0, 1, 2]);
    is_begun(&rt, &node, 258);
    check_eq!(&rt; node.floor().get(), 258);
    check_eq!(&rt; floor_in(node), 258);
}

#[test]
fn a_node_begins_with_its_rows(rt: HostRuntime) {
    let node = node_of(&rt, rt.alloc(), &[]);
    is_begun(&rt, &node, 0);
    check_eq!(&rt; node.floor().get(), 0);
    check_eq!(&rt; node.into_rows().boot, 3);
}

#[test]
fn faults_of_a_node_have_numbers(rt: HostRuntime) {
    check_eq!(&rt; NodeFault::Rounds.number(), 51);
    check_eq!(&rt; NodeFault::Full.number(), 74);
    check_eq!(&rt; NodeFault::Disagree.number(), 55);
    check_eq!(&rt; NodeFault::Memory.number(), 54);
}
