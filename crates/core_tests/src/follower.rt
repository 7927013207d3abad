// A node's machine along its log in several boots: what transports are handed, sayings ahead, a machine that refuses, and snapshots.
use crate::check::Check;
use replica_follower::{Follower, Transport};
use replica_machine::{Entry, Machine};
use std::alloc::Global;
use std::panic::Expect;
use std::process::Abort;
use test_checks::{check, check_eq};
use test_machines::{Count, Foretells, Number, Refuses, Scant};

// A node whose boots go by pieces of one log, and the octets of the empty one.
#[derive(Drop)]
struct Walk<M: Machine> {
    follower: Follower<M>,
    log: Vec<Entry<M::Body>>,
    first: Vec<u8>,
}

impl<M: Machine> Walk<M> {
    // Applies the entries from one place to another in this boot, from the first one on with a machine that is made anew. Returns whether it
    // did.
    fn pass(&mut self, boot: u64, from: usize, end: usize) -> bool {
        if end < from || self.log.len() < end {
            return false;
        }
        if boot > 1 && from == 0 && self.follower.renew(&self.first).is_err() {
            return false;
        }
        self.follower.follow(boot, &self.log[from..end]).is_ok()
    }
}

// An act of transport 1 of node 2 in its boot 1, with this number and body.
fn item(seq: u64, value: u32) -> Entry<Number> {
    Entry::Item {
        node: 2,
        boot: 1,
        seq,
        transport: 1,
        body: Number::new(value),
    }
}

// Nodes 1 and 2 begin, and then node 2 takes 5 and 6.
fn walk_of<M: Machine<Body = Number>>(
    rt: &impl Abort,
    alloc: Global,
    node: u8,
    machine: M,
) -> Walk<M> {
    let log = vec![in alloc;
        Entry::Boot { node: 1, boot: 1 },
        Entry::Boot { node: 2, boot: 1 },
        item(1, 5),
        item(2, 6),
    ]
    .expect(rt, "room for a log");
    let follower = Follower::new(alloc, node, machine);
    let first = follower.saved().expect(rt, "the octets of a log");
    Walk {
        follower,
        log,
        first,
    }
}

// What transport 1 of the node in this boot was handed: how many sums, and the last of them.
fn handed<M: Machine<Say = (Transport, u64)>>(
    follower: &Follower<M>,
    node: u8,
    boot: u64,
) -> (usize, Option<u64>) {
    let says = follower.said(Transport {
        node,
        boot,
        number: 1,
    });
    (says.len(), says.last().map(|say| say.1))
}

// How many transports were handed something.
fn told<M: Machine>(follower: &Follower<M>) -> usize {
    let mut tellings = follower.handed();
    let mut count = 0usize;
    for _transport in 0..9u8 {
        if tellings.next().is_some() {
            count = count.saturating_add(1);
        }
    }
    count
}

// A piece of the log in a boot, then how many sums the transports of boots 1 and 2 were handed and the last of them.
type Row = (
    u64,
    usize,
    usize,
    (usize, Option<u64>),
    (usize, Option<u64>),
);

const ONCE: &[Row] = &[
    (1, 0, 2, (0, None), (0, None)),
    (1, 2, 3, (1, Some(5)), (0, None)),
    (1, 3, 4, (2, Some(11)), (0, None)),
    (2, 0, 3, (2, Some(11)), (0, None)),
    (2, 3, 4, (2, Some(11)), (0, None)),
];

// A machine that speaks to transports of the next boot, which it then tells all again.
const AHEAD: &[Row] = &[
    (1, 0, 4, (2, Some(11)), (0, None)),
    (2, 0, 2, (2, Some(11)), (0, None)),
    (2, 2, 3, (2, Some(11)), (1, Some(5))),
    (2, 3, 4, (2, Some(11)), (2, Some(11))),
    (3, 0, 4, (2, Some(11)), (2, Some(11))),
];

// The node hands out what is for another one to nobody.
const OF_ANOTHER: &[Row] = &[(1, 0, 4, (0, None), (0, None))];

// The node was down before it applied the last act in boot 1.
const CUT_SHORT: &[Row] = &[
    (1, 0, 3, (1, Some(5)), (0, None)),
    (2, 0, 4, (1, Some(5)), (2, Some(11))),
    (3, 0, 4, (1, Some(5)), (2, Some(11))),
];

// What a piece of the log leads to: whether it is applied, and what the transports of boots 1 and 2 were handed then.
fn passed<M: Machine<Say = (Transport, u64)>>(
    walk: &mut Walk<M>,
    row: &Row,
) -> (bool, (usize, Option<u64>), (usize, Option<u64>)) {
    let passed = walk.pass(row.0, row.1, row.2);
    (
        passed,
        handed(&walk.follower, 2, 1),
        handed(&walk.follower, 2, 2),
    )
}

fn goes<M: Machine<Say = (Transport, u64)>>(rt: &impl Abort, walk: &mut Walk<M>, rows: &[Row]) {
    for row in rows {
        check_eq!(rt; passed(walk, row), (true, row.3, row.4));
    }
}

// The sum of a walk, the length of its log, and how many transports were handed something.
fn counted(walk: &Walk<Count>) -> (u64, usize, usize) {
    let follower = &walk.follower;
    (
        follower.machine().sum(),
        follower.log().len(),
        told(follower),
    )
}

#[test]
fn what_is_applied_again_is_not_told_again(rt: HostRuntime) {
    let mut walk = walk_of(&rt, rt.alloc(), 2, Count::new(rt.alloc()));
    goes(&rt, &mut walk, ONCE);
    let counted = counted(&walk);
    drop(walk);
    check_eq!(&rt; counted, (11, 4, 1));
}

// A node whose machine speaks ahead goes as these rows say, and hands something to this many transports.
fn speaks_ahead(rt: &impl Abort, alloc: Global, node: u8, rows: &[Row], transports: usize) {
    let mut walk = walk_of(rt, alloc, node, Foretells::new(alloc));
    goes(rt, &mut walk, rows);
    let told = told(&walk.follower);
    drop(walk);
    check_eq!(rt; told, transports);
}

#[test]
fn what_is_said_to_a_boot_is_handed_out_in_it(rt: HostRuntime) {
    speaks_ahead(&rt, rt.alloc(), 2, AHEAD, 2);
}

#[test]
fn what_a_boot_did_not_apply_is_not_handed_out(rt: HostRuntime) {
    speaks_ahead(&rt, rt.alloc(), 2, CUT_SHORT, 2);
}

#[test]
fn what_is_for_another_node_is_dropped(rt: HostRuntime) {
    speaks_ahead(&rt, rt.alloc(), 1, OF_ANOTHER, 0);
}

// A piece of the log in a boot, whether it is applied, and the length of the log then and whether the machine is given up.
type Try = (u64, usize, usize, bool, usize, bool);

const REFUSED: &[Try] = &[
    (1, 0, 1, true, 1, false),
    (1, 1, 3, false, 1, true),
    (1, 1, 2, false, 1, true),
    (1, 1, 1, true, 1, true),
];

// In the next boot it comes back.
const RENEWED: &[Try] = &[(2, 0, 1, true, 1, false), (2, 1, 4, true, 4, false)];

// Whether a piece is applied, and the length of the log then and whether the machine is given up.
fn tried(walk: &mut Walk<Refuses>, row: &Try) -> (bool, usize, bool) {
    let passed = walk.pass(row.0, row.1, row.2);
    (
        passed,
        walk.follower.log().len(),
        walk.follower.is_given_up(),
    )
}

fn tries(rt: &impl Abort, walk: &mut Walk<Refuses>, rows: &[Try]) {
    for row in rows {
        check_eq!(rt; tried(walk, row), (row.3, row.4, row.5));
    }
}

fn is_given_up(rt: &impl Abort, walk: &mut Walk<Refuses>) {
    tries(rt, walk, REFUSED);
    // it took the second entry of the refused event before it failed at the third
    check_eq!(rt; walk.follower.machine().taken(), 2);
    tries(rt, walk, RENEWED);
    check_eq!(rt; walk.follower.machine().taken(), 4);
}

#[test]
fn a_machine_that_refuses_is_given_up_until_the_next_boot(rt: HostRuntime) {
    let mut walk = walk_of(&rt, rt.alloc(), 3, Refuses::new(rt.alloc(), 2));
    is_given_up(&rt, &mut walk);
    drop(walk);
}

// Whether a machine is made of the octets, the length of the log then and whether the machine is given up.
fn renewed(walk: &mut Walk<Count>, octets: &[u8]) -> (bool, usize, bool) {
    let renewed = walk.follower.renew(octets).is_ok();
    (
        renewed,
        walk.follower.log().len(),
        walk.follower.is_given_up(),
    )
}

fn comes_back(rt: &impl Abort, walk: &mut Walk<Count>) {
    goes(rt, walk, ONCE);
    check_eq!(rt; renewed(walk, b"none".as_slice()), (true, 0, true));
    check_eq!(rt; (walk.pass(1, 0, 1), walk.follower.saved().is_err()), (false, true));
    check_eq!(rt; walk.pass(4, 0, 4), true);
    check_eq!(rt; counted(walk), (11, 4, 1));
}

#[test]
fn no_machine_is_made_of_damaged_octets(rt: HostRuntime) {
    let mut walk = walk_of(&rt, rt.alloc(), 2, Count::new(rt.alloc()));
    comes_back(&rt, &mut walk);
    drop(walk);
}

// What transport 1 of node 2 in boot 1 is handed once the node applies one more act in it.
fn goes_on(rt: &impl Abort, follower: &mut Follower<Count>) -> (usize, Option<u64>) {
    follower
        .follow(1, &[item(3, 7)])
        .expect(rt, "room for an act");
    handed(follower, 2, 1)
}

// A machine that is made of a log's octets stands where that log ended: its entries are not applied again, and what follows takes effect
// after them.
fn is_made_anew(rt: &impl Abort, walk: &mut Walk<Count>) {
    goes(rt, walk, &ONCE[..3]);
    let octets = walk.follower.saved().expect(rt, "the octets of a log");
    check_eq!(rt; renewed(walk, &octets), (true, 0, false));
    check_eq!(rt; counted(walk), (11, 0, 1));
    check!(rt; is_saved_as(rt, &walk.follower, &octets));
    check_eq!(rt; goes_on(rt, &mut walk.follower), (3, Some(18)));
    check_eq!(rt; counted(walk), (18, 1, 1));
    drop(octets);
}

fn is_saved_as(rt: &impl Abort, follower: &Follower<Count>, octets: &[u8]) -> bool {
    let again = follower.saved().expect(rt, "the octets of a log");
    let same = again.as_slice() == octets;
    drop(again);
    same
}

#[test]
fn a_machine_is_made_of_what_was_saved(rt: HostRuntime) {
    let mut walk = walk_of(&rt, rt.alloc(), 2, Count::new(rt.alloc()));
    is_made_anew(&rt, &mut walk);
    drop(walk);
}

// A log that is cut leaves the machine and what was handed out as they were. It is saved as before, and what follows takes effect after it.
fn is_cut(rt: &impl Abort, walk: &mut Walk<Count>) {
    goes(rt, walk, &ONCE[..3]);
    let octets = walk.follower.saved().expect(rt, "the octets of a log");
    walk.follower.rest_on();
    check_eq!(rt; (counted(walk), walk.follower.is_given_up()), ((11, 0, 1), false));
    check!(rt; is_saved_as(rt, &walk.follower, &octets));
    check_eq!(rt; goes_on(rt, &mut walk.follower), (3, Some(18)));
    check_eq!(rt; counted(walk), (18, 1, 1));
    drop(octets);
}

#[test]
fn a_cut_leaves_the_machine_as_it_was(rt: HostRuntime) {
    let mut walk = walk_of(&rt, rt.alloc(), 2, Count::new(rt.alloc()));
    is_cut(&rt, &mut walk);
    drop(walk);
}

// The octets of the log up to this entry, as another node's machine saves them.
fn saved_by_another(rt: &impl Abort, alloc: Global, end: usize) -> Vec<u8> {
    let mut walk = walk_of(rt, alloc, 1, Count::new(alloc));
    check!(rt; walk.pass(1, 0, end));
    let octets = walk.follower.saved().expect(rt, "the octets of a log");
    drop(walk);
    octets
}

// Whether the octets of a log are taken in this boot, with the entries of the walk's log from one place to its end, and the length of the
// log then and whether the machine is given up.
fn takes<M: Machine<Body = Number>>(
    walk: &mut Walk<M>,
    boot: u64,
    octets: &[u8],
    from: usize,
) -> (bool, usize, bool) {
    if walk.log.len() < from {
        return (false, 0, false);
    }
    let taken = walk.follower.take(boot, octets, &walk.log[from..]).is_ok();
    (
        taken,
        walk.follower.log().len(),
        walk.follower.is_given_up(),
    )
}

// A boot, up to which entry the node had applied, and up to which the snapshot goes; then how many sums transport 1 of boot 1 was handed in
// all, and the last of them: what is said up to the snapshot's end is told by no one.
type Taken = (u64, usize, usize, (usize, Option<u64>));

const TAKEN: &[Taken] = &[
    (1, 0, 0, (2, Some(11))),
    (1, 0, 2, (2, Some(11))),
    (1, 2, 3, (1, Some(11))),
    (1, 3, 3, (2, Some(11))),
    (1, 2, 4, (0, None)),
    (2, 2, 2, (0, None)),
];

// What a snapshot leads to that a node takes so: whether it is taken, the length of the log then and whether the machine is given up; the
// machine's sum, and what was handed out.
fn taken(
    rt: &impl Abort,
    alloc: Global,
    row: &Taken,
) -> ((bool, usize, bool), u64, (usize, Option<u64>)) {
    let mut walk = walk_of(rt, alloc, 2, Count::new(alloc));
    check!(rt; walk.pass(1, 0, row.1));
    let octets = saved_by_another(rt, alloc, row.2);
    let taken = takes(&mut walk, row.0, &octets, row.2);
    let sum = walk.follower.machine().sum();
    let handed = handed(&walk.follower, 2, 1);
    drop(octets);
    drop(walk);
    (taken, sum, handed)
}

#[test]
fn a_snapshot_is_taken_with_what_follows_it(rt: HostRuntime) {
    for row in TAKEN {
        check_eq!(&rt; taken(&rt, rt.alloc(), row), ((true, 4usize.saturating_sub(row.2), false), 11, row.3));
    }
}

// Octets that are no snapshot change nothing.
fn takes_none(rt: &impl Abort, walk: &mut Walk<Count>) {
    goes(rt, walk, &ONCE[..3]);
    check_eq!(rt; takes(walk, 1, b"none".as_slice(), 0), (false, 4, false));
    check_eq!(rt; (counted(walk), handed(&walk.follower, 2, 1)), ((11, 4, 1), (2, Some(11))));
    check_eq!(rt; goes_on(rt, &mut walk.follower), (3, Some(18)));
}

#[test]
fn no_damaged_snapshot_is_taken(rt: HostRuntime) {
    let mut walk = walk_of(&rt, rt.alloc(), 2, Count::new(rt.alloc()));
    takes_none(&rt, &mut walk);
    drop(walk);
}

// The same of the octets of the empty log, with all entries.
fn takes_first(walk: &mut Walk<Refuses>) -> (bool, usize, bool) {
    let taken = walk.follower.take(1, &walk.first, &walk.log).is_ok();
    (
        taken,
        walk.follower.log().len(),
        walk.follower.is_given_up(),
    )
}

// A machine that is given up stays so when its log is cut, and is back with a snapshot.
fn comes_back_with_a_snapshot(rt: &impl Abort, walk: &mut Walk<Refuses>) {
    tries(rt, walk, REFUSED);
    walk.follower.rest_on();
    check_eq!(rt; tried(walk, &(1, 0, 1, false, 0, true)), (false, 0, true));
    check_eq!(rt; takes_first(walk), (true, 4, false));
    check_eq!(rt; walk.follower.machine().taken(), 4);
}

#[test]
fn a_machine_that_is_given_up_is_back_with_a_snapshot(rt: HostRuntime) {
    let mut walk = walk_of(&rt, rt.alloc(), 3, Refuses::new(rt.alloc(), 2));
    comes_back_with_a_snapshot(&rt, &mut walk);
    drop(walk);
}

// Where memory runs out as a machine is saved, or made of octets, the one that there is goes on.
fn runs_out(rt: &impl Abort, walk: &mut Walk<Scant>) {
    check_eq!(rt; (walk.pass(1, 0, 2), walk.follower.saved().is_err()), (true, true));
    check_eq!(rt; (walk.follower.log().len(), walk.follower.is_given_up()), (2, false));
    check!(rt; walk.pass(1, 2, 3));
    let octets = walk.follower.saved().expect(rt, "the octets of a log");
    check_eq!(rt; takes(walk, 1, &octets, 3), (false, 3, false));
    check_eq!(rt; (walk.follower.renew(&octets).is_err(), walk.follower.log().len()), (true, 3));
    check_eq!(rt; (walk.pass(1, 3, 4), walk.follower.machine().taken()), (true, 4));
    drop(octets);
}

#[test]
fn out_of_memory_leaves_the_machine_as_it_was(rt: HostRuntime) {
    let mut walk = walk_of(&rt, rt.alloc(), 2, Scant::new(rt.alloc()));
    runs_out(&rt, &mut walk);
    drop(walk);
}
