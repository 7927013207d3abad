// Rescues over floors: rows worked out by hand, and where no slot is left.
ghost use Rattle.std.specs.Prelude.{◌≡◌, None, Some};
ghost use Rattle.cluster_world.specs.Rescue.{rescue_refused};
ghost use Rattle.cluster_world.specs.declared.fault.RescueFault.TheVariants.{NoRoom};
ghost use Rattle.core_tests.specs.Floors.{at_floor};

use crate::check::Check;
use crate::cuts::stands;
use crate::packet_rows::Held;
use crate::random_worlds::first_world;
use crate::rescue::{Line, shows, ups};
use crate::schedule::Turn;
use crate::snapshots::snapshot_of;
use crate::worlds::{deliver, flush_among, turn};
use cluster_world::World;
use paxos_node::Node;
use paxos_packets::{Members, Rows, Votes};
use std::alloc::Global;
use std::panic::Expect;
use std::process::Abort;
use test_checks::{check, check_eq};
use test_machines::{Count, Number};
use world_rescue::{CourseFault, Crew};

// What happens before a rescue.
#[derive(Clone, Copy)]
enum Step {
    Turn(Turn),
    // The packet that was sent under this number, from 1 on, is delivered.
    Deliver(usize),
    // What the nodes up to this one sent each other since the last flush is delivered, with what comes meanwhile.
    Flush(u8),
}

// A rescue of a node, as the lines of a script, and the log that the node shows after it above its floor.
struct Row {
    members: u8,
    steps: &'static [Step],
    node: u8,
    lines: &'static [Line],
    floor: u64,
    log: &'static [Held],
}

const ROWS: &[Row] = &[
    // a node behind a cut that lacks its boot rests on the snapshot
    Row {
        members: 3,
        steps: &[
            Step::Turn(Turn::Crash(3)),
            Step::Turn(Turn::Start(1)),
            Step::Flush(3),
            Step::Turn(Turn::Take(1, 1, 5)),
            Step::Flush(3),
            Step::Turn(Turn::Cut(1)),
            Step::Turn(Turn::Cut(2)),
            Step::Turn(Turn::Restart(3)),
        ],
        node: 3,
        lines: &[
            Line::Start(3),
            Line::Tick(3),
            Line::Deliver(20),
            Line::Deliver(22),
            Line::Start(3),
            Line::Deliver(23),
            Line::Deliver(24),
            Line::Start(3),
            Line::Deliver(27),
            Line::Deliver(29),
            Line::Deliver(28),
            Line::Deliver(34),
            Line::Deliver(30),
            Line::Deliver(36),
            Line::Deliver(31),
            Line::Deliver(38),
            Line::Take(3, 1),
            Line::Deliver(39),
            Line::Deliver(44),
            Line::Deliver(40),
            Line::Deliver(46),
        ],
        floor: 2,
        log: &[Held::Boot(3, 2), Held::Item(3, 2, 1, 1, 5)],
    },
    // a snapshot that has its boot it takes in its next one
    Row {
        members: 3,
        steps: &[
            Step::Turn(Turn::Start(1)),
            Step::Flush(3),
            Step::Turn(Turn::Tick(3)),
            Step::Flush(3),
            Step::Turn(Turn::Take(1, 1, 5)),
            Step::Flush(2),
            Step::Turn(Turn::Cut(1)),
        ],
        node: 3,
        lines: &[
            Line::Start(3),
            Line::Tick(3),
            Line::Deliver(34),
            Line::Deliver(36),
            Line::Crash(3),
            Line::Restart(3),
            Line::Deliver(36),
            Line::Start(3),
            Line::Deliver(37),
            Line::Deliver(38),
            Line::Start(3),
            Line::Deliver(41),
            Line::Deliver(43),
            Line::Deliver(42),
            Line::Deliver(48),
            Line::Deliver(44),
            Line::Deliver(50),
            Line::Deliver(45),
            Line::Deliver(52),
            Line::Take(3, 1),
            Line::Deliver(53),
            Line::Deliver(58),
            Line::Deliver(54),
            Line::Deliver(60),
        ],
        floor: 3,
        log: &[Held::Boot(3, 2), Held::Item(3, 2, 1, 1, 5)],
    },
    // it had learned the loss of its boot above the snapshot, and goes down as it takes that
    Row {
        members: 3,
        steps: &[
            Step::Turn(Turn::Start(1)),
            Step::Flush(3),
            Step::Turn(Turn::Cut(1)),
            Step::Turn(Turn::Crash(3)),
            Step::Turn(Turn::Restart(3)),
            Step::Turn(Turn::Tick(3)),
            Step::Deliver(13),
            Step::Flush(2),
            Step::Turn(Turn::Suspect(1, 3)),
            Step::Flush(2),
            Step::Deliver(17),
            Step::Deliver(19),
            Step::Deliver(23),
            Step::Deliver(25),
            Step::Deliver(14),
        ],
        node: 3,
        lines: &[
            Line::Start(3),
            Line::Tick(3),
            Line::Deliver(14),
            Line::Deliver(32),
            Line::Restart(3),
            Line::Start(3),
            Line::Deliver(44),
            Line::Deliver(45),
            Line::Start(3),
            Line::Deliver(48),
            Line::Deliver(50),
            Line::Deliver(49),
            Line::Deliver(63),
            Line::Deliver(51),
            Line::Deliver(65),
            Line::Deliver(52),
            Line::Deliver(67),
            Line::Deliver(55),
            Line::Deliver(69),
            Line::Deliver(56),
            Line::Deliver(71),
            Line::Deliver(59),
            Line::Deliver(73),
            Line::Deliver(60),
            Line::Deliver(75),
            Line::Take(3, 1),
            Line::Deliver(76),
            Line::Deliver(81),
            Line::Deliver(77),
            Line::Deliver(83),
        ],
        floor: 1,
        log: &[
            Held::Boot(3, 2),
            Held::Lost(3, 2),
            Held::Boot(3, 3),
            Held::Item(3, 3, 1, 1, 5),
        ],
    },
    // the loss of its boot is proposed, and another node cut: in its next boot it lacks what that one's snapshot gives
    Row {
        members: 3,
        steps: &[
            Step::Turn(Turn::Start(1)),
            Step::Flush(3),
            Step::Turn(Turn::Tick(3)),
            Step::Flush(3),
            Step::Turn(Turn::Cut(1)),
            Step::Turn(Turn::Suspect(1, 3)),
        ],
        node: 3,
        lines: &[
            Line::Start(3),
            Line::Deliver(28),
            Line::Deliver(29),
            Line::Start(3),
            Line::Deliver(32),
            Line::Deliver(34),
            Line::Deliver(33),
            Line::Deliver(39),
            Line::Deliver(35),
            Line::Deliver(41),
            Line::Deliver(36),
            Line::Deliver(43),
            Line::Restart(3),
            Line::Tick(3),
            Line::Deliver(44),
            Line::Deliver(46),
            Line::Take(3, 1),
            Line::Start(3),
            Line::Deliver(47),
            Line::Deliver(49),
            Line::Deliver(48),
            Line::Deliver(62),
            Line::Deliver(50),
            Line::Deliver(64),
            Line::Deliver(51),
            Line::Deliver(66),
            Line::Deliver(54),
            Line::Deliver(68),
            Line::Deliver(55),
            Line::Deliver(70),
            Line::Deliver(58),
            Line::Deliver(72),
            Line::Deliver(59),
            Line::Deliver(74),
        ],
        floor: 2,
        log: &[
            Held::Lost(3, 1),
            Held::Boot(3, 2),
            Held::Item(3, 2, 1, 1, 5),
        ],
    },
    // of two snapshots it takes the one of the greater floor
    Row {
        members: 5,
        steps: &[
            Step::Turn(Turn::Start(1)),
            Step::Flush(3),
            Step::Turn(Turn::Take(1, 1, 5)),
            Step::Flush(3),
            Step::Turn(Turn::Cut(2)),
            Step::Turn(Turn::Take(1, 1, 5)),
            Step::Flush(3),
            Step::Turn(Turn::Cut(3)),
            Step::Turn(Turn::Crash(1)),
        ],
        node: 5,
        lines: &[
            Line::Start(5),
            Line::Tick(5),
            Line::Deliver(65),
            Line::Deliver(67),
            Line::Start(5),
            Line::Deliver(69),
            Line::Deliver(70),
            Line::Deliver(71),
            Line::Start(5),
            Line::Deliver(76),
            Line::Deliver(79),
            Line::Deliver(77),
            Line::Deliver(80),
            Line::Deliver(78),
            Line::Deliver(89),
            Line::Deliver(82),
            Line::Deliver(93),
            Line::Deliver(83),
            Line::Deliver(97),
            Line::Deliver(84),
            Line::Deliver(101),
            Line::Take(5, 1),
            Line::Deliver(103),
            Line::Deliver(113),
            Line::Deliver(104),
            Line::Deliver(117),
            Line::Deliver(105),
            Line::Deliver(121),
        ],
        floor: 3,
        log: &[Held::Boot(5, 1), Held::Item(5, 1, 1, 1, 5)],
    },
];

fn play(rt: &impl Abort, alloc: Global, world: &mut World<Count>, steps: &[Step]) {
    let mut flushed = 0usize;
    for step in steps {
        match step {
            Step::Turn(row) => {
                check!(rt; turn(rt, world, alloc, row));
            }
            Step::Deliver(number) => {
                check!(rt; deliver(rt, world, alloc, *number));
            }
            Step::Flush(most) => {
                check!(rt; flush_among(rt, world, alloc, flushed, *most));
                flushed = world.sent();
            }
        }
    }
}

fn is_rescued(rt: &impl Abort, alloc: Global, world: &mut World<Count>, row: &Row) {
    play(rt, alloc, world, row.steps);
    let before = ups(world);
    shows(rt, world, row.node, row.lines);
    check!(rt; stands(world, row.node, row.floor, row.log));
    check_eq!(rt; ups(world), before);
}

#[test]
fn nodes_are_rescued_over_floors(rt: HostRuntime) {
    for row in ROWS {
        let members = Members::new(row.members).expect(&rt, "3 to 7 members");
        let mut world = first_world(&rt, rt.alloc(), members);
        is_rescued(&rt, rt.alloc(), &mut world, row);
        drop(world);
    }
}

// ---- the last slots

// The greatest floor at which there is a rescue.
const LAST_FLOOR: u64 = 1_099_511_623_679;

// The greatest floor after which there are two slots: for the node's Boot, and for the act.
const FULL_FLOOR: u64 = 1_099_511_627_773;

// The floor of the node and that of both others, and how many events its course has; none if it lacks a slot.
const CREWS: &[(u64, u64, Option<usize>)] = &[
    (LAST_FLOOR, LAST_FLOOR, Some(17)),
    (0, LAST_FLOOR, Some(21)),
    (FULL_FLOOR, FULL_FLOOR, Some(17)),
    (0, FULL_FLOOR, Some(21)),
    (FULL_FLOOR + 1, FULL_FLOOR + 1, None),
    (0, FULL_FLOOR + 1, None),
];

// A node that rests on octets which spell this floor and begin with no head; on none if it is 0.
fn node_of(rt: &impl Abort, alloc: Global, me: u8, floor: u64) -> Node<Number> {
    let members = Members::new(3).expect(rt, "3 members");
    let rows = Rows {
        boot: 1,
        promised: None,
        snapshot: snapshot_of(rt, alloc, &u64::to_be_bytes(floor)),
        votes: Votes::new(alloc),
    };
    Node::of(alloc, me, members, rows).expect(rt, "room for a node")
}

// How many events the course of the first node has, with both others as helpers.
fn course_of(
    rt: &impl Abort,
    alloc: Global,
    own: &Node<Number>,
    two: &Node<Number>,
    three: &Node<Number>,
) -> Option<usize> {
    let members = Members::new(3).expect(rt, "3 members");
    let helpers = [two, three];
    let mut events = Vec::new(alloc);
    let done = Crew::of(alloc, members, own, &helpers).course(&mut events, 1, &Number::new(5));
    let count = events.len();
    drop(events);
    check!(rt; done != Err(CourseFault::Memory));
    if done.is_ok() { Some(count) } else { None }
}

fn has_course(rt: &impl Abort, alloc: Global, row: &(u64, u64, Option<usize>)) {
    let own = node_of(rt, alloc, 1, row.0);
    let two = node_of(rt, alloc, 2, row.1);
    let three = node_of(rt, alloc, 3, row.1);
    check_eq!(rt; course_of(rt, alloc, &own, &two, &three), row.2);
    drop(own);
    drop(two);
    drop(three);
}

// Computed: a rescue is refused at a later floor, and at the last one it is not.
fn refused_at_floors()
    ensures last { rescue_refused 3 (at_floor 1099511623679) 1 ≡ None }
    ensures later { rescue_refused 3 (at_floor 1099511623680) 1 ≡ Some NoRoom }
{}

#[test]
fn a_course_has_the_slots_after_the_last_floor(rt: HostRuntime) {
    refused_at_floors();
    for row in CREWS {
        has_course(&rt, rt.alloc(), row);
    }
}
