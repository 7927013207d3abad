// Two nodes, each on its own thread.
ghost use Rattle.cluster_world.specs.Has.{Has};
ghost use Rattle.mail_table.specs.Seats.{Owns};
ghost use Rattle.actor_tests.specs.Standing.{Knows};
ghost use Rattle.paxos_node.specs.declared.view.Opened.TheVariants.{Never};
ghost use Rattle.std.specs.Prelude.{◌≡◌, ◌≤◌, All};

use crate::check::Check;
use crate::posting::{for_second, opened, stepped};
use mail_table::{Mail, NodeSeat, Office, found};
use paxos_node::Node;
use paxos_packets::{Members, Packet, Rows};
use std::alloc::Global;
use std::process::Abort;
use std::test::Fail;
use std::thread;
use std::thread::Threads;
use test_checks::check;
use test_machines::Number;

// How many packets are posted at most, and how often a post is tried, and a fetch.
const PACKETS: u64 = 100;

const POSTS: u64 = 10_000;

const FETCHES: u64 = 1_000_000;

// Tries to post until a try wins. Returns whether one did.
fn post_to_second(mail: &Mail<Number>, one: &mut NodeSeat<Number>, packet: Packet<Number>) -> bool
    requires owned { Owns mail.now one.old }
    requires members { 3 ≤ mail.now.members }
    requires sent { Has one.old.part.seen.sent packet × (packet.addressee ≡ 2) }
    ensures owned { Owns mail.now one.new }
    ensures me { one.new.part.me ≡ one.old.part.me }
    ensures seen { one.new.part.seen ≡ one.old.part.seen }
{
    let mut packet = packet;
    for _ in 0..POSTS {
        match mail.post(one, 2, packet) {
            Ok(()) => return true,
            Err(back) => packet = back,
        }
        thread::yield_now();
    }
    drop(packet);
    false
}

// Node 1 ticks and posts its Ask to node 2, again and again; how many it posted.
fn post_all(
    mail: &Mail<Number>,
    one: &mut NodeSeat<Number>,
    node: &mut Node<Number>,
) -> Result<u64, Fail>
    requires knows { Knows mail.now one.old node.old }
    requires members { 3 ≤ mail.now.members }
{
    let mut posted: u64 = 0;
    for _ in 0..PACKETS {
        let packets = stepped(mail, one, node, false)?;
        let packet = for_second(packets).ok_or("an Ask to node 2")?;
        posted = posted.saturating_add(u64::from(post_to_second(mail, one, packet)));
    }
    Ok(posted)
}

// The thread of node 1.
fn first_thread(
    alloc: Global,
    mail: &Mail<Number>,
    mut one: NodeSeat<Number>,
    members: Members,
) -> Result<u64, Fail>
    requires owned { Owns mail.now one }
    requires never { one.part.seen.opened ≡ Never }
    requires members { (members ≡ mail.now.members) × (3 ≤ mail.now.members) }
{
    let mut node = opened(alloc, mail, &mut one, members, Rows::first(alloc))?;
    post_all(mail, &mut one, &mut node)
}

// The thread of node 2 fetches from node 1, again and again; how many packets came.
fn second_thread(mail: &Mail<Number>, mut two: NodeSeat<Number>) -> u64
    requires owned { Owns mail.now two }
    requires single { mail.now.most ≡ 1 }
    requires members { 3 ≤ mail.now.members }
{
    let mut came: u64 = 0;
    for _ in 0..FETCHES {
        if came == PACKETS {
            break;
        }
        if mail.fetch(&mut two, 1).is_some() {
            came = came.saturating_add(1);
        } else {
            thread::yield_now();
        }
    }
    came
}

// What was posted came, or is in the box.
fn pass_between(
    rt: &(impl Abort + Threads),
    alloc: Global,
    mail: &Mail<Number>,
    one: NodeSeat<Number>,
    two: NodeSeat<Number>,
    members: Members,
) -> Result<(), Fail>
    requires one { Owns mail.now one }
    requires single { mail.now.most ≡ 1 }
    requires two { Owns mail.now two }
    requires never { one.part.seen.opened ≡ Never }
    requires members { (members ≡ mail.now.members) × (3 ≤ mail.now.members) }
{
    let (posted, came) = thread::join(
        rt,
        move || first_thread(alloc, mail, one, members),
        move || second_thread(mail, two),
    );
    let posted = posted?;
    check!(rt; 0 < posted && posted <= PACKETS);
    check!(rt; came <= posted && posted <= came.saturating_add(1));
    Ok(())
}

// The seats of nodes 1 and 2, of three.
fn pass_by_threads(
    rt: &(impl Abort + Threads),
    alloc: Global,
    mail: &Mail<Number>,
    seats: &mut Vec<NodeSeat<Number>>,
    members: Members,
) -> Result<(), Fail>
    requires fresh { All (λ s. Owns mail.now s × (s.part.seen.opened ≡ Never)) seats.old.items }
    requires single { mail.now.most ≡ 1 }
    requires members { (members ≡ mail.now.members) × (3 ≤ mail.now.members) }
{
    drop(seats.pop());
    let Some(two) = seats.pop() else {
        panic!(rt; "no seat of node 2")
    };
    let Some(one) = seats.pop() else {
        panic!(rt; "no seat of node 1")
    };
    pass_between(rt, alloc, mail, one, two, members)
}

#[test]
fn two_threads_lose_no_packet(rt: HostRuntime) -> Result<(), Fail> {
    let members = Members::new(3).ok_or("3 members")?;
    let mut office = Office::new();
    let (mail, mut seats) = found::<Number>(rt.alloc(), &mut office, members)?;
    pass_by_threads(&rt, rt.alloc(), &mail, &mut seats, members)
}
