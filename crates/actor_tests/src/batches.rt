// Batches from node 1 to node 2: one that finds its box full comes back whole, and all come out in order.
ghost use Rattle.cluster_world.specs.Has.{Has};
ghost use Rattle.mail_table.specs.Boxes.{AreTo};
ghost use Rattle.mail_table.specs.Seats.{Owns};
ghost use Rattle.actor_tests.specs.Standing.{Knows};
ghost use Rattle.paxos_node.specs.declared.view.Opened.TheVariants.{Never};
ghost use Rattle.paxos_packets.specs.declared.packet.Packet.{Packet};
ghost use Rattle.std.specs.Prelude.{◌≡◌, ◌≤◌, ℕ, All, [], ◌∷◌, IfErr, IfOk, OnOk, length};

use crate::check::Check;
use crate::posting::{for_second, opened, stepped};
use mail_table::{Batch, Mail, NodeSeat, Office, found_for_batches};
use paxos_node::Node;
use paxos_packets::{Kind, Members, Packet, Rows};
use std::alloc::Global;
use std::process::Abort;
use std::test::Fail;
use test_checks::check;
use test_machines::Number;

// Node 1 ticks, or begins a ballot. Returns the packet of that for node 2.
fn next_for_second(
    mail: &Mail<Number>,
    one: &mut NodeSeat<Number>,
    node: &mut Node<Number>,
    starts: bool,
) -> Result<Packet<Number>, Fail>
    requires { Knows mail.now one.old node.old }
    ensures knows { OnOk result (Knows mail.now one.new node.new) }
    ensures sent { IfOk result (λ p. Has one.new.part.seen.sent p × (p.addressee ≡ 2)) }
    ensures grows { OnOk result ((p : Packet ℕ) → Has one.old.part.seen.sent p → Has one.new.part.seen.sent p) }
{
    let packets = stepped(mail, one, node, starts)?;
    let Some(packet) = for_second(packets) else {
        return Err(Fail::from("no packet to node 2"));
    };
    Ok(packet)
}

// Both packets together.
fn together(
    rt: &impl Abort,
    alloc: Global,
    first: Packet<Number>,
    second: Packet<Number>,
) -> Batch<Number>
    ensures { result ≡ first ∷ second ∷ [] }
{
    let mut rest = Vec::new(alloc);
    rest.push(second).expect(rt, "room for a packet");
    Batch::from_parts(first, rest)
}

// Tries to post the batch to node 2.
fn post(
    mail: &Mail<Number>,
    one: &mut NodeSeat<Number>,
    batch: Batch<Number>,
) -> Result<(), Batch<Number>>
    requires owned { Owns mail.now one.old }
    requires wide { mail.now.most ≡ 64 }
    requires members { 3 ≤ mail.now.members }
    requires sent { (p : Packet ℕ) → Has batch p → Has one.old.part.seen.sent p }
    requires addressed { AreTo 2 batch }
    requires few { length batch ≤ 2 }
    ensures owned { Owns mail.now one.new }
    ensures seen { one.new.part.seen ≡ one.old.part.seen }
    ensures back { IfErr result (λ b. b ≡ batch) }
{
    mail.post_all(one, 2, batch)
}

// Returns whether the box to node 2 is free.
fn is_free(mail: &Mail<Number>, one: &mut NodeSeat<Number>) -> bool
    requires owned { Owns mail.now one.old }
    requires members { 3 ≤ mail.now.members }
    ensures owned { Owns mail.now one.new }
    ensures seen { one.new.part.seen ≡ one.old.part.seen }
{
    mail.is_free(one, 2)
}

// What a packet is: 'a' for an Ask, 'p' for a Prepare.
fn letter(packet: Packet<Number>) -> char {
    let letter = match &packet.kind {
        Kind::Ask { .. } => 'a',
        Kind::Prepare { .. } => 'p',
        _ => '?',
    };
    drop(packet);
    letter
}

// What the first and the last packet of a batch are, '-' if there is none, and how many there are between them.
fn letters(batch: Option<Batch<Number>>) -> (char, char, usize) {
    let Some(batch) = batch else {
        return ('-', '-', 0);
    };
    let (first, mut rest) = batch.into_parts();
    let second = match rest.pop() {
        Some(packet) => letter(packet),
        None => '-',
    };
    let more = rest.len();
    drop(rest);
    (letter(first), second, more)
}

// What comes out of the box from node 1: the letters of its packets.
fn fetched(mail: &Mail<Number>, two: &mut NodeSeat<Number>) -> (char, char, usize)
    requires owned { Owns mail.now two.old }
    requires members { 3 ≤ mail.now.members }
    ensures { Owns mail.now two.new }
{
    letters(mail.fetch_all(two, 1))
}

// The first batch fills the box. The second one comes back, and is accepted once the first one is out.
fn pass(
    rt: &impl Abort,
    mail: &Mail<Number>,
    one: &mut NodeSeat<Number>,
    two: &mut NodeSeat<Number>,
    first: Batch<Number>,
    second: Batch<Number>,
)
    requires one { Owns mail.now one.old }
    requires two { Owns mail.now two.old }
    requires wide { mail.now.most ≡ 64 }
    requires members { 3 ≤ mail.now.members }
    requires first_sent { (p : Packet ℕ) → Has first p → Has one.old.part.seen.sent p }
    requires first_addressed { AreTo 2 first }
    requires first_few { length first ≤ 2 }
    requires second_sent { (p : Packet ℕ) → Has second p → Has one.old.part.seen.sent p }
    requires second_addressed { AreTo 2 second }
    requires second_few { length second ≤ 2 }
{
    check!(rt; is_free(mail, one));
    check!(rt; post(mail, one, first).is_ok());
    check!(rt; !is_free(mail, one));
    let Err(second) = post(mail, one, second) else {
        panic!(rt; "two batches in one box")
    };
    check!(rt; fetched(mail, two) == ('a', '-', 0));
    check!(rt; fetched(mail, two) == ('-', '-', 0));
    check!(rt; is_free(mail, one));
    check!(rt; post(mail, one, second).is_ok());
    check!(rt; fetched(mail, two) == ('p', 'a', 0));
    check!(rt; fetched(mail, two) == ('-', '-', 0));
}

// A batch of one packet, and one of two.
fn pass_packets(
    rt: &impl Abort,
    alloc: Global,
    mail: &Mail<Number>,
    one: &mut NodeSeat<Number>,
    two: &mut NodeSeat<Number>,
    first: Packet<Number>,
    second: Packet<Number>,
    third: Packet<Number>,
)
    requires one { Owns mail.now one.old }
    requires two { Owns mail.now two.old }
    requires wide { mail.now.most ≡ 64 }
    requires members { 3 ≤ mail.now.members }
    requires first { Has one.old.part.seen.sent first × (first.addressee ≡ 2) }
    requires second { Has one.old.part.seen.sent second × (second.addressee ≡ 2) }
    requires third { Has one.old.part.seen.sent third × (third.addressee ≡ 2) }
{
    let first = Batch::of(alloc, first);
    let second = together(rt, alloc, second, third);
    pass(rt, mail, one, two, first, second);
}

// The steps of node 1: a tick, a first ballot, and a tick.
fn steps(
    rt: &impl Abort,
    alloc: Global,
    mail: &Mail<Number>,
    one: &mut NodeSeat<Number>,
    two: &mut NodeSeat<Number>,
    node: &mut Node<Number>,
) -> Result<(), Fail>
    requires knows { Knows mail.now one.old node.old }
    requires two { Owns mail.now two.old }
    requires wide { mail.now.most ≡ 64 }
    requires members { 3 ≤ mail.now.members }
{
    let first = next_for_second(mail, one, node, false)?;
    let second = next_for_second(mail, one, node, true)?;
    let third = next_for_second(mail, one, node, false)?;
    pass_packets(rt, alloc, mail, one, two, first, second, third);
    Ok(())
}

// Node 1 begins, and takes its steps.
fn run(
    rt: &impl Abort,
    alloc: Global,
    mail: &Mail<Number>,
    one: &mut NodeSeat<Number>,
    two: &mut NodeSeat<Number>,
    members: Members,
) -> Result<(), Fail>
    requires one { Owns mail.now one.old }
    requires two { Owns mail.now two.old }
    requires wide { mail.now.most ≡ 64 }
    requires never { one.old.part.seen.opened ≡ Never }
    requires members { (members ≡ mail.now.members) × (3 ≤ mail.now.members) }
{
    let mut node = opened(alloc, mail, one, members, Rows::first(alloc))?;
    let done = steps(rt, alloc, mail, one, two, &mut node);
    drop(node);
    done
}

// The seats of nodes 1 and 2, of three.
fn flow(
    rt: &impl Abort,
    alloc: Global,
    mail: &Mail<Number>,
    seats: &mut Vec<NodeSeat<Number>>,
    members: Members,
) -> Result<(), Fail>
    requires fresh { All (λ s. Owns mail.now s × (s.part.seen.opened ≡ Never)) seats.old.items }
    requires wide { mail.now.most ≡ 64 }
    requires members { (members ≡ mail.now.members) × (3 ≤ mail.now.members) }
{
    drop(seats.pop());
    let Some(mut two) = seats.pop() else {
        panic!(rt; "no seat of node 2")
    };
    let Some(mut one) = seats.pop() else {
        panic!(rt; "no seat of node 1")
    };
    run(rt, alloc, mail, &mut one, &mut two, members)
}

#[test]
fn a_batch_that_finds_its_box_full_comes_back_whole(rt: HostRuntime) -> Result<(), Fail> {
    let members = Members::new(3).ok_or("3 members")?;
    let mut office = Office::new();
    let (mail, mut seats) = found_for_batches::<Number>(rt.alloc(), &mut office, members)?;
    flow(&rt, rt.alloc(), &mail, &mut seats, members)
}
