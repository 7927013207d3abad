// Packets from node 1 to node 2: a full box hands the second one back, and both are fetched in order.
ghost use Rattle.cluster_world.specs.Has.{Has};
ghost use Rattle.mail_table.specs.Seats.{Owns};
ghost use Rattle.actor_tests.specs.Standing.{Knows};
ghost use Rattle.paxos_node.specs.declared.view.Opened.TheVariants.{Never};
ghost use Rattle.paxos_packets.specs.declared.packet.Packet.{Packet};
ghost use Rattle.paxos_node.specs.Adopting.{Fits, Planned};
ghost use Rattle.paxos_node.specs.declared.event.Event.TheVariants.{Start, Tick};
ghost use Rattle.std.specs.Prelude.{◌≡◌, ◌≤◌, ℕ, eqb, All, IfOk, IfSome, OnOk, true, false};

use crate::check::Check;
use mail_table::{Mail, NodeSeat, Office, found};
use paxos_node::{Event, Node, Outcome, Packets};
use paxos_packets::{Kind, Members, Packet, Rows};
use std::alloc::Global;
use std::process::Abort;
use std::test::Fail;
use test_checks::check;
use test_machines::Number;

// The node of this seat, opened for the first time, with these rows.
pub(crate) fn opened(
    alloc: Global,
    mail: &Mail<Number>,
    seat: &mut NodeSeat<Number>,
    members: Members,
    rows: Rows<Number>,
) -> Result<Node<Number>, Fail>
    requires owned { Owns mail.now seat.old }
    requires never { seat.old.part.seen.opened ≡ Never }
    requires members { members ≡ mail.now.members }
    ensures { IfOk result (λ node. Knows mail.now seat.new node) }
{
    mail.renew(seat, &rows)?;
    Ok(Node::of(alloc, seat.node(), members, rows)?)
}

// What the node plans if it is up: a first ballot, or a tick.
fn planned(node: &Node<Number>, me: u8, starts: bool) -> Result<Outcome<Number>, Fail>
    requires me { node.now.me ≡ me }
    ensures up { OnOk result (node.now.state.up ≡ true) }
    ensures fits { IfOk result (λ o. Fits node.now.me node.now.members o node.now.state) }
    ensures start { starts ≡ true → IfOk result (λ o. Planned eqb node.now.members (Start me) node.now.state o) }
    ensures tick { starts ≡ false → IfOk result (λ o. Planned eqb node.now.members (Tick me) node.now.state o) }
{
    if !node.is_up() {
        return Err(Fail::from("the node is down"));
    }
    if starts {
        return Ok(node.plan(&Event::Start { node: me })?);
    }
    Ok(node.plan(&Event::Tick { node: me })?)
}

// Lets the node take a step, and sends these packets.
pub(crate) fn stepped(
    mail: &Mail<Number>,
    seat: &mut NodeSeat<Number>,
    node: &mut Node<Number>,
    starts: bool,
) -> Result<Packets<Number>, Fail>
    requires { Knows mail.now seat.old node.old }
    ensures knows { OnOk result (Knows mail.now seat.new node.new) }
    ensures sent { IfOk result (λ packets. (p : Packet ℕ) → Has packets p → Has seat.new.part.seen.sent p) }
    ensures grows { OnOk result ((p : Packet ℕ) → Has seat.old.part.seen.sent p → Has seat.new.part.seen.sent p) }
    ensures owned { Owns mail.now seat.new }
{
    let outcome = planned(node, seat.node(), starts)?;
    mail.advance(seat, &outcome)?;
    let (packets, applied) = node.adopt(outcome)?;
    drop(applied);
    Ok(packets)
}

// The packet for node 2 among two that were sent to 2 and 3.
pub(crate) fn for_second(packets: Packets<Number>) -> Option<Packet<Number>>
    ensures { IfSome result (λ p. Has packets p × (p.addressee ≡ 2)) }
{
    let mut list = packets.into_vec();
    drop(list.pop());
    let packet = list.pop()?;
    if packet.addressee == 2 {
        return Some(packet);
    }
    drop(packet);
    None
}

// Whether a packet asks what was learned.
fn is_ask(packet: Option<Packet<Number>>) -> Option<bool> {
    let packet = packet?;
    let asks = if let Kind::Ask { .. } = &packet.kind {
        true
    } else {
        false
    };
    drop(packet);
    Some(asks)
}

// Two packets in turn without a fetch between: the second comes back, and is accepted after one; both come out in order.
fn pass(
    rt: &impl Abort,
    mail: &Mail<Number>,
    one: &mut NodeSeat<Number>,
    two: &mut NodeSeat<Number>,
    first: Packet<Number>,
    second: Packet<Number>,
)
    requires one { Owns mail.now one.old }
    requires single { mail.now.most ≡ 1 }
    requires two { Owns mail.now two.old }
    requires members { 3 ≤ mail.now.members }
    requires first { Has one.old.part.seen.sent first × (first.addressee ≡ 2) }
    requires second { Has one.old.part.seen.sent second × (second.addressee ≡ 2) }
{
    check!(rt; mail.post(one, 2, first).is_ok());
    let Err(second) = mail.post(one, 2, second) else {
        panic!(rt; "two packets in one box")
    };
    check!(rt; is_ask(mail.fetch(two, 1)) == Some(true));
    check!(rt; mail.post(one, 2, second).is_ok());
    check!(rt; is_ask(mail.fetch(two, 1)) == Some(false));
    check!(rt; is_ask(mail.fetch(two, 1)).is_none());
}

// The seats of nodes 1 and 2, of three.
fn flow(
    rt: &impl Abort,
    alloc: Global,
    mail: &Mail<Number>,
    seats: &mut Vec<NodeSeat<Number>>,
    members: Members,
) -> Result<(), Fail>
    requires fresh { All (λ s. Owns mail.now s × (s.part.seen.opened ≡ Never)) seats.old.items }
    requires single { mail.now.most ≡ 1 }
    requires members { members ≡ mail.now.members }
{
    drop(seats.pop());
    let Some(mut two) = seats.pop() else {
        panic!(rt; "no seat of node 2")
    };
    let Some(mut one) = seats.pop() else {
        panic!(rt; "no seat of node 1")
    };
    run(rt, alloc, mail, &mut one, &mut two, members)
}

// Node 1 asks, and begins a ballot.
fn run(
    rt: &impl Abort,
    alloc: Global,
    mail: &Mail<Number>,
    one: &mut NodeSeat<Number>,
    two: &mut NodeSeat<Number>,
    members: Members,
) -> Result<(), Fail>
    requires one { Owns mail.now one.old }
    requires single { mail.now.most ≡ 1 }
    requires two { Owns mail.now two.old }
    requires never { one.old.part.seen.opened ≡ Never }
    requires members { members ≡ mail.now.members }
{
    let mut node = opened(alloc, mail, one, members, Rows::first(alloc))?;
    let done = steps(rt, mail, one, two, &mut node);
    drop(node);
    done
}

// The steps of node 1, and what node 2 fetches.
fn steps(
    rt: &impl Abort,
    mail: &Mail<Number>,
    one: &mut NodeSeat<Number>,
    two: &mut NodeSeat<Number>,
    node: &mut Node<Number>,
) -> Result<(), Fail>
    requires knows { Knows mail.now one.old node.old }
    requires single { mail.now.most ≡ 1 }
    requires two { Owns mail.now two.old }
    requires members { 3 ≤ mail.now.members }
{
    let asked = stepped(mail, one, node, false)?;
    let Some(first) = for_second(asked) else {
        panic!(rt; "no Ask to node 2")
    };
    let begun = stepped(mail, one, node, true)?;
    let Some(second) = for_second(begun) else {
        panic!(rt; "no Prepare to node 2")
    };
    pass(rt, mail, one, two, first, second);
    Ok(())
}

#[test]
fn packets_come_out_in_order(rt: HostRuntime) -> Result<(), Fail> {
    let members = Members::new(3).ok_or("3 members")?;
    let mut office = Office::new();
    let (mail, mut seats) = found::<Number>(rt.alloc(), &mut office, members)?;
    flow(&rt, rt.alloc(), &mail, &mut seats, members)
}
