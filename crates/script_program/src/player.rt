// Plays lines on a world, and delivers what a flush finds.
ghost use Rattle.std.specs.Prelude.{◌≡◌, ◌+◌, ℕ, IfOk, OnOk, List, [], slice_get, length, drop, option_copied};
ghost use Rattle.paxos_node.specs.declared.event.Event as occurred;
ghost use Rattle.paxos_node.specs.declared.event.Event.TheVariants as happens;
ghost use Rattle.realm_acts.specs.declared.act.Act as acted;
ghost use Rattle.realm_acts.specs.Act.{same_act};
ghost use Rattle.realm_machine.specs.Config.{Config};
ghost use Rattle.script_program.specs.declared.lines.line.Line.TheVariants as line;
ghost use Rattle.cluster_world.specs.Scripts.{Stage, first_stage, deliver_no, flush, most_deliveries};
ghost use Rattle.script_program.specs.Playing.{IsBehind, IsPlayed, happen, in_script, script_of, stage_behind, world_behind};
ghost use Rattle.script_program.specs.Player.{IsAt, DeliversFirst, send_all, send_if};

mod queue;
mod realms;
mod waiting;

use crate::lines::Line;
use crate::player::realms::realms_of;
use crate::player::waiting::Waiting;
use cluster_world::{Memory, World};
use paxos_node::Event;
use paxos_packets::{Body, Members, NodeSet, Packet};
use realm_acts::Act;
use realm_machine::Limits;
use realm_snapshot::KeptRealm;
use std::alloc::Global;

// How many packets one flush delivers at most.
const MOST_DELIVERIES: u32 = 100_000;

/// Plays the lines of a script in a cluster of these members, each of which has a realm of this name, and returns the world to which
/// they lead.
///
/// Fails with `Memory` if memory runs out; the world is dropped then. A line takes the time of its events, and a delivery constant time
/// beyond that.
pub fn play(
    alloc: Global,
    members: Members,
    realm: &str,
    limits: Limits,
    lines: &[Line],
) -> Result<World<KeptRealm>, Memory>
    ensures members { IfOk result (λ w. w.members ≡ members) }
    ensures stands { IfOk result (λ w. IsPlayed (record { name = realm.now; limits = limits }) members lines.now w) }
{
    let mut player = Player::new(alloc, members, realm, limits)?;
    match player.take_all(lines) {
        Ok(()) => Ok(player.into_world()),
        Err(fault) => {
            drop(player);
            Err(fault)
        }
    }
}

// A world, and beside it its packets as flushes find them.
#[derive(Drop)]
pub(crate) struct Player {
    alloc: Global,
    world: World<KeptRealm>,
    waiting: Waiting,
}

impl Player {
    // Starts before the first line.
    fn new(alloc: Global, members: Members, realm: &str, limits: Limits) -> Result<Player, Memory>
        ensures { IfOk result (λ player. IsAt (record { name = realm.now; limits = limits }) members player (first_stage members)) }
    {
        let Ok(waiting) = Waiting::new(alloc, members) else {
            return Err(Memory);
        };
        let world = first_world(alloc, members, realm, limits)?;
        Ok(Player {
            alloc,
            world,
            waiting,
        })
    }

    fn into_world(self) -> World<KeptRealm>
        ensures { result ≡ self.world }
    {
        self.world
    }

    // Plays all lines, in order.
    fn take_all(&mut self, lines: &[Line]) -> Result<(), Memory>
        ensures { (config : Config) (members : ℕ) (s : Stage acted.Act) → IsAt config members self.old s →
            OnOk result (IsAt config members self.new (stage_behind config members (script_of lines.now) s)) }
    {
        for line in lines {
            self.take(line)?;
        }
        Ok(())
    }

    // Plays one line.
    fn take(&mut self, line: &Line) -> Result<(), Memory>
        ensures { (config : Config) (members : ℕ) (s : Stage acted.Act) → IsAt config members self.old s →
            OnOk result (IsAt config members self.new (stage_behind config members (in_script line.now) s)) }
    {
        match line {
            Line::Take { node, number, act } => self.take_act(*node, *number, act),
            Line::Tick { node } => self.happen(Event::Tick { node: *node }),
            Line::Start { node } => self.happen(Event::Start { node: *node }),
            Line::Suspect { node, other } => self.happen(Event::Suspect {
                node: *node,
                other: *other,
            }),
            Line::Deliver { packet } => self.deliver_no(*packet),
            Line::Cut { node } => self.happen(Event::Cut {
                node: *node,
                snapshot: None,
            }),
            Line::Crash { node } => self.happen(Event::Crash { node: *node }),
            Line::Restart { node } => self.happen(Event::Restart { node: *node }),
            Line::Flush { among } => self.flush(*among),
        }
    }

    // Lets the node take a copy of the act.
    fn take_act(&mut self, node: u8, number: u32, act: &Act) -> Result<(), Memory>
        ensures { (config : Config) (members : ℕ) (s : Stage acted.Act) → IsAt config members self.old s →
            OnOk result (IsAt config members self.new (happen config members (happens.Take node number act.now) s)) }
    {
        let Ok(body) = act.copy(self.alloc) else {
            return Err(Memory);
        };
        self.happen(Event::Take {
            node,
            transport: number,
            body,
        })
    }

    // Lets one event happen, and adds the packets that it sends to those that wait.
    fn happen(&mut self, event: Event<Act>) -> Result<(), Memory>
        ensures { (config : Config) (members : ℕ) (s : Stage acted.Act) → IsAt config members self.old s →
            OnOk result (IsAt config members self.new (happen config members event s)) }
    {
        let events = [event];
        let ran = self.world.run(&events);
        drop(events);
        let Ok(()) = ran else {
            return Err(Memory);
        };
        send_new(&self.world, &mut self.waiting)
    }

    // Delivers the packet with this number, counted from 1, if it was sent.
    fn deliver_no(&mut self, number: u64) -> Result<(), Memory>
        ensures { (config : Config) (members : ℕ) (s : Stage acted.Act) → IsAt config members self.old s →
            OnOk result (IsAt config members self.new (stage_behind config members (in_script (line.Deliver number)) s)) }
    {
        match number.checked_sub(1) {
            Some(place) => self.deliver_at(place as usize),
            None => Ok(()),
        }
    }

    // Delivers the packet at this place, counted from 0, if it was sent.
    fn deliver_at(&mut self, place: usize) -> Result<(), Memory>
        ensures { (config : Config) (members : ℕ) (s : Stage acted.Act) → IsAt config members self.old s →
            OnOk result (IsAt config members self.new (deliver_no same_act members (place + 1) (slice_get s.world.sent place) s)) }
    {
        let Some(packet) = packet_at(&self.world, place) else {
            return Ok(());
        };
        let Ok(packet) = packet.copy(self.alloc) else {
            return Err(Memory);
        };
        self.happen(Event::Deliver { packet })?;
        self.waiting.deliver(place);
        Ok(())
    }

    // Delivers the first packet that is due between these nodes. Returns whether there was one.
    fn deliver_first(&mut self, among: NodeSet) -> Result<bool, Memory>
        ensures { (config : Config) (members : ℕ) (s : Stage acted.Act) → IsAt config members self.old s →
            IfOk result (λ was_due. DeliversFirst config members among was_due s self.new) }
    {
        let Some(place) = self.waiting.first_due(among) else {
            return Ok(false);
        };
        self.deliver_at(place)?;
        Ok(true)
    }

    // Delivers the packets that are due between these nodes, until none is left, or `MOST_DELIVERIES` were delivered.
    fn flush(&mut self, among: NodeSet) -> Result<(), Memory>
        ensures { (config : Config) (members : ℕ) (s : Stage acted.Act) → IsAt config members self.old s →
            OnOk result (IsAt config members self.new (flush same_act members among most_deliveries s)) }
    {
        for _turn in 0..MOST_DELIVERIES {
            if !self.deliver_first(among)? {
                return Ok(());
            }
        }
        Ok(())
    }
}

// Returns the first world of these members.
fn first_world(
    alloc: Global,
    members: Members,
    realm: &str,
    limits: Limits,
) -> Result<World<KeptRealm>, Memory>
    ensures members { IfOk result (λ w. w.members ≡ members) }
    ensures stands { IfOk result (λ w. IsBehind (record { name = realm.now; limits = limits }) w []) }
{
    let realms = realms_of(alloc, members, realm, limits)?;
    World::new(alloc, members, realms)
}

// Adds the packets that the world has sent since the last call to those that wait.
fn send_new(world: &World<KeptRealm>, waiting: &mut Waiting) -> Result<(), Memory>
    ensures { (config : Config) (es : List (occurred.Event acted.Act)) →
        IsBehind config world.now es →
        OnOk result (waiting.new ≡ send_all (drop (length waiting.old.sent) (world_behind config world.now.members es).sent) waiting.old) }
{
    for place in waiting.count()..world.sent() {
        send(packet_at(world, place), waiting)?;
    }
    Ok(())
}

// Returns the packet at this place, counted from 0 over all that were ever sent, or `None`.
fn packet_at(world: &World<KeptRealm>, place: usize) -> Option<&Packet<Act>>
    ensures { (config : Config) (es : List (occurred.Event acted.Act)) →
        IsBehind config world.now es →
        option_copied result ≡ slice_get (world_behind config world.now.members es).sent place }
{
    if place < world.sent() {
        world.packet(place + 1)
    } else {
        None
    }
}

fn send(packet: Option<&Packet<Act>>, waiting: &mut Waiting) -> Result<(), Memory>
    ensures { OnOk result (waiting.new ≡ send_if (option_copied packet.entry) waiting.old) }
{
    let Some(packet) = packet else {
        return Ok(());
    };
    let Ok(()) = waiting.send(packet.sender, packet.addressee) else {
        return Err(Memory);
    };
    Ok(())
}
