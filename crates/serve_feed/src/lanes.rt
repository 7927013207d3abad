// The lanes of a node: which act of a client comes next, and the sayings for transports.
ghost use Rattle.std.specs.Prelude.{◌≡◌, ◌∷◌, ℕ, List, [], IfSome, MatchOption};
ghost use Rattle.realm_acts.specs.declared.act.Act.{Act};
ghost use Rattle.realm_acts.specs.declared.act.Act.TheVariants.{Said};
ghost use Rattle.std.specs.List.{remove};
ghost use Rattle.serve_feed.specs.Tells.{Tells, TellsOf, TellsWithout, Owes};
ghost use Rattle.serve_feed.specs.Steps.{Steps, Looks};
ghost use Rattle.serve_feed.specs.Hears.{AreLined, Hears, Hear, nothing, one, IsAt, IsNowhere, Stays};

use crate::lane::Lane;
use crate::look::Look;
use crate::sources::{Aside, Next, Sources};
use client_listener::{Bytes, FromClient, ToClient};
use paxos_packets::Shared;
use realm_acts::Act;
use serve_connections::{Arrival, Lobby};
use serve_policy::Draws;
use std::alloc::Global;
use wamp_message_types::Read;

/// How many lanes are looked at for one act, at most.
const MOST_LOOKS: u16 = 512;

// The connections of a node, by ascending number of their transports.
#[derive(Drop)]
pub(crate) struct Lanes {
    alloc: Global,
    // What comes of each of them, at the same places.
    sources: Sources,
    lanes: Vec<Lane>,
    // Which lane is looked at for an act, and which one while no act may be given.
    look: Look,
    aside: Look,
    // The lanes whose porter is to be told of sayings.
    told: Vec<u32>,
    ghost lined: { AreLined lanes.items sources.last },
}

// What a look at one lane gives.
#[derive(Drop)]
enum Step {
    Through,
    On,
    Act(u32, Act),
}

impl Lanes {
    // Returns the lanes of a node without connections. Does not allocate.
    pub fn new(alloc: Global) -> Lanes
        ensures begins { Tells result.sources [] }
    {
        Lanes {
            alloc,
            sources: Sources::new(alloc),
            lanes: Vec::new(alloc),
            look: Look::new(),
            aside: Look::new(),
            told: Vec::new(alloc),
        }
    }

    // Notes that any lane may have something.
    pub fn stir(&mut self)
        ensures sources { self.new.sources ≡ self.old.sources }
    {
        self.look.stir();
        self.aside.stir();
    }

    // Returns how many there are.
    pub fn count(&self) -> usize {
        self.lanes.len()
    }

    // Returns whether a lane is left to be looked at for an act.
    pub fn is_on(&self) -> bool {
        self.look.is_on()
    }

    // Returns whether a lane is left to be looked at while no act may be given.
    pub fn is_on_aside(&self) -> bool {
        self.aside.is_on()
    }

    // Gives the next number to a connection that came. If no number or no memory is left, the connection ends.
    pub fn come(&mut self, arrival: Arrival)
        ensures tells { (given : List (ℕ × Act)) → Tells self.old.sources given → Tells self.new.sources given }
    {
        if self.lanes.reserve(1).is_err() {
            drop(arrival);
            return;
        }
        let Arrival {
            requests,
            sayings,
            connection,
        } = arrival;
        let Some(number) = self.sources.add(requests) else {
            drop(sayings);
            drop(connection);
            return;
        };
        let pushed = self.lanes.push(Lane::new(number, sayings, connection));
        drop(pushed);
    }

    // Returns the next act of a client, and its transport's number.
    pub fn next(&mut self, lobby: &Lobby, draws: &mut Draws) -> Option<(u32, Act)>
        ensures looks { (given : List (ℕ × Act)) → Tells self.old.sources given → Looks result self.new.sources given }
    {
        for _ in 0..MOST_LOOKS {
            match self.step(lobby, draws) {
                Step::Through => return None,
                Step::On => {},
                Step::Act(number, act) => return Some((number, act)),
            }
        }
        None
    }

    // Looks at the lane that is next.
    fn step(&mut self, lobby: &Lobby, draws: &mut Draws) -> Step
        ensures steps { (given : List (ℕ × Act)) → Tells self.old.sources given → Steps result self.new.sources given }
    {
        let Some(place) = self.look.place(self.lanes.len()) else {
            return Step::Through;
        };
        let is_ended = self.is_ended(place);
        match self.sources.next(place, is_ended) {
            Next::Nothing => {
                self.leave(place);
                Step::On
            },
            Next::End(number) => self.remove(lobby, place, number),
            Next::Request(number, request) => self.treat(lobby, place, number, request, draws),
        }
    }

    // Returns whether the node has ended the lane.
    fn is_ended(&self, place: usize) -> bool {
        match self.lanes.get(place) {
            Some(lane) => lane.is_ended(),
            None => true,
        }
    }

    // Leaves the lane. Its porter may wait for the room of what was taken.
    fn leave(&mut self, place: usize)
        ensures sources { self.new.sources ≡ self.old.sources }
    {
        if self.look.leave()
            && let Some(lane) = self.lanes.get(place)
        {
            lane.announce_room();
        }
    }

    // Removes the lane. A Hung is due if a Connect was taken.
    fn remove(&mut self, lobby: &Lobby, place: usize, number: u32) -> Step
        ensures removes { (given : List (ℕ × Act)) → TellsWithout place number self.old.sources given → Steps result self.new.sources given }
    {
        let known = self.sources.remove(place);
        self.drop_lane(lobby, place);
        self.look.removed();
        self.aside.passed_over(place);
        if known {
            Step::Act(number, Act::Hung)
        } else {
            Step::On
        }
    }

    // Drops what goes to the client of the lane, and takes it out of the slow ones.
    fn drop_lane(&mut self, lobby: &Lobby, place: usize)
        ensures sources { self.new.sources ≡ self.old.sources }
    {
        if place < self.lanes.len() {
            let lane = self.lanes.remove(place);
            lane.forget_slow(lobby);
            drop(lane);
        }
    }

    // Does what wants no act, with at most this many looks at lanes: answers the PINGs that come next, and removes each lane of which nothing was
    // given and whose client is gone.
    pub fn tend(&mut self, lobby: &Lobby, looks: u8)
        ensures tells { (given : List (ℕ × Act)) → Tells self.old.sources given → Tells self.new.sources given }
    {
        for _ in 0..looks {
            if !self.step_aside(lobby) {
                return;
            }
        }
    }

    // Looks at the lane that is next while no act may be given. Returns whether there was one.
    fn step_aside(&mut self, lobby: &Lobby) -> bool
        ensures tells { (given : List (ℕ × Act)) → Tells self.old.sources given → Tells self.new.sources given }
    {
        let Some(place) = self.aside.place(self.lanes.len()) else {
            return false;
        };
        let is_ended = self.is_ended(place);
        match self.sources.next_aside(place, is_ended) {
            Aside::Nothing => {
                self.leave_aside(place);
                true
            },
            Aside::Ping(payload) => {
                self.answer_aside(lobby, place, payload);
                true
            },
            Aside::Gone => {
                self.forget(lobby, place);
                true
            },
        }
    }

    // Leaves the lane. Its porter may wait for the room of what was taken.
    fn leave_aside(&mut self, place: usize)
        ensures sources { self.new.sources ≡ self.old.sources }
    {
        if self.aside.leave()
            && let Some(lane) = self.lanes.get(place)
        {
            lane.announce_room();
        }
    }

    // Answers a PING of the lane.
    fn answer_aside(&mut self, lobby: &Lobby, place: usize, payload: Bytes)
        ensures sources { self.new.sources ≡ self.old.sources }
    {
        self.put_at(lobby, place, ToClient::Pong(payload));
        self.took_aside(place);
    }

    // Notes that a request of the lane was taken. The lane is left after some.
    fn took_aside(&mut self, place: usize)
        ensures sources { self.new.sources ≡ self.old.sources }
    {
        if self.aside.took()
            && let Some(lane) = self.lanes.get(place)
        {
            lane.announce_room();
        }
    }

    // Removes the lane, of which nothing was given.
    fn forget(&mut self, lobby: &Lobby, place: usize)
        ensures forgets { (given : List (ℕ × Act)) → TellsOf (remove self.old.sources.list.items place) self.old.sources.last given
            → Tells self.new.sources given }
    {
        let _known = self.sources.remove(place);
        self.drop_lane(lobby, place);
        self.aside.removed();
        self.look.passed_over(place);
    }

    // Treats a request of the lane, whose transport has this number.
    fn treat(
        &mut self,
        lobby: &Lobby,
        place: usize,
        number: u32,
        request: FromClient,
        draws: &mut Draws,
    ) -> Step
        ensures treats { (given : List (ℕ × Act)) → Owes place number request self.old.sources given → Steps result self.new.sources given }
    {
        match request {
            FromClient::Connect => {
                self.took(place);
                Step::Act(number, Act::Connect)
            },
            FromClient::Read(read) => match share(self.alloc, read) {
                Some(read) => {
                    self.took(place);
                    Step::Act(number, said(read, draws))
                },
                None => self.refuse(lobby, place, number),
            },
            FromClient::Ping(payload) => {
                self.answer(lobby, place, ToClient::Pong(payload));
                Step::On
            },
            FromClient::Hung => self.remove(lobby, place, number),
        }
    }

    // Ends the connection, and removes the lane: there is no memory for what its client sent.
    fn refuse(&mut self, lobby: &Lobby, place: usize, number: u32) -> Step
        ensures removes { (given : List (ℕ × Act)) → TellsWithout place number self.old.sources given → Steps result self.new.sources given }
    {
        self.end(lobby, place);
        self.remove(lobby, place, number)
    }

    // Ends the connection of the lane.
    fn end(&mut self, lobby: &Lobby, place: usize)
        ensures sources { self.new.sources ≡ self.old.sources }
    {
        if let Some(lane) = self.lanes.get_mut(place) {
            lane.end(lobby);
        }
    }

    // Answers the client of the lane without the log.
    fn answer(&mut self, lobby: &Lobby, place: usize, saying: ToClient)
        ensures sources { self.new.sources ≡ self.old.sources }
    {
        self.put_at(lobby, place, saying);
        self.took(place);
    }

    // Puts a saying after the others for the lane.
    fn put_at(&mut self, lobby: &Lobby, place: usize, saying: ToClient)
        ensures sources { self.new.sources ≡ self.old.sources }
        ensures hears { (number : ℕ) → IsAt self.old.lanes.items number place
            → Hear (one number saying) self.old.lanes.items self.new.lanes.items }
    {
        match self.lanes.get_mut(place) {
            Some(lane) => put(lobby, lane, &mut self.told, &mut self.look, saying),
            None => drop(saying),
        }
    }

    // Notes that a request of the lane was taken. The lane is left after some requests.
    fn took(&mut self, place: usize)
        ensures sources { self.new.sources ≡ self.old.sources }
    {
        if self.look.took()
            && let Some(lane) = self.lanes.get(place)
        {
            lane.announce_room();
        }
    }

    // Puts a saying after the others for the transport with this number, if it is there.
    pub fn say(&mut self, lobby: &Lobby, number: u32, saying: ToClient)
        ensures sources { self.new.sources ≡ self.old.sources }
        ensures hears { Hear (one number saying) self.old.lanes.items self.new.lanes.items }
    {
        match place_of(self.lanes.as_slice(), number) {
            Some(place) => self.put_at(lobby, place, saying),
            None => drop(saying),
        }
    }

    // Tells the porter of all lanes that got a saying since the last call.
    pub fn wake_told(&mut self)
        ensures sources { self.new.sources ≡ self.old.sources }
        ensures hears { Hear nothing self.old.lanes.items self.new.lanes.items }
    {
        announce_all(&mut self.lanes, self.told.as_slice());
        self.told.clear();
    }

    // Ignores the slow clients, for which the node has waited in vain, until they have caught up.
    pub fn ignore_slow(&mut self, lobby: &Lobby)
        ensures sources { self.new.sources ≡ self.old.sources }
    {
        ignore_all(&mut self.lanes, lobby);
    }

    // Ends every connection. Numbers begin at 1 again.
    pub fn end_all(&mut self, lobby: &Lobby)
        ensures begins { Tells self.new.sources [] }
    {
        for lane in &mut self.lanes {
            lane.end(lobby);
        }
        self.sources.clear();
        self.lanes.clear();
        self.told.clear();
        self.look = Look::new();
        self.aside = Look::new();
    }
}

// Returns the value, shared; `None` if memory runs out.
fn share<T: Drop>(alloc: Global, value: T) -> Option<Shared<T>>
    ensures { IfSome result (λ shared. shared ≡ value) }
{
    match Shared::new(alloc, value) {
        Ok(shared) => Some(shared),
        Err(refused) => {
            drop(refused);
            None
        },
    }
}

// Returns the `Said` act for a client's message, with the next draw.
fn said(read: Shared<Read>, draws: &mut Draws) -> Act
    ensures { (draw : ℕ) × (result ≡ Said draw read) }
{
    Act::Said {
        draw: draws.next(),
        read,
    }
}

// Returns the place of the lane of the transport with this number, if it is there.
fn place_of(lanes: &[Lane], number: u32) -> Option<usize>
    ensures { MatchOption result ((last : ℕ) → AreLined lanes.now last → IsNowhere lanes.now number) (IsAt lanes.now number) }
{
    lanes
        .binary_search_by_key(&number, |lane| lane.number())
        .ok()
}

// Tells the porters of the lanes with these numbers, of those that are there, that there are sayings to write.
fn announce_all(lanes: &mut Vec<Lane>, numbers: &[u32])
    ensures { Hear nothing lanes.old.items lanes.new.items }
{
    for number in numbers {
        announce(lanes, *number);
    }
}

// Tells the porter of the lane with this number, if it is there, that there are sayings to write.
fn announce(lanes: &mut Vec<Lane>, number: u32)
    ensures { Hear nothing lanes.old.items lanes.new.items }
{
    let Some(place) = place_of(lanes.as_slice(), number) else {
        return;
    };
    let Some(lane) = lanes.get_mut(place) else {
        return;
    };
    lane.announce_sayings();
}

// Ignores the slow clients, for which the node has waited in vain.
fn ignore_all(lanes: &mut Vec<Lane>, lobby: &Lobby)
    ensures { Hear nothing lanes.old.items lanes.new.items }
{
    for place in 0..lanes.len() {
        ignore(lanes, lobby, place);
    }
}

// Ignores the client of the lane, if it is there, for which the node has waited in vain.
fn ignore(lanes: &mut Vec<Lane>, lobby: &Lobby, place: usize)
    ensures { Hear nothing lanes.old.items lanes.new.items }
{
    let Some(lane) = lanes.get_mut(place) else {
        return;
    };
    lane.ignore_slow(lobby);
}

// Puts a saying after the others for the lane, and notes that its porter is to be told. If there is no room the lane ends, which the next look
// finds.
fn put(lobby: &Lobby, lane: &mut Lane, told: &mut Vec<u32>, look: &mut Look, saying: ToClient)
    ensures hears { Hears (saying ∷ []) lane.old lane.new }
{
    if !lane.say(lobby, saying) {
        look.stir();
        return;
    }
    if lane.tell() {
        return;
    }
    if told.push(lane.number()).is_ok() {
        return;
    }
    lane.announce_sayings();
}
