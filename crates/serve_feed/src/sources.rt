// The requests of a node's clients, each client's under the number of its transport.
ghost use Rattle.std.specs.Prelude.{◌≡◌, ◌<◌, ◌≤◌, ℕ, List, [], length, IfSome};
ghost use Rattle.std.specs.List.{remove};
ghost use Rattle.realm_acts.specs.declared.act.Act.{Act};
ghost use Rattle.serve_connections.specs.Taken.{taken_by};
ghost use Rattle.serve_feed.specs.Tells.{known_with, known_at, known_after, IsGiven, Tells, Finds, FindsAside, Forgets, Takes};
ghost use Rattle.client_listener.specs.declared.items.FromClient.{FromClient};

use client_listener::{Bytes, FromClient};
use serve_connections::{Found, RequestReceiver};
use std::alloc::Global;

// The requests of a client, the number of its transport, whether a Connect was given, so that a Hung is due at the end, and whether a Connect
// was taken that is not given yet.
#[derive(Drop)]
pub(crate) struct Source {
    number: u32,
    is_known: bool,
    is_held: bool,
    requests: RequestReceiver,
}

// What is found at a place: nothing yet, the next request, or that no other will come. The last two with the number of the transport.
#[derive(Drop)]
pub(crate) enum Next {
    Nothing,
    End(u32),
    Request(u32, FromClient),
}

// What is found at a place while no act may be given: nothing, the octets of a PING, or a client that is gone and of which nothing was given.
#[derive(Drop)]
pub(crate) enum Aside {
    Nothing,
    Ping(Bytes),
    Gone,
}

impl Source {
    // Takes the next request, unless the node has ended the connection.
    fn next(&mut self, is_ended: bool) -> Next
        ensures number { self.new.number ≡ self.old.number }
        ensures takes { Takes result self.old self.new }
        ensures known { self.new.is_known ≡ known_after result self.old.is_known }
    {
        if is_ended {
            return Next::End(self.number);
        }
        if self.is_held {
            self.is_held = false;
            self.is_known = true;
            return Next::Request(self.number, FromClient::Connect);
        }
        match self.requests.next() {
            Found::Nothing => Next::Nothing,
            Found::End => Next::End(self.number),
            Found::Request(request) => {
                self.is_known = is_known_with(self.is_known, &request);
                Next::Request(self.number, request)
            },
        }
    }

    // Takes the next request if it is a PING; a Connect before it is held. Finds a client that is gone if nothing of it was given.
    fn next_aside(&mut self, is_ended: bool) -> Aside
        ensures number { self.new.number ≡ self.old.number }
        ensures keeps { (acts : List FromClient) → IsGiven acts self.old → IsGiven acts self.new }
        ensures known { self.new.is_known ≡ self.old.is_known }
        ensures forgets { Forgets result self.old.is_known }
    {
        let is_abandoned = self.requests.is_abandoned();
        if is_ended || is_abandoned {
            return gone(self.is_known);
        }
        self.hold();
        self.take_ping()
    }

    // Takes the next request if it is a Connect, and holds it, unless one is held.
    fn hold(&mut self)
        ensures number { self.new.number ≡ self.old.number }
        ensures keeps { (acts : List FromClient) → IsGiven acts self.old → IsGiven acts self.new }
        ensures known { self.new.is_known ≡ self.old.is_known }
    {
        if self.is_held {
            return;
        }
        if !self.requests.take_connect() {
            return;
        }
        self.is_held = true;
    }

    // Takes the next request if it is a PING.
    fn take_ping(&mut self) -> Aside
        ensures number { self.new.number ≡ self.old.number }
        ensures keeps { (acts : List FromClient) → IsGiven acts self.old → IsGiven acts self.new }
        ensures known { self.new.is_known ≡ self.old.is_known }
        ensures forgets { Forgets result self.old.is_known }
    {
        match self.requests.take_ping() {
            Some(payload) => Aside::Ping(payload),
            None => Aside::Nothing,
        }
    }
}

// Returns what is found of a client that is gone: nothing if a Connect of it was given, since a Hung is due then.
fn gone(is_known: bool) -> Aside
    ensures { Forgets result is_known }
{
    if is_known {
        Aside::Nothing
    } else {
        Aside::Gone
    }
}

// Returns whether a Connect was taken, once this request was.
fn is_known_with(is_known: bool, request: &FromClient) -> bool
    ensures { result ≡ known_with request.now is_known }
{
    match request {
        FromClient::Connect => true,
        FromClient::Read(_) => is_known,
        FromClient::Ping(_) => is_known,
        FromClient::Hung => is_known,
    }
}

// The requests of all clients of a node, by ascending number.
#[derive(Drop)]
pub(crate) struct Sources {
    list: Vec<Source>,
    // The last number that was given.
    last: u32,
}

impl Sources {
    // Returns those of a node without clients. Does not allocate.
    pub fn new(alloc: Global) -> Sources
        ensures begins { Tells result [] }
    {
        Sources {
            list: Vec::new(alloc),
            last: 0,
        }
    }

    // Gives the next number to a client that came, of whose requests none was taken. Returns it, unless no number or no memory is left.
    pub fn add(&mut self, requests: RequestReceiver) -> Option<u32>
        requires untouched { length (taken_by requests) ≡ 0 }
        ensures tells { (given : List (ℕ × Act)) → Tells self.old given → Tells self.new given }
        ensures last { self.old.last ≤ self.new.last }
        ensures number { IfSome result (λ number. (self.old.last < number) × (number ≡ self.new.last)) }
    {
        let Some(number) = self.last.checked_add(1) else {
            drop(requests);
            return None;
        };
        self.last = number;
        let pushed = self.list.push(Source {
            number,
            is_known: false,
            is_held: false,
            requests,
        });
        let is_there = pushed.is_ok();
        drop(pushed);
        if is_there { Some(number) } else { None }
    }

    // Takes the next request at a place; finds the end if the node has ended that connection.
    pub fn next(&mut self, place: usize, is_ended: bool) -> Next
        ensures finds { (given : List (ℕ × Act)) → Tells self.old given → Finds place result self.new given }
        ensures last { self.new.last ≡ self.old.last }
    {
        match self.list.get_mut(place) {
            Some(source) => source.next(is_ended),
            None => Next::Nothing,
        }
    }

    // Takes the next request at a place if it is a PING, while no act may be given; finds a client that is gone if nothing of it was given. It is
    // gone, too, if the node has ended its connection.
    pub fn next_aside(&mut self, place: usize, is_ended: bool) -> Aside
        ensures finds { (given : List (ℕ × Act)) → Tells self.old given → FindsAside place result self.new given }
        ensures last { self.new.last ≡ self.old.last }
    {
        match self.list.get_mut(place) {
            Some(source) => source.next_aside(is_ended),
            None => Aside::Nothing,
        }
    }

    // Removes the client at a place, if one is there. Returns whether a Connect of it was taken.
    pub fn remove(&mut self, place: usize) -> bool
        ensures known { result ≡ known_at self.old.list.items place }
        ensures list { self.new.list.items ≡ remove self.old.list.items place }
        ensures last { self.new.last ≡ self.old.last }
    {
        if place >= self.list.len() {
            return false;
        }
        let source = self.list.remove(place);
        let known = source.is_known;
        drop(source);
        known
    }

    // Removes all. Numbers begin at 1 again.
    pub fn clear(&mut self)
        ensures begins { Tells self.new [] }
    {
        self.list.clear();
        self.last = 0;
    }
}
