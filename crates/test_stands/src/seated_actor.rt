// An actor at its table.
ghost use Rattle.std.specs.Prelude.{◌≡◌, false};
ghost use Rattle.mail_table.specs.Seats.{Owns};
ghost use Rattle.paxos_node.specs.declared.view.Opened.TheVariants.{Never};
ghost use Rattle.paxos_packets.specs.Members.{IsMember};

use actor_run::{Feed, Gate, RoundFeed, run_node, run_rounds};
use mail_table::{Mail, NodeSeat};
use node_actor::{
    Actor, ActorFault, Ballot, Entry, Heard, Hearing, Keeper, Machine, Members, NodeSet, Post, Rows,
};
use replica_machine::AppliedLog;
use std::alloc::Global;

// The most nodes that a table has.
const MOST_NODES: u8 = 7;

// The number of the fault of a node that is lost in its present boot.
const LOST: u8 = 73;

/// What a call of an actor returns.
pub type Answer<Y> = Result<Vec<Y>, ActorFault<Y>>;

/// An actor, and the table that owns its seat.
#[derive(Drop)]
pub struct SeatedActor<'a, M: Machine, K: Keeper<M::Body>> {
    alloc: Global,
    mail: &'a Mail<M::Body>,
    actor: Actor<M, K>,
    ghost owned: { Owns mail.now actor.seat },
}

/// What is left of an actor, and the table that owns its seat.
#[derive(Drop)]
pub struct Left<'a, M: Machine> {
    mail: &'a Mail<M::Body>,
    post: Post<M::Body>,
    ghost owned: { Owns mail.now post.seat },
}

/// Opens the actor of a node that was never opened.
pub fn open_actor<'a, M: Machine, K: Keeper<M::Body>>(
    alloc: Global,
    mail: &'a Mail<M::Body>,
    seat: NodeSeat<M::Body>,
    members: Members,
    machine: M,
    keeper: K,
) -> Begun<'a, M, K>
    requires owned { Owns mail.now seat }
    requires members { members ≡ mail.now.members }
    requires member { IsMember mail.now.members seat.part.me }
    requires fresh { seat.part.seen.opened ≡ Never }
    requires machine { M.has_failed machine ≡ false }
{
    let me = seat.node();
    match Actor::open(alloc, mail, seat, me, members, machine, keeper) {
        Ok(actor) => Begun::Again(SeatedActor { alloc, mail, actor }),
        Err((fault, post, keeper)) => {
            let number = fault.number();
            drop(fault);
            Begun::Not(number, Left { mail, post }, keeper)
        },
    }
}

/// Returns the sayings of a call and the number of its fault, 0 if it has none. Of the faults only that of a lost node has sayings.
pub fn told_of<Y: Drop>(done: Answer<Y>) -> (Option<Vec<Y>>, u8) {
    match done {
        Ok(says) => (Some(says), 0),
        Err(ActorFault::LostHere(says)) => (Some(says), LOST),
        Err(fault) => {
            let number = fault.number();
            drop(fault);
            (None, number)
        },
    }
}

/// Returns how many sayings a call returned, or the number of its fault.
pub fn count_of<Y: Drop>(done: Answer<Y>) -> Result<u64, u8> {
    let count = match &done {
        Ok(says) => Ok(says.len() as u64),
        Err(fault) => Err(fault.number()),
    };
    drop(done);
    count
}

impl<'a, M: Machine, K: Keeper<M::Body>> SeatedActor<'a, M, K> {
    /// Lets the node take an act.
    pub fn take(&mut self, number: u32, body: M::Body) -> Answer<M::Say> {
        self.actor.take(self.mail, number, body)
    }

    /// Takes a turn, or at a table for batches a round without events of the node's own.
    pub fn turn(&mut self) -> Answer<M::Say> {
        if self.mail.most() == 1 {
            return self.actor.turn(self.mail);
        }
        self.round()
    }

    // Takes a round without events of the node's own.
    fn round(&mut self) -> Answer<M::Say> {
        let mut says = self.actor.silence();
        match self.actor.round(self.mail, Vec::new(self.alloc), &mut says) {
            Ok(held) => {
                drop(held);
                Ok(says)
            },
            Err(ActorFault::LostHere(none)) => {
                drop(none);
                Err(ActorFault::LostHere(says))
            },
            Err(fault) => {
                drop(says);
                Err(fault)
            },
        }
    }

    /// Lets time pass.
    pub fn tick(&mut self) -> Answer<M::Say> {
        self.actor.tick(self.mail)
    }

    /// Lets the node begin a ballot.
    pub fn start(&mut self) -> Answer<M::Say> {
        self.actor.start(self.mail)
    }

    /// Lets the node rest on what its machine's log is saved as.
    pub fn cut(&mut self) -> Answer<M::Say> {
        self.actor.cut(self.mail)
    }

    /// Lets the actor turn for as long as the gate lets it pass. Returns whether no fault ended it. At a table for batches it does nothing, and
    /// returns `false`.
    pub fn run<G: Gate, F: Feed<M::Body, M::Say>>(&mut self, gate: &G, feed: &mut F) -> bool {
        if self.mail.most() != 1 {
            return false;
        }
        let done = run_node(self.mail, &mut self.actor, gate, feed);
        let good = done.is_ok();
        drop(done);
        good
    }

    /// Lets the actor go by rounds for as long as the gate lets it pass. Returns the number of the fault that ended it, 0 if none did.
    pub fn run_rounds<G: Gate, F: RoundFeed<M::Body, M::Say>>(
        &mut self,
        gate: &G,
        feed: &mut F,
    ) -> u8 {
        let done = run_rounds(self.alloc, self.mail, &mut self.actor, gate, feed);
        let number = match &done {
            Ok(()) => 0,
            Err(fault) => fault.number(),
        };
        drop(done);
        number
    }

    /// Returns the node's number.
    pub fn me(&self) -> u8 {
        self.actor.me()
    }

    /// Returns the node's log above its floor.
    pub fn log(&self) -> &[Entry<M::Body>] {
        self.actor.log()
    }

    /// Returns the length of the node's log; 0 once the node is down.
    pub fn applied(&self) -> u64 {
        self.actor.applied()
    }

    /// Returns the floor, up to which the node's snapshot gives its log.
    pub fn floor(&self) -> u64 {
        self.actor.floor()
    }

    /// Returns how many entries of the node wait for a slot.
    pub fn pending_entries(&self) -> usize {
        self.actor.pending_entries()
    }

    /// Returns whether entries of the node wait for a slot.
    pub fn has_pending(&self) -> bool {
        self.actor.has_pending()
    }

    /// Returns the greatest ballot that the node has promised, if any.
    pub fn promised(&self) -> Option<Ballot> {
        self.actor.promised()
    }

    /// Returns the peer from which its last turn fetched a packet, if it fetched one.
    pub fn from(&self) -> Option<u8> {
        self.actor.from()
    }

    /// Returns what the packet showed that its last turn fetched, if it fetched one.
    pub fn heard(&self) -> Option<Heard> {
        self.actor.heard()
    }

    /// Returns from which members the packets of its last round came, and what each showed, in order.
    pub fn came(&self) -> &[Hearing] {
        self.actor.came()
    }

    /// Returns the peers to which its last turn or round posted.
    pub fn posted(&self) -> NodeSet {
        self.actor.posted()
    }

    /// Returns how many slots there are after its node's log up to the last one that the node voted in.
    pub fn open_slots(&self) -> u64 {
        self.actor.open_slots()
    }

    /// Returns whether its last turn or round fetched a packet.
    pub fn has_treated(&self) -> bool {
        self.from().is_some() || !self.came().is_empty()
    }

    /// Returns whether its last turn or round posted a packet.
    pub fn has_posted(&self) -> bool {
        let posted = self.actor.posted();
        let mut any = false;
        for node in 1..=MOST_NODES {
            any = any || posted.contains(node);
        }
        any
    }

    /// Returns whether its last turn or round posted a packet, or fetched one.
    pub fn has_moved(&self) -> bool {
        self.has_treated() || self.has_posted()
    }

    /// Takes the node down, and returns what is left of it, and its store.
    pub fn crash(self) -> (Left<'a, M>, K) {
        let SeatedActor { mail, actor, .. } = self;
        let (post, keeper) = actor.crash();
        (Left { mail, post }, keeper)
    }
}

impl<'a, M: Machine, K: Keeper<M::Body> + Drop> SeatedActor<'a, M, K> {
    /// Drops the seat, and returns the log that the machine has followed.
    pub fn leave(self) -> AppliedLog<M> {
        let SeatedActor { actor, .. } = self;
        let (seat, log) = actor.leave();
        drop(seat);
        log
    }
}

/// What comes of an opening or a restart: the actor; or the number of the fault, what is left, and the store.
pub enum Begun<'a, M: Machine, K: Keeper<M::Body>> {
    Again(SeatedActor<'a, M, K>),
    Not(u8, Left<'a, M>, K),
}

impl<'a, M: Machine> Left<'a, M> {
    /// Returns the node's number.
    pub fn me(&self) -> u8 {
        self.post.me()
    }

    /// Returns the rows that the node had last; `None` if it was never opened.
    pub fn rows(&self) -> Option<&Rows<M::Body>> {
        self.post.rows()
    }

    /// Restarts the actor from here, with this machine and this store.
    pub fn restart<K: Keeper<M::Body>>(
        self,
        alloc: Global,
        machine: M,
        keeper: K,
    ) -> Begun<'a, M, K>
        requires { M.has_failed machine ≡ false }
    {
        let Left { mail, post } = self;
        match Actor::restart(alloc, mail, post, machine, keeper) {
            Ok(actor) => Begun::Again(SeatedActor { alloc, mail, actor }),
            Err((fault, post, keeper)) => {
                let number = fault.number();
                drop(fault);
                Begun::Not(number, Left { mail, post }, keeper)
            },
        }
    }
}

/// Returns the actor that goes on; `None` if none does, and what is left is dropped.
pub fn again<'a, M: Machine, K: Keeper<M::Body> + Drop>(
    begun: Begun<'a, M, K>,
) -> Option<SeatedActor<'a, M, K>> {
    match begun {
        Begun::Again(actor) => Some(actor),
        Begun::Not(_, left, keeper) => {
            drop(left);
            drop(keeper);
            None
        },
    }
}
