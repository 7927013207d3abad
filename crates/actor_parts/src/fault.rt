// The faults of an actor: their numbers and texts.
ghost use Rattle.std.specs.Prelude.{◌≡◌};
ghost use Rattle.actor_parts.specs.Fault.{number_of};

use std::fmt;
use store_keeper::KeeperFault;

/// Why an actor did not take an event, or did not begin. All but `Rounds` and `Full` end it: it returns `Failed` from then on.
#[derive(Drop)]
pub enum ActorFault<Y> {
    /// A fault has ended the actor before.
    Failed,
    /// No round is left for a new ballot.
    Rounds,
    /// No more entries may be pending, or no number is left for an act.
    Full,
    /// The store returned this fault.
    Keeper(KeeperFault),
    /// Another entry was learned in a slot.
    Disagree,
    /// The node has applied the entry that it is lost in its present boot, and is down; these are all sayings of
    /// the call, but for a round's, which are in its own list.
    LostHere(Vec<Y>),
    /// The node's word at the table has counted all events that it can.
    Worn,
    /// Memory ran out.
    Memory,
}

impl<Y> ActorFault<Y> {
    /// Returns the number of the fault.
    pub fn number(&self) -> u8
        ensures { result ≡ number_of self.now }
    {
        match self {
            ActorFault::Failed => 71,
            ActorFault::Rounds => 51,
            ActorFault::Full => 74,
            ActorFault::Keeper(fault) => fault.number(),
            ActorFault::Disagree => 72,
            ActorFault::LostHere(_) => 73,
            ActorFault::Worn => 75,
            ActorFault::Memory => 76,
        }
    }
}

impl<Y> fmt::Display for ActorFault<Y> {
    fn fmt<W: fmt::Write>(&self, f: &mut fmt::Formatter<W>) -> fmt::Result {
        match self {
            ActorFault::Failed => write!(f, "the actor has failed before"),
            ActorFault::Rounds => write!(f, "no round is left for a new ballot"),
            ActorFault::Full => write!(f, "no room for one more pending entry"),
            ActorFault::Keeper(fault) => write!(f, "{fault}"),
            ActorFault::Disagree => write!(f, "another entry was learned in the slot"),
            ActorFault::LostHere(_) => write!(f, "the node is lost in its present boot"),
            ActorFault::Worn => write!(f, "the node has taken all events that its word counts"),
            ActorFault::Memory => write!(f, "no memory for the actor"),
        }
    }
}
