// What becomes of an outcome that is committed.
ghost use Rattle.std.specs.Prelude.{◌≡◌, false};
ghost use Rattle.paxos_node.specs.Adopting.{Fits};
ghost use Rattle.paxos_node.specs.Held.{HasRoom};
ghost use Rattle.actor_parts.specs.Steps.{StaysWho, IsAtEnd, AnswersUp, TakesIn};

use crate::fault::ActorFault;
use crate::parts::Parts;
use paxos_node::Outcome;
use replica_machine::Machine;
use store_keeper::Keeper;

impl<M: Machine, K: Keeper<M::Body>> Parts<M, K> {
    /// Takes over an outcome that is committed: the node adopts it, its packets wait, and the machine follows what it applied. Returns what
    /// the machine says to the node's transports, or a fault that ends the actor: `LostHere` if the node is down then, `Memory` if memory
    /// runs out.
    pub fn take_over(
        &mut self,
        outcome: Outcome<M::Body>,
    ) -> Result<Vec<M::Say>, ActorFault<M::Say>>
        requires room { HasRoom outcome self.old.node }
        requires fits { Fits self.old.node.me self.old.node.members outcome self.old.node.state }
        requires alive { self.old.log.failed ≡ false }
        requires end { IsAtEnd self.old.log }
        ensures who { StaysWho self.old self.new }
        ensures keeper { self.new.keeper ≡ self.old.keeper }
        ensures follows { TakesIn M.steps M.content outcome self.old self.new result }
    {
        let boot = self.boot();
        let applied = self.adopt(outcome);
        let Ok(says) = self.apply(boot, applied) else {
            self.spoil();
            return Err(ActorFault::Memory);
        };
        self.answer(says)
    }

    // Returns what is said, or that the node is lost.
    fn answer(&mut self, says: Vec<M::Say>) -> Result<Vec<M::Say>, ActorFault<M::Say>>
        ensures answers { AnswersUp says.items self.old self.new result }
        ensures keeper { self.new.keeper ≡ self.old.keeper }
    {
        if self.is_up() {
            return Ok(says);
        }
        self.spoil();
        Err(ActorFault::LostHere(says))
    }
}
