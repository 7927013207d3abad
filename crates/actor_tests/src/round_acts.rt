// Rounds of one actor: what its feed gives, and how many its gate lets pass.
use crate::counting::Sum;
use actor_run::{Gate, RoundFeed, RoundSeen};
use node_actor::Event;
use test_machines::Number;

/// Lets one round pass.
#[derive(Clone, Copy)]
pub struct OneRound;

impl Gate for OneRound {
    fn pass(&self, _node: u8, turn: u64) -> bool {
        turn == 0
    }
}

/// Gives acts of transport 1 of these numbers before a round, in order, and counts what is said.
#[derive(Drop)]
pub struct Acts {
    node: u8,
    numbers: &'static [u32],
    given: usize,
    said: usize,
}

impl Acts {
    /// Creates a feed of this node that has given nothing.
    pub fn of(node: u8, numbers: &'static [u32]) -> Acts {
        Acts {
            node,
            numbers,
            given: 0,
            said: 0,
        }
    }

    /// Returns how many acts it has given, and how much was said.
    pub fn counts(&self) -> (usize, usize) {
        (self.given, self.said)
    }
}

impl RoundFeed<Number, Sum> for Acts {
    ghost saw = { λ feed given got. Unit {0} };

    fn next(&mut self, _seen: &RoundSeen<'_>) -> Option<Event<Number>>
        ensures { Unit {0} }
    {
        let number = self.numbers.get(self.given)?;
        self.given = self.given.saturating_add(1);
        Some(Event::Take {
            node: self.node,
            transport: 1,
            body: Number::new(*number),
        })
    }

    fn hand(&mut self, says: Vec<Sum>)
        ensures { Unit {0} }
    {
        self.said = self.said.saturating_add(says.len());
        drop(says);
    }
}

/// Gives one Suspect of another node before a round.
#[derive(Drop)]
pub struct Suspects {
    node: u8,
    other: u8,
    given: bool,
}

impl Suspects {
    /// Creates a feed of this node that has given nothing.
    pub fn of(node: u8, other: u8) -> Suspects {
        Suspects {
            node,
            other,
            given: false,
        }
    }
}

impl RoundFeed<Number, Sum> for Suspects {
    ghost saw = { λ feed given got. Unit {0} };

    fn next(&mut self, _seen: &RoundSeen<'_>) -> Option<Event<Number>>
        ensures { Unit {0} }
    {
        if self.given {
            return None;
        }
        self.given = true;
        Some(Event::Suspect {
            node: self.node,
            other: self.other,
        })
    }

    fn hand(&mut self, says: Vec<Sum>)
        ensures { Unit {0} }
    {
        drop(says);
    }
}
