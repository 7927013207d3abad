// What is tried with three actors.
use crate::counting::{Counting, Failing, fails, serve_and_leave};
use crate::crashing::{outlives, outlives_cut};
use crate::cutting::cuts_twice;
use crate::posting_together::posts_together;
use crate::refusing::{begins_again, first_does, refuses};
use crate::rotating::rotates;
use crate::round_failing::outlives_round;
use crate::round_leading::outlives_leading;
use crate::round_losing::loses_round;
use crate::signs::shows;
use crate::voting_twice::{Ends, votes_twice};
use std::alloc::Global;
use std::process::Abort;
use store_keeper::MemKeeper;
use test_machines::{Count, Number};
use test_stands::{Plays, with_actors, with_actors_by_rounds};

/// What is tried: with all three, or with that of node 1.
#[derive(Clone, Copy)]
pub enum Trial {
    Serves,
    Fails { node: u8, wanted: bool },
    Outlives,
    OutlivesRound { after: bool },
    OutlivesLeading { after: bool },
    LosesRound,
    CutsTwice,
    OutlivesCut { floor: u64, by_feed: bool },
    Fills,
    Rests,
    Rotates,
    Shows,
    PostsTogether,
    VotesTwice { ends: Ends },
    Restarts,
    Refuses,
}

#[derive(Drop)]
struct Trying<R> {
    rt: R,
    alloc: Global,
    trial: Trial,
}

// What is tried with the actor of node 1 alone, which ends there.
fn try_first(rt: &impl Abort, alloc: Global, actors: &mut Vec<Counting<'_>>, restarts: bool) {
    let first = actors.pop().expect(rt, "a node");
    if restarts {
        begins_again(rt, alloc, first);
    } else {
        refuses(rt, alloc, first);
    }
}

impl<R: Abort> Plays<Count, MemKeeper<Number>> for Trying<&R> {
    type End = ();

    fn play(&mut self, actors: &mut Vec<Counting<'_>>) {
        let (rt, alloc) = (self.rt, self.alloc);
        match self.trial {
            Trial::Serves => serve_and_leave(rt, alloc, actors),
            Trial::Fails { node, wanted } => fails(rt, alloc, actors.as_mut_slice(), node, wanted),
            Trial::Outlives => outlives(rt, alloc, actors),
            Trial::OutlivesRound { after } => outlives_round(rt, alloc, actors, after),
            Trial::OutlivesLeading { after } => outlives_leading(rt, alloc, actors, after),
            Trial::LosesRound => loses_round(rt, alloc, actors),
            Trial::CutsTwice => cuts_twice(rt, alloc, actors.as_mut_slice()),
            Trial::OutlivesCut { floor, by_feed } => outlives_cut(
                rt, alloc, actors, floor, by_feed,
            ),
            Trial::Fills => first_does(rt, actors.as_mut_slice(), true),
            Trial::Rests => first_does(rt, actors.as_mut_slice(), false),
            Trial::Rotates => rotates(rt, actors.as_mut_slice()),
            Trial::Shows => shows(rt, actors.as_mut_slice()),
            Trial::PostsTogether => posts_together(rt, actors.as_mut_slice()),
            Trial::VotesTwice { ends } => votes_twice(rt, alloc, actors, ends),
            Trial::Restarts => try_first(rt, alloc, actors, true),
            Trial::Refuses => try_first(rt, alloc, actors, false),
        }
    }
}

/// Tries it with three actors over stores in memory, of which one may fail.
pub fn tried(rt: &impl Abort, alloc: Global, failing: &Failing, trial: Trial) {
    let mut trying = Trying { rt, alloc, trial };
    with_actors::<Count, MemKeeper<Number>, _, _>(alloc, failing, &mut trying).expect(
        rt,
        "three actors",
    );
}

/// The same at a table for batches, where each turn is a round.
pub fn tried_by_rounds(rt: &impl Abort, alloc: Global, failing: &Failing, trial: Trial) {
    let mut trying = Trying { rt, alloc, trial };
    with_actors_by_rounds::<Count, MemKeeper<Number>, _, _>(alloc, failing, &mut trying).expect(
        rt,
        "three actors",
    );
}
