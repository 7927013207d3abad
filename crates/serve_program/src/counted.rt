// A store that notes how far its node's log went, as far as the node knew, when its boot began.
ghost use Rattle.paxos_packets.specs.declared.rows.Rows.{Rows};

use paxos_packets::{Body, Change, Rows};
use std::cell::Cell;
use store_keeper::{Keeper, KeeperFault};

/// A store, and the number of the last slot in which its node had voted when its boot began.
#[derive(Drop)]
pub(crate) struct CountedStore<'a, K> {
    keeper: K,
    last: &'a Cell<u64>,
}

impl<'a, K> CountedStore<'a, K> {
    pub fn new(keeper: K, last: &'a Cell<u64>) -> CountedStore<'a, K> {
        CountedStore { keeper, last }
    }
}

// All that a store promises is the store's below.
impl<B: Body, K: Keeper<B>> Keeper<B> for CountedStore<'_, K> {
    ghost holds = { λ k. K.holds k.keeper };

    ghost finds = { λ k. K.finds k.keeper };

    ghost leaves_rows = { λ k. K.leaves_rows k.keeper };

    ghost is_faithful = { λ k. K.is_faithful k.keeper };

    ghost is_failed = { λ k. K.is_failed k.keeper };

    ghost failures = { λ k. K.failures k.keeper };

    fn load(&mut self) -> Result<Rows<B>, KeeperFault> {
        self.keeper.load()
    }

    fn commit(&mut self, change: &Change<B>) -> Result<(), KeeperFault> {
        self.keeper.commit(change)
    }

    fn boot(&mut self) -> Result<Rows<B>, KeeperFault> {
        match self.keeper.boot() {
            Ok(rows) => {
                self.last.set(last_slot(&rows));
                Ok(rows)
            }
            Err(fault) => Err(fault),
        }
    }

    fn failures(&self) -> u64 {
        self.keeper.failures()
    }

    ghost kept = { λ k. K.kept k.keeper };

    ghost only = { λ k. K.only k.keeper };
}

// Returns the last slot in which there is a vote, 0 if there is none.
fn last_slot<B>(rows: &Rows<B>) -> u64 {
    match rows.votes.as_slice().last() {
        Some(vote) => vote.slot.get(),
        None => 0,
    }
}
