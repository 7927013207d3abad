//! A table of votes by slot, which has room for votes before they are committed.

ghost use Rattle.std.specs.Prelude.{◌≡◌, ◌≤◌, suc, length, IfOk, IfSome, OnOk, option_copied};
ghost use Rattle.paxos_packets.specs.Vote.{IsAscending, vote_in, put_back, put_votes, votes_from};

use crate::body::{Body, Memory};
use crate::slot::Slot;
use crate::vote::{Vote, Votes, copy_behind, find_in, forget_in, put_all_in_room, put_back_in};
use std::alloc::Global;
use std::marker::Model;

/// Votes by ascending slot, at most one for each slot, which can make room for more before they are put.
#[derive(Debug)]
pub struct KeptVotes<B> {
    list: Vec<Vote<B>>,
}

impl<B: Drop> Drop for KeptVotes<B> {
    fn drop(self) {
        let KeptVotes { list: _list } = self;
    }
}

impl<B> Model for KeptVotes<B> {
    ghost use Rattle.std.specs.Prelude.{◌-◌, vec_len, vec_capacity};
    ghost use Rattle.paxos_packets.specs.Kept.{Roomy};
    ghost use Rattle.paxos_packets.specs.Vote.{IsAscending};

    ghost Value = { Roomy B };

    ghost view = { λ v. record { votes = v.list.items; room = vec_capacity v.list - vec_len v.list } };

    ghost invariant = { λ v. IsAscending v.list.items };
}

impl<B> KeptVotes<B> {
    /// Returns the table of these votes. Does not allocate.
    pub fn of(votes: Votes<B>) -> KeptVotes<B>
        ensures { result.votes ≡ votes }
    {
        KeptVotes {
            list: votes.into_vec(),
        }
    }

    /// Returns the votes, by ascending slot. Does not allocate.
    pub fn into_votes(self) -> Votes<B>
        ensures { result ≡ self.votes }
    {
        let KeptVotes { list } = self;
        Votes::of(list)
    }

    /// Returns the votes, by ascending slot.
    pub fn as_slice(&self) -> &[Vote<B>]
        ensures votes { result.now ≡ self.now.votes }
        ensures ascending { IsAscending self.now.votes }
    {
        self.list.as_slice()
    }

    /// Returns the vote in the slot, if any. Does not allocate, and takes a number of steps logarithmic in the number of votes.
    pub fn find(&self, slot: Slot) -> Option<&Vote<B>>
        ensures { option_copied result ≡ vote_in slot self.now.votes }
    {
        find_in(&self.list, slot.get())
    }
}

impl<B: Drop> KeptVotes<B> {
    /// Reserves memory for `count` more votes. The votes stay as they were, with `Memory` too.
    pub fn make_room(&mut self, count: usize) -> Result<(), Memory>
        ensures ok { OnOk result (count ≤ self.new.room) }
        ensures votes { self.new.votes ≡ self.old.votes }
    {
        self.list.reserve(count)?;
        Ok(())
    }

    /// Puts each of the votes, in order, given room for all of them. Finds each place in a number of steps logarithmic in the number of
    /// votes; a vote for a new slot moves the votes of later slots. Does not allocate.
    pub fn put_all_in_room(&mut self, votes: Votes<B>)
        requires { length votes ≤ self.old.room }
        ensures { self.new.votes ≡ put_votes votes self.old.votes }
    {
        put_all_in_room(&mut self.list, votes.into_vec());
    }

    /// Puts another vote for the slot, or none, in the place of the one that is there; if there is none nothing changes. Finds it in a number
    /// of steps logarithmic in the number of votes; without another vote those of later slots are moved. Does not allocate.
    pub fn put_back(&mut self, slot: Slot, other: Option<Vote<B>>)
        requires { IfSome other (λ vote. vote.slot ≡ slot) }
        ensures { self.new.votes ≡ put_back slot other self.old.votes }
    {
        put_back_in(&mut self.list, slot.get(), other);
    }

    /// Forgets the votes in slots up to this floor, and keeps their memory. Takes a number of steps that grows with the votes. Does not
    /// allocate.
    pub fn forget(&mut self, floor: Slot)
        ensures votes { self.new.votes ≡ votes_from (suc floor) self.old.votes }
        ensures room { self.old.room ≤ self.new.room }
    {
        forget_in(&mut self.list, floor.get());
    }
}

impl<B: Body> KeptVotes<B> {
    /// Copies the votes from the slot with this number on; returns `Memory` if memory for them runs out. It copies no other vote, and looks
    /// at only a logarithmic number of others.
    pub fn copy_from(&self, alloc: Global, first: u64) -> Result<Votes<B>, Memory>
        ensures { IfOk result (λ votes. votes ≡ votes_from first self.now.votes) }
    {
        Ok(Votes::of(copy_behind(alloc, &self.list, first)?))
    }
}
