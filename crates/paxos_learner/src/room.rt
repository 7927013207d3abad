//! Room for what a learner is to hear, and hearing it in that room.

ghost use Rattle.std.specs.Prelude.{◌≡◌, ◌+◌, ◌<◌, ◌≤◌, true, length, OnOk, IsOkUnless};
ghost use Rattle.paxos_learner.specs.declared.fault.LearnerFault.TheVariants.{Memory};
ghost use Rattle.paxos_learner.specs.Hearing.{slot_of, hear_news, hear_all, HavePlaces, HasRoomFor};
ghost use Rattle.paxos_learner.specs.Learner.{has_room_at, KeepsRoom};

use crate::fault::LearnerFault;
use crate::hearing::News;
use crate::learner::Learner;
use paxos_packets::Slot;

impl<B: Drop> Learner<B> {
    /// Reserves memory for all of this news. The learner stays as it was, with `Memory` too.
    pub fn make_room_for(&mut self, news: &[News<B>]) -> Result<(), LearnerFault>
        ensures ok { OnOk result (HasRoomFor news.now self.new) }
        ensures state { self.new.state ≡ self.old.state }
        ensures memory { IsOkUnless result Memory }
    {
        make_room_for(self, news)
    }

    /// Hears all of this news, given room for it: the learner becomes what was planned on it. Never runs out of memory, and copies nothing.
    pub fn hear_in_room(&mut self, news: Vec<News<B>>)
        requires { HasRoomFor news.items self.old }
        ensures { self.new.state ≡ hear_all news.items self.old.state }
    {
        hear_in_room(self, news);
    }
}

fn make_room_for<B: Drop>(learner: &mut Learner<B>, news: &[News<B>]) -> Result<(), LearnerFault>
    ensures ok { OnOk result (HasRoomFor news.now learner.new) }
    ensures state { learner.new.state ≡ learner.old.state }
    ensures memory { IsOkUnless result Memory }
{
    for one in news {
        learner.make_room_at(slot_of(one))?;
    }
    learner.make_room(news.len())
}

fn hear_in_room<B: Drop>(learner: &mut Learner<B>, news: Vec<News<B>>)
    requires { HasRoomFor news.items learner.old }
    ensures { learner.new.state ≡ hear_all news.items learner.old.state }
{
    for one in news {
        hear_one(learner, one);
    }
}

fn hear_one<B: Drop>(learner: &mut Learner<B>, one: News<B>)
    requires votes { 0 < learner.old.room.votes }
    requires place { has_room_at (slot_of one) learner.old ≡ true }
    ensures state { learner.new.state ≡ hear_news one learner.old.state }
    ensures votes { learner.old.room.votes ≤ learner.new.room.votes + 1 }
    ensures places { KeepsRoom learner.old learner.new }
{
    match one {
        News::Cast { node, vote } => learner.vote_in_room(node, vote),
        News::Told { slot, entry } => learner.tell_in_room(slot, entry),
    }
}

// Returns the news' slot.
fn slot_of<B>(one: &News<B>) -> Slot
    ensures { result ≡ slot_of one.now }
{
    match one {
        News::Cast { vote, .. } => vote.slot,
        News::Told { slot, .. } => *slot,
    }
}
