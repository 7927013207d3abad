//! An iterator over what a world's transports were handed.

ghost use Rattle.std.specs.Prelude.{◌≡◌, ◌<◌, Some, List, MatchOption, length, slice_get, ℕ, [], ◌∷◌, ◌++◌};
ghost use Rattle.std.specs.Iterator.{YieldsFirstBy, item_count};
ghost use Rattle.cluster_world.specs.Members.{MemberState};
ghost use Rattle.cluster_world.specs.Told.{tell_members};
ghost use Rattle.replica_follower.specs.Handed.{TellAll, tellings};

use crate::member::Member;
use paxos_packets::Transport;
use replica_follower::Tellings;
use replica_machine::Machine;
use std::marker::Model;

/// The transports that were handed something, by node, boot and number, each with what it was handed, oldest first. Contracts see what is
/// left of them.
#[derive(Drop)]
pub struct Handings<'a, M: Machine> {
    // What is left of one member, and the members after it.
    here: Tellings<'a, M::Say>,
    left: &'a [Member<M>],
}

impl<'a, M: Machine> Model for Handings<'a, M> {
    ghost use Rattle.std.specs.Prelude.{List, ◌++◌};
    ghost use Rattle.paxos_packets.specs.declared.transport.Transport.{Transport};
    ghost use Rattle.cluster_world.specs.Told.{tell_members};

    ghost Value = { List (Transport × List M.Say) };

    ghost view = { λ h. h.here ++ tell_members h.left.now };
}

impl<'a, M: Machine> Handings<'a, M> {
    // Returns what these members handed to their transports.
    pub(crate) fn of(members: &'a [Member<M>]) -> Handings<'a, M>
        requires { 0 < length members.now }
        ensures are { result ≡ tell_members members.now }
    {
        match members.split_first() {
            Some((first, left)) => Handings {
                here: first.handed(),
                left,
            },
            None => unreachable!(),
        }
    }
}

impl<'a, M: Machine> Iterator for Handings<'a, M> {
    type Item = (Transport, &'a [M::Say]);

    ghost next_gives = { YieldsFirstBy (λ told. (told.0, told.1.now)) (λ left. left) };

    ghost remaining = { item_count (λ left. left) };

    /// Returns the next one, or `None` after the last. Does not allocate.
    fn next(&mut self) -> Option<(Transport, &'a [M::Say])> {
        next_in(&mut self.here, &mut self.left)
    }
}

// Returns the next one that was handed something: by this member, or by those after it.
fn next_in<'a, M: Machine>(
    here: &mut Tellings<'a, M::Say>,
    left: &mut &'a [Member<M>],
) -> Option<(Transport, &'a [M::Say])>
    ensures { MatchOption result ((here.old ++ tell_members left.old.now ≡ []) × (here.new ++ tell_members left.new.now ≡ []))
        (λ told. here.old ++ tell_members left.old.now ≡ (told.0, told.1.now) ∷ (here.new ++ tell_members left.new.now)) }
{
    for _turn in 0..left.len() {
        if let Some(told) = here.next() {
            return Some(told);
        }
        let (first, behind) = left.split_first()?;
        *here = first.handed();
        *left = behind;
    }
    here.next()
}

// Each of these members yields all that it handed out. Does not allocate, and takes a step for each member.
pub(crate) fn all_tell<M: Machine>(members: &[Member<M>])
    ensures { (i : ℕ) (s : MemberState M.Body M M.Say) → slice_get members.now i ≡ Some s → TellAll s.machine.told (tellings s.machine.told) }
{
    for place in 0..members.len() {
        let _ = members[place].handed();
    }
}
