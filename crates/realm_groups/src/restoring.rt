//! Groups under the ids and with the sessions that a list has of them.
ghost use Rattle.std.specs.Prelude.{◌≡◌, nat_lt, ◌∷◌, [], false, OnOk, IsOkUnless};
ghost use Rattle.std.specs.List.{list_any};
ghost use Rattle.realm_groups.specs.Groups.{is_at};
ghost use Rattle.realm_sessions.specs.declared.fault.RealmFault.TheVariants as fault;
ghost use Rattle.realm_sessions.specs.Restoring.{Becomes};
ghost use Rattle.realm_groups.specs.Restoring.{is_refused, put_at, put_group, joined_at, ended_at};

use crate::group::Group;
use crate::groups::Groups;
use realm_sessions::{RealmFault, RestoreFault};
use wamp_ids::{Id, LAST_ID};

impl<G: Group> Groups<G> {
    /// Adds the group as the last one under its own id, with its only session and then with these, in their order.
    ///
    /// Fails with `Damaged` if the id is not after those that were handed out, if a group has the pattern, or if a session comes twice; and
    /// with `Memory`.
    ///
    /// Cost: the look-ups of the id and of the pattern, and one for each session.
    pub fn restore(&mut self, id: Id, group: G, first: Id, more: &[Id]) -> Result<(), RestoreFault>
        requires id { G.id_of group ≡ id }
        requires alone { G.sessions_of group ≡ first ∷ [] }
        ensures { Becomes result self.new (put_group G.id_of G.pattern_of G.sessions_of G.with self.old group more.now) }
    {
        if self.refuses(id, &group) {
            drop(group);
            return Err(RestoreFault::Damaged);
        }
        self.push_at(id, group, first)?;
        join_all(self, id, more)
    }

    // Returns whether the group may not come as the last one.
    fn refuses(&self, id: Id, group: &G) -> bool
        requires { G.id_of group.now ≡ id }
        ensures { result ≡ is_refused G.id_of G.pattern_of self.now group.now }
    {
        if !self.is_next(id) {
            return true;
        }
        self.has_pattern(group)
    }

    // Returns whether the id is after those that were handed out.
    fn is_next(&self, id: Id) -> bool
        ensures { result ≡ nat_lt self.now.last id }
    {
        self.last() < id.get()
    }

    // Returns whether a group has this one's pattern.
    fn has_pattern(&self, group: &G) -> bool
        ensures { result ≡ list_any (is_at G.pattern_of (G.pattern_of group.now)) self.now.list }
    {
        self.at(group.pattern()).is_some()
    }

    // Adds the group as the last one under its own id, with its only session.
    fn push_at(&mut self, id: Id, group: G, first: Id) -> Result<(), RealmFault>
        requires id { G.id_of group ≡ id }
        requires alone { G.sessions_of group ≡ first ∷ [] }
        requires new { is_refused G.id_of G.pattern_of self.old group ≡ false }
        ensures ok { OnOk result (self.new ≡ put_at G.id_of self.old group) }
        ensures fault { IsOkUnless result fault.Memory }
    {
        self.skip(id.get() - 1);
        self.push(first, group)
    }

    /// Ends the restoring: `last` is the greatest id that was handed out.
    ///
    /// Fails with `Damaged` if it is above the ids, or a group's id is above it. Does not allocate.
    pub fn end_at(&mut self, last: u64) -> Result<(), RestoreFault>
        ensures { Becomes result self.new (ended_at self.old last) }
    {
        if LAST_ID < last || last < self.last() {
            return Err(RestoreFault::Damaged);
        }
        self.skip(last);
        Ok(())
    }
}

// Adds these sessions to the group of this id, unless one of them is in it.
fn join_all<G: Group>(groups: &mut Groups<G>, id: Id, sessions: &[Id]) -> Result<(), RestoreFault>
    ensures { Becomes result groups.new (joined_at G.id_of G.sessions_of G.with groups.old id sessions.now) }
{
    for session in sessions {
        if groups.has(*session, id) {
            return Err(RestoreFault::Damaged);
        }
        groups.join_at(*session, id)?;
    }
    Ok(())
}
