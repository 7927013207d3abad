//! A table of groups: finds them by id, by pattern and by URI, and lets sessions join and leave.
ghost use Rattle.std.specs.Prelude.{◌≡◌, ◌≤◌, ◌<◌, ◌+◌, ◌∷◌, [], ◌++◌, ℕ, List, true, false, None};
ghost use Rattle.std.specs.Prelude.{Some, not, ◌&&◌, length, filter, find, map, option_map, option_copied, IfOk, OnOk, OnErr, IsOkUnless};
ghost use Rattle.wamp_ids.specs.Id.{last_id};
ghost use Rattle.wamp_patterns.specs.Ranking.{matching, serves};
ghost use Rattle.realm_sessions.specs.declared.fault.RealmFault.TheVariants as fault;
ghost use Rattle.realm_groups.specs.Groups.{nothing, with_list, with_group, has_id, is_at};
ghost use Rattle.realm_groups.specs.Groups.{has_session, found_session, is_held, departed, change_first, each};
ghost use Rattle.std.specs.List.{All, list_any};

use crate::group::{Group, Turning};
use crate::id_sets::IdSets;
use crate::kept::{join_in, leave_each, leave_in, put_in, turn_in};
use crate::matching::{best_in, listed, matching_in};
use realm_sessions::RealmFault;
use std::alloc::Global;
use std::collections::BTreeMap;
use std::marker::Model;
use wamp_ids::{Id, Pattern, Uri};
use wamp_patterns::PatternTable;

/// Groups by ascending id, no two with one pattern, each with sessions.
///
/// Cost: each call takes a number of steps that is logarithmic in the number of groups and of sessions, plus what the group's own calls
/// take; `best` and `all` take what a table of patterns takes to find what matches; `leave_all` goes over the groups that the session is
/// in, and `all` over those that match.
pub struct Groups<G: Group> {
    alloc: Global,
    by_id: BTreeMap<u64, G>,
    patterns: PatternTable<u64>,
    by_session: IdSets,
    last: u64,
}

impl<G: Group> Drop for Groups<G> {
    fn drop(self) {
        let Groups {
            alloc: _,
            by_id: _by_id,
            patterns: _patterns,
            by_session: _by_session,
            last: _,
        } = self;
    }
}

impl<G: Group> Model for Groups<G> {
    ghost use Rattle.realm_lists.specs.OrderedList.{members};
    ghost use Rattle.realm_groups.specs.Groups.{AreGrouped, Listed};

    ghost Value = { Listed G };

    ghost view = { λ a. record { list = members a.by_id.entries; last = a.last } };

    ghost invariant = { λ a. AreGrouped G.id_of G.pattern_of G.sessions_of a.by_id.entries a.patterns a.by_session a.last };
}

impl<G: Group> Groups<G> {
    /// Creates it with no group. Does not allocate.
    pub fn new(alloc: Global) -> Groups<G>
        ensures { result ≡ nothing }
    {
        Groups {
            alloc,
            by_id: BTreeMap::new(alloc),
            patterns: PatternTable::new(alloc),
            by_session: IdSets::new(alloc),
            last: 0,
        }
    }

    /// Returns the greatest id that was handed out, 0 before the first. Does not allocate.
    pub fn last(&self) -> u64
        ensures last { result ≡ self.now.last }
        ensures within { result ≤ last_id }
    {
        self.last
    }

    /// Hands out the ids up to this one, so that the next one is after it. Does not allocate.
    pub fn skip(&mut self, last: u64)
        requires least { self.old.last ≤ last }
        requires most { last ≤ last_id }
        ensures { self.new ≡ record { list = self.old.list; last = last } }
    {
        self.last = last;
    }

    /// Returns the groups by ascending id. The only fault is `Memory`.
    pub fn to_vec(&self) -> Result<Vec<&G>, RealmFault>
        ensures list { IfOk result (λ list. map (λ group. group.now) list.items ≡ self.now.list) }
        ensures fault { IsOkUnless result fault.Memory }
    {
        listed(self.alloc, &self.by_id)
    }

    /// Returns the group with this pattern. Does not allocate.
    pub fn at(&self, pattern: &Pattern<'_>) -> Option<&G>
        ensures { option_map (λ found. found.now) result ≡ find (is_at G.pattern_of pattern.now) self.now.list }
    {
        let Some(id) = self.patterns.get(pattern) else {
            return None;
        };
        self.by_id.get(id)
    }

    /// Returns the number of groups. Does not allocate.
    pub fn len(&self) -> usize
        ensures { result ≡ length self.now.list }
    {
        self.by_id.len()
    }

    /// Returns how many groups the session is in. Does not allocate.
    pub fn count(&self, session: Id) -> usize
        ensures { result ≡ length (filter (has_session G.sessions_of session) self.now.list) }
    {
        self.by_session.count(session.get())
    }

    /// Returns whether the session is in the group of this id. Does not allocate.
    pub fn has(&self, session: Id, id: Id) -> bool
        ensures found { result ≡ found_session G.sessions_of session (find (has_id G.id_of id) self.now.list) }
        ensures any { result ≡ list_any (λ group. has_id G.id_of id group && has_session G.sessions_of session group) self.now.list }
    {
        self.by_session.has(session.get(), id.get())
    }

    /// Shows that each group has sessions: a call for proofs, which does nothing. Does not allocate.
    pub fn are_held(&self)
        ensures { All (λ group. is_held G.sessions_of group ≡ true) self.now.list }
    {
        // for the proof
        let _ = &self.by_id;
    }

    /// Adds the group as the last one. It must have the next id, a pattern that no other group has, and only this session. The only fault
    /// is `Memory`; nothing has changed then.
    pub fn push(&mut self, session: Id, group: G) -> Result<(), RealmFault>
        requires id { G.id_of group ≡ self.old.last + 1 }
        requires left { self.old.last < last_id }
        requires new { find (is_at G.pattern_of (G.pattern_of group)) self.old.list ≡ None }
        requires alone { G.sessions_of group ≡ session ∷ [] }
        ensures ok { OnOk result (self.new ≡ with_group self.old group) }
        ensures err { OnErr result (self.new ≡ self.old) }
        ensures fault { IsOkUnless result fault.Memory }
    {
        let id = self.last + 1;
        self.by_session.add(self.alloc, session.get(), id)?;
        let Ok(()) = put_in(&mut self.by_id, &mut self.patterns, id, group) else {
            self.by_session.remove(session.get(), id);
            return Err(RealmFault::Memory);
        };
        self.last = id;
        Ok(())
    }

    /// Adds the session to the group with this pattern, in which it must not be; nothing changes if no group has the pattern. The only
    /// fault is `Memory`; nothing has changed then.
    pub fn join(&mut self, session: Id, pattern: &Pattern<'_>) -> Result<(), RealmFault>
        requires { found_session G.sessions_of session (find (is_at G.pattern_of pattern.now) self.old.list) ≡ false }
        ensures ok { OnOk result (self.new ≡ with_list self.old
            (change_first (is_at G.pattern_of pattern.now) (λ group. Some (G.with session group)) self.old.list)) }
        ensures err { OnErr result (self.new ≡ self.old) }
        ensures fault { IsOkUnless result fault.Memory }
    {
        let Some(id) = self.patterns.get(pattern) else {
            return Ok(());
        };
        let id = *id;
        self.by_session.add(self.alloc, session.get(), id)?;
        let Ok(()) = join_in(&mut self.by_id, id, session) else {
            self.by_session.remove(session.get(), id);
            return Err(RealmFault::Memory);
        };
        Ok(())
    }

    /// Adds the session to the group of this id, in which it must not be; nothing changes if no group has the id. The only fault is
    /// `Memory`; nothing has changed then.
    pub fn join_at(&mut self, session: Id, id: Id) -> Result<(), RealmFault>
        requires { found_session G.sessions_of session (find (has_id G.id_of id) self.old.list) ≡ false }
        ensures ok { OnOk result (self.new ≡ with_list self.old
            (change_first (has_id G.id_of id) (λ group. Some (G.with session group)) self.old.list)) }
        ensures err { OnErr result (self.new ≡ self.old) }
        ensures fault { IsOkUnless result fault.Memory }
    {
        let number = id.get();
        let Some(_group) = self.by_id.get(&number) else {
            return Ok(());
        };
        let joining = session.get();
        self.by_session.add(self.alloc, joining, number)?;
        let Ok(()) = join_in(&mut self.by_id, number, session) else {
            self.by_session.remove(joining, number);
            return Err(RealmFault::Memory);
        };
        Ok(())
    }

    /// Removes the session from the group of this id, if it is in it, and the group if that was its last session. Does not allocate.
    pub fn leave(&mut self, session: Id, id: Id)
        ensures { self.new ≡ with_list self.old
            (change_first (has_id G.id_of id) (departed G.sessions_of G.without session) self.old.list) }
    {
        let member = session.get();
        let number = id.get();
        if !self.by_session.has(member, number) {
            return;
        }
        self.by_session.remove(member, number);
        leave_in(&mut self.by_id, &mut self.patterns, session, number);
    }

    /// Removes the session from all its groups, and the groups that have no session left. Does not allocate.
    pub fn leave_all(&mut self, session: Id)
        ensures { self.new ≡ with_list self.old (each (departed G.sessions_of G.without session) self.old.list) }
    {
        let Some(ids) = self.by_session.take(session.get()) else {
            return;
        };
        leave_each(&mut self.by_id, &mut self.patterns, session, &ids);
    }

    /// Returns the group whose pattern serves the URI: of those that match it, the one that no other beats. Does not allocate.
    pub fn best(&self, uri: &Uri<'_>) -> Option<&G>
        ensures { option_copied result ≡ serves G.pattern_of self.now.list uri.now }
    {
        best_in(&self.by_id, &self.patterns, uri)
    }

    /// Returns the groups whose patterns match the URI, by ascending id. The only fault is `Memory`.
    pub fn all(&self, uri: &Uri<'_>) -> Result<Vec<&G>, RealmFault>
        ensures found { IfOk result (λ found. map (λ group. group.now) found.items ≡ matching G.pattern_of self.now.list uri.now) }
        ensures fault { IsOkUnless result fault.Memory }
    {
        matching_in(self.alloc, &self.by_id, &self.patterns, uri)
    }
}

impl<G: Turning> Groups<G> {
    /// Lets the sessions of the group of this id take turns (`Turning::turn`). Does not allocate.
    pub fn turn(&mut self, id: Id)
        ensures { self.new ≡ with_list self.old (change_first (has_id G.id_of id) (λ group. Some (G.turned group)) self.old.list) }
    {
        turn_in(&mut self.by_id, id.get());
    }
}
