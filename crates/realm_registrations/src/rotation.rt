//! Callees that take turns, as a list and a cursor.
ghost use Rattle.std.specs.Prelude.{◌≡◌, ◌≤◌, ◌+◌, ◌-◌, [], ◌∷◌, length, take, slice_get, OnOk, OnErr, IfOk, IsOkUnless};
ghost use Rattle.realm_sessions.specs.declared.fault.RealmFault.TheVariants as fault;
ghost use Rattle.realm_sessions.specs.Members.{has_member, has_members, joined, others, rotated};
ghost use Rattle.realm_registrations.specs.Callees.{seen};

use realm_sessions::RealmFault;
use std::alloc::Global;
use std::marker::Model;
use wamp_ids::Id;

// Sessions in the order of their turns: a list that is not moved, and a cursor to the one that is called next. The session before the
// cursor was called last.
//
// Cost: `turn`, `first` and `last` take one step; `has`, `join` and `leave` go over the callees of this registration.
#[derive(Drop)]
pub(crate) struct Rotation {
    list: Vec<Id>,
    cursor: usize,
}

impl Model for Rotation {
    ghost use Rattle.std.specs.Prelude.{List, ℕ, ◌≤◌, length};
    ghost use Rattle.realm_registrations.specs.Callees.{seen};

    ghost Value = { List ℕ };

    ghost view = { λ a. seen a.cursor a.list.items };

    ghost invariant = { λ a. a.cursor ≤ length a.list.items };
}

impl Rotation {
    // Creates it with no session. Does not allocate.
    pub fn new(alloc: Global) -> Rotation
        ensures { result ≡ [] }
    {
        Rotation {
            list: Vec::new(alloc),
            cursor: 0,
        }
    }

    // Returns a new rotation of the session and then the other. The only fault is `Memory`.
    pub fn of_two(&self, session: Id, other: Id) -> Result<Rotation, RealmFault>
        ensures rotation { IfOk result (λ rotation. rotation ≡ session ∷ other ∷ []) }
        ensures fault { IsOkUnless result fault.Memory }
    {
        let mut list = Vec::new(*self.list.allocator());
        list.push(session)?;
        list.push(other)?;
        Ok(Rotation { list, cursor: 0 })
    }

    // Returns the sessions in turn. The only fault is `Memory`.
    pub fn to_vec(&self, alloc: Global) -> Result<Vec<Id>, RealmFault>
        ensures list { IfOk result (λ list. list.items ≡ self.now) }
        ensures fault { IsOkUnless result fault.Memory }
    {
        in_turn(alloc, &self.list, self.cursor)
    }

    // Returns the first in turn. Does not allocate.
    pub fn first(&self) -> Option<Id>
        ensures { result ≡ slice_get self.now 0 }
    {
        first_from(&self.list, self.cursor)
    }

    // Returns the last in turn. Does not allocate.
    pub fn last(&self) -> Option<Id>
        ensures { result ≡ slice_get self.now (length self.now - 1) }
    {
        last_before(&self.list, self.cursor)
    }

    // Returns whether the session is one of them. Does not allocate.
    pub fn has(&self, session: Id) -> bool
        ensures { result ≡ has_member session self.now }
    {
        has_in(&self.list, session)
    }

    // Returns whether there is a session. Does not allocate.
    pub fn has_some(&self) -> bool
        ensures { result ≡ has_members self.now }
    {
        !self.list.is_empty()
    }

    // Adds the session as the last in turn: just before the cursor. The only fault is `Memory`; nothing has changed then.
    pub fn join(&mut self, session: Id) -> Result<(), RealmFault>
        ensures ok { OnOk result (self.new ≡ joined session self.old) }
        ensures err { OnErr result (self.new ≡ self.old) }
        ensures fault { IsOkUnless result fault.Memory }
    {
        self.list.insert(self.cursor, session)?;
        self.cursor += 1;
        Ok(())
    }

    // Removes the session. Does not allocate.
    pub fn leave(&mut self, session: Id)
        ensures { self.new ≡ others session self.old }
    {
        self.cursor = count_others(&self.list, self.cursor, session);
        retain_others(&mut self.list, session);
    }

    // Makes the first in turn the last. Does not allocate.
    pub fn turn(&mut self)
        ensures { self.new ≡ rotated self.old }
    {
        self.cursor = next_cursor(&self.list, self.cursor);
    }
}

// Returns the sessions from the cursor on, and then those before it.
fn in_turn(alloc: Global, list: &[Id], cursor: usize) -> Result<Vec<Id>, RealmFault>
    requires { cursor ≤ length list.now }
    ensures list { IfOk result (λ found. found.items ≡ seen cursor list.now) }
    ensures fault { IsOkUnless result fault.Memory }
{
    let mut found = Vec::from_slice(alloc, &list[cursor..])?;
    found.extend_from_slice(&list[..cursor])?;
    Ok(found)
}

// Returns the session at the cursor, or the first one if the cursor is at the end.
fn first_from(list: &[Id], cursor: usize) -> Option<Id>
    requires { cursor ≤ length list.now }
    ensures { result ≡ slice_get (seen cursor list.now) 0 }
{
    match list.get(cursor) {
        Some(session) => Some(*session),
        None => list.first().copied(),
    }
}

// Returns the session before the cursor, or the last one if the cursor is at the start.
fn last_before(list: &[Id], cursor: usize) -> Option<Id>
    requires { cursor ≤ length list.now }
    ensures { result ≡ slice_get (seen cursor list.now) (length (seen cursor list.now) - 1) }
{
    if cursor == 0 {
        return list.last().copied();
    }
    list.get(cursor - 1).copied()
}

fn has_in(list: &[Id], session: Id) -> bool
    ensures { result ≡ has_member session list.now }
{
    list.iter().any(|member| *member == session)
}

// Returns how many others are before the cursor.
fn count_others(list: &[Id], cursor: usize, session: Id) -> usize
    requires { cursor ≤ length list.now }
    ensures { result ≡ length (others session (take cursor list.now)) }
{
    list[..cursor]
        .iter()
        .filter(|member| !(**member == session))
        .count()
}

fn retain_others(list: &mut Vec<Id>, session: Id)
    ensures { list.new.items ≡ others session list.old.items }
{
    list.retain(|member| !(*member == session));
}

// Returns the cursor after the one that is called next.
fn next_cursor(list: &[Id], cursor: usize) -> usize
    requires { cursor ≤ length list.now }
    ensures within { result ≤ length list.now }
    ensures turned { seen result list.now ≡ rotated (seen cursor list.now) }
{
    if cursor < list.len() {
        return cursor + 1;
    }
    if list.is_empty() {
        return 0;
    }
    1
}
