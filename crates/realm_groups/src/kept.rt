//! Groups by their ids, and the ids of their patterns.
ghost use Rattle.std.specs.Prelude.{◌≡◌, ◌+◌, ◌∷◌, [], ◌++◌, ℕ, true, false, None, Some, OnOk, OnErr, IsOkUnless};
ghost use Rattle.realm_sessions.specs.declared.fault.RealmFault.TheVariants as fault;
ghost use Rattle.realm_lists.specs.OrderedList.{IsAbove, member_at, members};
ghost use Rattle.realm_lists.specs.Finding.{AreRising};
ghost use Rattle.realm_groups.specs.Groups.{AreKept, StayKept, alter_at, departed, each, found_session, id_at, is_held, left_at, stays};
ghost use Rattle.realm_groups.specs.IdSets.{has_id_in};

use crate::group::{Group, Turning};
use crate::id_sets::IdSet;
use realm_sessions::RealmFault;
use std::collections::BTreeMap;
use wamp_ids::Id;
use wamp_patterns::PatternTable;

// Adds the group as the last one.
pub(crate) fn put_in<G: Group>(
    rows: &mut BTreeMap<u64, G>,
    patterns: &mut PatternTable<u64>,
    id: u64,
    group: G,
) -> Result<(), RealmFault>
    requires id { G.id_of group ≡ id }
    requires above { IsAbove id rows.old.entries }
    requires new { id_at patterns.old (G.pattern_of group) ≡ None }
    requires held { is_held G.sessions_of group ≡ true }
    ensures ok { OnOk result (rows.new.entries ≡ rows.old.entries ++ (id, group) ∷ []) }
    ensures err { OnErr result (rows.new.entries ≡ rows.old.entries) }
    ensures fault { IsOkUnless result fault.Memory }
    ensures kept_with { OnOk result ((last : ℕ) → last + 1 ≡ id → AreKept G.id_of G.pattern_of G.sessions_of rows.old.entries patterns.old last
        → AreKept G.id_of G.pattern_of G.sessions_of rows.new.entries patterns.new id) }
    ensures kept { OnErr result (StayKept G.id_of G.pattern_of G.sessions_of rows.old.entries patterns.old rows.new.entries patterns.new) }
{
    let Ok(_) = patterns.put(group.pattern(), id) else {
        return Err(RealmFault::Memory);
    };
    let Err(failed) = rows.insert(id, group) else {
        return Ok(());
    };
    let (_, group) = failed.value;
    let _ = patterns.remove(group.pattern());
    Err(RealmFault::Memory)
}

// Adds the session to the group of this id, in which it must not be.
pub(crate) fn join_in<G: Group>(
    rows: &mut BTreeMap<u64, G>,
    id: u64,
    session: Id,
) -> Result<(), RealmFault>
    requires { found_session G.sessions_of session (member_at id rows.old.entries) ≡ false }
    ensures ok { OnOk result (rows.new.entries ≡ alter_at id (G.with session) rows.old.entries) }
    ensures err { OnErr result (rows.new.entries ≡ rows.old.entries) }
    ensures fault { IsOkUnless result fault.Memory }
{
    let Some(group) = rows.get_mut(&id) else {
        return Ok(());
    };
    group.join(session)
}

// Removes the session from the group of this id, in which it is, and the group if it has no session then.
pub(crate) fn leave_in<G: Group>(
    rows: &mut BTreeMap<u64, G>,
    patterns: &mut PatternTable<u64>,
    session: Id,
    id: u64,
)
    ensures rows { rows.new.entries ≡ left_at G.sessions_of id (G.without session) rows.old.entries }
    ensures rising { AreRising rows.old.entries → AreRising rows.new.entries }
    ensures kept { StayKept G.id_of G.pattern_of G.sessions_of rows.old.entries patterns.old rows.new.entries patterns.new }
{
    if leave_at(rows, session, id) {
        return;
    }
    let Some(gone) = rows.remove(&id) else {
        return;
    };
    let _ = patterns.remove(gone.pattern());
}

// Removes the session from the group of this id. Returns whether there is a group that has sessions then.
fn leave_at<G: Group>(rows: &mut BTreeMap<u64, G>, session: Id, id: u64) -> bool
    ensures rows { rows.new.entries ≡ alter_at id (G.without session) rows.old.entries }
    ensures stays { result ≡ stays G.sessions_of (G.without session) (member_at id rows.old.entries) }
{
    let Some(group) = rows.get_mut(&id) else {
        return false;
    };
    group.leave(session);
    group.has_some()
}

// Removes the session from the groups of these ids, which are all that it is in.
pub(crate) fn leave_each<G: Group>(
    rows: &mut BTreeMap<u64, G>,
    patterns: &mut PatternTable<u64>,
    session: Id,
    ids: &IdSet,
)
    requires rising { AreRising rows.old.entries }
    requires told { (id : ℕ) → has_id_in ids.now id ≡ found_session G.sessions_of session (member_at id rows.old.entries) }
    ensures list { members rows.new.entries ≡ each (departed G.sessions_of G.without session) (members rows.old.entries) }
    ensures others { (other id : ℕ) → (other ≡ session → ⊥)
        → found_session G.sessions_of other (member_at id rows.new.entries) ≡ found_session G.sessions_of other (member_at id rows.old.entries) }
    ensures none { (id : ℕ) → found_session G.sessions_of session (member_at id rows.new.entries) ≡ false }
    ensures kept { StayKept G.id_of G.pattern_of G.sessions_of rows.old.entries patterns.old rows.new.entries patterns.new }
{
    for id in ids.iter() {
        leave_in(rows, patterns, session, *id);
    }
}

// Lets the sessions of the group of this id take turns.
pub(crate) fn turn_in<G: Turning>(rows: &mut BTreeMap<u64, G>, id: u64)
    ensures { rows.new.entries ≡ alter_at id G.turned rows.old.entries }
{
    if let Some(group) = rows.get_mut(&id) {
        group.turn();
    }
}
