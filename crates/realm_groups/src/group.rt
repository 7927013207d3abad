//! The traits of groups of sessions, and of those whose sessions take turns.
ghost use Rattle.std.specs.Prelude.{◌≡◌, ℕ, List, true, false, OnOk, OnErr, IsOkUnless};
ghost use Rattle.wamp_ids.specs.Pattern.{PatternValue};
ghost use Rattle.realm_sessions.specs.Members.{has_member, has_members, joined, others};
ghost use Rattle.realm_sessions.specs.declared.fault.RealmFault.TheVariants as fault;

use realm_sessions::RealmFault;
use wamp_ids::{Id, Pattern};

/// A group of sessions with one pattern and an id.
pub trait Group: Drop {
    ghost id_of: { Self → ℕ };

    ghost pattern_of: { Self → PatternValue };

    /// Its sessions in the order of joining, or of their turns.
    ghost sessions_of: { Self → List ℕ };

    /// The group with the session as its last one.
    ghost with: { ℕ → Self → Self };

    /// The group without the session.
    ghost without: { ℕ → Self → Self };

    /// Returns the pattern of the group. Does not allocate.
    fn pattern(&self) -> &Pattern<'static>
        ensures { result.now ≡ pattern_of self.now };

    /// Returns whether the group has a session. Does not allocate.
    fn has_some(&self) -> bool
        ensures { result ≡ has_members (sessions_of self.now) };

    /// Adds the session, which is not in the group, as the last one. The only fault is `Memory`; nothing has changed then.
    fn join(&mut self, session: Id) -> Result<(), RealmFault>
        requires { has_member session (sessions_of self.old) ≡ false }
        ensures ok { OnOk result (self.new ≡ with session self.old) }
        ensures err { OnErr result (self.new ≡ self.old) }
        ensures fault { IsOkUnless result fault.Memory };

    /// Removes the session, if it is in the group. Does not allocate.
    fn leave(&mut self, session: Id)
        ensures { self.new ≡ without session self.old };

    ghost with_id: { (session : ℕ) (group : Self) → id_of (with session group) ≡ id_of group };

    ghost with_pattern: { (session : ℕ) (group : Self) → pattern_of (with session group) ≡ pattern_of group };

    ghost with_sessions: { (session : ℕ) (group : Self) → sessions_of (with session group) ≡ joined session (sessions_of group) };

    ghost without_id: { (session : ℕ) (group : Self) → id_of (without session group) ≡ id_of group };

    ghost without_pattern: { (session : ℕ) (group : Self) → pattern_of (without session group) ≡ pattern_of group };

    ghost without_sessions: { (session : ℕ) (group : Self) → sessions_of (without session group) ≡ others session (sessions_of group) };
}

/// A group whose sessions take turns.
pub trait Turning: Group {
    ghost turned: { Self → Self };

    /// Makes the first session the last one, if they take turns. Does not allocate.
    fn turn(&mut self)
        ensures { self.new ≡ turned self.old };

    ghost turned_id: { (group : Self) → Self.id_of (turned group) ≡ Self.id_of group };

    ghost turned_pattern: { (group : Self) → Self.pattern_of (turned group) ≡ Self.pattern_of group };

    ghost turned_member: { (session : ℕ) (group : Self)
        → has_member session (Self.sessions_of (turned group)) ≡ has_member session (Self.sessions_of group) };

    ghost turned_held: { (group : Self) → has_members (Self.sessions_of (turned group)) ≡ has_members (Self.sessions_of group) };
}
