//! Laws of the realm's step, each the contract of a function with an empty body.
ghost use Rattle.realm_laws.specs.Laws.{RepliesAnswerCalls, EveryOpenCallIsSound};
ghost use Rattle.realm_laws.specs.Laws.{EmptyIsSound, EachInputKeepsSound, EveryRealmIsSound, OpensWhereRoom};
ghost use Rattle.realm_laws.specs.Leaving.{LeavesInOrder};
ghost use Rattle.realm_laws.specs.Reaching.{InvokesTheCallee, SendsEachEvent};
ghost use Rattle.realm_laws.specs.Logs.{RegistrationsAreSoundInLogs, RealmIsSoundInLogs, OpenCallsAreSoundInLogs};
ghost use Rattle.realm_laws.specs.Logs.{RepliesAnswerCallsInLogs};
ghost use Rattle.realm_laws.specs.Kept.{EmptyIsKept, EachInputKeepsCalls, EachInputKeepsNumbered, EachInputKeepsAll};
ghost use Rattle.realm_laws.specs.Kept.{KeptComesBack};
ghost use Rattle.realm_laws.specs.Unbegun.{UnbegunAreToldNothing};

/// What every realm keeps, whatever acts come to it and whichever nodes begin or are lost: each transport is connected once; no two
/// sessions have one id; the ids of subscriptions rise, and none is above the last one that was handed out; each text and match has one
/// subscription; each subscription has members, each of them once. The same holds of registrations and their callees, of which there is one
/// under `single`. Callees and members are open sessions. The parts are held to the limits of the configuration. Does not allocate.
pub fn realms_are_sound()
    ensures empty { EmptyIsSound }
    ensures each_input { EachInputKeepsSound }
    ensures all_inputs { EveryRealmIsSound }
{}

/// While a realm may have one session more, the search for its id ends at one that no session has; so no HELLO is refused because the ids
/// ran out. Does not allocate.
pub fn session_ids_are_found()
    ensures { OpensWhereRoom }
{}

/// Replies answer calls: for each transport and request, every progressive result and every final reply comes after a CALL, and none of them
/// between a final reply and the next CALL. Does not allocate.
pub fn replies_answer_calls()
    ensures { RepliesAnswerCalls }
{}

/// No two open calls have one caller and request, nor one callee and invocation, and their callers and callees are open sessions. Does not
/// allocate.
pub fn open_calls_are_sound()
    ensures { EveryOpenCallIsSound }
{}

/// In such a realm a CALL that finds a callee, of a caller that may have one more open call, is sent to that callee as an INVOCATION, unless
/// all 2^53 ids are ids of the callee's open invocations; and an EVENT is sent to each receiver of a publication. Does not allocate.
pub fn sessions_are_reached()
    ensures call { InvokesTheCallee }
    ensures events { SendsEachEvent }
{}

/// A session that leaves has its calls ended, and others told of them, in the order of docs/PROTOCOL.md, as if all were looked up before it
/// is taken off its transport; for this each transport is connected once, and no two sessions have one id. Does not allocate.
pub fn sessions_leave_in_order()
    ensures { LeavesInOrder }
{}

/// Whatever log a realm follows, at each prefix of it there is at most one registration for each text and match, each has a callee, and one
/// under `single` has exactly one; everything else that every realm keeps, and what its open calls keep, holds there, too. Does not
/// allocate.
pub fn realms_are_sound_in_logs()
    ensures registrations { RegistrationsAreSoundInLogs }
    ensures realm { RealmIsSoundInLogs }
    ensures calls { OpenCallsAreSoundInLogs }
{}

/// Replies answer calls along every log: for each transport and request, every progressive result and every final reply comes after a CALL
/// that took effect, and none of them between a final reply and the next such CALL. Does not allocate.
pub fn replies_answer_calls_in_logs()
    ensures { RepliesAnswerCallsInLogs }
{}

/// A realm that is told nothing but inputs whose nodes, boots and transports are ones comes back out of its lists: `Realm::of_parts` makes
/// that realm of what `Realm::parts` shows of it. For this its transports are ones, and its ids begin with 1. Does not allocate.
pub fn realms_come_back()
    ensures empty { EmptyIsKept }
    ensures calls { EachInputKeepsCalls }
    ensures numbered { EachInputKeepsNumbered }
    ensures each_input { EachInputKeepsAll }
    ensures back { KeptComesBack }
{}

/// Over every log a new realm says nothing to a boot's transports before the first Boot of that boot: each connected transport is of a boot
/// that has begun, an act takes effect in a live boot alone, and a step speaks to connected transports and to its act's own. Does not
/// allocate.
pub fn the_unbegun_are_told_nothing()
    ensures { UnbegunAreToldNothing }
{}
