//! Laws of registrations, each the contract of a function with an empty body.
ghost use Rattle.realm_registrations.specs.Laws.{NoneAreSound, RegisterKeepsSound, UnregisterKeepsSound, LeaveKeepsSound, TurnKeepsSound};
ghost use Rattle.realm_registrations.specs.Laws.{CallsKeepSound, CalledWhereMatched};

/// Whatever calls were made, there is at most one registration for each text and match; each has a callee, under `Single` exactly one, and
/// none twice; ids rise, and none is above the last one that was handed out. Each change keeps this. Does not allocate.
pub fn registrations_are_sound()
    ensures none { NoneAreSound }
    ensures register { RegisterKeepsSound }
    ensures unregister { UnregisterKeepsSound }
    ensures leave { LeaveKeepsSound }
    ensures turn { TurnKeepsSound }
    ensures every { CallsKeepSound }
{}

/// In sound registrations a callee is chosen exactly if some registration matches the procedure. Does not allocate.
pub fn a_callee_is_found()
    ensures { CalledWhereMatched }
{}
