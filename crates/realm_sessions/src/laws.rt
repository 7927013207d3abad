//! Laws of sessions, each the contract of a function with an empty body.
ghost use Rattle.realm_sessions.specs.Laws.{NoneAreSound, ConnectKeepsSound, OpenKeepsSound, CloseKeepsSound, RemoveKeepsSound};
ghost use Rattle.realm_sessions.specs.Laws.{InvokeKeepsSound, FreeIdIsFound, OpensWhereRoom, LimitWhereFull};
ghost use Rattle.realm_sessions.specs.Laws.{FreeInvocationIsFree, NextIsFree, NoneWhereAllAreTaken, DueIsNext, InvokeKeepsPlaces};

/// Each transport is connected once, and no two sessions have one id: this holds at first, and each change keeps it. Does not allocate.
pub fn sessions_are_sound()
    ensures none { NoneAreSound }
    ensures connect { ConnectKeepsSound }
    ensures opened { OpenKeepsSound }
    ensures close { CloseKeepsSound }
    ensures remove { RemoveKeepsSound }
    ensures invoke { InvokeKeepsSound }
{}

/// While fewer than 2^53 sessions are open, the search for a new session's id ends at one that no session has. So `open` never runs out of
/// ids, and returns its fault exactly if the limit of open sessions is reached. Does not allocate.
pub fn session_ids_are_found()
    ensures found { FreeIdIsFound }
    ensures opens { OpensWhereRoom }
    ensures limit { LimitWhereFull }
{}

/// The id of an invocation is free, and is found unless all 2^53 are taken; if the one after the last is free, the other taken ids make no
/// difference. Handing it out changes neither where sessions are nor what they announced. Does not allocate.
pub fn invocation_ids_are_found()
    ensures free { FreeInvocationIsFree }
    ensures next { NextIsFree }
    ensures none { NoneWhereAllAreTaken }
    ensures due { DueIsNext }
    ensures places { InvokeKeepsPlaces }
{}
