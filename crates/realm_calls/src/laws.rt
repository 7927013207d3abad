//! Laws of open calls, each the contract of a function with an empty body.
ghost use Rattle.realm_calls.specs.Laws.{NoneAreSound, OpenKeepsSound, AnswerKeepsSound, CancelKeepsSound, CalleeKeepsSound};
ghost use Rattle.realm_calls.specs.Laws.{CallerKeepsSound, AnsweredOnce, EndedIsGone, LeavingEndsAll, LeavingNamesAll};

/// No two open calls have one caller and request, nor one callee and invocation: this holds at first, and each change keeps it. Does not
/// allocate.
pub fn open_calls_are_sound()
    ensures none { NoneAreSound }
    ensures opened { OpenKeepsSound }
    ensures answered { AnswerKeepsSound }
    ensures canceled { CancelKeepsSound }
    ensures callee { CalleeKeepsSound }
    ensures caller { CallerKeepsSound }
{}

/// An invocation is answered once, a call that has ended is not open any more, and no call of a session remains after it has left. Does not
/// allocate.
pub fn ended_calls_are_gone()
    ensures answered { AnsweredOnce }
    ensures ended { EndedIsGone }
    ensures left { LeavingEndsAll }
    ensures named { LeavingNamesAll }
{}
