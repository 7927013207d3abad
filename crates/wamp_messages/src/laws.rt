//! Laws of the definitions. Each is the contract of a function that does nothing.
ghost use Rattle.wamp_messages.specs.Laws.{ReadsAgain, FirstFaultIsTold};

/// A message is read back from what is written of it.
#[tactic(auto, using(crate::proofs::RoundTrip::read_again))]
pub fn read_again()
    ensures { ReadsAgain }
{}

/// For octets that are no message, the reported fault is the first that they have, in the order of the faults' numbers.
#[tactic(auto, using(crate::proofs::FirstFault::first_fault_is_told))]
pub fn first_fault_is_told()
    ensures { FirstFaultIsTold }
{}
