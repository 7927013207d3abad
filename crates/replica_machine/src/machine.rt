//! The trait of machines, and the fault of one that has failed.
ghost use Rattle.std.specs.Prelude.{◌≡◌, ◌↔◌, ℕ, Bool, true, false, List, Option, Some, None, IfOk, IfSome, OnOk, OnErr};
ghost use Rattle.std.specs.Prelude.{IsErr, IsErrOf, IsOkUnless};
ghost use Rattle.paxos_packets.specs.declared.transport.Transport.{Transport};
ghost use Rattle.replica_machine.specs.declared.input.Input.{Input};
ghost use Rattle.replica_machine.specs.declared.fault.SaveFault.TheVariants as save;
ghost use Rattle.replica_machine.specs.declared.fault.LoadFault.TheVariants.{Damaged};
ghost use Rattle.replica_machine.specs.Given.{IsGiven};
ghost use Rattle.replica_machine.specs.Replay.{Steps};

use crate::fault::{LoadFault, SaveFault};
use crate::input::Input;
use paxos_packets::{Body, Transport};
use std::alloc::{AllocError, AllocFailed, Global};
use thiserror::Error;

/// The machine or the log has failed, perhaps because memory ran out: every later call returns this.
#[derive(Clone, Copy, Debug, PartialEq, Eq, Drop, Error)]
#[error("the machine has failed")]
pub struct Failed;

impl From<AllocError> for Failed {
    fn from(_: AllocError) -> Failed {
        Failed
    }
}

impl<T: Drop> From<AllocFailed<T>> for Failed {
    fn from(_: AllocFailed<T>) -> Failed {
        Failed
    }
}

impl Failed {
    /// Returns the fault's number.
    pub fn number(self) -> u8
        ensures { result ≡ 48 }
    {
        48
    }
}

/// A state machine that follows a log (Lamport, Paxos Made Simple, 2001, section 3): what it becomes and what it says are functions of what
/// it was and of its input, so that all machines that begin alike and follow one log stay alike.
pub trait Machine: Drop {
    /// The content of an act.
    type Body: Body;

    /// What is said to a transport.
    type Say: Drop;

    ghost Content: { Type 0 };

    ghost content: { Self → Content };

    ghost has_failed: { Self → Bool };

    ghost steps: { Steps Self.Body Content Self.Say };

    ghost saved: { Content → List ℕ };

    ghost loaded: { List ℕ → Option Content };

    ghost is_sound: { Content → Type 0 };

    /// Applies an input, and returns what is said at it, in order. After an error the machine has failed, each later call returns the same
    /// error, and its content has no meaning.
    fn apply(&mut self, input: &Input<Self::Body>) -> Result<Vec<Self::Say>, Failed>
        ensures content { OnOk result (content self.new ≡ steps.next (content self.old) input.now) }
        ensures says { IfOk result (λ said. said.items ≡ steps.says (content self.old) input.now) }
        ensures alive { OnOk result (has_failed self.new ≡ false) }
        ensures fails { OnErr result (has_failed self.new ≡ true) }
        ensures stays_failed { has_failed self.old ≡ true → IsErr result };

    /// Returns the transport that a saying is for. Does not allocate.
    fn to(say: &Self::Say) -> Transport
        ensures { result ≡ steps.to say.now };

    /// Returns the octets of its content, a function of that.
    ///
    /// Fails with `Failed`, exactly if the machine has failed, and with `Memory`. `load` of the octets of a sound content has that content;
    /// `load` of the octets of any other has that content, too, or fails.
    fn save(&self, alloc: Global) -> Result<Vec<u8>, SaveFault>
        ensures failed { IsErrOf result save.Failed ↔ (has_failed self.now ≡ true) }
        ensures octets { IfOk result (λ octets. octets.items ≡ saved (content self.now)) }
        ensures back { is_sound (content self.now) → IfOk result (λ octets. loaded octets.items ≡ Some (content self.now)) }
        ensures only { IfOk result (λ octets. IfSome (loaded octets.items) (λ made. made ≡ content self.now)) }
        ensures fault { has_failed self.now ≡ false → IsOkUnless result save.Memory };

    /// Returns a machine that has not failed, with the content that these octets are.
    ///
    /// Fails with `Damaged` if they are none, and with `Memory`.
    fn load(alloc: Global, octets: &[u8]) -> Result<Self, LoadFault>
        ensures content { IfOk result (λ made. loaded octets.now ≡ Some (content made)) }
        ensures alive { IfOk result (λ made. has_failed made ≡ false) }
        ensures damaged { IsErrOf result Damaged → loaded octets.now ≡ None };

    /// A content stays sound at each input whose node, boot and transport are ones.
    ghost keeps: { (s : Content) (input : Input Self.Body) → IsGiven input → is_sound s → is_sound (steps.next s input) };
}
