// What a node's thread needs: a source of machines, and a feed that notes boots, and why another one begins.
ghost use Rattle.std.specs.Prelude.{◌≡◌, [], false, IfOk};

use actor_run::RoundFeed;
use replica_machine::Machine;
use std::alloc::{AllocError, Global};

/// Makes the machine of a node, for each of its boots.
pub(crate) trait Source<M: Machine> {
    /// Makes a machine in its first content, which has not failed.
    fn make_machine(&self, alloc: Global) -> Result<M, AllocError>
        ensures { IfOk result (λ machine. M.has_failed machine ≡ false) };
}

/// Why a node begins another boot.
#[derive(Clone, Copy)]
pub(crate) enum Cause {
    /// It was lost in its boot.
    Lost,
    /// It was behind the other nodes for good.
    Behind,
}

/// A feed that notes its node's boots.
pub(crate) trait Boots<B, Y>: RoundFeed<B, Y> {
    /// Notes that the node is up in this boot, the first one of its run: nothing was given or got in it yet.
    fn up(&mut self, node: u8, boot: u64)
        ensures { Self.saw self.new [] [] };

    /// Notes that the node is up again in this boot, and why: nothing was given or got in it yet.
    fn up_again(&mut self, node: u8, boot: u64, cause: Cause)
        ensures { Self.saw self.new [] [] };

    /// Returns whether the node is behind for good in its boot, which ends its run.
    fn is_behind(&self) -> bool;
}
