//! The realm as a log's machine: what it does at each input.
use crate::kept::KeptRealm;
use realm_machine::{Act, Say, Transport};
use replica_machine::{Failed, Input, LoadFault, Machine, SaveFault};
use std::alloc::Global;

// A boot's begin and a node's loss end what the node's earlier boot had; an item is an act of its transport.
impl Machine for KeptRealm {
    type Body = Act;

    type Say = Say;

    ghost use Rattle.realm_machine.specs.Machine.{Live, live_of, has_failed, live_steps};
    ghost use Rattle.realm_laws.specs.Kept.{IsKept};
    ghost use Rattle.realm_laws.proofs.Kept.{input_kept};
    ghost use Rattle.realm_snapshot.specs.Writing.{saved};
    ghost use Rattle.realm_snapshot.specs.Snapshot.{loaded};

    ghost Content = { Live };

    ghost content = { live_of };

    ghost has_failed = { has_failed };

    ghost steps = { live_steps };

    ghost saved = { saved };

    ghost loaded = { loaded };

    ghost is_sound = { λ live. IsKept live.config live.content };

    ghost keeps = { λ live input given sound. input_kept live.config live.content input given sound };

    fn apply(&mut self, input: &Input<Act>) -> Result<Vec<Say>, Failed> {
        match input {
            Input::Boot { node, boot: _ } => self.realm.gone(*node),
            Input::Lost { node, boot: _ } => self.realm.gone(*node),
            Input::Item { transport, body } => self.realm.act(*transport, body),
        }
    }

    fn to(say: &Say) -> Transport {
        say.transport
    }

    fn save(&self, alloc: Global) -> Result<Vec<u8>, SaveFault> {
        KeptRealm::save(self, alloc)
    }

    fn load(alloc: Global, octets: &[u8]) -> Result<KeptRealm, LoadFault> {
        KeptRealm::load(alloc, octets)
    }
}
