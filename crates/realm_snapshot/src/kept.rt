//! The realm with its saving and loading, as a log's machine needs it.
ghost use Rattle.std.specs.Prelude.{◌≡◌, ◌↔◌, true, false, Some, IfOk, IfSome, IsErrOf, IsOkUnless, option_map};
ghost use Rattle.replica_machine.specs.declared.fault.SaveFault.TheVariants as fault;
ghost use Rattle.realm_machine.specs.Machine.{live_of, has_failed};
ghost use Rattle.realm_snapshot.specs.Fault.{Loads};
ghost use Rattle.realm_snapshot.specs.Writing.{saved};
ghost use Rattle.realm_snapshot.specs.Snapshot.{loaded, state_of, IsSavable};

use crate::snapshot::{load, save};
use realm_machine::Realm;
use replica_machine::{LoadFault, SaveFault};
use std::alloc::Global;
use std::marker::Model;

/// A realm that is saved and loaded. To contracts it is the realm.
pub struct KeptRealm {
    pub(crate) realm: Realm,
}

impl Drop for KeptRealm {
    fn drop(self) {
        let KeptRealm { realm: _realm } = self;
    }
}

impl Model for KeptRealm {
    ghost use Rattle.realm_machine.specs.Realm.{State};

    ghost Value = { State };

    ghost view = { λ a. a.realm };
}

impl KeptRealm {
    /// Returns this realm as one that is saved and loaded. Does not allocate.
    pub fn new(realm: Realm) -> KeptRealm
        ensures { result ≡ realm }
    {
        KeptRealm { realm }
    }

    /// Returns the realm. Does not allocate.
    pub fn realm(&self) -> &Realm
        ensures { result.now ≡ self.now }
    {
        &self.realm
    }

    /// Returns the realm, which is saved and loaded no more. Does not allocate.
    pub fn into_realm(self) -> Realm
        ensures { result ≡ self }
    {
        let KeptRealm { realm } = self;
        realm
    }

    /// Returns the realm's octets, as `save` does.
    pub fn save(&self, alloc: Global) -> Result<Vec<u8>, SaveFault>
        ensures failed { IsErrOf result fault.Failed ↔ (has_failed self.now ≡ true) }
        ensures octets { IfOk result (λ octets. octets.items ≡ saved (live_of self.now)) }
        ensures back { IsSavable (live_of self.now) → IfOk result (λ octets. loaded octets.items ≡ Some (live_of self.now)) }
        ensures only { IfOk result (λ octets. IfSome (loaded octets.items) (λ made. made ≡ live_of self.now)) }
        ensures fault { has_failed self.now ≡ false → IsOkUnless result fault.Memory }
    {
        save(alloc, &self.realm)
    }

    /// Returns the realm that these octets are, as `load` does.
    pub fn load(alloc: Global, octets: &[u8]) -> Result<KeptRealm, LoadFault>
        ensures { Loads result (option_map state_of (loaded octets.now)) }
    {
        let realm = load(alloc, octets)?;
        Ok(KeptRealm { realm })
    }
}
