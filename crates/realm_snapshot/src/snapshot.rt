//! A realm as octets, and the realm that octets are.
ghost use Rattle.std.specs.Prelude.{◌≡◌, ◌↔◌, true, false, Some, IfOk, IfSome, IsErrOf, IsOkUnless, option_map};
ghost use Rattle.replica_machine.specs.declared.fault.SaveFault.TheVariants as fault;
ghost use Rattle.realm_machine.specs.Content.{limits_in};
ghost use Rattle.realm_machine.specs.Machine.{live_of, has_failed};
ghost use Rattle.realm_snapshot.specs.Fault.{Loads};
ghost use Rattle.realm_snapshot.specs.Writing.{saved};
ghost use Rattle.realm_snapshot.specs.Snapshot.{loaded, state_of, IsSavable};

use crate::fault::of_restore;
use crate::reading::read;
use crate::writing::put_realm;
use realm_machine::{Parts, Realm};
use replica_machine::{LoadFault, SaveFault};
use std::alloc::Global;

/// Returns the octets of the realm: what it is made with and what it holds. They are those of an equal realm, if a realm is made of these
/// lists (`Realm::of_parts`); of no other in any case.
///
/// Fails with `Failed`, exactly if the realm has failed, and with `Memory`.
///
/// Cost: linear in what the realm holds.
pub fn save(alloc: Global, realm: &Realm) -> Result<Vec<u8>, SaveFault>
    ensures failed { IsErrOf result fault.Failed ↔ (has_failed realm.now ≡ true) }
    ensures octets { IfOk result (λ octets. octets.items ≡ saved (live_of realm.now)) }
    ensures back { IsSavable (live_of realm.now) → IfOk result (λ octets. loaded octets.items ≡ Some (live_of realm.now)) }
    ensures only { IfOk result (λ octets. IfSome (loaded octets.items) (λ made. made ≡ live_of realm.now)) }
    ensures fault { has_failed realm.now ≡ false → IsOkUnless result fault.Memory }
{
    match realm.parts() {
        Ok(parts) => written(alloc, &parts),
        Err(_) => Err(SaveFault::Failed),
    }
}

// Returns the octets of a realm of these parts.
fn written(alloc: Global, parts: &Parts<'_>) -> Result<Vec<u8>, SaveFault>
    ensures octets { IfOk result (λ octets. octets.items ≡ saved parts.now) }
    ensures back { IsSavable parts.now → IfOk result (λ octets. loaded octets.items ≡ Some parts.now) }
    ensures only { limits_in parts.now.content ≡ parts.now.config.limits
        → IfOk result (λ octets. IfSome (loaded octets.items) (λ made. made ≡ parts.now)) }
    ensures fault { IsOkUnless result fault.Memory }
{
    let mut octets = Vec::new(alloc);
    put_realm(alloc, parts, &mut octets)?;
    Ok(octets)
}

/// Returns the realm that these octets are.
///
/// Fails with `Damaged` if they are none: if octets are missing or left, a number is out of its range, the name is no UTF-8, a pattern's
/// text none, or if no realm is made of what they say (`Realm::of_parts`); and with `Memory`.
///
/// Cost: linear in the octets, but for the look-ups of transports, sessions, patterns and calls, each of them once or twice.
pub fn load(alloc: Global, octets: &[u8]) -> Result<Realm, LoadFault>
    ensures { Loads result (option_map state_of (loaded octets.now)) }
{
    let made = read(alloc, octets)?;
    let realm = Realm::of_parts(alloc, made.name.as_str(), made.limits, &made.lists);
    drop(made);
    match realm {
        Ok(realm) => Ok(realm),
        Err(fault) => Err(of_restore(fault)),
    }
}
