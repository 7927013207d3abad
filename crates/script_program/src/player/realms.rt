// Makes the realms of a first world.
ghost use Rattle.std.specs.Prelude.{◌≡◌, [], IfOk, OnOk, vec_len, All};
ghost use Rattle.script_program.specs.Player.{first_realm};

use cluster_world::Memory;
use paxos_packets::Members;
use realm_machine::{Limits, Realm};
use realm_snapshot::KeptRealm;
use std::alloc::{AllocError, Global};

// Returns a realm of this name for each member, without transports.
pub(crate) fn realms_of(
    alloc: Global,
    members: Members,
    name: &str,
    limits: Limits,
) -> Result<Vec<KeptRealm>, Memory>
    ensures count { IfOk result (λ realms. vec_len realms ≡ members) }
    ensures each { IfOk result (λ realms. All (λ realm. realm ≡ first_realm (record { name = name.now; limits = limits })) realms.items) }
{
    let mut realms = Vec::new(alloc);
    let Ok(()) = put_realms(alloc, members.count(), name, limits, &mut realms) else {
        drop(realms);
        return Err(Memory);
    };
    Ok(realms)
}

// Appends `count` realms of this name.
fn put_realms(
    alloc: Global,
    count: u8,
    name: &str,
    limits: Limits,
    realms: &mut Vec<KeptRealm>,
) -> Result<(), AllocError>
    requires none { realms.old.items ≡ [] }
    ensures count { OnOk result (vec_len realms.new ≡ count) }
    ensures each { OnOk result (All (λ realm. realm ≡ first_realm (record { name = name.now; limits = limits })) realms.new.items) }
{
    realms.reserve(usize::from(count))?;
    for _member in 0..count {
        let name = String::from_str(alloc, name)?;
        let realm = Realm::new(alloc, name, limits);
        realms.push_reserved(KeptRealm::new(realm));
    }
    Ok(())
}
