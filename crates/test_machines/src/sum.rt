//! A sum as octets, and the sum that octets are.
ghost use Rattle.std.specs.Prelude.{◌≡◌, Some, None, IfOk, IfSome, IsErrOf, IsOkUnless};
ghost use Rattle.replica_machine.specs.declared.fault.SaveFault.TheVariants as save;
ghost use Rattle.replica_machine.specs.declared.fault.LoadFault.TheVariants.{Damaged};
ghost use Rattle.test_machines.specs.Sum.{saved_sum, loaded_sum};

use command_codec::{Form, take_number};
use replica_machine::{LoadFault, SaveFault};
use std::alloc::Global;

const SUM: Form = Form {
    width: 8,
    low: 0,
    high: 18_446_744_073_709_551_615,
};

// Returns the octets of a sum.
pub(crate) fn save(alloc: Global, sum: u64) -> Result<Vec<u8>, SaveFault>
    ensures octets { IfOk result (λ octets. octets.items ≡ saved_sum sum) }
    ensures back { IfOk result (λ octets. loaded_sum octets.items ≡ Some sum) }
    ensures only { IfOk result (λ octets. IfSome (loaded_sum octets.items) (λ made. made ≡ sum)) }
    ensures fault { IsOkUnless result save.Memory }
{
    let mut octets = Vec::new(alloc);
    octets.extend_from_slice(&sum.to_be_bytes())?;
    Ok(octets)
}

// Returns the sum that these octets are.
pub(crate) fn load(octets: &[u8]) -> Result<u64, LoadFault>
    ensures sum { IfOk result (λ sum. loaded_sum octets.now ≡ Some sum) }
    ensures damaged { IsErrOf result Damaged → loaded_sum octets.now ≡ None }
{
    let Ok((sum, rest)) = take_number(SUM, octets) else {
        return Err(LoadFault::Damaged);
    };
    if !rest.is_empty() {
        return Err(LoadFault::Damaged);
    }
    Ok(sum)
}
