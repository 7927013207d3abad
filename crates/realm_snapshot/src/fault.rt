//! The faults of what lies below as the faults of loading.
ghost use Rattle.std.specs.Prelude.{◌≡◌};
ghost use Rattle.realm_snapshot.specs.Fault.{of_restore};

use realm_sessions::RestoreFault;
use replica_machine::LoadFault;

// Returns the fault of lists that no realm has.
pub(crate) fn of_restore(fault: RestoreFault) -> LoadFault
    ensures { result ≡ of_restore fault }
{
    match fault {
        RestoreFault::Damaged => LoadFault::Damaged,
        RestoreFault::Memory => LoadFault::Memory,
    }
}
