// Turns the faults of the parts below into the program's.
ghost use Rattle.std.specs.Prelude.{◌≡◌};
ghost use Rattle.cluster_program.specs.Fault.{script_fault_of, serve_fault_of};

use client_listener::ListenFault;
use script_program::ScriptFault;
use serve_program::ServeFault;
use stream_program::RunFault;

// Returns the fault of a run whose script was not run to its end.
pub(crate) fn of_script(fault: ScriptFault) -> RunFault
    ensures { result ≡ script_fault_of fault }
{
    match fault {
        ScriptFault::Line(number) => RunFault::Line(number),
        ScriptFault::Memory => RunFault::Memory,
        ScriptFault::Read => RunFault::from(ListenFault::Read),
        ScriptFault::Write => RunFault::from(ListenFault::Write),
        ScriptFault::Reads => RunFault::from(ListenFault::Turns),
    }
}

// Returns the fault of a run whose cluster was not served to its end.
pub(crate) fn of_serve(fault: ServeFault) -> RunFault
    ensures { result ≡ serve_fault_of fault }
{
    match fault {
        ServeFault::Node { fault, .. } => RunFault::Store(fault.number()),
        ServeFault::Memory => RunFault::Memory,
        ServeFault::Port => RunFault::from(ListenFault::Read),
        ServeFault::Write => RunFault::from(ListenFault::Write),
    }
}
