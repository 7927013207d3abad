//! The fault of a step, and which faults of other crates become it.
use realm_sessions::RealmFault;
use std::alloc::{AllocError, AllocFailed};

// Memory ran out. A step of the realm fails for no other reason, and the realm fails with it.
#[derive(Clone, Copy, Debug)]
pub struct Memory;

impl From<AllocError> for Memory {
    fn from(_error: AllocError) -> Memory {
        Memory
    }
}

impl<T: Drop> From<AllocFailed<T>> for Memory {
    fn from(_error: AllocFailed<T>) -> Memory {
        Memory
    }
}

impl From<wamp_ids::Memory> for Memory {
    fn from(_error: wamp_ids::Memory) -> Memory {
        Memory
    }
}

impl From<wamp_values::Memory> for Memory {
    fn from(_error: wamp_values::Memory) -> Memory {
        Memory
    }
}

// Only `RealmFault::Memory` gets here: the realm answers a part's other faults itself.
impl From<RealmFault> for Memory {
    fn from(_error: RealmFault) -> Memory {
        Memory
    }
}
