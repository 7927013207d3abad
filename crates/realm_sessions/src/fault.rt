//! The faults of a realm's parts: their numbers, and the URIs of the ERRORs for them.
ghost use Rattle.std.specs.Prelude.{◌≡◌, option_map};
ghost use Rattle.realm_sessions.specs.Fault.{number_of, uri_of};

use std::alloc::{AllocError, AllocFailed};
use thiserror::Error;

/// The URI of an ERROR: a URI is none, or is the router's own (WAMP specification, "Predefined URIs").
pub const INVALID_URI: &str = "wamp.error.invalid_uri";

/// The URI of an ERROR: an argument is invalid (WAMP specification, "Predefined URIs").
pub const INVALID_ARGUMENT: &str = "wamp.error.invalid_argument";

/// The URI of an ERROR: no more are allowed (docs/PROTOCOL.md, "The realm").
pub const LIMIT: &str = "cluster.error.limit";

/// The URI of an ERROR: the procedure is registered already (WAMP specification, "Predefined URIs").
pub const ALREADY_EXISTS: &str = "wamp.error.procedure_already_exists";

/// The URI of an ERROR: there is no such registration (WAMP specification, "Predefined URIs").
pub const NO_SUCH_REGISTRATION: &str = "wamp.error.no_such_registration";

/// The URI of an ERROR: there is no such subscription (WAMP specification, "Predefined URIs").
pub const NO_SUCH_SUBSCRIPTION: &str = "wamp.error.no_such_subscription";

/// The URI of an ERROR: there is no such procedure (WAMP specification, "Predefined URIs").
pub const NO_SUCH_PROCEDURE: &str = "wamp.error.no_such_procedure";

/// Why a part of a realm refuses a call.
#[derive(Clone, Copy, Debug, PartialEq, Eq, Hash, Error)]
pub enum RealmFault {
    #[error("the URI is none, or is the router's own")]
    InvalidUri,
    #[error("an argument is invalid")]
    InvalidArgument,
    #[error("no more are allowed")]
    Limit,
    #[error("the procedure is registered already")]
    AlreadyExists,
    #[error("there is no such registration")]
    NoSuchRegistration,
    #[error("there is no such subscription")]
    NoSuchSubscription,
    #[error("there is no such procedure")]
    NoSuchProcedure,
    #[error("no such call is open")]
    NotOpen,
    #[error("out of memory")]
    Memory,
}

impl RealmFault {
    /// Returns the fault's number, 101 to 109.
    pub fn number(self) -> u8
        ensures { result ≡ number_of self }
    {
        match self {
            RealmFault::InvalidUri => 101,
            RealmFault::InvalidArgument => 102,
            RealmFault::Limit => 103,
            RealmFault::AlreadyExists => 104,
            RealmFault::NoSuchRegistration => 105,
            RealmFault::NoSuchSubscription => 106,
            RealmFault::NoSuchProcedure => 107,
            RealmFault::NotOpen => 108,
            RealmFault::Memory => 109,
        }
    }

    /// Returns the URI that an ERROR names for the fault (WAMP specification, "Predefined URIs"; the limit's is this profile's): the first
    /// seven faults have one. Does not allocate.
    pub fn uri(self) -> Option<&'static str>
        ensures { option_map (λ text. text.now) result ≡ uri_of self }
    {
        match self {
            RealmFault::InvalidUri => Some(INVALID_URI),
            RealmFault::InvalidArgument => Some(INVALID_ARGUMENT),
            RealmFault::Limit => Some(LIMIT),
            RealmFault::AlreadyExists => Some(ALREADY_EXISTS),
            RealmFault::NoSuchRegistration => Some(NO_SUCH_REGISTRATION),
            RealmFault::NoSuchSubscription => Some(NO_SUCH_SUBSCRIPTION),
            RealmFault::NoSuchProcedure => Some(NO_SUCH_PROCEDURE),
            RealmFault::NotOpen => None,
            RealmFault::Memory => None,
        }
    }
}

impl From<AllocError> for RealmFault {
    ghost use Rattle.realm_sessions.specs.declared.fault.RealmFault.TheVariants.{Memory};

    ghost from_gives = { λ _ e. e ≡ Memory };

    fn from(_error: AllocError) -> RealmFault {
        RealmFault::Memory
    }
}

impl<T: Drop> From<AllocFailed<T>> for RealmFault {
    ghost use Rattle.realm_sessions.specs.declared.fault.RealmFault.TheVariants.{Memory};

    ghost from_gives = { λ _ e. e ≡ Memory };

    fn from(_error: AllocFailed<T>) -> RealmFault {
        RealmFault::Memory
    }
}

/// Why a part of a realm is not made of a list of what it is to hold.
#[derive(Clone, Copy, Debug, PartialEq, Eq, Hash, Error)]
pub enum RestoreFault {
    #[error("no realm holds this")]
    Damaged,
    #[error("out of memory")]
    Memory,
}

// Only `RealmFault::Memory` gets here: what else a part refuses is looked at before.
impl From<RealmFault> for RestoreFault {
    ghost use Rattle.realm_sessions.specs.declared.fault.RestoreFault.TheVariants.{Memory};

    ghost from_gives = { λ _ e. e ≡ Memory };

    fn from(_error: RealmFault) -> RestoreFault {
        RestoreFault::Memory
    }
}

impl From<AllocError> for RestoreFault {
    ghost use Rattle.realm_sessions.specs.declared.fault.RestoreFault.TheVariants.{Memory};

    ghost from_gives = { λ _ e. e ≡ Memory };

    fn from(_error: AllocError) -> RestoreFault {
        RestoreFault::Memory
    }
}

impl From<wamp_ids::Memory> for RestoreFault {
    ghost use Rattle.realm_sessions.specs.declared.fault.RestoreFault.TheVariants.{Memory};

    ghost from_gives = { λ _ e. e ≡ Memory };

    fn from(_error: wamp_ids::Memory) -> RestoreFault {
        RestoreFault::Memory
    }
}
