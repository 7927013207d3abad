//! The numbers in a snapshot, and the numbers that stand for something else.
ghost use Rattle.std.specs.Prelude.{◌≡◌};
ghost use Rattle.realm_snapshot.specs.Writing.{match_number, invoke_number};
ghost use Rattle.realm_snapshot.specs.Reading.{match_of, invoke_of};

use command_codec::Form;
use wamp_ids::{Invoke, LAST_ID, Match};

// The version of the layout.
pub(crate) const VERSION: Form = Form {
    width: 1,
    low: 1,
    high: 1,
};

// How many there are of something.
pub(crate) const COUNT: Form = Form {
    width: 8,
    low: 0,
    high: 18_446_744_073_709_551_615,
};

// How many octets a pattern's text has.
pub(crate) const LENGTH: Form = Form {
    width: 2,
    low: 0,
    high: 65_535,
};

pub(crate) const LIMIT: Form = Form {
    width: 4,
    low: 0,
    high: 4_294_967_295,
};

pub(crate) const NODE: Form = Form {
    width: 1,
    low: 1,
    high: 7,
};

pub(crate) const BOOT: Form = Form {
    width: 8,
    low: 1,
    high: 281_474_976_710_655,
};

pub(crate) const TRANSPORT: Form = Form {
    width: 4,
    low: 1,
    high: 4_294_967_295,
};

pub(crate) const ID: Form = Form {
    width: 8,
    low: 1,
    high: LAST_ID,
};

// An id, or 0 for none.
pub(crate) const ID_OR_NONE: Form = Form {
    width: 8,
    low: 0,
    high: LAST_ID,
};

// No or yes.
pub(crate) const FLAG: Form = Form {
    width: 1,
    low: 0,
    high: 1,
};

pub(crate) const MATCH: Form = Form {
    width: 1,
    low: 0,
    high: 2,
};

pub(crate) const INVOKE: Form = Form {
    width: 1,
    low: 0,
    high: 3,
};

pub(crate) fn match_number(matching: Match) -> u8
    ensures { result ≡ match_number matching }
{
    match matching {
        Match::Exact => 0,
        Match::Prefix => 1,
        Match::Wildcard => 2,
    }
}

pub(crate) fn match_of(number: u64) -> Match
    ensures { result ≡ match_of number }
{
    if number == 0 {
        Match::Exact
    } else if number == 1 {
        Match::Prefix
    } else {
        Match::Wildcard
    }
}

pub(crate) fn invoke_number(invoke: Invoke) -> u8
    ensures { result ≡ invoke_number invoke }
{
    match invoke {
        Invoke::Single => 0,
        Invoke::First => 1,
        Invoke::Last => 2,
        Invoke::RoundRobin => 3,
    }
}

pub(crate) fn invoke_of(number: u64) -> Invoke
    ensures { result ≡ invoke_of number }
{
    if number == 0 {
        Invoke::Single
    } else if number == 1 {
        Invoke::First
    } else if number == 2 {
        Invoke::Last
    } else {
        Invoke::RoundRobin
    }
}
