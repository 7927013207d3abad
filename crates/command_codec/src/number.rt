// Numbers as octets, the highest first: the forms of an entry's numbers, and how one is read.
ghost use Rattle.std.specs.Prelude.{◌≡◌, ◌+◌, ◌<◌, ◌≤◌, ◌||◌, nat_lt, Ok, Err, IfOk, MatchResult};
ghost use Rattle.command_codec.specs.Number.{cut, number_from, number_reading, is_within};

use crate::fault::CodecFault;

/// How a number is spelled: in `width` octets, 1 to 8, the highest first, from `low` to `high`.
#[derive(Clone, Copy, Debug, PartialEq, Eq)]
pub struct Form {
    pub width: u32,
    pub low: u64,
    pub high: u64,
}

/// A node: 1 to 7.
pub(crate) const NODE: Form = Form {
    width: 1,
    low: 1,
    high: 7,
};

/// A boot: 1 to 2^48 - 1.
pub(crate) const BOOT: Form = Form {
    width: 8,
    low: 1,
    high: 281_474_976_710_655,
};

/// An Item's number in its boot: 1 to 2^48 - 1.
pub(crate) const SEQ: Form = Form {
    width: 8,
    low: 1,
    high: 281_474_976_710_655,
};

/// A transport's number in its boot: 1 to 2^32 - 1.
pub(crate) const TRANSPORT: Form = Form {
    width: 4,
    low: 1,
    high: 4_294_967_295,
};

impl Form {
    // Returns whether the number has a spelling.
    pub(crate) fn contains(&self, number: u64) -> bool
        ensures { result ≡ is_within self.now number }
    {
        self.low <= number && number <= self.high
    }
}

/// Returns the number at the head of the octets, and the octets after it: `Short` if an octet is missing, `Range` at the first octet after
/// which it cannot be in its range. Does not allocate.
#[tactic(auto, unfolding(crate::specs::Number::number_reading))]
pub fn take_number(form: Form, octets: &[u8]) -> Result<(u64, &[u8]), CodecFault>
    requires least { 0 < form.width }
    requires most { form.width ≤ 8 }
    ensures reading { MatchResult result (λ read. number_reading form octets.now ≡ Ok (read.0, read.1.now))
        (λ fault. number_reading form octets.now ≡ Err fault) }
    ensures within { IfOk result (λ read. (form.low ≤ read.0) × (read.0 ≤ form.high)) }
{
    let (number, rest) = take_from(0, form.width, form.low, form.high, octets)?;
    Ok((number, rest))
}

// Reads the rest of a number, of which `so_far` has come and `left` octets are missing.
fn take_from(
    so_far: u64,
    left: u32,
    low: u64,
    high: u64,
    octets: &[u8],
) -> Result<(u64, &[u8]), CodecFault>
    requires { left ≤ 8 }
    ensures { MatchResult result (λ read. number_from so_far left low high octets.now ≡ Ok (read.0, read.1.now))
        (λ fault. number_from so_far left low high octets.now ≡ Err fault) }
{
    if left == 0 {
        return Ok((so_far, octets));
    }
    let Some((octet, rest)) = octets.split_first() else {
        return Err(CodecFault::Short);
    };
    if so_far >= 1 << 56 {
        return Err(CodecFault::Range);
    }
    let come = so_far * 256 + u64::from(*octet);
    let after = left - 1;
    if is_beyond(come, after, low, high) {
        return Err(CodecFault::Range);
    }
    take_from(come, after, low, high, rest)
}

// Returns whether the leading octets of a number are below those of its range, or above them.
fn is_beyond(come: u64, left: u32, low: u64, high: u64) -> bool
    requires { left < 8 }
    ensures { result ≡ (nat_lt come (cut low left) || nat_lt (cut high left) come) }
{
    come < low >> (8 * left) || high >> (8 * left) < come
}
