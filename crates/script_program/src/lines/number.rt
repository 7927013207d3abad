// Numbers in the lines of a script.
ghost use Rattle.std.specs.Prelude.{◌≡◌, ◌<◌, ◌^◌};
ghost use Rattle.script_program.specs.Number.{begins_with_digit, number_in};

// Returns the number from 1 to `most` that the word writes: digits without a sign or leading zeros.
pub(crate) fn number_in(word: &str, most: u64) -> Option<u64>
    ensures { result ≡ number_in most word.now }
{
    if !begins_with_digit(word.as_bytes()) {
        return None;
    }
    let Ok(number) = word.parse::<u64>() else {
        return None;
    };
    if number <= most { Some(number) } else { None }
}

// Returns whether the first octet is a digit other than zero.
fn begins_with_digit(octets: &[u8]) -> bool
    ensures { result ≡ begins_with_digit octets.now }
{
    match octets.first() {
        Some(first) => (b'1'..=b'9').contains(first),
        None => false,
    }
}
