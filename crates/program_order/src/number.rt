// Numbers on the command line.
ghost use Rattle.std.specs.Prelude.{◌≡◌, ◌<◌, ◌^◌};
ghost use Rattle.program_order.specs.Number.{begins_with_digit, number_in};

// Returns the number up to `most` that the text writes in digits.
pub(crate) fn number_in(text: &str, most: u64) -> Option<u64>
    ensures { result ≡ number_in most text.now }
{
    if !begins_with_digit(text.as_bytes()) {
        return None;
    }
    let Ok(number) = text.parse::<u64>() else {
        return None;
    };
    if number <= most { Some(number) } else { None }
}

fn begins_with_digit(octets: &[u8]) -> bool
    ensures { result ≡ begins_with_digit octets.now }
{
    match octets.first() {
        Some(first) => (b'0'..=b'9').contains(first),
        None => false,
    }
}
