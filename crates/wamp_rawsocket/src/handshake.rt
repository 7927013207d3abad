// How a client's handshake is judged: the terms, and each refusal.
ghost use Rattle.std.specs.Prelude.{◌≡◌};
ghost use Rattle.wamp_rawsocket.specs.Handshake.{answer_of, HasFramedLimit};

use crate::frame::LONGEST_PAYLOAD;
use crate::handshake_answer::Answer;

// The first octet of a handshake, either way.
const MAGIC: u8 = 0x7F;

// The serializer number of JSON.
const JSON: u8 = 1;

// The terms: frames of up to 2^20 octets of payload are received, in JSON.
const TERMS: [u8; 4] = [MAGIC, 0xB1, 0, 0];

// The refusals. The high half of the second octet is the error code.
const SERIALIZER_UNSUPPORTED: [u8; 4] = [MAGIC, 0x10, 0, 0];

const RESERVED_OCTETS_USED: [u8; 4] = [MAGIC, 0x30, 0, 0];

const TOO_MANY_CONNECTIONS: [u8; 4] = [MAGIC, 0x40, 0, 0];

/// Returns the answer to a client's handshake; `room` says whether one more connection is accepted.
///
/// A first octet other than `7F` gets no answer at all. Then these are refused, in this order: reserved octets that are not zero, a
/// serializer other than JSON, and a client for which there is no room. Does not allocate. (WAMP specification, "RawSocket Transport",
/// "Handshake".)
pub fn answer(octets: [u8; 4], room: bool) -> Answer
    ensures answer { result ≡ answer_of octets room }
    ensures limit { HasFramedLimit result }
{
    let [magic, offer, third, fourth] = octets;
    if magic != MAGIC {
        return Answer::Hang;
    }
    if third != 0 || fourth != 0 {
        return Answer::Refuse(RESERVED_OCTETS_USED);
    }
    if offer % 16 != JSON {
        return Answer::Refuse(SERIALIZER_UNSUPPORTED);
    }
    if !room {
        return Answer::Refuse(TOO_MANY_CONNECTIONS);
    }
    let exponent = 9 + u32::from(offer / 16);
    Answer::Terms {
        limit: (1 << exponent).min(LONGEST_PAYLOAD),
        octets: TERMS,
    }
}
