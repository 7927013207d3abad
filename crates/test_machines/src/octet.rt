//! The coder of numbers.
ghost use Rattle.test_machines.specs.Octet.{octet_spelling, octet_reading, octet_again, octet_spelled};

use crate::number::Number;
use command_codec::{CodecFault, Coder};
use std::alloc::Global;

/// Spells a number below 256 as one octet.
pub struct Octet;

impl Coder<Number> for Octet {
    ghost spelling = { octet_spelling };

    ghost reading = { octet_reading };

    ghost read_again = { octet_again };

    ghost spelled = { octet_spelled };

    fn put(body: &Number, out: &mut Vec<u8>) -> Result<(), CodecFault> {
        let value = body.get();
        if value >= 256 {
            return Err(CodecFault::Range);
        }
        out.push(value as u8)?;
        Ok(())
    }

    fn take(_alloc: Global, octets: &[u8]) -> Result<(Number, &[u8]), CodecFault> {
        let [octet, rest @ ..] = octets else {
            return Err(CodecFault::Short);
        };
        Ok((Number::new(u32::from(*octet)), rest))
    }
}
