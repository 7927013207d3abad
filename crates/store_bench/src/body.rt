// The bodies of the measures, and their coder.
ghost use Rattle.std.specs.Prelude.{◌≡◌, ◌==◌, ℕ, List, refl, IfOk};
ghost use Rattle.std.specs.Cmp.Lexicographic.{pointwise, bytes_decides};
ghost use Rattle.store_bench.specs.Plain.{plain_spelling, plain_reading, plain_again, plain_spelled};

use command_codec::{CodecFault, Coder};
use paxos_packets::{Body, Memory};
use std::alloc::Global;
use std::marker::Model;

/// How many octets a body has: an Item with it has 200.
pub const LENGTH: usize = 178;

/// A body that is octets.
#[derive(Debug, Drop)]
pub struct Octets {
    octets: Vec<u8>,
}

impl Model for Octets {
    ghost Value = { List ℕ };

    ghost view = { λ o. o.octets.items };
}

impl Octets {
    /// Returns the body of these octets, copied; `Memory` if memory runs out.
    pub fn of(alloc: Global, octets: &[u8]) -> Result<Octets, Memory>
        ensures { IfOk result (λ body. body ≡ octets.now) }
    {
        Ok(Octets {
            octets: Vec::from_slice(alloc, octets)?,
        })
    }
}

impl Body for Octets {
    ghost same = { pointwise (λ x y. x == y) };

    fn copy(&self, alloc: Global) -> Result<Octets, Memory> {
        Octets::of(alloc, &self.octets)
    }

    fn same(&self, other: &Octets) -> bool {
        self.octets.as_slice() == other.octets.as_slice()
    }

    ghost reflexive = { λ xs. (bytes_decides xs xs).1 refl };

    ghost sound = { λ xs ys. (bytes_decides xs ys).0 };
}

/// Spells a body of `LENGTH` octets as these.
pub struct Plain;

impl Coder<Octets> for Plain {
    ghost spelling = { plain_spelling };

    ghost reading = { plain_reading };

    ghost read_again = { plain_again };

    ghost spelled = { plain_spelled };

    fn put(body: &Octets, out: &mut Vec<u8>) -> Result<(), CodecFault> {
        if body.octets.len() != LENGTH {
            return Err(CodecFault::Range);
        }
        out.extend_from_slice(body.octets.as_slice())?;
        Ok(())
    }

    fn take(alloc: Global, octets: &[u8]) -> Result<(Octets, &[u8]), CodecFault> {
        if octets.len() < LENGTH {
            return Err(CodecFault::Short);
        }
        let (front, rest) = octets.split_at(LENGTH);
        let Ok(body) = Octets::of(alloc, front) else {
            return Err(CodecFault::Memory);
        };
        Ok((body, rest))
    }
}
