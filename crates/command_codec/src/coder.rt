// The trait of coders, which spell the bodies of items in octets.
ghost use Rattle.std.specs.Prelude.{◌≡◌, ◌≢◌, ℕ, Option, List, Ok, Err, IfOk, IfErr};
ghost use Rattle.command_codec.specs.Coder.{Puts, IsReadAgain, IsSpelled};
ghost use Rattle.command_codec.specs.Number.{Reading};

use crate::fault::CodecFault;
use std::alloc::Global;

/// A coder of bodies: how they are spelled in octets. What is spelled is read again, whatever follows it, and what is read is spelled so:
/// thus no spelling is the beginning of another, and two spellings, each with anything after it, are equal octets only for equal bodies.
pub trait Coder<B> {
    ghost spelling: { B → Option (List ℕ) };

    ghost reading: { List ℕ → Reading B };

    /// Appends the body's spelling. Returns `Range` if it has none, and `Memory` if memory runs out; after a fault the octets are as they
    /// were.
    fn put(body: &B, out: &mut Vec<u8>) -> Result<(), CodecFault>
        ensures { Puts result (spelling body.now) out.old.items out.new.items };

    /// Returns the body at the head of the octets, and the octets after it; or the fault of the first octet that is wrong, or `Memory`.
    fn take(alloc: Global, octets: &[u8]) -> Result<(B, &[u8]), CodecFault>
        ensures taken { IfOk result (λ read. reading octets.now ≡ Ok (read.0, read.1.now)) }
        ensures fault { IfErr result (λ fault. fault ≢ CodecFault.Memory → reading octets.now ≡ Err fault) };

    ghost read_again: { IsReadAgain spelling reading };

    ghost spelled: { IsSpelled spelling reading };
}
