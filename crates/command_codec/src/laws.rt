//! Laws of the spellings, each the contract of a function that does nothing.
ghost use Rattle.command_codec.specs.Coder.{IsReadAgain, IsSpelled};
ghost use Rattle.command_codec.specs.Entry.{entry_spelling, entry_front};
ghost use Rattle.command_codec.specs.Laws.{AreApart};

use crate::coder::Coder;

/// No spelling of an entry is the beginning of another's: so what was written is read again, whatever follows, and what is read was written
/// so. Does not allocate.
pub fn spellings_are_apart<B, C: Coder<B>>()
    ensures apart { AreApart (entry_spelling C.spelling) }
    ensures read_again { IsReadAgain (entry_spelling C.spelling) (entry_front C.reading) }
    ensures spelled { IsSpelled (entry_spelling C.spelling) (entry_front C.reading) }
{}
