//! Laws of the definitions alone.
ghost use Rattle.realm_codec.specs.Laws.{MessagesAreSpelled};

use wamp_messages::laws::read_again;

/// A message, with ids, payloads and texts as its types keep them, has a spelling exactly if its text is shorter than 2^32 octets. Does not
/// allocate.
pub fn messages_are_spelled()
    ensures { MessagesAreSpelled }
{
    read_again();
}
