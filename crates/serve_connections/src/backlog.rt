// How many octets of a client's requests wait for its node, as its porter counts them, and when more is read of the client.
ghost use Rattle.std.specs.Prelude.{◌≡◌};
ghost use Rattle.serve_connections.specs.Backlog.{counted, may_read};

/// How many octets of a client's requests may wait for its node, and of the requests of all clients of a node, while more is read.
const MOST_OCTETS: usize = 1 << 20;

const MOST_OCTETS_IN_ALL: usize = 64 << 20;

// Returns how many octets are counted as waiting, of those that were read since the ring was found empty, if it holds this many requests.
pub(crate) fn count(octets: usize, requests: usize) -> usize
    ensures { result ≡ counted octets requests }
{
    if requests == 0 { 0 } else { octets }
}

// Returns whether more is read of a client of which `octets` wait, while `in_all` wait of all clients of the node.
pub(crate) fn has_room(octets: usize, in_all: usize) -> bool
    ensures { result ≡ may_read octets in_all }
{
    octets == 0 || octets < MOST_OCTETS && in_all < MOST_OCTETS_IN_ALL
}

// Returns whether as many octets wait of all clients of a node as may.
pub(crate) fn is_crowded(in_all: usize) -> bool {
    in_all >= MOST_OCTETS_IN_ALL
}
