// How many octets may wait for a client's stream while more of what is said to the client is taken.
ghost use Rattle.std.specs.Prelude.{◌≡◌};
ghost use Rattle.serve_connections.specs.Allowance.{most_waiting, may_take};

/// How many octets may wait for the stream of a client: as long as at most half of what may wait for all does, and once more does.
const MOST_WAITING: usize = 16 << 20;

const MOST_WAITING_CROWDED: usize = 1 << 20;

/// How many octets may wait for the streams of all clients of a node.
const MOST_WAITING_IN_ALL: usize = 64 << 20;

// Returns how many octets may wait for a client while `in_all` wait for all clients of the node.
fn most_waiting(in_all: usize) -> usize
    ensures { result ≡ most_waiting in_all }
{
    if in_all > MOST_WAITING_IN_ALL / 2 {
        MOST_WAITING_CROWDED
    } else {
        MOST_WAITING
    }
}

// Returns whether more is taken for a client for which `waiting` octets wait, while `in_all` wait for all clients of the node.
pub(crate) fn may_take(waiting: usize, in_all: usize) -> bool
    ensures { result ≡ may_take waiting in_all }
{
    waiting == 0 || waiting < most_waiting(in_all) && in_all < MOST_WAITING_IN_ALL
}
