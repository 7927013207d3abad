// When a node cuts its log.
ghost use Rattle.std.specs.Prelude.{◌≡◌};
ghost use Rattle.serve_policy.specs.Cutting.{is_long, rest_after};

/// From how many entries above its floor on a log is cut.
const LEAST_ENTRIES: u64 = 4096;

/// The same while many packets wait for a member.
const MANY_ENTRIES: u64 = 65_536;

/// The same while a member is owed entries.
const MOST_ENTRIES: u64 = 131_072;

/// The number of packets that may wait for a member that keeps up.
const MOST_WAITING: usize = 256;

/// How many times as long as a cut took the next one waits.
const REST: u64 = 4;

/// Returns whether a log with this many entries above its floor is long enough to be cut, if this many packets wait for the member for which
/// most do, and `is_owed` says whether a member is owed entries: with 4,096 entries, with 65,536 if more than 256 packets wait, or with 131,072
/// if a member is owed entries. Takes constant time.
pub const fn is_long(entries: u64, waiting: usize, is_owed: bool) -> bool
    ensures { result ≡ is_long entries waiting is_owed }
{
    if is_owed {
        return entries >= MOST_ENTRIES;
    }
    entries >= MANY_ENTRIES || entries >= LEAST_ENTRIES && waiting <= MOST_WAITING
}

/// Returns for how many microseconds a node does not cut after a cut that took this many with its commit: four times as many.
pub const fn rest_after(took: u32) -> u64
    ensures { result ≡ rest_after took }
{
    REST * took as u64
}
