// The ticks of 100 ms that are left to a connection: for its handshake or its end, for what its client owes within a time, and for its client
// to take something of what waits.
ghost use Rattle.std.specs.Prelude.{◌≡◌};
ghost use Rattle.serve_connections.specs.Due.{of_stage, of_nothing, earlier, ticks_left, is_over, less, passing};
ghost use Rattle.serve_connections.specs.Due.{counting, owed_left, reading, pausing, untaken_left, writing};

use std::marker::Model;

/// How many ticks a client has for its first message, a HELLO, after the handshake; and for more of a frame that has begun.
const HELLO_TICKS: u32 = 100;

const FRAME_TICKS: u32 = 600;

/// While more octets than this wait for a client, it has so many ticks to take something.
const MUCH_WAITING: usize = 1 << 20;

const TAKING_TICKS: u32 = 100;

// The ticks that are left to a connection, for each cause for which they are counted. A clause sees them.
#[derive(Drop)]
pub(crate) struct Ticks {
    // For its handshake, or for the end of one whose client was refused or closed.
    stage: Option<u32>,
    // For the first message of a client that is served, or for more of a frame that has begun.
    owed: Option<u32>,
    // For such a client to take something of what waits for it.
    untaken: Option<u32>,
}

impl Model for Ticks {
    ghost use Rattle.serve_connections.specs.Due.{Left};

    ghost Value = { Left };

    ghost view = { λ t. record { stage = t.stage; owed = t.owed; untaken = t.untaken } };
}

impl Ticks {
    // Returns the ticks of a handshake or an end.
    pub const fn of_stage(ticks: u32) -> Ticks
        ensures { result ≡ of_stage ticks }
    {
        Ticks {
            stage: Some(ticks),
            owed: None,
            untaken: None,
        }
    }

    // Returns the ticks of a connection for which none are counted.
    pub const fn of_nothing() -> Ticks
        ensures { result ≡ of_nothing }
    {
        Ticks {
            stage: None,
            owed: None,
            untaken: None,
        }
    }

    // Returns how many are left before the connection ends, if any are counted: for the cause whose end comes first.
    pub fn left(&self) -> Option<u32>
        ensures { result ≡ ticks_left self.now }
    {
        earlier(self.stage, earlier(self.owed, self.untaken))
    }

    // Returns whether none are left for what the client owes.
    pub fn is_owed_over(&self) -> bool
        ensures { result ≡ is_over self.now.owed }
    {
        is_over(self.owed)
    }

    // Returns whether none are left for the client to take something.
    pub fn is_untaken_over(&self) -> bool
        ensures { result ≡ is_over self.now.untaken }
    {
        is_over(self.untaken)
    }

    // Returns whether ticks are counted until the client takes something.
    pub fn counts_untaken(&self) -> bool {
        self.untaken.is_some()
    }

    // Counts a tick.
    pub fn pass(&mut self)
        ensures { self.new ≡ passing self.old }
    {
        self.stage = less(self.stage);
        self.owed = less(self.owed);
        self.untaken = less(self.untaken);
    }

    // Notes that all that came of the client is read: whether its first message is there, whether a frame has begun and is not whole, and whether
    // octets came.
    pub fn read(&mut self, has_spoken: bool, is_within: bool, came: bool)
        ensures { self.new ≡ reading has_spoken is_within came self.old }
    {
        self.owed = owed_left(has_spoken, is_within, came, self.owed);
    }

    // Notes that nothing is read of the client.
    pub fn pause(&mut self)
        ensures { self.new ≡ pausing self.old }
    {
        self.owed = None;
    }

    // Notes how many octets wait for the client after what could be written was, and whether it took some.
    pub fn write(&mut self, waiting: usize, took: bool)
        ensures { self.new ≡ writing waiting took self.old }
    {
        self.untaken = untaken_left(waiting, took, self.untaken);
    }
}

// Returns the end that comes earlier.
fn earlier(ticks: Option<u32>, others: Option<u32>) -> Option<u32>
    ensures { result ≡ earlier ticks others }
{
    match (ticks, others) {
        (None, _) => others,
        (Some(_), None) => ticks,
        (Some(left), Some(other)) => if other < left { others } else { ticks },
    }
}

// Returns whether none is left of ticks that are counted.
fn is_over(ticks: Option<u32>) -> bool
    ensures { result ≡ is_over ticks }
{
    match ticks {
        Some(ticks) => ticks == 0,
        None => false,
    }
}

// Returns what is left after a tick.
fn less(ticks: Option<u32>) -> Option<u32>
    ensures { result ≡ less ticks }
{
    match ticks {
        Some(ticks) => Some(ticks.saturating_sub(1)),
        None => None,
    }
}

// Returns the ticks that are counted, or `first` if none are.
fn counting(ticks: Option<u32>, first: u32) -> Option<u32>
    ensures { result ≡ counting ticks first }
{
    match ticks {
        Some(ticks) => Some(ticks),
        None => Some(first),
    }
}

// Returns how many ticks are left to a client that had `ticks` and from which all that came was read: whether its first message is there,
// whether a frame has begun and is not whole, and whether octets came.
fn owed_left(has_spoken: bool, is_within: bool, came: bool, ticks: Option<u32>) -> Option<u32>
    ensures { result ≡ owed_left has_spoken is_within came ticks }
{
    if !has_spoken {
        return counting(ticks, HELLO_TICKS);
    }
    if !is_within {
        return None;
    }
    if came {
        Some(FRAME_TICKS)
    } else {
        counting(ticks, FRAME_TICKS)
    }
}

// Returns how many ticks are left to a client that had `ticks`, for which `waiting` octets wait: whether it took some as they were written.
fn untaken_left(waiting: usize, took: bool, ticks: Option<u32>) -> Option<u32>
    ensures { result ≡ untaken_left waiting took ticks }
{
    if waiting <= MUCH_WAITING {
        return None;
    }
    if took {
        Some(TAKING_TICKS)
    } else {
        counting(ticks, TAKING_TICKS)
    }
}

// How far what a client sends has come in frames (WAMP specification, "RawSocket Transport", "Framing").
#[derive(Drop)]
pub(crate) struct Course {
    // The octets of a frame's head that came, and how many these are.
    head: [u8; 4],
    had: usize,
    // How many octets of a payload are still to come.
    left: usize,
    // Whether the frame is a message, and whether one is whole.
    is_message: bool,
    has_spoken: bool,
}

impl Course {
    // Returns the course of a client of which nothing came.
    pub const fn new() -> Course {
        Course {
            head: [0; 4],
            had: 0,
            left: 0,
            is_message: false,
            has_spoken: false,
        }
    }

    // Returns whether a message is whole.
    pub fn has_spoken(&self) -> bool {
        self.has_spoken
    }

    // Returns whether a frame has begun and is not whole.
    pub fn is_within(&self) -> bool {
        self.had > 0 || self.left > 0
    }

    // Notes octets that came after the others.
    pub fn pass(&mut self, octets: &[u8]) {
        let mut at = 0;
        for _ in 0..octets.len() {
            let Some(rest) = octets.get(at..) else {
                return;
            };
            if rest.is_empty() {
                return;
            }
            at = at.saturating_add(self.step(rest));
        }
    }

    // Notes the next octets: those of a payload, or one of a head. Returns how many these are.
    fn step(&mut self, octets: &[u8]) -> usize {
        if self.left > 0 {
            let count = self.left.min(octets.len());
            self.left = self.left.saturating_sub(count);
            self.end();
            return count;
        }
        if let Some(octet) = octets.first()
            && let Some(place) = self.head.get_mut(self.had)
        {
            *place = *octet;
            self.had = self.had.saturating_add(1);
        }
        if self.had == 4 {
            let [kind, high, middle, low] = self.head;
            self.had = 0;
            self.is_message = kind == 0;
            self.left = usize::from(high) << 16 | usize::from(middle) << 8 | usize::from(low);
            self.end();
        }
        1
    }

    // Notes that a frame is whole, if it is.
    fn end(&mut self) {
        self.has_spoken = self.has_spoken || self.left == 0 && self.is_message;
    }
}
