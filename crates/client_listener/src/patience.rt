// The waits of a thread that tries again and again: it looks, then gives way, then sleeps for up to 1 ms.
use std::thread;
use std::time::{Clock, Duration};

// How often a thread only looks again: a reader or writer that rests when it is asked to read or flush for nothing is asked by then.
const LOOKS: u32 = 3;

// How often it only gives way after that, before it begins to sleep.
const YIELDS: u32 = 64;

// How long it sleeps first, and at the most, in microseconds.
const FIRST_PAUSE: u64 = 50;

const LONGEST_PAUSE: u64 = 1000;

// How long a thread waits between vain tries: at first not at all, then it gives way some times, and then sleeps for longer and longer.
#[derive(Drop)]
pub(crate) struct Patience {
    looks: u32,
    yields: u32,
    pause: u64,
}

impl Patience {
    // The patience of a thread before its first vain try.
    pub fn new() -> Patience {
        Patience {
            looks: LOOKS,
            yields: YIELDS,
            pause: FIRST_PAUSE,
        }
    }

    // Waits after a vain try.
    pub fn wait(&mut self, clock: &impl Clock) {
        if self.looks > 0 {
            self.looks -= 1;
            return;
        }
        if self.yields > 0 {
            self.yields -= 1;
            thread::yield_now();
            return;
        }
        thread::sleep(clock, Duration::from_micros(self.pause));
        self.pause = self.pause.saturating_mul(2).min(LONGEST_PAUSE);
    }
}
