// A runtime whose lines on standard error go to a ring.
use crate::lines::Lines;
use std::alloc::AllocError;
use std::fmt::Display;
use std::io;
use std::rt::Clock;
use std::sync::{Arc, Wait};
use std::thread::Threads;
use std::time::Duration;

/// A runtime of which each line on standard error is said to a ring, so that no thread waits for a write. All else is the runtime's own.
#[derive(Drop)]
pub struct Lined<R> {
    rt: R,
    lines: Arc<Lines>,
}

impl<R> Lined<R> {
    /// Returns this runtime with its lines in this ring.
    pub fn new(rt: R, lines: Arc<Lines>) -> Lined<R> {
        Lined { rt, lines }
    }
}

impl<R: Clone> Clone for Lined<R> {
    fn clone(&self) -> Result<Lined<R>, AllocError> {
        let lines = Arc::try_clone(&self.lines)?;
        let rt = self.rt.clone()?;
        Ok(Lined { rt, lines })
    }
}

impl<R: Wait> Wait for Lined<R> {}

impl<R: Threads> Threads for Lined<R> {}

impl<R: Clock> Clock for Lined<R> {
    fn monotonic(&self) -> io::Result<Duration> {
        self.rt.monotonic()
    }

    fn since_1970(&self) -> io::Result<Duration> {
        self.rt.since_1970()
    }

    fn sleep(&self, duration: Duration) {
        self.rt.sleep(duration)
    }
}

// Each text that is printed is a line of its own.
impl<R: Wait> Eprint for Lined<R> {
    fn eprint<D: Display + Drop>(&self, value: D) -> io::Result<()> {
        self.lines.say(&self.rt, value);
        Ok(())
    }

    fn eprintln<D: Display + Drop>(&self, value: D) -> io::Result<()> {
        self.lines.say(&self.rt, value);
        Ok(())
    }
}
