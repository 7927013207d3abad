// The thread that writes the lines.
use crate::lines::{Lines, Next};
use std::alloc::{AllocError, Global};
use std::fmt::Display;
use std::io::Eprint;
use std::rt::Clock;
use std::sync::{Arc, Wait};
use std::thread;
use std::thread::Threads;
use std::time::Duration;

/// How many milliseconds the end of a program waits at most: until its last line is taken by the thread that writes, and then until it is written.
const TAKING_MILLIS: u32 = 5000;

const WRITING_MILLIS: u32 = 1000;

/// Starts the thread that writes the lines of this ring to standard error, each as soon as it can. The thread is not joined. Fails if there is no
/// memory, or no thread.
pub fn start_writer<R>(rt: &R, lines: &Arc<Lines>) -> Result<(), AllocError>
where
    R: Threads + Wait + Eprint + Clone + Drop + Send + 'static,
{
    let theirs = rt.clone()?;
    let lines = Arc::try_clone(lines)?;
    match thread::spawn(rt, move || write_all(&theirs, &lines)) {
        Ok(_) => Ok(()),
        Err(_) => Err(AllocError),
    }
}

// Writes all lines that are said.
fn write_all<R: Wait + Eprint>(rt: &R, lines: &Lines) {
    for _ in rt.forever() {
        match lines.next(rt) {
            Next::Line(line) => {
                let _ = rt.eprintln(line);
            }
            Next::Missing(missing) => {
                let _ = eprintln!(rt;
                    "{missing} lines are missing here: there was no room or no memory for them"
                );
            }
            Next::Nothing => lines.rest(rt),
        }
    }
}

impl Lines {
    /// Waits until all that was said is written: for about five seconds at most while the writer has not taken the last line, since it waits for a
    /// processor or for a reader of the lines before; and then for about one second at most, since that line may wait for a reader.
    pub fn settle<C: Clock>(&self, clock: &C) {
        for _ in 0..TAKING_MILLIS {
            if self.is_empty() {
                break;
            }
            thread::sleep(clock, Duration::from_millis(1));
        }
        for _ in 0..WRITING_MILLIS {
            if self.is_written() {
                return;
            }
            thread::sleep(clock, Duration::from_millis(1));
        }
    }
}

/// Says the last line of a program, and waits until it is written, as [`Lines::settle`] does: if nobody reads, for about a second. Writes it at
/// once if no thread can be made.
pub fn say_last<R, D>(rt: &R, alloc: Global, line: D)
where
    R: Threads + Wait + Clock + Eprint + Clone + Drop + Send + 'static,
    D: Display + Drop,
{
    match start_lines(rt, alloc) {
        Ok(lines) => {
            lines.say(rt, line);
            lines.settle(rt);
        }
        Err(_) => {
            let _ = rt.eprintln(line);
        }
    }
}

// Returns a ring with its writer.
fn start_lines<R>(rt: &R, alloc: Global) -> Result<Arc<Lines>, AllocError>
where
    R: Threads + Wait + Eprint + Clone + Drop + Send + 'static,
{
    let lines = Arc::new(alloc, Lines::new(alloc)?)?;
    start_writer(rt, &lines)?;
    Ok(lines)
}
