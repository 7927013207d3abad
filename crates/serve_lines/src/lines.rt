// The ring of the lines that wait to be written, and the count of those that found no room.
use crossbeam_queue::ArrayQueue;
use std::alloc::{AllocError, Global};
use std::fmt::Display;
use std::sync::Wait;
use std::sync::atomic::{AtomicBool, AtomicU64, Ordering};
use std::thread::Parker;
use std::time::Duration;

/// How many lines may wait to be written.
pub const LINES_WAITING: usize = 1024;

/// How long the writer rests at most, in milliseconds.
const LONGEST_REST: u64 = 1000;

/// The lines of all threads that wait to be written to standard error, at most [`LINES_WAITING`], in the order in which they were said.
///
/// A line for which there is no room, or no memory, is counted in its place. Until the count is written each further line is counted, too, so
/// that the count stands where the lines are missing.
pub struct Lines {
    alloc: Global,
    waiting: ArrayQueue<String>,
    // How many lines are missing after those that wait.
    missing: AtomicU64,
    bell: Parker,
    is_resting: AtomicBool,
}

/// What is to be written next.
#[derive(Drop)]
pub(crate) enum Next {
    Line(String),
    Missing(u64),
    Nothing,
}

impl Drop for Lines {
    fn drop(self) {
        let Lines {
            alloc: _,
            waiting: _waiting,
            missing: _missing,
            bell: _bell,
            is_resting: _is_resting,
        } = self;
    }
}

impl Lines {
    /// Returns a ring in which no line waits.
    pub fn new(alloc: Global) -> Result<Lines, AllocError> {
        Ok(Lines {
            alloc,
            waiting: ArrayQueue::new(alloc, LINES_WAITING)?,
            missing: AtomicU64::new(0),
            bell: Parker::new(),
            is_resting: AtomicBool::new(false),
        })
    }

    /// Says a line. It is written later, or counted. Takes time and memory for its text, and waits for no write.
    pub fn say<R: Wait, D: Display + Drop>(&self, rt: &R, line: D) {
        if self.missing.load(Ordering::SeqCst) > 0 || !self.put(rt, line) {
            self.missing.fetch_add(1, Ordering::SeqCst);
        }
        // Either the writer sees the line before it rests, or it is seen to rest.
        if self.is_resting.load(Ordering::SeqCst) {
            self.bell.unpark();
        }
    }

    // Puts a line into the ring. Returns whether there was room and memory for it.
    fn put<R: Wait, D: Display + Drop>(&self, rt: &R, line: D) -> bool {
        match String::format(self.alloc, line) {
            Ok(text) => match self.waiting.push(rt, text) {
                Ok(()) => true,
                Err(text) => {
                    drop(text);
                    false
                }
            },
            Err(_) => false,
        }
    }

    // Returns what is to be written next: the lines that wait, and then the count of those that are missing after them.
    pub(crate) fn next<R: Wait>(&self, rt: &R) -> Next {
        if let Some(line) = self.waiting.pop(rt) {
            return Next::Line(line);
        }
        match self.missing.swap(0, Ordering::SeqCst) {
            0 => Next::Nothing,
            missing => Next::Missing(missing),
        }
    }

    // Returns whether the writer has taken all that was said.
    pub(crate) fn is_empty(&self) -> bool {
        self.waiting.is_empty() && self.missing.load(Ordering::SeqCst) == 0
    }

    // Rests until a line is said, or for a second. Only for the writer, which has written all that it took.
    pub(crate) fn rest<R: Wait>(&self, rt: &R) {
        self.is_resting.store(true, Ordering::SeqCst);
        if self.is_empty() {
            self.bell
                .park_timeout(rt, Duration::from_millis(LONGEST_REST));
        }
        self.is_resting.store(false, Ordering::SeqCst);
    }

    // Returns whether all that was said is written: the ring was empty, and after that the writer rested.
    pub(crate) fn is_written(&self) -> bool {
        self.is_empty() && self.is_resting.load(Ordering::SeqCst)
    }
}
