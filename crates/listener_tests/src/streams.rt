// A clock and a stream in memory, and the frame that goes through a ring again and again.
use std::alloc::Global;
use std::io;
use std::io::{Read, Write};
use std::panic::Expect;
use std::process::Abort;
use std::time::{Clock, Duration};

// A clock that does not wait.
pub struct AtOnce;

impl Clock for AtOnce {
    fn monotonic(&self) -> io::Result<Duration> {
        Ok(Duration::ZERO)
    }

    fn since_1970(&self) -> io::Result<Duration> {
        Ok(Duration::ZERO)
    }
}

// A stream that gives a limited number of octets at a time and keeps what it is given. It fails once, after a number of calls.
#[derive(Drop)]
pub struct Wire<'a> {
    pub asked: &'a [u8],
    most: usize,
    pub answered: Vec<u8>,
    calls_before_failure: Option<u32>,
}

impl<'a> Wire<'a> {
    pub fn new(alloc: Global, asked: &'a [u8], most: usize, calls: Option<u32>) -> Wire<'a> {
        Wire {
            asked,
            most,
            answered: Vec::new(alloc),
            calls_before_failure: calls,
        }
    }

    fn fails(&mut self) -> bool {
        match self.calls_before_failure {
            Some(0) => {
                self.calls_before_failure = None;
                true
            }
            Some(calls) => {
                self.calls_before_failure = Some(calls - 1);
                false
            }
            None => false,
        }
    }
}

impl Read for Wire<'_> {
    fn read(&mut self, buf: &mut [u8]) -> io::Result<usize> {
        if self.fails() {
            return Err(io::ErrorKind::Other.into());
        }
        let most = self.most.min(buf.len());
        self.asked.read(&mut buf[..most])
    }
}

impl Write for Wire<'_> {
    fn write(&mut self, buf: &[u8]) -> io::Result<usize> {
        if self.fails() {
            return Err(io::ErrorKind::Other.into());
        }
        self.answered.extend_from_slice(buf)?;
        Ok(buf.len())
    }

    fn flush(&mut self) -> io::Result<()> {
        if self.fails() {
            return Err(io::ErrorKind::Other.into());
        }
        Ok(())
    }
}

// A frame, and how many of them go through a ring of 64.
pub const FRAME: &[u8] = b"\0\0\0\x0F[32,1,{},\"a.b\"]";

pub const COUNT: u32 = 10_000;

pub fn frames(rt: &impl Abort, alloc: Global) -> Vec<u8> {
    let mut octets = Vec::new(alloc);
    for _ in 0..COUNT {
        octets
            .extend_from_slice(FRAME)
            .expect(rt, "room for a frame");
    }
    octets
}

// Whether both are the same octets.
pub fn is_same(some: &[u8], other: &[u8]) -> bool {
    some == other
}
