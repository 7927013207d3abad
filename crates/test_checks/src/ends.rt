// A reader in pieces and a writer that keeps all that it is given, which fail where a test wants it.
use std::alloc::Global;
use std::io;
use std::io::{Read, Write};

/// A reader that gives a limited number of octets at a time, and fails once.
#[derive(Drop)]
pub struct Pieces<'a> {
    /// The octets that are left.
    pub octets: &'a [u8],
    most: usize,
    /// How many reads come before the one that fails; `None` once it has failed, or if none is to fail.
    pub reads_before_failure: Option<u32>,
}

impl Read for Pieces<'_> {
    fn read(&mut self, buf: &mut [u8]) -> io::Result<usize> {
        match self.reads_before_failure {
            Some(0) => {
                self.reads_before_failure = None;
                return Err(io::ErrorKind::Other.into());
            }
            Some(reads) => self.reads_before_failure = Some(reads - 1),
            None => {}
        }
        let most = self.most.min(buf.len());
        self.octets.read(&mut buf[..most])
    }
}

/// A writer that keeps what it is given, and fails once, in a write or in a flush.
#[derive(Drop)]
pub struct Paper {
    /// What was written.
    pub octets: Vec<u8>,
    /// How many octets the longest write had.
    pub longest: usize,
    /// How many calls come before the one that fails; `None` once it has failed, or if none is to fail.
    pub calls_before_failure: Option<u32>,
}

impl Paper {
    fn fails(&mut self) -> bool {
        match self.calls_before_failure {
            Some(0) => {
                self.calls_before_failure = None;
                true
            }
            Some(calls) => {
                self.calls_before_failure = Some(calls - 1);
                false
            }
            None => false,
        }
    }
}

impl Write for Paper {
    fn write(&mut self, buf: &[u8]) -> io::Result<usize> {
        if self.fails() {
            return Err(io::ErrorKind::Other.into());
        }
        self.longest = self.longest.max(buf.len());
        self.octets.extend_from_slice(buf)?;
        Ok(buf.len())
    }

    fn flush(&mut self) -> io::Result<()> {
        if self.fails() {
            return Err(io::ErrorKind::Other.into());
        }
        Ok(())
    }
}

/// Returns a reader of these octets, which gives at most `most` of them at a time and does not fail.
pub fn reader_of(octets: &[u8], most: usize) -> Pieces<'_> {
    Pieces {
        octets,
        most,
        reads_before_failure: None,
    }
}

/// Returns an empty writer, which fails after this many calls, if a number is given.
pub fn new_paper(alloc: Global, calls_before_failure: Option<u32>) -> Paper {
    Paper {
        octets: Vec::new(alloc),
        longest: 0,
        calls_before_failure,
    }
}
