//! A writer of std over memory, which counts its calls and fails at one of them.

use std::io;
use std::io::{ErrorKind, Write};

/// Counts the bytes that it takes, so many a call, and fails at this write, which count from 1, or at each flush.
#[derive(Drop)]
pub struct Counting {
    pub taken: usize,
    pub step: usize,
    pub fails_at: u32,
    pub flush_fails: bool,
    pub kind: ErrorKind,
    pub writes: u32,
    pub flushes: u32,
}

/// Takes so many bytes a call.
pub fn writer_of(step: usize, fails_at: u32, flush_fails: bool, kind: ErrorKind) -> Counting {
    Counting {
        taken: 0,
        step,
        fails_at,
        flush_fails,
        kind,
        writes: 0,
        flushes: 0,
    }
}

impl Write for Counting {
    fn write(&mut self, buf: &[u8]) -> io::Result<usize> {
        self.writes = self.writes.saturating_add(1);
        if self.writes == self.fails_at {
            return Err(io::Error::from(self.kind));
        }
        let count = self.step.min(buf.len());
        self.taken = self.taken.saturating_add(count);
        Ok(count)
    }

    fn flush(&mut self) -> io::Result<()> {
        self.flushes = self.flushes.saturating_add(1);
        if self.flush_fails {
            return Err(io::Error::from(self.kind));
        }
        Ok(())
    }
}
