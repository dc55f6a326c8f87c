//! A reader of std over memory, which counts its calls and fails at one of them.

use std::io;
use std::io::{ErrorKind, Read};

/// Gives a text, so many bytes a call, and fails at this read; reads count from 1.
#[derive(Drop)]
pub struct Counted<'a> {
    pub rest: &'a [u8],
    pub step: usize,
    pub fails_at: u32,
    pub kind: ErrorKind,
    pub reads: u32,
}

/// Reads a text, so many bytes a call.
pub fn reader_of(text: &[u8], step: usize, fails_at: u32, kind: ErrorKind) -> Counted<'_> {
    Counted {
        rest: text,
        step,
        fails_at,
        kind,
        reads: 0,
    }
}

impl Read for Counted<'_> {
    fn read(&mut self, buf: &mut [u8]) -> io::Result<usize> {
        self.reads = self.reads.saturating_add(1);
        if self.reads == self.fails_at {
            return Err(io::Error::from(self.kind));
        }
        let count = self.step.min(self.rest.len()).min(buf.len());
        let (now, later) = self.rest.split_at(count);
        buf[..count].copy_from_slice(now);
        self.rest = later;
        Ok(count)
    }
}
