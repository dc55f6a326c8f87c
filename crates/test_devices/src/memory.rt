//! A reader and a writer over memory, which fail where they are told to. A contract sees the bytes that are left, and those that were written.

ghost use Rattle.std.specs.Prelude.{◌≡◌, ◌&&◌, IfOk, Some, false};

use devices::{DeviceFault, Sink, Source};
use std::alloc::{AllocError, Global};
use std::io::IsTerminal;

/// Gives some bytes of a text at each read. Behind them it ends, or fails at each read.
#[derive(Drop)]
pub struct Feed<'a> {
    pub rest: &'a [u8],
    pub step: usize,
    pub fails: bool,
    pub failed: bool,
    pub reads: u32,
    /// It is read in pieces of so many bytes, but at least one.
    pub piece: usize,
}

/// Reads a text, so many bytes a call, but at least one; no call has failed.
pub fn source_of(text: &[u8], step: usize) -> Feed<'_>
    ensures rest { result.rest.now ≡ text.now }
    ensures failed { result.failed ≡ false }
{
    Feed {
        rest: text,
        step,
        fails: false,
        failed: false,
        reads: 0,
        piece: 4_194_304,
    }
}

impl Source for Feed<'_> {
    ghost remaining = { λ f. Some f.rest.now };

    ghost failed = { λ f. f.failed };

    ghost may_fail = { λ f. f.fails };

    fn read_some(&mut self, buf: &mut [u8]) -> Result<usize, DeviceFault> {
        self.reads = self.reads.saturating_add(1);
        if self.fails && self.rest.is_empty() {
            self.failed = true;
            return Err(DeviceFault);
        }
        let count = self.step.max(1).min(self.rest.len()).min(buf.len());
        let (now, later) = self.rest.split_at(count);
        buf[..count].copy_from_slice(now);
        self.rest = later;
        Ok(count)
    }

    fn piece(&self) -> usize {
        self.piece.max(1)
    }
}

impl IsTerminal for Feed<'_> {
    fn is_terminal(&self) -> bool {
        false
    }
}

/// Takes some bytes at each write, and may fail at one of them or at the flush. Writes count from 1.
#[derive(Drop)]
pub struct Held {
    pub bytes: Vec<u8>,
    pub step: usize,
    pub fails_at: u32,
    /// At this write it takes no byte.
    pub sticks_at: u32,
    pub flush_fails: bool,
    pub calls: u32,
    pub flushes: u32,
    pub failed: bool,
    pub flushed: bool,
    /// It says that it fails because nobody reads it any more.
    pub abandoned: bool,
}

/// Takes so many bytes a call, and fails at this write or at each flush; no call has failed.
pub fn sink_of(alloc: Global, step: usize, fails_at: u32, flush_fails: bool) -> Held
    ensures { result.failed ≡ false }
{
    Held {
        bytes: Vec::new(alloc),
        step,
        fails_at,
        sticks_at: 0,
        flush_fails,
        calls: 0,
        flushes: 0,
        failed: false,
        flushed: false,
        abandoned: false,
    }
}

/// A sink that needs no more memory for what is written to it here.
pub fn sink_with_room(alloc: Global, step: usize, fails_at: u32) -> Result<Held, AllocError>
    ensures { IfOk result (λ sink. sink.failed ≡ false) }
{
    let mut sink = sink_of(alloc, step, fails_at, false);
    sink.bytes.reserve(10_000)?;
    Ok(sink)
}

impl Sink for Held {
    ghost contents = { λ h. Some h.bytes.items };

    ghost failed = { λ h. h.failed };

    ghost flushed = { λ h. h.flushed };

    ghost abandoned = { λ h. h.failed && h.abandoned };

    fn write_some(&mut self, bytes: &[u8]) -> Result<usize, DeviceFault> {
        self.flushed = false;
        self.calls = self.calls.saturating_add(1);
        let step = if self.calls == self.sticks_at {
            0
        } else {
            self.step
        };
        let count = step.min(bytes.len());
        if self.calls == self.fails_at || self.bytes.extend_from_slice(&bytes[..count]).is_err() {
            self.failed = true;
            return Err(DeviceFault);
        }
        if count == 0 && !bytes.is_empty() {
            self.failed = true;
        }
        Ok(count)
    }

    fn flush_all(&mut self) -> Result<(), DeviceFault> {
        self.flushes = self.flushes.saturating_add(1);
        if self.flush_fails {
            self.failed = true;
            return Err(DeviceFault);
        }
        self.flushed = true;
        Ok(())
    }

    fn is_abandoned(&self) -> bool {
        self.failed && self.abandoned
    }
}
