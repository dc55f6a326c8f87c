//! A screen that knows whether a line stands on it, what is written beside it, and a clock that goes on at each look.

ghost use Rattle.std.specs.Prelude.{◌≡◌, ◌&&◌, Some};

use crate::memory::Held;
use devices::{DeviceFault, Sink};
use std::alloc::Global;
use std::io;
use std::io::{IsTerminal, Write};
use std::sync::atomic::{AtomicU32, AtomicU64, Ordering};
use std::thread::Threads;
use std::time::{Clock, Duration};

/// A screen, or what is none, for lines of one text.
#[derive(Drop)]
pub struct Screen<'a> {
    is_terminal: bool,
    text: &'a [u8],
    lines: AtomicU32,
    others: AtomicU32,
    /// How much of the screen's last line is written on.
    width: AtomicU64,
    ends_left: AtomicU32,
}

impl<'a> Screen<'a> {
    /// Nothing was written to it.
    pub fn new(is_terminal: bool, text: &'a [u8]) -> Screen<'a> {
        Screen {
            is_terminal,
            text,
            lines: AtomicU32::new(0),
            others: AtomicU32::new(0),
            width: AtomicU64::new(0),
            ends_left: AtomicU32::new(0),
        }
    }

    /// How many lines of the text were written.
    pub fn lines(&self) -> u32 {
        self.lines.load(Ordering::SeqCst)
    }

    /// How many lines of another text were written.
    pub fn others(&self) -> u32 {
        self.others.load(Ordering::SeqCst)
    }

    /// Whether a line stands there.
    pub fn stands(&self) -> bool {
        self.width.load(Ordering::SeqCst) > 0
    }

    /// How often the end of a line was left there, since what was written over it was shorter.
    pub fn ends_left(&self) -> u32 {
        self.ends_left.load(Ordering::SeqCst)
    }

    /// Writes over the line that stands there, of which so much stays.
    fn cover(&self, written: usize, stays: usize) {
        let stood = self.width.swap(stays as u64, Ordering::SeqCst);
        if stood > written as u64 {
            self.ends_left.fetch_add(1, Ordering::SeqCst);
        }
    }
}

impl IsTerminal for &Screen<'_> {
    fn is_terminal(&self) -> bool {
        self.is_terminal
    }
}

/// What ends with a return takes a line away; behind another return it has as many blanks.
impl Write for &Screen<'_> {
    fn write(&mut self, buf: &[u8]) -> io::Result<usize> {
        let width = buf.len().saturating_sub(1);
        if buf.ends_with(b"\r") {
            self.cover(width.saturating_sub(1), 0);
        } else {
            self.cover(width, width);
            let count = if buf == self.text {
                &self.lines
            } else {
                &self.others
            };
            count.fetch_add(1, Ordering::SeqCst);
        }
        Ok(buf.len())
    }

    fn flush(&mut self) -> io::Result<()> {
        Ok(())
    }
}

/// A runtime with a clock of its own, which goes on by so many milliseconds at each look.
#[derive(Drop)]
pub struct Ticks<'a, R> {
    rt: &'a R,
    step: u64,
    millis: AtomicU64,
}

/// The clock stands at 0.
pub fn clock_of<R>(rt: &R, step: u64) -> Ticks<'_, R> {
    Ticks {
        rt,
        step,
        millis: AtomicU64::new(0),
    }
}

impl<R: AllocGlobal> Alloc for Ticks<'_, R> {
    type A = Global;

    fn alloc(&self) -> Global {
        self.rt.alloc()
    }
}

impl<R: Threads> Threads for Ticks<'_, R> {}

impl<R> Clock for Ticks<'_, R> {
    fn monotonic(&self) -> io::Result<Duration> {
        let now = self.millis.fetch_add(self.step, Ordering::SeqCst);
        Ok(Duration::from_millis(now))
    }

    fn since_1970(&self) -> io::Result<Duration> {
        self.monotonic()
    }
}

/// A writer beside a screen: it counts the writes and flushes that come while a line stands there.
#[derive(Drop)]
pub struct Beside<'a> {
    pub held: Held,
    pub screen: &'a Screen<'a>,
    pub crowded: u32,
}

impl<'a> Beside<'a> {
    /// Nothing was written while a line stood there.
    pub fn new(screen: &'a Screen<'a>, held: Held) -> Beside<'a>
        ensures { result.held ≡ held }
    {
        Beside {
            held,
            screen,
            crowded: 0,
        }
    }
}

impl Beside<'_> {
    fn look(&mut self)
        ensures { self.new.held ≡ self.old.held }
    {
        if self.screen.stands() {
            self.crowded = self.crowded.saturating_add(1);
        }
    }
}

impl Sink for Beside<'_> {
    ghost contents = { λ b. Some b.held.bytes.items };

    ghost failed = { λ b. b.held.failed };

    ghost flushed = { λ b. b.held.flushed };

    ghost abandoned = { λ b. b.held.failed && b.held.abandoned };

    fn write_some(&mut self, bytes: &[u8]) -> Result<usize, DeviceFault> {
        self.look();
        self.held.write_some(bytes)
    }

    fn flush_all(&mut self) -> Result<(), DeviceFault> {
        self.look();
        self.held.flush_all()
    }

    fn is_abandoned(&self) -> bool {
        self.held.is_abandoned()
    }
}
