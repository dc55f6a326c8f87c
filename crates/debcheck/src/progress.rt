//! How far a run has come, told on a terminal.

use run_settings::Config;
use std::alloc::{AllocError, Global};
use std::io::{IsTerminal, Write};
use std::sync::atomic::{AtomicU32, AtomicU64, Ordering};
use std::time::{Clock, Duration, Instant};
use work_draw::Gate;

/// How often in a second the line is written.
const TURNS: u64 = 5;

/// What is told while the index is read, and where it is typed on a terminal.
const READING: &[u8] = b"\rreading the index";

const TYPED: &[u8] = b"\rreading the index from the terminal (debcheck .. < Packages)";

/// What takes the line away: as many blanks as its longest text has bytes.
const BLANK: &[u8] = b"\r                                                            \r";

/// The turn at a time since the start; the first second has the turns below `TURNS`.
fn turn_at(spent: Duration) -> u64 {
    let turns = u64::from(spent.subsec_millis()) / (1000 / TURNS);
    spent.as_secs().saturating_mul(TURNS).saturating_add(turns)
}

/// A number's digits, with commas between the thousands.
fn grouped(alloc: Global, number: u32) -> Result<String, AllocError> {
    let digits = number.to_string(alloc)?;
    let mut text = String::new(alloc);
    let mut left = digits.len();
    for digit in digits.chars() {
        if left % 3 == 0 && !text.is_empty() {
            text.push(',')?;
        }
        text.push(digit)?;
        left = left.saturating_sub(1);
    }
    Ok(text)
}

/// Tells on a screen that the index is read, and then how many packages are checked, and of how many, on one line that is written over, where that
/// is a terminal; of packages once a second has passed. No call waits for another.
#[derive(Drop)]
pub struct Progress<'a, R, T> {
    rt: &'a R,
    screen: T,
    /// When the run began, where anything is told.
    began: Option<Instant>,
    chunk: u32,
    /// How many packages the check has, and how many of them are checked.
    all: AtomicU32,
    checked: AtomicU32,
    /// The turn in which the line was written; `TURNS` where it doesn't stand there.
    told: AtomicU64,
}

impl<'a, R: Clock + AllocGlobal, T: IsTerminal + Write + Copy> Progress<'a, R, T> {
    /// The progress of a run that begins now. It tells nothing where the screen is no terminal, or quiet is asked for.
    pub fn new(rt: &'a R, screen: T, config: &Config) -> Progress<'a, R, T> {
        let began = if config.quiet || !screen.is_terminal() {
            None
        } else {
            Instant::now(rt).ok()
        };
        Progress {
            rt,
            screen,
            began,
            chunk: config.chunk,
            all: AtomicU32::new(0),
            checked: AtomicU32::new(0),
            told: AtomicU64::new(TURNS),
        }
    }

    /// Writes the line. Where it cannot be written, nothing is told.
    fn tell(&self) -> Result<(), AllocError> {
        let alloc = self.rt.alloc();
        let all = self.all.load(Ordering::SeqCst);
        let checked = self.checked.load(Ordering::SeqCst).min(all);
        let checked = grouped(alloc, checked)?;
        let all = grouped(alloc, all)?;
        let line = format!(in alloc; "\r{checked} of {all} packages checked")?;
        let mut screen = self.screen;
        let _ = screen.write(line.as_str().as_bytes());
        Ok(())
    }

    /// Tells how far the check has come, where a turn has begun in which nobody told it.
    fn tell_in_turn(&self) {
        let Some(Ok(spent)) = self.began.map(|began| began.elapsed(self.rt)) else {
            return;
        };
        let turn = turn_at(spent);
        let told = self.told.load(Ordering::SeqCst);
        // Of the workers that come in one turn, one writes.
        if turn > told
            && self
                .told
                .compare_exchange(told, turn, Ordering::SeqCst, Ordering::SeqCst)
                .is_ok()
        {
            let _ = self.tell();
        }
    }

    /// Tells that the index is read, until another line comes or it is taken away; where it is typed on a terminal, also how to give it.
    pub fn tell_reading(&self, is_typed: bool) {
        if self.began.is_none() {
            return;
        }
        self.told.store(TURNS + 1, Ordering::SeqCst);
        let mut screen = self.screen;
        let _ = screen.write(if is_typed { TYPED } else { READING });
    }
}

impl<R: Clock + AllocGlobal, T: IsTerminal + Write + Copy> Gate for Progress<'_, R, T> {
    // The line that stands there goes, since it may be longer.
    fn start(&self, all: u32) {
        self.end();
        self.all.store(all, Ordering::SeqCst);
        self.checked.store(0, Ordering::SeqCst);
        self.tell_in_turn();
    }

    fn before(&self, _number: u32) {}

    // The last chunk may be small.
    fn after(&self, number: u32) {
        let before = number.saturating_mul(self.chunk);
        let left = self.all.load(Ordering::SeqCst).saturating_sub(before);
        self.checked
            .fetch_add(left.min(self.chunk), Ordering::SeqCst);
        self.tell_in_turn();
    }

    // Takes the line away, where it stands.
    fn end(&self) {
        if self.told.swap(TURNS, Ordering::SeqCst) > TURNS {
            let mut screen = self.screen;
            let _ = screen.write(BLANK);
        }
    }
}
