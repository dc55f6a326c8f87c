//! A gate that counts the chunks, and may hold workers back.

use std::sync::atomic::{AtomicBool, AtomicU32, Ordering};
use std::thread;
use work_draw::Gate;

/// Which chunks are held back.
#[derive(Clone, Copy)]
pub enum Hold {
    /// None: each is let through at once.
    Nothing,
    /// Each of the first two, until both were begun.
    FirstTwo,
    /// This one, until the two others were ended.
    One(u32),
}

/// How often each of three chunks was begun and ended, and whether one was told of out of turn or waited for in vain.
#[derive(Drop)]
pub struct Tally {
    hold: Hold,
    begun: [AtomicU32; 3],
    ended: [AtomicU32; 3],
    missed: AtomicBool,
}

impl Tally {
    pub fn new(hold: Hold) -> Tally {
        Tally {
            hold,
            begun: [AtomicU32::new(0), AtomicU32::new(0), AtomicU32::new(0)],
            ended: [AtomicU32::new(0), AtomicU32::new(0), AtomicU32::new(0)],
            missed: AtomicBool::new(false),
        }
    }

    /// Turns until the count is above 0, but not for ever.
    fn wait_for(&self, count: &AtomicU32) {
        for _ in 0..10_000_000u32 {
            if count.load(Ordering::SeqCst) > 0 {
                return;
            }
            thread::yield_now();
        }
        self.missed.store(true, Ordering::SeqCst);
    }

    /// Whether no chunk was begun or ended twice, none ended that was not begun, each ended at least so often, and none was waited for in vain.
    pub fn is_in_order(&self, least: u32) -> bool {
        for number in 0..3usize {
            let begun = self.begun[number].load(Ordering::SeqCst);
            let ended = self.ended[number].load(Ordering::SeqCst);
            if begun > 1 || ended > begun || ended < least {
                return false;
            }
        }
        !self.missed.load(Ordering::SeqCst)
    }
}

impl Gate for Tally {
    /// Counts that the chunk is begun, and holds it back.
    fn before(&self, number: u32) {
        if number >= 3 {
            self.missed.store(true, Ordering::SeqCst);
            return;
        }
        self.begun[number as usize].fetch_add(1, Ordering::SeqCst);
        match self.hold {
            Hold::FirstTwo if number < 2 => self.wait_for(&self.begun[1 - number as usize]),
            Hold::One(held) if number == held => {
                self.wait_for(&self.ended[(number as usize + 1) % 3]);
                self.wait_for(&self.ended[(number as usize + 2) % 3]);
            }
            _ => {}
        }
    }

    /// Counts that the chunk is ended, if it was begun.
    fn after(&self, number: u32) {
        if number < 3 && self.begun[number as usize].load(Ordering::SeqCst) > 0 {
            self.ended[number as usize].fetch_add(1, Ordering::SeqCst);
        } else {
            self.missed.store(true, Ordering::SeqCst);
        }
    }
}
