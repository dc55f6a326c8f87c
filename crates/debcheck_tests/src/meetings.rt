//! Whole runs in which two workers have to meet, in each check of theirs.

use crate::cases::{BY_TWO, Case, EMPTY, Settings, config_of, outcome_of};
use run_settings::Show;
use std::alloc::AllocError;
use std::sync::atomic::{AtomicU32, Ordering};
use std::thread;
use std::thread::Threads;
use test_devices::sink_of;
use work_draw::Gate;

/// Holds each of the first two chunks of a check back, until both were begun; counts the checks, and those in which one waited in vain.
#[derive(Drop)]
struct Meeting {
    checks: AtomicU32,
    begun: AtomicU32,
    missed: AtomicU32,
}

impl Meeting {
    fn new() -> Meeting {
        Meeting {
            checks: AtomicU32::new(0),
            begun: AtomicU32::new(0),
            missed: AtomicU32::new(0),
        }
    }
}

impl Gate for Meeting {
    fn start(&self, _all: u32) {
        self.begun.store(0, Ordering::SeqCst);
        self.checks.fetch_add(1, Ordering::SeqCst);
    }

    fn before(&self, number: u32) {
        if number > 1 {
            return;
        }
        self.begun.fetch_add(1, Ordering::SeqCst);
        for _ in 0..2_000_000u32 {
            if self.begun.load(Ordering::SeqCst) > 1 {
                return;
            }
            thread::yield_now();
        }
        self.missed.fetch_add(1, Ordering::SeqCst);
    }

    fn after(&self, _number: u32) {}
}

/// Two packages, each of which needs what is not there.
const BROKEN: &[u8] = b"Package: a
Version: 1
Architecture: all
Depends: x

Package: b
Version: 1
Architecture: all
Depends: y
";

/// Two others, which are broken, too.
const EARLIER: &[u8] = b"Package: c
Version: 1
Architecture: all
Depends: x

Package: d
Version: 1
Architecture: all
Depends: y
";

/// How many checks a run on two workers makes, and in how many of them they don't meet; with an earlier index or without.
fn checks_of(
    rt: &(impl Threads + Sync + AllocGlobal),
    show: Show,
    explain: bool,
    earlier: Option<&'static [u8]>,
) -> Result<(u32, u32), AllocError> {
    let case = Case {
        settings: Settings {
            show,
            explain,
            ..BY_TWO
        },
        index: BROKEN,
        earlier,
        ..EMPTY
    };
    let config = config_of(rt.alloc(), &case)?;
    let gate = Meeting::new();
    let mut output = sink_of(rt.alloc(), 50, 0, false);
    let _ = outcome_of(rt, &config, &case, &gate, &mut output);
    drop(config);
    Ok((
        gate.checks.load(Ordering::SeqCst),
        gate.missed.load(Ordering::SeqCst),
    ))
}

/// With sets: one check.
#[test]
fn workers_meet_where_sets_are_told(rt: HostRuntime) {
    assert!(rt; matches!(checks_of(&rt, Show::All, true, None), Ok((1, 0))));
}

/// Without sets: one check, of those that are not seen to be installable.
#[test]
fn workers_meet_where_no_set_is_told(rt: HostRuntime) {
    assert!(rt; matches!(checks_of(&rt, Show::Failures, false, None), Ok((1, 0))));
}

/// Since an earlier index: one of that, and one of the index, with the cores of the newly broken.
#[test]
fn workers_meet_where_news_are_explained(rt: HostRuntime) {
    assert!(rt; matches!(checks_of(&rt, Show::All, true, Some(EARLIER)), Ok((2, 0))));
}
