//! Runs since an earlier index, with devices that fail.

use crate::cases::{BY_TWO, Case, EMPTY, NOTHING, Settings, Torn, expect_answer};
use deb_report::Summary;
use std::process::Abort;
use std::thread::Threads;

/// One package, which is broken.
const INDEX: &[u8] = b"Package: d\nVersion: 1\nArchitecture: all\nDepends: y\n";

/// Another one, which was.
const EARLIER: &[u8] = b"Package: b\nVersion: 2\nArchitecture: all\nDepends: y\n";

const BACKGROUND: &[u8] = b"Package: z\nVersion: 1\nArchitecture: all\n";

const REPORT: &str = "d 1: broken {missing: d 1 Depends: y}
stanzas 2, skipped 0, duplicates 0, background 1, asked 1, broken 1, newly-broken 1, mended {}, gone {b 2}";

/// The usual settings.
const USUAL: Settings = Settings {
    workers: 4,
    chunk: 64,
    ..BY_TWO
};

/// A run on all three, byte by byte.
const GOES_ON: Case<'static> = Case {
    name: "readers that go on",
    settings: USUAL,
    index: INDEX,
    background: Some(BACKGROUND),
    earlier: Some(EARLIER),
    begun: 3,
    room: 50,
    written: REPORT,
    status: 1,
    summary: Some(Summary {
        stanzas: 2,
        background: 1,
        asked: 1,
        broken: 1,
        newly_broken: Some(1),
        ..NOTHING
    }),
    ..EMPTY
};

/// The same, in larger pieces.
pub const SINCE: Case<'static> = Case {
    name: "since an earlier index",
    step: 11,
    ..GOES_ON
};

/// The same where all reasons are told; there is one.
pub const SINCE_WITH_ALL_REASONS: Case<'static> = Case {
    name: "since an earlier index, with all reasons",
    settings: Settings {
        all_reasons: true,
        ..USUAL
    },
    ..SINCE
};

/// The index fails, which is read last.
const TORN: Case<'static> = Case {
    name: "a reader of the index that fails",
    torn: Torn::Index,
    begun: 3,
    written: "",
    status: 67,
    told: "index",
    summary: None,
    ..GOES_ON
};

/// The background fails; the index is not read.
const TORN_BACKGROUND: Case<'static> = Case {
    name: "a reader of the background that fails",
    torn: Torn::Background,
    begun: 2,
    told: "background",
    ..TORN
};

/// The earlier index fails; nothing else is read.
const TORN_EARLIER: Case<'static> = Case {
    name: "a reader of the earlier index that fails",
    torn: Torn::Earlier,
    begun: 1,
    told: "earlier",
    ..TORN
};

/// A fault of the earlier index goes before all that the index has.
const FAULT: Case<'static> = Case {
    name: "a fault of the earlier index",
    earlier: Some(b" x"),
    begun: 2,
    status: 65,
    told: "a fault of the earlier index",
    ..TORN
};

static TORN_ONES: [Case<'static>; 3] = [TORN, TORN_BACKGROUND, TORN_EARLIER];

/// The reader that fails does so behind so many bytes of its text.
fn expect_torn(
    rt: &(impl Abort + Threads + Sync + AllocGlobal),
    torn: &Case<'static>,
    count: usize,
) {
    let mut case = *torn;
    match torn.torn {
        Torn::Background => case.background = Some(&BACKGROUND[..count.min(BACKGROUND.len())]),
        Torn::Earlier => case.earlier = Some(&EARLIER[..count.min(EARLIER.len())]),
        _ => case.index = &INDEX[..count.min(INDEX.len())],
    }
    expect_answer(rt, &case);
}

#[test]
fn readers_fail_behind_each_byte(rt: HostRuntime) {
    for torn in &TORN_ONES {
        for count in 0..=INDEX.len() {
            expect_torn(&rt, torn, count);
        }
    }
}

static RUNS: [Case<'static>; 2] = [GOES_ON, FAULT];

#[test]
fn runs_since_an_earlier_index(rt: HostRuntime) {
    for case in &RUNS {
        expect_answer(&rt, case);
    }
}
