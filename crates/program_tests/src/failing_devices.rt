//! Programs on devices that fail at each place where they can.

ghost use Rattle.std.specs.Prelude.{◌≡◌, false};

use crate::runs::{Case, Left, expect_of, run_line};
use debcheck::OpenFault;
use std::process::Abort;
use std::thread::Threads;
use std::time::Clock;
use test_devices::{
    BACKED_REPORT, BACKGROUND, Cabinet, Feed, Held, INDEX, Screen, sink_of, source_of,
};
use test_texts::report_of;

/// The program comes to what the case says, where its background fails behind this front.
fn expect_refusal(
    rt: &(impl Abort + Clock + Threads + Sync + AllocGlobal),
    case: &Case,
    mut reader: Feed<'_>,
    background: &[u8],
)
    requires { reader.failed ≡ false }
{
    let files = [("others", background)];
    let mut files = Cabinet::new(&files, OpenFault::Unopened);
    files.torn = true;
    expect_of(rt, &files, &mut reader, case);
}

/// The index fails, with a background that fails at once and without one.
static NO_INDEX: [Case<'static>; 2] = [
    Case {
        words: "|--arch|amd64|--explain|--bg|others",
        index: INDEX,
        status: 67,
        told: b"debcheck: cannot read the index\n",
    },
    Case {
        words: "|--arch|amd64|--failures",
        index: INDEX,
        status: 67,
        told: b"debcheck: cannot read the index\n",
    },
];

/// A failed read of the background goes before an unknown name.
static NO_BACKGROUND: Case<'static> = Case {
    words: "|--arch|amd64|--bg|others|--checkonly|nobody",
    index: INDEX,
    status: 67,
    told: b"debcheck: cannot read the background\n",
};

#[test]
fn a_reader_fails_behind_each_byte(rt: HostRuntime) {
    for case in &NO_INDEX {
        for count in 0..=INDEX.len() {
            let mut reader = source_of(&INDEX[..count], 1);
            reader.fails = true;
            expect_refusal(&rt, case, reader, b"");
        }
    }
    for count in 0..=BACKGROUND.len() {
        let front = &BACKGROUND[..count];
        expect_refusal(&rt, &NO_BACKGROUND, source_of(INDEX, 11), front);
    }
    for index in [b" x".as_slice(), b"Package: a!"] {
        expect_refusal(&rt, &NO_BACKGROUND, source_of(index, 11), b" x");
    }
}

/// What a program leaves on these devices.
fn written_to(
    rt: &(impl Clock + Threads + Sync + AllocGlobal),
    words: &str,
    output: Held,
    errors: Held,
) -> Left
    requires output { output.failed ≡ false }
    requires errors { errors.failed ≡ false }
{
    let files = [("others", BACKGROUND)];
    let files = Cabinet::new(&files, OpenFault::Unopened);
    let screen = Screen::new(false, b"");
    let mut reader = source_of(INDEX, 11);
    run_line(rt, words, &files, &mut reader, &screen, output, errors)
}

/// What is written to an output, by how many writes and flushes.
#[derive(Clone, Copy)]
struct Written<'a> {
    bytes: &'a [u8],
    calls: usize,
    flushes: u32,
}

/// The program writes so to this output, and ends with this status. Where it fails, that is told.
fn expect_written(
    rt: &(impl Abort + Clock + Threads + Sync + AllocGlobal),
    words: &str,
    output: Held,
    written: &Written<'_>,
    status: u8,
)
    requires { output.failed ≡ false }
{
    let left = written_to(rt, words, output, sink_of(rt.alloc(), 50, 0, false));
    let told = if status == 1 {
        b"".as_slice()
    } else {
        UNWRITTEN
    };
    assert!(rt;
        left.status == status
            && left.errors.bytes.as_slice() == told
            && left.output.bytes.as_slice() == written.bytes
            && left.output.calls as usize == written.calls
            && left.output.flushes == written.flushes
    );
}

const UNWRITTEN: &[u8] = b"debcheck: cannot write the report\n";

/// The words of programs, and their reports.
static REPORTS: [(&str, &str); 2] = [
    ("|--arch|amd64|--explain|--bg|others", BACKED_REPORT),
    ("|--arch|amd64|--failures", FAILURES),
];

const FAILURES: &str = "a 1: broken
c 1: broken
stanzas 2, skipped 0, duplicates 0, asked 2, broken 2";

/// The report is written byte by byte and flushed once. Where the flush fails, that is told.
#[test]
fn one_byte_a_call_writes_the_whole_report(rt: HostRuntime) {
    for (words, report) in &REPORTS {
        let report = report_of(rt.alloc(), *report).expect(&rt, "no memory");
        let written = Written {
            bytes: report.as_bytes(),
            calls: report.len(),
            flushes: 1,
        };
        for (flush_fails, status) in [(false, 1), (true, 68)] {
            let output = sink_of(rt.alloc(), 1, 0, flush_fails);
            expect_written(&rt, *words, output, &written, status);
        }
    }
}

/// The output takes a front byte by byte, and at the next write it fails or takes no byte: then nothing more is asked of it.
#[test]
fn each_write_fails_in_turn(rt: HostRuntime) {
    let words = "|--arch|amd64|--failures";
    let report = report_of(rt.alloc(), FAILURES).expect(&rt, "no memory");
    let report = report.as_bytes();
    let mut call: u32 = 0;
    for count in 0..report.len() {
        call = call.saturating_add(1);
        let written = Written {
            bytes: &report[..count],
            calls: count + 1,
            flushes: 0,
        };
        let fails = sink_of(rt.alloc(), 1, call, false);
        expect_written(&rt, words, fails, &written, 68);
        let mut sticks = sink_of(rt.alloc(), 1, 0, false);
        sticks.sticks_at = call;
        expect_written(&rt, words, sticks, &written, 68);
    }
}
