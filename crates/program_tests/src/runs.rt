//! Programs on devices over memory, and what each comes to.

ghost use Rattle.std.specs.Prelude.{◌≡◌, false};

use debcheck::{LineFault, Opener, Source, run_program};
use std::alloc::Global;
use std::io::IsTerminal;
use std::process::Abort;
use std::thread::Threads;
use std::time::Clock;
use test_devices::{Beside, Cabinet, Feed, Held, Screen, sink_of, source_of, words_in};
use test_texts::{index_of, report_of};

/// What a program left, and how often it wrote to its output and to its errors while a line stood on the screen.
#[derive(Drop)]
pub struct Left {
    pub status: u8,
    pub output: Held,
    pub errors: Held,
    crowded: [u32; 2],
}

impl Left {
    /// No line stood where anything was written, and no line, nor the end of one, stands there.
    pub fn is_uncrowded(&self, screen: &Screen<'_>) -> bool {
        self.crowded == [0, 0] && !screen.stands() && screen.ends_left() == 0
    }
}

/// The words of a line, as `main` hands them to a program.
fn words_of_line(alloc: Global, line: &str) -> Result<Vec<String>, LineFault> {
    Ok(words_in(alloc, line)?)
}

/// The program under the words of a line.
pub fn run_line<O: Opener, S: Source + IsTerminal, R: Clock + Threads + Sync + AllocGlobal>(
    rt: &R,
    line: &str,
    files: &O,
    reader: &mut S,
    screen: &Screen<'_>,
    output: Held,
    errors: Held,
) -> Left
    requires reader { S.failed reader.old ≡ false }
    requires output { output.failed ≡ false }
    requires errors { errors.failed ≡ false }
{
    let words = words_of_line(rt.alloc(), line);
    let output = Beside::new(screen, output);
    let mut errors = Beside::new(screen, errors);
    let ended = run_program(rt, words, files, reader, output, &mut errors, screen);
    Left {
        status: ended.status,
        crowded: [ended.output.crowded, errors.crowded],
        output: ended.output.held,
        errors: errors.held,
    }
}

/// What a program is given, its status, and what it tells: on the output where the status is 0 or 1, else on the errors. The words have a `|` before
/// each.
#[derive(Clone, Copy)]
pub struct Case<'a> {
    pub words: &'a str,
    pub index: &'a [u8],
    pub status: u8,
    pub told: &'a [u8],
}

/// The program under the words of a line, on sinks that take all and a screen that is none.
pub fn run_on(
    rt: &(impl Clock + Threads + Sync + AllocGlobal),
    line: &str,
    files: &Cabinet<'_>,
    reader: &mut Feed<'_>,
) -> Left
    requires { reader.old.failed ≡ false }
{
    let alloc = rt.alloc();
    let screen = Screen::new(false, b"");
    let (output, errors) = (sink_of(alloc, 50, 0, false), sink_of(alloc, 50, 0, false));
    run_line(rt, line, files, reader, &screen, output, errors)
}

/// A device has this text, and was flushed where there is one.
fn has_text(device: &Held, text: &[u8]) -> bool {
    device.bytes.as_slice() == text && device.flushed != text.is_empty()
}

/// The program comes to what the case says, on what this reader gives.
pub fn expect_of(
    rt: &(impl Abort + Clock + Threads + Sync + AllocGlobal),
    files: &Cabinet<'_>,
    reader: &mut Feed<'_>,
    case: &Case<'_>,
)
    requires { reader.old.failed ≡ false }
{
    let left = run_on(rt, case.words, files, reader);
    let (teller, other) = if case.status < 2 {
        (&left.output, &left.errors)
    } else {
        (&left.errors, &left.output)
    };
    assert!(rt;
        left.status == case.status && has_text(teller, case.told) && has_text(other, b""),
        "{}: {}",
        case.words,
        left.status
    );
}

/// The program comes to what the case says. Gives how often its index was read.
pub fn expect_on(
    rt: &(impl Abort + Clock + Threads + Sync + AllocGlobal),
    files: &Cabinet<'_>,
    case: &Case<'_>,
) -> u32 {
    let mut reader = source_of(case.index, 11);
    expect_of(rt, files, &mut reader, case);
    reader.reads
}

/// On an index the program under the words of `WORDS gives STATUS` comes to the report or the fault behind that line.
fn expect_told(
    rt: &(impl Abort + Clock + Threads + Sync + AllocGlobal),
    files: &Cabinet<'_>,
    index: &[u8],
    told: &str,
) {
    let (head, report) = told.split_once('\n').expect(rt, "nothing is told");
    let (words, status) = head.split_once(" gives ").expect(rt, "no status");
    let report = report_of(rt.alloc(), report).expect(rt, "no memory");
    let case = Case {
        words,
        index,
        status: status.parse::<u8>().expect(rt, "no status"),
        told: report.as_bytes(),
    };
    let _ = expect_on(rt, files, &case);
}

/// The same of each such text of a document, on an index that may be written shortly, as what is told may be.
pub fn expect_each(
    rt: &(impl Abort + Clock + Threads + Sync + AllocGlobal),
    files: &Cabinet<'_>,
    index: &str,
    document: &str,
) {
    let index = index_of(rt.alloc(), index).expect(rt, "no memory");
    for told in document.split("\n====\n") {
        expect_told(rt, files, index.as_bytes(), told);
    }
}
