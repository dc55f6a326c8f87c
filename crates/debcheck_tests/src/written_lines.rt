//! The line of a fault, written to a writer of std that fails: how each failure is answered, and in how many calls; and what is written of words
//! that ask for no run.

use crate::counted::{Counting, writer_of};
use command_line::LineFault;
use deb_input::RunFault;
use debcheck::{write_fault, write_line_fault};
use devices::{Sink, Std};
use std::alloc::Global;
use std::io::ErrorKind;
use std::process::Abort;
use test_devices::{Held, sink_of};

/// Whether writing a line is fine or not, with so many bytes taken, by so many writes and flushes.
fn writes_over(
    alloc: Global,
    mut inner: Counting,
    fine: bool,
    taken: usize,
    calls: [u32; 2],
) -> bool {
    let written = write_fault(alloc, &mut Std::new(&mut inner), &RunFault::Memory);
    written.is_ok() == fine
        && inner.taken == taken
        && inner.writes == calls[0]
        && inner.flushes == calls[1]
}

/// The line has 24 bytes.
#[test]
fn a_line_is_written_in_few_writes_and_flushed_once(rt: HostRuntime) {
    for (step, calls) in [(1000, [1, 1]), (5, [5, 1])] {
        let inner = writer_of(step, 0, false, ErrorKind::Other);
        assert!(rt; writes_over(rt.alloc(), inner, true, 24, calls));
    }
}

/// How many bytes a writer takes at each write, at which it fails, whether it fails at the flush, how many bytes it has then, and its calls.
const FAILURES: [(usize, u32, bool, usize, [u32; 2]); 7] = [
    (5, 1, false, 0, [1, 0]),
    (5, 2, false, 5, [2, 0]),
    (5, 3, false, 10, [3, 0]),
    (5, 4, false, 15, [4, 0]),
    (5, 5, false, 20, [5, 0]),
    (5, 0, true, 24, [5, 1]),
    (0, 0, false, 0, [1, 0]),
];

/// An interrupted write or flush is one that failed. Nothing is written after it.
#[test]
fn each_write_and_the_flush_fail_in_turn(rt: HostRuntime) {
    for kind in [ErrorKind::Other, ErrorKind::Interrupted] {
        for (step, fails_at, flush_fails, taken, calls) in FAILURES {
            let inner = writer_of(step, fails_at, flush_fails, kind);
            assert!(rt; writes_over(rt.alloc(), inner, false, taken, calls));
        }
    }
}

/// Whether a device says that nobody reads it any more, once writing a line to it failed.
fn is_abandoned(alloc: Global, mut inner: Counting) -> bool {
    let mut device = Std::new(&mut inner);
    let _ = write_fault(alloc, &mut device, &RunFault::Memory);
    device.is_abandoned()
}

#[test]
fn a_broken_pipe_alone_is_abandoned(rt: HostRuntime) {
    for (kind, wanted) in [
        (ErrorKind::BrokenPipe, true),
        (ErrorKind::Other, false),
        (ErrorKind::Interrupted, false),
    ] {
        for (fails_at, flush_fails) in [(1, false), (0, true)] {
            let inner = writer_of(5, fails_at, flush_fails, kind);
            assert!(rt; is_abandoned(rt.alloc(), inner) == wanted);
        }
    }
}

/// What is written of a line that gives no configuration, to an output and to errors that fail at this write.
fn written_of(alloc: Global, fault: &LineFault, fails_at: u32) -> (bool, Held, Held) {
    let mut output = sink_of(alloc, 7, 0, false);
    let mut errors = sink_of(alloc, 1, fails_at, false);
    let written = write_line_fault(&mut output, &mut errors, fault);
    (written.is_ok(), output, errors)
}

/// These bytes, flushed where there are some.
fn holds(device: &Held, wanted: &str) -> bool {
    device.bytes.as_slice() == wanted.as_bytes() && device.flushed != wanted.is_empty()
}

fn expect_lines(rt: &(impl Abort + AllocGlobal), fault: &LineFault, wanted: [&str; 2]) {
    let (written, output, errors) = written_of(rt.alloc(), fault, 0);
    assert!(rt; written && holds(&output, wanted[0]) && holds(&errors, wanted[1]));
}

#[test]
fn help_goes_to_the_output(rt: HostRuntime) {
    let text = String::from_str(rt.alloc(), "Usage\n").expect(&rt, "no memory");
    expect_lines(&rt, &LineFault::Help { text }, ["Usage\n", ""]);
}

#[test]
fn a_refusal_and_want_of_memory_go_to_the_errors(rt: HostRuntime) {
    let text = String::from_str(rt.alloc(), "error: no\n").expect(&rt, "no memory");
    expect_lines(&rt, &LineFault::Refused { text }, ["", "error: no\n"]);
    expect_lines(&rt, &LineFault::Memory, ["", "debcheck: out of memory\n"]);
}

/// A failed write to the errors is told, and nothing comes to the output.
#[test]
fn the_errors_fail_at_the_fifth_write(rt: HostRuntime) {
    let (written, output, errors) = written_of(rt.alloc(), &LineFault::Memory, 5);
    assert!(rt;
        !written && output.bytes.is_empty() && errors.bytes.as_slice() == b"debc".as_slice()
    );
}
