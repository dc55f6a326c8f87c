//! The line of progress of a program: what it tells, and that it is gone before anything is written.

ghost use Rattle.std.specs.Prelude.{◌≡◌, false};

use crate::runs::{Left, run_line};
use debcheck::OpenFault;
use std::process::Abort;
use std::thread::Threads;
use test_devices::{CHAIN, Cabinet, Held, Screen, clock_of, sink_of, source_of};

/// Words of a program that checks packages one by one.
pub const ONE_BY_ONE: &str = "|--arch|amd64|--explain|--workers|1|--chunk|1";

/// A program on three packages, which an earlier index has, too. The clock goes on by more than a second at each look: the line is written before the
/// first package of a check, and again of each.
fn run_beside(
    rt: &(impl Threads + Sync + AllocGlobal),
    line: &str,
    screen: &Screen<'_>,
    output: Held,
) -> Left
    requires { output.failed ≡ false }
{
    run_line(
        &clock_of(rt, 1_200),
        line,
        &Cabinet::new(&[("earlier", CHAIN)], OpenFault::Unopened),
        &mut source_of(CHAIN, 11),
        screen,
        output,
        sink_of(rt.alloc(), 50, 0, false),
    )
}

/// The line was written five times, once while the index was read, and it is gone before anything is written to this output or to the errors.
fn expect_gone(
    rt: &(impl Abort + Threads + Sync + AllocGlobal),
    output: Held,
    status: u8,
    told: &[u8],
)
    requires { output.failed ≡ false }
{
    let screen = Screen::new(true, b"\r2 of 3 packages checked");
    let left = run_beside(rt, ONE_BY_ONE, &screen, output);
    assert!(rt; screen.lines() == 1 && screen.others() == 4);
    assert!(rt; left.is_uncrowded(&screen) && left.status == status && left.output.calls > 0);
    assert!(rt; left.errors.bytes.as_slice() == told);
}

#[test]
fn a_line_is_gone_before_anything_is_written(rt: HostRuntime) {
    let alloc = rt.alloc();
    let unwritten = b"debcheck: cannot write the report\n";
    expect_gone(&rt, sink_of(alloc, 50, 0, false), 1, b"");
    expect_gone(&rt, sink_of(alloc, 50, 1, false), 68, unwritten);
}

/// With an earlier index its packages are counted first, and then those of the index.
#[test]
fn the_packages_of_both_indexes_are_counted(rt: HostRuntime) {
    let screen = Screen::new(true, b"\r1 of 3 packages checked");
    let output = sink_of(rt.alloc(), 50, 0, false);
    let line = "|--arch|amd64|--since|earlier|--workers|1|--chunk|1";
    let left = run_beside(&rt, line, &screen, output);
    assert!(rt; left.is_uncrowded(&screen) && screen.lines() == 2 && screen.others() == 7);
}
