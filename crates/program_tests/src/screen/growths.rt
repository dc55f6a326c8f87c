//! A whole program that can want memory; trials/growths runs it with each growth refused in turn.

use crate::runs::{Left, run_line};
use crate::screen::progress::ONE_BY_ONE;
use debcheck::OpenFault;
use std::process::Abort;
use std::test::Fail;
use test_devices::{CHAIN, CHAIN_REPORT, Cabinet, Screen, clock_of, sink_with_room, source_of};
use test_texts::report_of;

/// Where memory is wanted behind the first chunks, the line of progress is gone, too, before that is told.
#[test]
fn of_run_program(rt: HostRuntime) -> Result<(), Fail> {
    let report = report_of(rt.alloc(), CHAIN_REPORT)?;
    let output = sink_with_room(rt.alloc(), 1_000, 0)?;
    let errors = sink_with_room(rt.alloc(), 1_000, 0)?;
    let screen = Screen::new(true, b"");
    let left = run_line(
        &clock_of(&rt, 1_200),
        ONE_BY_ONE,
        &Cabinet::new(&[("earlier", CHAIN)], OpenFault::Unopened),
        &mut source_of(CHAIN, 11),
        &screen,
        output,
        errors,
    );
    assert!(rt; left.is_uncrowded(&screen));
    expect_ended(&rt, &left, &report)
}

fn expect_ended(rt: &impl Abort, left: &Left, report: &str) -> Result<(), Fail> {
    let told = left.errors.bytes.as_slice();
    if left.status == 69 {
        assert!(rt; left.output.calls == 0 && told == b"debcheck: out of memory\n".as_slice());
        return Err(Fail::new("out of memory"));
    }
    assert!(rt; left.status == 1 && told.is_empty());
    assert!(rt; left.output.bytes.as_slice() == report.as_bytes());
    Ok(())
}
