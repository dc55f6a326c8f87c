//! One test for each call that can want memory; trials/growths runs them with each growth of memory refused in turn.

use crate::cases::{BY_TWO, Case, EMPTY, NOTHING, Settings, expect};
use crate::since_runs::{SINCE, SINCE_WITH_ALL_REASONS};
use deb_input::RunFault;
use deb_report::Summary;
use debcheck::write_fault;
use std::alloc::{AllocError, Global};
use std::process::Abort;
use test_devices::{BACKED_REPORT, BACKGROUND, CHAIN, CHAIN_REPORT, Held, INDEX, sink_with_room};

static NO_TEXT: Case<'static> = EMPTY;

/// No text, with a writer that takes one byte a call.
#[test]
fn of_run(rt: HostRuntime) -> Result<(), AllocError> {
    expect(&rt, &NO_TEXT)
}

static FAILING: Case<'static> = Case {
    name: "a failing writer",
    fails_at: 5,
    status: 68,
    summary: None,
    ..EMPTY
};

/// The same, and the writer fails at its fifth call.
#[test]
fn of_run_with_a_failing_writer(rt: HostRuntime) -> Result<(), AllocError> {
    expect(&rt, &FAILING)
}

/// Two packages are broken, each by one cause.
const TWO_BROKEN: Case<'static> = Case {
    name: "all reasons",
    settings: Settings {
        all_reasons: true,
        ..BY_TWO
    },
    index: CHAIN,
    step: 11,
    room: 50,
    written: CHAIN_REPORT,
    status: 1,
    summary: Some(Summary {
        stanzas: 3,
        asked: 3,
        broken: 2,
        ..NOTHING
    }),
    ..EMPTY
};

static ALL_REASONS: Case<'static> = TWO_BROKEN;

#[test]
fn of_run_with_all_reasons(rt: HostRuntime) -> Result<(), AllocError> {
    expect(&rt, &ALL_REASONS)
}

static TEXTS_SINCE: Case<'static> = SINCE;

/// An index, a background and an earlier index, each with a package.
#[test]
fn of_run_since(rt: HostRuntime) -> Result<(), AllocError> {
    expect(&rt, &TEXTS_SINCE)
}

static REASONS_SINCE: Case<'static> = SINCE_WITH_ALL_REASONS;

/// The same where all reasons are told; there is one.
#[test]
fn of_run_since_with_all_reasons(rt: HostRuntime) -> Result<(), AllocError> {
    expect(&rt, &REASONS_SINCE)
}

/// Three packages, two of them broken, in three chunks.
const COUNTED: Case<'static> = Case {
    name: "two workers",
    settings: BY_TWO,
    step: 1_000,
    room: 1_000,
    ..TWO_BROKEN
};

static BY_ONE_WORKER: Case<'static> = Case {
    name: "one worker",
    settings: Settings {
        workers: 1,
        ..BY_TWO
    },
    ..COUNTED
};

#[test]
fn of_run_with_one_worker(rt: HostRuntime) -> Result<(), AllocError> {
    expect(&rt, &BY_ONE_WORKER)
}

static BY_TWO_WORKERS: Case<'static> = COUNTED;

#[test]
fn of_run_with_two_workers(rt: HostRuntime) -> Result<(), AllocError> {
    expect(&rt, &BY_TWO_WORKERS)
}

/// A package that needs one of the background, and a broken one, by two workers.
static BACKED: Case<'static> = Case {
    name: "a background",
    index: INDEX,
    background: Some(BACKGROUND),
    step: 1_000,
    begun: 2,
    room: 1_000,
    written: BACKED_REPORT,
    status: 1,
    summary: Some(Summary {
        stanzas: 4,
        background: 2,
        asked: 2,
        broken: 1,
        ..NOTHING
    }),
    ..EMPTY
};

#[test]
fn of_run_with_a_background(rt: HostRuntime) -> Result<(), AllocError> {
    expect(&rt, &BACKED)
}

const UNKNOWN_LINE: &[u8] = b"debcheck: unknown package zz\n";

fn unknown_package(alloc: Global) -> Result<RunFault, AllocError> {
    let name = Vec::from_slice(alloc, b"zz")?;
    Ok(RunFault::UnknownAsked { name })
}

/// A fault whose line finds no memory is told as want of memory.
#[test]
fn of_write_fault(rt: HostRuntime) -> Result<(), AllocError> {
    let mut errors = sink_with_room(rt.alloc(), 7, 0)?;
    let fault = unknown_package(rt.alloc())?;
    let written = write_fault(rt.alloc(), &mut errors, &fault).is_ok();
    drop(fault);
    expect_errors(&rt, &errors, written)
}

fn expect_errors(rt: &impl Abort, errors: &Held, written: bool) -> Result<(), AllocError> {
    assert!(rt; written && errors.flushed);
    if errors.bytes.as_slice() == UNKNOWN_LINE {
        return Ok(());
    }
    assert!(rt; errors.bytes.as_slice() == b"debcheck: out of memory\n".as_slice());
    Err(AllocError)
}
