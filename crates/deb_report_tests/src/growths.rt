//! One test for each call that can want memory; trials/growths runs them with each growth refused in turn.

use crate::asking::{Case, expect};
use crate::causes::{CHAIN_SHOWN, KINDS_IN_JSON, SHARED_TOLD};
use crate::later::FIRST_IN_JSON;
use crate::parts::{FAILURES, PLACES_OF_NAMES, SUCCESSES, UNKNOWN_NAME};
use crate::since::{NEWS, SINCE, SINCE_IN_JSON};
use crate::why::{EDITOR_DOCUMENT, EDITOR_WALK, expect_walk};
use run_settings::Config;
use std::alloc::AllocGlobal;
use std::process::Abort;
use std::test::Fail;

#[test]
fn of_usual(rt: HostRuntime) -> Result<(), Fail> {
    let config = Config::usual(rt.alloc())?;
    assert!(rt; config.workers == 4);
    Ok(())
}

fn expect_each(
    rt: &(impl Abort + AllocGlobal),
    cases: &[Case<'static, 'static, 'static>],
) -> Result<(), Fail> {
    for case in cases {
        expect(rt, case)?;
    }
    Ok(())
}

/// Some of several names, one of them twice, and a name that is unknown.
static PLACES: &[Case<'static, 'static, 'static>] = &[PLACES_OF_NAMES, UNKNOWN_NAME];

#[test]
fn of_asked_places(rt: HostRuntime) -> Result<(), Fail> {
    expect_each(&rt, PLACES)
}

/// Broken packages alone, and the others alone.
static SHOWN: &[Case<'static, 'static, 'static>] = &[FAILURES, SUCCESSES];

#[test]
fn of_report(rt: HostRuntime) -> Result<(), Fail> {
    expect_each(&rt, SHOWN)
}

static WITH_CAUSES: &[Case<'static, 'static, 'static>] = &[CHAIN_SHOWN];

#[test]
fn of_report_with_causes(rt: HostRuntime) -> Result<(), Fail> {
    expect_each(&rt, WITH_CAUSES)
}

static IN_JSON: &[Case<'static, 'static, 'static>] = &[KINDS_IN_JSON];

#[test]
fn of_json_report(rt: HostRuntime) -> Result<(), Fail> {
    expect_each(&rt, IN_JSON)
}

/// All reasons that are known, in JSON.
static TOLD: &[Case<'static, 'static, 'static>] = &[FIRST_IN_JSON];

#[test]
fn of_report_told(rt: HostRuntime) -> Result<(), Fail> {
    expect_each(&rt, TOLD)
}

/// All causes that are known.
static TOLD_WITH_CAUSES: &[Case<'static, 'static, 'static>] = &[SHARED_TOLD];

#[test]
fn of_report_told_with_causes(rt: HostRuntime) -> Result<(), Fail> {
    expect_each(&rt, TOLD_WITH_CAUSES)
}

/// A core as it is walked.
#[test]
fn of_report_with_walk(rt: HostRuntime) -> Result<(), Fail> {
    expect_walk(&rt, &EDITOR_WALK)
}

/// Where a walk goes on from each reason, in JSON.
#[test]
fn of_json_report_with_walk(rt: HostRuntime) -> Result<(), Fail> {
    expect_walk(&rt, &EDITOR_DOCUMENT)
}

/// The places of what is newly broken.
static NEWLY_BROKEN: &[Case<'static, 'static, 'static>] = &[NEWS];

#[test]
fn of_newly_broken(rt: HostRuntime) -> Result<(), Fail> {
    expect_each(&rt, NEWLY_BROKEN)
}

/// The broken packages of an earlier index, and what became of them, with the causes of what is newly broken.
static SINCE_EARLIER: &[Case<'static, 'static, 'static>] = &[SINCE];

#[test]
fn of_report_since(rt: HostRuntime) -> Result<(), Fail> {
    expect_each(&rt, SINCE_EARLIER)
}

static DOCUMENT_SINCE: &[Case<'static, 'static, 'static>] = &[SINCE_IN_JSON];

#[test]
fn of_json_report_since(rt: HostRuntime) -> Result<(), Fail> {
    expect_each(&rt, DOCUMENT_SINCE)
}
