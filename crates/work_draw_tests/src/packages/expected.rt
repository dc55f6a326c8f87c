//! What is expected of the packages of an index, and whether it is found.
//!
//! It is a text with a line for each answer. The line `1 set [0, 1]` has the place of a package and its verdict, `2 core [Need(2, 0)]`
//! that of a broken one, `0 closure [0, 1]` its closure, and `2 cores [[Need(2, 0)]]` the cores of all its causes.
//! The line `marks 0 1 = [true, true, false]` has places, and which packages are seen to be installable where these are asked for.

ghost use Rattle.std.specs.Prelude.{◌<◌, length};

use crate::packages::compared::compare_value;
use crate::packages::grounded::Grounded;
use crate::packages::marks::expect_marks;
use deb_index::Index;
use deb_verdict::{Cores, Told, Verdict, Wanted, Workspace, closure, told_in, verdict, verdict_in};
use std::alloc::{AllocError, AllocGlobal};
use std::process::Abort;

/// The short text of an index, and what is expected of it.
#[derive(Clone, Copy)]
pub struct Case<'a> {
    pub name: &'a str,
    pub text: &'a str,
    pub expected: &'a str,
}

impl<'a> Case<'a> {
    /// Reads lines: the name, the text, and a line for each answer.
    pub fn read(told: &'a str) -> Option<Case<'a>> {
        let (name, rest) = told.split_once('\n')?;
        let (text, expected) = rest.split_once('\n')?;
        Some(Case {
            name,
            text,
            expected,
        })
    }
}

/// A call that has to give the verdict that is expected, or what is told of it.
#[derive(Clone, Copy)]
pub enum Call {
    Verdict,
    VerdictIn,
    ToldIn(Wanted),
}

const STATUS: Wanted = Wanted {
    sets: false,
    cores: Cores::None,
};

const FIRST_CORE: Wanted = Wanted {
    sets: false,
    cores: Cores::First,
};

const SET: Wanted = Wanted {
    sets: true,
    cores: Cores::None,
};

pub const EVERYTHING: Wanted = Wanted {
    sets: true,
    cores: Cores::All,
};

/// What is told of a package where not all of it is wanted, and where all is.
pub const TOLD: [Call; 5] = [
    Call::VerdictIn,
    Call::ToldIn(STATUS),
    Call::ToldIn(FIRST_CORE),
    Call::ToldIn(SET),
    Call::ToldIn(EVERYTHING),
];

pub const ALL: [Call; 6] = [
    Call::Verdict,
    Call::VerdictIn,
    Call::ToldIn(STATUS),
    Call::ToldIn(FIRST_CORE),
    Call::ToldIn(SET),
    Call::ToldIn(EVERYTHING),
];

pub fn expect_lines(
    rt: &(impl Abort + AllocGlobal),
    workspace: &mut Workspace,
    grounded: &Grounded<'_>,
    calls: &[Call],
    case: &Case<'_>,
) -> Result<(), AllocError> {
    for line in case.expected.lines() {
        let (place, wanted) = line.split_once(' ').expect(rt, case.name);
        if place == "marks" {
            expect_marks(rt, grounded, case.name, wanted)?;
        } else {
            let p = place.parse::<u32>().expect(rt, case.name);
            expect_answer(rt, workspace, grounded, calls, case.name, p, wanted)?;
        }
    }
    Ok(())
}

/// Compares what is found of the package at a place with what is expected.
fn expect_answer(
    rt: &(impl Abort + AllocGlobal),
    workspace: &mut Workspace,
    grounded: &Grounded<'_>,
    calls: &[Call],
    name: &str,
    p: u32,
    wanted: &str,
) -> Result<(), AllocError> {
    assert!(rt; p < grounded.index.len(), "{name}");
    if wanted.starts_with("closure ") {
        expect_closure(rt, grounded.index, name, p, wanted)
    } else if wanted.starts_with("cores ") {
        expect_cores(rt, workspace, grounded, name, p, wanted)
    } else {
        expect_verdict(rt, workspace, grounded, calls, name, p, wanted)
    }
}

fn expect_closure(
    rt: &(impl Abort + AllocGlobal),
    index: &Index,
    name: &str,
    p: u32,
    wanted: &str,
) -> Result<(), AllocError>
    requires { p < length index.now.packages }
{
    let members = closure(rt.alloc(), index, p)?;
    compare_value(rt, name, "closure", &members, wanted)
}

/// Compares the cores of all causes of a package.
fn expect_cores(
    rt: &(impl Abort + AllocGlobal),
    workspace: &mut Workspace,
    grounded: &Grounded<'_>,
    name: &str,
    p: u32,
    wanted: &str,
) -> Result<(), AllocError>
    requires { p < length grounded.now.index.now.packages }
{
    let told = told_in(rt.alloc(), workspace, &grounded.groundwork, p, EVERYTHING)?;
    compare_value(rt, name, "cores", &told.cores(), wanted)
}

/// Compares the verdict of a package. After a refusal the same workspace serves, and what was left in it changes no answer.
fn expect_verdict(
    rt: &(impl Abort + AllocGlobal),
    workspace: &mut Workspace,
    grounded: &Grounded<'_>,
    calls: &[Call],
    name: &str,
    p: u32,
    wanted: &str,
) -> Result<(), AllocError>
    requires { p < length grounded.now.index.now.packages }
{
    for call in calls {
        let first = expect_by(rt, workspace, grounded, *call, name, p, wanted);
        if first.is_err() {
            expect_by(rt, workspace, grounded, *call, name, p, wanted)?;
        }
        first?;
    }
    Ok(())
}

fn expect_by(
    rt: &(impl Abort + AllocGlobal),
    workspace: &mut Workspace,
    grounded: &Grounded<'_>,
    call: Call,
    name: &str,
    p: u32,
    wanted: &str,
) -> Result<(), AllocError>
    requires { p < length grounded.now.index.now.packages }
{
    let (alloc, groundwork) = (rt.alloc(), &grounded.groundwork);
    match call {
        Call::Verdict => {
            let found = verdict(alloc, grounded.index, p)?;
            compare_verdict(rt, name, &found, wanted)
        }
        Call::VerdictIn => {
            let found = verdict_in(alloc, workspace, groundwork, p)?;
            compare_verdict(rt, name, &found, wanted)
        }
        Call::ToldIn(what) => {
            let told = told_in(alloc, workspace, groundwork, p, what)?;
            compare_told(rt, name, &told, what, wanted)
        }
    }
}

/// Compares a verdict, as `set [0, 2]` or `core [Need(0, 1)]`, with what is expected.
fn compare_verdict(
    rt: &(impl Abort + AllocGlobal),
    name: &str,
    found: &Verdict,
    wanted: &str,
) -> Result<(), AllocError> {
    match found {
        Verdict::Ok(places) => compare_value(rt, name, "set", places, wanted),
        Verdict::Broken(core) => compare_value(rt, name, "core", core, wanted),
    }
}

/// Whether there are as many cores as are wanted of a broken package.
fn are_wanted(cores: usize, wanted: Cores) -> bool {
    match wanted {
        Cores::None => cores == 0,
        Cores::First => cores == 1,
        Cores::All => cores > 0,
    }
}

/// Compares what is told with a verdict, where that has it.
fn compare_told(
    rt: &(impl Abort + AllocGlobal),
    name: &str,
    told: &Told,
    what: Wanted,
    wanted: &str,
) -> Result<(), AllocError> {
    match told {
        Told::Installable => {
            assert!(rt; !what.sets && wanted.starts_with("set "), "{name}");
            Ok(())
        }
        Told::Set(places) => {
            assert!(rt; what.sets, "{name}");
            compare_value(rt, name, "set", places, wanted)
        }
        Told::Broken(cores) => {
            assert!(rt;
                are_wanted(cores.len(), what.cores) && wanted.starts_with("core "),
                "{name}"
            );
            match cores.as_slice() {
                [core, ..] => compare_value(rt, name, "core", core, wanted),
                [] => Ok(()),
            }
        }
    }
}
