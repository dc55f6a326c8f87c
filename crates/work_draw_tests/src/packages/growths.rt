//! One test for each call that can want memory; trials/growths runs them with each growth refused in turn.

use crate::packages::expected::{Call, EVERYTHING, TOLD};
use crate::packages::lent::expect_each;
use std::alloc::AllocError;

const TOLD_OF_ALL: [Call; 1] = [Call::ToldIn(EVERYTHING)];

#[test]
fn of_closure(rt: HostRuntime) -> Result<(), AllocError> {
    let cases = "essential conflict
base 1 {Essential: yes} / x 1 {Conflicts: base}
1 closure [0, 1]

missing further down
a 1 {Depends: b} / b 1 {Depends: c (>= 2)} / c 1
0 closure [0, 1]";
    expect_each(&rt, true, &[], cases)
}

#[test]
fn of_verdict(rt: HostRuntime) -> Result<(), AllocError> {
    let cases = "two missing\na 1 {Depends: x, y}\n0 core [Need(0, 1)]";
    expect_each(&rt, true, &[Call::Verdict], cases)
}

/// A package that is broken, and then in the same workspace one of another index that is not.
#[test]
fn of_verdicts_by_turns(rt: HostRuntime) -> Result<(), AllocError> {
    let cases = "two missing
a 1 {Depends: x, y}
0 core [Need(0, 1)]

alternatives
a 1 {Depends: b | c} / b 1 / c 1
0 set [0, 2]";
    expect_each(&rt, true, &TOLD_OF_ALL, cases)
}

/// The essential package that a groundwork knows of decides the verdict over it.
#[test]
fn of_groundwork(rt: HostRuntime) -> Result<(), AllocError> {
    let cases = "essential conflict
base 1 {Essential: yes} / x 1 {Conflicts: base}
1 core [Essential(0), Apart(1, 0)]";
    expect_each(&rt, true, &TOLD_OF_ALL, cases)
}

#[test]
fn of_find_installable(rt: HostRuntime) -> Result<(), AllocError> {
    let cases = "alternatives
a 1 {Depends: b | c} / b 1 / c 1
marks 0 1 2 = [true, true, true]";
    expect_each(&rt, true, &[], cases)
}

/// A package that is found to be installable though it isn't seen, a broken one, and one that is seen.
#[test]
fn of_told_in(rt: HostRuntime) -> Result<(), AllocError> {
    let cases = "answer between two that lead nowhere
a 1 {Depends: b | c | d} / b 1 {Conflicts: e} / c 1 / d 1 {Conflicts: e} / e 1 {Essential: yes}
0 set [0, 2, 4]
1 core [Essential(4), Apart(1, 0)]
2 set [2, 4]";
    expect_each(&rt, true, &TOLD, cases)
}

/// The causes that an index with a groundwork has, before any verdict of it.
#[test]
fn of_all_cores(rt: HostRuntime) -> Result<(), AllocError> {
    let cases = "two missing\na 1 {Depends: x, y}\n0 cores [[Need(0, 1)], [Need(0, 0)]]";
    expect_each(&rt, true, &[], cases)
}

#[test]
fn of_workspace(rt: HostRuntime) -> Result<(), AllocError> {
    expect_each(&rt, true, &[], "nothing is asked\na 1\n")
}
