//! One test for each call that can want memory; trials/growths runs them with each growth refused in turn.
//! Each then gives the error, once it has seen that the call left everything fit for a second try.

use crate::drawn::Numbers;
use crate::scripts::{follow, formula_of, is_written};
use sat_solve::{Formula, Rotation, Workspace};
use std::alloc::{AllocError, AllocGlobal};
use std::process::Abort;

/// Not 0, or 1, or 2 in the one group, and not 2 in the other.
static TWO_CLAUSES: &str = "0: !0 1 2\n1: !2";

static ALL: [bool; 3] = [true, true, true];

static LAST_TWO: [bool; 3] = [false, true, true];

#[test]
fn of_new(rt: HostRuntime) -> Result<(), AllocError> {
    let mut formula = Formula::new(rt.alloc(), 3, 2)?;
    follow(&rt, &mut formula, "11 0 = 0")
}

/// Follows a line that adds something. A formula that refused it answers as before, and takes it the second time.
fn add(
    rt: &(impl Abort + AllocGlobal),
    formula: &mut Formula,
    line: &str,
    before: &str,
    behind: &str,
) -> Result<(), AllocError> {
    let added = follow(rt, formula, line);
    if added.is_err() {
        follow(rt, formula, before)?;
        follow(rt, formula, line)?;
    }
    follow(rt, formula, behind)?;
    added
}

/// A formula that starts over has no clause, whether or not there is room for the next one.
#[test]
fn of_add(rt: HostRuntime) -> Result<(), AllocError> {
    let mut formula = Formula::new(rt.alloc(), 3, 2)?;
    add(&rt, &mut formula, "0: !0 1 2", "11 0 = 0", "11 0 = 0 2")?;
    add(&rt, &mut formula, "1: !2", "11 0 = 0 2", "11 0 = 0 1")?;
    add(&rt, &mut formula, "1: !1", "11 0 = 0 1", "11 0 = none")?;
    formula.restart(5, 2);
    let line = "1: !0 4 3 2 1 4";
    add(&rt, &mut formula, line, "11 0 = 0", "11 0 = 0 4")
}

/// A formula that refused a list has none of its pairs, and takes all of them the second time.
#[test]
fn of_exclude(rt: HostRuntime) -> Result<(), AllocError> {
    let mut formula = formula_of(&rt, 3, 2, TWO_CLAUSES)?;
    let line = "1.0 0.1 excludes 0 1";
    add(&rt, &mut formula, line, "11 0 = 0 1", "11 0 = none")
}

#[test]
fn of_solve(rt: HostRuntime) -> Result<(), AllocError> {
    let mut formula = formula_of(&rt, 3, 2, TWO_CLAUSES)?;
    follow(&rt, &mut formula, "11 0 = 0 1")
}

/// Sees that the first set with a variable, where all groups are kept, is the one that is written, or there is none.
fn expect(
    rt: &(impl Abort + AllocGlobal),
    formula: &Formula,
    workspace: &mut Workspace,
    must: u32,
    wanted: &str,
) -> Result<(), AllocError> {
    let groups = formula.groups() as usize;
    assert!(rt; groups < 3 && must < formula.vars());
    let found = formula.solve_in(rt.alloc(), workspace, &ALL[..groups], must)?;
    assert!(rt; is_written(&found, wanted));
    Ok(())
}

/// A workspace that was refused memory, for whatever it does, serves the next solve.
fn solve(
    rt: &(impl Abort + AllocGlobal),
    formula: &Formula,
    must: u32,
    wanted: &str,
) -> Result<(), AllocError> {
    let mut workspace = Workspace::new(rt.alloc());
    let solved = expect(rt, formula, &mut workspace, must, wanted);
    if solved.is_err() {
        expect(rt, formula, &mut workspace, must, wanted)?;
    }
    solved
}

#[test]
fn of_solve_in(rt: HostRuntime) -> Result<(), AllocError> {
    let formula = formula_of(&rt, 3, 2, TWO_CLAUSES)?;
    solve(&rt, &formula, 0, "0 1")
}

/// A conflict of two decisions teaches a clause.
#[test]
fn of_learn(rt: HostRuntime) -> Result<(), AllocError> {
    let formula = formula_of(&rt, 4, 2, "0: 0 1 2\n1: 0 1 !2")?;
    solve(&rt, &formula, 3, "1 3")
}

/// Adds drawn clauses of three literals. No set meets them, as some 8,800 conflicts show; these teach about 108,000 literals, of which 69,676 are
/// kept at once.
fn fill_hard(rt: &(impl Abort + AllocGlobal), formula: &mut Formula) -> Result<(), AllocError> {
    let mut numbers = Numbers { state: 4 };
    for _ in 0..690 {
        assert!(rt; formula.vars() == 150 && formula.groups() == 1);
        let clause = [
            numbers.literal(150),
            numbers.literal(150),
            numbers.literal(150),
        ];
        formula.add(0, &clause)?;
    }
    Ok(())
}

/// Memory is wanted before and after what was learnt is dropped.
#[test]
fn of_drop_learnt(rt: HostRuntime) -> Result<(), AllocError> {
    let mut formula = Formula::new(rt.alloc(), 150, 1)?;
    fill_hard(&rt, &mut formula)?;
    solve(&rt, &formula, 0, "none")
}

/// Sees that no set has variable 3, by clauses of the groups 1 and 2 alone.
fn expect_marked(
    rt: &(impl Abort + AllocGlobal),
    formula: &Formula,
    workspace: &mut Workspace,
) -> Result<(), AllocError> {
    assert!(rt; formula.groups() == 3 && formula.vars() == 4);
    let mut marks = Vec::new(rt.alloc());
    let found = formula.solve_marked(rt.alloc(), workspace, &ALL, 3, &mut marks)?;
    assert!(rt; found.is_none() && marks.as_slice() == LAST_TWO.as_slice());
    Ok(())
}

/// A pair is in no refutation, so its group is not marked.
#[test]
fn of_solve_marked(rt: HostRuntime) -> Result<(), AllocError> {
    let formula = formula_of(&rt, 4, 3, "0: 0 1\n1: !3 2\n2: !2")?;
    let mut workspace = Workspace::new(rt.alloc());
    let marked = expect_marked(&rt, &formula, &mut workspace);
    expect_marked(&rt, &formula, &mut workspace)?;
    marked
}

/// Sees that all groups are needed, which a set shows that breaks the first one alone.
fn expect_needed(
    rt: &(impl Abort + AllocGlobal),
    formula: &Formula,
    rotation: &mut Rotation,
) -> Result<(), AllocError> {
    assert!(rt; formula.groups() == 3 && formula.vars() == 3);
    let marks = formula.mark_needed(rotation, &ALL, 0, &[0], 0)?;
    assert!(rt; marks == ALL.as_slice());
    Ok(())
}

/// A rotation that was refused memory serves the next call.
#[test]
fn of_mark_needed(rt: HostRuntime) -> Result<(), AllocError> {
    let formula = formula_of(&rt, 3, 3, "0: !0 1\n1: !1 2\n2: !2")?;
    let mut rotation = Rotation::new(rt.alloc());
    let needed = expect_needed(&rt, &formula, &mut rotation);
    expect_needed(&rt, &formula, &mut rotation)?;
    needed
}
