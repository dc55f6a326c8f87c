//! A workspace, the index of a text and its groundwork, each made by one function that lends it to what is expected of cases.
//!
//! To let go of one takes a proof at each way out, and their parts are many: so all that is expected goes through these functions.

use crate::packages::expected::{ALL, Call, Case, expect_lines};
use crate::packages::grounded::Grounded;
use deb_index::{Index, IndexError};
use deb_verdict::Workspace;
use std::alloc::{AllocError, AllocGlobal};
use std::process::Abort;
use test_texts::index_of;

/// Compares what is found in each index, by all calls and one after the other in one workspace, with what is expected. An empty line stands between cases.
pub fn expect_all(rt: &(impl Abort + AllocGlobal), cases: &str) {
    expect_each(rt, true, &ALL, cases).expect(rt, "no memory");
}

/// The same with the essential names or without, and by some calls alone. The error is want of memory, here and below.
pub fn expect_each(
    rt: &(impl Abort + AllocGlobal),
    essential: bool,
    calls: &[Call],
    cases: &str,
) -> Result<(), AllocError> {
    let mut workspace = Workspace::new(rt.alloc())?;
    let compared = in_workspace(rt, &mut workspace, essential, calls, cases);
    drop(workspace);
    compared
}

fn in_workspace(
    rt: &(impl Abort + AllocGlobal),
    workspace: &mut Workspace,
    essential: bool,
    calls: &[Call],
    cases: &str,
) -> Result<(), AllocError> {
    for told in cases.split("\n\n") {
        let case = Case::read(told).expect(rt, "a case lacks a part");
        on_text(rt, workspace, essential, calls, &case)?;
    }
    Ok(())
}

/// The index of a text for amd64, with the essential names where they count.
fn index_for(
    rt: &(impl Abort + AllocGlobal),
    text: &str,
    essential: bool,
) -> Result<Index, AllocError> {
    let text = index_of(rt.alloc(), text)?;
    assert!(rt; text.len() < 100_000, "the text is long");
    match Index::read(rt.alloc(), text.as_bytes(), "amd64", essential) {
        Ok(index) => Ok(index),
        Err(IndexError::Memory) => Err(AllocError),
        Err(_) => panic!(rt; "the text has a fault"),
    }
}

fn on_text(
    rt: &(impl Abort + AllocGlobal),
    workspace: &mut Workspace,
    essential: bool,
    calls: &[Call],
    case: &Case<'_>,
) -> Result<(), AllocError> {
    let index = index_for(rt, case.text, essential)?;
    let compared = on_index(rt, workspace, &index, calls, case);
    drop(index);
    compared
}

fn on_index(
    rt: &(impl Abort + AllocGlobal),
    workspace: &mut Workspace,
    index: &Index,
    calls: &[Call],
    case: &Case<'_>,
) -> Result<(), AllocError> {
    let grounded = Grounded::new(rt.alloc(), index)?;
    let compared = expect_lines(rt, workspace, &grounded, calls, case);
    drop(grounded);
    compared
}
