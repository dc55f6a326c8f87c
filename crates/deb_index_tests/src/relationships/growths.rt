//! One test for each call that can want memory; trials/growths runs them with each growth refused in turn.
//!
//! Each goes over all that its call is to read and to refuse, to the end or to the error that was had, which has to be want of memory.

use crate::relationships::printing::{Call, expect_each};
use crate::relationships::relations::{LISTS, NO_LISTS, READ, REFUSED};
use crate::relationships::versions;
use deb_relation::{Atom, parse_list};
use std::alloc::{AllocError, Global};
use std::process::Abort;
use std::test::Fail;

#[test]
fn of_parse(rt: HostRuntime) -> Result<(), Fail> {
    versions::expect_each(&rt)?;
    Ok(())
}

#[test]
fn of_parse_groups(rt: HostRuntime) -> Result<(), Fail> {
    expect_each(&rt, Call::Groups, &READ, &REFUSED)?;
    Ok(())
}

#[test]
fn of_groups(rt: HostRuntime) -> Result<(), Fail> {
    expect_each(&rt, Call::OnePiece, &READ, &REFUSED)?;
    Ok(())
}

#[test]
fn of_parse_list(rt: HostRuntime) -> Result<(), Fail> {
    expect_each(&rt, Call::List, &LISTS, &NO_LISTS)?;
    Ok(())
}

/// Whether an atom is printed behind a text, which stays as it was where memory is refused.
fn is_appended(
    alloc: Global,
    atom: &Atom,
    before: &[u8],
    after: &[u8],
) -> Result<bool, AllocError> {
    let mut out = Vec::from_slice(alloc, before)?;
    match atom.append_to(&mut out) {
        Ok(()) => Ok(out.as_slice() == after),
        Err(AllocError) if out.as_slice() == before => Err(AllocError),
        Err(AllocError) => Ok(false),
    }
}

/// Whether each of two atoms is printed as it should.
fn are_appended(alloc: Global, atoms: &[Atom]) -> Result<bool, AllocError> {
    let [first, second] = atoms else {
        return Ok(false);
    };
    Ok(
        is_appended(alloc, second, b"", b"c (<= 2)")?
            && is_appended(alloc, first, b"", b"b:any (>= 1:2-3)")?
            && is_appended(alloc, first, b"a | ", b"a | b:any (>= 1:2-3)")?,
    )
}

#[test]
fn of_append_to(rt: HostRuntime) -> Result<(), Fail> {
    let atoms = parse_list(rt.alloc(), b"b:any (>= 1:2-3), c(<2)")?;
    assert!(rt; are_appended(rt.alloc(), &atoms)?);
    Ok(())
}
