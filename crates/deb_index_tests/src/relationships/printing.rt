//! Relationship fields, read and printed.

use deb_relation::{Atom, Groups, RelationError, parse_groups, parse_list};
use std::alloc::{AllocError, Global};
use std::process::Abort;

/// A call that reads a field.
#[derive(Clone, Copy)]
pub enum Call {
    /// `parse_list`
    List,
    /// `parse_groups`
    Groups,
    /// `Groups::parse`
    OnePiece,
}

/// Atoms in their printed form, a `|` after each.
fn append_atoms(out: &mut Vec<u8>, atoms: &[Atom]) -> Result<(), AllocError> {
    for atom in atoms {
        atom.append_to(out)?;
        out.push(b'|')?;
    }
    Ok(())
}

/// Groups in their printed form, a comma after each.
fn append_groups(out: &mut Vec<u8>, groups: &[Vec<Atom>]) -> Result<(), AllocError> {
    for group in groups {
        append_atoms(out, group.as_slice())?;
        out.push(b',')?;
    }
    Ok(())
}

/// Groups in the same form, whose atoms lie in one piece of memory.
fn append_piece(out: &mut Vec<u8>, groups: &Groups) -> Result<(), AllocError> {
    for number in 0..groups.len() {
        append_atoms(out, groups.get(number))?;
        out.push(b',')?;
    }
    Ok(())
}

/// What the call reads of a field, in its printed form.
fn append_read(out: &mut Vec<u8>, call: Call, text: &[u8]) -> Result<(), RelationError> {
    let alloc = *out.allocator();
    let appended = match call {
        Call::List => append_atoms(out, &parse_list(alloc, text)?),
        Call::Groups => append_groups(out, &parse_groups(alloc, text)?),
        Call::OnePiece => append_piece(out, &Groups::parse(alloc, text)?),
    };
    match appended {
        Ok(()) => Ok(()),
        Err(AllocError) => Err(RelationError::Memory),
    }
}

fn expect_printed(rt: &impl Abort, text: &[u8], found: &[u8], printed: &[u8]) {
    assert!(rt; found == printed, "{text:?}");
}

/// A field is read, and printed so.
fn expect_read(
    rt: &(impl Abort + AllocGlobal),
    call: Call,
    text: &[u8],
    printed: &[u8],
) -> Result<(), RelationError> {
    let mut out = Vec::new(rt.alloc());
    append_read(&mut out, call, text)?;
    expect_printed(rt, text, &out, printed);
    Ok(())
}

fn fault_of(alloc: Global, call: Call, text: &[u8]) -> Option<RelationError> {
    let mut out = Vec::new(alloc);
    append_read(&mut out, call, text).err()
}

/// A field is refused by this fault.
fn expect_refused(
    rt: &(impl Abort + AllocGlobal),
    call: Call,
    text: &[u8],
    fault: &RelationError,
) -> Result<(), RelationError> {
    match fault_of(rt.alloc(), call, text) {
        Some(RelationError::Memory) => return Err(RelationError::Memory),
        Some(found) => assert!(rt; found == *fault, "{text:?}"),
        None => assert!(rt; false, "{text:?}"),
    }
    Ok(())
}

/// Some fields are read, each printed so, and others refused, each by its fault.
///
/// # Errors
///
/// Want of memory.
pub fn expect_each(
    rt: &(impl Abort + AllocGlobal),
    call: Call,
    read: &[(&[u8], &[u8])],
    refused: &[(&[u8], RelationError)],
) -> Result<(), RelationError> {
    for (text, printed) in read {
        expect_read(rt, call, text, printed)?;
    }
    for (text, fault) in refused {
        expect_refused(rt, call, text, fault)?;
    }
    Ok(())
}
