//! One test for each call that can want memory; trials/growths runs them with each growth refused in turn.

use crate::stanzas::fields::{has_fields, has_next, stand};
use crate::stanzas::folded::{FOLDED, FOLDED_FIELDS, FOLDED_VALUES};
use deb_control::{ControlError, Reader};
use std::alloc::Global;
use std::process::Abort;
use std::test::Fail;

/// Whether the next stanza has these fields.
fn is_due(
    alloc: Global,
    reader: &mut Reader,
    wanted: &[(&str, &str)],
) -> Result<bool, ControlError> {
    match reader.next_stanza(alloc)? {
        Some(stanza) => Ok(has_fields(&stanza, wanted)),
        None => Ok(false),
    }
}

/// The call that is refused memory may be made again, and then gives the stanza that was due; whether it was refused.
fn was_refused(
    rt: &(impl Abort + AllocGlobal),
    reader: &mut Reader,
    wanted: &[(&str, &str)],
) -> bool {
    let due = is_due(rt.alloc(), reader, wanted);
    if due == Err(ControlError::Memory) {
        assert!(rt; is_due(rt.alloc(), reader, wanted) == Ok(true));
        return true;
    }
    assert!(rt; due == Ok(true));
    false
}

/// An empty field is one of the fields, too.
#[test]
fn of_next_stanza(rt: HostRuntime) -> Result<(), Fail> {
    let mut reader = Reader::new(FOLDED);
    let mut refused = false;
    for wanted in &FOLDED_FIELDS {
        refused |= was_refused(&rt, &mut reader, *wanted);
    }
    assert!(rt; has_next(&rt, &mut reader) == Ok(false));
    assert!(rt; has_next(&rt, &mut reader) == Ok(false));
    assert!(rt; reader.count() == FOLDED_FIELDS.len() as u64);
    let mut empty = Reader::new(b"e: \n");
    refused |= was_refused(&rt, &mut empty, &[("e", "")]);
    if refused {
        return Err(Fail::new("out of memory"));
    }
    Ok(())
}

#[test]
fn of_stanzas(rt: HostRuntime) -> Result<(), Fail> {
    assert!(rt; stand(rt.alloc(), FOLDED, 3, &FOLDED_VALUES)?);
    Ok(())
}
