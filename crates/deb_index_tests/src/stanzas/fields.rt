//! The stanzas of texts, and their fields, as a test expects them.

use deb_control::{ControlError, Reader, Stanza, stanzas};
use std::alloc::Global;
use std::process::Abort;

/// How many stanzas a text has, or which was refused.
pub fn outcome_of(rt: &impl AllocGlobal, text: &[u8]) -> Result<usize, ControlError> {
    let found = stanzas(rt.alloc(), text)?;
    Ok(found.len())
}

/// Whether there is a next stanza, or which was refused.
pub fn has_next(rt: &impl AllocGlobal, reader: &mut Reader) -> Result<bool, ControlError> {
    let next = reader.next_stanza(rt.alloc())?;
    Ok(next.is_some())
}

/// Whether the fields have these names and values, in this order.
pub fn has_fields(stanza: &Stanza, wanted: &[(&str, &str)]) -> bool {
    let fields = stanza.fields();
    if fields.len() != wanted.len() {
        return false;
    }
    for (field, (name, value)) in fields.iter().zip(wanted.iter()) {
        if field.name != name.as_bytes() || field.value.as_slice() != value.as_bytes() {
            return false;
        }
    }
    true
}

/// Whether a field has this value, or, where none is wanted, counts as absent.
fn has_value(stanza: &Stanza, name: &str, wanted: Option<&str>) -> bool {
    match (stanza.field(name), wanted) {
        (Some(value), Some(wanted)) => value == wanted.as_bytes(),
        (None, None) => true,
        _ => false,
    }
}

fn have_values(found: &[Stanza], wanted: &[(usize, &str, Option<&str>)]) -> bool {
    for (number, name, value) in wanted {
        if *number >= found.len() || !has_value(&found[*number], *name, *value) {
            return false;
        }
    }
    true
}

/// Whether a text has so many stanzas, and fields of them, each by its stanza's number, have these values.
pub fn stand(
    alloc: Global,
    text: &[u8],
    count: usize,
    wanted: &[(usize, &str, Option<&str>)],
) -> Result<bool, ControlError> {
    let found = stanzas(alloc, text)?;
    Ok(found.len() == count && have_values(&found, wanted))
}

/// Sees that the stanzas of a text, and their fields, `stand` so.
pub fn expect_values(
    rt: &(impl Abort + AllocGlobal),
    text: &[u8],
    count: usize,
    wanted: &[(usize, &str, Option<&str>)],
) {
    let stand = stand(rt.alloc(), text, count, wanted).expect(rt, "a good text");
    assert!(rt; stand, "{text:?}");
}
