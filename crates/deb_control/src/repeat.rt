//! Whether a stanza repeats a field.
ghost use Rattle.std.specs.Prelude.{◌≡◌, ◌≤◌, true, length, map, IfOk, MatchOption};
ghost use Rattle.deb_control.specs.Fields.{has_name, has_repeat};
ghost use Rattle.deb_control.specs.Slots.{Tells};
ghost use Rattle.deb_control.specs.Stanzas.{entry_of};

use crate::field::{Field, is_same_name};
use crate::slots::Slots;
use std::alloc::{AllocError, Global};
use std::collections::BTreeSet;

/// Up to so many fields each name is compared with each, which needs no memory.
const FEW_FIELDS: usize = 64;

/// Whether one of the fields has the name.
fn contains_name(fields: &[Field], name: &[u8]) -> bool
    ensures { result ≡ has_name name.now (map entry_of fields.now) }
{
    for field in fields {
        if is_same_name(field.name, name) {
            return true;
        }
    }
    false
}

/// Where names are looked for in few fields; nothing where two have one name.
///
/// From the last field on, each is compared with those behind it that may have its name.
fn few_slots(fields: &[Field]) -> Option<Slots>
    requires { length fields.now ≤ 64 }
    ensures { MatchOption result (has_repeat (map entry_of fields.now) ≡ true) (λ slots. Tells slots.firsts (map entry_of fields.now)) }
{
    let mut slots = Slots::of_none();
    let mut i = fields.len();
    while i > 0 {
        i -= 1;
        let behind = slots.put(fields, i);
        if contains_name(behind, fields[i].name) {
            return None;
        }
    }
    Some(slots)
}

/// Whether two fields have one name, where the fields are many.
/// The names lie in order and not by a hash, whose seed is known, so that no choice of names makes it slow.
fn is_repeating_many(alloc: Global, fields: &[Field]) -> Result<bool, AllocError>
    ensures { IfOk result (λ found. found ≡ has_repeat (map entry_of fields.now)) }
{
    let mut seen = BTreeSet::new(alloc);
    for field in fields {
        let name = field.name.to_ascii_lowercase(alloc)?;
        if !seen.insert(name)? {
            return Ok(true);
        }
    }
    Ok(false)
}

/// Where names are looked for in the fields; nothing where two have one name.
pub(crate) fn slots_of(alloc: Global, fields: &[Field]) -> Result<Option<Slots>, AllocError>
    ensures { IfOk result (λ found. MatchOption found (has_repeat (map entry_of fields.now) ≡ true) (λ slots. Tells slots.firsts (map entry_of fields.now))) }
{
    if fields.len() <= FEW_FIELDS {
        return Ok(few_slots(fields));
    }
    if is_repeating_many(alloc, fields)? {
        return Ok(None);
    }
    Ok(Some(Slots::new()))
}
