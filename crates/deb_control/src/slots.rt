//! Where the fields of a stanza are looked for by name.
ghost use Rattle.std.specs.Prelude.{◌≡◌, ◌≤◌, ◌<◌, ◌+◌, List, length, drop, map};
ghost use Rattle.deb_control.specs.Fields.{Entry, field_value};
ghost use Rattle.deb_control.specs.Slots.{AreFirsts, KeepsNamesakes, name_slot, slot_count};
ghost use Rattle.deb_control.specs.Stanzas.{entry_of};

use crate::field::Field;

/// Names are told apart by so many slots first.
const SLOT_COUNT: usize = 64;

/// The slot of a name: names that agree when case is ignored have the same one, and few others of a stanza have.
fn slot_of(name: &[u8]) -> usize
    ensures value { result ≡ name_slot name.now }
    ensures within { result < slot_count }
{
    match name {
        [] => 0,
        [first, others @ ..] => {
            (usize::from(first.to_ascii_lowercase()) + 21 * (others.len() % SLOT_COUNT))
                % SLOT_COUNT
        }
    }
}

/// For each slot, a place in a stanza's fields before which no name has that slot.
#[derive(Clone, Copy)]
pub(crate) struct Slots {
    pub(crate) firsts: [u8; SLOT_COUNT],
}

impl Slots {
    /// Each name is looked for from the first field on.
    pub(crate) fn new() -> Slots
        ensures { (fields : List Entry) → AreFirsts result.firsts 0 fields }
    {
        Slots {
            firsts: [0; SLOT_COUNT],
        }
    }

    /// No name is looked for, since there are no fields yet. They are put down from the last to the first.
    pub(crate) fn of_none() -> Slots {
        Slots {
            firsts: [u8::MAX; SLOT_COUNT],
        }
    }

    /// Puts down the name of the field at a place, where those of all fields behind it are put down; gives those of them that may have its name.
    pub(crate) fn put<'f, 'a>(&mut self, fields: &'f [Field<'a>], place: usize) -> &'f [Field<'a>]
        requires within { place < length fields.now }
        requires few { place < 256 }
        requires firsts { AreFirsts self.old.firsts (place + 1) (map entry_of (drop (place + 1) fields.now)) }
        ensures firsts { AreFirsts self.new.firsts place (map entry_of (drop place fields.now)) }
        ensures named { KeepsNamesakes fields.now place (map entry_of result.now) }
    {
        let slot = slot_of(fields[place].name);
        let first = usize::from(self.firsts[slot]);
        self.firsts[slot] = place as u8;
        &fields[first.max(place + 1).min(fields.len())..]
    }

    /// Fields among which a name is looked for: those that are left out have other names.
    pub(crate) fn candidates<'f, 'a>(&self, fields: &'f [Field<'a>], name: &[u8]) -> &'f [Field<'a>]
        requires { AreFirsts self.now.firsts 0 (map entry_of fields.now) }
        ensures { field_value (map entry_of result.now) name.now ≡ field_value (map entry_of fields.now) name.now }
    {
        let first = usize::from(self.firsts[slot_of(name)]);
        &fields[first.min(fields.len())..]
    }
}
