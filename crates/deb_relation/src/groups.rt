//! The groups of a field, whose atoms lie in one piece of memory.

ghost use Rattle.std.specs.Prelude.{◌≡◌, ◌+◌, ◌<◌, ◌≤◌, ◌∷◌, [], IfOk, length, map, slice_index_or};
ghost use Rattle.deb_relation.specs.Relationship.{atom_view, Gives, groups_of};

use crate::atom::{Atom, RelationError};
use crate::piece::{self, has_bar};
use crate::relation::{add_group, cut, parse_list, room_for};
use std::alloc::Global;
use std::marker::Model;

/// Groups of alternatives, as Depends and Pre-Depends have them (Policy 7.1 and 7.2). Contracts see them as a list of groups.
#[derive(Drop)]
pub struct Groups {
    /// The atoms of all groups, one group behind the other.
    atoms: Vec<Atom>,
    /// Where each group ends among the atoms; it begins where the one before it ends. Where each has one atom, there are none of these.
    ends: Vec<usize>,
}

impl Model for Groups {
    ghost use Rattle.std.specs.Prelude.{List, length, map};
    ghost use Rattle.deb_relation.specs.Relationship.{atom_view, AtomText};
    ghost use Rattle.deb_relation.specs.Groups.{MayBeEnds, lists_in};

    ghost Value = { List (List AtomText) };

    ghost view = { λ g. lists_in (map atom_view g.atoms.items) g.ends.items };

    ghost invariant = { λ g. MayBeEnds (length g.atoms.items) g.ends.items };
}

/// Reads a field of which any group may have several atoms.
fn read_several(alloc: Global, text: &[u8]) -> Result<Groups, RelationError>
    ensures { Gives (λ g. g) result (groups_of text.now) }
{
    let room = room_for(text);
    let mut atoms = Vec::with_capacity(alloc, room)?;
    let mut ends = Vec::with_capacity(alloc, room)?;
    let mut rest = Some(text);
    'elements: while let Some(left) = rest {
        let (element, after) = cut(left, b',');
        if !piece::is_blank(element) {
            add_group(alloc, element, &mut atoms)?;
            ends.push(atoms.len())?;
        }
        rest = after;
    }
    atoms.shrink_to_fit();
    ends.shrink_to_fit();
    Ok(Groups { atoms, ends })
}

/// Where a group begins, by the ends of all groups.
fn start_of(ends: &[usize], number: usize) -> usize
    requires { number < length ends.now }
    ensures { result ≡ slice_index_or (0 ∷ ends.now) number 0 }
{
    if number == 0 { 0 } else { ends[number - 1] }
}

impl Groups {
    /// Reads the value of a field whose elements have alternatives (Policy 7.1 and 7.2), as `parse_groups` does. There is at most one
    /// group more than the text has bytes.
    ///
    /// The error is that of the first piece, from the left, that is no atom, or `Memory`.
    pub fn parse(alloc: Global, text: &[u8]) -> Result<Groups, RelationError>
        ensures groups { Gives (λ g. g) result (groups_of text.now) }
        ensures few { IfOk result (λ g. length g ≤ length text.now + 1) }
    {
        if has_bar(text) {
            return read_several(alloc, text);
        }
        let atoms = parse_list(alloc, text)?;
        let ends = Vec::new(alloc);
        Ok(Groups { atoms, ends })
    }

    /// How many groups there are.
    pub fn len(&self) -> usize
        ensures { result ≡ length self.now }
    {
        if self.ends.is_empty() {
            self.atoms.len()
        } else {
            self.ends.len()
        }
    }

    /// The atoms of the group with a number, of which any one may be met (Policy 7.1).
    pub fn get(&self, number: usize) -> &[Atom]
        requires { number < length self.now }
        ensures { map atom_view result.now ≡ slice_index_or self.now number [] }
    {
        if self.ends.is_empty() {
            return &self.atoms[number..number + 1];
        }
        let start = start_of(&self.ends, number);
        let end = self.ends[number];
        &self.atoms[start..end]
    }
}
