//! What a package asks for, and which atoms it meets.
ghost use Rattle.std.specs.Prelude.{◌≡◌, ◌<◌, ◌≤◌, length, map, slice_index_or, [], Some};
ghost use Rattle.std.specs.List.{list_any};
ghost use Rattle.deb_relation.specs.Relationship.{atom_view};
ghost use Rattle.deb_index.specs.Packages.{package_view, needs, aparts, no_atom};
ghost use Rattle.deb_index.specs.Meets.{meets, meets_need, meets_bound, meets_itself, entry_meets};
ghost use Rattle.deb_index.specs.Meets as spec;
ghost use Rattle.deb_index.specs.Tables.{asked_count, asked_limit};

use crate::package::Package;
use deb_relation::{Atom, Version, bound_holds};

/// In which role an atom stands. Where it has the qualifier `any`, fewer packages meet it as an alternative.
#[derive(Clone, Copy, PartialEq, Eq)]
pub(crate) enum Role {
    /// An alternative of a need (Debian Policy 7.2).
    Alternative,
    /// An entry of Conflicts or Breaks (Debian Policy 7.3 and 7.4).
    Entry,
}

/// Whether a version meets the bound of an atom, if there is one.
pub fn meets_bound(version: &Version, atom: &Atom) -> bool
    ensures { result ≡ meets_bound (Some version.now) (atom_view atom.now).bound }
{
    match &atom.bound {
        None => true,
        Some(bound) => bound_holds(version, bound.0, &bound.1),
    }
}

/// Whether what an entry of Provides provides is within the bound of an atom of its name: without a version, only where there is none (Debian Policy
/// 7.5).
pub fn provided_meets(entry: &Atom, atom: &Atom) -> bool
    ensures { result ≡ meets_bound (spec.provided_version (atom_view entry.now)) (atom_view atom.now).bound }
{
    match &entry.bound {
        None => atom.bound.is_none(),
        Some(provided) => meets_bound(&provided.1, atom),
    }
}

fn entry_meets(arch: &[u8], atom: &Atom, entry: &Atom) -> bool
    ensures { result ≡ entry_meets arch.now (atom_view atom.now) (atom_view entry.now) }
{
    entry.usable(arch)
        && atom.name.as_slice() == entry.name.as_slice()
        && provided_meets(entry, atom)
}

impl Package {
    fn provides_for(&self, arch: &[u8], atom: &Atom) -> bool
        ensures { result ≡ list_any (entry_meets arch.now (atom_view atom.now)) (package_view self.now).provides }
    {
        for entry in &self.provides {
            if entry_meets(arch, atom, entry) {
                return true;
            }
        }
        false
    }

    fn meets_itself(&self, atom: &Atom) -> bool
        ensures { result ≡ meets_itself (package_view self.now) (atom_view atom.now) }
    {
        atom.name.as_slice() == self.name.as_slice() && meets_bound(&self.version, atom)
    }

    /// Whether the package meets an atom.
    #[tactic(auto, unfolding(crate::specs::Meets::meets))]
    pub(crate) fn meets(&self, arch: &[u8], atom: &Atom) -> bool
        ensures { result ≡ meets arch.now (package_view self.now) (atom_view atom.now) }
    {
        atom.usable(arch) && (self.meets_itself(atom) || self.provides_for(arch, atom))
    }

    /// Whether the package meets an atom as an alternative of a need: one with the qualifier `any` only if it allows that.
    #[tactic(auto, unfolding(crate::specs::Meets::meets_need))]
    pub(crate) fn meets_need(&self, arch: &[u8], atom: &Atom) -> bool
        ensures { result ≡ meets_need arch.now (package_view self.now) (atom_view atom.now) }
    {
        self.meets(arch, atom) && (!atom.has_any() || self.multi_arch_allowed)
    }

    pub(crate) fn need_count(&self) -> u32
        requires { asked_count (package_view self.now) ≤ asked_limit }
        ensures { result ≡ length (needs (package_view self.now)) }
    {
        self.pre_depends.len() as u32 + self.depends.len() as u32
    }

    pub(crate) fn apart_count(&self) -> u32
        requires { asked_count (package_view self.now) ≤ asked_limit }
        ensures { result ≡ length (aparts (package_view self.now)) }
    {
        self.conflicts.len() as u32 + self.breaks.len() as u32
    }

    pub(crate) fn need(&self, number: u32) -> &[Atom]
        requires { number < length (needs (package_view self.now)) }
        ensures { map atom_view result.now ≡ slice_index_or (needs (package_view self.now)) number [] }
    {
        let number = number as usize;
        let before = self.pre_depends.len();
        if number < before {
            self.pre_depends.get(number)
        } else {
            self.depends.get(number - before)
        }
    }

    pub(crate) fn apart(&self, number: u32) -> &Atom
        requires { number < length (aparts (package_view self.now)) }
        ensures { atom_view result.now ≡ slice_index_or (aparts (package_view self.now)) number no_atom }
    {
        let number = number as usize;
        let before = self.conflicts.len();
        if number < before {
            &self.conflicts[number]
        } else {
            &self.breaks[number - before]
        }
    }
}
