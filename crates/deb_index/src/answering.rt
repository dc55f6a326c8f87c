//! Which packages meet what the packages of an index ask for.
ghost use Rattle.std.specs.Prelude.{◌≡◌, ◌<◌, IfOk, IfSome, length, nat_le};
ghost use Rattle.std.specs.Option.{is_some};
ghost use Rattle.deb_relation.specs.Relationship.{atom_view};
ghost use Rattle.deb_index.specs.Packages.{apart_at, aparts_at, need_at, needs_at};
ghost use Rattle.deb_index.specs.Meets.{group_satisfiers, meets_at, meets_need_at, satisfiers};
ghost use Rattle.deb_index.specs.Rows.{row_limit};

use crate::index::Index;
use crate::lookup::Lookup;
use crate::meets::Role;
use crate::satisfiers::Satisfiers;
use deb_relation::Atom;
use std::alloc::{AllocError, Global};
use std::slice::from_ref;

impl Index {
    /// Whether the package at a place meets an atom. An atom with a qualifier other than `any` and the index's architecture
    /// is met by none. Else a package meets it by its own name and version, or by an entry of its Provides of that name:
    /// any where the atom has no bound, and one whose version meets the bound where it has one (Debian Policy 7.1 and 7.5).
    pub fn meets(&self, place: u32, atom: &Atom) -> bool
        requires { place < length self.now.packages }
        ensures { result ≡ meets_at self.now place (atom_view atom.now) }
    {
        self.package(place).meets(&self.catalog.arch, atom)
    }

    /// Whether the package at a place meets an atom as an alternative of Pre-Depends or Depends: it meets the atom, by its
    /// name or by its Provides, and where the atom has the qualifier `any`, its own stanza says `Multi-Arch: allowed`
    /// (deb-control(5)).
    pub fn meets_need(&self, place: u32, atom: &Atom) -> bool
        requires { place < length self.now.packages }
        ensures { result ≡ meets_need_at self.now place (atom_view atom.now) }
    {
        self.package(place).meets_need(&self.catalog.arch, atom)
    }

    /// The places of the packages that meet an alternative of a group as `meets_need` tells, rising, each once. There is such
    /// a row exactly where there are at most 256 of them.
    pub fn answer_row(&self, place: u32, number: u32) -> Option<&[u32]>
        requires place { place < length self.now.packages }
        requires number { number < length (needs_at self.now place) }
        ensures row { IfSome result (λ row. row.now ≡ group_satisfiers self.now (need_at self.now place number)) }
        ensures short { is_some result ≡ nat_le (length (group_satisfiers self.now (need_at self.now place number))) row_limit }
    {
        let first = self.start(place as usize).group;
        self.links.groups.get(first as usize + number as usize)
    }

    /// The places of the packages that answer a group, rising, each once: those that meet an alternative of it as `meets_need` tells
    /// (Debian Policy 7.1). They are the group's row or, where it has none, what is found into the lent list.
    ///
    /// A row leaves the list as it was; what is found takes the place of what the list held. The error is want of memory for that:
    /// the list then holds no answer, and may be lent again.
    pub fn answers<'a>(
        &'a self,
        place: u32,
        number: u32,
        found: &'a mut Vec<u32>,
    ) -> Result<&'a [u32], AllocError>
        requires place { place < length self.now.packages }
        requires number { number < length (needs_at self.now place) }
        ensures { IfOk result (λ row. row.now ≡ group_satisfiers self.now (need_at self.now place number)) }
    {
        if let Some(row) = self.answer_row(place, number) {
            return Ok(row);
        }
        let alternatives = self.need(place, number);
        let lookup = Lookup::new(&self.catalog);
        Satisfiers::new(*found.allocator(), &lookup).find(
            Role::Alternative,
            alternatives,
            usize::MAX,
            found,
        )?;
        Ok(found)
    }

    /// The places of the packages that meet an entry as `meets` tells, rising, be they marked `Multi-Arch: allowed` or not.
    /// There is such a row exactly where there are at most 256 of them.
    pub fn hit_row(&self, place: u32, number: u32) -> Option<&[u32]>
        requires place { place < length self.now.packages }
        requires number { number < length (aparts_at self.now place) }
        ensures row { IfSome result (λ row. row.now ≡ satisfiers self.now (apart_at self.now place number)) }
        ensures short { is_some result ≡ nat_le (length (satisfiers self.now (apart_at self.now place number))) row_limit }
    {
        let first = self.start(place as usize).entry;
        self.links.entries.get(first as usize + number as usize)
    }

    /// The places of all packages that meet an atom, rising, as an entry of Conflicts or Breaks asks for them. The error is
    /// want of memory.
    ///
    /// Only the packages of the atom's name and those that provide it are looked at.
    pub fn satisfiers(&self, alloc: Global, atom: &Atom) -> Result<Vec<u32>, AllocError>
        ensures { IfOk result (λ v. v.items ≡ satisfiers self.now (atom_view atom.now)) }
    {
        let mut found = Vec::new(alloc);
        let lookup = Lookup::new(&self.catalog);
        Satisfiers::new(alloc, &lookup).find(Role::Entry, from_ref(atom), usize::MAX, &mut found)?;
        Ok(found)
    }
}
