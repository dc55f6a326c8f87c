//! The constraints of an index, and where each stands in the list of all.
ghost use Rattle.std.specs.Prelude.{◌≡◌, ◌<◌, ◌≤◌, ◌+◌, ◌^◌, ◌++◌, All, IfOk, OnOk, Some, length, slice_get, sum_by};
ghost use Rattle.deb_index.specs.Packages.{aparts_at, names, needs_at};
ghost use Rattle.deb_index.specs.Constraints.{IsOfIndex, constraints_at, constraints_of};
ghost use Rattle.deb_index.specs.Links.{first_position};
ghost use Rattle.deb_index.specs.Tables.{asked_count, asked_limit};

use crate::index::Index;
use std::alloc::{AllocError, Global};

/// What a set of packages has to meet. Names are given by number, packages by place, and the groups and entries of a package
/// by number, all from 0.
#[derive(Clone, Copy, PartialEq, Eq, Debug)]
pub enum Constraint {
    /// Some package of the name is in the set (Debian Policy 3.8).
    Essential(u32),
    /// The package at the place is not in the set, or some package in it meets an alternative of the group, be it the
    /// package itself (Debian Policy 7.2).
    Need(u32, u32),
    /// The package at the place is not in the set, or no other package in it meets the entry (Debian Policy 7.3 and 7.4).
    Apart(u32, u32),
    /// At most one package of the name is in the set, since two versions of a package cannot be installed together.
    Only(u32),
}

impl Index {
    /// All constraints, below 2^32 of them: `Essential` for the essential names by number, then by place the `Need` of each
    /// package's groups and the `Apart` of its entries, then `Only` for all names by number. The error is want of memory.
    pub fn constraints(&self, alloc: Global) -> Result<Vec<Constraint>, AllocError>
        ensures value { IfOk result (λ v. v.items ≡ constraints_of self.now) }
        ensures within { IfOk result (λ v. All (IsOfIndex self.now) v.items) }
        ensures few { IfOk result (λ v. length v.items < 2 ^ 32) }
    {
        let count = self.first_position(self.len()) + self.name_count();
        let mut found = Vec::new(alloc);
        for position in 0..count {
            found.push(self.constraint_at(position))?;
        }
        Ok(found)
    }

    /// Where a group of the package at a place stands in the list of all constraints.
    pub fn need_position(&self, place: u32, number: u32) -> u32
        requires place { place < length self.now.packages }
        requires number { number < length (needs_at self.now place) }
        ensures { slice_get (constraints_of self.now) result ≡ Some (Constraint.Need place number) }
    {
        self.first_position(place) + number
    }

    /// Where an entry of the package at a place stands in the list of all constraints.
    pub fn apart_position(&self, place: u32, number: u32) -> u32
        requires place { place < length self.now.packages }
        requires number { number < length (aparts_at self.now place) }
        ensures { slice_get (constraints_of self.now) result ≡ Some (Constraint.Apart place number) }
    {
        self.first_position(place) + self.need_count(place) + number
    }

    /// Where it stands in the list of all constraints that at most one package of the name with a number is in.
    pub fn only_position(&self, name: u32) -> u32
        requires { name < length (names self.now) }
        ensures { slice_get (constraints_of self.now) result ≡ Some (Constraint.Only name) }
    {
        self.first_position(self.len()) + name
    }

    /// The constraint at a position of the list of all. It is looked for by halving.
    pub fn constraint_at(&self, position: u32) -> Constraint
        requires { position < length (constraints_of self.now) }
        ensures { slice_get (constraints_of self.now) position ≡ Some result }
    {
        if let Some(name) = self.essential.get(position as usize) {
            return Constraint::Essential(*name);
        }
        let asked = self.first_position(self.len());
        if position >= asked {
            return Constraint::Only(position - asked);
        }
        let place = self.asking_place(position);
        let number = position - self.first_position(place);
        let groups = self.need_count(place);
        if number < groups {
            Constraint::Need(place, number)
        } else {
            Constraint::Apart(place, number - groups)
        }
    }

    /// Where the constraints of the package at a place begin in the list of all, and behind the last place those of the names.
    fn first_position(&self, place: u32) -> u32
        requires { place ≤ length self.now.packages }
        ensures value { result ≡ first_position self.now place }
        ensures few { length (constraints_of self.now) < 2 ^ 32 }
    {
        prove!(place <= self.len());
        let start = self.start(place as usize);
        self.essential.len() as u32 + start.group + start.entry
    }

    /// The place of the package whose constraint stands at a position.
    fn asking_place(&self, position: u32) -> u32
        requires begun { first_position self.now 0 ≤ position }
        requires within { position < first_position self.now (length self.now.packages) }
        ensures within { result < length self.now.packages }
        ensures begun { first_position self.now result ≤ position }
        ensures ends { position < first_position self.now (result + 1) }
    {
        let (mut low, mut high) = (0, self.len());
        'halve: while high - low > 1 {
            let middle = low + (high - low) / 2;
            if self.first_position(middle) <= position {
                low = middle;
            } else {
                high = middle;
            }
        }
        low
    }
}
