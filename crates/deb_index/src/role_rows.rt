//! The rows of one role while they are made: an atom is looked up once for all who ask for it, while it is remembered.
ghost use Rattle.std.specs.Prelude.{◌≡◌, ◌<◌, ◌≤◌, ◌+◌, ◌++◌, ◌∷◌, [], IfOk, OnErr, OnOk, length, map};
ghost use Rattle.deb_relation.specs.Relationship.{atom_view};
ghost use Rattle.deb_index.specs.Packages.{aparts, needs, package_view};
ghost use Rattle.deb_index.specs.Tables.{asked_count, asked_limit};

use crate::lookup::Lookup;
use crate::meets::Role;
use crate::memo::{Memo, digest_of};
use crate::package::Package;
use crate::satisfiers::Satisfiers;
use deb_relation::Atom;
use number_sets::Rows;
use std::alloc::{AllocError, Global};
use std::marker::Model;
use std::slice::from_ref;

/// How many places a row has at most. So the rows grow with what is asked for, however many packages meet it.
const ROW_LIMIT: usize = 256;

/// The rows that were asked for in one role so far. Contracts see them with the role, and with the index that they are looked up in.
#[derive(Drop)]
pub(crate) struct RoleRows<'t> {
    satisfiers: Satisfiers<'t>,
    role: Role,
    rows: Rows,
    memo: Memo<'t>,
    /// Each row is found in it, and put down from it.
    found: Vec<u32>,
}

impl<'t> Model for RoleRows<'t> {
    ghost use Rattle.deb_index.specs.Rows.{AreMet, MadeRows};

    ghost Value = { MadeRows };

    ghost view = { λ r. record { index = r.satisfiers; role = r.role; rows = r.rows } };

    ghost invariant = { λ r. AreMet r.satisfiers r.role r.rows r.memo };
}

impl<'t> RoleRows<'t> {
    ghost use Rattle.deb_index.specs.declared.meets.Role.TheVariants.{Alternative, Entry};
    ghost use Rattle.deb_index.specs.Rows.{row_as, answer_row, hit_row};

    /// No rows yet; so many packages are to ask.
    pub(crate) fn new(
        alloc: Global,
        lookup: &'t Lookup<'t>,
        role: Role,
        packages: u32,
    ) -> Result<RoleRows<'t>, AllocError>
        ensures { IfOk result (λ r. r ≡ record { index = lookup.now; role = role; rows = [] }) }
    {
        let memo = Memo::new(alloc, packages)?;
        Ok(RoleRows {
            satisfiers: Satisfiers::new(alloc, lookup),
            role,
            rows: Rows::new(alloc),
            memo,
            found: Vec::new(alloc),
        })
    }

    /// Adds the rows of a package's groups.
    pub(crate) fn add_groups(&mut self, asking: &'t Package) -> Result<(), AllocError>
        requires few_asked { asked_count (package_view asking.now) ≤ asked_limit }
        requires few { length self.old.rows + length (needs (package_view asking.now)) ≤ asked_limit }
        requires alternatives { self.old.role ≡ Alternative }
        ensures index { self.new.index ≡ self.old.index }
        ensures role { self.new.role ≡ self.old.role }
        ensures rows { OnOk result (self.new.rows ≡ self.old.rows ++ map (answer_row self.old.index) (needs (package_view asking.now))) }
    {
        for number in 0..asking.need_count() {
            self.add(asking.need(number))?;
        }
        Ok(())
    }

    /// Adds the rows of a package's entries.
    pub(crate) fn add_entries(&mut self, asking: &'t Package) -> Result<(), AllocError>
        requires few_asked { asked_count (package_view asking.now) ≤ asked_limit }
        requires few { length self.old.rows + length (aparts (package_view asking.now)) ≤ asked_limit }
        requires entries { self.old.role ≡ Entry }
        ensures index { self.new.index ≡ self.old.index }
        ensures role { self.new.role ≡ self.old.role }
        ensures rows { OnOk result (self.new.rows ≡ self.old.rows ++ map (hit_row self.old.index) (aparts (package_view asking.now))) }
    {
        for number in 0..asking.apart_count() {
            self.add(from_ref(asking.apart(number)))?;
        }
        Ok(())
    }

    /// Adds the row of what is asked for: the alternatives of a group, or an entry alone.
    fn add(&mut self, asked: &'t [Atom]) -> Result<(), AllocError>
        requires few { length self.old.rows < asked_limit }
        ensures index { self.new.index ≡ self.old.index }
        ensures role { self.new.role ≡ self.old.role }
        ensures row { OnOk result (self.new.rows ≡ self.old.rows ++ row_as self.old.role self.old.index (map atom_view asked.now) ∷ []) }
    {
        let [atom] = asked else {
            return self.find(asked);
        };
        let digest = digest_of(atom);
        if let Some(number) = self.memo.get(digest, atom) {
            return self.rows.push_again(number);
        }
        let number = self.rows.len() as u32;
        self.find(asked)?;
        self.memo.put(digest, atom, number);
        Ok(())
    }

    /// The same for what is not remembered.
    fn find(&mut self, asked: &[Atom]) -> Result<(), AllocError>
        requires few { length self.old.rows < asked_limit }
        ensures index { self.new.index ≡ self.old.index }
        ensures role { self.new.role ≡ self.old.role }
        ensures row { OnOk result (self.new.rows ≡ self.old.rows ++ row_as self.old.role self.old.index (map atom_view asked.now) ∷ []) }
    {
        self.satisfiers
            .find(self.role, asked, ROW_LIMIT, &mut self.found)?;
        if self.found.len() > ROW_LIMIT {
            return self.rows.push(None);
        }
        self.rows.push(Some(&self.found))
    }

    /// How many rows there are.
    pub(crate) fn len(&self) -> usize
        ensures { result ≡ length self.now.rows }
    {
        self.rows.len()
    }

    /// The rows alone, once all are made.
    pub(crate) fn into_rows(self) -> Rows
        ensures { result ≡ self.entry.rows }
    {
        self.rows
    }
}
