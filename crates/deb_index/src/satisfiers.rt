//! The places of the packages that meet atoms. Where a name has many candidates, those within a bound are found by their versions in order.
ghost use Rattle.std.specs.Prelude.{◌≡◌, IfOk, OnOk, map};
ghost use Rattle.deb_relation.specs.Relationship.{atom_view};
ghost use Rattle.deb_index.specs.Rows.{Adds, AreCandidates, IsFound, meets_as_at, satisfiers_as};

use crate::lookup::Lookup;
use crate::meets::Role;
use crate::names::Candidates;
use crate::versions::Versions;
use deb_relation::Atom;
use number_sets::sort_once;
use std::alloc::{AllocError, Global};
use std::collections::HashMap;
use std::marker::Model;

/// What finds them in an index, which is all that contracts see of it.
#[derive(Drop)]
pub(crate) struct Satisfiers<'t> {
    alloc: Global,
    lookup: &'t Lookup<'t>,
    /// By the name: the versions of those that were asked for with a bound and have many candidates.
    versions: HashMap<Vec<u8>, Versions<'t>>,
}

impl<'t> Model for Satisfiers<'t> {
    ghost use Rattle.deb_index.specs.Packages.{IndexView};
    ghost use Rattle.deb_index.specs.Rows.{AreSorted};

    ghost Value = { IndexView };

    ghost view = { λ f. f.lookup.now };

    ghost invariant = { λ f. AreSorted f.lookup.now f.versions };
}

impl<'t> Satisfiers<'t> {
    pub(crate) fn new(alloc: Global, lookup: &'t Lookup<'t>) -> Satisfiers<'t>
        ensures { result ≡ lookup.now }
    {
        Satisfiers {
            alloc,
            lookup,
            versions: HashMap::new(alloc),
        }
    }

    /// Finds the places that meet one of some atoms in their role, rising, each once; they take the place of what the list held. Where there
    /// are more than so many, the list has more, too, but some are left out.
    // Sorted once, in the end: to put each atom's places among those before would be quadratic in a long group.
    pub(crate) fn find(
        &mut self,
        role: Role,
        asked: &[Atom],
        most: usize,
        found: &mut Vec<u32>,
    ) -> Result<(), AllocError>
        ensures index { self.new ≡ self.old }
        ensures found { OnOk result (IsFound most (satisfiers_as role self.old (map atom_view asked.now)) found.new.items) }
    {
        found.clear();
        for atom in asked {
            if !self.add_found(role, atom, most, found)? {
                return Ok(());
            }
        }
        sort_once(found);
        Ok(())
    }

    /// Adds the places that meet an atom, in any order, and some twice. `false` where some are left out, since there are more than so many.
    fn add_found(
        &mut self,
        role: Role,
        atom: &Atom,
        most: usize,
        found: &mut Vec<u32>,
    ) -> Result<bool, AllocError>
        ensures index { self.new ≡ self.old }
        ensures added { IfOk result (Adds most (λ q. meets_as_at role self.old q (atom_view atom.now)) found.old.items found.new.items) }
    {
        let lookup = self.lookup;
        let name = atom.name.as_slice();
        let candidates = lookup.candidates(name);
        let is_long = candidates.named.len() > most || candidates.provided.len() > most;
        let bound = match &atom.bound {
            Some(bound) if is_long => bound,
            _ => return lookup.add_candidates(role, atom, candidates, most, found),
        };
        self.sort_versions(name, candidates)?;
        match self.versions.get(name) {
            Some(versions) => {
                let within = versions.within(bound.0, &bound.1);
                lookup.add_offers(role, atom, within, most, found)
            }
            None => lookup.add_candidates(role, atom, candidates, most, found),
        }
    }

    /// Puts the versions of a name in order, unless they are.
    fn sort_versions(&mut self, name: &[u8], candidates: Candidates<'t>) -> Result<(), AllocError>
        requires { AreCandidates self.old name.now candidates }
        ensures { self.new ≡ self.old }
    {
        if self.versions.contains_key(name) {
            return Ok(());
        }
        let versions = Versions::new(self.lookup.offers(self.alloc, candidates)?);
        let key = Vec::from_slice(self.alloc, name)?;
        self.versions.insert(key, versions)?;
        Ok(())
    }
}
