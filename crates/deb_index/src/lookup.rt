//! What the packages that meet an atom are looked up in.
ghost use Rattle.std.specs.Prelude.{◌≡◌, ◌<◌, ◌≤◌, ◌&&◌, ◌||◌, ◌==◌, ℕ, Bool, false, List, IfOk, OnOk, length, map, sum_by};
ghost use Rattle.std.specs.List.{list_any};
ghost use Rattle.std.specs.List.Sorted.{IsStrictlyIncreasing};
ghost use Rattle.deb_relation.specs.Relationship.{atom_view};
ghost use Rattle.deb_index.specs.Packages.{is_in, package_at, package_view};
ghost use Rattle.std.specs.Option.{option_map, option_map_or};
ghost use Rattle.deb_index.specs.Rows.{Adds, AreCandidates, AreOffers, is_offer, meets_as_at, provided_version_at, provides_as_at, usable_as_at, version_at};
ghost use Rattle.deb_index.specs.Rows as spec;
ghost use Rattle.deb_index.specs.Tables.{asked_count, asked_limit};

use crate::catalog::Catalog;
use crate::meets::{Role, provided_meets};
use crate::names::{Candidates, Names};
use crate::package::Package;
use crate::versions::Offer;
use deb_relation::{Atom, Version};
use number_sets::sort_once;
use std::alloc::{AllocError, Global};
use std::marker::Model;

/// Packages by place, an architecture, and the names that they have or provide for it. Contracts see an index that has these alone.
#[derive(Drop)]
pub(crate) struct Lookup<'a> {
    arch: &'a [u8],
    packages: &'a [Package],
    names: &'a Names,
}

impl<'a> Model for Lookup<'a> {
    ghost use Rattle.std.specs.Prelude.{map};
    ghost use Rattle.deb_index.specs.Packages.{IndexView, package_view};
    ghost use Rattle.deb_index.specs.Built.{IsLookedUp, looked_up};

    ghost Value = { IndexView };

    ghost view = { λ l. looked_up l.arch.now (map package_view l.packages.now) };

    ghost invariant = { λ l. IsLookedUp l.arch.now (map package_view l.packages.now) l.names.now };
}

impl<'a> Lookup<'a> {
    ghost use Rattle.deb_index.specs.Built.{IsLookedUp, catalog_view, looked_up};

    /// What is looked up in a catalog with all its names.
    pub(crate) fn new(catalog: &'a Catalog) -> Lookup<'a>
        requires { IsLookedUp (catalog_view catalog.now).arch (catalog_view catalog.now).packages catalog.now.names }
        ensures { result ≡ looked_up (catalog_view catalog.now).arch (catalog_view catalog.now).packages }
    {
        Lookup {
            arch: &catalog.arch,
            packages: &catalog.packages,
            names: &catalog.names,
        }
    }

    pub(crate) fn package(&self, place: u32) -> &'a Package
        requires { place < length self.now.packages }
        ensures value { package_view result.now ≡ package_at self.now place }
        ensures few_asked { asked_count (package_view result.now) ≤ asked_limit }
    {
        &self.packages[place as usize]
    }

    /// Whether there is a package at a place, and it meets an atom in its role.
    fn meets_as(&self, role: Role, place: u32, atom: &Atom) -> bool
        ensures { result ≡ meets_as_at role self.now place (atom_view atom.now) }
    {
        let Some(asked) = self.packages.get(place as usize) else {
            return false;
        };
        match role {
            Role::Alternative => asked.meets_need(self.arch, atom),
            Role::Entry => asked.meets(self.arch, atom),
        }
    }

    /// Whether there is such an entry, and its package meets an atom of its name by it, in the atom's role.
    fn provides_as(&self, role: Role, entry: (u32, u32), atom: &Atom) -> bool
        ensures { result ≡ provides_as_at role self.now entry (atom_view atom.now) }
    {
        let Some(provider) = self.packages.get(entry.0 as usize) else {
            return false;
        };
        match provider.provides.get(entry.1 as usize) {
            Some(provided) => {
                usable_as(role, self.arch, provider, atom) && provided_meets(provided, atom)
            }
            None => false,
        }
    }

    /// Whether there is a package at a place, and it may stand for an atom in its role, where it meets its name and bound.
    fn usable_as(&self, role: Role, place: u32, atom: &Atom) -> bool
        ensures { result ≡ usable_as_at role self.now place (atom_view atom.now) }
    {
        match self.packages.get(place as usize) {
            Some(asked) => usable_as(role, self.arch, asked, atom),
            None => false,
        }
    }

    /// Where a name is found.
    pub(crate) fn candidates(&self, name: &[u8]) -> Candidates<'a>
        ensures { AreCandidates self.now name.now result }
    {
        self.names.candidates(name)
    }

    /// The version of the package at a place.
    fn version(&self, place: u32) -> Option<&'a Version>
        ensures { option_map (λ v. v.now) result ≡ version_at self.now place }
    {
        let package = self.packages.get(place as usize)?;
        Some(&package.version)
    }

    /// The version that such an entry provides.
    fn provided_version(&self, entry: (u32, u32)) -> Option<&'a Version>
        ensures { option_map (λ v. v.now) result ≡ provided_version_at self.now entry }
    {
        let provider = self.packages.get(entry.0 as usize)?;
        let provided = provider.provides.get(entry.1 as usize)?;
        let bound = provided.bound.as_ref()?;
        Some(&bound.1)
    }

    /// All versions of a name whose candidates these are, in any order. What is provided without a version is within no bound, and left out.
    pub(crate) fn offers(
        &self,
        alloc: Global,
        candidates: Candidates<'a>,
    ) -> Result<Vec<Offer<'a>>, AllocError>
        ensures { IfOk result (λ v. (name : List ℕ) → AreCandidates self.now name candidates.entry → AreOffers self.now name v.items) }
    {
        let mut offers = Vec::new(alloc);
        for place in candidates.named {
            push_offer(&mut offers, self.version(*place), *place)?;
        }
        for entry in candidates.provided {
            push_offer(&mut offers, self.provided_version(*entry), entry.0)?;
        }
        Ok(offers)
    }

    /// Adds the places of the candidates of an atom's name that meet the atom, in any order, and some twice. `false` where some are left out, since
    /// there are more than so many.
    pub(crate) fn add_candidates(
        &self,
        role: Role,
        atom: &Atom,
        candidates: Candidates,
        most: usize,
        found: &mut Vec<u32>,
    ) -> Result<bool, AllocError>
        requires { AreCandidates self.now (atom_view atom.now).name candidates }
        ensures { IfOk result (Adds most (λ q. meets_as_at role self.now q (atom_view atom.now)) found.old.items found.new.items) }
    {
        if !self.add_named(role, atom, candidates.named, most, found)? {
            return Ok(false);
        }
        self.add_providers(role, atom, candidates.provided, most, found)
    }

    /// The same for those that may stand for the atom, by all versions of its name that are within its bound.
    pub(crate) fn add_offers(
        &self,
        role: Role,
        atom: &Atom,
        offers: &[Offer],
        most: usize,
        found: &mut Vec<u32>,
    ) -> Result<bool, AllocError>
        ensures { IfOk result (Adds most (λ q. list_any (λ o. o.place == q && usable_as_at role self.now o.place (atom_view atom.now)) offers.now)
            found.old.items found.new.items) }
    {
        for offer in offers {
            if !add_if(
                self.usable_as(role, offer.place, atom),
                offer.place,
                most,
                found,
            )? {
                return Ok(false);
            }
        }
        Ok(true)
    }

    /// The same for those of some places where the package meets an atom.
    fn add_named(
        &self,
        role: Role,
        atom: &Atom,
        places: &[u32],
        most: usize,
        found: &mut Vec<u32>,
    ) -> Result<bool, AllocError>
        ensures { IfOk result
            (Adds most (λ q. is_in places.now q && meets_as_at role self.now q (atom_view atom.now)) found.old.items found.new.items) }
    {
        for place in places {
            if !add_if(self.meets_as(role, *place, atom), *place, most, found)? {
                return Ok(false);
            }
        }
        Ok(true)
    }

    /// The same for those of some entries by which their packages meet an atom of their name. No other entry of a package is looked at.
    fn add_providers(
        &self,
        role: Role,
        atom: &Atom,
        entries: &[(u32, u32)],
        most: usize,
        found: &mut Vec<u32>,
    ) -> Result<bool, AllocError>
        ensures { IfOk result
            (Adds most (λ q. list_any (λ e. e.0 == q && provides_as_at role self.now e (atom_view atom.now)) entries.now) found.old.items found.new.items) }
    {
        for entry in entries {
            if !add_if(self.provides_as(role, *entry, atom), entry.0, most, found)? {
                return Ok(false);
            }
        }
        Ok(true)
    }
}

/// Adds a version with its place, if there is one.
fn push_offer<'a>(
    offers: &mut Vec<Offer<'a>>,
    version: Option<&'a Version>,
    place: u32,
) -> Result<(), AllocError>
    ensures { OnOk result ((q : ℕ) (test : List ℕ → Bool) → list_any (is_offer q test) offers.new.items
        ≡ (list_any (is_offer q test) offers.old.items || (place == q && option_map_or test (option_map (λ v. v.now) version.entry) false))) }
{
    if let Some(version) = version {
        offers.push(Offer { version, place })?;
    }
    Ok(())
}

/// Adds a place if it is wanted. `false` where there are more than so many now, also without those that came again.
fn add_if(
    is_wanted: bool,
    place: u32,
    most: usize,
    found: &mut Vec<u32>,
) -> Result<bool, AllocError>
    ensures { IfOk result (Adds most (λ q. place == q && is_wanted) found.old.items found.new.items) }
{
    if !is_wanted {
        return Ok(true);
    }
    found.push(place)?;
    // They are sorted each time as many have come again as there may be.
    if found.len() / 2 <= most {
        return Ok(true);
    }
    sort_once(found);
    Ok(found.len() <= most)
}

/// Whether a package may stand for an atom in its role, for an architecture, where it meets its name and bound.
fn usable_as(role: Role, arch: &[u8], provider: &Package, atom: &Atom) -> bool
    ensures { result ≡ spec.usable_as role arch.now (package_view provider.now) (atom_view atom.now) }
{
    match role {
        Role::Alternative => {
            atom.usable(arch) && (!atom.has_any() || provider.multi_arch_allowed)
        }
        Role::Entry => atom.usable(arch),
    }
}
