//! Which names of an index differ in numbers alone from missing ones.

ghost use Rattle.std.specs.Prelude.{◌≡◌, ◌++◌, ◌∷◌, [], true, ℕ, List, All, IfOk, OnOk, map};
ghost use Rattle.std.specs.List.{flat_map};
ghost use Rattle.deb_relation.specs.Relationship.{atom_view, AtomText};
ghost use Rattle.deb_index.specs.Constraints.{IsOfIndex};
ghost use Rattle.deb_index.specs.Packages.{package_view};
ghost use Rattle.deb_causes.specs.Near.{first_with_stem, is_one_of, names_of, similar_names, stem, first_told, has_text};

use crate::near::alternatives_of;
use crate::stems::{insert_once, is_stem, put_stem, stems_of};
use deb_index::{Constraint, Index, Package};
use deb_relation::Atom;
use std::alloc::{AllocError, Global};
use std::collections::{HashMap, HashSet};

/// How many similar names are told.
const SIMILAR_LIMIT: usize = 10;

/// Whether a name is one of these.
fn has_name(names: &[Vec<u8>], name: &[u8]) -> bool
    ensures { result ≡ has_text (map (λ one. one.items) names.now) name.now }
{
    for one in names {
        if name == one.as_slice() {
            return true;
        }
    }
    false
}

/// Adds a name to the first of some names, where there is room for it and it is new.
fn push_first(alloc: Global, name: &[u8], names: &mut Vec<Vec<u8>>) -> Result<(), AllocError>
    ensures { OnOk result ((seen : List (List ℕ)) → map (λ one. one.items) names.old.items ≡ first_told seen
        → map (λ one. one.items) names.new.items ≡ first_told (seen ++ name.now ∷ [])) }
{
    if names.len() >= SIMILAR_LIMIT {
        return Ok(());
    }
    if !has_name(names.as_slice(), name) {
        names.push(Vec::from_slice(alloc, name)?)?;
    }
    Ok(())
}

/// Puts the names of some atoms into a set that has none.
fn add_names(alloc: Global, atoms: &[&Atom], own: &mut HashSet<Vec<u8>>) -> Result<(), AllocError>
    requires { own.old.keys ≡ [] }
    ensures { OnOk result ((name : List ℕ) → has_text (map (λ one. one.items) own.new.keys) name
        ≡ is_one_of (map (λ atom. atom_view atom.now) atoms.now) name) }
{
    for atom in atoms {
        insert_once(alloc, atom.name.as_slice(), own)?;
    }
    Ok(())
}

/// Names that are told, and with them those that aren't to be told.
#[derive(Drop)]
struct Told<'s> {
    known: HashSet<Vec<u8>>,
    names: Vec<&'s [u8]>,
}

impl<'s> Told<'s> {
    ghost use Rattle.deb_causes.specs.Near.{IsTold};

    /// Adds a name, where there is room for it and it isn't known.
    fn push(&mut self, alloc: Global, name: &'s [u8]) -> Result<(), AllocError>
        ensures { OnOk result ((own : List AtomText) (seen : List (List ℕ)) → IsTold own seen self.old → IsTold own (seen ++ name.now ∷ []) self.new) }
    {
        if self.names.len() >= SIMILAR_LIMIT {
            return Ok(());
        }
        if insert_once(alloc, name, &mut self.known)? {
            self.names.push(name)?;
        }
        Ok(())
    }

    /// Adds some names.
    fn push_all(&mut self, alloc: Global, names: &'s [Vec<u8>]) -> Result<(), AllocError>
        ensures { OnOk result ((own : List AtomText) (seen : List (List ℕ)) → IsTold own seen self.old
            → IsTold own (seen ++ map (λ one. one.items) names.now) self.new) }
    {
        for name in names {
            self.push(alloc, name.as_slice())?;
        }
        Ok(())
    }
}

/// The names of an index with certain stems.
#[derive(Drop)]
pub struct Similar {
    /// By the stem: the first names that have it, each once, in the order of the index.
    lists: HashMap<Vec<u8>, Vec<Vec<u8>>>,
}

impl Similar {
    ghost use Rattle.deb_causes.specs.Near.{IsFoundIn, IsSimilarOf, IsTold, stems_in, AreSought};

    /// Adds a name, where it has one of the stems.
    fn add(&mut self, alloc: Global, name: &[u8], buffer: &mut Vec<u8>) -> Result<(), AllocError>
        ensures found { OnOk result ((seen : List (List ℕ)) → IsFoundIn seen self.old → IsFoundIn (seen ++ name.now ∷ []) self.new) }
        ensures stems { OnOk result (stems_in self.new ≡ stems_in self.old) }
    {
        put_stem(buffer, name)?;
        if !is_stem(buffer.as_slice()) {
            return Ok(());
        }
        if let Some(names) = self.lists.get_mut(buffer.as_slice()) {
            push_first(alloc, name, names)?;
        }
        Ok(())
    }

    /// Adds the names that a package has and provides.
    fn add_package(
        &mut self,
        alloc: Global,
        arch: &[u8],
        deb: &Package,
        buffer: &mut Vec<u8>,
    ) -> Result<(), AllocError>
        ensures found { OnOk result ((seen : List (List ℕ)) → IsFoundIn seen self.old
            → IsFoundIn (seen ++ names_of arch.now (package_view deb.now)) self.new) }
        ensures stems { OnOk result (stems_in self.new ≡ stems_in self.old) }
    {
        self.add(alloc, deb.name.as_slice(), buffer)?;
        for entry in deb.provides.as_slice() {
            if entry.usable(arch) {
                self.add(alloc, entry.name.as_slice(), buffer)?;
            }
        }
        Ok(())
    }

    /// Adds the names of all packages of an index.
    fn add_all(&mut self, alloc: Global, index: &Index) -> Result<(), AllocError>
        requires { IsFoundIn [] self.old }
        ensures found { OnOk result (IsSimilarOf index.now self.new) }
        ensures stems { OnOk result (stems_in self.new ≡ stems_in self.old) }
    {
        let mut buffer = Vec::new(alloc);
        for place in 0..index.len() {
            self.add_package(alloc, index.arch(), index.package(place), &mut buffer)?;
        }
        Ok(())
    }

    /// The names of an index with the stems of the alternatives of all needs among the constraints: one pass over the index for all of these, and none
    /// where there is no such need.
    ///
    /// The constraints are of the index. `AllocError` where there is no memory for it.
    pub fn find(
        alloc: Global,
        index: &Index,
        constraints: &[Constraint],
    ) -> Result<Similar, AllocError>
        requires { All (IsOfIndex index.now) constraints.now }
        ensures found { IfOk result (IsSimilarOf index.now) }
        ensures sought { IfOk result (λ similar. AreSought index.now (stems_in similar) constraints.now) }
    {
        let lists = stems_of(alloc, index, constraints)?;
        let mut similar = Similar { lists };
        if similar.lists.is_empty() {
            return Ok(similar);
        }
        similar.add_all(alloc, index)?;
        Ok(similar)
    }

    /// The first names that have a stem, which is one of those that were sought.
    fn list(&self, stem: &[u8]) -> &[Vec<u8>]
        requires { has_text (stems_in self.now) stem.now ≡ true }
        ensures { (seen : List (List ℕ)) → IsFoundIn seen self.now → map (λ one. one.items) result.now ≡ first_with_stem seen stem.now }
    {
        match self.lists.get(stem) {
            Some(names) => names.as_slice(),
            None => &[],
        }
    }

    /// The names that differ in numbers alone from those of the alternatives of a need among these constraints, alternative by alternative: ten at most.
    ///
    /// The constraints are of the index, and their stems were looked for. `AllocError` where there is no memory for it.
    pub fn names(
        &self,
        alloc: Global,
        index: &Index,
        constraints: &[Constraint],
    ) -> Result<Vec<&[u8]>, AllocError>
        requires within { All (IsOfIndex index.now) constraints.now }
        requires found { IsSimilarOf index.now self.now }
        requires sought { AreSought index.now (stems_in self.now) constraints.now }
        ensures { IfOk result (λ names. map (λ name. name.now) names.items ≡ similar_names index.now constraints.now) }
    {
        let atoms = alternatives_of(alloc, index, constraints)?;
        let mut told = Told {
            known: HashSet::new(alloc),
            names: Vec::new(alloc),
        };
        add_names(alloc, &atoms, &mut told.known)?;
        let mut stem = Vec::new(alloc);
        for atom in &atoms {
            put_stem(&mut stem, atom.name.as_slice())?;
            told.push_all(alloc, self.list(stem.as_slice()))?;
        }
        let Told { known: _, names } = told;
        Ok(names)
    }
}
