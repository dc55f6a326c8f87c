//! The names that packages have or provide, each with where it is found.
ghost use Rattle.std.specs.Prelude.{◌≡◌, ◌<◌, ◌≤◌, ◌^◌, ◌∷◌, ◌++◌, ℕ, List, [], length, map, None, Some, IfOk, IfSome, OnOk, slice_index_or, vec_len};
ghost use Rattle.std.specs.List.{AllByRecursion};
ghost use Rattle.deb_relation.specs.Relationship.{atom_view};
ghost use Rattle.deb_index.specs.Packages.{PackageView, is_named, package_view, places_where};
ghost use Rattle.deb_index.specs.Reading.{stanza_limit};
ghost use Rattle.deb_index.specs.Tables.{IsSmall, items_of, number_in};

use crate::name_table::NameTable;
use crate::package::Package;
use deb_relation::Atom;
use smallvec::SmallVec;
use std::alloc::{AllocError, Global};

/// Where a name is found: the places of the packages that have it, and a place and the number of an entry for each that provides it.
/// Most names have few of either, which lie in the value.
#[derive(Drop)]
pub(crate) struct Lists {
    pub(crate) places: SmallVec<u32, 4>,
    pub(crate) provided: SmallVec<(u32, u32), 2>,
}

/// The same, lent.
#[derive(Clone, Copy)]
pub(crate) struct Candidates<'a> {
    pub(crate) named: &'a [u32],
    pub(crate) provided: &'a [(u32, u32)],
}

/// The names, each once: those of packages in the order in which they first occur, and behind them those that are only provided.
#[derive(Drop)]
pub(crate) struct Names {
    pub(crate) texts: NameTable,
    /// By the number of the name.
    pub(crate) lists: Vec<Lists>,
    /// How many names packages have.
    pub(crate) front: usize,
    ghost listed: { length texts ≤ vec_len lists },
}

impl Names {
    ghost use Rattle.deb_index.specs.Names.{IsNaming, name_texts, provided_entries, provided_places};

    pub(crate) fn new(alloc: Global) -> Names
        ensures { IsNaming [] [] result }
    {
        Names {
            texts: NameTable::new(alloc),
            lists: Vec::new(alloc),
            front: 0,
        }
    }

    /// The number of a name.
    pub(crate) fn number(&self, name: &[u8]) -> Option<usize>
        ensures number { result ≡ number_in name.now (name_texts self.now) }
        ensures within { IfSome result (λ i. i < length (name_texts self.now)) }
    {
        self.texts.number(name)
    }

    /// The places of the packages that have the name with a number.
    pub(crate) fn places(&self, number: usize) -> &[u32]
        requires { number < length (name_texts self.now) }
        ensures { (packages : List PackageView) (entries : List (List ℕ × (ℕ × ℕ))) → IsNaming packages entries self.now
            → result.now ≡ places_where (is_named (slice_index_or (name_texts self.now) number [])) packages }
    {
        self.lists[number].places.as_slice()
    }

    /// The places of the packages that have a name, by its number, where it has one.
    pub(crate) fn places_known(&self, known: Option<usize>) -> &[u32]
        requires { IfSome known (λ i. i < length (name_texts self.now)) }
        ensures { (packages : List PackageView) (entries : List (List ℕ × (ℕ × ℕ))) (name : List ℕ) → IsNaming packages entries self.now
            → known ≡ number_in name (name_texts self.now) → result.now ≡ places_where (is_named name) packages }
    {
        match known {
            Some(number) => self.places(number),
            None => &[],
        }
    }

    /// Where a name is found.
    pub(crate) fn candidates(&self, name: &[u8]) -> Candidates
        ensures named { (packages : List PackageView) (entries : List (List ℕ × (ℕ × ℕ))) → IsNaming packages entries self.now
            → result.named.now ≡ places_where (is_named name.now) packages }
        ensures provided { (packages : List PackageView) (entries : List (List ℕ × (ℕ × ℕ))) → IsNaming packages entries self.now
            → result.provided.now ≡ items_of name.now entries }
    {
        match self.number(name) {
            Some(number) => {
                let lists = &self.lists[number];
                Candidates {
                    named: lists.places.as_slice(),
                    provided: lists.provided.as_slice(),
                }
            }
            None => Candidates {
                named: &[],
                provided: &[],
            },
        }
    }

    /// Puts a name down that is not there, last.
    fn insert(&mut self, alloc: Global, name: &[u8], lists: Lists) -> Result<(), AllocError>
        requires { number_in name.now (name_texts self.old) ≡ None }
        ensures texts { OnOk result (name_texts self.new ≡ name_texts self.old ++ name.now ∷ []) }
        ensures lists { OnOk result (self.new.lists.items ≡ self.old.lists.items ++ lists ∷ []) }
        ensures front { self.new.front ≡ self.old.front }
    {
        self.lists.push(lists)?;
        self.texts.push(alloc, name)
    }

    /// Puts the next package down under its name, whose number it gives back. The number is known where the name is there.
    pub(crate) fn add(
        &mut self,
        alloc: Global,
        known: Option<usize>,
        name: &[u8],
        place: u32,
    ) -> Result<usize, AllocError>
        requires { known ≡ number_in name.now (name_texts self.old) }
        ensures named { OnOk result ((packages : List PackageView) (p : PackageView) → IsNaming packages [] self.old
            → p.name ≡ name.now → length packages ≡ place → IsNaming (packages ++ p ∷ []) [] self.new) }
        ensures number { IfOk result (λ number. number_in name.now (name_texts self.new) ≡ Some number) }
    {
        match known {
            Some(number) => {
                self.lists[number].places.push(place)?;
                Ok(number)
            }
            None => {
                let number = self.texts.len();
                let mut places = SmallVec::new(alloc);
                places.push(place)?;
                let provided = SmallVec::new(alloc);
                self.insert(alloc, name, Lists { places, provided })?;
                self.front = self.lists.len();
                Ok(number)
            }
        }
    }

    /// Puts an entry down under the name that it provides.
    fn add_entry(&mut self, alloc: Global, name: &[u8], entry: (u32, u32)) -> Result<(), AllocError>
        ensures { OnOk result ((packages : List PackageView) (entries : List (List ℕ × (ℕ × ℕ))) → IsNaming packages entries self.old
            → IsNaming packages (entries ++ (name.now, entry) ∷ []) self.new) }
    {
        match self.number(name) {
            Some(number) => {
                self.lists[number].provided.push(entry)?;
                Ok(())
            }
            None => {
                let mut provided = SmallVec::new(alloc);
                provided.push(entry)?;
                let places = SmallVec::new(alloc);
                self.insert(alloc, name, Lists { places, provided })?;
                Ok(())
            }
        }
    }

    /// Puts down the entries of the package at a place that count for an architecture.
    fn add_entries(
        &mut self,
        alloc: Global,
        arch: &[u8],
        place: u32,
        entries: &[Atom],
    ) -> Result<(), AllocError>
        requires { length entries.now < 2 ^ 32 }
        ensures { OnOk result ((packages : List PackageView) (before : List (List ℕ × (ℕ × ℕ))) → IsNaming packages before self.old
            → IsNaming packages (before ++ provided_entries arch.now place (map atom_view entries.now)) self.new) }
    {
        for (number, entry) in entries.iter().enumerate() {
            if entry.usable(arch) {
                self.add_entry(alloc, entry.name.as_slice(), (place, number as u32))?;
            }
        }
        Ok(())
    }

    /// Puts down what all packages provide for an architecture, once their own names are there.
    pub(crate) fn add_provided(
        &mut self,
        alloc: Global,
        arch: &[u8],
        packages: &[Package],
    ) -> Result<(), AllocError>
        requires few { length packages.now ≤ stanza_limit }
        requires small { AllByRecursion IsSmall (map package_view packages.now) }
        ensures { OnOk result (IsNaming (map package_view packages.now) [] self.old
            → IsNaming (map package_view packages.now) (provided_places arch.now (map package_view packages.now)) self.new) }
    {
        for (place, provider) in packages.iter().enumerate() {
            self.add_entries(alloc, arch, place as u32, &provider.provides)?;
        }
        Ok(())
    }
}
