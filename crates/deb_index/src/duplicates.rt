//! Packages as they are taken in, each once: one with the name and the version text of an earlier one is a duplicate.
ghost use Rattle.std.specs.Prelude.{◌≡◌, ◌<◌, ◌++◌, ◌∷◌, [], false, IfOk, OnOk, Some, cond, map, position};
ghost use Rattle.std.specs.List.{list_any};
ghost use Rattle.std.specs.Str.{bytes_eq};
ghost use Rattle.deb_index.specs.Packages.{names, package_view};
ghost use Rattle.deb_index.specs.Built.{HasKeysOf, key_view, package_key, same_key};
ghost use Rattle.deb_index.specs.Reading.{reading_view, same_package, stanza_limit, with_reading};
ghost use Rattle.deb_index.specs.Tables.{HasRoom};

use crate::catalog::Catalog;
use crate::package::{Package, Reading};
use std::alloc::{AllocError, Global};
use std::collections::HashSet;

/// What tells packages apart: the name and the text of the version.
#[derive(PartialEq, Eq, Hash, Drop)]
pub(crate) struct PackageKey {
    pub(crate) name: Vec<u8>,
    pub(crate) version: Vec<u8>,
}

impl PackageKey {
    pub(crate) fn of(alloc: Global, candidate: &Package) -> Result<PackageKey, AllocError>
        ensures { IfOk result (λ k. key_view k ≡ package_key (package_view candidate.now)) }
    {
        Ok(PackageKey {
            name: Vec::from_slice(alloc, candidate.name.as_slice())?,
            version: Vec::from_slice(alloc, candidate.version.text())?,
        })
    }
}

/// Keeps the key of a package whose name is there already.
fn keep_key(
    alloc: Global,
    is_later: bool,
    candidate: &Package,
    later: &mut HashSet<PackageKey>,
) -> Result<(), AllocError>
    requires { list_any (same_key (package_key (package_view candidate.now))) (map key_view later.old.keys) ≡ false }
    ensures { OnOk result (HasKeysOf later.new.keys (map key_view later.old.keys ++ cond is_later (package_key (package_view candidate.now) ∷ []) [])) }
{
    if is_later {
        later.insert(PackageKey::of(alloc, candidate)?)?;
    }
    Ok(())
}

/// The packages so far, and what they are known by. Where memory is refused, it may be left half filled.
#[derive(Drop)]
pub(crate) struct Draft {
    pub(crate) catalog: Catalog,
    /// The keys of the packages that are not the first of their name.
    pub(crate) later: HashSet<PackageKey>,
}

impl Draft {
    ghost use Rattle.deb_index.specs.Built.{IsBuilt, draft_view};

    /// Takes in what the next stanza reads as.
    pub(crate) fn add(&mut self, alloc: Global, reading: Reading) -> Result<(), AllocError>
        requires built { IsBuilt self.old }
        requires few { self.old.catalog.stanzas < stanza_limit }
        requires room { HasRoom (draft_view self.old) (reading_view reading) }
        ensures built { OnOk result (IsBuilt self.new) }
        ensures added { OnOk result (draft_view self.new ≡ with_reading (draft_view self.old) (reading_view reading)) }
    {
        match reading {
            Reading::Skipped => {
                self.catalog.skipped += 1;
                self.catalog.stanzas += 1;
                Ok(())
            }
            Reading::Kept(candidate) => self.keep(alloc, candidate),
        }
    }

    /// Takes in a package, or counts it as a duplicate.
    fn keep(&mut self, alloc: Global, candidate: Package) -> Result<(), AllocError>
        requires built { IsBuilt self.old }
        requires few { self.old.catalog.stanzas < stanza_limit }
        requires room { HasRoom (draft_view self.old) (Some (package_view candidate)) }
        ensures built { OnOk result (IsBuilt self.new) }
        ensures added { OnOk result (draft_view self.new ≡ with_reading (draft_view self.old) (Some (package_view candidate))) }
    {
        let known = self.catalog.names.number(candidate.name.as_slice());
        if self.contains(alloc, known, &candidate)? {
            drop(candidate);
            self.catalog.duplicates += 1;
            self.catalog.stanzas += 1;
            return Ok(());
        }
        self.push(alloc, known, candidate)
    }

    /// Whether a package of a candidate's name and version is there. The number is that of the name.
    fn contains(
        &self,
        alloc: Global,
        known: Option<usize>,
        candidate: &Package,
    ) -> Result<bool, AllocError>
        requires built { IsBuilt self.now }
        requires known { known ≡ position (bytes_eq (package_view candidate.now).name) (names (draft_view self.now)) }
        ensures { IfOk result (λ found. found ≡ list_any (λ q. same_package q (package_view candidate.now)) (draft_view self.now).packages) }
    {
        let [first, ..] = self.catalog.names.places_known(known) else {
            return Ok(false);
        };
        let version = candidate.version.text();
        if self.catalog.packages[*first as usize].version.text() == version {
            return Ok(true);
        }
        let key = PackageKey::of(alloc, candidate)?;
        Ok(self.later.contains(&key))
    }

    /// Puts a package down at the next place. The number is that of its name.
    fn push(
        &mut self,
        alloc: Global,
        known: Option<usize>,
        candidate: Package,
    ) -> Result<(), AllocError>
        requires built { IsBuilt self.old }
        requires known { known ≡ position (bytes_eq (package_view candidate).name) (names (draft_view self.old)) }
        requires apart { list_any (λ q. same_package q (package_view candidate)) (draft_view self.old).packages ≡ false }
        requires few { self.old.catalog.stanzas < stanza_limit }
        requires room { HasRoom (draft_view self.old) (Some (package_view candidate)) }
        ensures built { OnOk result (IsBuilt self.new) }
        ensures added { OnOk result (draft_view self.new ≡ with_reading (draft_view self.old) (Some (package_view candidate))) }
    {
        let place = self.catalog.packages.len();
        self.catalog.packages.push(candidate)?;
        let kept = &self.catalog.packages[place];
        keep_key(alloc, known.is_some(), kept, &mut self.later)?;
        let name = kept.name.as_slice();
        let number = self.catalog.names.add(alloc, known, name, place as u32)?;
        self.catalog.numbers.push(number as u32)?;
        self.catalog.stanzas += 1;
        Ok(())
    }
}
