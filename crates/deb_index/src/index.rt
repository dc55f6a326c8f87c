//! The index of a text, or of a text and a background: its packages and their names.
ghost use Rattle.std.specs.Prelude.{◌≡◌, ◌<◌, ◌≤◌, length, map, position, sum_by};
ghost use Rattle.std.specs.Str.{bytes_eq};
ghost use Rattle.deb_relation.specs.Relationship.{atom_view};
ghost use Rattle.deb_index.specs.Packages.{package_view, names, places_of, essential_names, needs_at, aparts_at, need_at, apart_at, package_at, name_at};
ghost use Rattle.deb_index.specs.Links.{entries_before, groups_before};
ghost use Rattle.deb_index.specs.Reading.{stanza_limit};
ghost use Rattle.deb_index.specs.Meets.{provided_at};
ghost use Rattle.deb_index.specs.Tables.{asked_count, asked_limit};

use crate::catalog::Catalog;
use crate::links::{Links, Start};
use crate::package::Package;
use deb_relation::Atom;
use std::marker::Model;

/// The index of a text for one architecture, or of a text, the foreground, and a background behind it. Its packages have places from 0,
/// in the order of the text, and behind these in that of the background; their distinct names have numbers from 0, in the order in which
/// they first occur.
#[derive(Drop)]
pub struct Index {
    pub(crate) links: Links,
    /// The numbers of the essential names.
    pub(crate) essential: Vec<u32>,
    // Given back last, and in it the packages.
    pub(crate) catalog: Catalog,
}

impl Model for Index {
    ghost use Rattle.deb_index.specs.Packages.{IndexView};
    ghost use Rattle.deb_index.specs.Built.{IsWhole, catalog_view};

    ghost Value = { IndexView };

    ghost view = { λ i. catalog_view i.catalog };

    ghost invariant = { λ i. IsWhole i.catalog i.essential.items i.links };
}

impl Index {
    /// How many packages are the foreground's: their places are those below this number. Where there is no background, all are.
    pub fn foreground(&self) -> u32
        ensures value { result ≡ self.now.foreground }
        ensures front { self.now.foreground ≤ length self.now.packages }
    {
        self.catalog.foreground
    }

    /// How many packages there are: at most `STANZA_LIMIT`, the most stanzas that the texts may have. Together they have at most
    /// 2,164,260,866 groups and entries.
    pub fn len(&self) -> u32
        ensures value { result ≡ length self.now.packages }
        ensures few { length self.now.packages ≤ stanza_limit }
        ensures few_asked { sum_by asked_count self.now.packages ≤ asked_limit }
    {
        self.catalog.packages.len() as u32
    }

    /// The architecture that the index was read for.
    pub fn arch(&self) -> &[u8]
        ensures { result.now ≡ self.now.arch }
    {
        &self.catalog.arch
    }

    /// How many stanzas the text and the background have: at most `STANZA_LIMIT`.
    pub fn stanzas(&self) -> u32
        ensures { result ≡ self.now.stanzas }
    {
        self.catalog.stanzas
    }

    /// How many stanzas of both are passed over, since their architecture is neither the index's nor `all`.
    pub fn skipped(&self) -> u32
        ensures { result ≡ self.now.skipped }
    {
        self.catalog.skipped
    }

    /// How many stanzas of both have the name and the version text of an earlier one that was kept, and are left out.
    pub fn duplicates(&self) -> u32
        ensures { result ≡ self.now.duplicates }
    {
        self.catalog.duplicates
    }

    /// The package at a place, which is below `len`.
    pub fn package(&self, place: u32) -> &Package
        requires { place < length self.now.packages }
        ensures { package_view result.now ≡ package_at self.now place }
    {
        &self.catalog.packages[place as usize]
    }

    /// Where the rows of the package at a place begin, and behind the last place where all end.
    pub(crate) fn start(&self, place: usize) -> Start
        requires { place ≤ length self.now.packages }
        ensures group { result.group ≡ groups_before self.now place }
        ensures entry { result.entry ≡ entries_before self.now place }
    {
        self.links.starts[place]
    }

    /// How many groups the package at a place needs: those of Pre-Depends and of Depends (Debian Policy 7.2).
    pub fn need_count(&self, place: u32) -> u32
        requires { place < length self.now.packages }
        ensures { result ≡ length (needs_at self.now place) }
    {
        let place = place as usize;
        self.start(place + 1).group - self.start(place).group
    }

    /// The alternatives of a group that the package at a place needs (Debian Policy 7.2). Groups are numbered from 0: those
    /// of Pre-Depends, then those of Depends.
    pub fn need(&self, place: u32, number: u32) -> &[Atom]
        requires place { place < length self.now.packages }
        requires number { number < length (needs_at self.now place) }
        ensures { map atom_view result.now ≡ need_at self.now place number }
    {
        self.package(place).need(number)
    }

    /// How many entries the package at a place stands apart from: those of Conflicts and of Breaks (Debian Policy 7.3 and 7.4).
    pub fn apart_count(&self, place: u32) -> u32
        requires { place < length self.now.packages }
        ensures { result ≡ length (aparts_at self.now place) }
    {
        let place = place as usize;
        self.start(place + 1).entry - self.start(place).entry
    }

    /// An entry that the package at a place stands apart from (Debian Policy 7.3 and 7.4). Entries are numbered from 0: those
    /// of Conflicts, then those of Breaks.
    pub fn apart(&self, place: u32, number: u32) -> &Atom
        requires place { place < length self.now.packages }
        requires number { number < length (aparts_at self.now place) }
        ensures { atom_view result.now ≡ apart_at self.now place number }
    {
        self.package(place).apart(number)
    }

    /// How many distinct names there are.
    pub fn name_count(&self) -> u32
        ensures { result ≡ length (names self.now) }
    {
        self.catalog.names.front as u32
    }

    /// The name with a number, which is below `name_count`.
    pub fn name_text(&self, number: u32) -> &[u8]
        requires { number < length (names self.now) }
        ensures { result.now ≡ name_at self.now number }
    {
        self.catalog.names.texts.text(number as usize)
    }

    /// The number of a name; `None` where no package has it. Names are compared byte by byte (Debian Policy 5.6.7).
    pub fn name_number(&self, name: &[u8]) -> Option<u32>
        ensures { result ≡ position (bytes_eq name.now) (names self.now) }
    {
        match self.catalog.names.number(name) {
            Some(number) if number < self.catalog.names.front => Some(number as u32),
            _ => None,
        }
    }

    /// The number of the name of the package at a place.
    pub fn name_of(&self, place: u32) -> u32
        requires { place < length self.now.packages }
        ensures within { result < length (names self.now) }
        ensures name { name_at self.now result ≡ (package_at self.now place).name }
    {
        self.catalog.numbers[place as usize]
    }

    /// The places of a name's packages, rising: none for an unknown name.
    pub fn places_of(&self, name: &[u8]) -> &[u32]
        ensures { result.now ≡ places_of self.now name.now }
    {
        self.catalog.names.candidates(name).named
    }

    /// The places of the packages of the name with a number, rising; the number is below `name_count`.
    pub fn places_named(&self, number: u32) -> &[u32]
        requires { number < length (names self.now) }
        ensures { result.now ≡ places_of self.now (name_at self.now number) }
    {
        self.catalog.names.places(number as usize)
    }

    /// The places of all packages that have the name of the package at a place, rising; the place is among them.
    pub fn versions_of(&self, place: u32) -> &[u32]
        requires { place < length self.now.packages }
        ensures { result.now ≡ places_of self.now (package_at self.now place).name }
    {
        self.places_named(self.name_of(place))
    }

    /// Where a name is provided (Debian Policy 7.5), rising: each pair is a place and the number, from 0, of an entry in the
    /// Provides of the package there. An entry with a qualifier counts if it is `any` or the index's architecture.
    pub fn provides_of(&self, name: &[u8]) -> &[(u32, u32)]
        ensures { result.now ≡ provided_at self.now name.now }
    {
        self.catalog.names.candidates(name).provided
    }

    /// The numbers of the essential names, rising: a name is essential if some package of it has `Essential: yes`
    /// (Debian Policy 5.6.9). There are none where the index was read without essential names.
    pub fn essential_names(&self) -> &[u32]
        ensures { result.now ≡ essential_names self.now }
    {
        &self.essential
    }
}
