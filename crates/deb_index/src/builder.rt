//! An index while it is read.
ghost use Rattle.std.specs.Prelude.{◌≡◌, ◌≢◌, ◌≤◌, ◌+◌, ◌*◌, ℕ, List, [], Ok, Err, IfOk, IfErr, OnOk, length, map, sum_by};
ghost use Rattle.std.specs.List.{flat_map, fold};
ghost use Rattle.deb_index.specs.Packages.{essential_names};
ghost use Rattle.deb_index.specs.Built.{ArePartsOf, HasRoomFor, HaveRoom, IsBuilt, IsForeseen, draft_view, part_stanzas};
ghost use Rattle.deb_index.specs.Reading.{byte_limit, collected, read_behind, reading_view, stanza_limit, with_foreground, with_reading};
ghost use Rattle.deb_index.specs.Tables.{asked_count};

use crate::catalog::Catalog;
use crate::duplicates::Draft;
use crate::error::IndexError;
use crate::limits::STANZA_LIMIT;
use crate::names::Names;
use crate::package::{Reading, next_reading};
use crate::parts::Part;
use crate::unlinked::Unlinked;
use deb_control::Reader;
use number_sets::sort_once;
use std::alloc::{AllocError, Global};
use std::collections::HashSet;
use std::marker::Model;

impl Draft {
    /// Takes in the parts of a text, or of a piece of it; so many stanzas stood in an earlier text.
    fn add_parts(&mut self, alloc: Global, before: u32, parts: Vec<Part>) -> Result<(), IndexError>
        requires built { IsBuilt self.old }
        requires parts { (text : List ℕ) × ArePartsOf (draft_view self.old).arch text parts.items × (length text ≤ byte_limit) }
        requires begun { before ≤ self.old.catalog.stanzas }
        requires few { self.old.catalog.stanzas ≤ stanza_limit }
        requires room { sum_by asked_count (draft_view self.old).packages ≤ byte_limit + 1 + 4 * self.old.catalog.stanzas }
        ensures built { OnOk result (IsBuilt self.new) }
        ensures accepted { OnOk result (read_behind (draft_view self.old) before (flat_map part_stanzas parts.entry.items) ≡ Ok (draft_view self.new)) }
        ensures refused { IfErr result (λ e. e ≢ IndexError.Memory
            → read_behind (draft_view self.old) before (flat_map part_stanzas parts.entry.items) ≡ Err e) }
    {
        for part in parts {
            self.add_part(alloc, before, part)?;
        }
        Ok(())
    }

    /// Takes in a part of a text; so many stanzas stood in an earlier text. What was read beforehand is taken over, where there are not too
    /// many stanzas then; else the part is read here.
    fn add_part(&mut self, alloc: Global, before: u32, part: Part) -> Result<(), IndexError>
        requires built { IsBuilt self.old }
        requires begun { before ≤ self.old.catalog.stanzas }
        requires few { self.old.catalog.stanzas ≤ stanza_limit }
        requires short { length part.text.now ≤ byte_limit }
        requires foreseen { IsForeseen (draft_view self.old).arch part }
        requires room { HasRoomFor (draft_view self.old) (part_stanzas part) }
        ensures built { OnOk result (IsBuilt self.new) }
        ensures accepted { OnOk result (read_behind (draft_view self.old) before (part_stanzas part.entry) ≡ Ok (draft_view self.new)) }
        ensures refused { IfErr result (λ e. e ≢ IndexError.Memory → read_behind (draft_view self.old) before (part_stanzas part.entry) ≡ Err e) }
    {
        let Part { text, found } = part;
        if let Some(found) = found {
            if found.len() <= (STANZA_LIMIT - self.catalog.stanzas) as usize {
                self.add_readings(alloc, found)?;
                return Ok(());
            }
        }
        let reader = Reader::behind(text, u64::from(self.catalog.stanzas - before));
        self.add_stanzas(alloc, before, reader)
    }

    /// Takes in what stanzas read as.
    fn add_readings(&mut self, alloc: Global, found: Vec<Reading>) -> Result<(), AllocError>
        requires built { IsBuilt self.old }
        requires room { HaveRoom (draft_view self.old) (map reading_view found.items) }
        ensures built { OnOk result (IsBuilt self.new) }
        ensures added { OnOk result (draft_view self.new ≡ fold with_reading (draft_view self.old) (map reading_view found.items)) }
    {
        for reading in found {
            self.add(alloc, reading)?;
        }
        Ok(())
    }

    /// Reads the stanzas that a reader has before it, and takes each in; so many stood in an earlier text.
    fn add_stanzas(&mut self, alloc: Global, before: u32, reader: Reader) -> Result<(), IndexError>
        requires built { IsBuilt self.old }
        requires counts { self.old.catalog.stanzas ≡ before + reader.count }
        requires few { self.old.catalog.stanzas ≤ stanza_limit }
        requires room { HasRoomFor (draft_view self.old) reader.stanzas }
        ensures built { OnOk result (IsBuilt self.new) }
        ensures accepted { OnOk result (read_behind (draft_view self.old) before reader.entry.stanzas ≡ Ok (draft_view self.new)) }
        ensures refused { IfErr result (λ e. e ≢ IndexError.Memory → read_behind (draft_view self.old) before reader.entry.stanzas ≡ Err e) }
    {
        let mut reader = reader;
        'stanzas: while let Some(reading) = next_reading(
            alloc,
            &self.catalog.arch,
            before,
            &mut reader,
        )? {
            self.add(alloc, reading)?;
        }
        Ok(())
    }
}

/// A draft that is filled whole: each call that may want memory takes the builder and gives back one that has more.
#[derive(Drop)]
pub(crate) struct Builder {
    draft: Draft,
}

impl Model for Builder {
    ghost use Rattle.deb_index.specs.Packages.{IndexView};
    ghost use Rattle.deb_index.specs.Built.{IsBuilt, draft_view};

    ghost Value = { IndexView };

    ghost view = { λ b. draft_view b.draft };

    ghost invariant = { λ b. IsBuilt b.draft };
}

impl Builder {
    pub(crate) fn new(
        alloc: Global,
        arch: &[u8],
        with_essential: bool,
    ) -> Result<Builder, AllocError>
        ensures { IfOk result (λ b. b ≡ collected arch.now with_essential []) }
    {
        let catalog = Catalog {
            arch: Vec::from_slice(alloc, arch)?,
            with_essential,
            stanzas: 0,
            skipped: 0,
            duplicates: 0,
            foreground: 0,
            numbers: Vec::new(alloc),
            names: Names::new(alloc),
            packages: Vec::new(alloc),
        };
        let later = HashSet::new(alloc);
        Ok(Builder {
            draft: Draft { catalog, later },
        })
    }

    /// Takes in the parts of a text, or of a piece of it, behind the stanzas that are there; so many of these stood in an earlier text.
    pub(crate) fn add_behind(
        mut self,
        alloc: Global,
        before: u32,
        parts: Vec<Part>,
    ) -> Result<Builder, IndexError>
        requires parts { (text : List ℕ) × ArePartsOf self.arch text parts.items × (length text ≤ byte_limit) }
        requires begun { before ≤ self.stanzas }
        requires few { self.stanzas ≤ stanza_limit }
        requires room { sum_by asked_count self.packages ≤ byte_limit + 1 + 4 * self.stanzas }
        ensures accepted { IfOk result (λ b. read_behind self before (flat_map part_stanzas parts.entry.items) ≡ Ok b) }
        ensures refused { IfErr result (λ e. e ≢ IndexError.Memory → read_behind self before (flat_map part_stanzas parts.entry.items) ≡ Err e) }
    {
        match self.draft.add_parts(alloc, before, parts) {
            Ok(()) => Ok(self),
            Err(error) => {
                drop(self.draft);
                Err(error)
            }
        }
    }

    pub(crate) fn stanzas(&self) -> u32
        ensures { result ≡ self.now.stanzas }
    {
        self.draft.catalog.stanzas
    }

    pub(crate) fn arch(&self) -> &[u8]
        ensures { result.now ≡ self.now.arch }
    {
        &self.draft.catalog.arch
    }

    /// Makes all packages so far the foreground.
    pub(crate) fn end_foreground(mut self) -> Builder
        ensures { result ≡ with_foreground self }
    {
        self.draft.catalog.foreground = self.draft.catalog.packages.len() as u32;
        self
    }

    /// The index of what was read, which lacks its rows.
    pub(crate) fn finish(self, alloc: Global) -> Result<Unlinked, AllocError>
        ensures { IfOk result (λ index. index ≡ self) }
    {
        let essential = self.essential_names(alloc)?;
        let Draft { mut catalog, later } = self.draft;
        drop(later);
        catalog
            .names
            .add_provided(alloc, &catalog.arch, &catalog.packages)?;
        Ok(Unlinked { catalog, essential })
    }

    /// The numbers of the essential names, rising.
    fn essential_names(&self, alloc: Global) -> Result<Vec<u32>, AllocError>
        ensures { IfOk result (λ v. v.items ≡ essential_names self.now) }
    {
        let mut found = Vec::new(alloc);
        for (place, package) in self.draft.catalog.packages.iter().enumerate() {
            if self.draft.catalog.with_essential & package.essential {
                found.push(self.draft.catalog.numbers[place])?;
            }
        }
        sort_once(&mut found);
        Ok(found)
    }
}
