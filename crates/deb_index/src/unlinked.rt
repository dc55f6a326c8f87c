//! An index that lacks its rows; several workers make them side by side, each those of a range of places.
ghost use Rattle.std.specs.Prelude.{◌≡◌, ◌≤◌, IfOk, length, sum_by};
ghost use Rattle.std.specs.Thread.{IsSync};
ghost use Rattle.deb_index.specs.Links.{IsLinked, IsRange, packages_in};
ghost use Rattle.deb_index.specs.Tables.{asked_count, asked_limit};

use crate::catalog::Catalog;
use crate::index::Index;
use crate::limits::RANGE_SIZE;
use crate::links::Links;
use crate::lookup::Lookup;
use std::alloc::{AllocError, Global};
use std::marker::Model;
use std::thread;
use std::thread::Threads;

/// The packages of an index, with all their names: all but its rows, which are made last.
#[derive(Drop)]
pub(crate) struct Unlinked {
    pub(crate) catalog: Catalog,
    /// The numbers of the essential names.
    pub(crate) essential: Vec<u32>,
}

impl Model for Unlinked {
    ghost use Rattle.deb_index.specs.Packages.{IndexView};
    ghost use Rattle.deb_index.specs.Built.{IsNamed, catalog_view};

    ghost Value = { IndexView };

    ghost view = { λ u. catalog_view u.catalog };

    ghost invariant = { λ u. IsNamed u.catalog u.essential.items };
}

impl Unlinked {
    /// The index, once its rows are made.
    pub(crate) fn link(self, alloc: Global) -> Result<Index, AllocError>
        ensures { IfOk result (λ index. index ≡ self) }
    {
        let links = self.links_in(alloc, 0, self.len());
        self.with_links(links)
    }

    /// The same by so many workers side by side; 0 workers count as 1.
    pub(crate) fn link_on<R: Threads + Sync>(
        self,
        rt: &R,
        alloc: Global,
        workers: u32,
    ) -> Result<Index, AllocError>
        ensures { IfOk result (λ index. index ≡ self) }
    {
        let links = links_on(rt, alloc, &self, 0, self.len(), workers);
        self.with_links(links)
    }

    fn len(&self) -> u32
        ensures value { result ≡ length self.now.packages }
        ensures few_asked { sum_by asked_count self.now.packages ≤ asked_limit }
    {
        self.catalog.packages.len() as u32
    }

    /// The rows of the packages in a range of places.
    fn links_in(&self, alloc: Global, from: u32, to: u32) -> Result<Links, AllocError>
        requires { IsRange self.now from to }
        ensures { IfOk result (λ l. IsLinked self.now (packages_in self.now from to) l) }
    {
        Links::of(alloc, &Lookup::new(&self.catalog), from, to)
    }

    /// The index with its rows, where these could be made.
    fn with_links(self, links: Result<Links, AllocError>) -> Result<Index, AllocError>
        requires { IfOk links (λ l. IsLinked self self.packages l) }
        ensures { IfOk result (λ index. index ≡ self) }
    {
        let links = links?;
        Ok(Index {
            links,
            essential: self.essential,
            catalog: self.catalog,
        })
    }
}

/// Where the first worker's range ends: where the whole does, if that is too short for two.
fn first_end(from: u32, to: u32, workers: u32) -> u32
    requires { from ≤ to }
    ensures { (from ≤ result) × (result ≤ to) }
{
    if workers < 2 || (to - from) / 2 < RANGE_SIZE {
        return to;
    }
    from + ((to - from) / workers).max(RANGE_SIZE)
}

/// The rows of the packages in a range of places, by so many workers.
fn links_on<R: Threads + Sync>(
    rt: &R,
    alloc: Global,
    unlinked: &Unlinked,
    from: u32,
    to: u32,
    workers: u32,
) -> Result<Links, AllocError>
    requires { IsRange unlinked.now from to }
    ensures { IfOk result (λ l. IsLinked unlinked.now (packages_in unlinked.now from to) l) }
{
    let middle = first_end(from, to, workers);
    if workers == 0 || middle == to {
        return unlinked.links_in(alloc, from, to);
    }
    let others = workers - 1;
    let (first, rest) = thread::join(
        rt,
        move || -> Result<Links, AllocError>
            requires { IsRange unlinked.now from middle }
            ensures { IfOk result (λ l. IsLinked unlinked.entry.now (packages_in unlinked.entry.now from middle) l) }
        { unlinked.links_in(alloc, from, middle) },
        move || -> Result<Links, AllocError>
            requires sync { IsSync R.row }
            requires range { IsRange unlinked.now middle to }
            ensures { IfOk result (λ l. IsLinked unlinked.entry.now (packages_in unlinked.entry.now middle to) l) }
        { links_on(rt, alloc, unlinked, middle, to, others) },
    );
    let links = first?;
    let more = rest?;
    links.followed_by(&more)
}
