//! Buffers that one call leaves to the next.

use number_sets::SparseSet;
use sat_solve::Owner;
use std::alloc::Global;

/// An entry: the place whose it is, and its number there.
#[derive(Clone, Copy)]
pub(crate) struct Entry {
    pub(crate) place: u32,
    pub(crate) number: u32,
}

/// The buffers of a list of variables that exclude each other, and of those of them that are owners.
#[derive(Drop)]
pub(crate) struct Exclusion {
    pub(crate) list: Vec<u32>,
    pub(crate) owners: Vec<Owner>,
}

/// The buffers in which names, entries and places are gathered.
#[derive(Drop)]
pub struct Gathered {
    pub(crate) names: SparseSet,
    pub(crate) entries: Vec<Entry>,
    pub(crate) owners: Vec<u32>,
    pub(crate) places: Vec<u32>,
    pub(crate) exclusion: Exclusion,
}

impl Gathered {
    /// Buffers with no room yet.
    pub fn new(alloc: Global) -> Gathered {
        Gathered {
            names: SparseSet::new(alloc),
            entries: Vec::new(alloc),
            owners: Vec::new(alloc),
            places: Vec::new(alloc),
            exclusion: Exclusion {
                list: Vec::new(alloc),
                owners: Vec::new(alloc),
            },
        }
    }
}
