//! Large sets: packages of an index, each with what it needs, as many as fit. How they grow is claimed by nothing: what a set is, is looked up.

ghost use Rattle.std.specs.Prelude.{◌≡◌, ◌<◌, true, length};
ghost use Rattle.deb_groundwork.specs.BaseSets.{IsBase};

use crate::answering::are_answered;
use crate::base_set::BaseSet;
use crate::choice::Ground;
use crate::growth::Witness;
use crate::limits::BASE_SET_TIMES;
use crate::part::Part;
use crate::rows::{essential_count, essential_row, has_any, stands_apart, take_hits};
use deb_index::Index;
use number_sets::SparseSet;
use std::alloc::Global;

/// Packages, each with what it needs, and how others come to them.
#[derive(Drop)]
pub(crate) struct LargeSet<'a> {
    pub(crate) set: BaseSet,
    index: &'a Index,
    /// Places that are not tried.
    lacking: &'a SparseSet,
    witness: Witness,
    last_first: bool,
    /// How much may come in all, by the weights of packages, what is not taken in with it.
    limit: u64,
}

impl<'a> LargeSet<'a> {
    /// Without members. In all, as much may come as so many times the whole index.
    pub(crate) fn new(
        alloc: Global,
        index: &'a Index,
        lacking: &'a SparseSet,
        times: u64,
    ) -> LargeSet<'a> {
        let asked = if index.name_count() > 0 {
            index.only_position(0)
        } else {
            0
        };
        LargeSet {
            set: BaseSet::empty(alloc),
            index,
            lacking,
            witness: Witness::new(alloc),
            last_first: false,
            limit: (u64::from(index.len()) + u64::from(asked)).saturating_mul(times),
        }
    }

    /// Begins anew. As much may come as before.
    pub(crate) fn clear(&mut self, last_first: bool) {
        self.set.clear();
        self.witness.start();
        self.last_first = last_first;
    }

    /// Whether what is in meets what a package asks for, and nothing is in the way.
    fn is_ready_for(&self, place: u32) -> bool
        ensures { result ≡ true → place < length self.now.index.now.packages }
    {
        place < self.index.len()
            && self.set.has_room(self.index, place)
            && !self.lacking.contains(place)
            && are_answered(self.index, &self.set.members, place)
            && stands_apart(self.index, &self.set.members, place)
    }

    /// Puts a package in with what it needs. `false` where that isn't found: then the members are what they were.
    pub(crate) fn add(&mut self, place: u32) -> bool {
        if self.set.members.contains(place) {
            return true;
        }
        if self.is_ready_for(place) {
            return take_hits(self.index, place, &mut self.set.hit)
                && self.set.members.insert(place).is_ok();
        }
        if self.witness.came >= self.limit {
            return false;
        }
        let part = Part {
            index: self.index,
            kept: &[],
            rest: essential_count(self.index),
            out: None,
        };
        let ground = Ground {
            part,
            base: &self.set,
            lacking: self.lacking,
            asks_all: true,
            last_first: self.last_first,
        };
        self.witness.comes_to_be(&ground, place) && self.set.extend(&self.witness.more)
    }

    /// Puts in a package of each essential name, with what it needs. `false` where that isn't found.
    pub(crate) fn add_essentials(&mut self) -> bool {
        let index = self.index;
        for position in 0..essential_count(index) {
            let row = essential_row(index, position);
            for place in row {
                if has_any(&self.set.members, row) || self.add(*place) {
                    break;
                }
            }
            if !has_any(&self.set.members, row) {
                return false;
            }
        }
        true
    }
}

/// A package of each essential name, if there can be, and of all others those that fit, each with what it asks for.
pub(crate) fn find_base_set(alloc: Global, index: &Index, lacking: &SparseSet) -> BaseSet
    ensures { IsBase index.now result }
{
    let mut large = LargeSet::new(alloc, index, lacking, BASE_SET_TIMES);
    large.add_essentials();
    for place in 0..index.len() {
        large.add(place);
    }
    let mut set = large.set;
    if !set.is_base(index) {
        set.clear();
    }
    set
}
