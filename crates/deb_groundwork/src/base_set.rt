//! A large set of packages of an index, each with what it asks for: what a question looks for grows on it, and need not be found anew for each one.

ghost use Rattle.std.specs.Prelude.{◌≡◌, [], ◌<◌, true, length};
ghost use Rattle.number_sets.specs.Sets.{members_of};
ghost use Rattle.deb_health.specs.Causes.{either};
ghost use Rattle.deb_health.specs.Health.{IsHealthy, MeetsAt};
ghost use Rattle.deb_groundwork.specs.BaseSets.{HasRoom, IsBase};
ghost use Rattle.deb_groundwork.specs.Parts.{positions_in};

use crate::answering::are_answered;
use crate::healthy_set::{has_no_earlier, meets_essentials};
use crate::part::Part;
use crate::rows::{Places, has_free_name, stands_apart, take_hits};
use deb_index::Index;
use number_sets::SparseSet;
use std::alloc::Global;

/// Places, of which each has what its package asks for among them.
#[derive(Drop)]
pub struct BaseSet {
    pub members: SparseSet,
    /// What an entry of a member hits.
    pub hit: SparseSet,
}

/// A base set, and more places.
#[derive(Clone, Copy)]
pub(crate) struct OnBase<'a> {
    pub(crate) base: &'a BaseSet,
    pub(crate) more: &'a SparseSet,
}

impl Places for OnBase<'_> {
    ghost members = { λ set. either (members_of set.base.now.members) (members_of set.more.now) };

    fn has(&self, place: u32) -> bool {
        self.base.members.contains(place) || self.more.contains(place)
    }
}

impl BaseSet {
    /// No places, and no room yet.
    pub fn empty(alloc: Global) -> BaseSet
        ensures { result.members ≡ [] }
    {
        BaseSet {
            members: SparseSet::new(alloc),
            hit: SparseSet::new(alloc),
        }
    }

    /// Takes all out, and keeps the room.
    pub fn clear(&mut self)
        ensures members { self.new.members ≡ [] }
        ensures hit { self.new.hit ≡ [] }
    {
        self.members.clear();
        self.hit.clear();
    }

    /// Whether each place is seen to have what its package asks for among them.
    pub(crate) fn is_base(&mut self, index: &Index) -> bool
        ensures { result ≡ true → IsBase index.now self.new }
    {
        let members = &self.members;
        let hit = &mut self.hit;
        hit.clear();
        for place in members.as_slice() {
            if *place >= index.len()
                || !are_answered(index, members, *place)
                || !stands_apart(index, members, *place)
                || !has_no_earlier(index, members, *place)
                || !take_hits(index, *place, hit)
            {
                return false;
            }
        }
        true
    }

    /// Puts in the members of another set, and what they hit. No claim rests on what is in by it.
    pub(crate) fn extend(&mut self, more: &BaseSet) -> bool {
        self.hit.extend(more.hit.as_slice()).is_ok()
            && self.members.extend(more.members.as_slice()).is_ok()
    }

    /// Whether it is seen to meet a part: it may lack essential names, and nothing else.
    fn meets(&self, part: &Part<'_>) -> bool
        requires { IsBase part.now.index.now self.now }
        ensures { result ≡ true → MeetsAt part.now.index.now (members_of self.now.members) (positions_in part.now) }
    {
        meets_essentials(part, &self.members)
    }

    /// Whether it is seen to be healthy.
    pub(crate) fn is_healthy(&self, index: &Index) -> bool
        requires { IsBase index.now self.now }
        ensures { result ≡ true → IsHealthy index.now (members_of self.now.members) }
    {
        let all = Part {
            index,
            kept: &[],
            rest: 0,
            out: None,
        };
        self.meets(&all)
    }

    /// Whether nothing of the set is in the way of a package: no entry of a member hits it, and no member has its name. `false` where very many
    /// packages have it.
    pub(crate) fn has_room(&self, index: &Index, place: u32) -> bool
        requires { place < length index.now.packages }
        ensures { result ≡ true → HasRoom index.now self.now place }
    {
        if self.hit.contains(place) {
            return false;
        }
        has_free_name(index, &self.members, place)
    }
}
