//! A set of packages that grows on a base set without a search: each need takes what is in, or else one of its answers. No claim rests on
//! how it grows, so for want of memory it grows no further.

ghost use Rattle.std.specs.Prelude.{◌<◌, length};
ghost use Rattle.deb_index.specs.Packages.{needs_at};

use crate::answering::{bearer, has_answer};
use crate::base_set::{BaseSet, OnBase};
use crate::choice::{Ground, choose, is_fit};
use crate::derivation::has_need;
use crate::hopeless::is_unanswered;
use crate::limits::{ALTERNATIVES, BEARERS, NEWLY_ASKED, WITNESS_TRIES};
use crate::rows::{essential_count, essential_row, has_any, take_hits};
use deb_index::{Constraint, Index};
use deb_relation::Atom;
use number_sets::SparseSet;
use std::alloc::Global;

/// What a place of a set came for: a need of an earlier place.
#[derive(Clone, Copy)]
struct Cause {
    place: u32,
    number: u32,
}

/// What grows on a base set, and what was seen on the way.
#[derive(Drop)]
pub struct Witness {
    /// The places beside the base set, in the order in which they came.
    pub(crate) more: BaseSet,
    /// What each of them came for; none for the first one, and for those of essential names.
    causes: Vec<Option<Cause>>,
    /// Places with a need of several answers, of which none was in when it was gone through.
    open: Vec<u32>,
    /// What was seen to lead nowhere.
    unfit: SparseSet,
    /// How much came in all, by the weights of packages.
    pub(crate) came: u64,
    /// The package that it grew for last, and where the rest of the part began. That is 0 once a question about the package took a second try.
    package: u32,
    rest: u32,
}

/// How much a package asks for: itself, its needs and its entries.
pub(crate) fn weight(index: &Index, place: u32) -> u64
    requires { place < length index.now.packages }
{
    1 + u64::from(index.need_count(place)) + u64::from(index.apart_count(place))
}

impl Witness {
    /// Buffers with no room yet.
    pub fn new(alloc: Global) -> Witness {
        Witness {
            more: BaseSet::empty(alloc),
            causes: Vec::new(alloc),
            open: Vec::new(alloc),
            unfit: SparseSet::new(alloc),
            came: 0,
            package: 0,
            rest: u32::MAX,
        }
    }

    /// Nothing is known to lead nowhere.
    pub(crate) fn start(&mut self) {
        self.unfit.clear();
    }

    /// The base set, and what grows on it.
    fn on<'a>(&'a self, base: &'a BaseSet) -> OnBase<'a> {
        OnBase {
            base,
            more: &self.more.members,
        }
    }

    /// Puts in a place.
    fn take(&mut self, ground: &Ground, place: u32, cause: Option<Cause>) -> bool {
        let index = ground.part.index;
        if place >= index.len() {
            return false;
        }
        if ground.asks_all {
            self.came = self.came.saturating_add(weight(index, place));
            take_hits(index, place, &mut self.more.hit);
        }
        self.more.members.insert(place).is_ok() && self.causes.push(cause).is_ok()
    }

    /// Puts in a place of the row. `false` where it has none that may lead somewhere.
    fn take_one(&mut self, ground: &Ground, row: &[u32], cause: Option<Cause>) -> bool {
        match choose(ground, &self.more, &self.unfit, row) {
            Some(place) => self.take(ground, place, cause),
            None => false,
        }
    }

    /// Puts in the first bearer of an alternative's name that meets it and fits. `false` where none of those that are looked at does.
    fn take_bearer(&mut self, ground: &Ground, atom: &Atom, cause: Cause) -> bool {
        let index = ground.part.index;
        let named = index.places_of(atom.name.as_slice());
        let provided = index.provides_of(atom.name.as_slice());
        for number in 0..BEARERS {
            let Some(place) = bearer(named, provided, number) else {
                return false;
            };
            if self.unfit.contains(place) || !is_fit(ground, &self.more, place) {
                continue;
            }
            if place < index.len() && index.meets_need(place, atom) {
                return self.take(ground, place, Some(cause));
            }
        }
        false
    }

    /// Puts in a bearer of an alternative's name that answers a need, where none is in. `false` where none of those that are looked at fits.
    fn take_any(&mut self, ground: &Ground, place: u32, number: u32) -> bool
        requires place { place < length ground.now.part.index.now.packages }
        requires number { number < length (needs_at ground.now.part.index.now place) }
    {
        let index = ground.part.index;
        if has_answer(index, &self.on(ground.base), place, number) {
            return true;
        }
        let alternatives = index.need(place, number);
        for tried in 0..alternatives.len().min(ALTERNATIVES) {
            if self.take_bearer(ground, &alternatives[tried], Cause { place, number }) {
                return true;
            }
        }
        false
    }

    /// Puts in an answer of a need, where none is in. Where it has several and a choice can wait, the place that has it is open. `false` where none
    /// will do.
    fn take_answer(&mut self, ground: &Ground, place: u32, number: u32, can_wait: bool) -> bool
        requires place { place < length ground.now.part.index.now.packages }
        requires number { number < length (needs_at ground.now.part.index.now place) }
    {
        match ground.part.index.answer_row(place, number) {
            Some(row) if has_any(&self.on(ground.base), row) => true,
            Some(row) if row.len() < 2 || !can_wait => {
                self.take_one(ground, row, Some(Cause { place, number }))
            }
            None if !can_wait => self.take_any(ground, place, number),
            _ => self.open.last() == Some(&place) || self.open.push(place).is_ok(),
        }
    }

    /// Puts in an answer of each such need of a place that the part asks for. `false` where one has none.
    fn take_answers(&mut self, ground: &Ground, place: u32, can_wait: bool) -> bool
        requires { place < length ground.now.part.index.now.packages }
    {
        let count = ground.part.index.need_count(place);
        let mut number = 0;
        while number < count {
            if !ground.asks(place, number) {
                number = ground.part.next_need(place, number + 1);
            } else if self.take_answer(ground, place, number, can_wait) {
                number += 1;
            } else {
                return false;
            }
        }
        true
    }

    /// Puts in a package of each essential name that the part asks for.
    fn take_essentials(&mut self, ground: &Ground) -> bool {
        let part = ground.part;
        let count = essential_count(part.index);
        if part.kept.is_empty() && part.rest >= count {
            return true;
        }
        for position in 0..count {
            let row = essential_row(part.index, position);
            if part.has(position)
                && !has_any(&self.on(ground.base), row)
                && !self.take_one(ground, row, None)
            {
                return false;
            }
        }
        true
    }

    /// Puts in what the places need, from one of them on, as long as places come. Where a need isn't answered, the place that has it.
    fn take_needs(&mut self, ground: &Ground, from: usize) -> Option<u32> {
        let (mut visited, mut chosen) = (from, 0);
        // Each place is gone through twice at most.
        for _ in 0..u64::from(ground.part.index.len()) * 2 {
            let places = self.more.members.as_slice();
            // Only where all is asked for, what is chosen first may be in the way of what has to come.
            let (place, can_wait) = if visited < places.len() {
                visited += 1;
                (places[visited - 1], ground.asks_all)
            } else if chosen < self.open.len() {
                chosen += 1;
                (self.open[chosen - 1], false)
            } else {
                return None;
            };
            if place >= ground.part.index.len() || !self.take_answers(ground, place, can_wait) {
                return Some(place);
            }
        }
        None
    }

    /// Makes a set of the package at a place and what the part asks for with it. Where something wasn't found, the place that needs it.
    pub(crate) fn grow(&mut self, ground: &Ground, p: u32) -> Option<u32> {
        let again = self.package == p && self.rest <= ground.part.rest;
        self.rest = if again { 0 } else { ground.part.rest };
        self.package = p;
        self.more.clear();
        self.causes.clear();
        self.open.clear();
        if self.unfit.contains(p) || ground.asks_all && !is_fit(ground, &self.more, p) {
            return Some(p);
        }
        if !self.take(ground, p, None) || !self.take_essentials(ground) {
            return Some(p);
        }
        self.take_needs(ground, 0)
    }

    /// Makes a set as `grow` does, from the last one for the package and a part whose rest began a little later: by what is newly asked alone.
    /// `false` where there is none, or what is asked isn't found.
    pub(crate) fn grow_further(&mut self, ground: &Ground, p: u32) -> bool
        requires { p < length ground.now.part.index.now.packages }
    {
        let part = ground.part;
        let end = self.rest;
        if self.package != p
            || !part.kept.is_empty()
            || end <= part.rest
            || end - part.rest > NEWLY_ASKED
            || end > part.index.only_position(part.index.name_of(p))
        {
            return false;
        }
        self.rest = part.rest;
        let visited = self.more.members.as_slice().len();
        for position in part.rest..end {
            let Constraint::Need(place, number) = part.index.constraint_at(position) else {
                continue;
            };
            if self.more.members.contains(place)
                && !part.is_out(position)
                && !self.take_answer(ground, place, number, false)
            {
                return false;
            }
        }
        self.take_needs(ground, visited).is_none()
    }

    /// What a place came for.
    fn cause_of(&self, place: u32) -> Option<Cause> {
        let number = self.more.members.position_of(place)?;
        *self.causes.get(number)?
    }

    /// Rules out a place, and what it came for, as long as that has no other answer. `false` where so is all of the way to the first place.
    pub(crate) fn rule_out(&mut self, index: &Index, place: u32) -> bool {
        let mut place = place;
        for _ in 0..self.causes.len() {
            if self.unfit.insert(place).is_err() {
                return false;
            }
            let Some(cause) = self.cause_of(place) else {
                return false;
            };
            if has_need(index, cause.place, cause.number)
                && !is_unanswered(index, &self.unfit, cause.place, cause.number)
            {
                return true;
            }
            place = cause.place;
        }
        false
    }
    /// Whether `grow` comes to an end. Where a try leads nowhere, the next one goes without what led there.
    pub(crate) fn comes_to_be(&mut self, ground: &Ground, p: u32) -> bool {
        for _ in 0..WITNESS_TRIES {
            let Some(place) = self.grow(ground, p) else {
                return true;
            };
            if !self.rule_out(ground.part.index, place) {
                return false;
            }
        }
        false
    }
}
