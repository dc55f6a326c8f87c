//! The places in play, and clauses that hold where one of them is in, or out.

ghost use Rattle.std.specs.Prelude.{◌≡◌, ◌<◌, ◌^◌, false, true, All, IfOk, length, slice_index};
ghost use Rattle.std.specs.List.Sorted.{IsStrictlyIncreasing};
ghost use Rattle.number_sets.specs.Sets.{MarksOnly, NumberSet};
ghost use Rattle.deb_index.specs.Constraints.{IsAlone};

use deb_index::Index;
use number_sets::SparseSet;
use sat_solve::Lit;
use std::alloc::AllocError;

/// The places in play: an index, the places that are forced, so in every set that is looked for, and the candidates, each of which has a
/// variable: its number in their list. No other place is in any of these sets.
#[derive(Clone, Copy)]
pub struct Play<'a> {
    pub(crate) index: &'a Index,
    pub(crate) forced: &'a SparseSet,
    pub(crate) candidates: &'a SparseSet,
    /// By place: no entry of it hits another one, and no other one has its name.
    alone: &'a [bool],
    ghost forced_within: { All (λ q. q < length index.now.packages) forced.now },
    ghost candidates_within: { All (λ q. q < length index.now.packages) candidates.now },
    ghost rising: { IsStrictlyIncreasing candidates.now },
    ghost few: { length candidates.now < 2 ^ 32 },
    ghost marks_alone: { MarksOnly (IsAlone index.now) alone.now },
}

impl<'a> Play<'a> {
    ghost use Rattle.deb_encode.specs.Encoders.{WidensByPlace, WidensBySome, all_places, set_of};

    /// The places in play. Both sets have places of the index, and the candidates rise.
    ///
    /// `alone` marks, by place, packages whose conflicts need not be told: no entry of them hits another one, and no other one has their
    /// name. A package without a mark has its conflicts told.
    pub fn new(
        index: &'a Index,
        forced: &'a SparseSet,
        candidates: &'a SparseSet,
        alone: &'a [bool],
    ) -> Play<'a>
        requires forced_within { All (λ q. q < length index.now.packages) forced.now }
        requires candidates_within { All (λ q. q < length index.now.packages) candidates.now }
        requires rising { IsStrictlyIncreasing candidates.now }
        requires alone { MarksOnly (IsAlone index.now) alone.now }
        ensures index { result.index.now ≡ index.now }
        ensures forced { result.forced.now ≡ forced.now }
        ensures candidates { result.candidates.now ≡ candidates.now }
    {
        // A place is below the index's length, so a candidate's number fits 32 bits.
        let _places = index.len();
        Play {
            index,
            forced,
            candidates,
            alone,
        }
    }

    /// Whether a set of variables may stand for a set with a place.
    pub(crate) fn may_have(&self, place: u32) -> bool
        ensures { result ≡ false → (vars : NumberSet) → set_of self.now vars place ≡ false }
    {
        self.forced.contains(place) || self.candidates.contains(place)
    }

    /// Makes a clause hold where a place is in, too, or where it is out. `true`: it holds anyway, whatever its literals say.
    pub(crate) fn or_place(
        &self,
        place: u32,
        positive: bool,
        clause: &mut Vec<Lit>,
    ) -> Result<bool, AllocError>
        ensures { IfOk result (λ anyway. WidensByPlace self.now place positive clause.old.items clause.new.items anyway) }
    {
        if self.forced.contains(place) {
            return Ok(positive);
        }
        let Some(number) = self.candidates.position_of(place) else {
            return Ok(!positive);
        };
        clause.push(Lit {
            var: number as u32,
            positive,
        })?;
        Ok(false)
    }

    /// Makes a clause hold where one of some places is in, too, or where one is out. `true`: it holds anyway, whatever its literals say.
    pub(crate) fn or_some(
        &self,
        places: &[u32],
        positive: bool,
        clause: &mut Vec<Lit>,
    ) -> Result<bool, AllocError>
        ensures { IfOk result (λ anyway. WidensBySome self.now places.now positive clause.old.items clause.new.items anyway) }
    {
        for place in places {
            if self.or_place(*place, positive, clause)? {
                return Ok(true);
            }
        }
        Ok(false)
    }

    /// How many places there are.
    pub(crate) fn count(&self) -> usize
        ensures { result ≡ length (all_places self.now) }
    {
        self.forced.as_slice().len() + self.candidates.as_slice().len()
    }

    /// The place with a number: the forced ones come first.
    pub(crate) fn place(&self, number: usize) -> u32
        requires { number < length (all_places self.now) }
        ensures at { result ≡ slice_index (all_places self.now) number }
        ensures within { result < length self.now.index.now.packages }
    {
        let forced = self.forced.as_slice();
        if number < forced.len() {
            return forced[number];
        }
        self.candidates.as_slice()[number - forced.len()]
    }

    /// Whether a place is known to keep out no other one, and to be the only one of its name.
    pub(crate) fn is_alone(&self, place: u32) -> bool
        ensures { result ≡ true → IsAlone self.now.index.now place }
    {
        match self.alone.get(place as usize) {
            Some(alone) => *alone,
            None => false,
        }
    }
}
