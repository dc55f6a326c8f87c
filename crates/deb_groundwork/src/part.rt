//! A part of the constraints of an index.

ghost use Rattle.std.specs.Prelude.{◌≡◌, ℕ, false, ◌<◌, ◌≤◌, length};
ghost use Rattle.std.specs.List.Sorted.{IsStrictlyIncreasing};
ghost use Rattle.number_sets.specs.Sets.{members_of};

use core_extract::next_of;
use deb_index::{Constraint, Index};
use number_sets::SparseSet;

/// Some constraints of an index by their positions in the list of all, and all from one position on, without those that are taken out.
#[derive(Clone, Copy)]
pub struct Part<'a> {
    pub index: &'a Index,
    pub kept: &'a [u32],
    pub rest: u32,
    pub out: Option<&'a SparseSet>,
    ghost rising: { IsStrictlyIncreasing kept.now },
}

/// Whether a rising list has a number.
pub fn is_among(numbers: &[u32], number: u32) -> bool
    requires { IsStrictlyIncreasing numbers.now }
    ensures { result ≡ members_of numbers.now number }
{
    numbers.binary_search(&number).is_ok()
}

impl<'a> Part<'a> {
    ghost use Rattle.deb_index.specs.Packages.{needs_at};
    ghost use Rattle.deb_groundwork.specs.Parts.{positions_in, taken_out, IsAsked};

    /// Whether the constraint at a position is taken out.
    pub fn is_out(&self, position: u32) -> bool
        ensures { result ≡ taken_out self.now position }
    {
        match self.out {
            Some(out) => out.contains(position),
            None => false,
        }
    }

    /// Whether it has the constraint at a position.
    pub fn has(&self, position: u32) -> bool
        ensures { result ≡ positions_in self.now position }
    {
        (position >= self.rest || is_among(self.kept, position)) && !self.is_out(position)
    }

    /// Whether it may lack a constraint.
    pub fn may_lack_one(&self) -> bool {
        self.rest > 0 || self.out.is_some_and(|out| !out.as_slice().is_empty())
    }

    /// The first position, from one on, that it may have by what is kept and the rest.
    fn next_position(&self, from: u32) -> u32
        ensures later { from ≤ result }
        ensures passed { (k : ℕ) → from ≤ k → k < result → positions_in self.now k ≡ false }
    {
        if from >= self.rest {
            return from;
        }
        match next_of(self.kept, from) {
            Some(next) if next < self.rest => next,
            _ => self.rest,
        }
    }

    /// The first number, from one on, of a need of a place that it may have by what is kept and the rest.
    pub(crate) fn next_need(&self, place: u32, number: u32) -> u32
        requires { place < length self.now.index.now.packages }
        ensures later { number ≤ result }
        ensures passed { (j : ℕ) → number ≤ j → j < result → j < length (needs_at self.now.index.now place)
            → IsAsked self.now (Constraint.Need place j) → ⊥ }
    {
        if self.rest == 0 || number >= self.index.need_count(place) {
            return number;
        }
        let position = self.index.need_position(place, number);
        number.saturating_add(self.next_position(position) - position)
    }
}
