//! Constraints that are known to be needed, so that no question is asked of them.

ghost use Rattle.std.specs.Prelude.{◌≡◌, ℕ, ◌+◌, ◌≤◌, true};
ghost use Rattle.std.specs.List.Sorted.{IsStrictlyIncreasing};
ghost use Rattle.number_sets.specs.Sets.{NumberSet, members_of};
ghost use Rattle.core_extract.specs.Reduction.{left};
ghost use Rattle.deb_index.specs.Packages.{IndexView};
ghost use Rattle.deb_health.specs.Causes.{without};
ghost use Rattle.deb_health.specs.Health.{AdmitsNone};
ghost use Rattle.deb_verdict.specs.Formulas.{AreKnown, AreNeeded};

use deb_groundwork::is_among;
use number_sets::sort_once;
use std::alloc::{AllocError, Global};
use std::mem;

/// Positions of constraints that each refutation needs out of some constraints.
#[derive(Drop)]
pub(crate) struct Known {
    /// The positions that are needed, rising.
    pub(crate) needed: Vec<u32>,
    /// Out of these and all from a position on.
    pub(crate) settled: Vec<u32>,
    pub(crate) from: u32,
}

/// Whether a list begins as another one, and then has numbers from one on.
fn goes_on(kept: &[u32], settled: &[u32], from: u32) -> bool
    requires { IsStrictlyIncreasing kept.now }
    ensures { result ≡ true → (k : ℕ) → members_of kept.now k ≡ true → left (members_of settled.now) from k ≡ true }
{
    let count = settled.len();
    if kept.len() < count {
        return false;
    }
    for place in 0..count {
        if kept[place] != settled[place] {
            return false;
        }
    }
    match kept.get(count) {
        Some(next) => from <= *next,
        None => true,
    }
}

impl Known {
    /// Whether it is known that the kept constraints and all behind a position admit a set without the one there.
    pub(crate) fn has(&self, kept: &[u32], position: u32) -> bool
        requires rising { IsStrictlyIncreasing kept.now }
        requires needed { IsStrictlyIncreasing self.now.needed.items }
        ensures { result ≡ true → (index : IndexView) (p : ℕ) (out : NumberSet) → AreKnown index p out self.now
            → AdmitsNone index p (without out (left (members_of kept.now) (position + 1))) → ⊥ }
    {
        if position < self.from || is_among(kept, position) || !is_among(&self.needed, position) {
            return false;
        }
        goes_on(kept, &self.settled, self.from)
    }

    /// Takes in what is needed out of the kept constraints and all from a position on.
    pub(crate) fn take(
        &mut self,
        alloc: Global,
        kept: &[u32],
        from: u32,
        more: &[u32],
    ) -> Result<(), AllocError>
        requires { IsStrictlyIncreasing kept.now }
        ensures { (index : IndexView) (p : ℕ) (out : NumberSet) → AreKnown index p out self.old
            → AreNeeded index p (without out (left (members_of kept.now) from)) more.now → AreKnown index p out self.new }
    {
        let mut needed = Vec::new(alloc);
        if from >= self.from && goes_on(kept, &self.settled, self.from) {
            mem::swap(&mut needed, &mut self.needed);
        }
        self.needed.clear();
        needed.extend_from_slice(more)?;
        sort_once(&mut needed);
        self.settled.clear();
        self.settled.extend_from_slice(kept)?;
        self.from = from;
        self.needed = needed;
        Ok(())
    }
}
