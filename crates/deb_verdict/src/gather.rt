//! The places that healthy sets with a package may have beside the forced ones, and the needs that these leave open.

ghost use Rattle.std.specs.Prelude.{◌≡◌, ◌⊎◌, ℕ, ◌<◌, ◌==◌, [], true, All, OnOk, length};
ghost use Rattle.std.specs.List.{list_any};
ghost use Rattle.deb_index.specs.Packages.{needs_at};
ghost use Rattle.deb_groundwork.specs.Groundwork.{HasAnswers};
ghost use Rattle.number_sets.specs.Sets.{NumberSet, members_of, IsWithin, MarksOnly, AreNumbers, Grows};

use deb_groundwork::has_any;
use deb_index::Index;
use number_sets::SparseSet;
use std::alloc::{AllocError, Global};

/// The places that are forced, and those whose needs they are known to answer.
#[derive(Clone, Copy)]
pub(crate) struct Ground<'a> {
    pub(crate) index: &'a Index,
    pub(crate) forced: &'a SparseSet,
    /// By place: forced places answer each need.
    pub(crate) met: &'a [bool],
    ghost within: { All (λ place. place < length index.now.packages) forced.now },
    ghost marks: { MarksOnly (HasAnswers index.now (members_of forced.now)) met.now },
}

impl Ground<'_> {
    /// Whether forced places are known to answer each need of a place.
    fn is_met(&self, place: u32) -> bool
        ensures { result ≡ true → HasAnswers self.now.index.now (members_of self.now.forced.now) place }
    {
        match self.met.get(place as usize) {
            Some(met) => *met,
            None => false,
        }
    }
}

/// A need, by the place of its package and its number there.
#[derive(Clone, Copy)]
pub(crate) struct UnmetNeed {
    pub(crate) place: u32,
    pub(crate) number: u32,
}

/// The places that may meet what no forced place meets, and the needs of all places in play that no forced place answers.
#[derive(Drop)]
pub(crate) struct Candidates {
    pub(crate) places: SparseSet,
    pub(crate) unmet: Vec<UnmetNeed>,
    /// The places that answer a need: a buffer.
    found: Vec<u32>,
}

impl Candidates {
    ghost use Rattle.deb_verdict.specs.Closure.{IsClosed, Gathers, HasNames, IsGathered, Reaches};

    /// No candidates, and no room yet.
    pub(crate) fn new(alloc: Global) -> Candidates {
        Candidates {
            places: SparseSet::new(alloc),
            unmet: Vec::new(alloc),
            found: Vec::new(alloc),
        }
    }

    /// Brings in the packages of each essential name that no forced place has.
    fn bring_essentials(&mut self, index: &Index, forced: &SparseSet) -> Result<(), AllocError>
        ensures grows { OnOk result (Grows (length index.now.packages) self.old.places self.new.places) }
        ensures names { OnOk result (HasNames index.now (members_of forced.now) (members_of self.new.places)) }
        ensures reaches { OnOk result (Reaches index.now (members_of []) self.old.places self.new.places) }
        ensures unmet { OnOk result (self.new.unmet ≡ self.old.unmet) }
    {
        for name in index.essential_names() {
            let row = index.places_named(*name);
            if !has_any(forced, row) {
                self.places.extend(row)?;
            }
        }
        Ok(())
    }

    /// Brings in all places that answer a need of a place, and lists it, unless a forced place answers it.
    fn visit(&mut self, ground: &Ground<'_>, place: u32) -> Result<(), AllocError>
        requires { place < length ground.now.index.now.packages }
        ensures gathers { OnOk result (Gathers ground.now.index.now (members_of ground.now.forced.now) (λ q j. place ≡ q) self.old self.new) }
        ensures reaches { OnOk result (Reaches ground.now.index.now (λ q. place == q) self.old.places self.new.places) }
    {
        if ground.is_met(place) {
            return Ok(());
        }
        for number in 0..ground.index.need_count(place) {
            let row = ground.index.answers(place, number, &mut self.found)?;
            if !has_any(ground.forced, row) {
                self.places.extend(row)?;
                self.unmet.push(UnmetNeed { place, number })?;
            }
        }
        Ok(())
    }

    /// Visits each forced place.
    fn visit_forced(&mut self, ground: &Ground<'_>) -> Result<(), AllocError>
        ensures gathers { OnOk result (Gathers ground.now.index.now (members_of ground.now.forced.now) (λ q j. members_of ground.now.forced.now q ≡ true)
            self.old self.new) }
        ensures reaches { OnOk result (Reaches ground.now.index.now (members_of ground.now.forced.now) self.old.places self.new.places) }
    {
        for place in ground.forced.as_slice() {
            self.visit(ground, *place)?;
        }
        Ok(())
    }

    /// Visits each candidate, as long as candidates come.
    fn visit_candidates(&mut self, ground: &Ground<'_>) -> Result<(), AllocError>
        requires { AreNumbers (length ground.now.index.now.packages) self.old.places }
        ensures gathers { OnOk result (Gathers ground.now.index.now (members_of ground.now.forced.now) (λ q j. members_of self.new.places q ≡ true)
            self.old self.new) }
        ensures reaches { OnOk result (Reaches ground.now.index.now (members_of []) self.old.places self.new.places) }
    {
        let mut visited = 0;
        while visited < self.places.as_slice().len() {
            let place = self.places.as_slice()[visited];
            self.visit(ground, place)?;
            visited += 1;
        }
        Ok(())
    }

    /// Finds, rising, the candidates of a package: itself, and all that may meet an essential name or a need of a place in play that no forced
    /// place meets. Lists these needs. Each is reached from the package, the essential names and the forced places.
    pub(crate) fn gather(&mut self, ground: &Ground<'_>, p: u32) -> Result<(), AllocError>
        requires { p < length ground.now.index.now.packages }
        ensures gathered { OnOk result (IsGathered ground.now.index.now (members_of ground.now.forced.now) self.new) }
        ensures start { OnOk result (members_of self.new.places p ≡ true) }
        ensures least { OnOk result ((other : NumberSet) → IsClosed ground.now.index.now p other → IsWithin (members_of ground.now.forced.now) other
            → IsWithin (members_of self.new.places) other) }
    {
        self.places.clear();
        self.unmet.clear();
        self.places.insert(p)?;
        self.bring_essentials(ground.index, ground.forced)?;
        self.visit_forced(ground)?;
        self.visit_candidates(ground)?;
        self.places.sort();
        Ok(())
    }
}
