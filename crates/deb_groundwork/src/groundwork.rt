//! What the verdicts of an index have in common.

ghost use Rattle.std.specs.Prelude.{◌≡◌, ℕ, ◌<◌, ◌==◌, true, All, IfOk, OnOk, length};
ghost use Rattle.std.specs.List.{list_all};
ghost use Rattle.std.proofs.Props.{props};
ghost use Rattle.deb_index.specs.Packages.{aparts_at};
ghost use Rattle.deb_index.specs.Constraints.{hits, IsAlone};
ghost use Rattle.number_sets.specs.Sets.{NumberSet, members_of, MarksOnly, IsWithin, AreNumbers};
ghost use Rattle.deb_groundwork.specs.BaseSets.{IsBase};
ghost use Rattle.deb_groundwork.specs.Groundwork.{HasAnswers, AreHopeless};
ghost use Rattle.deb_health.specs.Health.{IsHealthy, IsHopeless, IsInstallation};

use crate::answering::are_answered;
use crate::base_set::BaseSet;
use crate::forced::{force_essential, force_from};
use crate::hopeless::{find_lacking, lacks_essential};
use crate::large_set::find_base_set;
use deb_index::Index;
use number_sets::SparseSet;
use std::alloc::{AllocError, Global};

/// What the verdicts of an index have in common, found once for all of them: which packages its essential ones ask for, which packages
/// can't be installed since what they need is missing, and which have constraints that hold anyway (Debian Policy 7.2, 7.4 and 3.8 on
/// essential packages).
#[derive(Drop)]
pub struct Groundwork<'a> {
    pub index: &'a Index,
    /// Places that are in every healthy set.
    pub forced: SparseSet,
    /// Whether no set at all is healthy.
    none_healthy: bool,
    /// By place: what is in every healthy set answers each need.
    pub met: Vec<bool>,
    /// By place: no other package is hit by an entry, and none has the name.
    pub alone: Vec<bool>,
    /// A large set of packages, each with what it asks for.
    pub base: BaseSet,
    /// Places that lack a need, or need without a choice what does, whatever essential names lack.
    pub lacking: SparseSet,
    ghost places: { AreNumbers (length index.now.packages) forced } by { Prim.hlevel props },
    ghost in_all: { (set : NumberSet) → IsHealthy index.now set → IsWithin (members_of forced) set },
    ghost in_none: { AreHopeless index.now (members_of lacking) },
    ghost none: { none_healthy ≡ true → (place : ℕ) → IsHopeless index.now place },
    ghost marks_met: { MarksOnly (HasAnswers index.now (members_of forced)) met.items },
    ghost marks_alone: { MarksOnly (IsAlone index.now) alone.items },
    ghost stands: { IsBase index.now base },
}

/// Whether a row has no place but one.
fn has_only(row: &[u32], place: u32) -> bool
    ensures { result ≡ true → list_all (λ other. other == place) row.now ≡ true }
{
    match row {
        [] => true,
        [only] => *only == place,
        _ => false,
    }
}

/// Whether an entry hits no place but its own. `false` where what it hits is too much for a row.
fn hits_none(index: &Index, place: u32, number: u32) -> bool
    requires place { place < length index.now.packages }
    requires number { number < length (aparts_at index.now place) }
    ensures { result ≡ true → (q : ℕ) → hits index.now place number q ≡ true → q ≡ place }
{
    match index.hit_row(place, number) {
        Some(row) => has_only(row, place),
        None => false,
    }
}

/// Whether no entry of a place hits another one, and no other one has its name.
fn is_alone(index: &Index, place: u32) -> bool
    requires { place < length index.now.packages }
    ensures { result ≡ true → IsAlone index.now place }
{
    for number in 0..index.apart_count(place) {
        if !hits_none(index, place, number) {
            return false;
        }
    }
    has_only(index.versions_of(place), place)
}

/// Marks the places whose needs are answered by places that are in.
fn mark_met(alloc: Global, index: &Index, forced: &SparseSet) -> Result<Vec<bool>, AllocError>
    ensures { IfOk result (λ marks. MarksOnly (HasAnswers index.now (members_of forced.now)) marks.items) }
{
    let mut marks = Vec::with_capacity(alloc, index.len() as usize)?;
    for place in 0..index.len() {
        marks.push(are_answered(index, forced, place))?;
    }
    Ok(marks)
}

/// Marks the places whose entries hit no other one, and that no other one has the name of.
fn mark_alone(alloc: Global, index: &Index) -> Result<Vec<bool>, AllocError>
    ensures { IfOk result (λ marks. MarksOnly (IsAlone index.now) marks.items) }
{
    let mut marks = Vec::with_capacity(alloc, index.len() as usize)?;
    for place in 0..index.len() {
        marks.push(is_alone(index, place))?;
    }
    Ok(marks)
}

/// Finds places that are in every healthy set.
fn force_all(alloc: Global, index: &Index) -> Result<SparseSet, AllocError>
    ensures places { IfOk result (λ forced. AreNumbers (length index.now.packages) forced) }
    ensures in_all { IfOk result (λ forced. (set : NumberSet) → IsHealthy index.now set → IsWithin (members_of forced) set) }
{
    let mut forced = SparseSet::new(alloc);
    force_essential(index, &mut forced)?;
    force_from(index, &[], 0, &mut forced)?;
    Ok(forced)
}

impl<'a> Groundwork<'a> {
    /// Goes once through the packages of the index, without a search. The error is want of memory.
    pub fn new(alloc: Global, index: &'a Index) -> Result<Groundwork<'a>, AllocError>
        ensures { IfOk result (λ groundwork. groundwork.index.now ≡ index.now) }
    {
        let alone = mark_alone(alloc, index)?;
        let forced = force_all(alloc, index)?;
        let met = mark_met(alloc, index, &forced)?;
        let mut lacking = SparseSet::new(alloc);
        find_lacking(index, &mut lacking)?;
        let none_healthy = lacks_essential(index, &lacking);
        let base = find_base_set(alloc, index, &lacking);
        Ok(Groundwork {
            index,
            forced,
            none_healthy,
            met,
            alone,
            base,
            lacking,
        })
    }

    /// Whether no healthy set is known to have a place.
    pub fn is_hopeless(&self, place: u32) -> bool
        ensures { result ≡ true → IsHopeless self.now.index.now place }
    {
        if self.none_healthy {
            return true;
        }
        self.lacking.contains(place)
    }

    /// Whether what is in every healthy set is known to answer each need of a place.
    pub fn is_met(&self, place: u32) -> bool
        ensures { result ≡ true → HasAnswers self.now.index.now (members_of self.now.forced) place }
    {
        match self.met.get(place as usize) {
            Some(met) => *met,
            None => false,
        }
    }

    /// Finds places that are in every healthy set with the package at a place, those of the groundwork among them.
    pub fn force(&self, p: u32, forced: &mut SparseSet) -> Result<(), AllocError>
        requires { p < length self.now.index.now.packages }
        ensures start { OnOk result (members_of forced.new p ≡ true) }
        ensures follows { OnOk result ((set : NumberSet) → IsInstallation self.now.index.now p set → IsWithin (members_of forced.new) set) }
        ensures ground { OnOk result (IsWithin (members_of self.now.forced) (members_of forced.new)) }
        ensures within { OnOk result (All (λ q. q < length self.now.index.now.packages) forced.new) }
    {
        forced.clear();
        forced.extend(self.forced.as_slice())?;
        let start = forced.as_slice().len();
        forced.insert(p)?;
        force_from(self.index, &self.met, start, forced)?;
        Ok(())
    }
}
