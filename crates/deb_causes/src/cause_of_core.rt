//! The cause of a core: what it says is wrong, and what is told of it.

ghost use Rattle.std.specs.Prelude.{◌≡◌, ◌<◌, ◌&&◌, ◌||◌, [], ℕ, All, IfOk, OnOk, Some, length, map, slice_get};
ghost use Rattle.std.specs.List.{list_any};
ghost use Rattle.deb_index.specs.Constraints.{IsOfIndex, constraints_of};
ghost use Rattle.deb_index.specs.Packages.{first_of_each};
ghost use Rattle.deb_health.specs.Causes.{cause_in};
ghost use Rattle.number_sets.specs.Sets.{members_of};
ghost use Rattle.deb_causes.specs.Causes.{is_answer_to, is_version_of, needs_in, says_same, versions_in, is_need_at, is_only};

use crate::wrongs::{is_final, says_of};
use deb_index::{Constraint, Index};
use indexmap::IndexSet;
use number_sets::{SparseSet, sort_once};
use std::alloc::{AllocError, Global};

/// As `wrongs_in`, with a set of what is said, which is empty at first.
fn wrongs_said(
    alloc: Global,
    index: &Index,
    core: &[Constraint],
    said: &mut IndexSet<Vec<u32>>,
) -> Result<Vec<Constraint>, AllocError>
    requires within { All (IsOfIndex index.now) core.now }
    requires none { said.old.keys ≡ [] }
    ensures { IfOk result (λ wrongs. wrongs.items ≡ first_of_each (says_same index.now) (cause_in index.now core.now)) }
{
    let mut wrongs = Vec::new(alloc);
    for constraint in core {
        if is_final(alloc, index, *constraint)? {
            let is_new = said.insert(says_of(alloc, index, *constraint)?)?;
            if is_new {
                wrongs.push(*constraint)?;
            }
        }
    }
    Ok(wrongs)
}

/// What a core says is wrong: of its final constraints the first of each that say the same.
pub(crate) fn wrongs_in(
    alloc: Global,
    index: &Index,
    core: &[Constraint],
) -> Result<Vec<Constraint>, AllocError>
    requires { All (IsOfIndex index.now) core.now }
    ensures { IfOk result (λ wrongs. wrongs.items ≡ first_of_each (says_same index.now) (cause_in index.now core.now)) }
{
    let mut said = IndexSet::new(alloc);
    let wrongs = wrongs_said(alloc, index, core, &mut said);
    drop(said);
    wrongs
}

/// Adds the positions of a core's needs that no package meets.
fn push_needs(
    alloc: Global,
    index: &Index,
    core: &[Constraint],
    positions: &mut Vec<u32>,
) -> Result<(), AllocError>
    requires { All (IsOfIndex index.now) core.now }
    ensures { OnOk result ((k : ℕ) → members_of positions.new.items k
        ≡ (members_of positions.old.items k || is_need_at index.now (cause_in index.now core.now) k)) }
{
    for constraint in core {
        if let Constraint::Need(place, number) = *constraint {
            if is_final(alloc, index, *constraint)? {
                positions.push(index.need_position(place, number))?;
            }
        }
    }
    Ok(())
}

/// The constraints at some positions.
fn constraints_at(
    alloc: Global,
    index: &Index,
    positions: &[u32],
) -> Result<Vec<Constraint>, AllocError>
    requires { All (λ k. k < length (constraints_of index.now)) positions.now }
    ensures { IfOk result (λ constraints. map (slice_get (constraints_of index.now)) positions.now ≡ map Some constraints.items) }
{
    let mut constraints = Vec::new(alloc);
    for position in positions {
        constraints.push(index.constraint_at(*position))?;
    }
    Ok(constraints)
}

/// The needs of the cores that no package meets, each once, in the index's order.
pub(crate) fn needs_in(
    alloc: Global,
    index: &Index,
    cores: &[&[Constraint]],
) -> Result<Vec<Constraint>, AllocError>
    requires { All (λ core. All (IsOfIndex index.now) core.now) cores.now }
    ensures { IfOk result (λ needs. needs.items ≡ needs_in index.now (map (λ core. core.now) cores.now)) }
{
    let mut positions = Vec::new(alloc);
    for core in cores {
        push_needs(alloc, index, core, &mut positions)?;
    }
    sort_once(&mut positions);
    constraints_at(alloc, index, positions.as_slice())
}

/// Whether a core says that there may be one version of some name.
fn has_only(core: &[Constraint]) -> bool
    ensures { result ≡ list_any is_only core.now }
{
    core.iter()
        .any(|constraint| matches!(constraint, Constraint::Only(_)))
}

/// Adds the places of the packages that answer a need of a core.
fn add_answers(
    index: &Index,
    core: &[Constraint],
    found: &mut Vec<u32>,
    answering: &mut SparseSet,
) -> Result<(), AllocError>
    requires { All (IsOfIndex index.now) core.now }
    ensures { OnOk result ((q : ℕ) → members_of answering.new q ≡ (members_of answering.old q || list_any (is_answer_to index.now q) core.now)) }
{
    for constraint in core {
        if let Constraint::Need(place, number) = *constraint {
            answering.extend(index.answers(place, number, found)?)?;
        }
    }
    Ok(())
}

/// Adds those places that are among some.
fn push_among(
    places: &[u32],
    answering: &SparseSet,
    versions: &mut Vec<u32>,
) -> Result<(), AllocError>
    ensures { OnOk result ((q : ℕ) → members_of versions.new.items q
        ≡ (members_of versions.old.items q || (members_of answering.now q && members_of places.now q))) }
{
    for place in places {
        if answering.contains(*place) {
            versions.push(*place)?;
        }
    }
    Ok(())
}

/// Adds the places of the packages, of the names of which a core says that there may be one version, that are among some.
fn push_versions(
    index: &Index,
    core: &[Constraint],
    answering: &SparseSet,
    versions: &mut Vec<u32>,
) -> Result<(), AllocError>
    requires { All (IsOfIndex index.now) core.now }
    ensures { OnOk result ((q : ℕ) → members_of versions.new.items q
        ≡ (members_of versions.old.items q || (members_of answering.now q && list_any (is_version_of index.now q) core.now))) }
{
    for constraint in core {
        if let Constraint::Only(name) = *constraint {
            push_among(index.places_named(name), answering, versions)?;
        }
    }
    Ok(())
}

/// The places, rising, of the packages that the cores ask for, by a name of which there may be one version.
pub(crate) fn versions_in(
    alloc: Global,
    index: &Index,
    cores: &[&[Constraint]],
) -> Result<Vec<u32>, AllocError>
    requires { All (λ core. All (IsOfIndex index.now) core.now) cores.now }
    ensures { IfOk result (λ versions. versions.items ≡ versions_in index.now (map (λ core. core.now) cores.now)) }
{
    let mut versions = Vec::new(alloc);
    let mut found = Vec::new(alloc);
    let mut answering = SparseSet::new(alloc);
    for core in cores {
        if has_only(core) {
            answering.clear();
            add_answers(index, core, &mut found, &mut answering)?;
            push_versions(index, core, &answering, &mut versions)?;
        }
    }
    sort_once(&mut versions);
    Ok(versions)
}
