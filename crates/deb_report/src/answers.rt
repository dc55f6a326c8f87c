//! By what packages answer a need.

ghost use Rattle.std.specs.Prelude.{◌≡◌, ◌<◌, All, IfOk, OnOk, length, map};
ghost use Rattle.std.specs.List.{list_any};
ghost use Rattle.std.specs.Option.{option_map};
ghost use Rattle.deb_relation.specs.Relationship.{atom_view};
ghost use Rattle.deb_index.specs.Constraints.{IsOfIndex};
ghost use Rattle.deb_index.specs.Packages.{package_view};
ghost use Rattle.deb_causes.specs.Near.{alternatives, near_view};
ghost use Rattle.deb_report.specs.Walk.{brought};
ghost use Rattle.deb_report.specs.Answers.{answer_at, answers_by, answers_itself, entry_told, first_entry, may_answer};
ghost use Rattle.deb_report.specs.WalkLines.{answers_to};

use crate::walk::brought;
use deb_causes::NearMiss;
use deb_index::{Constraint, Index, Package, meets_bound, provided_meets};
use deb_relation::Atom;
use std::alloc::{AllocError, Global};

/// Whether a package may stand for an alternative, whatever it meets it by.
fn may_answer(arch: &[u8], deb: &Package, atom: &Atom) -> bool
    ensures { result ≡ may_answer arch.now (package_view deb.now) (atom_view atom.now) }
{
    atom.usable(arch) && (!atom.has_any() || deb.multi_arch_allowed)
}

/// Whether a package meets an alternative by its own name and version.
fn answers_itself(arch: &[u8], deb: &Package, atom: &Atom) -> bool
    ensures { result ≡ answers_itself arch.now (package_view deb.now) (atom_view atom.now) }
{
    may_answer(arch, deb, atom)
        && atom.name.as_slice() == deb.name.as_slice()
        && meets_bound(&deb.version, atom)
}

/// Whether a package meets an alternative by an entry of its Provides.
fn answers_by(arch: &[u8], deb: &Package, entry: &Atom, atom: &Atom) -> bool
    ensures { result ≡ answers_by arch.now (package_view deb.now) (atom_view entry.now) (atom_view atom.now) }
{
    may_answer(arch, deb, atom)
        && entry.usable(arch)
        && atom.name.as_slice() == entry.name.as_slice()
        && provided_meets(entry, atom)
}

/// Whether a package meets one of these alternatives by its own name and version.
fn is_itself(arch: &[u8], deb: &Package, atoms: &[Atom]) -> bool
    ensures { result ≡ list_any (answers_itself arch.now (package_view deb.now)) (map atom_view atoms.now) }
{
    atoms.iter().any(|atom| answers_itself(arch, deb, atom))
}

/// Whether a package meets one of these alternatives by an entry of its Provides.
fn is_by(arch: &[u8], deb: &Package, entry: &Atom, atoms: &[Atom]) -> bool
    ensures { result ≡ list_any (answers_by arch.now (package_view deb.now) (atom_view entry.now)) (map atom_view atoms.now) }
{
    atoms.iter().any(|atom| answers_by(arch, deb, entry, atom))
}

/// The first entry of a package's Provides that meets one of these alternatives.
fn first_entry<'i>(arch: &[u8], deb: &'i Package, atoms: &[Atom]) -> Option<&'i Atom>
    ensures { option_map (λ entry. atom_view entry.now) result ≡ first_entry arch.now (map atom_view atoms.now) (package_view deb.now) }
{
    let mut entries = deb.provides.iter();
    entries.find(|entry| is_by(arch, deb, entry, atoms))
}

/// The entry that is told of a package that meets one of these alternatives.
#[tactic(auto, unfolding(crate::specs::Answers::entry_told))]
fn entry_told<'i>(
    alloc: Global,
    arch: &[u8],
    deb: &'i Package,
    atoms: &[Atom],
) -> Result<Vec<&'i Atom>, AllocError>
    ensures { IfOk result (λ told. map (λ entry. atom_view entry.now) told.items ≡ entry_told arch.now (map atom_view atoms.now) (package_view deb.now)) }
{
    let mut told = Vec::new(alloc);
    if is_itself(arch, deb, atoms) {
        return Ok(told);
    }
    if let Some(entry) = first_entry(arch, deb, atoms) {
        told.push(entry)?;
    }
    Ok(told)
}

/// The alternatives of a constraint, where it is a need.
#[tactic(auto, unfolding(deb_causes::specs::Near::alternatives))]
fn alternatives(index: &Index, constraint: Constraint) -> &[Atom]
    requires { IsOfIndex index.now constraint }
    ensures { map atom_view result.now ≡ alternatives index.now constraint }
{
    match constraint {
        Constraint::Need(place, number) => index.need(place, number),
        Constraint::Essential(_) | Constraint::Apart(_, _) | Constraint::Only(_) => &[],
    }
}

/// What is told of the package at a place that a constraint brings: by which entry of its Provides, where its own name and version meet none of the
/// alternatives.
///
/// The constraint and the place are of the index. `AllocError` where there is no memory for it.
pub(crate) fn answer_at<'i>(
    alloc: Global,
    index: &'i Index,
    constraint: Constraint,
    place: u32,
) -> Result<NearMiss<'i>, AllocError>
    requires constraint { IsOfIndex index.now constraint }
    requires place { place < length index.now.packages }
    ensures { IfOk result (λ answer. near_view answer ≡ answer_at index.now constraint place) }
{
    let deb = index.package(place);
    let provides = entry_told(alloc, index.arch(), deb, alternatives(index, constraint))?;
    Ok(NearMiss { deb, provides })
}

/// What is told of the packages that a constraint brings.
///
/// The constraint is of the index. `AllocError` where there is no memory for it.
#[tactic(auto, unfolding(crate::specs::WalkLines::answers_to))]
pub(crate) fn answers_to<'i>(
    alloc: Global,
    index: &'i Index,
    constraint: Constraint,
) -> Result<Vec<NearMiss<'i>>, AllocError>
    requires { IsOfIndex index.now constraint }
    ensures { IfOk result (λ answers. map near_view answers.items ≡ answers_to index.now constraint) }
{
    let mut found = Vec::new(alloc);
    let places = brought(index, constraint, &mut found)?;
    let mut answers = Vec::new(alloc);
    for place in places {
        answers.push(answer_at(alloc, index, constraint, *place)?)?;
    }
    Ok(answers)
}
