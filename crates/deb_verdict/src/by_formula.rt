//! The formula of a package that no healthy set has: it is made once, and says of each part of the constraints whether a set with the package
//! meets it.

ghost use Rattle.std.specs.Prelude.{◌≡◌, ◌<◌, ◌≤◌, ◌-◌, true, false, IfOk, OnOk, get_or, length, map};
ghost use Rattle.std.specs.List.Sorted.{IsStrictlyIncreasing};
ghost use Rattle.std.specs.Option.{ForSome};
ghost use Rattle.number_sets.specs.Sets.{members_of};
ghost use Rattle.deb_health.specs.Health.{AdmitsNone};
ghost use Rattle.deb_groundwork.specs.Parts.{positions_in, IsRefutedBy, taken_out};
ghost use Rattle.deb_verdict.specs.Formulas.{IsChosen, Tells, AreKnown, AreNeeded};

use crate::core_formula::CoreFormula;
use crate::first_set::count_of;
use crate::gather::Ground;
use crate::kept_positions::{list_constraints, list_positions};
use crate::known::Known;
use crate::limits::SHARE;
use crate::workspace::Workspace;
use deb_encode::{Play, encode_each};
use deb_groundwork::Part;
use deb_index::Index;
use sat_solve::Formula;
use std::alloc::{AllocError, Global};

/// Makes the formula of a package: it has a variable for each place of the package's closure, and a group for each constraint that speaks of
/// one. Other constraints don't matter.
fn describe(
    alloc: Global,
    index: &Index,
    p: u32,
    workspace: &mut Workspace,
) -> Result<CoreFormula, AllocError>
    requires { p < length index.now.packages }
    ensures { IfOk result (Tells index.now p) }
{
    workspace.nothing.clear();
    let ground = Ground {
        index,
        forced: &workspace.nothing.members,
        met: &[],
    };
    workspace.candidates.gather(&ground, p)?;
    let closure = &workspace.candidates.places;
    let mut positions = Vec::new(alloc);
    let members = closure.as_slice();
    list_positions(index, members, &mut positions)?;
    list_constraints(index, &positions, &mut workspace.constraints)?;
    let mut formula = Formula::new(alloc, count_of(index, members), positions.len() as u32)?;
    let play = Play::new(index, &workspace.nothing.members, closure, &[]);
    encode_each(
        &play,
        &workspace.constraints,
        &mut workspace.clause,
        &mut workspace.gathered,
        &mut formula,
    )?;
    let must = closure.position_of(p).unwrap();
    Ok(CoreFormula {
        positions,
        formula,
        must: must as u32,
    })
}

/// Whether the numbers of a list before a place are seen to be smaller than a number: where it rises, the last one of them tells.
fn is_behind(numbers: &[u32], number: u32, place: usize) -> bool
    ensures { result ≡ true → (place ≤ length numbers.now) × (0 < place → get_or numbers.now (place - 1) 0 < number) }
{
    let Some(last) = place.checked_sub(1) else {
        return true;
    };
    match numbers.get(last) {
        Some(before) => *before < number,
        None => false,
    }
}

/// Whether a rising list has a number. Where numbers are asked for in rising order, the answer stands at `at`, behind the last one's.
fn is_next(numbers: &[u32], number: u32, at: &mut usize) -> bool
    requires { IsStrictlyIncreasing numbers.now }
    ensures { result ≡ members_of numbers.now number }
{
    let here = *at;
    if is_behind(numbers, number, here) {
        match numbers.get(here) {
            None => return false,
            Some(next) if *next > number => return false,
            Some(next) if *next == number => {
                *at = here + 1;
                return true;
            }
            _ => {}
        }
    }
    match numbers.binary_search(&number) {
        Ok(place) => {
            *at = place + 1;
            true
        }
        Err(place) => {
            *at = place;
            false
        }
    }
}

/// Whether a part has the constraint at a position, where positions are asked for in rising order.
fn has_next(part: &Part<'_>, position: u32, kept: &mut usize) -> bool
    ensures { result ≡ positions_in part.now position }
{
    (position >= part.rest || is_next(part.kept, position, kept)) && !part.is_out(position)
}

/// Marks the positions that a part has.
fn mark_kept(part: &Part<'_>, positions: &[u32], keep: &mut Vec<bool>) -> Result<(), AllocError>
    ensures { OnOk result (keep.new.items ≡ map (positions_in part.now) positions.now) }
{
    keep.clear();
    let mut kept = 0;
    for position in positions {
        keep.push(has_next(part, *position, &mut kept))?;
    }
    Ok(())
}

/// Lists the positions of marked groups.
fn take_marked(positions: &[u32], marks: &[bool], used: &mut Vec<u32>) -> Result<(), AllocError>
    requires { length marks.now ≡ length positions.now }
    ensures { OnOk result (IsChosen positions.now marks.now (members_of used.new.items)) }
{
    used.clear();
    for group in 0..positions.len() {
        if marks[group] {
            used.push(positions[group])?;
        }
    }
    Ok(())
}

/// Whether a part admits no set with the package whose formula this is.
fn refute_described(
    alloc: Global,
    part: &Part<'_>,
    p: u32,
    described: &CoreFormula,
    workspace: &mut Workspace,
) -> Result<bool, AllocError>
    requires { Tells part.now.index.now p described.now }
    ensures refuted { IfOk result (λ refuted. refuted ≡ true → IsRefutedBy workspace.new.used.items part.now p) }
    ensures admitted { IfOk result (λ refuted. refuted ≡ false → AdmitsNone part.now.index.now p (positions_in part.now) → ⊥) }
{
    mark_kept(part, &described.positions, &mut workspace.keep)?;
    let found = described.formula.solve_marked(
        alloc,
        &mut workspace.solver,
        &workspace.keep,
        described.must,
        &mut workspace.marks,
    )?;
    if let Some(set) = found {
        workspace.set = set;
        return Ok(false);
    }
    take_marked(&described.positions, &workspace.marks, &mut workspace.used)?;
    Ok(true)
}

/// Lists constraints of a part each of which every refutation of it needs, by sets that are come by from the last one, if that lacks the first
/// constraint of the rest alone.
fn list_needed(
    part: &Part<'_>,
    p: u32,
    described: &CoreFormula,
    workspace: &mut Workspace,
) -> Result<(), AllocError>
    requires { Tells part.now.index.now p described.now }
    ensures { OnOk result (AreNeeded part.now.index.now p (positions_in part.now) workspace.new.needed.items) }
{
    let group = match described.positions.binary_search(&part.rest) {
        Ok(group) => group,
        Err(group) => group,
    };
    mark_kept(part, &described.positions, &mut workspace.keep)?;
    let marks = described.formula.mark_needed(
        &mut workspace.rotation,
        &workspace.keep,
        described.must,
        &workspace.set,
        group.min(u32::MAX as usize) as u32,
    )?;
    take_marked(&described.positions, marks, &mut workspace.needed)?;
    Ok(())
}

/// Whether a formula may tell of enough constraints at once that they are needed: where the last refutation used a good part of its own.
pub(crate) fn tells_more(formula: &Option<CoreFormula>, used: &[u32]) -> bool {
    match formula {
        Some(described) => described.positions.len() / SHARE <= used.len(),
        None => true,
    }
}

/// Takes in what is needed of a part, where a set was found for it without the first constraint of its rest.
pub(crate) fn learn(
    alloc: Global,
    part: &Part<'_>,
    p: u32,
    formula: &Option<CoreFormula>,
    known: &mut Known,
    workspace: &mut Workspace,
) -> Result<(), AllocError>
    requires formula { ForSome formula.now (Tells part.now.index.now p) }
    requires known { AreKnown part.now.index.now p (taken_out part.now) known.old }
    ensures { AreKnown part.now.index.now p (taken_out part.now) known.new }
{
    let Some(described) = formula else {
        return Ok(());
    };
    if workspace.set.is_empty() {
        return Ok(());
    }
    list_needed(part, p, described, workspace)?;
    known.take(alloc, part.kept, part.rest, &workspace.needed)
}

/// Takes the formula of a package, which is made where it isn't there yet.
fn take_formula(
    alloc: Global,
    index: &Index,
    p: u32,
    formula: &mut Option<CoreFormula>,
    workspace: &mut Workspace,
) -> Result<CoreFormula, AllocError>
    requires place { p < length index.now.packages }
    requires formula { ForSome formula.old (Tells index.now p) }
    ensures formula { ForSome formula.new (Tells index.now p) }
    ensures tells { IfOk result (Tells index.now p) }
{
    match formula.take() {
        Some(described) => Ok(described),
        None => describe(alloc, index, p, workspace),
    }
}

/// Whether a part of the constraints admits no set with the package at a place. Where it admits none, the workspace's `used` then has the
/// positions of constraints of the part that already do.
///
/// The package's formula is made where it isn't there yet.
pub(crate) fn refute_by_formula(
    alloc: Global,
    part: &Part<'_>,
    p: u32,
    formula: &mut Option<CoreFormula>,
    workspace: &mut Workspace,
) -> Result<bool, AllocError>
    requires place { p < length part.now.index.now.packages }
    requires formula { ForSome formula.old (Tells part.now.index.now p) }
    ensures formula { ForSome formula.new (Tells part.now.index.now p) }
    ensures refuted { IfOk result (λ refuted. refuted ≡ true → IsRefutedBy workspace.new.used.items part.now p) }
    ensures admitted { IfOk result (λ refuted. refuted ≡ false → AdmitsNone part.now.index.now p (positions_in part.now) → ⊥) }
{
    let described = take_formula(alloc, part.index, p, formula, workspace)?;
    let refuted = refute_described(alloc, part, p, &described, workspace);
    *formula = Some(described);
    refuted
}
