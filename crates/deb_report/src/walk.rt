//! The steps of a walk through a core, from a package.

ghost use Rattle.std.specs.Prelude.{◌≡◌, ◌<◌, ◌++◌, ℕ, All, IfOk, OnOk, filter, length, map, reverse};
ghost use Rattle.deb_index.specs.Constraints.{IsOfIndex};
ghost use Rattle.deb_index.specs.Packages.{apart_at};
ghost use Rattle.deb_index.specs.declared.constraint.Constraint.{Constraint};
ghost use Rattle.number_sets.specs.Sets.{members_of};
ghost use Rattle.deb_report.specs.declared.walk.Step.{Step};
ghost use Rattle.deb_report.specs.Walk.{are_told, begin_step, brought, comers, depth_of, first_steps, hits_in, met_steps, named_step, own_steps, places_in};

use crate::hits::push_hit;
use crate::own::OwnTable;
use deb_index::{Constraint, Index};
use std::alloc::{AllocError, Global};
use std::collections::HashSet;

/// A step that is still to go.
#[derive(Clone, Copy)]
pub enum Step {
    /// The package at a place is told, where it wasn't yet.
    Begin(u32),
    /// The package at a place is met, at a depth, by a constraint.
    Meet(u32, u32, Constraint),
    /// A constraint of the core is told, at a depth.
    Tell(u32, Constraint),
}

/// The places of the packages that a constraint brings: those that answer a need, or have an essential name.
///
/// The constraint is of the index; what has to be looked up is put into `found`. `AllocError` where there is no memory for it.
#[tactic(auto, unfolding(crate::specs::Walk::brought))]
pub(crate) fn brought<'a>(
    index: &'a Index,
    constraint: Constraint,
    found: &'a mut Vec<u32>,
) -> Result<&'a [u32], AllocError>
    requires { IsOfIndex index.now constraint }
    ensures { IfOk result (λ places. places.now ≡ brought index.now constraint) }
{
    match constraint {
        Constraint::Essential(name) => Ok(index.places_named(name)),
        Constraint::Need(place, number) => index.answers(place, number, found),
        Constraint::Apart(_, _) | Constraint::Only(_) => Ok(&[]),
    }
}

/// The packages that come in the walk of a core from a place.
///
/// The core is of the index. `AllocError` where there is no memory for it.
pub(crate) fn comers(
    alloc: Global,
    index: &Index,
    place: u32,
    core: &[Constraint],
) -> Result<HashSet<u32>, AllocError>
    requires { All (IsOfIndex index.now) core.now }
    ensures { IfOk result (λ coming. places_in coming ≡ members_of (comers index.now core.now place)) }
{
    let mut coming = HashSet::new(alloc);
    let mut found = Vec::new(alloc);
    coming.insert(place)?;
    for constraint in core {
        coming.extend(brought(index, *constraint, &mut found)?)?;
    }
    Ok(coming)
}

/// Whether all these packages are told.
pub(crate) fn are_told(told: &HashSet<u32>, places: &[u32]) -> bool
    ensures { result ≡ are_told (places_in told.now) places.now }
{
    places.iter().all(|place| told.contains(place))
}

/// What the core says of the package at a place, as steps at a depth. `AllocError` where there is no memory for it.
#[tactic(auto, unfolding(crate::specs::Walk::own_steps))]
pub(crate) fn own_steps(
    alloc: Global,
    core: &OwnTable,
    depth: u32,
    place: u32,
) -> Result<Vec<Step>, AllocError>
    ensures { IfOk result (λ steps. steps.items ≡ own_steps core.now depth place) }
{
    let said = core.said_of(place).iter();
    said.map(|one| Step::Tell(depth, *one)).collect(alloc)
}

/// The depth of packages that are met by one constraint.
fn depth_of(depth: u32, places: &[u32]) -> u32
    ensures { result ≡ depth_of depth places.now }
{
    if places.len() > 1 && depth < 20 {
        depth + 1
    } else {
        depth
    }
}

/// The packages at these places, met by a constraint.
fn meet_each(
    alloc: Global,
    depth: u32,
    places: &[u32],
    constraint: Constraint,
) -> Result<Vec<Step>, AllocError>
    ensures { IfOk result (λ steps. steps.items ≡ map (λ place. Step.Meet depth place constraint) places.now) }
{
    let places = places.iter();
    places
        .map(|place| Step::Meet(depth, *place, constraint))
        .collect(alloc)
}

/// The packages that a constraint brings, where one of them isn't told yet.
///
/// The constraint is of the index. `AllocError` where there is no memory for it.
#[tactic(auto, unfolding(crate::specs::Walk::met_steps))]
pub(crate) fn met_steps(
    alloc: Global,
    index: &Index,
    told: &HashSet<u32>,
    depth: u32,
    constraint: Constraint,
) -> Result<Vec<Step>, AllocError>
    requires { IsOfIndex index.now constraint }
    ensures { IfOk result (λ steps. steps.items ≡ met_steps index.now (places_in told.now) depth constraint) }
{
    let mut found = Vec::new(alloc);
    let places = brought(index, constraint, &mut found)?;
    if are_told(told, places) {
        Ok(Vec::new(alloc))
    } else {
        meet_each(alloc, depth_of(depth, places), places, constraint)
    }
}

/// Puts steps before those that are still to go: the last of the list is the next. `AllocError` where there is no memory for it.
pub(crate) fn put_before(stack: &mut Vec<Step>, steps: Vec<Step>) -> Result<(), AllocError>
    ensures { OnOk result (reverse stack.new.items ≡ steps.items ++ reverse stack.old.items) }
{
    let mut left = steps;
    while let Some(step) = left.pop() {
        stack.push(step)?;
    }
    Ok(())
}

/// Adds what a constraint begins a walk with, where it is a name.
fn push_named(steps: &mut Vec<Step>, constraint: Constraint) -> Result<(), AllocError>
    ensures { OnOk result (steps.new.items ≡ steps.old.items ++ named_step constraint) }
{
    match constraint {
        Constraint::Essential(_) | Constraint::Only(_) => steps.push(Step::Tell(0, constraint))?,
        Constraint::Need(_, _) | Constraint::Apart(_, _) => (),
    }
    Ok(())
}

/// Adds the package that asks for a constraint.
fn push_begin(steps: &mut Vec<Step>, constraint: Constraint) -> Result<(), AllocError>
    ensures { OnOk result (steps.new.items ≡ steps.old.items ++ begin_step constraint) }
{
    match constraint {
        Constraint::Need(place, _) | Constraint::Apart(place, _) => {
            steps.push(Step::Begin(place))?;
        }
        Constraint::Essential(_) | Constraint::Only(_) => (),
    }
    Ok(())
}

/// The steps that a walk begins with. `AllocError` where there is no memory for it.
#[tactic(auto, unfolding(crate::specs::Walk::first_steps))]
pub(crate) fn first_steps(
    alloc: Global,
    core: &[Constraint],
    place: u32,
) -> Result<Vec<Step>, AllocError>
    ensures { IfOk result (λ steps. steps.items ≡ first_steps core.now place) }
{
    let mut steps = Vec::new(alloc);
    steps.push(Step::Begin(place))?;
    for named in core {
        push_named(&mut steps, *named)?;
    }
    for constraint in core {
        push_begin(&mut steps, *constraint)?;
    }
    Ok(steps)
}

/// Those of some packages that come in the walk. `AllocError` where there is no memory for it.
pub(crate) fn those_coming(
    alloc: Global,
    coming: &HashSet<u32>,
    places: &[u32],
) -> Result<Vec<u32>, AllocError>
    ensures { IfOk result (λ those. those.items ≡ filter (places_in coming.now) places.now) }
{
    let places = places.iter().copied();
    places.filter(|place| coming.contains(place)).collect(alloc)
}

/// The packages of the walk that an entry of the package at a place hits.
///
/// The entry is of the index. `AllocError` where there is no memory for it.
pub(crate) fn hits_in(
    alloc: Global,
    index: &Index,
    coming: &HashSet<u32>,
    place: u32,
    number: u32,
) -> Result<Vec<u32>, AllocError>
    requires { IsOfIndex index.now (Constraint.Apart place number) }
    ensures { IfOk result (λ hits. hits.items ≡ hits_in index.now (places_in coming.now) place (apart_at index.now place number)) }
{
    let mut hits = Vec::new(alloc);
    push_hit(alloc, index, place, number, &mut hits)?;
    those_coming(alloc, coming, hits.as_slice())
}
