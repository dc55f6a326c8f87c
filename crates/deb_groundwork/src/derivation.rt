//! A refutation of a part of the constraints as a list of steps, and its check.

ghost use Rattle.std.specs.Prelude.{◌≡◌, ◌≢◌, ℕ, ◌<◌, true, IfSome, length};
ghost use Rattle.number_sets.specs.Sets.{NumberSet, members_of};
ghost use Rattle.deb_index.specs.Packages.{needs_at, aparts_at};
ghost use Rattle.deb_health.specs.Health.{AdmitsNone};
ghost use Rattle.deb_groundwork.specs.Parts.{IsRefutedBy, Gives};

use crate::part::Part;
use crate::rows::{essential_count, essential_row};
use deb_index::Index;
use number_sets::SparseSet;

/// A step of a refutation: a constraint, and the places that it is held against.
#[derive(Clone, Copy)]
pub(crate) enum Step {
    /// That some package has an essential name, by its number among the essential names.
    Essential(u32),
    /// A need of the package at a place, which is in.
    Need(u32, u32),
    /// An entry of the package at a place, and another place: both are in.
    Apart(u32, u32, u32),
    /// That no name is there twice, and two places of one name: both are in.
    Only(u32, u32),
}

/// A constraint, by its position, and a row of places of which each set has one that has some places and meets it.
#[derive(Clone, Copy)]
struct Conclusion<'a> {
    position: u32,
    row: &'a [u32],
}

/// Whether the index has a group.
pub(crate) fn has_need(index: &Index, place: u32, number: u32) -> bool
    ensures { result ≡ true → (place < length index.now.packages) × (number < length (needs_at index.now place)) }
{
    place < index.len() && number < index.need_count(place)
}

/// Whether the index has an entry.
fn has_apart(index: &Index, place: u32, number: u32) -> bool
    ensures { result ≡ true → (place < length index.now.packages) × (number < length (aparts_at index.now place)) }
{
    place < index.len() && number < index.apart_count(place)
}

/// What an essential name gives, by its number among them.
fn by_essential(index: &Index, number: u32) -> Option<Conclusion<'_>>
    ensures { IfSome result (λ found. (forced : NumberSet) → Gives index.now forced found.position found.row.now) }
{
    if number >= essential_count(index) {
        return None;
    }
    Some(Conclusion {
        position: number,
        row: essential_row(index, number),
    })
}

/// What a need gives where its owner is in.
fn by_need<'a>(
    index: &'a Index,
    place: u32,
    number: u32,
    forced: &SparseSet,
) -> Option<Conclusion<'a>>
    ensures { IfSome result (λ found. Gives index.now (members_of forced.now) found.position found.row.now) }
{
    if !has_need(index, place, number) || !forced.contains(place) {
        return None;
    }
    let row = index.answer_row(place, number)?;
    Some(Conclusion {
        position: index.need_position(place, number),
        row,
    })
}

/// Whether two places are in, and are not one.
fn are_two(forced: &SparseSet, first: u32, second: u32) -> bool
    ensures { result ≡ true → (members_of forced.now first ≡ true) × (members_of forced.now second ≡ true) × (second ≢ first) }
{
    second != first && forced.contains(first) && forced.contains(second)
}

/// What an entry gives where it hits another place than its own, and both are in.
fn by_apart<'a>(
    index: &'a Index,
    place: u32,
    number: u32,
    other: u32,
    forced: &SparseSet,
) -> Option<Conclusion<'a>>
    ensures { IfSome result (λ found. Gives index.now (members_of forced.now) found.position found.row.now) }
{
    if !has_apart(index, place, number) || other >= index.len() {
        return None;
    }
    if !are_two(forced, place, other) || !index.meets(other, index.apart(place, number)) {
        return None;
    }
    Some(Conclusion {
        position: index.apart_position(place, number),
        row: &[],
    })
}

/// What it gives that no name is there twice, where two places of one name are in.
fn by_only<'a>(
    index: &'a Index,
    first: u32,
    second: u32,
    forced: &SparseSet,
) -> Option<Conclusion<'a>>
    ensures { IfSome result (λ found. Gives index.now (members_of forced.now) found.position found.row.now) }
{
    if first >= index.len() || second >= index.len() {
        return None;
    }
    let name = index.name_of(first);
    if !are_two(forced, first, second) || index.name_of(second) != name {
        return None;
    }
    Some(Conclusion {
        position: index.only_position(name),
        row: &[],
    })
}

/// What a step gives for the places that are in; `None` where it doesn't hold of them.
fn conclude<'a>(index: &'a Index, step: Step, forced: &SparseSet) -> Option<Conclusion<'a>>
    ensures { IfSome result (λ found. Gives index.now (members_of forced.now) found.position found.row.now) }
{
    match step {
        Step::Essential(number) => by_essential(index, number),
        Step::Need(place, number) => by_need(index, place, number, forced),
        Step::Apart(place, number, other) => by_apart(index, place, number, other, forced),
        Step::Only(first, second) => by_only(index, first, second, forced),
    }
}

/// Whether the steps, the last one first, lead from the package at a place to a contradiction. `positions` then has their constraints, all of the
/// part; `forced` is a buffer. `false`, too, for want of memory.
pub(crate) fn is_refutation(
    part: &Part<'_>,
    p: u32,
    steps: &[Step],
    forced: &mut SparseSet,
    positions: &mut Vec<u32>,
) -> bool
    ensures { result ≡ true → IsRefutedBy positions.new.items part.now p }
{
    forced.clear();
    positions.clear();
    let Ok(()) = forced.insert(p) else {
        return false;
    };
    for number in (0..steps.len()).rev() {
        let Some(found) = conclude(part.index, steps[number], forced) else {
            return false;
        };
        if !part.has(found.position) {
            return false;
        }
        let Ok(()) = positions.push(found.position) else {
            return false;
        };
        let place = match found.row {
            [] => return true,
            [only] => *only,
            _ => return false,
        };
        let Ok(()) = forced.insert(place) else {
            return false;
        };
    }
    false
}
